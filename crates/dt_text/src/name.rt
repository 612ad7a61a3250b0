ghost use Rattle.std.specs.Prelude.{◌≡◌, ◌↔◌, ◌<◌, ◌≤◌, ◌^◌, ℕ, [], List, length, IfOk, IsTrue, Some};
ghost use Rattle.dt_text.specs.Texts.{IsName, is_name_byte, first_outside};

use crate::bytes::is_name_byte;
use crate::common::Common;
use crate::errors::KeyError;
use crate::no_memory::NoMemory;
use crate::spelling::Spelling;
use std::alloc::Global;
use std::marker::Model;

/// A name, as sessions and procedures have: 1 to 32 bytes out of `a-z`, `0-9` and `_`.
///
/// Contracts see its bytes. Names are ordered by their bytes, a proper prefix being less. A name takes the room of an address,
/// and a copy of it no memory.
#[derive(Debug, PartialEq, Eq, PartialOrd, Ord, Hash, Drop)]
pub struct Name {
    spelling: Common<Spelling>,
}

impl Model for Name {
    ghost Value = { List ℕ };

    ghost view = { λ n. n.spelling };

    ghost inverse = { λ bytes. record { spelling = bytes } };

    ghost invariant = { λ n. IsName n.spelling };
}

impl Name {
    /// The longest name, in bytes.
    pub const LONGEST: usize = 32;

    /// Reads a name, which has exactly these bytes. The causes of a refusal are tried in the
    /// order of `KeyError`.
    #[tactic(auto, using(crate::proofs::FirstBadByte::none_outside))]
    pub fn read(alloc: Global, bytes: &[u8]) -> Result<Self, KeyError>
        requires { length bytes.now < 2 ^ 32 }
        ensures ok { IfOk result (λ name. (name ≡ bytes.now) × IsName name) }
        ensures empty { (result ≡ Err KeyError.Empty) ↔ (bytes.now ≡ []) }
        ensures long { (result ≡ Err KeyError.Long) ↔ (32 < length bytes.now) }

        // Where the length fits, the first byte that no name has is named.
        ensures bad_byte { (place : ℕ) → (result ≡ Err (KeyError.BadByte place))
            ↔ ((length bytes.now ≤ 32) × (first_outside is_name_byte bytes.now ≡ Some place)) }
        ensures no_memory { result ≡ Err KeyError.NoMemory → IsName bytes.now }
    {
        if bytes.is_empty() {
            return Err(KeyError::Empty);
        }
        if bytes.len() > Name::LONGEST {
            return Err(KeyError::Long);
        }
        match first_bad(bytes) {
            Some(place) => Err(KeyError::BadByte(place as u32)),
            None => Ok(Name::new(alloc, bytes)?),
        }
    }

    /// Whether the bytes are those of a name.
    #[tactic(auto, using(crate::proofs::FirstBadByte::none_outside, crate::proofs::FirstBadByte::byte_outside))]
    pub fn is_name(bytes: &[u8]) -> bool
        ensures { IsTrue result ↔ IsName bytes.now }
    {
        !bytes.is_empty() && bytes.len() <= Name::LONGEST && first_bad(bytes).is_none()
    }

    /// The name that has these bytes.
    pub fn new(alloc: Global, bytes: &[u8]) -> Result<Self, NoMemory>
        requires { IsName bytes.now }
        ensures { IfOk result (λ name. name ≡ bytes.now) }
    {
        Ok(Name {
            spelling: Common::new(alloc, Spelling::of(alloc, bytes)?)?,
        })
    }

    /// The bytes of the name.
    pub fn bytes(&self) -> &[u8]
        ensures same { result.now ≡ self.now }
        ensures name { IsName self.now }
    {
        self.spelling.get().bytes()
    }

    /// A name with the same bytes. Takes no memory.
    pub fn copy(&self, _alloc: Global) -> Result<Self, NoMemory>
        ensures same { IfOk result (λ name. name ≡ self.now) }
        ensures name { IsName self.now }
    {
        Ok(Name {
            spelling: self.spelling.copy()?,
        })
    }
}

/// The place of the first byte that a name may not have.
fn first_bad(bytes: &[u8]) -> Option<usize>
    ensures { result ≡ first_outside is_name_byte bytes.now }
{
    bytes.iter().position(|byte| !is_name_byte(*byte))
}
