ghost use Rattle.std.specs.Prelude.{◌≡◌, ◌↔◌, ◌<◌, ◌≤◌, ◌^◌, ℕ, List, length, IfOk, IsTrue, Some};
ghost use Rattle.dt_text.specs.Texts.{IsStr, is_text_byte, first_outside};

use crate::bytes::is_text_byte;
use crate::common::Common;
use crate::errors::StrError;
use crate::no_memory::NoMemory;
use crate::spelling::Spelling;
use std::alloc::Global;
use std::marker::Model;

/// A text: 0 to 256 bytes, each a space or a visible character of ASCII (0x20 to 0x7E).
///
/// Contracts see its bytes. Texts are ordered by their bytes, a proper prefix being less. A text takes the room of an address,
/// and a copy of it no memory.
#[derive(Debug, PartialEq, Eq, PartialOrd, Ord, Hash, Drop)]
pub struct Str {
    spelling: Common<Spelling>,
}

impl Model for Str {
    ghost Value = { List ℕ };

    ghost view = { λ t. t.spelling };

    ghost inverse = { λ bytes. record { spelling = bytes } };

    ghost invariant = { λ t. IsStr t.spelling };
}

impl Str {
    /// The longest text, in bytes.
    pub const LONGEST: usize = 256;

    /// Reads a text, which has exactly these bytes. The causes of a refusal are tried in the
    /// order of `StrError`.
    #[tactic(auto, using(crate::proofs::FirstBadByte::none_outside))]
    pub fn read(alloc: Global, bytes: &[u8]) -> Result<Self, StrError>
        requires { length bytes.now < 2 ^ 32 }
        ensures ok { IfOk result (λ text. (text ≡ bytes.now) × IsStr text) }
        ensures long { (result ≡ Err StrError.Long) ↔ (256 < length bytes.now) }

        // Where the length fits, the first byte that no text has is named.
        ensures bad_byte { (place : ℕ) → (result ≡ Err (StrError.BadByte place))
            ↔ ((length bytes.now ≤ 256) × (first_outside is_text_byte bytes.now ≡ Some place)) }
        ensures no_memory { result ≡ Err StrError.NoMemory → IsStr bytes.now }
    {
        if bytes.len() > Str::LONGEST {
            return Err(StrError::Long);
        }
        match first_bad(bytes) {
            Some(place) => Err(StrError::BadByte(place as u32)),
            None => Ok(Str::new(alloc, bytes)?),
        }
    }

    /// Whether the bytes are those of a text.
    #[tactic(auto, using(crate::proofs::FirstBadByte::none_outside, crate::proofs::FirstBadByte::byte_outside))]
    pub fn is_str(bytes: &[u8]) -> bool
        ensures { IsTrue result ↔ IsStr bytes.now }
    {
        bytes.len() <= Str::LONGEST && first_bad(bytes).is_none()
    }

    /// The text that has these bytes.
    pub fn new(alloc: Global, bytes: &[u8]) -> Result<Self, NoMemory>
        requires { IsStr bytes.now }
        ensures { IfOk result (λ text. text ≡ bytes.now) }
    {
        Str::spelled(alloc, Spelling::of(alloc, bytes)?)
    }

    /// The text that is spelled so.
    pub(crate) fn spelled(alloc: Global, spelling: Spelling) -> Result<Self, NoMemory>
        requires { IsStr spelling }
        ensures { IfOk result (λ text. text ≡ spelling) }
    {
        Ok(Str {
            spelling: Common::new(alloc, spelling)?,
        })
    }

    /// The bytes of the text.
    pub fn bytes(&self) -> &[u8]
        ensures same { result.now ≡ self.now }
        ensures text { IsStr self.now }
    {
        self.spelling.get().bytes()
    }

    /// A text with the same bytes. Takes no memory.
    pub fn copy(&self, _alloc: Global) -> Result<Self, NoMemory>
        ensures same { IfOk result (λ text. text ≡ self.now) }
        ensures text { IsStr self.now }
    {
        Ok(Str {
            spelling: self.spelling.copy()?,
        })
    }
}

/// The place of the first byte that a text may not have.
fn first_bad(bytes: &[u8]) -> Option<usize>
    ensures { result ≡ first_outside is_text_byte bytes.now }
{
    bytes.iter().position(|byte| !is_text_byte(*byte))
}
