ghost use Rattle.std.specs.Prelude.{◌≡◌, ◌↔◌, ◌<◌, ◌≤◌, ◌^◌, ℕ, [], List, length, refl, nat_eq, IfOk, IsTrue, Some};
ghost use Rattle.std.specs.Ordering.{nat_cmp};
ghost use Rattle.std.specs.Cmp.{partial_equiv_from_equiv};
ghost use Rattle.std.specs.Cmp.Lexicographic.{pointwise, slice_cmp, nat_list_eq_equiv, nat_list_cmp_total, texts_ties, texts_po, bytes_decides};
ghost use Rattle.std.specs.Hash as fed;
ghost use Rattle.std.proofs.Common.{ap};
ghost use Rattle.dt_text.specs.Texts.{IsKey, is_key_byte, first_outside};

use crate::bytes::is_key_byte;
use crate::errors::KeyError;
use crate::no_memory::NoMemory;
use crate::spelling::Spelling;
use std::alloc::Global;
use std::cmp::Ordering;
use std::hash::{Hash, Hasher};
use std::marker::Model;

/// The name of a row: 1 to 128 bytes out of `a-z`, `0-9`, `/`, `_`, `.` and `-`.
///
/// Contracts see its bytes. Keys are ordered by their bytes, a proper prefix being less.
///
/// A key may carry a hint: a number, at which whoever keeps things of keys may look first. It is no part of the key: equal keys
/// may have different hints, and what is found by a hint has to be compared with the key.
#[derive(Debug, Drop)]
pub struct Key {
    spelling: Spelling,
    hint: u32,
}

impl Model for Key {
    ghost Value = { List ℕ };

    ghost view = { λ k. k.spelling };

    ghost invariant = { λ k. IsKey k.spelling };
}

impl Key {
    /// The longest key, in bytes.
    pub const LONGEST: usize = 128;

    /// Reads a key, which has exactly these bytes. The causes of a refusal are tried in the
    /// order of `KeyError`.
    #[tactic(auto, using(crate::proofs::FirstBadByte::none_outside))]
    pub fn read(alloc: Global, bytes: &[u8]) -> Result<Self, KeyError>
        requires { length bytes.now < 2 ^ 32 }
        ensures ok { IfOk result (λ key. (key ≡ bytes.now) × IsKey key) }
        ensures empty { (result ≡ Err KeyError.Empty) ↔ (bytes.now ≡ []) }
        ensures long { (result ≡ Err KeyError.Long) ↔ (128 < length bytes.now) }

        // Where the length fits, the first byte that no key has is named.
        ensures bad_byte { (place : ℕ) → (result ≡ Err (KeyError.BadByte place))
            ↔ ((length bytes.now ≤ 128) × (first_outside is_key_byte bytes.now ≡ Some place)) }
        ensures no_memory { result ≡ Err KeyError.NoMemory → IsKey bytes.now }
    {
        if bytes.is_empty() {
            return Err(KeyError::Empty);
        }
        if bytes.len() > Key::LONGEST {
            return Err(KeyError::Long);
        }
        match first_bad(bytes) {
            Some(place) => Err(KeyError::BadByte(place as u32)),
            None => Ok(Key {
                spelling: Spelling::of(alloc, bytes)?,
                hint: 0,
            }),
        }
    }

    /// Whether the bytes are those of a key.
    #[tactic(auto, using(crate::proofs::FirstBadByte::none_outside, crate::proofs::FirstBadByte::byte_outside))]
    pub fn is_key(bytes: &[u8]) -> bool
        ensures { IsTrue result ↔ IsKey bytes.now }
    {
        !bytes.is_empty() && bytes.len() <= Key::LONGEST && first_bad(bytes).is_none()
    }

    /// The key that has these bytes.
    pub fn new(alloc: Global, bytes: &[u8]) -> Result<Self, NoMemory>
        requires { IsKey bytes.now }
        ensures { IfOk result (λ key. key ≡ bytes.now) }
    {
        Ok(Key {
            spelling: Spelling::of(alloc, bytes)?,
            hint: 0,
        })
    }

    /// The bytes of the key.
    pub fn bytes(&self) -> &[u8]
        ensures same { result.now ≡ self.now }
        ensures key { IsKey self.now }
    {
        self.spelling.bytes()
    }

    /// Its hint; 0, unless it was given one.
    pub fn hint(&self) -> u32 {
        self.hint
    }

    /// The same key with this hint.
    pub fn with_hint(self, hint: u32) -> Self
        ensures { result ≡ self }
    {
        let Key { spelling, .. } = self;
        Key { spelling, hint }
    }

    /// A key with the same bytes and the same hint. Takes no memory.
    pub fn copy(&self, _alloc: Global) -> Result<Self, NoMemory>
        ensures same { IfOk result (λ key. key ≡ self.now) }
        ensures key { IsKey self.now }
    {
        Ok(Key {
            spelling: self.spelling.copy()?,
            hint: self.hint,
        })
    }
}

impl PartialEq for Key {
    ghost eq = { pointwise nat_eq };

    ghost laws = { partial_equiv_from_equiv nat_list_eq_equiv };

    fn eq(&self, other: &Self) -> bool {
        self.spelling == other.spelling
    }
}

impl Eq for Key {
    ghost laws = { nat_list_eq_equiv };
}

impl PartialOrd for Key {
    ghost partial_cmp = { λ a b. Some (slice_cmp nat_cmp a b) };

    ghost laws = { texts_po };

    fn partial_cmp(&self, other: &Self) -> Option<Ordering> {
        Some(self.cmp(other))
    }
}

impl Ord for Key {
    ghost cmp = { slice_cmp nat_cmp };

    ghost total = { nat_list_cmp_total };

    ghost matches_partial_cmp = { λ a b. refl };

    ghost matches_eq = { texts_ties };

    fn cmp(&self, other: &Self) -> Ordering {
        self.spelling.cmp(&other.spelling)
    }
}

impl Hash for Key {
    ghost hash_input = { fed.str };

    ghost respects_eq = { λ a b e. ap fed.str ((bytes_decides a b).0 e) };

    fn hash<H: Hasher>(&self, state: &mut H) {
        self.spelling.hash(state);
    }
}

/// The place of the first byte that a key may not have.
fn first_bad(bytes: &[u8]) -> Option<usize>
    ensures { result ≡ first_outside is_key_byte bytes.now }
{
    bytes.iter().position(|byte| !is_key_byte(*byte))
}
