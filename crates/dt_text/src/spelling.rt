ghost use Rattle.std.specs.Prelude.{◌≡◌, ℕ, List, refl, nat_eq, IfOk, IsTrue, Some, drop, length, take, ◌≤◌};
ghost use Rattle.std.specs.Int.{from_le_bytes, w16, w32, w64};
ghost use Rattle.std.specs.Ordering.{nat_cmp};
ghost use Rattle.std.specs.Cmp.{partial_equiv_from_equiv};
ghost use Rattle.std.specs.Cmp.Lexicographic.{pointwise, slice_cmp, nat_list_eq_equiv, nat_list_cmp_total, texts_ties, texts_po, bytes_decides};
ghost use Rattle.std.specs.Hash as fed;
ghost use Rattle.std.proofs.Common.{ap};

use crate::bytes::are_same;
use crate::common::Common;
use crate::no_memory::NoMemory;
use std::alloc::Global;
use std::cmp::Ordering;
use std::hash::{Hash, Hasher};
use std::marker::Model;

/// How many bytes fit into a spelling itself.
const SHORT: usize = 14;

/// The bytes of a key, a name or a text. Contracts see these bytes.
///
/// Spellings are ordered by their bytes, a proper prefix being less, and hashed as their bytes with one more at the end.
/// Up to 14 bytes lie in the spelling itself, so most spellings are made without taking memory; more lie in common with its
/// copies. A spelling has the size of 16 bytes, and a copy of it takes no memory.
#[derive(Debug, Drop)]
pub(crate) struct Spelling {
    form: Form,
}

/// Where the bytes lie.
#[derive(Debug, Drop)]
enum Form {
    /// The first so many of these bytes.
    Short(u8, [u8; 14]),
    /// Elsewhere.
    Long(Common<Vec<u8>>),
}

impl Model for Spelling {
    ghost use Rattle.std.specs.Prelude.{List, ℕ};
    ghost use Rattle.dt_text.specs.SpellingInner.{bytes_of, FitsForm};

    ghost Value = { List ℕ };

    ghost view = { λ s. bytes_of s.form };

    ghost invariant = { λ s. FitsForm s.form };
}

impl Spelling {
    /// The spelling that has these bytes.
    pub(crate) fn of(alloc: Global, bytes: &[u8]) -> Result<Self, NoMemory>
        ensures { IfOk result (λ spelling. spelling ≡ bytes.now) }
    {
        if bytes.len() <= SHORT {
            return Ok(Spelling::short(bytes));
        }
        let long = Vec::from_slice(alloc, bytes)?;
        Ok(Spelling {
            form: Form::Long(Common::new(alloc, long)?),
        })
    }

    /// The spelling of few bytes. Takes no memory.
    fn short(bytes: &[u8]) -> Self
        requires { length bytes.now ≤ 14 }
        ensures { result ≡ bytes.now }
    {
        let mut kept = [0; 14];
        kept[..bytes.len()].copy_from_slice(bytes);
        Spelling {
            form: Form::Short(bytes.len() as u8, kept),
        }
    }

    /// The bytes. Takes no memory.
    pub(crate) fn bytes(&self) -> &[u8]
        ensures { result.now ≡ self.now }
    {
        match &self.form {
            Form::Short(count, bytes) => &bytes[..*count as usize],
            Form::Long(bytes) => bytes.get().as_slice(),
        }
    }

    /// Whether it is seen at once that the spellings are the same: both are short, and all that lies in them is equal.
    #[inline(always)]
    fn is_seen_same(&self, other: &Self) -> bool
        ensures { IsTrue result → self.now ≡ other.now }
    {
        match (&self.form, &other.form) {
            (Form::Short(count, bytes), Form::Short(other_count, other_bytes)) => {
                *count == *other_count && are_alike(bytes, other_bytes)
            }
            _ => false,
        }
    }

    /// An equal spelling. Takes no memory.
    pub(crate) fn copy(&self) -> Result<Self, NoMemory>
        ensures { IfOk result (λ spelling. spelling ≡ self.now) }
    {
        let form = match &self.form {
            Form::Short(count, bytes) => Form::Short(*count, *bytes),
            Form::Long(bytes) => Form::Long(bytes.copy()?),
        };
        Ok(Spelling { form })
    }
}

impl PartialEq for Spelling {
    ghost eq = { pointwise nat_eq };

    ghost laws = { partial_equiv_from_equiv nat_list_eq_equiv };

    #[inline(always)]
    fn eq(&self, other: &Self) -> bool {
        self.is_seen_same(other) || are_same(self.bytes(), other.bytes())
    }
}

impl Eq for Spelling {
    ghost laws = { nat_list_eq_equiv };
}

impl PartialOrd for Spelling {
    ghost partial_cmp = { λ a b. Some (slice_cmp nat_cmp a b) };

    ghost laws = { texts_po };

    fn partial_cmp(&self, other: &Self) -> Option<Ordering> {
        Some(self.cmp(other))
    }
}

impl Ord for Spelling {
    ghost cmp = { slice_cmp nat_cmp };

    ghost total = { nat_list_cmp_total };

    ghost matches_partial_cmp = { λ a b. refl };

    ghost matches_eq = { texts_ties };

    fn cmp(&self, other: &Self) -> Ordering {
        self.bytes().cmp(other.bytes())
    }
}

impl Hash for Spelling {
    ghost hash_input = { fed.str };

    ghost respects_eq = { λ a b e. ap fed.str ((bytes_decides a b).0 e) };

    fn hash<H: Hasher>(&self, state: &mut H) {
        state.write(self.bytes());
        state.write_u8(0xff);
    }
}

/// Whether these are the same bytes. Three words are compared, in a fifth of the time of a loop over the bytes.
#[inline(always)]
fn are_alike(left: &[u8; 14], right: &[u8; 14]) -> bool
    ensures { IsTrue result → left.now ≡ right.now }
{
    low_word(left) == low_word(right)
        && middle_word(left) == middle_word(right)
        && high_word(left) == high_word(right)
}

/// The first eight bytes as one number.
#[inline(always)]
fn low_word(bytes: &[u8; 14]) -> u64
    ensures { result ≡ from_le_bytes w64 (take 8 bytes.now) }
{
    u64::from_le_bytes([
        bytes[0], bytes[1], bytes[2], bytes[3], bytes[4], bytes[5], bytes[6], bytes[7],
    ])
}

/// The four bytes after them as one number.
#[inline(always)]
fn middle_word(bytes: &[u8; 14]) -> u32
    ensures { result ≡ from_le_bytes w32 (take 4 (drop 8 bytes.now)) }
{
    u32::from_le_bytes([bytes[8], bytes[9], bytes[10], bytes[11]])
}

/// The last two bytes as one number.
#[inline(always)]
fn high_word(bytes: &[u8; 14]) -> u16
    ensures { result ≡ from_le_bytes w16 (drop 12 bytes.now) }
{
    u16::from_le_bytes([bytes[12], bytes[13]])
}
