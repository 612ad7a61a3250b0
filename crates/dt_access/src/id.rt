ghost use Rattle.std.specs.Prelude.{◌≡◌, ◌↔◌, ◌<◌, ◌^◌, ◌∷◌, ◌++◌, IsTrue, MatchOption, OnOk, OnErr, length, Contains};
ghost use Rattle.dt_access.specs.Ids.{AreAscending, Before, ReadsId, id_text};

use crate::copies::TryCopy;
use dt_text::{NoMemory, read_u32};
use itoa::Buffer;
use std::alloc::Global;

/// The most bytes of an id's printed form: ten digits, a dot and three digits.
const LONGEST: usize = 14;

/// The id of a transaction: the number of the submission in its region, counted from 1, and that region.
#[derive(Clone, Copy, Debug, PartialEq, Eq, PartialOrd, Ord, Hash)]
pub struct TxnId {
    pub seq: u32,
    pub region: u8,
}

impl TxnId {
    /// Whether this id comes before the other: by sequence number, then by region.
    ///
    /// The derived `Ord` is the same order; this call says it in the word `Before` that the definitions use.
    pub fn before(&self, other: &TxnId) -> bool
        ensures { IsTrue result ↔ Before self.now other.now }
    {
        self.seq < other.seq || self.seq == other.seq && self.region < other.region
    }
}

impl TryCopy for TxnId {
    fn copy(&self, _alloc: Global) -> Result<Self, NoMemory> {
        Ok(*self)
    }
}

/// Whether the ids stand in ascending order, none of them twice.
pub fn are_ascending(ids: &[TxnId]) -> bool
    ensures { IsTrue result ↔ AreAscending ids.now }
{
    let Some((mut last, mut rest)) = ids.split_first() else {
        return true;
    };
    while let Some((next, later)) = rest.split_first() {
        if !last.before(next) {
            return false;
        }
        last = next;
        rest = later;
    }
    true
}

/// Reads an id in its printed form `SEQ.REGION`, SEQ from 1 to 4294967295 and REGION at most 255,
/// each in its one spelling. `None` exactly where the word spells no such id. Takes no memory.
pub fn read_id(word: &[u8]) -> Option<TxnId>
    requires { length word.now < 2 ^ 32 }
    ensures { ReadsId word.now result }
{
    let (before_dot, after_dot) = around_dot(word)?;
    let seq = read_u32(before_dot)?;
    let region = u8::try_from(read_u32(after_dot)?).ok()?;
    if seq == 0 {
        return None;
    }
    Some(TxnId { seq, region })
}

/// What stands before and after the first dot, if there is a dot.
fn around_dot(word: &[u8]) -> Option<(&[u8], &[u8])>
    ensures { MatchOption result (¬ Contains word.now 46)
        (λ parts. (word.now ≡ parts.0.now ++ 46 ∷ parts.1.now) × (¬ Contains parts.0.now 46)) }
{
    let dot = word.iter().position(|byte| *byte == b'.')?;
    Some((&word[..dot], &word[dot + 1..]))
}

/// Appends the printed form of an id; after `NoMemory` the bytes are as before.
pub fn put_id(_alloc: Global, out: &mut Vec<u8>, id: TxnId) -> Result<(), NoMemory>
    ensures added { OnOk result (out.new.items ≡ out.old.items ++ id_text id) }
    ensures same { OnErr result (out.new.items ≡ out.old.items) }
{
    out.reserve(LONGEST)?;
    let mut buffer = Buffer::new();
    out.extend_from_slice(buffer.format(id.seq).as_bytes())?;
    out.push(b'.')?;
    out.extend_from_slice(buffer.format(id.region).as_bytes())?;
    Ok(())
}
