ghost use Rattle.std.specs.Prelude.{◌↔◌, IsTrue, OnOk};
ghost use Rattle.dt_lists.specs.Lists.{Has, Distinct};
ghost use Rattle.dt_plain.specs.IdListsInner.{AddsOnce};

use dt_access::{Ids, TxnId};
use dt_text::NoMemory;

/// Whether the id is among the ids.
pub fn has(ids: &[TxnId], id: TxnId) -> bool
    ensures { IsTrue result ↔ Has ids.now id }
{
    for other in ids {
        if *other == id {
            return true;
        }
    }
    false
}

/// Adds the id at the back, unless it is there.
pub fn add_once(ids: &mut Ids, id: TxnId) -> Result<(), NoMemory>
    requires { Distinct ids.old }
    ensures { OnOk result (AddsOnce ids.old id ids.new) }
{
    if !has(ids.as_slice(), id) {
        ids.push(id)?;
    }
    Ok(())
}
