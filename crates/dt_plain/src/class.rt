ghost use Rattle.std.specs.Prelude.{◌≡◌, ◌⊎◌, ◌↔◌, IsTrue, IfOk};
ghost use Rattle.dt_lists.specs.Lists.{AllIn, Has, Distinct};
ghost use Rattle.dt_plain.specs.IdListsInner.{AreShared, AreCommon, IsOrderOf};

use crate::ids::has;
use dt_access::{Ids, TxnId};
use dt_text::NoMemory;
use std::alloc::Global;

/// Whether the two lists are equal.
pub fn same(left: &[TxnId], right: &[TxnId]) -> bool
    ensures { IsTrue result ↔ (left.now ≡ right.now) }
{
    left == right
}

/// Whether the ids are one of the classes.
pub fn has_class(classes: &[Ids], ids: &[TxnId]) -> bool
    ensures { IsTrue result ↔ Has classes.now ids.now }
{
    for class in classes {
        if same(class.as_slice(), ids) {
            return true;
        }
    }
    false
}

/// Those of `left` that are in `right` too.
fn shared(alloc: Global, left: &[TxnId], right: &[TxnId]) -> Result<Vec<TxnId>, NoMemory>
    requires { Distinct left.now }
    ensures { IfOk result (λ ids. AreShared left.now right.now ids.items) }
{
    let mut ids = Vec::new(alloc);
    for id in left {
        if has(right, *id) {
            ids.push(*id)?;
        }
    }
    Ok(ids)
}

/// The ids in ascending order.
fn ordered(mut ids: Vec<TxnId>) -> Result<Ids, NoMemory>
    requires { Distinct ids.items }
    ensures { IfOk result (IsOrderOf ids.items) }
{
    ids.sort()?;
    Ok(Ids::from_vec(ids))
}

/// Those of `left` that are in `right` too, in ascending order.
pub fn common(alloc: Global, left: &[TxnId], right: &[TxnId]) -> Result<Ids, NoMemory>
    requires { Distinct left.now }
    ensures { IfOk result (AreCommon left.now right.now) }
{
    ordered(shared(alloc, left, right)?)
}

/// Whether each of the ids is in one of the two lists.
pub fn are_among(ids: &[TxnId], left: &[TxnId], right: &[TxnId]) -> bool
    ensures { IsTrue result ↔ AllIn (λ u. Has left.now u ⊎ Has right.now u) ids.now }
{
    for id in ids {
        if !has(left, *id) && !has(right, *id) {
            return false;
        }
    }
    true
}
