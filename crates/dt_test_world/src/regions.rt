//! One region by itself: what no world asks of it.
ghost use Rattle.std.specs.Prelude.{◌≡◌, ◌≢◌, [], ◌∷◌, IfOk, OnOk};
ghost use Rattle.dt_table.specs.Table.{opening};
ghost use Rattle.dt_txn.specs.Transaction.{homes_of};
ghost use Rattle.dt_region.specs.Rules.{opening_state};

use dt_access::{Access, Mode, TxnId};
use dt_events::put_event;
use dt_plain::PlainSched;
use dt_region::Region;
use dt_table::Table;
use dt_test_texts::wrong;
use dt_text::Key;
use dt_txn::{Accesses, Body, Txn};
use std::alloc::Global;
use std::mem::forget;
use std::test::Fail;

/// Region 0 of two before anything happens, without rows.
fn first_of_two(alloc: Global) -> Result<Region<PlainSched>, Fail>
    ensures { IfOk result (λ region. region ≡ record { state = opening_state 0 2 (opening 1 2 [] []); events = []; heard = 0; room = 0 }) }
{
    let table = Table::new(alloc, 1, 2, &[], &[])?;
    Ok(Region::new(alloc, 0, 2, table)?)
}

/// The key `b`.
fn key_b(alloc: Global) -> Result<Key, Fail> {
    Ok(Key::read(alloc, b"b")?)
}

/// The first transaction of region 1: it moves the key `b` from region 0 to region 1.
fn a_move(alloc: Global) -> Result<Txn, Fail>
    ensures homes { IfOk result (λ txn. homes_of txn ≡ 0 ∷ 1 ∷ []) }
    ensures other { IfOk result (λ txn. txn.id.region ≢ 0) }
{
    let mut access = Accesses::new(alloc);
    access.push(Access {
        key: key_b(alloc)?,
        mode: Mode::Write,
        home: 0,
        counter: 0,
    })?;
    Ok(Txn {
        id: TxnId { seq: 1, region: 1 },
        rank: 3,
        body: Body::Move(key_b(alloc)?, 1),
        access,
    })
}

/// Whether region 0 of two, which hears of a stamp before, places it as the request of this number of region 1.
fn places(
    alloc: Global,
    region: &mut Region<PlainSched>,
    number: u32,
    heard: u32,
) -> Result<bool, Fail>
    requires { region.old ≡ record { state = opening_state 0 2 (opening 1 2 [] []); events = []; heard = 0; room = 0 } }
    ensures { OnOk result (region.new.state.regions ≡ 2) }
{
    let txn = a_move(alloc)?;
    region.hear(u64::from(heard));
    let placed = region.append(alloc, 1, number, &txn);
    forget(txn);
    Ok(placed?)
}

/// What is seen of region 0 of two: how many requests of region 1 it has placed, how many parts its log has, whether it holds the
/// first transaction of region 1, the stamp of its last event, whether it is drained and whether it has a class to resolve, and its
/// events, each behind its stamp.
fn seen_of(alloc: Global, region: &Region<PlainSched>) -> Result<Vec<u8>, Fail>
    requires { region.now.state.regions ≡ 2 }
{
    let taken = region.taken(1);
    let parts = region.log(0).len();
    let held = region.txn(TxnId { seq: 1, region: 1 }).is_some();
    let stamp = region.stamp();
    let drained = region.drained(alloc)?;
    let resolves = region.next_class(alloc)?.is_some();
    let mut seen = format!(in alloc;
        "{taken} {parts} {held} {stamp} {drained} {resolves}\n"
    )?.into_bytes();
    for kept in region.events() {
        seen.extend_from_slice(format!(in alloc; "{} ", kept.stamp)?.as_bytes())?;
        put_event(alloc, &mut seen, &kept.event)?;
    }
    Ok(seen)
}

/// The number of a request, the stamp that is heard before it, and whether it is placed.
type Request = (u32, u32, bool);

/// What is seen of region 0 of two before anything happens, or after it was asked to place the move as such a request of region 1.
/// Fails where the request is not answered as it says.
fn seen_by(
    alloc: Global,
    region: &mut Region<PlainSched>,
    request: Option<Request>,
) -> Result<Vec<u8>, Fail>
    requires { region.old ≡ record { state = opening_state 0 2 (opening 1 2 [] []); events = []; heard = 0; room = 0 } }
{
    let Some((number, heard, wanted)) = request else {
        return seen_of(alloc, region);
    };
    if places(alloc, region, number, heard)? != wanted {
        return Err(Fail::from("the request is answered as it says"));
    }
    seen_of(alloc, region)
}

/// The same of a new region, which is left to the end of the process: that it may be dropped would be proved here.
fn seen_after(alloc: Global, request: Option<Request>) -> Result<Vec<u8>, Fail> {
    let mut region = first_of_two(alloc)?;
    let seen = seen_by(alloc, &mut region, request);
    forget(region);
    seen
}

/// Requests, and what is seen after each. A region without any has nothing to do.
const REQUESTS: &[(Option<Request>, &[u8])] = &[
    (None, b"0 0 false 0 true false\n"),
    (
        Some((0, 0, true)),
        b"1 1 true 1 false false\n1 append 0 1 0\n",
    ),
    (
        Some((0, 41, true)),
        b"1 1 true 42 false false\n42 append 0 1 0\n",
    ),
    (
        Some((0, 4294967295, true)),
        b"1 1 true 4294967296 false false\n4294967296 append 0 1 0\n",
    ),
    (Some((1, 41, false)), b"0 0 false 0 true false\n"),
    (Some((4294967295, 0, false)), b"0 0 false 0 true false\n"),
];

/// Fails at the first request after which something else is seen.
fn check(alloc: Global) -> Result<(), Fail> {
    for (row, (request, want)) in REQUESTS.iter().enumerate() {
        if seen_after(alloc, *request)?.as_slice() != *want {
            return Err(wrong(row));
        }
    }
    Ok(())
}

#[test]
fn a_request_is_placed_in_its_turn_under_the_next_stamp_and_else_changes_nothing(
    rt: HostRuntime,
) -> Result<(), Fail> {
    check(rt.alloc())
}
