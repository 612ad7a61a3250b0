//! Parts and steps that are drawn.
ghost use Rattle.std.specs.Prelude.{◌<◌, ◌≤◌};

use crate::alike::{Run, Step, Then, are_alike};
use crate::calls::Call;
use crate::parts::{Use, Wide};
use dt_access::{Mode, TxnId};
use dt_test_texts::wrong;
use std::alloc::Global;
use std::test::Fail;

/// A number below a bound, and the seed of the next one.
fn drawn(seed: &mut u64, bound: u64) -> u64
    requires { 0 < bound }
    ensures { result < bound }
{
    *seed = (*seed % 2147483647) * 48271 % 2147483647;
    *seed % bound
}

const USES: [Use; 12] = [
    (b"a", Mode::Whole),
    (b"a", Mode::Read),
    (b"a/x", Mode::Read),
    (b"a/x", Mode::Write),
    (b"a/y", Mode::Write),
    (b"b", Mode::Whole),
    (b"b/x", Mode::Write),
    (b"b/x", Mode::Read),
    (b"c", Mode::Read),
    (b"c", Mode::Write),
    (b"d", Mode::Write),
    (b"d", Mode::Write),
];

/// One of the seven uses from a place on.
fn a_use(seed: &mut u64, first: u64) -> Use
    requires { first ≤ 5 }
{
    USES[(first + drawn(seed, 7)) as usize]
}

/// Adds a part, not far from the end.
fn add(seed: &mut u64, parts: &mut Vec<Wide>, part: Wide) -> Result<(), Fail> {
    let behind = drawn(seed, 7) as usize;
    let count = parts.len();
    if behind < count {
        parts.insert(count - behind, part)?;
    } else {
        parts.push(part)?;
    }
    Ok(())
}

/// Adds the parts of a transaction, of which each has one or two keys. It has one home, two or all three. Its uses are among the first
/// seven or the last seven, so that sometimes two classes grow beside each other.
fn add_all(seed: &mut u64, parts: &mut Vec<Wide>, seq: u32) -> Result<(), Fail> {
    let (region, rank) = (drawn(seed, 3) as u8, drawn(seed, 3) as u8);
    let (least, greatest) = (drawn(seed, 3) as u8, drawn(seed, 3) as u8);
    let all = drawn(seed, 2) == 0;
    let first = 5 * drawn(seed, 2);
    for home in 0..3 {
        if all || home == least || home == greatest && least < greatest {
            let (key, mode) = a_use(seed, first);
            let row = (seq, region, rank, home, key, mode, least, greatest);
            let second = a_use(seed, first);
            add(seed, parts, (row, second, all))?;
        }
    }
    Ok(())
}

/// The parts of n transactions, in some order.
fn some_parts(alloc: Global, seed: &mut u64, txns: u32) -> Result<Vec<Wide>, Fail> {
    let mut parts = Vec::new(alloc);
    for seq in 0..txns {
        add_all(seed, &mut parts, seq)?;
    }
    Ok(parts)
}

/// The ids of the parts, in ascending order.
fn ids_of(alloc: Global, parts: &[Wide]) -> Result<Vec<TxnId>, Fail> {
    let mut ids = Vec::new(alloc);
    for (row, _, _) in parts {
        let (seq, region, _, _, _, _, _, _) = *row;
        let id = TxnId { seq, region };
        if !ids.contains(&id) {
            ids.push(id)?;
        }
    }
    ids.sort()?;
    Ok(ids)
}

/// The first one, two, three and all of four ids, of which each stands one or two places behind the one before it.
fn choices(seed: &mut u64) -> [u64; 4] {
    let first = drawn(seed, 3);
    let second = first + 1 + drawn(seed, 2);
    let third = second + 1 + drawn(seed, 2);
    let fourth = third + 1 + drawn(seed, 2);
    let one = 1u64 << first;
    let two = one | 1u64 << second;
    let three = two | 1u64 << third;
    [one, two, three, three | 1u64 << fourth]
}

/// A call, and four choices of ids that are asked of after it.
fn step(seed: &mut u64, call: Call) -> Step {
    (call, Then::Asks(choices(seed)))
}

/// Adds n calls that resolve or execute something, if there is anything. Few resolve, so that classes wait for it for some calls.
fn add_calls(seed: &mut u64, steps: &mut Vec<Step>, count: u32) -> Result<(), Fail> {
    for _call in 0..count {
        let call = match drawn(seed, 4) {
            0 => Call::Resolve,
            1 => Call::ExecuteLast,
            _ => Call::ExecuteFirst,
        };
        steps.push(step(seed, call))?;
    }
    Ok(())
}

/// Each part is inserted, and a few calls are made behind it; at the end until nothing is left to do.
fn steps_of(alloc: Global, seed: &mut u64, parts: &[Wide]) -> Result<Vec<Step>, Fail> {
    let mut steps = Vec::new(alloc);
    for wide in parts {
        steps.push(step(seed, Call::InsertWide(*wide)))?;
        add_calls(seed, &mut steps, 2)?;
    }
    steps.push(step(seed, Call::Nothing))?;
    add_calls(seed, &mut steps, 40)?;
    Ok(steps)
}

/// Whether both answer alike in a drawn run of eight transactions.
fn run_alike(alloc: Global, start: u64) -> Result<bool, Fail> {
    let mut seed = start;
    let parts = some_parts(alloc, &mut seed, 8)?;
    let ids = ids_of(alloc, parts.as_slice())?;
    let steps = steps_of(alloc, &mut seed, parts.as_slice())?;
    let run = Run {
        regions: 3,
        steps: steps.as_slice(),
        ids: ids.as_slice(),
    };
    are_alike(alloc, &run)
}

/// The numbers that the runs are drawn from. They were chosen so that in each run two classes may be resolved after some call.
const SEEDS: &[u64] = &[13842412, 35683014, 42121161, 112394367, 117573393];

/// Fails at the first drawn run in which both do not answer alike.
fn check(alloc: Global) -> Result<(), Fail> {
    for (row, seed) in SEEDS.iter().enumerate() {
        if !run_alike(alloc, *seed)? {
            return Err(wrong(row));
        }
    }
    Ok(())
}

#[test]
fn both_schedulers_answer_alike(rt: HostRuntime) -> Result<(), Fail> {
    check(rt.alloc())
}
