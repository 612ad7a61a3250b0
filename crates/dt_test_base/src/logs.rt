//! Logs: what deliveries add to them.
ghost use Rattle.std.specs.Prelude.{◌≡◌, IfOk, length};

use crate::parts::part_at;
use dt_access::{Keys, Part};
use dt_log::{Log, Taken};
use dt_text::Common;
use std::alloc::Global;
use std::test::Fail;

/// A part of transaction number `seq`.
fn part(alloc: Global, seq: u32) -> Result<Common<Part>, Fail> {
    let part = part_at(alloc, seq, 0, Keys::new(alloc))?;
    Ok(Common::new(alloc, part)?)
}

/// A log of two parts, numbers 1 and 2, and copies of them.
fn two_parts(alloc: Global) -> Result<(Log, Vec<Common<Part>>), Fail>
    ensures copies { IfOk result (λ made. made.1.items ≡ made.0) }
    ensures two { IfOk result (λ made. length made.0 ≡ 2) }
{
    let first = part(alloc, 1)?;
    let second = part(alloc, 2)?;
    let copies = vec![in alloc; first.copy()?, second.copy()?]?;
    let mut log = Log::new(alloc);
    log.push(first)?;
    log.push(second)?;
    Ok((log, copies))
}

#[test]
fn a_repeated_delivery_is_old(rt: HostRuntime) -> Result<(), Fail> {
    let (mut log, copies) = two_parts(rt.alloc())?;
    assert!(rt; log.take(0, copies)? == Taken::Old);
    Ok(())
}

/// What an empty log makes of a part that is the fourth one.
fn fourth_taken(alloc: Global) -> Result<Taken, Fail> {
    let mut one = Vec::new(alloc);
    one.push(part(alloc, 4)?)?;
    let mut log = Log::new(alloc);
    Ok(log.take(3, one)?)
}

#[test]
fn after_a_lost_delivery_there_is_a_gap(rt: HostRuntime) -> Result<(), Fail> {
    assert!(rt; fourth_taken(rt.alloc())? == Taken::Gap);
    Ok(())
}

/// A log of two parts after a delivery of the second and of a third one, and what this was.
fn overlapped(alloc: Global) -> Result<(Log, Taken), Fail> {
    let (mut log, mut two) = two_parts(alloc)?;
    let _ = two.remove(0);
    two.push(part(alloc, 3)?)?;
    let taken = log.take(1, two)?;
    Ok((log, taken))
}

/// Whether a log has three parts, of which the last has number 3.
fn has_third(log: &Log) -> bool {
    match log.get(2) {
        Some(part) => part.id.seq == 3 && log.len() == 3,
        None => false,
    }
}

/// Whether the third is new.
fn third_is_new(alloc: Global) -> Result<bool, Fail> {
    let (log, taken) = overlapped(alloc)?;
    Ok(taken == Taken::New(1) && has_third(&log))
}

#[test]
fn of_an_overlapping_delivery_the_rest_is_new(rt: HostRuntime) -> Result<(), Fail> {
    assert!(rt; third_is_new(rt.alloc())?);
    Ok(())
}
