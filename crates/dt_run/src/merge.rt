//! The events of all regions as one list, in the order of their stamps.
ghost use Rattle.std.specs.Prelude.{map, IfOk};
ghost use Rattle.dt_merge.specs.Merge.{AreKept};
ghost use Rattle.dt_run.specs.MergeInner.{IsLeast};
ghost use Rattle.dt_run.specs.Run.{AreMerged};

use dt_events::{Event, Stamped};
use dt_text::NoMemory;
use std::alloc::Global;

/// The events that regions keep, a list for each region, in ascending order of their stamps, and of their regions where these
/// are equal.
pub fn merged(alloc: Global, kept: Vec<&[Stamped]>) -> Result<Vec<Event>, NoMemory>
    requires { AreKept (map (λ items. items.now) kept.items) }
    ensures { IfOk result (λ events. AreMerged (map (λ items. items.now) kept.entry.items) events.items) }
{
    let mut left = kept;
    let mut events = Vec::new(alloc);
    while let Some(region) = least(left.as_slice()) {
        let Some((first, rest)) = left[region].split_first() else {
            unreachable!()
        };
        events.push(first.event.copy(alloc)?)?;
        left[region] = rest;
    }
    Ok(events)
}

/// The first of the lists whose first item has the least stamp. `None` exactly where all are empty.
fn least(left: &[&[Stamped]]) -> Option<usize>
    ensures { IsLeast (map (λ items. items.now) left.now) result }
{
    let mut found: Option<(usize, u64)> = None;
    for (region, items) in left.iter().enumerate() {
        let Some(first) = items.first() else {
            continue;
        };
        let lower = match found {
            Some((_, stamp)) => first.stamp < stamp,
            None => true,
        };
        if lower {
            found = Some((region, first.stamp));
        }
    }
    let (region, _) = found?;
    Some(region)
}
