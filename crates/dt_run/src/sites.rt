//! What is read off the nodes for a report: their sites, and what their regions have kept.
ghost use Rattle.std.specs.Prelude.{◌≡◌, map, IfOk};

use crate::seat::Seat;
use dt_events::Stamped;
use dt_sched::Scheduler;
use dt_site::Site;
use dt_text::NoMemory;
use std::alloc::Global;

/// The site of the node at each seat, lent.
pub fn sites_of<S: Scheduler + Drop>(
    alloc: Global,
    seats: &[Seat<S>],
) -> Result<Vec<&Site<S>>, NoMemory>
    ensures { IfOk result (λ sites. map (λ site. site.now) sites.items ≡ map (λ s. s.node.site) seats.now) }
{
    Ok(seats.iter().map(|seat| seat.node.site()).collect(alloc)?)
}

/// The events that the region of each seat has kept, lent.
pub fn kept_of<S: Scheduler + Drop>(
    alloc: Global,
    seats: &[Seat<S>],
) -> Result<Vec<&[Stamped]>, NoMemory>
    ensures { IfOk result (λ kept. map (λ items. items.now) kept.items ≡ map (λ s. s.node.site.region.events) seats.now) }
{
    Ok(
        seats
            .iter()
            .map(|seat| seat.node.region().events())
            .collect(alloc)?,
    )
}
