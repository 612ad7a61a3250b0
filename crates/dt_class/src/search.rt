ghost use Rattle.std.specs.Prelude.{◌≡◌, ◌<◌, ◌≤◌, ◌^◌, length, take, IfOk, OnOk};
ghost use Rattle.dt_lists.specs.Lists.{AllIn};
ghost use Rattle.dt_class.specs.LinksInner.{AreBelow, AreChained};
ghost use Rattle.dt_class.specs.FindsInner.{GainsSteps, IsFollowedIn, IsReach, Spreads};

use crate::found::Found;
use crate::link::{Link, Way};
use dt_text::NoMemory;
use std::alloc::Global;

/// Adds what the links lead to in one step from `vertex`.
fn follow(
    links: &[Link],
    newest: &[Option<usize>],
    way: Way,
    vertex: u32,
    found: &mut Found,
) -> Result<(), NoMemory>
    requires chained { AreChained way links.now newest.now }
    requires below { AreBelow (length found.old.marks) links.now }
    requires vertex_in { vertex < length newest.now }
    ensures { OnOk result (GainsSteps way links.now vertex found.old found.new) }
{
    let mut at = newest[vertex as usize];
    while let Some(place) = at {
        let link = links[place];
        found.add(link.far_end(way))?;
        at = link.earlier(way);
    }
    Ok(())
}

/// Goes on with a search: what was found before the place was followed, and all else is followed now, with all that it
/// leads to.
pub fn spread(
    links: &[Link],
    newest: &[Option<usize>],
    way: Way,
    found: &mut Found,
    mut place: usize,
) -> Result<(), NoMemory>
    requires chained { AreChained way links.now newest.now }
    requires vertices { length found.old.marks ≡ length newest.now }
    requires below { AreBelow (length newest.now) links.now }
    requires place_in { place ≤ length found.old.order }
    requires followed { AllIn (IsFollowedIn way links.now found.old.order) (take place found.old.order) }
    ensures { OnOk result (Spreads way links.now found.old found.new) }
{
    while let Some(vertex) = found.get(place) {
        follow(links, newest, way, vertex, found)?;
        place += 1;
    }
    Ok(())
}

/// All that the links lead to from some of the vertices, themselves with them.
pub fn reached(
    alloc: Global,
    links: &[Link],
    newest: &[Option<usize>],
    way: Way,
    starts: &[u32],
) -> Result<Found, NoMemory>
    requires few { length newest.now < 2 ^ 32 }
    requires chained { AreChained way links.now newest.now }
    requires below { AreBelow (length newest.now) links.now }
    requires starts_in { AllIn (λ v. v < length newest.now) starts.now }
    ensures { IfOk result (IsReach way links.now (length newest.now) starts.now) }
{
    let mut found = Found::new(alloc, newest.len() as u32)?;
    for start in starts {
        found.add(*start)?;
    }
    spread(links, newest, way, &mut found, 0)?;
    Ok(found)
}
