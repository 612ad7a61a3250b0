ghost use Rattle.std.specs.Prelude.{◌≡◌, ◌<◌, ◌^◌, length, IfOk};
ghost use Rattle.dt_class.specs.LinksInner.{AreBelow, AreChained};
ghost use Rattle.dt_class.specs.FindsInner.{IsClosedUnder, IsFoundOf, IsLastStart, Visits};

use crate::found::Found;
use crate::link::{Link, Way};
use crate::search::spread;
use dt_text::NoMemory;

/// Searches on from the vertex, if it isn't found yet, and answers whether it did.
fn visit(
    links: &[Link],
    newest: &[Option<usize>],
    way: Way,
    vertex: u32,
    found: &mut Found,
) -> Result<bool, NoMemory>
    requires chained { AreChained way links.now newest.now }
    requires vertices { length found.old.marks ≡ length newest.now }
    requires below { AreBelow (length newest.now) links.now }
    requires vertex_in { vertex < length newest.now }
    requires once { IsFoundOf found.old.marks found.old.order }
    requires closed { IsClosedUnder way links.now found.old.order }
    ensures { IfOk result (λ begun. Visits way links.now found.old vertex begun found.new) }
{
    if found.has(vertex) {
        return Ok(false);
    }
    let place = found.len();
    found.add(vertex)?;
    spread(links, newest, way, found, place)?;
    Ok(true)
}

/// Goes on with a search from each vertex in turn that is not found yet, and answers the last one from which it went on:
/// none of those before leads there, unless it leads back.
pub fn last_start(
    links: &[Link],
    newest: &[Option<usize>],
    way: Way,
    mut found: Found,
) -> Result<Option<u32>, NoMemory>
    requires few { length newest.now < 2 ^ 32 }
    requires chained { AreChained way links.now newest.now }
    requires vertices { length found.marks ≡ length newest.now }
    requires below { AreBelow (length newest.now) links.now }
    requires once { IsFoundOf found.marks found.order }
    requires closed { IsClosedUnder way links.now found.order }
    ensures { IfOk result (IsLastStart way links.now (length newest.now) found.order) }
{
    let mut last = None;
    for vertex in 0..newest.len() as u32 {
        let begun = visit(links, newest, way, vertex, &mut found)?;
        if begun {
            last = Some(vertex);
        }
    }
    Ok(last)
}
