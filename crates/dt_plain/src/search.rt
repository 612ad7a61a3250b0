ghost use Rattle.std.specs.Prelude.{IfOk, OnOk};
ghost use Rattle.dt_lists.specs.Lists.{Distinct};
ghost use Rattle.dt_plain.specs.LinksInner.{Follows, AreReached};

use crate::ids::add_once;
use dt_access::{Ids, TxnId};
use dt_text::NoMemory;
use std::alloc::Global;

/// A link from one transaction to another.
#[derive(Clone, Copy)]
pub struct Link {
    pub from: TxnId,
    pub to: TxnId,
}

impl Link {
    ghost use Rattle.std.specs.Prelude.{◌≡◌};
    ghost use Rattle.dt_plain.specs.GraphsInner.{turned_link};

    /// The link the other way round.
    pub fn turned(&self) -> Self
        ensures { result ≡ turned_link self.now }
    {
        Link {
            from: self.to,
            to: self.from,
        }
    }
}

/// Adds what the links lead to from `from` in one step and isn't there yet.
fn follow(links: &[Link], from: TxnId, found: &mut Ids) -> Result<(), NoMemory>
    requires { Distinct found.old }
    ensures { OnOk result (Follows links.now from found.old found.new) }
{
    for link in links {
        if link.from == from {
            add_once(found, link.to)?;
        }
    }
    Ok(())
}

/// All that the links lead to from `start`, each once: `start` first, then what lies ever further from it.
pub fn reached(alloc: Global, links: &[Link], start: TxnId) -> Result<Ids, NoMemory>
    ensures { IfOk result (AreReached links.now start) }
{
    let mut found = Ids::new(alloc);
    found.push(start)?;
    let mut at = 0;
    while at < found.len() {
        let from = found.as_slice()[at];
        follow(links, from, &mut found)?;
        at += 1;
    }
    Ok(found)
}
