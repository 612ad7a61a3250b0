ghost use Rattle.std.specs.Prelude.{◌≡◌, ◌≤◌, None, get_or, vec_capacity};
ghost use Rattle.dt_lists.specs.Lists.{Has};
ghost use Rattle.dt_graph.specs.SubsetInner.{PutsIn, Removes};
ghost use Rattle.dt_graph.specs.VerticesInner.{AreMembers, IsIn, other_kind, place_of_kind, places_of_kind};
ghost use Rattle.dt_graph.specs.declared.kept.State.TheVariants.{Neither};

use crate::kept::{Kind, State};
use crate::records::Records;
use crate::room::push_reserved;

/// Puts a vertex that is neither ready nor stuck to the list of those of a kind. Takes no memory.
pub fn put(records: &mut Records, members: &mut Vec<u32>, kind: Kind, number: u32)
    requires within { IsIn records.old number }
    requires members { AreMembers kind records.old members.old.items (vec_capacity members.old) }
    requires absent { ¬ (Has members.old.items number) }
    requires apart { place_of_kind (other_kind kind) (get_or records.old.states number Neither) ≡ None }
    ensures put { PutsIn number members.old.items members.new.items }
    ensures members { AreMembers kind records.new members.new.items (vec_capacity members.new) }
    ensures room { vec_capacity members.old ≤ vec_capacity members.new }
    ensures others { places_of_kind (other_kind kind) records.new ≡ places_of_kind (other_kind kind) records.old }
    ensures same { records.new ≡ record records.old { states = records.new.states } }
{
    let place = members.len() as u32;
    records.set_state(number, State::at(kind, place));
    push_reserved(members, number);
}

/// Takes a vertex out of the list of those of a kind, if it is one of them; the last one comes to its place. Takes no memory.
pub fn take(records: &mut Records, members: &mut Vec<u32>, kind: Kind, number: u32)
    requires within { IsIn records.old number }
    requires members { AreMembers kind records.old members.old.items (vec_capacity members.old) }
    ensures removed { Removes number members.old.items members.new.items }
    ensures members { AreMembers kind records.new members.new.items (vec_capacity members.new) }
    ensures room { vec_capacity members.new ≡ vec_capacity members.old }
    ensures others { places_of_kind (other_kind kind) records.new ≡ places_of_kind (other_kind kind) records.old }
    ensures same { records.new ≡ record records.old { states = records.new.states } }
{
    let Some(place) = records.state(number).place_in(kind) else {
        return;
    };
    if let Some(last) = members.pop() {
        if last != number {
            members[place as usize] = last;
            records.set_state(last, State::at(kind, place));
        }
    }
    records.set_state(number, State::Neither);
}
