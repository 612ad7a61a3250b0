ghost use Rattle.std.specs.Prelude.{◌≡◌};
ghost use Rattle.dt_graph.specs.VerticesInner.{place_of_kind, state_of_kind};

use dt_waits::Vertex;

/// Of which transactions a list is: of those that may be executed, or of those that wait for others.
#[derive(Clone, Copy)]
pub enum Kind {
    Ready,
    Stuck,
}

/// Whether a transaction may be executed, waits for others, or neither.
#[derive(Clone, Copy, Drop)]
pub enum State {
    /// A part of it is missing, another member of its class runs before it, or it is done.
    Neither,
    /// It is ready, and stands at this place among those that are.
    Ready(u32),
    /// It is stuck, and stands at this place among those that are.
    Stuck(u32),
}

impl State {
    /// That of one that stands at this place among those of a kind.
    pub fn at(kind: Kind, place: u32) -> Self
        ensures { result ≡ state_of_kind kind place }
    {
        match kind {
            Kind::Ready => State::Ready(place),
            Kind::Stuck => State::Stuck(place),
        }
    }

    /// The place among those of a kind, if it is one of them.
    pub fn place_in(self, kind: Kind) -> Option<u32>
        ensures { result ≡ place_of_kind kind self }
    {
        match (kind, self) {
            (Kind::Ready, State::Ready(place)) | (Kind::Stuck, State::Stuck(place)) => Some(place),
            _ => None,
        }
    }
}

/// All that is kept of a transaction, side by side.
#[derive(Drop)]
pub struct Kept {
    /// How many neighbours its entries have.
    pub degree: u128,
    pub vertex: Vertex,
    pub state: State,
}
