ghost use Rattle.std.specs.Prelude.{◌≡◌, length, option_map, slice_get};
ghost use Rattle.dt_table.specs.StoredMovesInner.{history, mover_in, IsBelow, AreLinked};

use dt_access::TxnId;

/// A unit as a table keeps it.
#[derive(Clone, Copy)]
pub struct StoredUnit {
    /// The target of the last move, or the opening home.
    pub home: u8,
    /// How many moves the unit has.
    pub counter: u32,
    /// The place of the unit's last move among the moves of all units.
    pub last: Option<usize>,
}

/// A move as a table keeps it, among those of all units.
#[derive(Clone, Copy)]
pub struct StoredMove {
    pub target: u8,
    pub by: TxnId,
    /// The place of the move of the same unit that it follows.
    pub before: Option<usize>,
}

/// Who made the move `number` of a unit, counted from 1. None exactly where there is no such move.
pub fn mover_of(moves: &[StoredMove], unit: &StoredUnit, number: u32) -> Option<TxnId>
    requires linked { AreLinked 0 moves.now }
    requires last { IsBelow (length moves.now) unit.now.last }
    requires counter { unit.now.counter ≡ length (history moves.now unit.now.last) }
    ensures { result ≡ mover_in (history moves.now unit.now.last) number }
{
    if number == 0 || unit.counter < number {
        return None;
    }
    let mut place = unit.last?;
    for _later in number..unit.counter {
        place = moves[place].before?;
    }
    Some(moves[place].by)
}

/// Who made the move of a unit that follows its first `had` ones. None exactly where there is no such move.
pub fn next_mover_of(moves: &[StoredMove], unit: &StoredUnit, had: u32) -> Option<TxnId>
    requires linked { AreLinked 0 moves.now }
    requires last { IsBelow (length moves.now) unit.now.last }
    requires counter { unit.now.counter ≡ length (history moves.now unit.now.last) }
    ensures { result ≡ option_map (λ m. m.by) (slice_get (history moves.now unit.now.last) had) }
{
    if unit.counter <= had {
        return None;
    }
    mover_of(moves, unit, had + 1)
}
