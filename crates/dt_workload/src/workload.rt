use dt_eval::Args;
use dt_text::{Key, Listed, Name};

/// What one call or move of a session wants.
#[derive(Drop)]
pub enum Wanted {
    /// A call of the procedure of this number.
    Call(u32, Args),
    /// A move of a key, in version 2 of a granule, to a home.
    Move(Key, u8),
}

/// A call or a move with its rank: in a deadlocked group a lower rank runs first.
#[derive(Drop)]
pub struct Ranked {
    /// 0 to 9.
    pub rank: u8,
    pub wanted: Wanted,
}

/// The calls and moves of a session, in order.
pub type Bodies = Listed<Ranked>;

/// A session: its calls and moves are made one after another at its region.
#[derive(Drop)]
pub struct Session {
    pub name: Name,
    pub region: u8,
    pub calls: Bodies,
}

/// Sessions.
pub type SessionList = Listed<Session>;

/// The sessions of a cluster, in the order of the file.
#[derive(Drop)]
pub struct Workload {
    pub sessions: SessionList,
}
