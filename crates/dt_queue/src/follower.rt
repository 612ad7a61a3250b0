/// An entry that waits for another one: its slot, and the vertex that wants it.
#[derive(Clone, Copy, Debug, PartialEq, Eq)]
pub struct Follower {
    pub slot: usize,
    pub vertex: u32,
}
