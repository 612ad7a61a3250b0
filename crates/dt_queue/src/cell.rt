use dt_access::Mode;

/// An entry that waits, as it is kept at its slot: the row that it waits for, and how it is to use it, the vertex that wants
/// it, and the number of its push, counted from 1.
#[derive(Clone, Copy)]
pub struct Cell {
    pub row: usize,
    pub mode: Mode,
    pub vertex: u32,
    pub number: u64,
}
