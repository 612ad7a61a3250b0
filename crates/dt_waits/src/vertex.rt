use crate::place::Place;
use crate::slots::Slots;

/// A transaction, as a vertex of the graph. One is kept for each until it and all before it have left; so its fields are narrow,
/// and the widest stands first.
#[derive(Drop)]
pub struct Vertex {
    /// Where its entries wait.
    pub slots: Slots,
    /// The place of its class among the resolved ones, if it is in one.
    pub class: Place,
    /// How many of its homes have no part of it yet.
    pub missing: u8,
    pub rank: u8,
}
