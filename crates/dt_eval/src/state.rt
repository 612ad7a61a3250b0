ghost use Rattle.std.specs.Prelude.{◌≡◌, IfOk};

use dt_text::{Key, NoMemory, Str, Value};
use std::alloc::Global;

/// What an expression gives.
#[derive(Drop)]
pub(crate) enum Datum {
    /// A number.
    Int(i64),
    /// A text.
    Text(Str),
    /// A truth.
    Bool(bool),
}

impl Datum {
    /// An equal datum.
    pub(crate) fn copy(&self, alloc: Global) -> Result<Self, NoMemory>
        ensures { IfOk result (λ copied. copied ≡ self.now) }
    {
        match self {
            Datum::Int(number) => Ok(Datum::Int(*number)),
            Datum::Text(text) => Ok(Datum::Text(text.copy(alloc)?)),
            Datum::Bool(truth) => Ok(Datum::Bool(*truth)),
        }
    }
}

/// The row of a key in a run, as contracts see it.
#[derive(Drop)]
pub(crate) struct Row {
    /// The key.
    pub(crate) key: Key,
    /// Its value now, or none.
    pub(crate) value: Option<Value>,
    /// Whether the run set or cleared it.
    pub(crate) changed: bool,
}
