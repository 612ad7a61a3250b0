ghost use Rattle.std.specs.Prelude.{◌≡◌, IfOk};

use crate::no_memory::NoMemory;
use crate::text::Str;
use std::alloc::Global;

/// What a row may have: a number or a text.
#[derive(Debug, PartialEq, Eq, Drop)]
pub enum Value {
    /// A number.
    Int(i64),
    /// A text.
    Text(Str),
}

impl Value {
    /// An equal value.
    pub fn copy(&self, alloc: Global) -> Result<Self, NoMemory>
        ensures { IfOk result (λ value. value ≡ self.now) }
    {
        match self {
            Value::Int(number) => Ok(Value::Int(*number)),
            Value::Text(text) => Ok(Value::Text(text.copy(alloc)?)),
        }
    }
}
