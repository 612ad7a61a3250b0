ghost use Rattle.std.specs.Prelude.{◌≡◌, IfOk};

use dt_text::NoMemory;
use std::alloc::Global;
use std::marker::Model;

/// A value that lies elsewhere, so that what has it takes the room of an address. Contracts see the value.
#[derive(Drop)]
pub struct Apart<X> {
    value: Box<X>,
}

impl<X> Model for Apart<X> {
    ghost Value = { X };

    ghost view = { λ a. a.value.value };
}

impl<X> Apart<X> {
    /// This value, elsewhere.
    pub fn new(alloc: Global, value: X) -> Result<Self, NoMemory>
    where
        X: Drop,
        ensures { IfOk result (λ apart. apart ≡ value) }
    {
        Ok(Apart {
            value: Box::new(alloc, value)?,
        })
    }

    /// The value. Takes no memory.
    pub fn get(&self) -> &X
        ensures { result.now ≡ self.now }
    {
        &self.value
    }
}
