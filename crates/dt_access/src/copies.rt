ghost use Rattle.std.specs.Prelude.{◌≡◌, IfOk};

use dt_text::{Key, Listed, NoMemory, Value};
use std::alloc::Global;

/// Values that can be copied, where memory suffices.
pub trait TryCopy: Sized {
    /// An equal value.
    fn copy(&self, alloc: Global) -> Result<Self, NoMemory>
        ensures { IfOk result (λ copied. copied ≡ self.now) };
}

/// Copies of all items, in order.
pub(crate) fn copy_items<X: TryCopy + Drop>(alloc: Global, items: &[X]) -> Result<Vec<X>, NoMemory>
    ensures { IfOk result (λ copied. copied.items ≡ items.now) }
{
    let mut copied = Vec::with_capacity(alloc, items.len())?;
    for item in items {
        copied.push(item.copy(alloc)?)?;
    }
    Ok(copied)
}

impl TryCopy for Key {
    fn copy(&self, alloc: Global) -> Result<Self, NoMemory> {
        Key::copy(self, alloc)
    }
}

impl TryCopy for Value {
    fn copy(&self, alloc: Global) -> Result<Self, NoMemory> {
        Value::copy(self, alloc)
    }
}

impl<X: TryCopy> TryCopy for Option<X> {
    fn copy(&self, alloc: Global) -> Result<Self, NoMemory> {
        match self {
            Some(value) => Ok(Some(value.copy(alloc)?)),
            None => Ok(None),
        }
    }
}

impl<X: TryCopy + Drop, Y: TryCopy> TryCopy for (X, Y) {
    fn copy(&self, alloc: Global) -> Result<Self, NoMemory> {
        let (left, right) = self;
        Ok((left.copy(alloc)?, right.copy(alloc)?))
    }
}

impl<X: TryCopy + Drop> TryCopy for Listed<X> {
    fn copy(&self, alloc: Global) -> Result<Self, NoMemory> {
        Ok(Listed::from_vec(copy_items(alloc, self.as_slice())?))
    }
}
