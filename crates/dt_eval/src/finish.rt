ghost use Rattle.std.specs.Prelude.{◌≡◌, IfOk};

use crate::values::Values;
use dt_access::{Shared, Writes};
use dt_text::{Common, Key, Listed, NoMemory, Str, Value};

/// The arguments of a call.
pub type Args = Shared<Value>;

/// The values of the rows that a call uses, each a value or none.
pub type Reads = Listed<(Key, Option<Value>)>;

/// Why a run of a procedure aborts.
#[derive(Drop)]
pub enum Cause {
    /// The procedure says so, with this text, which copies of the cause have in common: so a cause is small.
    Word(Common<Str>),
    /// A number does not fit.
    Overflow,
    /// A divisor is 0.
    Zero,
    /// A row does not have a value of the wanted kind.
    Kind,
    /// A text is longer than 256 bytes.
    Long,
}

impl Cause {
    /// An equal cause. Takes no memory.
    pub fn copy(&self) -> Result<Self, NoMemory>
        ensures { IfOk result (λ copied. copied ≡ self.now) }
    {
        match self {
            Cause::Word(text) => Ok(Cause::Word(text.copy()?)),
            Cause::Overflow => Ok(Cause::Overflow),
            Cause::Zero => Ok(Cause::Zero),
            Cause::Kind => Ok(Cause::Kind),
            Cause::Long => Ok(Cause::Long),
        }
    }
}

/// How a run of a procedure ends.
#[derive(Drop)]
pub enum Finish {
    /// It gave these values, and changes these rows.
    Gave(Values, Writes),
    /// It aborted, and changes nothing.
    Aborted(Cause),
}
