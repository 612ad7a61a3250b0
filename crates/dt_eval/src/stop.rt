ghost use Rattle.std.specs.Prelude.{◌≡◌};

use crate::finish::Cause;
use dt_text::NoMemory;
use std::alloc::AllocFailed;

/// Why a run does not go on.
#[derive(Drop)]
pub(crate) enum Stop {
    /// It aborts.
    Aborted(Cause),
    /// Memory ran out.
    NoMemory,
}

impl From<NoMemory> for Stop {
    ghost use Rattle.dt_eval.specs.declared.stop.Stop.TheVariants as variants;

    ghost from_gives = { λ _ e. e ≡ variants.NoMemory };

    fn from(_error: NoMemory) -> Self {
        Stop::NoMemory
    }
}

impl From<Cause> for Stop {
    ghost use Rattle.dt_eval.specs.declared.stop.Stop.TheVariants as variants;

    ghost from_gives = { λ cause e. e ≡ variants.Aborted cause };

    fn from(cause: Cause) -> Self {
        Stop::Aborted(cause)
    }
}

impl<T: Drop> From<AllocFailed<T>> for Stop {
    ghost use Rattle.dt_eval.specs.declared.stop.Stop.TheVariants as variants;

    ghost from_gives = { λ _ e. e ≡ variants.NoMemory };

    fn from(_error: AllocFailed<T>) -> Self {
        Stop::NoMemory
    }
}
