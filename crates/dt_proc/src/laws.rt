//! Laws of texts of procedures. Each is what its function ensures; the functions do nothing.

ghost use Rattle.dt_proc.specs.Outcome.{TextsHaveAnOutcome, TextsHaveOneOutcome};

/// Every text has an outcome: it means procedures, or there is a first fault in it.
pub fn texts_have_an_outcome()
    ensures { TextsHaveAnOutcome }
{}

/// A text has at most one outcome: it does not both mean procedures and have a fault, it does not mean
/// two things, and the first fault in it is one fault at one place. `read_procs` finds the outcome.
pub fn texts_have_one_outcome()
    ensures { TextsHaveOneOutcome }
{}
