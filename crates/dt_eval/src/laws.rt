//! Laws of the meaning of procedures. Each is what its function ensures; the functions do nothing.

ghost use Rattle.dt_eval.specs.Laws.{MeaningIsByCases, KeysAloneCount, OnlyDeclaredAreWritten};

/// The meaning by cases over expressions and statements, and the function that contracts cite, agree: so a call that fits
/// ends in just one way.
#[tactic(auto, using(crate::proofs::Agreement::meaning_by_cases))]
pub fn meaning_is_by_cases()
    ensures { MeaningIsByCases }
{}

/// What a call means depends on the values of its keys alone.
#[tactic(auto, using(crate::proofs::CallLaws::keys_alone))]
pub fn keys_alone_count()
    ensures { KeysAloneCount }
{}

/// A call writes only keys that are declared for writing.
#[tactic(auto, using(crate::proofs::CallLaws::writes_declared))]
pub fn only_declared_are_written()
    ensures { OnlyDeclaredAreWritten }
{}
