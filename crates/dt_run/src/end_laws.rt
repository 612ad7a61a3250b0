//! Why a run ends. Each law is the contract of a function that does nothing.
ghost use Rattle.dt_run.specs.EndLaws.{BeginsToEnd, EachPhaseIsCounted, EachPhaseLeadsToAnEnd, PhasesAreFew, SilentPhasesLeadToAnEnd, WhatIsDoneStaysDone, WhatWaitsIsTrue};

/// Before the first phase nothing is made and nothing is kept.
pub fn begins_to_end()
    ensures { BeginsToEnd }
{}

/// A phase is one more, loses nothing that was kept, and continues or restarts the run of silent ones.
pub fn each_phase_is_counted()
    ensures { EachPhaseIsCounted }
{}

/// What makes a run end is so after each phase, if it was before.
pub fn each_phase_leads_to_an_end()
    ensures { EachPhaseLeadsToAnEnd }
{}

/// What waits on a link is true.
pub fn what_waits_is_true()
    ensures { WhatWaitsIsTrue }
{}

/// Silent phases make what nodes know of each other exact, and where nothing is outstanding after one, all is done.
pub fn silent_phases_lead_to_an_end()
    ensures { SilentPhasesLeadToAnEnd }
{}

/// What is done stays done.
pub fn what_is_done_stays_done()
    ensures { WhatIsDoneStaysDone }
{}

/// While not all is done, fewer phases are made than there can be.
pub fn phases_are_few()
    ensures { PhasesAreFew }
{}
