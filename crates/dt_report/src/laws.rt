//! A law of the text of reports, which is what its function ensures; the function does nothing.
ghost use Rattle.dt_report.specs.Laws.{TextsTellEvents};

/// The text of a report determines its events: no line before its last section is just `events`, and each line after
/// that one is the one event that it spells.
pub fn texts_tell_events()
    ensures { TextsTellEvents }
{}
