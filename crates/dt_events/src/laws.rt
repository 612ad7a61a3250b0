//! Laws of the text of events. Each is what its function ensures; the functions do nothing.

ghost use Rattle.dt_events.specs.Laws.{EventFilesAreOneList, EventFilesHaveAnOutcome, EventFilesHaveOneFault, EventsHaveNoFault, LinesAreOneEvent, PrintedEventsReadBack};

/// A line is one event at most.
pub fn lines_are_one_event()
    ensures { LinesAreOneEvent }
{}

/// Reading what `put_event` wrote gives the same events, where each id has a `seq` of at least 1
/// and each resolved group has two or more ids.
pub fn printed_events_read_back()
    ensures { PrintedEventsReadBack }
{}

/// A file is one list of events at most.
pub fn files_are_one_list()
    ensures { EventFilesAreOneList }
{}

/// A file that is a list of events has no line without a form.
pub fn events_have_no_fault()
    ensures { EventsHaveNoFault }
{}

/// A file has one first line without a form at most.
pub fn files_have_one_fault()
    ensures { EventFilesHaveOneFault }
{}

/// Every file is a list of events or has a first line without a form.
pub fn files_have_an_outcome()
    ensures { EventFilesHaveAnOutcome }
{}
