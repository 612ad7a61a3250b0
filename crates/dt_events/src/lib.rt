//! Events: the atomic steps of regions, and their text.
//!
//! Read next: `specs/Events.antt`, how each kind of event is written and what a file of events is, and `specs/Stamps.antt`, how
//! a region numbers its events. When an event may happen, and what it does, is stated in `dt_session`.
#![tactic(auto)]

mod common_lines;
mod event;
mod laws;
mod numbered;
mod printed;
mod reader;
mod recent_names;
mod words;

pub use event::{Event, Stamped};
pub use laws::{
    events_have_no_fault, files_are_one_list, files_have_an_outcome, files_have_one_fault,
    lines_are_one_event, printed_events_read_back,
};
pub use numbered::NumberedEvents;
pub use printed::{put_event, put_number};
pub use reader::{EventsError, read_events};
