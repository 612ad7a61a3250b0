//! What a replay or a run reports, and the text of it.
//!
//! [`print`] makes the text of a [`Report`] that is there as a whole. Whoever has replies, attempts and tables one after another
//! writes them as they come, and needs no list of them: [`begin_text`] makes the first line, [`put_reply`] adds the line of a
//! reply, then [`begin_order`], [`put_ran`], [`put_all_shown`] and [`put_events`] the other sections.
//!
//! Read next: `specs/Report.antt`, the sections and their lines. Which events, outcomes and rows are reported is stated in
//! `dt_world`.
#![tactic(auto)]

mod laws;
mod lines;
mod printable;
mod printed;
mod report;
mod words;

pub use laws::texts_tell_events;
pub use lines::{put_ran, put_reply};
pub use printable::events_are_written;
pub use printed::{begin_order, begin_text, print, put_all_shown, put_events};
pub use report::{EventList, Ran, Rans, Replies, Reply, Report, Tables};
