//! The world: all regions and all sessions of a cluster, held together.
//!
//! A [`World`] takes one event after another. [`World::step`] makes an event exactly where it is legal by its rule, and
//! refuses it by the number of that rule otherwise; a refused event changes nothing. [`World::report`] says what a list of
//! events came to: the replies, the executed attempts in the serial order, and the rows of each region. It is read off the
//! sites alone, so others that have the sites of all regions may ask for it too ([`report_of_sites`]). [`World::text`] is the
//! text of the report, and takes less memory. [`World::kept`] says which events a region keeps.
//!
//! A world holds, for each region, a [`Site`](dt_site::Site) and its [`Sessions`](dt_session::Sessions). A step finds the
//! region that the event is of, and makes its call there; what the call needs of other regions, as the transaction of a request
//! or the entries of a log, is looked up in their sites.
#![tactic(auto)]

mod marks;
mod session_replay;
mod site_reports;
mod world;

pub use site_reports::{report_of_sites, text_of_sites};
pub use world::{StepError, World, kept_are_own, texts_tell_one_run};
