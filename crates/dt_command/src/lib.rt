//! The command: from the words of a command line and the files that they name to a report, a fault's line and an exit number.
//!
//! [`detock`] is the top call, whose contract is the headline. It is generic over the folder of the files and the sinks that take what is
//! written, so that the program gives it the disk and its two streams, and a test what it makes in memory.
#![tactic(auto)]

mod faults;
mod files;
mod program;
mod replay;
mod run;
mod status;
mod top;
mod words;

pub use program::{command_line, exit_of};
pub use status::{EventsCause, Status};
pub use top::{detock, detock_alone};
pub use words::{ClusterWord, RunWords, ThreadedWords, threaded_words};
