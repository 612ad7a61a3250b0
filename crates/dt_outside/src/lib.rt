//! What the program knows of files and streams: folders that give files, sinks that take bytes, and
//! a count of faults for each. A folder and a sink in memory say all that they do; those over the
//! real disk and the real streams say what can be promised of a device, and pass on what the reader
//! gives and what the writer takes.
#![tactic(auto)]

mod disk_folder;
mod failures;
mod folders;
mod memory_folder;
mod memory_sink;
mod sinks;
mod std_sink;

pub use disk_folder::{DiskFolder, read_within};
pub use failures::{Failed, LoadError};
pub use folders::Folder;
pub use memory_folder::MemoryFolder;
pub use memory_sink::MemorySink;
pub use sinks::{Sink, write_all};
pub use std_sink::StdSink;
