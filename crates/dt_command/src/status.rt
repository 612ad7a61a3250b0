ghost use Rattle.std.specs.Prelude.{◌≡◌};
ghost use Rattle.dt_command.specs.Statuses.{exit_number};

use dt_cluster_file::ClusterFault;
use dt_text::NoMemory;
use dt_workload::WorkloadCause;

/// How the program ends.
#[derive(Debug, Drop)]
pub enum Status {
    /// The whole report, or the whole summary of a big run, was written.
    Done,
    /// Memory ran out. Nothing was written.
    NoMemory,
    /// The words are of none of the forms.
    BadWords,
    /// The file that the word of this number names, counted from 1, could not be read.
    CannotRead(u32),
    /// The cluster file is not a cluster; this is its first fault.
    BadCluster(ClusterFault),
    /// The workload file is not a workload for the cluster, first by this line; line 0 stands for the whole file.
    BadWorkload(u32, WorkloadCause),
    /// The file of events has a fault on this line; line 0 stands for the whole file.
    BadEvents(u32, EventsCause),
    /// The sink failed. It took some first bytes of the report, and no others.
    CannotWrite,
}

/// What is wrong with a file of events.
#[derive(Clone, Copy, Debug, PartialEq, Eq)]
pub enum EventsCause {
    /// The file is longer than 16 MiB.
    TooLong,
    /// The line is not skipped, and is not an event.
    Form,
    /// The event of the line is not legal, by the rule of this number.
    Rule(u8),
}

impl Status {
    /// The number with which the program ends. Takes no memory.
    pub fn exit(&self) -> u8
        ensures { result ≡ exit_number self.now }
    {
        match self {
            Status::Done => 0,
            Status::NoMemory => 1,
            Status::BadWords => 2,
            Status::CannotRead(_) => 3,
            Status::BadCluster(_) => 4,
            Status::BadWorkload(_, _) => 5,
            Status::BadEvents(_, _) => 6,
            Status::CannotWrite => 7,
        }
    }
}

impl From<NoMemory> for Status {
    ghost use Rattle.std.specs.Prelude.{◌≡◌};
    ghost use Rattle.dt_command.specs.declared.status.Status.TheVariants.{NoMemory as OutOfMemory};

    ghost from_gives = { λ _ status. status ≡ OutOfMemory };

    fn from(_error: NoMemory) -> Self {
        Status::NoMemory
    }
}
