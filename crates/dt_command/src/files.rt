ghost use Rattle.std.specs.Prelude.{◌≡◌, ◌<◌, ◌≤◌, ◌⊎◌, length, IfOk, IfSome, Some};
ghost use Rattle.dt_cluster.specs.Valid.{IsValidCluster};
ghost use Rattle.dt_workload.specs.Valid.{IsValidWorkload};
ghost use Rattle.dt_command.specs.TaskCode.{IsRight, word_of};
ghost use Rattle.dt_command.specs.TaskFiles.{HasCluster, HasFile, HoldCluster, HoldEvents, HoldWorkload, file_limit};
ghost use Rattle.dt_command.specs.Causes.{WasMissed};
ghost use Rattle.dt_command.specs.RefusalCode.{IsClusterRefusal, IsEventsRefusal, IsFileRefusal, IsLoadRefusal, IsWorkloadRefusal, KeepsFiles};

use crate::status::{EventsCause, Status};
use crate::words::ClusterWord;
use dt_cluster::{Cluster, builtin};
use dt_cluster_file::{ClusterCause, ClusterError, ClusterFault, ClusterPlace, read_cluster};
use dt_events::{EventsError, NumberedEvents, read_events};
use dt_outside::{Folder, LoadError};
use dt_workload::{Workload, WorkloadCause, WorkloadError, read_workload};
use std::alloc::Global;

/// No file may be longer than this: 16 MiB.
const FILE_LIMIT: u64 = 16_777_216;

/// The number of the word that names the cluster.
const CLUSTER_WORD: u32 = 2;

/// The number of the word that names the workload's file.
const WORKLOAD_WORD: u32 = 3;

/// The number of the word that names the events' file.
const EVENTS_WORD: u32 = 4;

/// The cluster that a word names, and the workload for it in the file of this name.
pub fn load_both<F: Folder>(
    alloc: Global,
    files: &mut F,
    word: ClusterWord<'_>,
    name: &str,
) -> Result<(Cluster, Workload), Status>
    requires { IsRight word }
    ensures cluster { IfOk result (λ both. HasCluster (F.seen files.old).told (word_of word.entry) both.0) }
    ensures workload { IfOk result (λ both. HasFile (F.seen files.old).told name.now (HoldWorkload both.0 both.1)) }
    ensures valid { IfOk result (λ both. IsValidCluster both.0 × IsValidWorkload both.0 both.1) }
    ensures refused { (status : _) → result ≡ Err status →
        IsLoadRefusal (word_of word.entry) name.now (F.seen files.old) (F.seen files.new) status }
    ensures keeps { KeepsFiles (F.seen files.old) (F.seen files.new) }
{
    let cluster = load_cluster(alloc, files, word)?;
    let workload = load_workload(alloc, files, name, &cluster)?;
    Ok((cluster, workload))
}

/// The cluster that a word names: a built-in one, or that of its file, which is loaded and read.
fn load_cluster<F: Folder>(
    alloc: Global,
    files: &mut F,
    word: ClusterWord<'_>,
) -> Result<Cluster, Status>
    requires { IsRight word }
    ensures cluster { IfOk result (λ cluster. HasCluster (F.seen files.old).told (word_of word.entry) cluster) }
    ensures valid { IfOk result IsValidCluster }
    ensures refused { (status : _) → result ≡ Err status →
        IsClusterRefusal (word_of word.entry) (F.seen files.old) (F.seen files.new) status }
    ensures keeps { KeepsFiles (F.seen files.old) (F.seen files.new) }
{
    match word {
        ClusterWord::Builtin(regions) => Ok(builtin(alloc, regions)?),
        ClusterWord::File(name) => cluster_file(alloc, files, name),
    }
}

/// Loads and reads a cluster's file.
fn cluster_file<F: Folder>(alloc: Global, files: &mut F, name: &str) -> Result<Cluster, Status>
    ensures cluster { IfOk result (λ cluster. HasFile (F.seen files.old).told name.now (HoldCluster cluster)) }
    ensures valid { IfOk result IsValidCluster }
    ensures refused { (status : _) → result ≡ Err status →
        IsFileRefusal name.now (F.seen files.old) (F.seen files.new) status }
    ensures keeps { KeepsFiles (F.seen files.old) (F.seen files.new) }
{
    let too_long = Status::BadCluster(ClusterFault {
        place: ClusterPlace::Whole,
        cause: ClusterCause::TooLong,
    });
    let bytes = load(alloc, files, name, CLUSTER_WORD, too_long)?;
    match read_cluster(alloc, bytes.as_slice()) {
        Ok(cluster) => Ok(cluster),
        Err(ClusterError::Fault(fault)) => Err(Status::BadCluster(fault)),
        Err(ClusterError::NoMemory) => Err(Status::NoMemory),
    }
}

/// Loads and reads a workload for a cluster.
fn load_workload<F: Folder>(
    alloc: Global,
    files: &mut F,
    name: &str,
    cluster: &Cluster,
) -> Result<Workload, Status>
    requires { IsValidCluster cluster.now }
    ensures workload { IfOk result (λ workload. HasFile (F.seen files.old).told name.now (HoldWorkload cluster.now workload)) }
    ensures valid { IfOk result (λ workload. IsValidWorkload cluster.now workload) }
    ensures refused { (status : _) → result ≡ Err status →
        IsWorkloadRefusal cluster.now name.now (F.seen files.old) (F.seen files.new) status }
    ensures keeps { KeepsFiles (F.seen files.old) (F.seen files.new) }
{
    let too_long = Status::BadWorkload(0, WorkloadCause::TooLong);
    let bytes = load(alloc, files, name, WORKLOAD_WORD, too_long)?;
    match read_workload(alloc, bytes.as_slice(), cluster) {
        Ok(workload) => Ok(workload),
        Err(WorkloadError::Fault(line, cause)) => Err(Status::BadWorkload(line, cause)),
        Err(WorkloadError::NoMemory) => Err(Status::NoMemory),
    }
}

/// Loads and reads events, each with the number of its line.
pub fn load_events<F: Folder>(
    alloc: Global,
    files: &mut F,
    name: &str,
) -> Result<NumberedEvents, Status>
    ensures events { IfOk result (λ events. HasFile (F.seen files.old).told name.now (HoldEvents events)) }
    ensures few { IfOk result (λ events. length events ≤ file_limit) }
    ensures refused { (status : _) → result ≡ Err status →
        IsEventsRefusal name.now (F.seen files.old) (F.seen files.new) status }
    ensures keeps { KeepsFiles (F.seen files.old) (F.seen files.new) }
{
    let too_long = Status::BadEvents(0, EventsCause::TooLong);
    let bytes = load(alloc, files, name, EVENTS_WORD, too_long)?;
    match read_events(alloc, bytes.as_slice()) {
        Ok(events) => Ok(events),
        Err(EventsError::Form(line)) => Err(Status::BadEvents(line, EventsCause::Form)),
        Err(EventsError::NoMemory) => Err(Status::NoMemory),
    }
}

/// Loads the file that the word of this number names. `too_long` is the answer where it is longer than the limit.
fn load<F: Folder>(
    alloc: Global,
    files: &mut F,
    name: &str,
    word: u32,
    too_long: Status,
) -> Result<Vec<u8>, Status>
    ensures told { IfOk result (λ bytes. IfSome (F.seen files.old).told (λ told. told name.now ≡ Some bytes.items)) }
    ensures short { IfOk result (λ bytes. length bytes.items ≤ file_limit) }
    ensures refused { (status : _) → result ≡ Err status →
        (status ≡ Status.NoMemory)
        ⊎ ((status ≡ too_long) × HasFile (F.seen files.old).told name.now (λ bytes. file_limit < length bytes))
        ⊎ ((status ≡ Status.CannotRead word) × WasMissed (F.seen files.old) (F.seen files.new) name.now) }
    ensures keeps { KeepsFiles (F.seen files.old) (F.seen files.new) }
{
    match files.load(alloc, name, FILE_LIMIT) {
        Ok(bytes) => Ok(bytes),
        Err(LoadError::TooLong) => Err(too_long),
        Err(LoadError::Failed) => Err(Status::CannotRead(word)),
        Err(LoadError::NoMemory) => Err(Status::NoMemory),
    }
}
