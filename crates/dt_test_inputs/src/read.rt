ghost use Rattle.std.specs.Prelude.{IfOk};
ghost use Rattle.dt_cluster.specs.Valid.{IsValidCluster};
ghost use Rattle.dt_workload.specs.Valid.{IsValidWorkload};

use dt_cluster::Cluster;
use dt_cluster_file::{ClusterError, read_cluster};
use dt_text::NoMemory;
use dt_workload::{Workload, WorkloadError, read_workload};
use std::alloc::Global;
use std::test::Fail;

/// More bytes than a file in a test has.
const MANY: usize = 1000000;

/// The cluster of a file. It fails where the file is none.
pub fn cluster_of(alloc: Global, file: &[u8]) -> Result<Cluster, Fail>
    ensures { IfOk result IsValidCluster }
{
    if file.len() >= MANY {
        return Err(Fail::from("a test has few bytes"));
    }
    match read_cluster(alloc, file) {
        Ok(cluster) => Ok(cluster),
        Err(ClusterError::Fault(_)) => Err(Fail::from("the file is a cluster")),
        Err(ClusterError::NoMemory) => Err(NoMemory.into()),
    }
}

/// The workload of a file, for a cluster. It fails where the file is none.
pub fn workload_of(alloc: Global, cluster: &Cluster, file: &[u8]) -> Result<Workload, Fail>
    requires { IsValidCluster cluster.now }
    ensures { IfOk result (IsValidWorkload cluster.now) }
{
    if file.len() >= MANY {
        return Err(Fail::from("a test has few bytes"));
    }
    match read_workload(alloc, file, cluster) {
        Ok(workload) => Ok(workload),
        Err(WorkloadError::Fault(_, _)) => Err(Fail::from("the file is a workload")),
        Err(WorkloadError::NoMemory) => Err(NoMemory.into()),
    }
}
