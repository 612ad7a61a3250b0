//! Laws of workload files. Each is what its function ensures; the functions do nothing.

ghost use Rattle.dt_workload.specs.Laws.{FilesAreOneWorkload, WorkloadFilesHaveAnOutcome, WorkloadFilesHaveOneFault, WorkloadsHaveNoFault};

/// In a cluster, a file is one workload at most.
pub fn files_are_one_workload()
    ensures { FilesAreOneWorkload }
{}

/// A file that is a workload of a cluster has no fault in it.
pub fn workloads_have_no_fault()
    ensures { WorkloadsHaveNoFault }
{}

/// In a cluster, a file has one fault at most, at one line.
pub fn files_have_one_fault()
    ensures { WorkloadFilesHaveOneFault }
{}

/// In a cluster, every file is a workload or has a fault.
pub fn files_have_an_outcome()
    ensures { WorkloadFilesHaveAnOutcome }
{}
