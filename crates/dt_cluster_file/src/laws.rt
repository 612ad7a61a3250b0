//! Laws of cluster files. Each is what its function ensures; the functions do nothing.

ghost use Rattle.dt_cluster_file.specs.Laws.{ClustersHaveNoFault, FilesAreOneCluster, ClusterFilesHaveAnOutcome, ClusterFilesHaveOneFault};

/// A file is one cluster at most.
pub fn files_are_one_cluster()
    ensures { FilesAreOneCluster }
{}

/// A file that is a cluster has no fault.
pub fn clusters_have_no_fault()
    ensures { ClustersHaveNoFault }
{}

/// A file has one fault at most.
pub fn files_have_one_fault()
    ensures { ClusterFilesHaveOneFault }
{}

/// Every file is a cluster or has a fault.
pub fn files_have_an_outcome()
    ensures { ClusterFilesHaveAnOutcome }
{}
