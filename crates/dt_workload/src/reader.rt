//! The reader of workload files.

ghost use Rattle.std.specs.Prelude.{◌≡◌, ℕ, ◌<◌, ◌^◌, length, IfOk, Err};
ghost use Rattle.dt_cluster.specs.Valid.{IsValidCluster};
ghost use Rattle.dt_workload.specs.File.{IsWorkload, IsWorkloadFault};
ghost use Rattle.dt_workload.specs.Valid.{IsValidWorkload};
ghost use Rattle.dt_workload.specs.declared.error.WorkloadCause.{WorkloadCause as AnyCause};

use crate::draft::Draft;
use crate::error::{Refusal, WorkloadError};
use crate::workload::Workload;
use dt_cluster::Cluster;
use dt_text::Lines;
use std::alloc::Global;

/// Reads a workload file for a cluster.
///
/// Its lines are `session NAME at REGION`, and `call PROC ARG ..` and `move KEY to REGION`, which belong to the session before
/// them. The first word of a call or a move may end with `/` and a digit, which is its rank; without it the rank is 5. Blank
/// lines and those that begin with `#`, maybe after spaces, are skipped. The answer is the workload, or the first faulty line with its cause.
/// Within a line the causes are tried in this order: `Form`; for a session `Name`, `Twice`, `Region`, `TooMany`; for a
/// call `NoSession`, `Proc`, `Args`, `Key`, `TooMany`; for a move `NoSession`, `Key`, `Region`, `TooMany`.
/// That a file is too long is reported by whoever loads it.
pub fn read_workload(
    alloc: Global,
    bytes: &[u8],
    cluster: &Cluster,
) -> Result<Workload, WorkloadError>
    requires short { length bytes.now < 2 ^ 32 }
    requires cluster { IsValidCluster cluster.now }
    ensures workload { IfOk result (IsWorkload cluster.now bytes.now) }
    ensures fault { (line : ℕ) (told : AnyCause) → result ≡ Err (WorkloadError.Fault line told) → IsWorkloadFault cluster.now bytes.now line told }
    ensures valid { IfOk result (IsValidWorkload cluster.now) }
{
    let mut draft = Draft::new(alloc);
    let mut lines = Lines::new(bytes);
    while let Some(line) = lines.next() {
        match draft.add_line(alloc, cluster, line.bytes) {
            Ok(()) => {}
            Err(Refusal::Cause(cause)) => return Err(WorkloadError::Fault(line.number, cause)),
            Err(Refusal::NoMemory) => return Err(WorkloadError::NoMemory),
        }
    }
    Ok(draft.into_workload())
}
