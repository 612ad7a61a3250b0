ghost use Rattle.std.specs.Prelude.{◌≡◌, ◌≤◌, IfOk};
ghost use Rattle.dt_cluster.specs.Builtin.{builtin_cluster};
ghost use Rattle.dt_cluster.specs.Valid.{IsValidCluster};

use crate::copies::{copy_homes, copy_rows};
use dt_proc::{Procs, builtin_procs};
use dt_text::{Key, Listed, NoMemory, Value};
use std::alloc::Global;

/// Keys with their opening homes.
pub type HomeList = Listed<(Key, u8)>;

/// Keys with their opening values.
pub type RowList = Listed<(Key, Value)>;

/// A cluster.
#[derive(Drop)]
pub struct Cluster {
    /// 1, in which each key has a home and moves, or 2, in which each granule of keys has them.
    pub version: u8,
    /// The number of regions, 1 to 8.
    pub regions: u8,
    /// How many workers execute in a region, 1 to 16.
    pub workers: u32,
    /// How many attempts a call or a move may have, 1 to 8.
    pub tries: u32,
    /// Every packet whose number this divides is lost; 0 for none.
    pub drop: u32,
    /// Every packet whose number this divides comes twice, unless it is lost; 0 for none.
    pub repeat: u32,
    /// The procedures that calls name.
    pub procs: Procs,
    /// The homes of keys, in version 2 of granules, that have another than their first byte gives.
    pub homes: HomeList,
    /// The rows that have a value at first.
    pub rows: RowList,
}

impl Cluster {
    /// An equal cluster.
    pub fn copy(&self, alloc: Global) -> Result<Self, NoMemory>
        ensures { IfOk result (λ copied. copied ≡ self.now) }
    {
        Ok(Cluster {
            version: self.version,
            regions: self.regions,
            workers: self.workers,
            tries: self.tries,
            drop: self.drop,
            repeat: self.repeat,
            procs: self.procs.copy()?,
            homes: copy_homes(alloc, self.homes.as_slice())?,
            rows: copy_rows(alloc, self.rows.as_slice())?,
        })
    }
}

/// The built-in cluster of n regions: version 1, four workers, three tries, nothing lost or repeated,
/// the built-in procedures, and neither homes nor rows listed.
pub fn builtin(alloc: Global, regions: u8) -> Result<Cluster, NoMemory>
    requires some { 1 ≤ regions }
    requires few { regions ≤ 8 }
    ensures cluster { IfOk result (λ cluster. cluster ≡ builtin_cluster regions) }
    ensures valid { IfOk result IsValidCluster }
{
    Ok(Cluster {
        version: 1,
        regions,
        workers: 4,
        tries: 3,
        drop: 0,
        repeat: 0,
        procs: builtin_procs(alloc)?,
        homes: Listed::new(alloc),
        rows: Listed::new(alloc),
    })
}
