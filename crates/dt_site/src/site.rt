//! A site, and that of a region before anything happens.
ghost use Rattle.std.specs.Prelude.{◌≡◌, ◌<◌, ◌≤◌, ◌-◌, length, get_or, IfOk, OnOk};
ghost use Rattle.dt_txn.specs.Transaction.{BodyFits};
ghost use Rattle.dt_region.specs.Region.{HasStamp};
ghost use Rattle.dt_region.specs.Conditions.{IsTableFor};
ghost use Rattle.dt_region.specs.Sound.{IsSoundRegion};
ghost use Rattle.dt_cluster.specs.Valid.{IsValidCluster};
ghost use Rattle.dt_session.specs.World.{opening_table};
ghost use Rattle.dt_site.specs.Site.{MakesAttempt, opening_site};

use crate::tables::first_table;
use dt_access::TxnId;
use dt_cluster::Cluster;
use dt_proc::Procs;
use dt_region::Region;
use dt_sched::Scheduler;
use dt_table::{Opening, Table};
use dt_text::{Name, NoMemory};
use dt_txn::Body;
use std::alloc::Global;
use std::marker::Model;

/// What made a submission: a session, at which of its calls, and at which attempt of that call.
#[derive(Drop)]
pub struct Origin {
    pub session: Name,
    /// The number of the call in its session, from 1.
    pub call: u32,
    /// The number of the attempt within its call, from 1.
    pub attempt: u32,
}

/// A region, and of each of its submissions the session that made it.
#[derive(Drop)]
pub struct Site<S: Scheduler> {
    /// All its calls but `submit` are made here; a submission goes by `Site::submit`, so that it has its origin.
    pub region: Region<S>,
    origins: Vec<Origin>,
}

impl<S: Scheduler> Model for Site<S> {
    ghost use Rattle.dt_site.specs.Site.{SiteView};
    ghost use Rattle.dt_site.specs.SiteCode.{site_code};

    ghost Value = { SiteView };

    ghost coded = { site_code };

    ghost view = { λ s. record { region = s.region; origins = s.origins.items } };
}

impl<S: Scheduler> Site<S> {
    /// The region of this number before anything happens, in a cluster of n regions, with this table, which is one
    /// for n regions. It fails only when out of memory.
    pub fn new(alloc: Global, number: u8, regions: u8, table: Table) -> Result<Self, NoMemory>
        requires number { number < regions }
        requires regions { regions ≤ 8 }
        requires table { IsTableFor regions table.state }
        ensures opening { IfOk result (λ site. site ≡ opening_site number regions table.state) }
        ensures sound { IfOk result (λ site. IsSoundRegion site.region.state) }
    {
        Ok(Site {
            region: Region::new(alloc, number, regions, table)?,
            origins: Vec::new(alloc),
        })
    }

    /// What made the submission of this number, counted from 1. Takes no memory.
    pub fn origin(&self, number: u32) -> &Origin
        requires from { 1 ≤ number }
        requires to { number ≤ length self.now.origins }
        ensures { result.now ≡ get_or self.now.origins (number - 1) result.now }
    {
        &self.origins[number as usize - 1]
    }

    /// Submits a body of this rank for a session, as the region does, and keeps what made it. After `NoMemory` nothing has changed.
    pub fn submit(
        &mut self,
        alloc: Global,
        rank: u8,
        body: Body,
        procs: &Procs,
        origin: Origin,
    ) -> Result<TxnId, NoMemory>
        requires stamp { HasStamp self.old.region }
        requires fits { BodyFits procs.now self.old.region.state.here.table.version self.old.region.state.regions body }
        requires rank { rank ≤ 9 }
        requires place { length self.old.region.state.submitted < 4294967295 }
        ensures makes { MakesAttempt procs.now self.old rank body origin result self.new }
        ensures sound { OnOk result (IsSoundRegion self.new.region.state) }
    {
        self.origins.reserve(1)?;
        let id = self
            .region
            .submit(alloc, &origin.session, rank, body, procs)?;
        match self.origins.push(origin) {
            Ok(()) => Ok(id),
            Err(_) => unreachable!(),
        }
    }
}

/// The site of the region of this number before anything happens. It shares the homes and rows that the cluster lists with
/// every other site that is made of them. It fails only when out of memory.
pub fn first_site<S: Scheduler>(
    alloc: Global,
    cluster: &Cluster,
    opening: &Opening,
    number: u8,
) -> Result<Site<S>, NoMemory>
    requires cluster { IsValidCluster cluster.now }
    requires homes { opening.now.homes ≡ cluster.now.homes }
    requires rows { opening.now.rows ≡ cluster.now.rows }
    requires number { number < cluster.now.regions }
    ensures opening { IfOk result (λ site. site ≡ opening_site number cluster.now.regions (opening_table cluster.now)) }
    ensures sound { IfOk result (λ site. IsSoundRegion site.region.state) }
{
    let table = first_table(alloc, cluster, opening)?;
    Site::new(alloc, number, cluster.regions, table)
}
