ghost use Rattle.std.specs.Prelude.{◌≡◌, [], replicate, IfOk};
ghost use Rattle.dt_sched.specs.Sched.{nothing_yet};

use dt_access::Ids;
use dt_log::Log;
use dt_sched::Scheduler;
use dt_text::NoMemory;
use std::alloc::Global;

/// What a region of a cluster has of each region, itself among them, before anything happens, and its scheduler.
#[derive(Drop)]
pub struct Lists<S: Scheduler> {
    pub asked: Vec<Ids>,
    pub taken: Vec<u32>,
    pub logs: Vec<Log>,
    pub inserted: Vec<u32>,
    pub scheduler: S,
}

/// Nothing of each of n regions.
pub fn no_lists<S: Scheduler>(alloc: Global, regions: u8) -> Result<Lists<S>, NoMemory>
    ensures asked { IfOk result (λ none. none.asked.items ≡ replicate regions []) }
    ensures taken { IfOk result (λ none. none.taken.items ≡ replicate regions 0) }
    ensures logs { IfOk result (λ none. none.logs.items ≡ replicate regions []) }
    ensures inserted { IfOk result (λ none. none.inserted.items ≡ replicate regions 0) }
    ensures scheduler { IfOk result (λ none. S.seen none.scheduler ≡ nothing_yet regions) }
{
    let (asked, taken) = no_requests(alloc, regions)?;
    let (logs, inserted) = no_logs(alloc, regions)?;
    Ok(Lists {
        asked,
        taken,
        logs,
        inserted,
        scheduler: S::empty(alloc, regions)?,
    })
}

/// An empty list of ids, and a count of 0, for each region.
fn no_requests(alloc: Global, regions: u8) -> Result<(Vec<Ids>, Vec<u32>), NoMemory>
    ensures asked { IfOk result (λ none. none.0.items ≡ replicate regions []) }
    ensures taken { IfOk result (λ none. none.1.items ≡ replicate regions 0) }
{
    let counts = no_counts(alloc, regions)?;
    Ok((no_ids(alloc, regions)?, counts))
}

/// An empty log, and a count of 0, for each region.
fn no_logs(alloc: Global, regions: u8) -> Result<(Vec<Log>, Vec<u32>), NoMemory>
    ensures logs { IfOk result (λ none. none.0.items ≡ replicate regions []) }
    ensures inserted { IfOk result (λ none. none.1.items ≡ replicate regions 0) }
{
    let counts = no_counts(alloc, regions)?;
    Ok((no_parts(alloc, regions)?, counts))
}

/// An empty list of ids for each region.
fn no_ids(alloc: Global, regions: u8) -> Result<Vec<Ids>, NoMemory>
    ensures { IfOk result (λ lists. lists.items ≡ replicate regions []) }
{
    let mut lists = Vec::new(alloc);
    for _region in 0..regions {
        lists.push(Ids::new(alloc))?;
    }
    Ok(lists)
}

/// An empty log for each region.
fn no_parts(alloc: Global, regions: u8) -> Result<Vec<Log>, NoMemory>
    ensures { IfOk result (λ logs. logs.items ≡ replicate regions []) }
{
    let mut logs = Vec::new(alloc);
    for _region in 0..regions {
        logs.push(Log::new(alloc))?;
    }
    Ok(logs)
}

/// A count of 0 for each region.
fn no_counts(alloc: Global, regions: u8) -> Result<Vec<u32>, NoMemory>
    ensures { IfOk result (λ counts. counts.items ≡ replicate regions 0) }
{
    Ok(vec![in alloc; 0; regions as usize]?)
}
