//! The steps under the lock of a region, one after another: what was worked earlier, in this region or in its twin, is not committed.
//! Regions are left to the end of the process: that they may be dropped would be proved again in each function that owns one.
ghost use Rattle.std.specs.Prelude.{◌≡◌};
ghost use Rattle.dt_region.specs.Rounds.{CanRound};

use crate::calls::Call;
use crate::rounds::{Story, begun, feed, put_events};
use crate::twins::twins;
use dt_access::{TxnId, put_id};
use dt_graph::QueueSched;
use dt_lock::{Claim, Finished, Held, Named};
use dt_plain::PlainSched;
use dt_proc::{Procs, builtin_procs};
use dt_region::Region;
use dt_sched::Scheduler;
use dt_text::NoMemory;
use std::alloc::Global;
use std::marker::Brand;
use std::mem::forget;
use std::test::Fail;

/// What is done under the lock.
#[derive(Clone, Copy)]
enum Step {
    /// The next part of log 0 is inserted.
    Insert,
    /// A transaction is claimed and worked, and its id told, or that there is none.
    Work,
    /// All claims that are running are taken off.
    Cancel,
    /// What was worked last is taken: of the first transaction it is committed, and told whether it was.
    Commit,
}

/// What a claim comes to.
fn worked<N: Named>(alloc: Global, claim: Claim<N>, procs: &Procs) -> Result<Finished<N>, NoMemory>
    requires { procs.now ≡ N.procs }
{
    match claim.work(alloc, procs) {
        Ok(finished) => Ok(finished),
        Err((_, error)) => Err(error),
    }
}

/// Claims and works a transaction, if there is one.
fn work<S: Scheduler + Drop, N: Named>(
    alloc: Global,
    held: &mut Held<S, N>,
    procs: &Procs,
    done: &mut Vec<Finished<N>>,
    told: &mut Vec<u8>,
) -> Result<(), Fail>
    requires { procs.now ≡ N.procs }
{
    let Some(claim) = held.claim(alloc)? else {
        told.extend_from_slice(b"none ")?;
        return Ok(());
    };
    let id = claim.id();
    done.push(worked(alloc, claim, procs)?)?;
    put_id(alloc, told, id)?;
    told.push(b' ')?;
    Ok(())
}

/// Takes what was worked last; if it is of the first transaction, commits it.
fn commit<S: Scheduler + Drop, N: Named>(
    held: &mut Held<S, N>,
    done: &mut Vec<Finished<N>>,
    told: &mut Vec<u8>,
) -> Result<(), Fail> {
    if let Some(finished) = done.pop() {
        if finished.id() == FIRST {
            let is_committed = held.commit(finished);
            told.push(if is_committed { b'+' } else { b'-' })?;
        }
    }
    Ok(())
}

/// Makes these steps.
fn go_on<S: Scheduler + Drop, N: Named>(
    alloc: Global,
    held: &mut Held<S, N>,
    procs: &Procs,
    steps: &[Step],
    done: &mut Vec<Finished<N>>,
    told: &mut Vec<u8>,
) -> Result<(), Fail>
    requires { procs.now ≡ N.procs }
{
    for step in steps {
        match *step {
            Step::Insert => {
                if held.regions() == 0 || !held.insert(alloc, 0)? {
                    return Err(Fail::from("there is a part"));
                }
            }
            Step::Work => work(alloc, held, procs, done, told)?,
            Step::Cancel => held.cancel(),
            Step::Commit => commit(held, done, told)?,
        }
    }
    Ok(())
}

/// Takes off what is running; then the region leaves its lock. Tells its events.
fn leave<S: Scheduler + Drop, N: Named>(
    alloc: Global,
    held: Held<S, N>,
    told: &mut Vec<u8>,
) -> Result<(), Fail> {
    let mut held = held;
    held.cancel();
    match held.leave() {
        Ok(region) => {
            let put = put_events(alloc, told, &region, 4);
            forget(region);
            put
        }
        Err(held) => {
            forget(held);
            Err(Fail::from("no claim is running"))
        }
    }
}

/// The region does not leave its lock while a claim is running, and then it does.
fn stay<S: Scheduler + Drop, N: Named>(
    alloc: Global,
    held: Held<S, N>,
    told: &mut Vec<u8>,
) -> Result<(), Fail> {
    match held.leave() {
        Ok(region) => {
            forget(region);
            Err(Fail::from("a claim is running"))
        }
        Err(held) => leave(alloc, held, told),
    }
}

/// Makes these steps in a region that is named so, which stays behind its lock until no claim is running.
fn go_through<S: Scheduler + Drop, N: Named>(
    alloc: Global,
    region: Region<S>,
    procs: &Procs,
    steps: &[Step],
    done: &mut Vec<Finished<N>>,
    told: &mut Vec<u8>,
) -> Result<(), Fail>
    requires region { region ≡ N.before }
    requires procs { procs.now ≡ N.procs }
    requires can { CanRound N.procs N.before }
{
    let mut held = Held::<S, N>::enter(alloc, region);
    match go_on(alloc, &mut held, procs, steps, done, told) {
        Ok(()) => stay(alloc, held, told),
        Err(fail) => {
            forget(held);
            Err(fail)
        }
    }
}

/// The steps of a region that is named so; what was worked is left to the end of the process, too.
fn steps_named<S: Scheduler + Drop, N: Named>(
    alloc: Global,
    region: Region<S>,
    procs: &Procs,
    told: &mut Vec<u8>,
) -> Result<(), Fail>
    requires region { region ≡ N.before }
    requires procs { procs.now ≡ N.procs }
    requires can { CanRound N.procs N.before }
{
    let mut done = Vec::new(alloc);
    let made = go_through::<S, N>(alloc, region, procs, &STEPS, &mut done, told);
    forget(done);
    made
}

/// The steps of region 0 of two, of which two sessions submit a call, whose parts stand in its log.
fn alone<S: Scheduler + Drop>(
    alloc: Global,
    procs: &Procs,
    told: &mut Vec<u8>,
) -> Result<(), Fail> {
    let mut region: Region<S> = begun(alloc, 0, 2)?;
    match feed(alloc, &mut region, procs, STORY) {
        Ok(()) => steps_named::<S, Brand>(alloc, region, procs, told),
        Err(fail) => {
            forget(region);
            Err(fail)
        }
    }
}

/// Works both in a twin, which is named as the region is, and is left behind its lock.
fn work_in_twin<S: Scheduler + Drop, N: Named>(
    alloc: Global,
    twin: Region<S>,
    procs: &Procs,
    done: &mut Vec<Finished<N>>,
    told: &mut Vec<u8>,
) -> Result<(), Fail>
    requires twin { twin ≡ N.before }
    requires procs { procs.now ≡ N.procs }
    requires can { CanRound N.procs N.before }
{
    let mut held = Held::<S, N>::enter(alloc, twin);
    let made = go_on(alloc, &mut held, procs, &TWIN_STEPS, done, told);
    forget(held);
    made
}

/// The steps of a region and its twin that are named so.
fn twin_steps_named<S: Scheduler + Drop, N: Named>(
    alloc: Global,
    twins: (Region<S>, Region<S>),
    procs: &Procs,
    told: &mut Vec<u8>,
) -> Result<(), Fail>
    requires region { twins.0 ≡ N.before }
    requires twin { twins.1 ≡ N.before }
    requires procs { procs.now ≡ N.procs }
    requires can { CanRound N.procs N.before }
{
    let (region, twin) = twins;
    let mut done = Vec::new(alloc);
    let made = match work_in_twin::<S, N>(alloc, twin, procs, &mut done, told) {
        Ok(()) => go_through::<S, N>(alloc, region, procs, &OWN_STEPS, &mut done, told),
        Err(fail) => {
            forget(region);
            Err(fail)
        }
    };
    forget(done);
    made
}

/// The steps of such a region and its twin.
fn beside_twin<S: Scheduler + Drop>(
    alloc: Global,
    procs: &Procs,
    told: &mut Vec<u8>,
) -> Result<(), Fail> {
    let twins = twins::<S>(alloc, procs)?;
    twin_steps_named::<S, Brand>(alloc, twins, procs, told)
}

/// What was worked earlier: in the region itself, or in its twin.
#[derive(Clone, Copy)]
enum Earlier {
    Itself,
    Twin,
}

/// The steps where this was worked earlier.
fn make<S: Scheduler + Drop>(
    alloc: Global,
    procs: &Procs,
    earlier: Earlier,
    told: &mut Vec<u8>,
) -> Result<(), Fail> {
    match earlier {
        Earlier::Itself => alone::<S>(alloc, procs, told),
        Earlier::Twin => beside_twin::<S>(alloc, procs, told),
    }
}

/// What these steps make.
fn told<S: Scheduler + Drop>(alloc: Global, earlier: Earlier) -> Result<Vec<u8>, Fail> {
    let mut told = Vec::new(alloc);
    let procs = builtin_procs(alloc)?;
    let made = make::<S>(alloc, &procs, earlier, &mut told);
    forget(procs);
    made?;
    Ok(told)
}

const FIRST: TxnId = TxnId { seq: 1, region: 0 };

/// In a cluster of two the home of `b` and `d` is region 0.
pub const PUT_B: Call<'static> = (b"put", &[b"b", b"1"]);

pub const PUT_D: Call<'static> = (b"put", &[b"d", b"2"]);

const STORY: Story<'static> = Story {
    number: 0,
    regions: 2,
    calls: &[(b"x", PUT_B), (b"y", PUT_D)],
    rows: &[(0, 1, 0, PUT_B), (0, 2, 0, PUT_D)],
};

/// Both are worked, and given up; both are worked again, and the first is committed, once: what came of it before is not. The claim of
/// the other one is running in the end.
const STEPS: [Step; 13] = [
    Step::Insert,
    Step::Insert,
    Step::Work,
    Step::Work,
    Step::Work,
    Step::Cancel,
    Step::Work,
    Step::Work,
    Step::Work,
    Step::Commit,
    Step::Commit,
    Step::Commit,
    Step::Commit,
];

/// Both are worked in the twin, while the region is not behind its lock yet.
const TWIN_STEPS: [Step; 5] = [
    Step::Insert,
    Step::Insert,
    Step::Work,
    Step::Work,
    Step::Work,
];

/// Both are worked in the region, and the first is committed, once: what came of it in the twin is not. The claim of the other one is
/// running in the end.
const OWN_STEPS: [Step; 9] = [
    Step::Insert,
    Step::Insert,
    Step::Work,
    Step::Work,
    Step::Work,
    Step::Commit,
    Step::Commit,
    Step::Commit,
    Step::Commit,
];

/// What is told where the first is claimed first, and where the second is.
const WANT: [&[u8]; 2] = [
    b"1.0 2.0 none 1.0 2.0 none +-5 insert 0 0\n6 insert 0 0\n7 execute 0 1.0\nfalse",
    b"2.0 1.0 none 2.0 1.0 none +-5 insert 0 0\n6 insert 0 0\n7 execute 0 1.0\nfalse",
];

/// Whether one of these texts is told.
fn is_told<S: Scheduler + Drop>(alloc: Global, earlier: Earlier) -> Result<bool, Fail> {
    Ok(WANT.contains(&told::<S>(alloc, earlier)?.as_slice()))
}

#[test]
fn a_claim_is_committed_once(rt: HostRuntime) -> Result<(), Fail> {
    assert!(rt; is_told::<PlainSched>(rt.alloc(), Earlier::Itself)?);
    assert!(rt; is_told::<QueueSched>(rt.alloc(), Earlier::Itself)?);
    Ok(())
}

#[test]
fn what_a_twin_worked_is_not_committed_again(rt: HostRuntime) -> Result<(), Fail> {
    assert!(rt; is_told::<PlainSched>(rt.alloc(), Earlier::Twin)?);
    assert!(rt; is_told::<QueueSched>(rt.alloc(), Earlier::Twin)?);
    Ok(())
}
