ghost use Rattle.std.specs.Prelude.{◌≡◌, ◌<◌, ◌≤◌, ◌+◌, ◌%◌, IfOk, OnOk, map};
ghost use Rattle.dt_cluster.specs.Valid.{IsValidCluster};
ghost use Rattle.dt_workload.specs.Valid.{IsValidWorkload};
ghost use Rattle.dt_gen.specs.Load.{account_numbers, account_row, load_call, load_cluster, load_session, load_workload, session_name, session_numbers};

use crate::accounts::account_rows;
use crate::calls::next_call;
use crate::draws::Draws;
use dt_cluster::{Cluster, builtin};
use dt_text::{Key, Listed, Name, NoMemory, Value};
use dt_workload::{Bodies, Ranked, Session, SessionList, Workload};
use std::alloc::Global;

/// How many sessions there are.
const SESSIONS: u32 = 64;

/// How many of them are at a region.
const SESSIONS_AT_A_REGION: u32 = 16;

/// The generated load of n calls: its cluster and its workload.
///
/// 64 sessions at four regions make the calls in turn. Each transfers an amount of 1 to 50 from one of 100 accounts to one of
/// them, which may be the same, but the last of every 50 calls moves an account to a region.
pub fn generate(alloc: Global, calls: u32) -> Result<(Cluster, Workload), NoMemory>
    requires some { 1 ≤ calls }
    requires few { calls ≤ 20000 }
    ensures cluster { IfOk result (λ load. load.0 ≡ load_cluster) }
    ensures workload { IfOk result (λ load. load.1 ≡ load_workload calls) }
    ensures valid { IfOk result (λ load. IsValidCluster load.0 × IsValidWorkload load.0 load.1) }
{
    let cluster = accounts_cluster(alloc)?;
    let sessions = busy_sessions(alloc, cluster.rows.as_slice(), calls)?;
    Ok((cluster, Workload { sessions }))
}

/// The cluster of the accounts.
fn accounts_cluster(alloc: Global) -> Result<Cluster, NoMemory>
    ensures { IfOk result (λ cluster. cluster ≡ load_cluster) }
{
    Ok(Cluster {
        drop: 5,
        repeat: 7,
        rows: account_rows(alloc)?,
        ..builtin(alloc, 4)?
    })
}

/// The sessions with their calls.
fn busy_sessions(alloc: Global, rows: &[(Key, Value)], calls: u32) -> Result<SessionList, NoMemory>
    requires { rows.now ≡ map account_row account_numbers }
    ensures { IfOk result (λ sessions. sessions ≡ map (load_session calls) session_numbers) }
{
    let mut sessions = idle_sessions(alloc)?;
    deal(alloc, rows, calls, sessions.as_mut_slice())?;
    Ok(Listed::from_vec(sessions))
}

/// The sessions without calls.
#[tactic(auto, unfolding(crate::specs::Load::session_numbers))]
fn idle_sessions(alloc: Global) -> Result<Vec<Session>, NoMemory>
    ensures { IfOk result (λ sessions. sessions.items ≡ map (load_session 0) session_numbers) }
{
    let mut sessions = Vec::with_capacity(alloc, SESSIONS as usize)?;
    for number in 0..SESSIONS {
        sessions.push(Session {
            name: name_of(alloc, number)?,
            region: (number / SESSIONS_AT_A_REGION) as u8,
            calls: Bodies::new(alloc),
        })?;
    }
    Ok(sessions)
}

/// The name of a session.
fn name_of(alloc: Global, number: u32) -> Result<Name, NoMemory>
    requires { number < 64 }
    ensures { IfOk result (λ name. name ≡ session_name number) }
{
    let tens = b'0' + (number / 10) as u8;
    let ones = b'0' + (number % 10) as u8;
    Name::new(alloc, &[b's', tens, ones])
}

/// Deals the calls to the sessions, one to each in turn.
fn deal(
    alloc: Global,
    rows: &[(Key, Value)],
    calls: u32,
    sessions: &mut [Session],
) -> Result<(), NoMemory>
    requires rows { rows.now ≡ map account_row account_numbers }
    requires idle { sessions.old ≡ map (load_session 0) session_numbers }
    ensures { OnOk result (sessions.new ≡ map (load_session calls) session_numbers) }
{
    let mut draws = Draws::new();
    for number in 0..calls {
        let call = next_call(alloc, rows, number, &mut draws)?;
        give(sessions, number, call)?;
    }
    Ok(())
}

/// Gives call `number` to the session whose turn it is.
fn give(sessions: &mut [Session], number: u32, call: Ranked) -> Result<(), NoMemory>
    requires call { call ≡ load_call number }
    requires before { sessions.old ≡ map (load_session number) session_numbers }
    ensures { OnOk result (sessions.new ≡ map (load_session (number + 1)) session_numbers) }
{
    sessions[(number % SESSIONS) as usize].calls.push(call)?;
    Ok(())
}
