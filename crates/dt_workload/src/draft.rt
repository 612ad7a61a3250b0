ghost use Rattle.std.specs.Prelude.{◌≡◌, ◌↔◌, ◌<◌, ◌^◌, [], length, slice_get, IfOk, IfErr, IsTrue, OnOk};
ghost use Rattle.dt_lists.specs.Lists.{Has};
ghost use Rattle.dt_text.specs.Texts.{IsName};
ghost use Rattle.dt_eval.specs.Calls.{CallFits};
ghost use Rattle.dt_eval.specs.Meaning.{Fits, HasKeys};
ghost use Rattle.dt_cluster.specs.Valid.{IsValidCluster};
ghost use Rattle.dt_workload.specs.File.{IsCallFault, IsLineFault, IsMoveFault, IsSessionFault, proc_name, proc_named};
ghost use Rattle.dt_workload.specs.Valid.{calls_in, session_names, session_count_at};
ghost use Rattle.dt_workload.specs.Lines as lines;
ghost use Rattle.dt_workload.specs.ReaderInner.{CanBegin, FormGoesOn, HasCount, IsNoBeginning, IsNoCall, IsNoKey, IsWithWanted, LineGoesOn, Refuses};
ghost use Rattle.dt_workload.specs.declared.error.WorkloadCause.TheVariants as cause;

use crate::error::{Refusal, WorkloadCause};
use crate::form::{Form, read_form};
use crate::workload::{Bodies, Ranked, Session, SessionList, Wanted, Workload};
use dt_access::is_unit;
use dt_cluster::Cluster;
use dt_eval::{Args, KeysError, fits, keys_of};
use dt_proc::Proc;
use dt_text::{Key, Name, Value};
use std::alloc::Global;

/// The most sessions at one region.
const MOST_SESSIONS: usize = 64;

/// The most calls and moves of a file.
const MOST_CALLS: u32 = 20000;

/// A workload as far as its file is read.
#[derive(Drop)]
pub(crate) struct Draft {
    pub(crate) sessions: Vec<Session>,
    /// How many calls and moves there are in all sessions.
    pub(crate) made: u32,
}

impl Draft {
    /// No sessions.
    pub(crate) fn new(alloc: Global) -> Self
        ensures empty { result.sessions.items ≡ [] }
        ensures counted { HasCount result }
    {
        Draft {
            sessions: Vec::new(alloc),
            made: 0,
        }
    }

    /// Goes on with a line.
    pub(crate) fn add_line(
        &mut self,
        alloc: Global,
        cluster: &Cluster,
        line: &[u8],
    ) -> Result<(), Refusal>
        requires short { length line.now < 2 ^ 32 }
        requires valid { IsValidCluster cluster.now }
        requires counted { HasCount self.old }
        ensures ok { OnOk result (LineGoesOn cluster.now self.old.sessions.items line.now self.new.sessions.items) }
        ensures counted { OnOk result (HasCount self.new) }
        ensures fault { IfErr result (Refuses (IsLineFault cluster.now self.old.sessions.items line.now)) }
    {
        match read_form(alloc, line)? {
            Some(Form::Session(word, region)) => self.begin(alloc, cluster, word, region),
            Some(Form::Call(rank, word, args)) => self.call(alloc, cluster, rank, word, args),
            Some(Form::Move(rank, word, region)) => self.move_key(
                alloc, cluster, rank, word, region,
            ),
            None => Err(Refusal::Cause(WorkloadCause::Form)),
        }
    }

    /// Begins a session.
    #[tactic(auto, using(crate::proofs::Forms::no_beginning))]
    fn begin(
        &mut self,
        alloc: Global,
        cluster: &Cluster,
        word: &[u8],
        region: u32,
    ) -> Result<(), Refusal>
        requires valid { IsValidCluster cluster.now }
        requires counted { HasCount self.old }
        ensures ok { OnOk result (FormGoesOn cluster.now self.old.sessions.items (lines.session_line word.now region) self.new.sessions.items) }
        ensures counted { OnOk result (HasCount self.new) }
        ensures fault { IfErr result (Refuses (IsSessionFault cluster.now self.old.sessions.items word.now region)) }
    {
        let name = session_name(alloc, word)?;
        may_begin(cluster, self.sessions.as_slice(), &name, region)?;
        self.sessions.push(Session {
            name,
            region: region as u8,
            calls: Bodies::new(alloc),
        })?;
        Ok(())
    }

    /// Adds a call to the last session.
    fn call(
        &mut self,
        alloc: Global,
        cluster: &Cluster,
        rank: u8,
        word: &[u8],
        args: Args,
    ) -> Result<(), Refusal>
        requires rank { rank < 10 }
        requires valid { IsValidCluster cluster.now }
        requires counted { HasCount self.old }
        ensures ok { OnOk result (FormGoesOn cluster.now self.old.sessions.items (lines.call_line rank word.now args) self.new.sessions.items) }
        ensures counted { OnOk result (HasCount self.new) }
        ensures fault { IfErr result (Refuses (IsCallFault cluster.now self.old.sessions.items word.now args)) }
    {
        if self.sessions.is_empty() {
            return Err(Refusal::Cause(WorkloadCause::NoSession));
        }
        let number = call_number(alloc, cluster, word, &args)?;
        self.want(rank, Wanted::Call(number, args))
    }

    /// Adds a move to the last session.
    fn move_key(
        &mut self,
        alloc: Global,
        cluster: &Cluster,
        rank: u8,
        word: &[u8],
        region: u32,
    ) -> Result<(), Refusal>
        requires rank { rank < 10 }
        requires counted { HasCount self.old }
        ensures ok { OnOk result (FormGoesOn cluster.now self.old.sessions.items (lines.move_line rank word.now region) self.new.sessions.items) }
        ensures counted { OnOk result (HasCount self.new) }
        ensures fault { IfErr result (Refuses (IsMoveFault cluster.now self.old.sessions.items word.now region)) }
    {
        if self.sessions.is_empty() {
            return Err(Refusal::Cause(WorkloadCause::NoSession));
        }
        if !Key::is_key(word) {
            return Err(Refusal::Cause(WorkloadCause::Key));
        }
        let key = Key::new(alloc, word)?;
        if !is_unit(cluster.version, &key) {
            return Err(Refusal::Cause(WorkloadCause::Key));
        }
        if region >= u32::from(cluster.regions) {
            return Err(Refusal::Cause(WorkloadCause::Region));
        }
        self.want(rank, Wanted::Move(key, region as u8))
    }

    /// The last session wants one thing more.
    fn want(&mut self, rank: u8, wanted: Wanted) -> Result<(), Refusal>
        requires some { ¬ (self.old.sessions.items ≡ []) }
        requires counted { HasCount self.old }
        ensures ok { OnOk result (IsWithWanted self.old.sessions.items (record { rank = rank; wanted = wanted }) self.new.sessions.items × (calls_in self.old.sessions.items < 20000)) }
        ensures counted { OnOk result (HasCount self.new) }
        ensures fault { IfErr result (Refuses (λ why. (why ≡ cause.TooMany) × ¬ (calls_in self.old.sessions.items < 20000))) }
    {
        if self.made >= MOST_CALLS {
            return Err(Refusal::Cause(WorkloadCause::TooMany));
        }
        let Some(mut session) = self.sessions.pop() else {
            unreachable!();
        };
        session.calls.push(Ranked { rank, wanted })?;
        self.sessions.push(session)?;
        self.made += 1;
        Ok(())
    }

    /// The workload of all lines.
    pub(crate) fn into_workload(self) -> Workload
        ensures { result.sessions ≡ self.sessions.items }
    {
        let Draft { sessions, .. } = self;
        Workload {
            sessions: SessionList::from_vec(sessions),
        }
    }
}

/// The name of a session.
fn session_name(alloc: Global, word: &[u8]) -> Result<Name, Refusal>
    ensures ok { IfOk result (λ name. (name ≡ word.now) × IsName name) }
    ensures fault { IfErr result (Refuses (λ why. (why ≡ cause.Name) × ¬ (IsName word.now))) }
{
    if !Name::is_name(word) {
        return Err(Refusal::Cause(WorkloadCause::Name));
    }
    Ok(Name::new(alloc, word)?)
}

/// Refuses a session that cannot begin: of a name that is used, at no region, or at one that is full.
fn may_begin(
    cluster: &Cluster,
    sessions: &[Session],
    name: &Name,
    region: u32,
) -> Result<(), Refusal>
    ensures ok { OnOk result (CanBegin cluster.now sessions.now name.now region) }
    ensures fault { IfErr result (Refuses (IsNoBeginning cluster.now sessions.now name.now region)) }
{
    if has_name(sessions, name) {
        return Err(Refusal::Cause(WorkloadCause::Twice));
    }
    if region >= u32::from(cluster.regions) {
        return Err(Refusal::Cause(WorkloadCause::Region));
    }
    if count_at(sessions, region) >= MOST_SESSIONS {
        return Err(Refusal::Cause(WorkloadCause::TooMany));
    }
    Ok(())
}

/// Whether some session has the name.
fn has_name(sessions: &[Session], name: &Name) -> bool
    ensures { IsTrue result ↔ Has (session_names sessions.now) name.now }
{
    sessions.iter().any(|session| session.name == *name)
}

/// How many of the sessions are at a region.
fn count_at(sessions: &[Session], region: u32) -> usize
    ensures { result ≡ session_count_at region sessions.now }
{
    sessions
        .iter()
        .filter(|session| u32::from(session.region) == region)
        .count()
}

/// The number of the procedure of this name, which the arguments fit and by which they give keys.
fn call_number(alloc: Global, cluster: &Cluster, word: &[u8], args: &Args) -> Result<u32, Refusal>
    requires { IsValidCluster cluster.now }
    ensures ok { IfOk result (λ number. (proc_name (slice_get cluster.now.procs number) ≡ word.now) × CallFits cluster.now.procs number args.now
        × (proc_named cluster.now word.now ≡ slice_get cluster.now.procs number)) }
    ensures fault { IfErr result (Refuses (IsNoCall (proc_named cluster.now word.now) args.now)) }
{
    let Some(number) = cluster.procs.find(word) else {
        return Err(Refusal::Cause(WorkloadCause::Proc));
    };
    let Some(body) = cluster.procs.get(number) else {
        unreachable!();
    };
    if !fits(body, args.as_slice()) {
        return Err(Refusal::Cause(WorkloadCause::Args));
    }
    gives_keys(alloc, body, args.as_slice())?;
    Ok(number)
}

/// Refuses arguments that give no keys.
fn gives_keys(alloc: Global, body: &Proc, args: &[Value]) -> Result<(), Refusal>
    requires { Fits body.now args.now }
    ensures ok { OnOk result (HasKeys body.now args.now) }
    ensures fault { IfErr result (Refuses (IsNoKey body.now args.now)) }
{
    match keys_of(alloc, body, args) {
        Ok(_keys) => {}
        Err(KeysError::BadKey(_)) => return Err(Refusal::Cause(WorkloadCause::Key)),
        Err(KeysError::NoMemory) => return Err(Refusal::NoMemory),
    }
    Ok(())
}
