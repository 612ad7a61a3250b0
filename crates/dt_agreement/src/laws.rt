//! The laws of legal worlds. Each is the contract of a function that does nothing.
ghost use Rattle.std.specs.Prelude.{◌≡◌, ◌≢◌, ◌↔◌, ◌<◌, ◌≤◌, ℕ, true, List, [], ◌∷◌, ◌++◌, Some, slice_get};
ghost use Rattle.dt_lists.specs.Lists.{AllIn, EachThen, Has, IsFront};
ghost use Rattle.dt_access.specs.Clash.{Bytes, clash};
ghost use Rattle.dt_access.specs.Granules.{unit_of};
ghost use Rattle.dt_access.specs.declared.Access.{Access};
ghost use Rattle.dt_access.specs.declared.TxnId.{TxnId};
ghost use Rattle.dt_sched.specs.Views.{IsClass, IsClosed, Precedes};
ghost use Rattle.dt_events.specs.declared.Event.{Event};
ghost use Rattle.dt_events.specs.declared.Event.TheVariants.{Answer, Execute, Resolve};
ghost use Rattle.dt_table.specs.Table.{Moved, counter_of, moves_of};
ghost use Rattle.dt_txn.specs.Execution.{one};
ghost use Rattle.dt_txn.specs.Replica.{IsDrained};
ghost use Rattle.dt_txn.specs.Staleness.{IsStaleOutcome};
ghost use Rattle.dt_txn.specs.declared.Txn.{Txn};
ghost use Rattle.dt_txn.specs.declared.txn.Body.TheVariants.{Move};
ghost use Rattle.dt_serial.specs.Order.{Ordered, uses_in};
ghost use Rattle.dt_cluster.specs.declared.Cluster.{Cluster};
ghost use Rattle.dt_workload.specs.declared.Workload.{Workload};
ghost use Rattle.dt_session.specs.World.{logs_of, node_at, received_logs, txn_of, view_at};
ghost use Rattle.dt_session.specs.Step.{IsLegal, IsStale};
ghost use Rattle.dt_session.specs.Run.{order_of, serial_outcome, world_after};
ghost use Rattle.dt_session.specs.Agreement.{Agree};
ghost use Rattle.dt_session.specs.OneHome.{CallsHaveOneHome};
ghost use Rattle.dt_agreement.specs.Reports.{IsAccounted, IsAnswered};
ghost use Rattle.dt_agreement.specs.LegalRun.{IsLegalRun};
ghost use Rattle.dt_agreement.specs.Invariant.{Inv, IsExecutedAt, Rooted, history_of};
ghost use Rattle.dt_agreement.specs.OneHistory.{AreOneHistory, SeesMover};

/// Every legal world keeps the invariant, and in it every annotation is rooted in the one history of moves.
pub fn invariant_of_legal_worlds()
    ensures kept { (cluster : Cluster) (workload : Workload) (events : List Event) →
        IsLegalRun cluster workload events →
        Inv cluster workload (world_after cluster workload events) (order_of events) }
    ensures rooted { (cluster : Cluster) (workload : Workload) (events : List Event) →
        IsLegalRun cluster workload events →
        Rooted cluster (world_after cluster workload events) (order_of events) }
{}

/// In every legal world all regions agree on outcomes, tables, the order of an attempt that was answered before another was
/// submitted, the causes of failures, and, once drained of the same logs, on all rows.
pub fn agreement()
    ensures { (cluster : Cluster) (workload : Workload) (events : List Event) →
        IsLegalRun cluster workload events →
        Agree cluster workload events }
{}

/// Of two executed attempts that are not stale, and whose uses clash, one precedes the other in the whole logs, whatever
/// was moved between them. Where both use keys of one unit, and one that is not stale was annotated with fewer moves of that
/// unit, that one precedes the other.
pub fn across_moves()
    ensures ordered { (cluster : Cluster) (workload : Workload) (events : List Event) →
        IsLegalRun cluster workload events →
        (a b : TxnId) (x y : Txn) → a ≢ b → Has (order_of events) a → Has (order_of events) b →
        txn_of (world_after cluster workload events) a ≡ Some x → txn_of (world_after cluster workload events) b ≡ Some y →
        ¬ (IsStale (serial_outcome cluster workload events a)) → ¬ (IsStale (serial_outcome cluster workload events b)) →
        clash (uses_in x) (uses_in y) ≡ true → Ordered (Precedes (logs_of (world_after cluster workload events))) a b }
    ensures fewer { (cluster : Cluster) (workload : Workload) (events : List Event) →
        IsLegalRun cluster workload events →
        (a b : TxnId) (x y : Txn) → Has (order_of events) a → Has (order_of events) b →
        txn_of (world_after cluster workload events) a ≡ Some x → txn_of (world_after cluster workload events) b ≡ Some y →
        ¬ (IsStale (serial_outcome cluster workload events a)) →
        (k l : Access) → Has x.access k → Has y.access l → unit_of cluster.version k.key ≡ unit_of cluster.version l.key → k.counter < l.counter →
        Precedes (logs_of (world_after cluster workload events)) a b }
{}

/// The executions of all regions are one history, in the order of first executions anywhere, and what each region executed is a
/// part of it, with the outcomes and the table that the region keeps. The order of ids is "precedes" in the whole logs. So all
/// that is said of serial runs, their moves and their stale attempts, is said of legal events.
pub fn one_history()
    ensures { (cluster : Cluster) (workload : Workload) (events : List Event) →
        IsLegalRun cluster workload events →
        AreOneHistory cluster (world_after cluster workload events) (order_of events) }
{}

/// The moves of a key are those of its unit. Of those that all regions make together, the movers precede one another in the
/// order of the moves, and each is a move of the unit that was annotated with the number of moves before its own. Those that a
/// region has made are the first of them, made by what it executed. Where a region executes an attempt, the attempt sees at
/// each entry the mover after its annotated moves exactly where that one precedes it, whatever the region ran before.
pub fn moves_of_a_unit()
    ensures in_order { (cluster : Cluster) (workload : Workload) (events : List Event) →
        IsLegalRun cluster workload events → (key : Bytes) →
        EachThen (λ m n. Precedes (logs_of (world_after cluster workload events)) m.by n.by)
        (history_of cluster (world_after cluster workload events) (order_of events) key) }
    ensures numbered { (cluster : Cluster) (workload : Workload) (events : List Event) →
        IsLegalRun cluster workload events → (key : Bytes) (i : ℕ) (m : Moved) →
        slice_get (history_of cluster (world_after cluster workload events) (order_of events) key) i ≡ Some m →
        (x : Txn) × Has (order_of events) m.by × (txn_of (world_after cluster workload events) m.by ≡ Some x)
        × (x.body ≡ Move (unit_of cluster.version key) m.target)
        × AllIn (λ a. unit_of cluster.version a.key ≡ unit_of cluster.version key → a.counter ≡ i) x.access }
    ensures first { (cluster : Cluster) (workload : Workload) (events : List Event) →
        IsLegalRun cluster workload events → (region : ℕ) → region < cluster.regions → (key : Bytes) →
        IsFront (moves_of (node_at (world_after cluster workload events) region).here.table key)
        (history_of cluster (world_after cluster workload events) (order_of events) key) }
    ensures own { (cluster : Cluster) (workload : Workload) (events : List Event) →
        IsLegalRun cluster workload events → (region : ℕ) → region < cluster.regions → (key : Bytes) →
        AllIn (λ m. IsExecutedAt (world_after cluster workload events) region m.by)
        (moves_of (node_at (world_after cluster workload events) region).here.table key) }
    ensures next { (cluster : Cluster) (workload : Workload) (before : List Event) (region : ℕ) (id : TxnId) (after : List Event) →
        IsLegalRun cluster workload (before ++ Execute region id ∷ after) →
        (x : Txn) → txn_of (world_after cluster workload before) id ≡ Some x →
        AllIn (SeesMover cluster (world_after cluster workload (before ++ Execute region id ∷ after)) (order_of (before ++ Execute region id ∷ after))
        (node_at (world_after cluster workload before) region).here.table id) x.access }
{}

/// Where an execution is legal, the unit of each key that the attempt uses has been moved in that region at least as often as
/// the attempt was annotated with. If it is not stale there, they have been moved just as often.
pub fn reached_counters()
    ensures reached { (cluster : Cluster) (workload : Workload) (events : List Event) →
        IsLegalRun cluster workload events →
        (region : ℕ) (id : TxnId) (x : Txn) → IsLegal cluster workload (world_after cluster workload events) (Execute region id) →
        txn_of (world_after cluster workload events) id ≡ Some x →
        AllIn (λ a. a.counter ≤ counter_of (node_at (world_after cluster workload events) region).here.table a.key) x.access }
    ensures exact { (cluster : Cluster) (workload : Workload) (events : List Event) →
        IsLegalRun cluster workload events →
        (region : ℕ) (id : TxnId) (x : Txn) → IsLegal cluster workload (world_after cluster workload events) (Execute region id) →
        txn_of (world_after cluster workload events) id ≡ Some x →
        ¬ (IsStaleOutcome (one cluster.procs x (node_at (world_after cluster workload events) region).here.table).0) →
        AllIn (λ a. counter_of (node_at (world_after cluster workload events) region).here.table a.key ≡ a.counter) x.access }
{}

/// What a drained region has executed is just what is closed in its view.
pub fn drained_regions()
    ensures { (cluster : Cluster) (workload : Workload) (events : List Event) →
        IsLegalRun cluster workload events →
        (region : ℕ) → region < cluster.regions →
        IsDrained (received_logs (world_after cluster workload events) region) (node_at (world_after cluster workload events) region).here →
        (id : TxnId) → IsExecutedAt (world_after cluster workload events) region id ↔ IsClosed (view_at (world_after cluster workload events) region) id }
{}

/// Where no call is a move and each has one home at first, there is no deadlock: each class has one member, in the whole
/// logs and in what each region inserted of them, and no resolution is legal, nor stands in the list.
pub fn one_home_each_call()
    ensures single { (cluster : Cluster) (workload : Workload) (events : List Event) →
        IsLegalRun cluster workload events → CallsHaveOneHome cluster workload →
        (t : TxnId) (ids : List TxnId) → IsClass (logs_of (world_after cluster workload events)) t ids → ids ≡ t ∷ [] }
    ensures single_at { (cluster : Cluster) (workload : Workload) (events : List Event) →
        IsLegalRun cluster workload events → CallsHaveOneHome cluster workload →
        (region : ℕ) → region < cluster.regions →
        (t : TxnId) (ids : List TxnId) → IsClass (view_at (world_after cluster workload events) region) t ids → ids ≡ t ∷ [] }
    ensures illegal { (cluster : Cluster) (workload : Workload) (events : List Event) →
        IsLegalRun cluster workload events → CallsHaveOneHome cluster workload →
        (region : ℕ) (ids : List TxnId) → ¬ (IsLegal cluster workload (world_after cluster workload events) (Resolve region ids)) }
    ensures absent { (cluster : Cluster) (workload : Workload) (events : List Event) →
        IsLegalRun cluster workload events → CallsHaveOneHome cluster workload →
        (region : ℕ) (ids : List TxnId) → ¬ (Has events (Resolve region ids)) }
{}

/// Nothing is left out of a report: each executed attempt has its submission and its outcome in the serial order, and
/// each answer ends an attempt of its session's next call, which has both.
pub fn nothing_left_out()
    ensures executed { (cluster : Cluster) (workload : Workload) (events : List Event) → IsLegalRun cluster workload events →
        (id : TxnId) → Has (order_of events) id → IsAccounted cluster workload events id }
    ensures answered { (cluster : Cluster) (workload : Workload) (first : List Event) (region : ℕ) (name : Bytes) (last : List Event) →
        IsLegalRun cluster workload (first ++ Answer region name ∷ last) →
        IsAnswered cluster workload (first ++ Answer region name ∷ last) first region name }
{}
