//! What holds of serial runs in different orders. Each law is the contract of a function that does nothing. The orders
//! are shown by a test here; the lemmas of `proofs/` have the same for any order.
ghost use Rattle.std.specs.Prelude.{◌≡◌, ◌≢◌, ◌⊎◌, ◌↔◌, ◌≤◌, ℕ, Bool, true, List, [], ◌∷◌, ◌++◌, Some, filter, slice_get};
ghost use Rattle.dt_lists.specs.Lists.{AllIn, AnyIn, EachThen, Has, IsFront};
ghost use Rattle.dt_access.specs.Ids.{is_among};
ghost use Rattle.dt_access.specs.Clash.{Bytes, clash};
ghost use Rattle.dt_access.specs.Granules.{unit_of};
ghost use Rattle.dt_access.specs.declared.TxnId.{TxnId};
ghost use Rattle.dt_table.specs.Table.{Moved, Table, counter_of, moves_of, next_mover};
ghost use Rattle.dt_proc.specs.Tree.{ProcTree};
ghost use Rattle.dt_txn.specs.Execution.{one};
ghost use Rattle.dt_txn.specs.Serial.{outcomes, table_after};
ghost use Rattle.dt_txn.specs.Staleness.{IsStaleOutcome};
ghost use Rattle.dt_txn.specs.declared.Outcome.{Outcome};
ghost use Rattle.dt_txn.specs.declared.Txn.{Txn};
ghost use Rattle.dt_txn.specs.declared.txn.Body.TheVariants.{Move};
ghost use Rattle.dt_serial.specs.Evidence.{HasReason};
ghost use Rattle.dt_serial.specs.Order.{ByTest, IsHistory, IsPart, Ordered, txn_ids, uses_in};

/// Each transaction of a part of a history has the outcome that it has in the history, and there it has one only.
pub fn one_outcome()
    ensures part { (procs : List ProcTree) (precedes : TxnId → TxnId → Bool) (start : Table) (history txns : List Txn) →
        IsPart procs (ByTest precedes) start history txns → AllIn (λ r. Has (outcomes procs history start) r) (outcomes procs txns start) }
    ensures single { (procs : List ProcTree) (precedes : TxnId → TxnId → Bool) (start : Table) (history : List Txn) →
        IsHistory procs (ByTest precedes) start history → (i : TxnId) (o p : Outcome) →
        Has (outcomes procs history start) (i, o) → Has (outcomes procs history start) (i, p) → o ≡ p }
{}

/// The table after a part of a history depends on its members alone: it is that of the history, restricted to them.
pub fn one_table()
    ensures members { (procs : List ProcTree) (precedes : TxnId → TxnId → Bool) (start : Table) (history left right : List Txn) →
        IsPart procs (ByTest precedes) start history left → IsPart procs (ByTest precedes) start history right →
        ((i : TxnId) → Has (txn_ids left) i ↔ Has (txn_ids right) i) → table_after procs left start ≡ table_after procs right start }
    ensures restricted { (procs : List ProcTree) (precedes : TxnId → TxnId → Bool) (start : Table) (history txns : List Txn) →
        IsPart procs (ByTest precedes) start history txns →
        table_after procs txns start ≡ table_after procs (filter (λ x. is_among (txn_ids txns) x.id) history) start }
{}

/// The moves of a key are those of its unit. Their movers precede one another in the order of the moves, and each of them
/// is a move of the unit that was annotated with the number of moves before its own. After a part of the history the moves
/// of a unit are the first ones of the history, made by members of the part. A transaction of a part sees at a key that it
/// uses the mover that follows its annotated moves in the whole history, if that one precedes it, and else none: so whether
/// it is stale, and by whom, depends on the history and the order alone.
pub fn moves_of_a_unit()
    ensures in_order { (procs : List ProcTree) (precedes : TxnId → TxnId → Bool) (start : Table) (history : List Txn) →
        IsHistory procs (ByTest precedes) start history → (key : Bytes) →
        EachThen (λ m n. ByTest precedes m.by n.by) (moves_of (table_after procs history start) key) }
    ensures numbered { (procs : List ProcTree) (precedes : TxnId → TxnId → Bool) (start : Table) (history : List Txn) →
        IsHistory procs (ByTest precedes) start history → (key : Bytes) (i : ℕ) (m : Moved) →
        slice_get (moves_of (table_after procs history start) key) i ≡ Some m →
        AnyIn (λ x. (x.id ≡ m.by) × (x.body ≡ Move (unit_of start.version key) m.target)
        × AllIn (λ a. unit_of start.version a.key ≡ unit_of start.version key → a.counter ≡ i) x.access) history }
    ensures first { (procs : List ProcTree) (precedes : TxnId → TxnId → Bool) (start : Table) (history txns : List Txn) →
        IsPart procs (ByTest precedes) start history txns → (key : Bytes) →
        IsFront (moves_of (table_after procs txns start) key) (moves_of (table_after procs history start) key) }
    ensures own { (procs : List ProcTree) (precedes : TxnId → TxnId → Bool) (start : Table) (history txns : List Txn) →
        IsPart procs (ByTest precedes) start history txns → (key : Bytes) →
        AllIn (λ m. Has (txn_ids txns) m.by) (moves_of (table_after procs txns start) key) }
    ensures next { (procs : List ProcTree) (precedes : TxnId → TxnId → Bool) (start : Table) (history front : List Txn) (x : Txn) (rest : List Txn) →
        IsPart procs (ByTest precedes) start history (front ++ x ∷ rest) → AllIn (λ a. (by : TxnId) →
        (next_mover (table_after procs front start) a.key a.counter ≡ Some by) ↔
        ((next_mover (table_after procs history start) a.key a.counter ≡ Some by) × ByTest precedes by x.id)) x.access }
{}

/// When a transaction of a part of a history runs, the unit of no key that it uses has been moved less often than it was
/// annotated with. If it is not stale, they have been moved just as often.
pub fn reached_counters()
    ensures reached { (procs : List ProcTree) (precedes : TxnId → TxnId → Bool) (start : Table) (history front : List Txn) (x : Txn) (rest : List Txn) →
        IsPart procs (ByTest precedes) start history (front ++ x ∷ rest) →
        AllIn (λ a. a.counter ≤ counter_of (table_after procs front start) a.key) x.access }
    ensures exact { (procs : List ProcTree) (precedes : TxnId → TxnId → Bool) (start : Table) (history front : List Txn) (x : Txn) (rest : List Txn) →
        IsPart procs (ByTest precedes) start history (front ++ x ∷ rest) → ¬ (IsStaleOutcome (one procs x (table_after procs front start)).0) →
        AllIn (λ a. counter_of (table_after procs front start) a.key ≡ a.counter) x.access }
{}

/// Of two transactions of a history that are not stale, and whose uses clash, one precedes the other, whatever was
/// moved between them. One that is not stale is itself the mover that follows the moves it was annotated with, or it
/// precedes that mover.
pub fn across_moves()
    ensures ordered { (procs : List ProcTree) (precedes : TxnId → TxnId → Bool) (start : Table) (history : List Txn) → IsHistory procs (ByTest precedes) start history →
        (x y : Txn) (o p : Outcome) → Has history x → Has history y → x.id ≢ y.id →
        Has (outcomes procs history start) (x.id, o) → Has (outcomes procs history start) (y.id, p) → ¬ (IsStaleOutcome o) → ¬ (IsStaleOutcome p) →
        clash (uses_in x) (uses_in y) ≡ true → Ordered (ByTest precedes) x.id y.id }
    ensures before_next { (procs : List ProcTree) (precedes : TxnId → TxnId → Bool) (start : Table) (history : List Txn) → IsHistory procs (ByTest precedes) start history →
        (x : Txn) (o : Outcome) → Has history x → Has (outcomes procs history start) (x.id, o) → ¬ (IsStaleOutcome o) →
        AllIn (λ a. (by : TxnId) → next_mover (table_after procs history start) a.key a.counter ≡ Some by →
        (x.id ≡ by) ⊎ ByTest precedes x.id by) x.access }
{}

/// In a serial run from a table without moves, an outcome other than given values has its reason: the procedure aborts
/// on the table that it saw, or a transaction before it made the move that follows those that it was annotated with.
pub fn reasons()
    ensures { (procs : List ProcTree) (start : Table) (txns : List Txn) → ((key : Bytes) → moves_of start key ≡ []) →
        AllIn (λ r. HasReason procs txns start r) (outcomes procs txns start) }
{}
