//! What holds of each execution. Each law is the contract of a function that does nothing.
ghost use Rattle.std.specs.Prelude.{◌≡◌, ◌↔◌, List, Some};
ghost use Rattle.dt_lists.specs.Lists.{AnyIn};
ghost use Rattle.dt_access.specs.Granules.{unit_of};
ghost use Rattle.dt_access.specs.declared.TxnId.{TxnId};
ghost use Rattle.dt_access.specs.declared.Access.{Access};
ghost use Rattle.dt_proc.specs.Tree.{ProcTree};
ghost use Rattle.dt_table.specs.Table.{Table, next_mover};
ghost use Rattle.dt_txn.specs.declared.txn.Txn.{Txn};
ghost use Rattle.dt_txn.specs.declared.outcome.Outcome.TheVariants.{Stale};
ghost use Rattle.dt_txn.specs.Execution.{no_effect, one, reads_of, result_of, see};
ghost use Rattle.dt_txn.specs.Staleness.{IsFirstMoved, IsMovedSince, IsStaleOutcome};

/// A transaction is stale on a table exactly where the table has more moves of the unit of some key that it uses than it was
/// annotated with. Then it changes nothing, and its outcome names the unit of the first such key in the order of its access
/// list, the number that it was annotated with, and who made the move that follows that many. Else it has the result of its
/// body.
pub fn stale_outcomes()
    ensures exactly { (procs : List ProcTree) (txn : Txn) (t : Table) →
        IsStaleOutcome (one procs txn t).0 ↔ AnyIn (IsMovedSince t) txn.access }
    ensures first { (procs : List ProcTree) (txn : Txn) (t : Table) (entry : Access) → IsFirstMoved t txn.access entry →
        (by : TxnId) × (next_mover t entry.key entry.counter ≡ Some by)
        × (one procs txn t ≡ (Stale (unit_of t.version entry.key) entry.counter by, no_effect)) }
    ensures otherwise { (procs : List ProcTree) (txn : Txn) (t : Table) → ¬ (AnyIn (IsMovedSince t) txn.access) →
        one procs txn t ≡ result_of procs txn.id txn.body (reads_of txn.access (see txn t)) }
{}
