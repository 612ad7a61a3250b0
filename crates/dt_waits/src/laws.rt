//! Why what is left in the graph, and the queues of it, are enough to decide from. Each law is the contract of a function that
//! does nothing.
ghost use Rattle.std.specs.Prelude.{◌≡◌, ◌<◌, ◌↔◌, ℕ, List, length};
ghost use Rattle.dt_lists.specs.Lists.{AllIn, Distinct, Has, IsWithin};
ghost use Rattle.dt_lists.specs.Chain.{Chain};
ghost use Rattle.dt_access.specs.declared.TxnId.{TxnId};
ghost use Rattle.dt_sched.specs.Decide.{IsExecutable, IsResolvable};
ghost use Rattle.dt_sched.specs.Views.{IsClosed, IsLonger, IsWellFormed, Reaches, View};
ghost use Rattle.dt_queue.specs.Queues.{Waiting};
ghost use Rattle.dt_waits.specs.LeftInGraph.{IsFree, IsLeft, IsOrderly, IsOut, LeftEdge};
ghost use Rattle.dt_waits.specs.Waits.{AreUses, HoldsUp, degree, id_at};

/// What is left is enough: a chain between two that are left passes only such, what is out of the graph stays out in every
/// longer view, and each executable id and each member of a resolvable class is left.
pub fn left_is_enough()
    ensures left_chain { (view : View) (done : List TxnId) (u t : TxnId) → IsLeft view done u → Reaches view u t → Chain (LeftEdge view done) u t }
    ensures out_stays { (short long : View) → IsLonger short long → IsWellFormed long → (done later : List TxnId) (t : TxnId) →
        AllIn (IsClosed short) done → IsWithin done later → IsOut short done t → IsOut long later t }
    ensures executable_left { (view : View) (resolved : List (List TxnId)) (done : List TxnId) (t : TxnId) →
        IsExecutable view resolved done t → IsLeft view done t }
    ensures resolvable_left { (view : View) (resolved : List (List TxnId)) (done ids : List TxnId) → IsOrderly view resolved done →
        IsResolvable view resolved done ids → (t : TxnId) → Has ids t → IsLeft view done t }
{}

/// The nearest entries are enough: from what is left, reach by neighbours alone is reach by all edges, and a vertex of degree 0
/// is one that nothing else that is left reaches.
pub fn neighbours_are_enough()
    ensures reach_by_queues { (view : View) (done ids : List TxnId) (waiting : List Waiting) → IsWellFormed view →
        AreUses view done ids waiting → (u t : TxnId) → IsLeft view done u → (Chain (HoldsUp ids waiting) u t ↔ Reaches view u t) }
    ensures free_by_degree { (view : View) (done ids : List TxnId) (waiting : List Waiting) → IsWellFormed view →
        AreUses view done ids waiting → Distinct ids → (v : ℕ) → v < length ids → ((degree waiting v ≡ 0) ↔ IsFree view done (id_at ids v)) }
{}
