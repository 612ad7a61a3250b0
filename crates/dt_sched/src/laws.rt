//! What holds of the dependency graph of every view. Each law is the contract of a function that does nothing.
ghost use Rattle.std.specs.Prelude.{◌≡◌, ◌≢◌, ◌⊎◌, ◌↔◌, ℕ, Bool, List, [], ◌∷◌, true};
ghost use Rattle.dt_lists.specs.Lists.{AllIn, Either, Has, IsWithin};
ghost use Rattle.dt_access.specs.Clash.{clash};
ghost use Rattle.dt_access.specs.declared.Part.{Part};
ghost use Rattle.dt_access.specs.declared.TxnId.{TxnId};
ghost use Rattle.dt_sched.specs.Decide.{HasNothingToDo, HasNothingToDoBy, IsDownward, IsExecutable, IsExecutableBy, IsResolvable};
ghost use Rattle.dt_sched.specs.Views.{Edge, HasOneHomeEach, IsClass, IsClosed, IsLonger, IsPresent, IsSooner, IsWellFormed, Precedes, PrecedesBy, Reaches, StandsAlike, View, log_at};
ghost use Rattle.dt_sched.specs.Ties.{BreaksTies, Says};

/// A closed transaction stands in every longer view as it stands in the shorter one: it is closed there too, with the
/// same edges into it, the same that reach it, the same class and the same that precede it. So two regions that both
/// have it closed agree on its class and on what precedes it, however much of the logs each of them has.
pub fn closed_views()
    ensures longer { (short long : View) → IsLonger short long → IsWellFormed long →
        (t : TxnId) → IsClosed short t → StandsAlike short long t }
    ensures same_class { (left right whole : View) → IsLonger left whole → IsLonger right whole → IsWellFormed whole →
        (t : TxnId) → IsClosed left t → IsClosed right t → (ids : List TxnId) → IsClass left t ids ↔ IsClass right t ids }
    ensures same_preceders { (left right whole : View) → IsLonger left whole → IsLonger right whole → IsWellFormed whole →
        (u t : TxnId) → IsClosed left t → IsClosed right t → Precedes left u t ↔ Precedes right u t }
{}

/// Rank and id break ties: they make a strict total order of transactions, which every view computes alike. Any other test
/// that breaks ties would serve as well: "precedes" by it is a strict order, which compares any two of which one reaches
/// the other, two regions agree by it on what precedes a transaction that both have closed, what is executable stays so
/// until it is done, and where nothing is left to do, what is done is just what is closed.
pub fn ties()
    ensures own { BreaksTies IsSooner }
    ensures transitive { (test : View → TxnId → TxnId → Bool) → BreaksTies (Says test) →
        (view : View) (u v t : TxnId) → PrecedesBy (Says test) view u v → PrecedesBy (Says test) view v t → PrecedesBy (Says test) view u t }
    ensures comparable { (test : View → TxnId → TxnId → Bool) → BreaksTies (Says test) →
        (view : View) (u t : TxnId) → u ≢ t → Reaches view u t ⊎ Reaches view t u →
        PrecedesBy (Says test) view u t ⊎ PrecedesBy (Says test) view t u }
    ensures same_preceders { (test : View → TxnId → TxnId → Bool) → BreaksTies (Says test) →
        (left right whole : View) → IsLonger left whole → IsLonger right whole → IsWellFormed whole →
        (u t : TxnId) → IsClosed left t → IsClosed right t → PrecedesBy (Says test) left u t ↔ PrecedesBy (Says test) right u t }
    ensures stays_executable { (test : View → TxnId → TxnId → Bool) → BreaksTies (Says test) →
        (short long : View) → IsLonger short long → IsWellFormed long →
        (resolved more : List (List TxnId)) (done later : List TxnId) → IsWithin resolved more → IsWithin done later →
        (t : TxnId) → IsExecutableBy (Says test) short resolved done t → ¬ (Has later t) → IsExecutableBy (Says test) long more later t }
    ensures drained { (test : View → TxnId → TxnId → Bool) → BreaksTies (Says test) →
        (view : View) (resolved : List (List TxnId)) (done : List TxnId) → AllIn (IsClosed view) done →
        HasNothingToDoBy (Says test) view resolved done → (t : TxnId) → Has done t ↔ IsClosed view t }
{}

/// In every view "precedes" is a strict order. It orders any two transactions of which one reaches the other, and any
/// two whose parts clash in one log: between these there is an edge.
pub fn order()
    ensures irreflexive { (view : View) (t : TxnId) → ¬ (Precedes view t t) }
    ensures transitive { (view : View) (u v t : TxnId) → Precedes view u v → Precedes view v t → Precedes view u t }
    ensures comparable { (view : View) (u t : TxnId) → u ≢ t → Reaches view u t ⊎ Reaches view t u →
        Precedes view u t ⊎ Precedes view t u }
    ensures edge_in_log { (view : View) (home : ℕ) (p q : Part) → Has (log_at view home) p → Has (log_at view home) q →
        p.id ≢ q.id → clash p.keys q.keys ≡ true → Edge view p.id q.id ⊎ Edge view q.id p.id }
    ensures comparable_in_log { (view : View) (home : ℕ) (p q : Part) → Has (log_at view home) p → Has (log_at view home) q →
        p.id ≢ q.id → clash p.keys q.keys ≡ true → Precedes view p.id q.id ⊎ Precedes view q.id p.id }
{}

/// What reaches what is decided in every view, and so is what is executable and what is resolvable. Each transaction
/// has a class, and one only.
pub fn reach_is_decided()
    ensures reach { (view : View) (u t : TxnId) → Either (Reaches view u t) }
    ensures executable { (view : View) (resolved : List (List TxnId)) (done : List TxnId) (t : TxnId) →
        Either (IsExecutable view resolved done t) }
    ensures resolvable { (view : View) (resolved : List (List TxnId)) (done ids : List TxnId) →
        Either (IsResolvable view resolved done ids) }
    ensures class { (view : View) (t : TxnId) → (ids : List TxnId) × IsClass view t ids }
    ensures one_class { (view : View) (t : TxnId) (ids others : List TxnId) → IsClass view t ids → IsClass view t others → ids ≡ others }
{}

/// While the view becomes longer, and more is resolved and done, an executable transaction stays executable until it
/// is done, and a resolvable group stays resolvable until it is resolved. For groups all that is done has to be closed.
pub fn stability()
    ensures executable { (short long : View) → IsLonger short long → IsWellFormed long →
        (resolved more : List (List TxnId)) (done later : List TxnId) → IsWithin resolved more → IsWithin done later →
        (t : TxnId) → IsExecutable short resolved done t → ¬ (Has later t) → IsExecutable long more later t }
    ensures resolvable { (short long : View) → IsLonger short long → IsWellFormed long →
        (resolved more : List (List TxnId)) (done later : List TxnId) → AllIn (IsClosed short) done → IsWithin done later →
        (ids : List TxnId) → IsResolvable short resolved done ids → ¬ (Has more ids) → IsResolvable long more later ids }
{}

/// Where each transaction has one home, there is no deadlock: each class has one member, and nothing is resolvable.
/// What has a part is closed, and what reaches another precedes it. Where all that precedes a done transaction is
/// done, a transaction is executable where it has a part, is not done, and all that has an edge into it is done.
pub fn one_home_each()
    ensures single { (view : View) → IsWellFormed view → HasOneHomeEach view →
        (t : TxnId) (ids : List TxnId) → IsClass view t ids → ids ≡ t ∷ [] }
    ensures unresolvable { (view : View) → IsWellFormed view → HasOneHomeEach view →
        (resolved : List (List TxnId)) (done ids : List TxnId) → ¬ (IsResolvable view resolved done ids) }
    ensures closed { (view : View) → IsWellFormed view → HasOneHomeEach view → (t : TxnId) → IsClosed view t ↔ IsPresent view t }
    ensures precedes { (view : View) → IsWellFormed view → HasOneHomeEach view →
        (u t : TxnId) → Precedes view u t ↔ (u ≢ t) × Reaches view u t }
    ensures executable { (view : View) → IsWellFormed view → HasOneHomeEach view →
        (resolved : List (List TxnId)) (done : List TxnId) → IsDownward view done →
        (t : TxnId) → IsExecutable view resolved done t ↔
        IsPresent view t × ¬ (Has done t) × ((u : TxnId) → Edge view u t → Has done u) }
{}

/// Where all that is done is closed, and nothing is executable and nothing is resolvable, what is done is just what is
/// closed. So two regions with equal logs that have nothing left to do have done the same.
pub fn drained()
    ensures { (view : View) (resolved : List (List TxnId)) (done : List TxnId) → AllIn (IsClosed view) done →
        HasNothingToDo view resolved done → (t : TxnId) → Has done t ↔ IsClosed view t }
{}
