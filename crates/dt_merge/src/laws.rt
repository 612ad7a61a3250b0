//! The laws of many regions. Each is the contract of a function that does nothing.
ghost use Rattle.std.specs.Prelude.{◌≡◌, ◌≢◌, ◌⊎◌, ◌<◌, ◌≤◌, ◌+◌, ℕ, List, [], ◌∷◌, Some, length, set, sum_by};
ghost use Rattle.dt_events.specs.Events.{region_of};
ghost use Rattle.dt_events.specs.Stamps.{events_of};
ghost use Rattle.dt_events.specs.declared.Event.{Event};
ghost use Rattle.dt_events.specs.declared.Stamped.{Stamped};
ghost use Rattle.dt_cluster.specs.Valid.{IsValidCluster};
ghost use Rattle.dt_cluster.specs.declared.Cluster.{Cluster};
ghost use Rattle.dt_workload.specs.Valid.{IsValidWorkload};
ghost use Rattle.dt_workload.specs.declared.Workload.{Workload};
ghost use Rattle.dt_session.specs.World.{World, node_at, opening_world};
ghost use Rattle.dt_session.specs.Step.{IsLegal, next};
ghost use Rattle.dt_session.specs.Run.{AreLegal, AreLegalFrom, world_after, world_from};
ghost use Rattle.dt_session.specs.Eager.{AllChange};
ghost use Rattle.dt_merge.specs.OwnPart.{HasGrown, HaveGrown, IsSupplied, own, source_of};
ghost use Rattle.dt_merge.specs.Weight.{most_events, weight, world_weight};
ghost use Rattle.dt_merge.specs.WorldRegions.{HasInvariant, world_regions};
ghost use Rattle.dt_merge.specs.Regional.{AreLegalIn, AreSideBySide, AreTurns, IsRescheduling, Rescheduled, after_all};
ghost use Rattle.dt_merge.specs.Merge.{AreKept, ComesBefore, IsChronicle, IsMerge, kept_at, those_at};

/// An event leaves what is the own of other regions.
pub fn frame()
    ensures { (cluster : Cluster) (workload : Workload) (w : World) (event : Event) (region : ℕ) →
        region_of event ≢ region →
        own workload (next cluster workload w event) region ≡ own workload w region }
{}

/// The law of locality. What regions submit and place stays. A legal event finds what it takes, and that is there wherever
/// its source has come at least as far. Take two worlds on the way to a third which have the same own part of a region: an event
/// of the region that is legal in the one is legal in the other, if what it takes from another region is there, and does the
/// same to that part, whatever other regions did. Two worlds that have the same own part of each region are the same.
pub fn locality()
    ensures grows { (cluster : Cluster) (workload : Workload) (w : World) (event : Event) →
        HasInvariant cluster workload w → IsLegal cluster workload w event → HaveGrown w (next cluster workload w event) }
    ensures supplied { (cluster : Cluster) (workload : Workload) (w : World) (event : Event) →
        IsLegal cluster workload w event → IsSupplied w event }
    ensures lasting { (cluster : Cluster) (workload : Workload) (u w v : World) (event : Event) (source : ℕ) →
        IsLegal cluster workload u event → HasInvariant cluster workload w → HasInvariant cluster workload v →
        source_of event ≡ Some source → HasGrown (node_at w source) (node_at v source) → IsSupplied w event → IsSupplied v event }
    ensures local { (cluster : Cluster) (workload : Workload) (w v z : World) (event : Event) →
        HasInvariant cluster workload w → HasInvariant cluster workload v → HasInvariant cluster workload z → HaveGrown w z → HaveGrown v z →
        own workload w (region_of event) ≡ own workload v (region_of event) → IsLegal cluster workload w event →
        ((source : ℕ) → source_of event ≡ Some source → IsSupplied v event) →
        IsLegal cluster workload v event
        × (own workload (next cluster workload w event) (region_of event) ≡ own workload (next cluster workload v event) (region_of event)) }
    ensures whole { (cluster : Cluster) (workload : Workload) (w v : World) →
        HasInvariant cluster workload w → HasInvariant cluster workload v →
        ((region : ℕ) → own workload w region ≡ own workload v region) → w ≡ v }
{}

/// Two events of different regions, both legal in one world, so that neither feeds the other, may happen in either order, and
/// lead to the same world.
pub fn commuting()
    ensures { (cluster : Cluster) (workload : Workload) → IsValidCluster cluster → IsValidWorkload cluster workload →
        (w : World) (d e : Event) → HasInvariant cluster workload w →
        IsLegal cluster workload w d → IsLegal cluster workload w e → region_of d ≢ region_of e →
        IsLegal cluster workload (next cluster workload w d) e × IsLegal cluster workload (next cluster workload w e) d
        × (next cluster workload (next cluster workload w d) e ≡ next cluster workload (next cluster workload w e) d) }
{}

/// Turns that regions make side by side, each as if no other region did anything, are legal one after another; each region
/// ends as after its own turn, and each event that changed something does so.
pub fn side_by_side()
    ensures { (cluster : Cluster) (workload : Workload) → IsValidCluster cluster → IsValidWorkload cluster workload →
        (w : World) → HasInvariant cluster workload w → (turns : ℕ → List Event) (regions : ℕ) →
        AreTurns (world_regions cluster workload) w turns regions → AreSideBySide (world_regions cluster workload) w turns regions }
{}

/// A legal event leaves the world as it is, or raises the weight of its region. So a list of legal events that all change
/// something is no longer than the weight by which they raise that of the world, and the weight of a world is bounded: by
/// 24,640,000 for the greatest cluster with the greatest workload, so 32 bits count them.
pub fn weights()
    ensures rises { (cluster : Cluster) (workload : Workload) → IsValidCluster cluster → (w : World) (event : Event) →
        HasInvariant cluster workload w → IsLegal cluster workload w event → (next cluster workload w event ≡ w)
        ⊎ (weight (region_of event) (own workload w (region_of event)) < weight (region_of event) (own workload (next cluster workload w event) (region_of event))) }
    ensures weighed { (cluster : Cluster) (workload : Workload) → IsValidCluster cluster → IsValidWorkload cluster workload →
        (w : World) (events : List Event) → HasInvariant cluster workload w → AreLegalFrom cluster workload w events →
        AllChange cluster workload w events →
        length events + world_weight cluster.regions workload w ≤ world_weight cluster.regions workload (world_from cluster workload w events) }
    ensures bounded { (cluster : Cluster) (workload : Workload) → IsValidCluster cluster → (w : World) →
        HasInvariant cluster workload w → world_weight cluster.regions workload w ≤ most_events cluster workload }
    ensures few { (cluster : Cluster) (workload : Workload) → IsValidCluster cluster → IsValidWorkload cluster workload →
        (w : World) (events : List Event) → HasInvariant cluster workload w → AreLegalFrom cluster workload w events →
        AllChange cluster workload w events → length events ≤ most_events cluster workload }
    ensures number { (cluster : Cluster) (workload : Workload) → IsValidCluster cluster → IsValidWorkload cluster workload →
        most_events cluster workload ≤ 24640000 }
{}

/// A list of legal events may be put into another order which leaves the order of each region, and in which each event finds
/// what it takes from another region. The other list may also leave out the last events of some regions. Worlds and legal
/// events are those of lists of events.
pub fn rescheduling()
    ensures law { (cluster : Cluster) (workload : Workload) → IsValidCluster cluster → IsValidWorkload cluster workload →
        (w : World) → HasInvariant cluster workload w → (events others : List Event) → AreLegalFrom cluster workload w events →
        IsRescheduling (world_regions cluster workload) w events others → Rescheduled (world_regions cluster workload) w events others }
    ensures worlds { (cluster : Cluster) (workload : Workload) (w : World) (events : List Event) →
        after_all (world_regions cluster workload) w events ≡ world_from cluster workload w events }
    ensures legal { (cluster : Cluster) (workload : Workload) (w : World) (events : List Event) →
        AreLegalIn (world_regions cluster workload) w events → AreLegalFrom cluster workload w events }
{}

/// What regions keep has a merge, and one only, which has of each region what it keeps, in its order; so a sum over it is the sum
/// over what each keeps. The merge of nothing is empty. Else it begins with a head that comes before the heads of all others, and
/// goes on with the merge of what is left.
pub fn merges()
    ensures some { (kept : List (List Stamped)) → AreKept kept → (merged : List Stamped) × IsMerge kept merged }
    ensures one { (kept : List (List Stamped)) (a b : List Stamped) → IsMerge kept a → IsMerge kept b → a ≡ b }
    ensures own { (kept : List (List Stamped)) → AreKept kept → (merged : List Stamped) → IsMerge kept merged →
        (region : ℕ) → those_at region merged ≡ kept_at kept region }
    ensures sums { (kept : List (List Stamped)) → AreKept kept → (merged : List Stamped) → IsMerge kept merged →
        (worth : Stamped → ℕ) → sum_by worth merged ≡ sum_by (sum_by worth) kept }
    ensures none { (kept : List (List Stamped)) → ((region : ℕ) → kept_at kept region ≡ []) → IsMerge kept [] }
    ensures begins { (kept : List (List Stamped)) → AreKept kept →
        (region : ℕ) (x : Stamped) (rest : List Stamped) → region < length kept → kept_at kept region ≡ x ∷ rest →
        ((other : ℕ) (y : Stamped) (ys : List Stamped) → other ≢ region → kept_at kept other ≡ y ∷ ys → ComesBefore x y) →
        (merged : List Stamped) → IsMerge (set kept region rest) merged → IsMerge kept (x ∷ merged) }
{}

/// The merge of what regions keep is a legal list, of which each event changes something, and which leads to the world in which
/// the regions are: that of the chronicle, the list in the order in which the events were made.
pub fn merge_of_a_chronicle()
    ensures kept { (cluster : Cluster) (workload : Workload) (all : List Stamped) (kept : List (List Stamped)) →
        IsChronicle cluster workload all kept → AreKept kept }
    ensures legal { (cluster : Cluster) (workload : Workload) → IsValidCluster cluster → IsValidWorkload cluster workload →
        (all : List Stamped) (kept : List (List Stamped)) (merged : List Stamped) →
        IsChronicle cluster workload all kept → IsMerge kept merged → AreLegal cluster workload (events_of merged) }
    ensures changing { (cluster : Cluster) (workload : Workload) → IsValidCluster cluster → IsValidWorkload cluster workload →
        (all : List Stamped) (kept : List (List Stamped)) (merged : List Stamped) →
        IsChronicle cluster workload all kept → IsMerge kept merged →
        AllChange cluster workload (opening_world cluster workload) (events_of merged) }
    ensures world { (cluster : Cluster) (workload : Workload) → IsValidCluster cluster → IsValidWorkload cluster workload →
        (all : List Stamped) (kept : List (List Stamped)) (merged : List Stamped) →
        IsChronicle cluster workload all kept → IsMerge kept merged →
        world_after cluster workload (events_of merged) ≡ world_after cluster workload (events_of all) }
{}
