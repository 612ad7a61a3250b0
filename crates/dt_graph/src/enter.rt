ghost use Rattle.std.specs.Prelude.{◌≡◌, ◌<◌, ◌^◌, ℕ, [], ◌∷◌, ◌++◌, List, IfOk, OnErr, OnOk, length, map};
ghost use Rattle.dt_queue.specs.Queues.{HasDistinctSlots, IsQueued, Waiting, neighbours};
ghost use Rattle.dt_waits.specs.Waits.{degree};
ghost use Rattle.dt_graph.specs.SmallStepsInner.{Enters, Pushes, raised};

use dt_access::{Mode, Part};
use dt_queue::Queues;
use dt_text::{Key, NoMemory};
use dt_waits::Slots;
use std::alloc::Global;

/// Keeps the slot of an entry that waits for a vertex, and answers the degree, raised by the neighbours of the entry; after
/// `NoMemory` the slots are as before.
fn keep_slot(
    alloc: Global,
    queues: &Queues,
    slot: usize,
    vertex: u32,
    before: u128,
    slots: &mut Slots,
) -> Result<u128, NoMemory>
    requires waits { IsQueued queues.now slot }
    requires fits { raised before (map (λ w. w.vertex) (neighbours queues.now slot)) vertex < 2 ^ 128 }
    ensures raised { IfOk result (λ risen. risen ≡ raised before (map (λ w. w.vertex) (neighbours queues.now slot)) vertex) }
    ensures kept { OnOk result (slots.new ≡ slots.old ++ slot ∷ []) }
    ensures same { OnErr result (slots.new ≡ slots.old) }
{
    let others = queues.count_others(alloc, slot, vertex)?;
    slots.push(slot)?;
    Ok(before + others as u128)
}

/// Lets a vertex wait for the use of a key, and answers its degree; after `NoMemory` all is as before.
fn enter_use(
    alloc: Global,
    queues: &mut Queues,
    home: u8,
    used: &(Key, Mode),
    vertex: u32,
    before: u128,
    slots: &mut Slots,
) -> Result<u128, NoMemory>
    requires distinct { HasDistinctSlots queues.old }
    requires counted { before ≡ degree queues.old vertex }
    ensures entered { IfOk result (Enters home vertex (used.now ∷ []) queues.old queues.new slots.old slots.new) }
    ensures same_queues { OnErr result (queues.new ≡ queues.old) }
    ensures same_slots { OnErr result (slots.new ≡ slots.old) }
{
    let (key, mode) = used;
    let slot = queues.push(alloc, home, key, *mode, vertex)?;
    match keep_slot(alloc, queues, slot, vertex, before, slots) {
        Ok(risen) => Ok(risen),
        Err(error) => {
            queues.remove(slot);
            Err(error)
        }
    }
}

/// Lets a vertex wait for the uses of a part, one after the other, and answers its degree; after `NoMemory` it waits for the
/// first of them alone.
fn enter_uses(
    alloc: Global,
    queues: &mut Queues,
    part: &Part,
    vertex: u32,
    before: u128,
    slots: &mut Slots,
) -> Result<u128, NoMemory>
    requires distinct { HasDistinctSlots queues.old }
    requires counted { before ≡ degree queues.old vertex }
    ensures entered { IfOk result (Enters part.now.home vertex part.now.keys queues.old queues.new slots.old slots.new) }
    ensures pushed { Pushes vertex queues.old queues.new slots.old slots.new }
{
    let mut risen = before;
    for used in part.keys.as_slice() {
        risen = enter_use(alloc, queues, part.home, used, vertex, risen, slots)?;
    }
    Ok(risen)
}

/// Takes back the entries at the last slots, all but the first n.
fn take_back(queues: &mut Queues, slots: &mut Slots, count: usize)
    requires { (vertex : ℕ) × (old : List Waiting) × (kept : List ℕ) × (length kept ≡ count) × Pushes vertex old queues.old kept slots.old }
    ensures { (vertex : ℕ) (old : List Waiting) (kept : List ℕ) → length kept ≡ count → Pushes vertex old queues.old kept slots.old → (queues.new ≡ old) × (slots.new ≡ kept) }
{
    while slots.len() > count {
        let Some(slot) = slots.pop() else {
            unreachable!()
        };
        queues.remove(slot);
    }
}

/// Lets a vertex wait for the uses of a part, and answers its degree; after `NoMemory` all is as before.
pub fn enter(
    alloc: Global,
    queues: &mut Queues,
    part: &Part,
    vertex: u32,
    before: u128,
    slots: &mut Slots,
) -> Result<u128, NoMemory>
    requires distinct { HasDistinctSlots queues.old }
    requires counted { before ≡ degree queues.old vertex }
    ensures entered { IfOk result (Enters part.now.home vertex part.now.keys queues.old queues.new slots.old slots.new) }
    ensures same_queues { OnErr result (queues.new ≡ queues.old) }
    ensures same_slots { OnErr result (slots.new ≡ slots.old) }
{
    let count = slots.len();
    match enter_uses(alloc, queues, part, vertex, before, slots) {
        Ok(risen) => Ok(risen),
        Err(error) => {
            take_back(queues, slots, count);
            Err(error)
        }
    }
}
