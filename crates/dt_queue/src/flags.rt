ghost use Rattle.std.specs.Prelude.{◌≡◌, ◌<◌, true, false, get_or, length, OnErr, OnOk};
ghost use Rattle.dt_queue.specs.WholesInner.{SameFlags, SetsFlag};

use dt_text::NoMemory;

/// The flag of a place; past the end all are down. Flags lie close together, each in a byte of its own, so that whoever asks for one
/// has mostly asked for one beside it before, and waits for no other memory.
#[inline(always)]
pub fn is_up(flags: &[bool], place: usize) -> bool
    ensures { result ≡ get_or flags.now place false }
{
    match flags.get(place) {
        Some(flag) => *flag,
        None => false,
    }
}

/// Keeps a flag for a place. All flags are as they were, also after `NoMemory`.
fn make_flag(flags: &mut Vec<bool>, place: usize) -> Result<(), NoMemory>
    ensures known { OnOk result (place < length flags.new.items) }
    ensures same { SameFlags flags.old.items flags.new.items }
{
    while flags.len() <= place {
        flags.push(false)?;
    }
    Ok(())
}

/// Raises the flag of a place; after `NoMemory` all are as they were.
pub fn raise(flags: &mut Vec<bool>, place: usize) -> Result<(), NoMemory>
    ensures raised { OnOk result (SetsFlag flags.old.items place true flags.new.items) }
    ensures same { OnErr result (SameFlags flags.old.items flags.new.items) }
{
    make_flag(flags, place)?;
    flags[place] = true;
    Ok(())
}

/// Takes the flag of a place down. Takes no memory.
pub fn lower(flags: &mut Vec<bool>, place: usize)
    ensures { SetsFlag flags.old.items place false flags.new.items }
{
    if place < flags.len() {
        flags[place] = false;
    }
}
