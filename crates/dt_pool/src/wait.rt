use rtrb::Consumer;
use std::hint::spin_loop;
use std::sync::Wait;
use std::thread;
use std::thread::Parker;

/// How often an end of a ring is looked at before its thread sleeps.
const LOOKS: u32 = 32;

/// Waits forever.
pub(crate) fn stuck<R: Wait>(rt: &R)
    ensures { ⊥ }
{
    for _ in rt.forever() {
        thread::yield_now();
    }
    unreachable!()
}

/// Waits for the next item of a ring, of which the bell tells.
pub(crate) fn next<T, R: Wait>(rt: &R, ring: &mut Consumer<T>, bell: &Parker) -> T {
    for _ in rt.forever() {
        if let Some(item) = look(ring) {
            return item;
        }
        bell.park(rt);
    }
    unreachable!()
}

/// The next item of a ring, if it comes within a short while.
fn look<T>(ring: &mut Consumer<T>) -> Option<T> {
    for _ in 0..LOOKS {
        if !ring.is_empty() {
            return ring.pop().ok();
        }
        spin_loop();
    }
    None
}
