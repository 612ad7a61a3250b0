//! Pieces of what tests tell, and what is compared with it.
use dt_test_texts::put_number;
use dt_text::NoMemory;
use std::alloc::Global;

/// Adds numbers, each behind a space.
pub fn put_numbers(alloc: Global, out: &mut Vec<u8>, numbers: &[u32]) -> Result<(), NoMemory> {
    for number in numbers {
        put_number(alloc, out, b" ", u64::from(*number))?;
    }
    Ok(())
}

/// Whether what is told has this length and this end.
pub fn is_long(told: &[u8], length: usize, end: &[u8]) -> bool {
    told.len() == length && told.ends_with(end)
}
