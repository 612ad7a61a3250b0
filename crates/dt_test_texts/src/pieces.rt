use dt_text::{NoMemory, put_u64};
use std::alloc::Global;
use std::test::Fail;

/// The failure of a table at a row.
pub fn wrong(row: usize) -> Fail {
    Fail::new(format_args!("row {row}"))
}

/// Adds these pieces at the end. What was added before memory ran out stays there.
pub fn put_all(out: &mut Vec<u8>, pieces: &[&[u8]]) -> Result<(), NoMemory> {
    for piece in pieces {
        out.extend_from_slice(*piece)?;
    }
    Ok(())
}

/// Adds a few bytes and a number behind them, in decimal digits.
pub fn put_number(
    alloc: Global,
    out: &mut Vec<u8>,
    before: &[u8],
    number: u64,
) -> Result<(), NoMemory> {
    out.extend_from_slice(before)?;
    put_u64(alloc, out, number)
}
