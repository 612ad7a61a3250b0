ghost use Rattle.std.specs.Prelude.{◌≡◌, ◌++◌, ◌∷◌, [], IfOk, OnOk};
ghost use Rattle.dt_report.specs.Report.{line_of};
ghost use Rattle.dt_gen.specs.Summary.{kept_answers, number_of_row, row_sum, summary_text};

use dt_events::{Event, Stamped};
use dt_table::Shown;
use dt_text::{NoMemory, Value};
use itoa::{Buffer, Integer};
use std::alloc::Global;

/// The three lines for n calls, with this number of answers and the sum of these rows. The only error is running out of memory.
pub fn summary_text(
    alloc: Global,
    calls: u32,
    answers: u64,
    rows: &[Shown],
) -> Result<Vec<u8>, NoMemory>
    ensures { IfOk result (λ text. text.items ≡ summary_text calls answers (row_sum rows.now)) }
{
    let sum = row_sum(rows);
    let mut text = Vec::new(alloc);
    put_line(&mut text, b"calls", calls)?;
    put_line(&mut text, b"answers", answers)?;
    put_line(&mut text, b"sum", sum)?;
    Ok(text)
}

/// How many of the events that a region keeps answer a session. Takes no memory.
pub fn kept_answers(kept: &[Stamped]) -> usize
    ensures { result ≡ kept_answers kept.now }
{
    let mut count = 0;
    for stamped in kept {
        if let Event::Answer { .. } = &stamped.event {
            count += 1;
        }
    }
    count
}

/// The sum of the numbers of rows, which may be negative; rows with a text or without a value count nothing. Takes no memory.
pub fn row_sum(rows: &[Shown]) -> i128
    ensures { result ≡ row_sum rows.now }
{
    let mut sum = 0;
    for row in rows {
        sum += i128::from(number_of(&row.value));
    }
    sum
}

/// The number that a row has; 0 where it has none.
fn number_of(value: &Option<Value>) -> i64
    ensures { result ≡ number_of_row value.now }
{
    match value {
        Some(Value::Int(number)) => *number,
        _ => 0,
    }
}

/// Appends a line: a word and a number.
fn put_line<I: Integer>(out: &mut Vec<u8>, word: &[u8], number: I) -> Result<(), NoMemory>
    ensures { OnOk result (out.new.items ≡ out.old.items ++ line_of (word.now ∷ I.text number ∷ [])) }
{
    let mut buffer = Buffer::new();
    out.extend_from_slice(word)?;
    out.push(b' ')?;
    out.extend_from_slice(buffer.format(number).as_bytes())?;
    out.push(b'\n')?;
    Ok(())
}
