ghost use Rattle.std.specs.Prelude.{◌≡◌, ◌≢◌, ◌+◌, ◌<◌, ◌≤◌, ◌^◌, length, drop, ◌==◌, ◌||◌, slice_index, IfOk, IfSome, MatchBool, All};
ghost use Rattle.dt_text.specs.Texts.{IsStr};
ghost use Rattle.dt_text.specs.Words.{is_visible};
ghost use Rattle.dt_text.specs.Reading.{BareEndsAt, IsWordIn, words_from, words_of};
ghost use Rattle.dt_text.specs.ReadingInner.{ItemAt, WordAt, TextEndsAt};

use crate::bytes::is_text_byte;
use crate::listed::Listed;
use crate::no_memory::NoMemory;
use crate::spelling::Spelling;
use crate::text::Str;
use smallvec::SmallVec;
use std::alloc::Global;

/// A word of a line.
#[derive(Debug, PartialEq, Eq, Drop)]
pub enum Word {
    /// A bare word: the bytes of the line from the first place up to, and without, the second.
    Bare(u32, u32),
    /// A text word, with the text that it stands for.
    Text(Str),
}

/// The words of a line, in order.
pub type Words = Listed<Word>;

/// Reads the words of a line. `None` exactly where the line is not made of words.
///
/// Words have one or more spaces between them, and there may be spaces before the first and after
/// the last. A bare word is one or more bytes 0x21 to 0x7E, the first of which is not `"`. A text
/// word is a `"`, the bytes of its text with a `\` before each `"` and `\`, and a `"`.
pub fn words(alloc: Global, line: &[u8]) -> Result<Option<Words>, NoMemory>
    requires { length line.now < 2 ^ 32 }
    ensures exact { IfOk result (λ words. words ≡ words_of line.now) }
    ensures within { IfOk result (λ words. IfSome words (All (IsWordIn line.now))) }
{
    let mut found = Listed::new(alloc);
    let mut at = gap_end(line, 0);
    while at < line.len() {
        let Some((word, end)) = read_word(alloc, line, at)? else {
            return Ok(None);
        };
        found.push(word)?;
        at = gap_end(line, end);
    }
    Ok(Some(found))
}

/// The place of the first byte from `at` on that is no space, or the line's end.
pub fn gap_end(line: &[u8], at: usize) -> usize
    requires { at ≤ length line.now }
    ensures after { at ≤ result }
    ensures inside { result ≤ length line.now }
    ensures no_space { result < length line.now → slice_index line.now result ≢ 32 }
    ensures same { words_from at (drop at line.now) ≡ words_from result (drop result line.now) }
{
    let mut end = at;
    while end < line.len() {
        if line[end] != b' ' {
            return end;
        }
        end += 1;
    }
    end
}

/// Reads the word that begins at `at`, with the place after it.
fn read_word(alloc: Global, line: &[u8], at: usize) -> Result<Option<(Word, usize)>, NoMemory>
    requires short { length line.now < 2 ^ 32 }
    requires inside { at < length line.now }
    requires no_space { slice_index line.now at ≢ 32 }
    ensures { IfOk result (WordAt line.now at) }
{
    if line[at] == b'"' {
        return read_text(alloc, line, at);
    }
    Ok(read_bare(line, at))
}

/// Reads the bare word that begins at `at`, with the place after it.
fn read_bare(line: &[u8], at: usize) -> Option<(Word, usize)>
    requires short { length line.now < 2 ^ 32 }
    requires inside { at < length line.now }
    requires no_space { slice_index line.now at ≢ 32 }
    requires no_quote { slice_index line.now at ≢ 34 }
    ensures { WordAt line.now at result }
{
    if !is_visible(line[at]) {
        return None;
    }
    let end = bare_end(line, at + 1);
    Some((Word::Bare(at as u32, end as u32), end))
}

/// The place of the first byte from `at` on that is no part of a bare word, or the line's end.
pub fn bare_end(line: &[u8], at: usize) -> usize
    requires { at ≤ length line.now }
    ensures after { at ≤ result }
    ensures inside { result ≤ length line.now }
    ensures ends { BareEndsAt line.now at result }
{
    let mut end = at;
    while end < line.len() {
        if !is_visible(line[end]) {
            return end;
        }
        end += 1;
    }
    end
}

/// Whether a bare word may have the byte.
pub fn is_visible(byte: u8) -> bool
    ensures { result ≡ is_visible byte }
{
    matches!(byte, b'!'..=b'~')
}

/// The bytes of a text that is being read. Those of a short one take no memory.
type TextBytes = SmallVec<u8, 32>;

/// Reads the text word that begins with the `"` at `at`, with the place after it.
fn read_text(alloc: Global, line: &[u8], at: usize) -> Result<Option<(Word, usize)>, NoMemory>
    requires inside { at < length line.now }
    requires quote { slice_index line.now at ≡ 34 }
    ensures { IfOk result (WordAt line.now at) }
{
    let mut text = TextBytes::new(alloc);
    let mut end = at + 1;
    while end < line.len() {
        if line[end] == b'"' {
            return ended_text(alloc, line, text, end + 1);
        }
        let Some((byte, next)) = read_item(line, end) else {
            return Ok(None);
        };
        if text.len() >= Str::LONGEST {
            return Ok(None);
        }
        text.push(byte)?;
        end = next;
    }
    Ok(None)
}

/// The text word that ends before `end`, where a word may end there.
fn ended_text(
    alloc: Global,
    line: &[u8],
    text: TextBytes,
    end: usize,
) -> Result<Option<(Word, usize)>, NoMemory>
    requires text { IsStr text.items }
    requires inside { end ≤ length line.now }
    ensures { IfOk result (TextEndsAt line.now text.items end) }
{
    if !may_end(line, end) {
        return Ok(None);
    }
    let text = Spelling::of(alloc, text.as_slice())?;
    Ok(Some((Word::Text(Str::spelled(alloc, text)?), end)))
}

/// Whether a word may end before `end`: at the line's end, or before a space.
fn may_end(line: &[u8], end: usize) -> bool
    requires { end ≤ length line.now }
    ensures { MatchBool result (end < length line.now → slice_index line.now end ≡ 32)
        ((end < length line.now) × (slice_index line.now end ≢ 32)) }
{
    end == line.len() || line[end] == b' '
}

/// Reads the item of a text word that begins at `at`: the byte that it stands for, and the place
/// after it.
fn read_item(line: &[u8], at: usize) -> Option<(u8, usize)>
    requires inside { at < length line.now }
    requires no_quote { slice_index line.now at ≢ 34 }
    ensures { ItemAt line.now at result }
{
    let byte = line[at];
    if byte == b'\\' {
        return read_escape(line, at);
    }
    if is_text_byte(byte) {
        Some((byte, at + 1))
    } else {
        None
    }
}

/// Reads the item that begins with the `\` at `at`.
fn read_escape(line: &[u8], at: usize) -> Option<(u8, usize)>
    requires inside { at < length line.now }
    requires escape { slice_index line.now at ≡ 92 }
    ensures { ItemAt line.now at result }
{
    if at + 1 == line.len() {
        return None;
    }
    let byte = line[at + 1];
    if is_escaped(byte) {
        Some((byte, at + 2))
    } else {
        None
    }
}

/// Whether the byte stands in a text word after a `\`.
fn is_escaped(byte: u8) -> bool
    ensures { result ≡ (byte == 34 || byte == 92) }
{
    byte == b'"' || byte == b'\\'
}
