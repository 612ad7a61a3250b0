//! What bytes are read as: keys, names, texts, numbers, lines and words.
ghost use Rattle.std.specs.Prelude.{◌<◌, ◌^◌, length};

use crate::calls::repeated;
use dt_test_texts::{key_of, wrong};
use dt_text::{
    Key, KeyError, Lines, Listed, Name, NoMemory, Str, Value, Word, put_i64, put_text, put_u64,
    put_value, read_i64, read_u32, words,
};
use std::alloc::Global;
use std::test::Fail;

/// More bytes than a test reads.
const MANY: usize = 1000000;

/// What a test reads bytes as.
#[derive(Clone, Copy)]
enum What {
    Key,
    Name,
    Text,
    Unsigned,
    Signed,
    Lines,
    Words,
}

/// What the bytes are read as, or why they are not; of lines and words, what `put_line` and `put_word` add.
fn told(alloc: Global, what: What, bytes: &[u8]) -> Result<Vec<u8>, Fail> {
    if bytes.len() > MANY {
        return Err(Fail::from("a test reads few bytes"));
    }
    match what {
        What::Key => key(alloc, bytes),
        What::Name => name(alloc, bytes),
        What::Text => text(alloc, bytes),
        What::Unsigned => unsigned(alloc, bytes),
        What::Signed => signed(alloc, bytes),
        What::Lines => lines(alloc, bytes),
        What::Words => words_of(alloc, bytes),
    }
}

/// Why bytes are no key or no name.
fn cause(alloc: Global, error: KeyError) -> Result<Vec<u8>, Fail> {
    Ok(format!(in alloc; "{error}")?.as_bytes().to_vec(alloc)?)
}

/// The bytes of a copy of the key that is read.
fn key(alloc: Global, bytes: &[u8]) -> Result<Vec<u8>, Fail>
    requires { length bytes.now < 2 ^ 32 }
{
    match Key::read(alloc, bytes) {
        Ok(key) => Ok(key.copy(alloc)?.bytes().to_vec(alloc)?),
        Err(error) => cause(alloc, error),
    }
}

/// The bytes of a copy of the name that is read.
fn name(alloc: Global, bytes: &[u8]) -> Result<Vec<u8>, Fail>
    requires { length bytes.now < 2 ^ 32 }
{
    match Name::read(alloc, bytes) {
        Ok(name) => Ok(name.copy(alloc)?.bytes().to_vec(alloc)?),
        Err(error) => cause(alloc, error),
    }
}

/// Adds a text, printed from a copy of it.
fn put_copied_text(alloc: Global, out: &mut Vec<u8>, text: &Str) -> Result<(), NoMemory> {
    put_text(alloc, out, &text.copy(alloc)?)
}

/// Adds a value, printed from a copy of it.
fn put_copied_value(alloc: Global, out: &mut Vec<u8>, value: &Value) -> Result<(), NoMemory> {
    put_value(alloc, out, &value.copy(alloc)?)
}

/// A text, printed from a copy of it, and from a copy of a value of it.
fn text_told(alloc: Global, text: Str) -> Result<Vec<u8>, Fail> {
    let mut out = Vec::new(alloc);
    put_copied_text(alloc, &mut out, &text)?;
    put_copied_value(alloc, &mut out, &Value::Text(text))?;
    Ok(out)
}

/// The text that is read, printed.
fn text(alloc: Global, bytes: &[u8]) -> Result<Vec<u8>, Fail>
    requires { length bytes.now < 2 ^ 32 }
{
    match Str::read(alloc, bytes) {
        Ok(text) => text_told(alloc, text),
        Err(error) => Ok(format!(in alloc; "{error}")?.as_bytes().to_vec(alloc)?),
    }
}

/// The number without a sign that is read, printed.
fn unsigned(alloc: Global, bytes: &[u8]) -> Result<Vec<u8>, Fail>
    requires { length bytes.now < 2 ^ 32 }
{
    let mut out = Vec::new(alloc);
    if let Some(number) = read_u32(bytes) {
        put_u64(alloc, &mut out, u64::from(number))?;
    }
    Ok(out)
}

/// The number with a sign that is read, printed as a number and as a value.
fn signed(alloc: Global, bytes: &[u8]) -> Result<Vec<u8>, Fail>
    requires { length bytes.now < 2 ^ 32 }
{
    let mut out = Vec::new(alloc);
    if let Some(number) = read_i64(bytes) {
        put_i64(alloc, &mut out, number)?;
        out.push(b' ')?;
        put_value(alloc, &mut out, &Value::Int(number))?;
    }
    Ok(out)
}

/// The lines that are kept, each as its number, a `:`, its bytes and a `;`.
fn lines(alloc: Global, file: &[u8]) -> Result<Vec<u8>, Fail>
    requires { length file.now < 2 ^ 32 }
{
    let mut out = Vec::new(alloc);
    let mut lines = Lines::new(file);
    for _ in 0..file.len() {
        if let Some(line) = lines.next() {
            put_u64(alloc, &mut out, u64::from(line.number))?;
            out.push(b':')?;
            out.extend_from_slice(line.bytes)?;
            out.push(b';')?;
        }
    }
    Ok(out)
}

/// Adds the two places of a word.
fn put_places(alloc: Global, out: &mut Vec<u8>, from: u32, to: u32) -> Result<(), NoMemory> {
    put_u64(alloc, out, u64::from(from))?;
    out.push(b'-')?;
    put_u64(alloc, out, u64::from(to))
}

/// Adds a word as its two places or its text word, and a `;`.
fn put_word(alloc: Global, out: &mut Vec<u8>, word: &Word) -> Result<(), NoMemory> {
    match word {
        Word::Bare(from, to) => put_places(alloc, out, *from, *to)?,
        Word::Text(text) => put_text(alloc, out, text)?,
    }
    out.push(b';')?;
    Ok(())
}

/// The words of a line, each as its two places or its text word, and a `;`.
fn words_of(alloc: Global, line: &[u8]) -> Result<Vec<u8>, Fail>
    requires { length line.now < 2 ^ 32 }
{
    let Some(found) = words(alloc, line)? else {
        return Ok(b"none".to_vec(alloc)?);
    };
    let mut out = Vec::new(alloc);
    for word in found.as_slice() {
        put_word(alloc, &mut out, word)?;
    }
    Ok(out)
}

/// Bytes, what they are read as, and what is told of them.
type Row = (What, &'static [u8], &'static [u8]);

/// Fails at the first row of which something else is told.
fn check(alloc: Global, rows: &[Row]) -> Result<(), Fail> {
    for (row, (what, bytes, want)) in rows.iter().enumerate() {
        if told(alloc, *what, bytes)?.as_slice() != *want {
            return Err(wrong(row));
        }
    }
    Ok(())
}

/// Bytes, and the key, name or text that they are, or the first cause against it.
const READ: &[Row] = &[
    (What::Key, b"", b"no bytes"),
    (What::Key, b"stock/7", b"stock/7"),
    (What::Key, b"a-z_0.9/", b"a-z_0.9/"),
    (What::Key, &[b'a'; 65], &[b'a'; 65]),
    (What::Key, &[b'a'; 128], &[b'a'; 128]),
    (What::Key, &[b'a'; 129], b"too many bytes"),
    (What::Key, &[b' '; 129], b"too many bytes"),
    (What::Key, b"a B", b"bad byte at 1"),
    (What::Key, b"A", b"bad byte at 0"),
    (What::Key, b"ab\xc3\xa4", b"bad byte at 2"),
    (What::Name, b"", b"no bytes"),
    (What::Name, b"s_00", b"s_00"),
    (What::Name, &[b'z'; 32], &[b'z'; 32]),
    (What::Name, &[b'z'; 33], b"too many bytes"),
    (What::Name, b"a-b", b"bad byte at 1"),
    (What::Name, b"ab/", b"bad byte at 2"),
    (What::Name, b"S", b"bad byte at 0"),
    (What::Text, b"", b"\"\"\"\""),
    (What::Text, b" ~\"\\", b"\" ~\\\"\\\\\"\" ~\\\"\\\\\""),
    (What::Text, &[b' '; 257], b"too many bytes"),
    (What::Text, &[b'\n'; 257], b"too many bytes"),
    (What::Text, b"a\tb", b"bad byte at 1"),
    (What::Text, b"\x7f", b"bad byte at 0"),
];

#[test]
fn keys_names_and_texts_are_read_or_refused_by_the_first_cause(
    rt: HostRuntime,
) -> Result<(), Fail> {
    check(rt.alloc(), READ)
}

/// Words, and the numbers that they spell, printed.
const NUMBERS: &[Row] = &[
    (What::Unsigned, b"", b""),
    (What::Unsigned, b"0", b"0"),
    (What::Unsigned, b"00", b""),
    (What::Unsigned, b"007", b""),
    (What::Unsigned, b"+7", b""),
    (What::Unsigned, b"7 ", b""),
    (What::Unsigned, b"-7", b""),
    (What::Unsigned, b"4294967295", b"4294967295"),
    (What::Unsigned, b"4294967296", b""),
    (What::Unsigned, b"18446744073709551616", b""),
    (What::Unsigned, b"99999999999999999999", b""),
    (What::Signed, b"", b""),
    (What::Signed, b"-", b""),
    (What::Signed, b"0", b"0 0"),
    (What::Signed, b"-0", b""),
    (What::Signed, b"007", b""),
    (What::Signed, b"-07", b""),
    (What::Signed, b"--7", b""),
    (What::Signed, b"-7", b"-7 -7"),
    (
        What::Signed,
        b"-9223372036854775808",
        b"-9223372036854775808 -9223372036854775808",
    ),
    (What::Signed, b"-9223372036854775809", b""),
    (
        What::Signed,
        b"9223372036854775807",
        b"9223372036854775807 9223372036854775807",
    ),
    (What::Signed, b"9223372036854775808", b""),
];

#[test]
fn numbers_have_one_spelling(rt: HostRuntime) -> Result<(), Fail> {
    check(rt.alloc(), NUMBERS)
}

/// Bytes, and the lines of such a file, or the words of such a line.
const CUT: &[Row] = &[
    (What::Lines, b"", b""),
    (What::Lines, b"\n", b""),
    (What::Lines, b"a", b"1:a;"),
    (What::Lines, b"a\n", b"1:a;"),
    (What::Lines, b"a\n\nb", b"1:a;3:b;"),
    (What::Lines, b"  \n# \xff\tx\n  #\n a ", b"4: a ;"),
    (What::Lines, b"a #\n\t\n \r\n\r", b"1:a #;2:\t;3: \r;4:\r;"),
    (What::Lines, b"#\n\t#\n", b"2:\t#;"),
    (What::Words, b"", b""),
    (What::Words, b"   ", b""),
    (What::Words, b"call put \"b\" 5", b"0-4;5-8;\"b\";13-14;"),
    (What::Words, b"  a   b ", b"2-3;6-7;"),
    (What::Words, b"\"b\"5", b"none"),
    (What::Words, b"\"b\"\"c\"", b"none"),
    (What::Words, b"5\"b\"", b"0-4;"),
    (What::Words, b"\"\" \"a b\"", b"\"\";\"a b\";"),
    (What::Words, b"\"\\\"\\\\\"", b"\"\\\"\\\\\";"),
    (What::Words, b"\"a", b"none"),
    (What::Words, b"\"\\", b"none"),
    (What::Words, b"\"\\\"", b"none"),
    (What::Words, b"\"\\n\"", b"none"),
    (What::Words, b"a\tb", b"none"),
    (What::Words, b"\t", b"none"),
    (What::Words, b"a\r", b"none"),
    (What::Words, b"\"a\tb\"", b"none"),
    (What::Words, b"a \x7f", b"none"),
    (What::Words, b"a\\b #", b"0-3;4-5;"),
];

#[test]
fn a_file_is_made_of_lines_and_a_line_of_words(rt: HostRuntime) -> Result<(), Fail> {
    check(rt.alloc(), CUT)
}

/// How many bytes are shown of a piece that stands `times` times between others.
fn told_of_many(
    alloc: Global,
    what: What,
    front: &[u8],
    piece: &[u8],
    times: u32,
    back: &[u8],
) -> Result<usize, Fail> {
    let bytes = repeated(alloc, front, piece, times, back)?;
    Ok(told(alloc, what, bytes.as_slice())?.len())
}

/// A piece that stands n times between others, and how many bytes are shown of it.
const LONG: &[(What, &[u8], &[u8], u32, &[u8], usize)] = &[
    // A text has 256 bytes, however many its word has.
    (What::Text, b"", b"\"", 256, b"", 1028),
    (What::Words, b"\"", b"\\\"", 255, b"\"", 513),
    (What::Words, b"\"", b"\\\"", 256, b"\"", 515),
    (What::Words, b"\"", b"\\\"", 257, b"\"", 4),
    // Words, bytes of a word and lines as many as there are.
    (What::Words, b"", b"\"\" ", 600, b"", 1800),
    (What::Words, b"", b"a", 70000, b"", 8),
    (What::Lines, b"", b"#\n", 70000, b"a\nb", 16),
];

/// Fails at the first piece of which another number of bytes is shown.
fn check_long(alloc: Global) -> Result<(), Fail> {
    for (row, (what, front, piece, times, back, want)) in LONG.iter().enumerate() {
        if told_of_many(alloc, *what, front, piece, *times, back)? != *want {
            return Err(wrong(row));
        }
    }
    Ok(())
}

#[test]
fn there_is_no_limit_but_those_that_are_said(rt: HostRuntime) -> Result<(), Fail> {
    check_long(rt.alloc())
}

/// Whether the first of two keys is below the other.
fn are_in_order(alloc: Global, low: &[u8], high: &[u8]) -> Result<bool, Fail> {
    let low = key_of(alloc, low)?;
    let high = key_of(alloc, high)?;
    Ok(low < high && low != high)
}

/// Two keys, and whether the first is below the other.
const ORDER: &[(&[u8], &[u8], bool)] = &[
    (b"az", b"b0", true),
    (b"a.", b"a/", true),
    (b"zz", b"aa", false),
    (b"aa", b"aa", false),
];

/// Fails at the first two keys that stand in another order.
fn check_order(alloc: Global) -> Result<(), Fail> {
    for (row, (low, high, want)) in ORDER.iter().enumerate() {
        if are_in_order(alloc, low, high)? != *want {
            return Err(wrong(row));
        }
    }
    Ok(())
}

#[test]
fn keys_are_ordered_by_their_bytes(rt: HostRuntime) -> Result<(), Fail> {
    check_order(rt.alloc())
}

/// Whether a list gives back what was added last, and keeps the others in their order.
fn keeps_items(alloc: Global) -> Result<bool, Fail> {
    let mut list = Listed::new(alloc);
    let mut items = Vec::new(alloc);
    for number in 0..599u32 {
        list.push(number)?;
        items.push(number)?;
    }
    list.push(599)?;
    Ok(list.pop() == Some(599) && list == Listed::from_vec(items))
}

#[test]
fn lists_keep_their_items_in_order(rt: HostRuntime) -> Result<(), Fail> {
    assert!(rt; keeps_items(rt.alloc())?);
    Ok(())
}
