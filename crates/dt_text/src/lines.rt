ghost use Rattle.std.specs.Prelude.{◌≡◌, ◌+◌, ◌<◌, ◌^◌, ◌==◌, List, [], ◌∷◌, length, position, MatchOption};
ghost use Rattle.dt_text.specs.Lines.{FileLine, cut_lines, is_skipped, kept_lines, lines_of};

use memchr::memchr;
use std::marker::Model;

/// A line of a file.
#[derive(Clone, Copy, Debug)]
pub struct Line<'a> {
    /// Its number in the file, counted from 1; skipped lines count.
    pub number: u32,
    /// Its bytes, without the one that ends it.
    pub bytes: &'a [u8],
}

/// The lines of a file that are not skipped, in order. Contracts see those that are left.
///
/// Each byte 0x0A ends a line, and bytes after the last one are a last line. A line of spaces
/// alone is skipped, and so is one whose first byte other than a space is `#`.
#[derive(Drop)]
pub struct Lines<'a> {
    rest: &'a [u8],
    passed: u32,
}

impl<'a> Model for Lines<'a> {
    ghost Value = { List FileLine };

    ghost view = { λ l. kept_lines (l.passed + 1) (cut_lines l.rest.now) };

    ghost invariant = { λ l. l.passed + length l.rest.now < 2 ^ 32 };
}

impl<'a> Lines<'a> {
    /// The lines of these bytes. Takes no memory.
    pub fn new(bytes: &'a [u8]) -> Self
        requires { length bytes.now < 2 ^ 32 }
        ensures { result ≡ lines_of bytes.now }
    {
        Lines {
            rest: bytes,
            passed: 0,
        }
    }

    /// Takes the next line, if one is left. Takes no memory.
    pub fn next(&mut self) -> Option<Line<'a>>
        ensures { MatchOption result ((self.old ≡ []) × (self.new ≡ []))
            (λ line. self.old ≡ record { number = line.number; bytes = line.bytes.now } ∷ self.new) }
    {
        while !self.rest.is_empty() {
            let (line, rest) = split_line(self.rest);
            self.rest = rest;
            self.passed += 1;
            if !is_skipped(line) {
                return Some(Line {
                    number: self.passed,
                    bytes: line,
                });
            }
        }
        None
    }
}

/// The first line, and what follows the byte that ends it.
#[tactic(auto, using(crate::proofs::Cuts::cut_at_end, crate::proofs::Cuts::cut_without_end))]
fn split_line(bytes: &[u8]) -> (&[u8], &[u8])
    requires { 0 < length bytes.now }
    ensures cut { cut_lines bytes.now ≡ result.0.now ∷ cut_lines result.1.now }
    ensures shorter { length result.1.now < length bytes.now }
{
    match line_end(bytes) {
        Some(end) => (&bytes[..end], &bytes[end + 1..]),
        None => (bytes, &bytes[bytes.len()..]),
    }
}

/// The place of the first byte that ends a line.
#[tactic(auto, using(crate::proofs::Cuts::first_end))]
fn line_end(bytes: &[u8]) -> Option<usize>
    ensures { result ≡ position (λ b. b == 10) bytes.now }
{
    memchr(b'\n', bytes)
}

/// Whether a line has nothing but spaces, or `#` first after them.
fn is_skipped(line: &[u8]) -> bool
    ensures { result ≡ is_skipped line.now }
{
    for byte in line {
        if *byte != b' ' {
            return *byte == b'#';
        }
    }
    true
}
