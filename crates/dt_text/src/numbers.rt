ghost use Rattle.std.specs.Prelude.{◌≡◌, ◌+◌, ◌-◌, ◌*◌, ◌<◌, ◌≤◌, ◌^◌, neg_ℤ, pos, ◌++◌, ◌≢◌, ◌∷◌, length, slice_index, MatchBool, MatchOption, OnOk, OnErr};
ghost use Rattle.dt_text.specs.Numbers.{StartsPlainly};
ghost use Rattle.std.specs.Int.{IsInRange};
ghost use Rattle.std.specs.Option.{SomeIff};
ghost use Rattle.std.specs.Str.Parse.{AllDigits, digits_value};
ghost use Rattle.std.specs.Fmt.{decimal, signed_decimal};
ghost use Rattle.dt_text.specs.Numbers.{ReadsNumber, ReadsSignedNumber};

use crate::no_memory::NoMemory;
use itoa::Buffer;
use std::alloc::Global;

/// Reads a number of 32 bits without a sign: `0`, or digits of which the first is not `0`.
///
/// `None` exactly where the word is the spelling of no such number.
pub fn read_u32(word: &[u8]) -> Option<u32>
    requires { length word.now < 2 ^ 32 }
    ensures { ReadsNumber (2 ^ 32) word.now result }
{
    u32::try_from(read_u64(word)?).ok()
}

/// Reads a number of 64 bits with a sign: `-` stands before a number that is less than 0.
///
/// `None` exactly where the word is the spelling of no such number, as `-0`.
pub fn read_i64(word: &[u8]) -> Option<i64>
    requires { length word.now < 2 ^ 32 }
    ensures { ReadsSignedNumber word.now result }
{
    match after_minus(word) {
        Some(digits) => negated(read_u64(digits)?),
        None => i64::try_from(read_u64(word)?).ok(),
    }
}

/// What follows a `-`, if the word begins with one.
fn after_minus(word: &[u8]) -> Option<&[u8]>
    ensures { MatchOption result (slice_index word.now 0 ≢ 45)
        (λ digits. word.now ≡ 45 ∷ digits.now) }
{
    if word.is_empty() || word[0] != b'-' {
        return None;
    }
    Some(&word[1..])
}

/// The number below 0 of this size, if there is one.
fn negated(size: u64) -> Option<i64>
    ensures { SomeIff result ((0 < size) × (size ≤ 2 ^ 63)) (neg_ℤ (pos size)) }
{
    let below = i64::try_from(size.checked_sub(1)?).ok()?;
    Some(-1 - below)
}

/// Reads a number of 64 bits without a sign.
fn read_u64(word: &[u8]) -> Option<u64>
    ensures { ReadsNumber (2 ^ 64) word.now result }
{
    if is_empty_or_padded(word) {
        return None;
    }
    value_of_digits(word)
}

/// Whether there is no byte, or a zero with more bytes after it.
fn is_empty_or_padded(word: &[u8]) -> bool
    ensures { MatchBool result (¬ StartsPlainly word.now) (StartsPlainly word.now) }
{
    word.is_empty() || word[0] == b'0' && word.len() > 1
}

/// The number that digits write, also with zeros in front; `None` where a byte is no digit or the
/// number has more than 64 bits.
fn value_of_digits(word: &[u8]) -> Option<u64>
    ensures { SomeIff result (AllDigits 10 word.now × (digits_value 10 word.now < 2 ^ 64))
        (digits_value 10 word.now) }
{
    let mut number: u64 = 0;
    for byte in word {
        number = with_digit(number, *byte)?;
    }
    Some(number)
}

/// The number whose digits are those of `number` and then this one; `None` where the byte is no
/// digit or that number has more than 64 bits.
fn with_digit(number: u64, byte: u8) -> Option<u64>
    ensures { SomeIff result (IsInRange 48 57 byte × (number * 10 + (byte - 48) < 2 ^ 64))
        (number * 10 + (byte - 48)) }
{
    if !byte.is_ascii_digit() {
        return None;
    }
    number.checked_mul(10)?.checked_add(u64::from(byte - b'0'))
}

/// Appends the printed form of a number; after `NoMemory` the bytes are as before.
pub fn put_u64(_alloc: Global, out: &mut Vec<u8>, number: u64) -> Result<(), NoMemory>
    ensures added { OnOk result (out.new.items ≡ out.old.items ++ decimal number) }
    ensures same { OnErr result (out.new.items ≡ out.old.items) }
{
    let mut buffer = Buffer::new();
    out.extend_from_slice(buffer.format(number).as_bytes())?;
    Ok(())
}

/// Appends the printed form of a number with a sign; after `NoMemory` the bytes are as before.
pub fn put_i64(_alloc: Global, out: &mut Vec<u8>, number: i64) -> Result<(), NoMemory>
    ensures added { OnOk result (out.new.items ≡ out.old.items ++ signed_decimal number) }
    ensures same { OnErr result (out.new.items ≡ out.old.items) }
{
    let mut buffer = Buffer::new();
    out.extend_from_slice(buffer.format(number).as_bytes())?;
    Ok(())
}
