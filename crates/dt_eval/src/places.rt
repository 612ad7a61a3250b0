//! Where the key that a key expression gives stands among those that were read. It is compared part by part, so that its text is
//! never made.
ghost use Rattle.std.specs.Prelude.{◌≡◌, ◌<◌, ◌↔◌, ◌++◌, ℕ, List, [], length, map, slice_index_or, IsTrue, MatchOption, Some};
ghost use Rattle.dt_lists.specs.Lists.{AllIn, AnyIn};
ghost use Rattle.dt_eval.specs.FrameInner.{IsItemWithin};
ghost use Rattle.dt_eval.specs.Keys.{item_text, key_text, plain};

use dt_proc::KeyItem;
use dt_text::{Key, Value};
use itoa::Buffer;

/// The place of the read of the key that a key expression gives, which is there: so where it is none of the others, it is the
/// last. Takes no memory.
pub(crate) fn place_of(reads: &[(Key, Option<Value>)], items: &[KeyItem], args: &[Value]) -> usize
    requires within { AllIn (IsItemWithin (length args.now)) items.now }
    requires read { AnyIn (λ r. r.0 ≡ key_text args.now items.now) reads.now }
    ensures below { result < length reads.now }
    ensures there { slice_index_or (map (λ r. r.0) reads.now) result [] ≡ key_text args.now items.now }
{
    for (place, read) in reads.iter().enumerate() {
        if place + 1 == reads.len() || is_given(read.0.bytes(), items, args) {
            return place;
        }
    }
    unreachable!()
}

/// Whether a key expression gives these bytes.
fn is_given(bytes: &[u8], items: &[KeyItem], args: &[Value]) -> bool
    requires { AllIn (IsItemWithin (length args.now)) items.now }
    ensures { IsTrue result ↔ (bytes.now ≡ key_text args.now items.now) }
{
    let mut rest = bytes;
    for item in items {
        match after_item(rest, item, args) {
            Some(after) => rest = after,
            None => return false,
        }
    }
    rest.is_empty()
}

/// What follows the text of a part of a key expression, where the bytes begin with it.
fn after_item<'a>(bytes: &'a [u8], item: &KeyItem, args: &[Value]) -> Option<&'a [u8]>
    requires { IsItemWithin (length args.now) item.now }
    ensures { MatchOption result ((rest : List ℕ) → ¬ (bytes.now ≡ item_text args.now item.now ++ rest)) (λ rest. bytes.now ≡ item_text args.now item.now ++ rest.now) }
{
    match item {
        KeyItem::Text(part) => after(bytes, part.bytes()),
        KeyItem::Param(param) => after_argument(bytes, &args[*param as usize]),
        KeyItem::Show(param) => after_argument(bytes, &args[*param as usize]),
    }
}

/// What follows an argument as it stands in a key, where the bytes begin with it.
fn after_argument<'a>(bytes: &'a [u8], argument: &Value) -> Option<&'a [u8]>
    ensures { MatchOption result ((rest : List ℕ) → ¬ (bytes.now ≡ plain (Some argument.now) ++ rest)) (λ rest. bytes.now ≡ plain (Some argument.now) ++ rest.now) }
{
    match argument {
        Value::Int(number) => {
            let mut buffer = Buffer::new();
            after(bytes, buffer.format(*number).as_bytes())
        }
        Value::Text(part) => after(bytes, part.bytes()),
    }
}

/// What follows this front, where the bytes begin with it. Fronts are short: for so few bytes, a loop takes a third of what a
/// comparison of long slices does.
fn after<'a>(mut bytes: &'a [u8], mut front: &[u8]) -> Option<&'a [u8]>
    ensures { MatchOption result ((rest : List ℕ) → ¬ (bytes.now ≡ front.now ++ rest)) (λ rest. bytes.now ≡ front.now ++ rest.now) }
{
    while let Some((first, others)) = front.split_first() {
        let (byte, rest) = bytes.split_first()?;
        if byte != first {
            return None;
        }
        (bytes, front) = (rest, others);
    }
    Some(bytes)
}
