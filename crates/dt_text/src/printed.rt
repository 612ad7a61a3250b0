ghost use Rattle.std.specs.Prelude.{◌≡◌, ◌++◌, OnOk, OnErr};
ghost use Rattle.dt_text.specs.Printed.{text_word, text_item, value_text};

use crate::no_memory::NoMemory;
use crate::numbers::put_i64;
use crate::text::Str;
use crate::value::Value;
use std::alloc::Global;

/// Appends a text as a text word; after `NoMemory` the bytes are as before.
pub fn put_text(alloc: Global, out: &mut Vec<u8>, text: &Str) -> Result<(), NoMemory>
    ensures added { OnOk result (out.new.items ≡ out.old.items ++ text_word text.now) }
    ensures same { OnErr result (out.new.items ≡ out.old.items) }
{
    let mut word = Vec::new(alloc);
    word.push(b'"')?;
    for byte in text.bytes() {
        put_item(&mut word, *byte)?;
    }
    word.push(b'"')?;
    out.extend_from_slice(word.as_slice())?;
    Ok(())
}

/// Appends a byte as it stands in a text word.
fn put_item(word: &mut Vec<u8>, byte: u8) -> Result<(), NoMemory>
    ensures { OnOk result (word.new.items ≡ word.old.items ++ text_item byte) }
{
    if byte == b'"' || byte == b'\\' {
        word.push(b'\\')?;
    }
    word.push(byte)?;
    Ok(())
}

/// Appends the printed form of a value, a number or a text word; after `NoMemory` the bytes are
/// as before.
pub fn put_value(alloc: Global, out: &mut Vec<u8>, value: &Value) -> Result<(), NoMemory>
    ensures added { OnOk result (out.new.items ≡ out.old.items ++ value_text value.now) }
    ensures same { OnErr result (out.new.items ≡ out.old.items) }
{
    match value {
        Value::Int(number) => put_i64(alloc, out, *number),
        Value::Text(text) => put_text(alloc, out, text),
    }
}
