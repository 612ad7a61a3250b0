ghost use Rattle.std.specs.Prelude.{◌≡◌, IfOk};

use dt_text::{Key, Name};
use std::alloc::Global;
use std::test::Fail;

/// The key of these bytes. It fails where they are no key.
pub fn exact_key(alloc: Global, bytes: &[u8]) -> Result<Key, Fail>
    ensures { IfOk result (λ key. key ≡ bytes.now) }
{
    if bytes.len() > Key::LONGEST {
        return Err(Fail::from("a key has few bytes"));
    }
    Ok(Key::read(alloc, bytes)?)
}

/// The same, for tests in whose contracts the key's bytes do not matter.
pub fn key_of(alloc: Global, bytes: &[u8]) -> Result<Key, Fail> {
    exact_key(alloc, bytes)
}

/// The name of these bytes. It fails where they are no name.
pub fn name_of(alloc: Global, bytes: &[u8]) -> Result<Name, Fail> {
    if bytes.len() > Name::LONGEST {
        return Err(Fail::from("a name has few bytes"));
    }
    Ok(Name::read(alloc, bytes)?)
}
