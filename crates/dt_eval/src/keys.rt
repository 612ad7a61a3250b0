ghost use Rattle.std.specs.Prelude.{◌≡◌, ◌<◌, ◌^◌, ◌++◌, ℕ, Bool, List, [], Some, IfOk, OnOk, if◌then◌else◌, length};
ghost use Rattle.dt_lists.specs.Lists.{AllIn};
ghost use Rattle.dt_access.specs.declared.access.Mode.TheVariants.{Write};
ghost use Rattle.dt_text.specs.Texts.{IsKey};
ghost use Rattle.dt_eval.specs.Keys.{HasKeys, IsFirstBadKey, item_text, key_text, keys_of, mode_of, names_of, plain, use_of, with_modes, with_use};
ghost use Rattle.dt_eval.specs.Meaning.{Fits};
ghost use Rattle.dt_eval.specs.FrameInner.{IsItemWithin};

use dt_access::{Keys, Mode};
use dt_proc::{KeyDecl, KeyItem, Proc};
use dt_text::{Key, NoMemory, Value};
use itoa::Buffer;
use smallvec::SmallVec;
use std::alloc::Global;
use std::cmp::Ordering;
use std::fmt;

/// Why the keys of a call are not given.
#[derive(Debug, Drop)]
pub enum KeysError {
    /// The declaration of this number, from 0, is the first that gives no key.
    BadKey(u32),
    /// Memory ran out.
    NoMemory,
}

impl fmt::Display for KeysError {
    fn fmt<W: fmt::Write>(&self, f: &mut fmt::Formatter<W>) -> fmt::Result {
        match self {
            KeysError::BadKey(number) => write!(f, "declaration {number} gives no key"),
            KeysError::NoMemory => write!(f, "no memory"),
        }
    }
}

impl std::error::Error for KeysError {}

impl From<NoMemory> for KeysError {
    ghost use Rattle.dt_eval.specs.declared.keys.KeysError.TheVariants as variants;

    ghost from_gives = { λ _ e. e ≡ variants.NoMemory };

    fn from(_error: NoMemory) -> Self {
        KeysError::NoMemory
    }
}

/// The distinct keys that a call uses, in ascending order, each with its mode: `Write` if any declaration of it writes.
///
/// The arguments fit. `BadKey` names the first declaration that gives no key.
#[tactic(auto, using(crate::proofs::KeyLaws::keys_ascend, crate::proofs::KeyLaws::items_within))]
pub fn keys_of(alloc: Global, body: &Proc, args: &[Value]) -> Result<Keys, KeysError>
    requires { Fits body.now args.now }
    ensures keys { IfOk result (λ keys. keys ≡ keys_of body.now args.now) }
    ensures ok { IfOk result (λ keys. HasKeys body.now args.now) }
    ensures bad { (i : ℕ) → result ≡ Err (KeysError.BadKey i) → IsFirstBadKey (names_of body.now args.now) i }
{
    let declarations = body.keys();
    if let [declared] = declarations {
        let (key, write) = use_of(alloc, 0, declared, args)?;
        return Ok(Keys::one(alloc, (key, mode_of(write))));
    }
    let mut uses = room_for(alloc, declarations.len())?;
    for (number, declared) in declarations.iter().enumerate() {
        let (key, write) = use_of(alloc, number, declared, args)?;
        add_use(&mut uses, key, write)?;
    }
    Ok(Keys::from_vec(alloc, uses))
}

/// An empty list with room for this many uses.
fn room_for(alloc: Global, uses: usize) -> Result<Vec<(Key, Mode)>, NoMemory>
    ensures { IfOk result (λ list. list.items ≡ []) }
{
    Ok(Vec::with_capacity(alloc, uses)?)
}

/// The key of the declaration of this number, and whether it may be written.
fn use_of(
    alloc: Global,
    number: usize,
    declared: &KeyDecl,
    args: &[Value],
) -> Result<(Key, bool), KeysError>
    requires number { number < 2 ^ 32 }
    requires items { AllIn (IsItemWithin (length args.now)) declared.now.items }
    ensures uses { IfOk result (λ used. (used ≡ use_of args.now declared.now) × IsKey (key_text args.now declared.now.items)) }
    ensures bad { (i : ℕ) → result ≡ Err (KeysError.BadKey i) → (i ≡ number) × ¬ (IsKey (key_text args.now declared.now.items)) }
{
    let text = key_text(alloc, declared.items.as_slice(), args)?;
    if !Key::is_key(text.as_slice()) {
        return Err(KeysError::BadKey(number as u32));
    }
    Ok((Key::new(alloc, text.as_slice())?, declared.write))
}

/// The text of a key while it is joined. A short one takes no memory.
type Joined = SmallVec<u8, 32>;

/// What a key expression gives.
fn key_text(alloc: Global, items: &[KeyItem], args: &[Value]) -> Result<Joined, NoMemory>
    requires { AllIn (IsItemWithin (length args.now)) items.now }
    ensures { IfOk result (λ text. text.items ≡ key_text args.now items.now) }
{
    let mut text = Joined::new(alloc);
    for item in items {
        add_item(&mut text, item, args)?;
    }
    Ok(text)
}

/// Adds a part of a key expression to the text.
fn add_item(text: &mut Joined, item: &KeyItem, args: &[Value]) -> Result<(), NoMemory>
    requires { IsItemWithin (length args.now) item.now }
    ensures { OnOk result (text.new.items ≡ text.old.items ++ item_text args.now item.now) }
{
    match item {
        KeyItem::Text(part) => text.extend_from_slice(part.bytes())?,
        KeyItem::Param(param) => add_argument(text, &args[*param as usize])?,
        KeyItem::Show(param) => add_argument(text, &args[*param as usize])?,
    }
    Ok(())
}

/// Adds an argument as it stands in a key: a text as it is, a number in its printed form.
fn add_argument(text: &mut Joined, argument: &Value) -> Result<(), NoMemory>
    ensures { OnOk result (text.new.items ≡ text.old.items ++ plain (Some argument.now)) }
{
    match argument {
        Value::Int(number) => {
            let mut buffer = Buffer::new();
            text.extend_from_slice(buffer.format(*number).as_bytes())?;
        }
        Value::Text(part) => text.extend_from_slice(part.bytes())?,
    }
    Ok(())
}

/// Adds a use to uses in ascending order of keys: a key that is there already stays once, and may be written if either use
/// of it writes.
fn add_use(uses: &mut Vec<(Key, Mode)>, key: Key, write: bool) -> Result<(), NoMemory>
    ensures { (before : List (List ℕ × Bool)) → uses.old.items ≡ with_modes before → OnOk result (uses.new.items ≡ with_modes (with_use before (key, write))) }
{
    for place in 0..uses.len() {
        match key.cmp(&uses[place].0) {
            Ordering::Less => {
                uses.insert(place, (key, mode_of(write)))?;
                return Ok(());
            }
            Ordering::Equal => {
                uses[place].1 = joined(uses[place].1, write);
                return Ok(());
            }
            Ordering::Greater => {}
        }
    }
    uses.push((key, mode_of(write)))?;
    Ok(())
}

/// The mode of a key with one use more, which may write it or not.
fn joined(mode: Mode, write: bool) -> Mode
    ensures { result ≡ (if write then Write else mode) }
{
    if write { Mode::Write } else { mode }
}

/// `Write` where the key may be written, else `Read`.
fn mode_of(write: bool) -> Mode
    ensures { result ≡ mode_of write }
{
    if write { Mode::Write } else { Mode::Read }
}
