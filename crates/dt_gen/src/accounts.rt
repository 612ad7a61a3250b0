ghost use Rattle.std.specs.Prelude.{◌≡◌, ◌<◌, IfOk, map};
ghost use Rattle.dt_gen.specs.Load.{account, account_numbers, account_row};

use dt_cluster::RowList;
use dt_text::{Key, Listed, NoMemory, Str, Value, put_u64};
use std::alloc::Global;

/// How many accounts there are.
pub(crate) const ACCOUNTS: u32 = 100;

/// What each account has at first.
const OPENING: i64 = 1000;

/// The rows of the accounts, in the order of their numbers.
#[tactic(auto, unfolding(crate::specs::Load::account_numbers))]
pub(crate) fn account_rows(alloc: Global) -> Result<RowList, NoMemory>
    ensures { IfOk result (λ rows. rows ≡ map account_row account_numbers) }
{
    let mut rows = Vec::with_capacity(alloc, ACCOUNTS as usize)?;
    for number in 0..ACCOUNTS {
        rows.push((account_key(alloc, number)?, Value::Int(OPENING)))?;
    }
    Ok(Listed::from_vec(rows))
}

/// The key of an account.
fn account_key(alloc: Global, number: u32) -> Result<Key, NoMemory>
    requires { number < 100 }
    ensures { IfOk result (λ key. key ≡ account number) }
{
    let mut bytes = Vec::new(alloc);
    bytes.push(b'a' + (number / 25) as u8)?;
    bytes.push(b'/')?;
    put_u64(alloc, &mut bytes, u64::from(number % 25))?;
    Key::new(alloc, bytes.as_slice())
}

/// The key of the account of a number.
pub(crate) fn key_of(rows: &[(Key, Value)], number: u32) -> &Key
    requires rows { rows.now ≡ map account_row account_numbers }
    requires number { number < 100 }
    ensures { result.now ≡ account number }
{
    &rows[number as usize].0
}

/// The key of the account of a number, as an argument of a call.
pub(crate) fn text_of(alloc: Global, rows: &[(Key, Value)], number: u32) -> Result<Value, NoMemory>
    requires rows { rows.now ≡ map account_row account_numbers }
    requires number { number < 100 }
    ensures { IfOk result (λ value. value ≡ Value.Text (account number)) }
{
    let key = key_of(rows, number);
    Ok(Value::Text(Str::new(alloc, key.bytes())?))
}
