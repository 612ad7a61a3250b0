ghost use Rattle.std.specs.Prelude.{◌≡◌, ◌<◌, ◌+◌, ◌*◌, IfOk, map};
ghost use Rattle.dt_gen.specs.Draws.{state_after};
ghost use Rattle.dt_gen.specs.Load.{account, account_numbers, account_row, load_call, transfer_call, wanted_by};

use crate::accounts::{ACCOUNTS, key_of, text_of};
use crate::draws::Draws;
use dt_eval::Args;
use dt_text::{Key, NoMemory, Value};
use dt_workload::{Ranked, Wanted};
use std::alloc::Global;

/// The rank of each call and move.
const RANK: u8 = 5;

/// The number of `xfer` among the built-in procedures.
const XFER: u32 = 7;

/// Of every n calls the last one is a move.
const CALLS_TO_A_MOVE: u32 = 50;

/// A move leads to one of n regions.
const REGIONS: u32 = 4;

/// The largest amount of a transfer.
const LARGEST: u32 = 50;

/// Call `number`: draws its three numbers, and makes of them what it wants.
#[tactic(auto, using(crate::proofs::OneCallMore::three_draws))]
pub(crate) fn next_call(
    alloc: Global,
    rows: &[(Key, Value)],
    number: u32,
    draws: &mut Draws,
) -> Result<Ranked, NoMemory>
    requires rows { rows.now ≡ map account_row account_numbers }
    requires before { draws.old.state ≡ state_after (3 * number) }
    ensures call { IfOk result (λ call. call ≡ load_call number) }
    ensures after { draws.new.state ≡ state_after (3 * (number + 1)) }
{
    let first = draws.draw();
    let second = draws.draw();
    let third = draws.draw();
    Ok(Ranked {
        rank: RANK,
        wanted: wanted(alloc, rows, number, first, second, third)?,
    })
}

/// What call `number` wants, for which these numbers were drawn.
fn wanted(
    alloc: Global,
    rows: &[(Key, Value)],
    number: u32,
    first: u32,
    second: u32,
    third: u32,
) -> Result<Wanted, NoMemory>
    requires { rows.now ≡ map account_row account_numbers }
    ensures { IfOk result (λ wanted. wanted ≡ wanted_by number first second third) }
{
    let account = first % ACCOUNTS;
    if number % CALLS_TO_A_MOVE == CALLS_TO_A_MOVE - 1 {
        let key = key_of(rows, account).copy(alloc)?;
        return Ok(Wanted::Move(key, (second % REGIONS) as u8));
    }
    transfer(alloc, rows, account, second % ACCOUNTS, third % LARGEST + 1)
}

/// The call that transfers an amount from one account to another.
fn transfer(
    alloc: Global,
    rows: &[(Key, Value)],
    source: u32,
    target: u32,
    amount: u32,
) -> Result<Wanted, NoMemory>
    requires rows { rows.now ≡ map account_row account_numbers }
    requires source { source < 100 }
    requires target { target < 100 }
    ensures { IfOk result (λ wanted. wanted ≡ transfer_call source target amount) }
{
    let mut args = Vec::with_capacity(alloc, 3)?;
    args.push(text_of(alloc, rows, source)?)?;
    args.push(text_of(alloc, rows, target)?)?;
    args.push(Value::Int(i64::from(amount)))?;
    Ok(Wanted::Call(XFER, Args::from_vec(alloc, args)?))
}
