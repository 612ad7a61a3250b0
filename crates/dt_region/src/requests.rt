ghost use Rattle.std.specs.Prelude.{◌≡◌, ◌<◌, List, [], ◌∷◌, ◌++◌, get_or, set, vec_len, OnOk, OnErr};
ghost use Rattle.dt_lists.specs.Lists.{AllIn};
ghost use Rattle.dt_access.specs.declared.TxnId.{TxnId};
ghost use Rattle.dt_txn.specs.HomesAsked.{ask};

use dt_access::{Ids, TxnId};
use dt_text::NoMemory;

/// Asks each of the homes to place an id, one after another; after `NoMemory` none of them is asked.
pub fn ask(asked: &mut Vec<Ids>, homes: &[u8], id: TxnId) -> Result<(), NoMemory>
    requires { AllIn (λ home. home < vec_len asked.old) homes.now }
    ensures len { vec_len asked.new ≡ vec_len asked.old }
    ensures ok { OnOk result (asked.new.items ≡ ask homes.now id asked.old.items) }
    ensures err { OnErr result (asked.new.items ≡ asked.old.items) }
{
    let Some((home, others)) = homes.split_first() else {
        return Ok(());
    };
    ask_one(asked, *home, id)?;
    if let Err(error) = ask(asked, others, id) {
        take_back(asked, *home);
        return Err(error);
    }
    Ok(())
}

// Asks one home to place an id.
fn ask_one(asked: &mut Vec<Ids>, home: u8, id: TxnId) -> Result<(), NoMemory>
    requires { home < vec_len asked.old }
    ensures len { vec_len asked.new ≡ vec_len asked.old }
    ensures ok { OnOk result (asked.new.items ≡ set asked.old.items home (get_or asked.old.items home [] ++ id ∷ [])) }
    ensures err { OnErr result (asked.new.items ≡ asked.old.items) }
{
    let ids = &mut asked[home as usize];
    ids.push(id)
}

// Takes back the last id that a home was asked to place.
fn take_back(asked: &mut Vec<Ids>, home: u8)
    requires { home < vec_len asked.old }
    ensures len { vec_len asked.new ≡ vec_len asked.old }
    ensures taken { (lists : List (List TxnId)) (id : TxnId) → asked.old.items ≡ set lists home (get_or lists home [] ++ id ∷ []) → asked.new.items ≡ lists }
{
    let ids = &mut asked[home as usize];
    ids.pop();
}
