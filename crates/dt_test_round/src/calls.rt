//! Procedures as their text says them, and calls of them as their words do.
ghost use Rattle.std.specs.Prelude.{IfOk};
ghost use Rattle.dt_eval.specs.Calls.{CallFits};

use dt_eval::{Args, fits, keys_of};
use dt_proc::{Procs, read_procs};
use dt_text::{Str, Value, read_i64};
use std::alloc::Global;
use std::test::Fail;

/// A call: the name of a procedure, and the words of its arguments.
pub type Call<'a> = (&'a [u8], &'a [&'a [u8]]);

/// The procedures of a short text.
pub fn procs_of(alloc: Global, text: &[u8]) -> Result<Procs, Fail> {
    if text.len() > 1000000 {
        return Err(Fail::from("the text is short"));
    }
    Ok(read_procs(alloc, text)?)
}

/// The arguments that words stand for: a number, or else the text of its bytes.
fn arguments(alloc: Global, words: &[&[u8]]) -> Result<Args, Fail> {
    let mut arguments = Args::new(alloc);
    for word in words {
        if word.len() > 100 {
            return Err(Fail::from("a word is short"));
        }
        arguments.push(match read_i64(word) {
            Some(number) => Value::Int(number),
            None => Value::Text(Str::read(alloc, word)?),
        })?;
    }
    Ok(arguments)
}

/// The number of a call's procedure, and its arguments, which have to fit.
pub fn call_of(alloc: Global, procs: &Procs, call: Call) -> Result<(u32, Args), Fail>
    ensures { IfOk result (λ call. CallFits procs.now call.0 call.1) }
{
    let (name, words) = call;
    let Some(number) = procs.find(name) else {
        return Err(Fail::from("the procedure is there"));
    };
    let Some(body) = procs.get(number) else {
        return Err(Fail::from("the number is that of a procedure"));
    };
    let arguments = arguments(alloc, words)?;
    let _sound = body.params();
    if !fits(body, arguments.as_slice()) {
        return Err(Fail::from("the arguments fit"));
    }
    match keys_of(alloc, body, arguments.as_slice()) {
        Ok(_keys) => Ok((number, arguments)),
        Err(_) => Err(Fail::from("the arguments give keys")),
    }
}
