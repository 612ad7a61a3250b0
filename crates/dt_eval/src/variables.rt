//! The variables of a run: the parameters, whose values are lent, and after them the lets.
ghost use Rattle.std.specs.Prelude.{◌≡◌, ◌<◌, ◌∷◌, ◌++◌, [], length, map, take, slice_get, Some, IfOk, IfSome, OnOk, OnErr};
ghost use Rattle.dt_eval.specs.declared.state.Datum.TheVariants.{Int};
ghost use Rattle.dt_eval.specs.Data.{datum_of};

use crate::state::Datum;
use dt_text::{NoMemory, Value};
use std::alloc::Global;
use std::marker::Model;

/// The variables of a run, in order: the parameters, and the lets that are visible. Contracts see what they stand for.
#[derive(Drop)]
pub(crate) struct Variables<'a> {
    args: &'a [Value],
    lets: Vec<Datum>,
}

impl<'a> Model for Variables<'a> {
    ghost use Rattle.std.specs.Prelude.{List, map, ◌++◌};
    ghost use Rattle.dt_eval.specs.declared.state.Datum.{Datum};
    ghost use Rattle.dt_eval.specs.Data.{datum_of};

    ghost Value = { List Datum };

    ghost view = { λ v. map datum_of v.args.now ++ v.lets.items };
}

impl<'a> Variables<'a> {
    /// The parameters with these arguments, and no let. Takes no memory.
    pub(crate) fn of(alloc: Global, args: &'a [Value]) -> Self
        ensures { result ≡ map datum_of args.now }
    {
        Variables {
            args,
            lets: Vec::new(alloc),
        }
    }

    /// What the variable of this number stands for.
    pub(crate) fn datum(&self, alloc: Global, variable: u32) -> Result<Datum, NoMemory>
        requires { variable < length self.now }
        ensures { IfOk result (λ datum. slice_get self.now variable ≡ Some datum) }
    {
        let place = variable as usize;
        if place < self.args.len() {
            return datum_of(alloc, &self.args[place]);
        }
        self.lets[place - self.args.len()].copy(alloc)
    }

    /// The number that the variable of this number stands for, if it is one. Takes no memory.
    pub(crate) fn number(&self, variable: u32) -> Option<i64>
        requires { variable < length self.now }
        ensures { IfSome result (λ number. slice_get self.now variable ≡ Some (Int number)) }
    {
        let place = variable as usize;
        if place < self.args.len() {
            return number_given(&self.args[place]);
        }
        number_of(&self.lets[place - self.args.len()])
    }

    /// How many variables there are.
    pub(crate) fn len(&self) -> usize
        ensures { result ≡ length self.now }
    {
        self.args.len() + self.lets.len()
    }

    /// Adds a let; after `NoMemory` the variables are as before.
    pub(crate) fn push(&mut self, datum: Datum) -> Result<(), NoMemory>
        ensures added { OnOk result (self.new ≡ self.old ++ datum ∷ []) }
        ensures same { OnErr result (self.new ≡ self.old) }
    {
        self.lets.push(datum)?;
        Ok(())
    }

    /// Forgets all variables but the first n. Takes no memory.
    pub(crate) fn truncate(&mut self, n: usize)
        ensures { self.new ≡ take n self.old }
    {
        if n < self.args.len() {
            self.args = &self.args[..n];
            self.lets.truncate(0);
        } else {
            self.lets.truncate(n - self.args.len());
        }
    }
}

/// A value, as an expression gives it.
fn datum_of(alloc: Global, value: &Value) -> Result<Datum, NoMemory>
    ensures { IfOk result (λ datum. datum ≡ datum_of value.now) }
{
    match value {
        Value::Int(number) => Ok(Datum::Int(*number)),
        Value::Text(text) => Ok(Datum::Text(text.copy(alloc)?)),
    }
}

/// The number that a value is, if it is one.
fn number_given(value: &Value) -> Option<i64>
    ensures { IfSome result (λ number. datum_of value.now ≡ Int number) }
{
    match value {
        Value::Int(number) => Some(*number),
        Value::Text(_) => None,
    }
}

/// The number that this is, if it is one.
fn number_of(datum: &Datum) -> Option<i64>
    ensures { IfSome result (λ number. datum.now ≡ Int number) }
{
    match datum {
        Datum::Int(number) => Some(*number),
        _ => None,
    }
}
