ghost use Rattle.std.specs.Prelude.{◌≡◌, ◌+◌, ◌-◌, ℕ, List, ◌<◌, ◌^◌, [], ◌∷◌, ◌++◌, length, take, OnOk, OnErr};
ghost use Rattle.std.specs.Ordering.{nat_cmp};
ghost use Rattle.std.specs.Cmp.Lexicographic.{slice_cmp};
ghost use Rattle.std.specs.BTreeMap.{get};
ghost use Rattle.dt_proc.specs.Names.{entry_of, meaning_in};
ghost use Rattle.dt_proc.specs.SecondPass.{is_unknown};
ghost use Rattle.dt_proc.specs.NumbersInner.{AreNumbers, is_number};
ghost use Rattle.dt_proc.specs.declared.tree.Sort.{Sort};

use crate::tree::Sort;
use dt_text::{Name, NoMemory};
use std::alloc::Global;
use std::collections::BTreeMap;
use std::marker::Model;

/// What a name means where it stands.
#[derive(Clone, Copy, Drop)]
pub(crate) enum Meaning {
    /// The variable of this number, which gives this.
    Variable(u32, Sort),
    /// The key of this number, and whether it may be written.
    Key(u32, bool),
    /// The name is not visible.
    Unknown,
}

/// What is visible: variables with what they give, and keys with whether they may be written.
///
/// There may be very many variables, so they are found by a map; the keys of a procedure are few.
#[derive(Drop)]
pub(crate) struct Scope {
    variables: Vec<(Name, Sort)>,
    /// For each name of a variable the first one that has it.
    numbers: BTreeMap<Name, (u32, Sort)>,
    keys: Vec<(Name, bool)>,
}

impl Model for Scope {
    ghost use Rattle.dt_proc.specs.Names as names;
    ghost use Rattle.std.specs.Prelude.{◌<◌, ◌^◌, length};
    ghost use Rattle.dt_proc.specs.NumbersInner.{AreNumbers};

    ghost Value = { names.Scope };

    ghost view = { λ s. record { variables = s.variables.items; keys = s.keys.items } };

    ghost invariant = { λ s. (length s.variables.items < 2 ^ 32) × (length s.keys.items < 2 ^ 32)
        × AreNumbers s.numbers s.variables.items };
}

impl Scope {
    /// Nothing is visible. Takes no memory.
    pub(crate) fn new(alloc: Global) -> Self
        ensures { result ≡ record { variables = []; keys = [] } }
    {
        Scope {
            variables: Vec::new(alloc),
            numbers: BTreeMap::new(alloc),
            keys: Vec::new(alloc),
        }
    }

    /// What a name means.
    pub(crate) fn meaning(&self, name: &Name) -> Meaning
        ensures { result ≡ meaning_in self.now name.now }
    {
        if let Some((number, sort)) = self.numbers.get(name) {
            return Meaning::Variable(*number, *sort);
        }
        match key_in(self.keys.as_slice(), name.bytes()) {
            Some((number, write)) => Meaning::Key(number, write),
            None => Meaning::Unknown,
        }
    }

    /// How many variables are visible.
    pub(crate) fn variables(&self) -> usize
        ensures { result ≡ length self.now.variables }
    {
        self.variables.len()
    }

    /// Adds a variable.
    pub(crate) fn add_variable(
        &mut self,
        alloc: Global,
        name: &Name,
        sort: Sort,
    ) -> Result<(), NoMemory>
        requires room { length self.old.variables + 1 < 2 ^ 32 }
        ensures { OnOk result (self.new ≡ record self.old { variables = self.old.variables ++ (name.now, sort) ∷ [] }) }
    {
        let number = self.variables.len() as u32;
        let entry = (name.copy(alloc)?, sort);
        self.variables.reserve(1)?;
        note_number(alloc, &mut self.numbers, name, number, sort)?;
        match self.variables.push(entry) {
            Ok(()) => Ok(()),
            Err(_) => unreachable!(),
        }
    }

    /// Adds a key.
    pub(crate) fn add_key(
        &mut self,
        alloc: Global,
        name: &Name,
        write: bool,
    ) -> Result<(), NoMemory>
        requires room { length self.old.keys + 1 < 2 ^ 32 }
        ensures { OnOk result (self.new ≡ record self.old { keys = self.old.keys ++ (name.now, write) ∷ [] }) }
    {
        self.keys.push((name.copy(alloc)?, write))?;
        Ok(())
    }

    /// Keeps the first variables alone.
    pub(crate) fn leave(&mut self, variables: usize)
        ensures { self.new ≡ record self.old { variables = take variables self.old.variables } }
    {
        while self.variables.len() > variables {
            self.leave_last();
        }
    }

    /// Removes the last variable, if there is one.
    fn leave_last(&mut self)
        ensures { self.new ≡ record self.old { variables = take (length self.old.variables - 1) self.old.variables } }
    {
        let Some((name, _)) = self.variables.pop() else {
            return;
        };
        if has_number(&self.numbers, &name, self.variables.len()) {
            self.numbers.remove(&name);
        }
    }
}

/// Whether a name is not visible.
pub(crate) fn is_new(scope: &Scope, name: &Name) -> bool
    ensures { result ≡ is_unknown (meaning_in scope.now name.now) }
{
    matches!(scope.meaning(name), Meaning::Unknown)
}

/// Notes the number of a variable, where none before it has its name.
fn note_number(
    alloc: Global,
    numbers: &mut BTreeMap<Name, (u32, Sort)>,
    name: &Name,
    number: u32,
    sort: Sort,
) -> Result<(), NoMemory>
    ensures added { (before : List (List ℕ × Sort)) → length before ≡ number → AreNumbers numbers.old before
        → OnOk result (AreNumbers numbers.new (before ++ (name.now, sort) ∷ [])) }
    ensures same { (before : List (List ℕ × Sort)) → AreNumbers numbers.old before → OnErr result (AreNumbers numbers.new before) }
{
    if !numbers.contains_key(name) {
        numbers.insert(name.copy(alloc)?, (number, sort))?;
    }
    Ok(())
}

/// Whether the first variable of a name has this number.
fn has_number(numbers: &BTreeMap<Name, (u32, Sort)>, name: &Name, number: usize) -> bool
    ensures { result ≡ is_number number (get (slice_cmp nat_cmp) numbers.now name.now) }
{
    match numbers.get(name) {
        Some((first, _)) => *first as usize == number,
        None => false,
    }
}

/// The key of a name, with its number.
fn key_in(entries: &[(Name, bool)], name: &[u8]) -> Option<(u32, bool)>
    requires { length entries.now < 2 ^ 32 }
    ensures { result ≡ entry_of entries.now name.now }
{
    for (i, entry) in entries.iter().enumerate() {
        if entry.0.bytes() == name {
            return Some((i as u32, entry.1));
        }
    }
    None
}
