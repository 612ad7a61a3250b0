ghost use Rattle.std.specs.Prelude.{◌≡◌, ◌↔◌, [], length, slice_get, Some, IfOk, IsTrue, option_copied, nat_eq};
ghost use Rattle.dt_proc.specs.TreeViews.{block_tree};
ghost use Rattle.dt_proc.specs.Sound.{IsSoundProc, AreProcs};
ghost use Rattle.dt_proc.specs.Tree.{ProcTree};
ghost use Rattle.std.specs.Cmp.Lexicographic.{pointwise};
ghost use Rattle.dt_proc.specs.Names.{place_of_name};

use crate::tree::{KeyDecl, Kind, Stmt, Stmts};
use dt_text::{Common, Listed, Name, NoMemory};
use std::alloc::Global;
use std::marker::Model;

/// A procedure. Contracts see its name, the kinds of its parameters, its keys and its statements.
#[derive(Drop)]
pub struct Proc {
    name: Name,
    params: Listed<Kind>,
    keys: Listed<KeyDecl>,
    body: Stmts,
}

impl Model for Proc {
    ghost use Rattle.dt_proc.specs.Tree.{ProcTree};
    ghost use Rattle.dt_proc.specs.TreeCodesInner.{coded_proc};
    ghost use Rattle.dt_proc.specs.Sound.{IsSoundProc};

    ghost Value = { ProcTree };

    ghost coded = { coded_proc };

    ghost view = { λ p. record { name = p.name; params = p.params; keys = p.keys; body = p.body } };

    ghost invariant = { λ p. IsSoundProc (record { name = p.name; params = p.params; keys = p.keys; body = p.body }) };
}

impl Proc {
    /// A procedure of these parts. Takes no memory.
    pub(crate) fn new(name: Name, params: Listed<Kind>, keys: Listed<KeyDecl>, body: Stmts) -> Self
        requires { IsSoundProc (record { name = name; params = params; keys = keys; body = body }) }
        ensures same { result ≡ record { name = name; params = params; keys = keys; body = body } }
        ensures sound { IsSoundProc result }
    {
        Proc {
            name,
            params,
            keys,
            body,
        }
    }

    /// The name.
    pub fn name(&self) -> &Name
        ensures same { result.now ≡ self.now.name }
        ensures sound { IsSoundProc self.now }
    {
        &self.name
    }

    /// The kinds of the parameters, in order.
    pub fn params(&self) -> &[Kind]
        ensures same { result.now ≡ self.now.params }
        ensures sound { IsSoundProc self.now }
    {
        self.params.as_slice()
    }

    /// The declarations of keys, in order.
    pub fn keys(&self) -> &[KeyDecl]
        ensures same { result.now ≡ self.now.keys }
        ensures sound { IsSoundProc self.now }
    {
        self.keys.as_slice()
    }

    /// The statements, in order.
    pub fn body(&self) -> &[Stmt]
        ensures same { block_tree result.now ≡ self.now.body }
        ensures sound { IsSoundProc self.now }
    {
        self.body.as_slice()
    }
}

/// Procedures, at most 64 and of distinct names, which copies have in common. Contracts see them as a list.
#[derive(Drop)]
pub struct Procs {
    items: Common<Vec<Proc>>,
}

impl Model for Procs {
    ghost use Rattle.std.specs.Prelude.{List};
    ghost use Rattle.dt_proc.specs.Tree.{ProcTree};
    ghost use Rattle.dt_proc.specs.TreeCodesInner.{coded_procs};
    ghost use Rattle.dt_proc.specs.Sound.{AreProcs};

    ghost Value = { List ProcTree };

    ghost coded = { coded_procs };

    ghost view = { λ p. p.items.items };

    ghost invariant = { λ p. AreProcs p.items.items };
}

impl Procs {
    /// These procedures, which have no copy yet.
    pub(crate) fn from_vec(alloc: Global, items: Vec<Proc>) -> Result<Self, NoMemory>
        requires { AreProcs items.items }
        ensures { IfOk result (λ procs. procs ≡ items.items) }
    {
        Ok(Procs {
            items: Common::new(alloc, items)?,
        })
    }

    /// Equal procedures. Takes no memory.
    pub fn copy(&self) -> Result<Self, NoMemory>
        ensures { IfOk result (λ copied. copied ≡ self.now) }
    {
        Ok(Procs {
            items: self.items.copy()?,
        })
    }

    /// The procedures, in order.
    pub(crate) fn as_slice(&self) -> &[Proc]
        ensures same { result.now ≡ self.now }
        ensures sound { AreProcs self.now }
    {
        self.items.get().as_slice()
    }

    /// The number of the procedure of this name, counted from 0; `None` exactly where there is none.
    pub fn find(&self, name: &[u8]) -> Option<u32>
        ensures { result ≡ place_of_name name.now self.now }
    {
        Some(place_in(self.as_slice(), name)? as u32)
    }

    /// How many procedures there are.
    pub fn len(&self) -> u32
        ensures { result ≡ length self.now }
    {
        self.as_slice().len() as u32
    }

    /// Whether there is no procedure.
    pub fn is_empty(&self) -> bool
        ensures { IsTrue result ↔ (self.now ≡ []) }
    {
        self.as_slice().is_empty()
    }

    /// The procedure of this number, counted from 0; `None` exactly where there is none.
    pub fn get(&self, index: u32) -> Option<&Proc>
        ensures { option_copied result ≡ slice_get self.now index }
    {
        self.as_slice().get(index as usize)
    }
}

/// Whether a procedure has this name.
pub(crate) fn is_named(item: &Proc, name: &[u8]) -> bool
    ensures { result ≡ pointwise nat_eq item.now.name name.now }
{
    item.name().bytes() == name
}

/// The place of the first procedure of this name.
fn place_in(items: &[Proc], name: &[u8]) -> Option<usize>
    ensures { result ≡ place_of_name name.now items.now }
{
    items.iter().position(|item| is_named(item, name))
}
