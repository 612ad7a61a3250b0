ghost use Rattle.std.specs.Prelude.{◌≡◌, OnOk, OnErr};
ghost use Rattle.dt_proc.specs.Tree.{done, then, joined};
ghost use Rattle.dt_proc.specs.TreeViews.{stmt_tree, block_tree};

use dt_syntax::Apart;
pub use dt_syntax::{Kind, Op};
use dt_text::{Listed, NoMemory, Str};
use std::alloc::Global;
use std::marker::Model;

/// What an expression gives.
#[derive(Clone, Copy, Debug, PartialEq, Eq)]
pub enum Sort {
    /// A number of 64 bits with a sign.
    Int,
    /// A text.
    Text,
    /// A truth.
    Bool,
}

/// An expression. Its texts and operands lie elsewhere, so that it takes little memory.
#[derive(Drop)]
pub enum Expr {
    /// A number.
    Int(i64),
    /// A text.
    Text(Apart<Str>),
    /// `true` or `false`.
    Bool(bool),
    /// A parameter or a `let`, by its number among those that are visible.
    Var(u32),
    /// The number in the row of a key.
    IntOf(u32),
    /// The text in the row of a key.
    TextOf(u32),
    /// Whether the row of a key has a value.
    Has(u32),
    /// The number of bytes of a text.
    Len(Box<Expr>),
    /// The printed form of a number.
    Show(Box<Expr>),
    /// The number with the other sign.
    Neg(Box<Expr>),
    /// Whether the operand is false.
    Not(Box<Expr>),
    /// An operator between two operands.
    Binary(Op, Box<Expr>, Box<Expr>),
}

/// What `give` adds to the result.
#[derive(Drop)]
pub enum Give {
    /// The value of a key's row, or none.
    Row(u32),
    /// The value of an expression.
    Value(Expr),
}

/// What one `give` adds, in order.
pub type Gives = Listed<Give>;

/// A part of a key expression.
#[derive(Drop)]
pub enum KeyItem {
    /// This text.
    Text(Str),
    /// The text that is passed for the parameter of this number.
    Param(u32),
    /// The printed form of the number that is passed for the parameter of this number.
    Show(u32),
}

/// The parts of a key expression, in order.
pub type KeyItems = Listed<KeyItem>;

/// The declaration of a key.
#[derive(Drop)]
pub struct KeyDecl {
    /// Whether the key may be set and cleared.
    pub write: bool,
    /// What the key is joined of.
    pub items: KeyItems,
}

/// A statement.
#[cycle(stmts)]
#[derive(Drop)]
pub enum Stmt {
    /// Gives a new variable the value of the expression.
    Let(Expr),
    /// Gives the row of a key the value of the expression.
    Set(u32, Expr),
    /// Gives the row of a key no value.
    Clear(u32),
    /// Runs the first block where the expression is true, else the second.
    If(Expr, Stmts, Stmts),
    /// Ends the run with this text, and without writes.
    Abort(Str),
    /// Adds values to the result.
    Give(Gives),
}

/// Statements, in order.
#[cycle(stmts)]
#[derive(Drop)]
pub struct Stmts {
    items: Vec<Stmt>,
}

impl Model for Stmts {
    ghost use Rattle.dt_proc.specs.Tree.{BlockTree};
    ghost use Rattle.dt_proc.specs.TreeCodesInner.{coded_block};

    ghost Value = { BlockTree };

    ghost coded = { coded_block };

    ghost use Rattle.dt_proc.specs.TreeViews.{block_tree, block_size};

    ghost view = { λ s. block_tree s.items.items };

    ghost size = { block_size };

    ghost use Rattle.dt_proc.specs.BlockSizesInner.{deep_block};
    ghost use Rattle.std.proofs.Common.{arith};

    ghost size_decreases = { λ a h. omega (arith, deep_block a.items.items) };
}

impl Stmts {
    /// No statement. Takes no memory.
    pub fn new(alloc: Global) -> Self
        ensures { result ≡ done }
    {
        Stmts {
            items: Vec::new(alloc),
        }
    }

    /// Adds a statement at the back; after `NoMemory` the statements are as before.
    #[tactic(auto, using(crate::proofs::BlockJoin::with_last))]
    pub fn push(&mut self, item: Stmt) -> Result<(), NoMemory>
        ensures added { OnOk result (self.new ≡ joined self.old (then (stmt_tree item) done)) }
        ensures same { OnErr result (self.new ≡ self.old) }
    {
        self.items.push(item)?;
        Ok(())
    }

    /// The statements, in order. Takes no memory.
    pub fn as_slice(&self) -> &[Stmt]
        ensures { block_tree result.now ≡ self.now }
    {
        self.items.as_slice()
    }
}
