ghost use Rattle.std.specs.Prelude.{◌≡◌, ◌<◌, length, map, Ok, IfOk, OnOk, IfSome};
ghost use Rattle.dt_lists.specs.Lists.{AllIn};
ghost use Rattle.dt_proc.specs.declared.tree.Sort.{Sort};
ghost use Rattle.dt_proc.specs.declared.tree.Sort.TheVariants as sort;
ghost use Rattle.dt_proc.specs.TreeViews.{block_tree, expr_tree, give_tree, stmt_tree};
ghost use Rattle.dt_proc.specs.Sound.{IsSoundGift, IsStoredSort};
ghost use Rattle.dt_proc.specs.Tree.{binary, choose, let_new, set_row};
ghost use Rattle.dt_eval.specs.Data.{sort_of_datum};
ghost use Rattle.dt_eval.specs.declared.state.Datum.TheVariants.{Int, Bool as Truth};
ghost use Rattle.dt_eval.specs.FrameInner.{EvalAnswers, HasSortIn, IsSorted, IsSoundBlock, IsSoundStep, RunReaches, TestAnswers, seen, told_in};
ghost use Rattle.dt_eval.specs.Statements.{after_block, after_gifts, after_step, gift_value};

use crate::finish::Cause;
use crate::operators::{
    byte_count, compared, computed, decides, negated, number_at, number_in, of_numbers, operate,
    opposite, printed, stored, text_in, truth_of,
};
use crate::rows::Rows;
use crate::state::Datum;
use crate::stop::Stop;
use crate::values::Values;
use crate::variables::Variables;
use dt_proc::{Expr, Give, Op, Stmt, Stmts};
use dt_text::{Common, Value};
use std::alloc::Global;

/// What a run knows between two statements.
#[derive(Drop)]
pub(crate) struct Frame<'a> {
    /// The parameters, and the lets that are visible.
    pub(crate) variables: Variables<'a>,
    /// The rows of its keys.
    pub(crate) rows: Rows,
    /// The values given so far.
    pub(crate) given: Values,
}

impl Frame<'_> {
    /// What an expression gives. Operands are evaluated from the left, and the right one only where the left one does not
    /// decide.
    #[tactic(auto, using(crate::proofs::SortLaws::given_sort))]
    pub(crate) fn value_of(&self, alloc: Global, expr: &Expr) -> Result<Datum, Stop>
        requires { IsSorted self.now (expr_tree expr.now) }
        ensures answer { EvalAnswers (told_in self.now (expr_tree expr.now)) result }
        ensures sort { (s : Sort) → HasSortIn self.now (expr_tree expr.now) s → IfOk result (λ d. sort_of_datum d ≡ s) }
    {
        match expr {
            Expr::Int(number) => Ok(Datum::Int(*number)),
            Expr::Text(text) => Ok(Datum::Text(text.get().copy(alloc)?)),
            Expr::Bool(truth) => Ok(Datum::Bool(*truth)),
            Expr::Var(variable) => Ok(self.variables.datum(alloc, *variable)?),
            Expr::IntOf(key) => number_in(self.rows.value(*key)),
            Expr::TextOf(key) => text_in(alloc, self.rows.value(*key)),
            Expr::Has(key) => Ok(Datum::Bool(self.rows.value(*key).is_some())),
            Expr::Len(text) => Ok(byte_count(self.value_of(alloc, text)?)),
            Expr::Show(number) => printed(alloc, self.value_of(alloc, number)?),
            Expr::Neg(number) => Ok(negated(self.value_of(alloc, number)?)?),
            Expr::Not(truth) => Ok(opposite(self.value_of(alloc, truth)?)),
            Expr::Binary(op, left, right) => {
                if let Some(given) = self.of_known(*op, left, right) {
                    return Ok(given?);
                }
                let left = self.value_of(alloc, left)?;
                if decides(*op, &left) {
                    return Ok(left);
                }
                let right = self.value_of(alloc, right)?;
                operate(alloc, *op, left, right)
            }
        }
    }

    /// What an operator gives, if both operands are numbers that stand somewhere.
    #[tactic(auto, using(crate::proofs::NumberLaws::binary_numbers, crate::proofs::NumberLaws::takes_numbers))]
    fn of_known(&self, op: Op, left: &Expr, right: &Expr) -> Option<Result<Datum, Cause>>
        requires { IsSorted self.now (binary op (expr_tree left.now) (expr_tree right.now)) }
        ensures { IfSome result (λ given. told_in self.now (binary op (expr_tree left.now) (expr_tree right.now)) ≡ given) }
    {
        let left = self.known(left)?;
        let right = self.known(right)?;
        Some(of_numbers(op, left, right))
    }

    /// The number that an expression gives, if it is one that stands there, or in a variable or a row.
    fn known(&self, expr: &Expr) -> Option<i64>
        requires { IsSorted self.now (expr_tree expr.now) }
        ensures { IfSome result (λ number. told_in self.now (expr_tree expr.now) ≡ Ok (Int number)) }
    {
        match expr {
            Expr::Int(number) => Some(*number),
            Expr::Var(variable) => self.variables.number(*variable),
            Expr::IntOf(key) => number_at(self.rows.value(*key)),
            _ => None,
        }
    }

    /// What an expression gives, as `value_of` says. A number that needs no memory is not moved through several calls.
    fn given_by(&self, alloc: Global, expr: &Expr) -> Result<Datum, Stop>
        requires { IsSorted self.now (expr_tree expr.now) }
        ensures answer { EvalAnswers (told_in self.now (expr_tree expr.now)) result }
        ensures sort { (s : Sort) → HasSortIn self.now (expr_tree expr.now) s → IfOk result (λ d. sort_of_datum d ≡ s) }
    {
        match self.number(expr) {
            Some(number) => Ok(Datum::Int(number)),
            None => self.value_of(alloc, expr),
        }
    }

    /// The number that an expression gives, if it is known, or a sum, a difference or a product of two that are.
    #[tactic(auto, using(crate::proofs::NumberLaws::binary_numbers))]
    fn number(&self, expr: &Expr) -> Option<i64>
        requires { IsSorted self.now (expr_tree expr.now) }
        ensures { IfSome result (λ number. told_in self.now (expr_tree expr.now) ≡ Ok (Int number)) }
    {
        match expr {
            Expr::Binary(op, left, right) => {
                let left = self.known(left)?;
                let right = self.known(right)?;
                computed(*op, left, right)
            }
            _ => self.known(expr),
        }
    }

    /// Whether the test of a choice holds.
    fn holds(&self, alloc: Global, test: &Expr) -> Result<bool, Stop>
        requires { HasSortIn self.now (expr_tree test.now) sort.Bool }
        ensures { TestAnswers (told_in self.now (expr_tree test.now)) result }
    {
        match self.comparison(test) {
            Some(truth) => Ok(truth),
            None => Ok(truth_of(self.value_of(alloc, test)?)),
        }
    }

    /// The truth that an expression gives, if it compares two numbers that are known.
    #[tactic(auto, using(crate::proofs::NumberLaws::binary_numbers))]
    fn comparison(&self, expr: &Expr) -> Option<bool>
        requires { IsSorted self.now (expr_tree expr.now) }
        ensures { IfSome result (λ truth. told_in self.now (expr_tree expr.now) ≡ Ok (Truth truth)) }
    {
        match expr {
            Expr::Binary(op, left, right) => {
                let left = self.known(left)?;
                let right = self.known(right)?;
                compared(*op, left, right)
            }
            _ => None,
        }
    }

    /// Runs a statement.
    #[cycle(running)]
    #[tactic(auto, using(crate::proofs::FrameLaws::step_let, crate::proofs::FrameLaws::step_set_key, crate::proofs::FrameLaws::step_set_value, crate::proofs::FrameLaws::step_clear_key, crate::proofs::FrameLaws::step_gifts))]
    fn step(&mut self, alloc: Global, stmt: &Stmt) -> Result<(), Stop>
        requires { IsSoundStep self.old (stmt_tree stmt.now) }
        ensures answer { RunReaches (after_step self.old.rows.0 (stmt_tree stmt.now) (seen self.old)) self.new result }
        ensures names { OnOk result (self.new.rows.0 ≡ self.old.rows.0) }
    {
        match stmt {
            Stmt::Let(value) => self.bind(alloc, value),
            Stmt::Set(key, value) => self.set(alloc, *key, value),
            Stmt::Clear(key) => {
                self.rows.change(*key, None);
                Ok(())
            }
            Stmt::If(test, then, otherwise) => self.choose(alloc, test, then, otherwise),
            Stmt::Abort(text) => {
                let word = Common::new(alloc, text.copy(alloc)?)?;
                Err(Stop::Aborted(Cause::Word(word)))
            }
            Stmt::Give(items) => self.give(alloc, items.as_slice()),
        }
    }

    /// Runs statements in order, up to the first that aborts.
    #[cycle(running)]
    pub(crate) fn block(&mut self, alloc: Global, stmts: &[Stmt]) -> Result<(), Stop>
        requires { IsSoundBlock self.old (block_tree stmts.now) }
        ensures answer { RunReaches (after_block self.old.rows.0 (block_tree stmts.now) (seen self.old)) self.new result }
        ensures names { OnOk result (self.new.rows.0 ≡ self.old.rows.0) }
    {
        for stmt in stmts {
            self.step(alloc, stmt)?;
        }
        Ok(())
    }

    /// Runs the one block or the other, and forgets its lets.
    #[cycle(running)]
    fn choose(
        &mut self,
        alloc: Global,
        test: &Expr,
        then: &Stmts,
        otherwise: &Stmts,
    ) -> Result<(), Stop>
        requires { IsSoundStep self.old (choose (expr_tree test.now) then.now otherwise.now) }
        ensures answer { RunReaches (after_step self.old.rows.0 (choose (expr_tree test.now) then.now otherwise.now) (seen self.old)) self.new result }
        ensures names { OnOk result (self.new.rows.0 ≡ self.old.rows.0) }
    {
        let visible = self.variables.len();
        if self.holds(alloc, test)? {
            self.block(alloc, then.as_slice())?;
        } else {
            self.block(alloc, otherwise.as_slice())?;
        }
        self.variables.truncate(visible);
        Ok(())
    }

    /// Gives a new variable the value of an expression.
    fn bind(&mut self, alloc: Global, value: &Expr) -> Result<(), Stop>
        requires { IsSorted self.old (expr_tree value.now) }
        ensures answer { RunReaches (after_step self.old.rows.0 (let_new (expr_tree value.now)) (seen self.old)) self.new result }
        ensures names { OnOk result (self.new.rows.0 ≡ self.old.rows.0) }
    {
        let value = self.given_by(alloc, value)?;
        self.variables.push(value)?;
        Ok(())
    }

    /// Gives the row of a key the value of an expression.
    fn set(&mut self, alloc: Global, key: u32, value: &Expr) -> Result<(), Stop>
        requires key { key < length self.old.rows.0 }
        requires value { (s : Sort) × IsStoredSort s × HasSortIn self.old (expr_tree value.now) s }
        ensures answer { RunReaches (after_step self.old.rows.0 (set_row key (expr_tree value.now)) (seen self.old)) self.new result }
        ensures names { OnOk result (self.new.rows.0 ≡ self.old.rows.0) }
    {
        let value = stored(self.given_by(alloc, value)?);
        self.rows.change(key, Some(value));
        Ok(())
    }

    /// Adds the values of the items to the result, in order.
    fn give(&mut self, alloc: Global, items: &[Give]) -> Result<(), Stop>
        requires { AllIn (IsSoundGift (map sort_of_datum self.old.variables) (length self.old.rows.0)) (map give_tree items.now) }
        ensures answer { RunReaches (after_gifts self.old.rows.0 (map give_tree items.now) (seen self.old)) self.new result }
        ensures names { OnOk result (self.new.rows.0 ≡ self.old.rows.0) }
    {
        self.given.reserve(items.len())?;
        for item in items {
            let value = self.gift(alloc, item)?;
            self.given.push(value)?;
        }
        Ok(())
    }

    /// What an item adds to the result.
    fn gift(&self, alloc: Global, item: &Give) -> Result<Option<Value>, Stop>
        requires { IsSoundGift (map sort_of_datum self.now.variables) (length self.now.rows.0) (give_tree item.now) }
        ensures { EvalAnswers (gift_value self.now.rows.0 (give_tree item.now) (seen self.now)) result }
    {
        match item {
            Give::Row(key) => match self.rows.value(*key) {
                Some(value) => Ok(Some(value.copy(alloc)?)),
                None => Ok(None),
            },
            Give::Value(value) => Ok(Some(stored(self.given_by(alloc, value)?))),
        }
    }
}
