//! What is counted of the tokens so far.

ghost use Rattle.std.specs.Prelude.{◌≡◌, ◌+◌, ◌-◌, ◌≤◌, ◌^◌, [], ◌∷◌, List, if◌then◌else◌};
ghost use Rattle.dt_syntax.specs.declared.token.Placed.{Placed};
ghost use Rattle.dt_syntax.specs.FirstPass as passes;
ghost use Rattle.dt_syntax.specs.CountsInner.{AreAtMost, counts_of};

use crate::token::Token;

/// Counts of the tokens so far.
#[derive(Drop)]
pub(crate) struct Counts {
    /// Procedures that have begun.
    procs: usize,
    /// Whether the last token is `proc`.
    after_proc: bool,
    /// Whether the last token is `read` or `write`.
    after_mode: bool,
    /// `)` of the procedure.
    closed: usize,
    /// Commas of the procedure.
    commas: usize,
    /// `read` and `write` of the procedure.
    modes: usize,
    /// Tokens of an expression in a row.
    row: usize,
    /// Open brackets of the procedure.
    brackets: usize,
}

impl Counts {
    /// There is no token yet.
    pub(crate) fn new() -> Self
        ensures { result ≡ counts_of [] }
    {
        Counts {
            procs: 0,
            after_proc: false,
            after_mode: false,
            closed: 0,
            commas: 0,
            modes: 0,
            row: 0,
            brackets: 0,
        }
    }

    /// Whether the next token is one too many.
    pub(crate) fn is_too_many(&self, token: &Token) -> bool
        ensures { (earlier : List Placed) → self.now ≡ counts_of earlier → result ≡ passes.is_too_many earlier token.now }
    {
        let name = is_name(token);
        name && self.after_proc && self.procs > 64
            || name && self.closed == 0 && self.commas >= 16
            || name && self.after_mode && self.modes > 16
            || is_of_expression(token) && self.row >= 256
            || is_opening(token) && self.brackets >= 64
    }

    /// Counts a token.
    pub(crate) fn add(&mut self, token: &Token)
        requires { AreAtMost (2 ^ 32) self.old }
        ensures { (earlier : List Placed) (t : Placed) → self.old ≡ counts_of earlier → t.token ≡ token.now → self.new ≡ counts_of (t ∷ earlier) }
    {
        let proc = is_proc(token);
        let mode = is_mode(token);
        self.procs = counted(proc, self.procs);
        self.closed = counted_in_proc(proc, is_close(token), self.closed);
        self.commas = counted_in_proc(proc, is_comma(token), self.commas);
        self.modes = counted_in_proc(proc, mode, self.modes);
        self.row = counted_in_proc(!is_of_expression(token), true, self.row);
        self.brackets = bracketed(token, self.brackets);
        self.after_proc = proc;
        self.after_mode = mode;
    }
}

/// One more, where it is to be counted.
fn counted(yes: bool, count: usize) -> usize
    requires { count ≤ 2 ^ 32 }
    ensures { result ≡ (if yes then count + 1 else count) }
{
    if yes { count + 1 } else { count }
}

/// The count of the procedure, which begins anew with a `proc`.
fn counted_in_proc(proc: bool, yes: bool, count: usize) -> usize
    requires { count ≤ 2 ^ 32 }
    ensures { result ≡ (if proc then 0 else (if yes then count + 1 else count)) }
{
    if proc { 0 } else { counted(yes, count) }
}

/// The open brackets of the procedure after a token.
fn bracketed(token: &Token, count: usize) -> usize
    requires { count ≤ 2 ^ 32 }
    ensures { result ≡ (if passes.is_proc token.now then 0 else (if passes.is_opening token.now then count + 1
        else (if passes.is_closing token.now then count - 1 else count))) }
{
    if is_proc(token) {
        0
    } else if is_opening(token) {
        count + 1
    } else if is_closing(token) {
        count.saturating_sub(1)
    } else {
        count
    }
}

fn is_proc(token: &Token) -> bool
    ensures { result ≡ passes.is_proc token.now }
{
    matches!(token, Token::Proc)
}

fn is_mode(token: &Token) -> bool
    ensures { result ≡ passes.is_mode token.now }
{
    match token {
        Token::Read => true,
        Token::Write => true,
        _ => false,
    }
}

fn is_name(token: &Token) -> bool
    ensures { result ≡ passes.is_name token.now }
{
    matches!(token, Token::Name(_))
}

fn is_comma(token: &Token) -> bool
    ensures { result ≡ passes.is_comma token.now }
{
    matches!(token, Token::Comma)
}

fn is_close(token: &Token) -> bool
    ensures { result ≡ passes.is_close token.now }
{
    matches!(token, Token::Close)
}

/// A `(` or `{`.
fn is_opening(token: &Token) -> bool
    ensures { result ≡ passes.is_opening token.now }
{
    match token {
        Token::Open => true,
        Token::Begin => true,
        _ => false,
    }
}

/// A `)` or `}`.
fn is_closing(token: &Token) -> bool
    ensures { result ≡ passes.is_closing token.now }
{
    match token {
        Token::Close => true,
        Token::End => true,
        _ => false,
    }
}

/// Whether a token can stand in an expression.
fn is_of_expression(token: &Token) -> bool
    ensures { result ≡ passes.is_of_expression token.now }
{
    match token {
        Token::Proc => false,
        Token::Read => false,
        Token::Write => false,
        Token::Let => false,
        Token::Set => false,
        Token::Clear => false,
        Token::If => false,
        Token::Else => false,
        Token::Abort => false,
        Token::Give => false,
        Token::Row => false,
        Token::Begin => false,
        Token::End => false,
        Token::Comma => false,
        Token::Semicolon => false,
        Token::Colon => false,
        Token::Is => false,
        _ => true,
    }
}
