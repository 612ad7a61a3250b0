//! The machine that says at each token whether some procedures begin with the tokens so far.

ghost use Rattle.std.specs.Prelude.{◌≡◌, ◌++◌, reverse, IfOk, OnOk};
ghost use Rattle.dt_syntax.specs.MachineInner as machine;

use crate::operator::Op;
use crate::token::Token;
use dt_text::NoMemory;

/// What may come next: a part of the grammar.
#[derive(Clone, Copy, Drop)]
pub(crate) enum Sym {
    /// Procedures, up to the end of the text.
    Procs,
    /// A name.
    Name,
    /// A text.
    Text,
    /// `(`
    Open,
    /// `)`
    Close,
    /// `{`
    Begin,
    /// `:`
    Colon,
    /// `=`
    Is,
    /// `;`
    Semicolon,
    /// Parameters up to and with the `)`.
    Params,
    /// More parameters, each after a `,`, up to and with the `)`.
    MoreParams,
    /// `int` or `text`.
    Kind,
    /// The first declaration of a key, and then the others and the block.
    Keys,
    /// More declarations of keys, and then the block.
    MoreKeys,
    /// A part of a key expression.
    Part,
    /// More parts, each after a `++`, up to and with the `;`.
    MoreParts,
    /// Statements up to and with the `}`.
    Statements,
    /// The same, with an `else` and its block before them where there is one.
    AfterIf,
    /// An item of `give`.
    Item,
    /// More items, each after a `,`, up to and with the `;`.
    MoreItems,
    /// An expression of this level.
    Level(u8),
    /// More operands of an expression of this level, each after an operator.
    Tail(u8),
}

/// What a token does to the part that is expected.
#[derive(Drop)]
enum Step<'a> {
    /// It is taken, and these parts are expected after it, and then more operands down to the level.
    Takes(&'a [Sym], u8),
    /// The part ends before it.
    Passes,
    /// It cannot stand there.
    Refuses,
}

/// What may follow an operand of an expression of the level.
fn tails(level: u8) -> &'static [Sym]
    ensures { result.now ≡ machine.tails level }
{
    match level {
        0 => &[
            Sym::Tail(4),
            Sym::Tail(3),
            Sym::Tail(2),
            Sym::Tail(1),
            Sym::Tail(0),
        ],
        1 => &[Sym::Tail(4), Sym::Tail(3), Sym::Tail(2), Sym::Tail(1)],
        2 => &[Sym::Tail(4), Sym::Tail(3), Sym::Tail(2)],
        3 => &[Sym::Tail(4), Sym::Tail(3)],
        4 => &[Sym::Tail(4)],
        _ => &[],
    }
}

/// The level whose operands have nothing after them.
const NO_TAIL: u8 = 5;

/// The token is what was expected.
const TAKEN: Step<'static> = Step::Takes(&[], NO_TAIL);

/// What an operator makes of what is expected.
fn after_operator(op: Op) -> &'static [Sym]
    ensures { result.now ≡ machine.after_operator op }
{
    match op {
        Op::Or => &[Sym::Level(1), Sym::Tail(0)],
        Op::And => &[Sym::Level(2), Sym::Tail(1)],
        Op::Equal => &[Sym::Level(3)],
        Op::Differ => &[Sym::Level(3)],
        Op::Less => &[Sym::Level(3)],
        Op::AtMost => &[Sym::Level(3)],
        Op::More => &[Sym::Level(3)],
        Op::AtLeast => &[Sym::Level(3)],
        Op::Add => &[Sym::Level(4), Sym::Tail(3)],
        Op::Sub => &[Sym::Level(4), Sym::Tail(3)],
        Op::Join => &[Sym::Level(4), Sym::Tail(3)],
        Op::Mul => &[Sym::Level(5), Sym::Tail(4)],
        Op::Div => &[Sym::Level(5), Sym::Tail(4)],
        Op::Rem => &[Sym::Level(5), Sym::Tail(4)],
    }
}

/// What a token does where an expression of the level is expected.
fn operand(level: u8, token: &Token) -> Step<'static>
    ensures { machine.turn_of result ≡ machine.operand level token.now }
{
    match token {
        Token::Int(_) => Step::Takes(&[], level),
        Token::Text(_) => Step::Takes(&[], level),
        Token::Truth(_) => Step::Takes(&[], level),
        Token::Name(_) => Step::Takes(&[], level),
        Token::Open => Step::Takes(&[Sym::Level(0), Sym::Close], level),
        Token::IntWord => Step::Takes(&[Sym::Open, Sym::Name, Sym::Close], level),
        Token::TextWord => Step::Takes(&[Sym::Open, Sym::Name, Sym::Close], level),
        Token::Has => Step::Takes(&[Sym::Open, Sym::Name, Sym::Close], level),
        Token::Len => Step::Takes(&[Sym::Open, Sym::Level(0), Sym::Close], level),
        Token::Show => Step::Takes(&[Sym::Open, Sym::Level(0), Sym::Close], level),
        Token::Not => prefix(level),
        Token::Op(op) => match op {
            Op::Sub => prefix(level),
            _ => Step::Refuses,
        },
        _ => Step::Refuses,
    }
}

/// What `-` and `not` do where an expression of the level is expected.
fn prefix(level: u8) -> Step<'static>
    ensures { machine.turn_of result ≡ machine.prefix level }
{
    if level <= 5 {
        Step::Takes(&[Sym::Level(6)], level)
    } else {
        Step::Refuses
    }
}

/// What a token does after an operand, where an operator of the level may follow.
fn operator(level: u8, token: &Token) -> Step<'static>
    ensures { machine.turn_of result ≡ machine.operator level token.now }
{
    match token {
        Token::Op(op) => {
            if op.level() == level {
                Step::Takes(after_operator(*op), NO_TAIL)
            } else {
                Step::Passes
            }
        }
        _ => Step::Passes,
    }
}

/// What a token does where a statement or a `}` is expected.
fn statement(token: &Token) -> Step<'static>
    ensures { machine.turn_of result ≡ machine.statement token.now }
{
    match token {
        Token::Let => Step::Takes(ASSIGNMENT, NO_TAIL),
        Token::Set => Step::Takes(ASSIGNMENT, NO_TAIL),
        Token::Clear => Step::Takes(&[Sym::Name, Sym::Semicolon, Sym::Statements], NO_TAIL),
        Token::If => Step::Takes(
            &[Sym::Level(0), Sym::Begin, Sym::Statements, Sym::AfterIf],
            NO_TAIL,
        ),
        Token::Abort => Step::Takes(&[Sym::Text, Sym::Semicolon, Sym::Statements], NO_TAIL),
        Token::Give => Step::Takes(&[Sym::Item, Sym::MoreItems, Sym::Statements], NO_TAIL),
        Token::End => TAKEN,
        _ => Step::Refuses,
    }
}

/// What follows `let` and `set`.
const ASSIGNMENT: &[Sym] = &[
    Sym::Name,
    Sym::Is,
    Sym::Level(0),
    Sym::Semicolon,
    Sym::Statements,
];

/// What follows the word of a key.
const KEY: &[Sym] = &[Sym::Name, Sym::Is, Sym::Part, Sym::MoreParts, Sym::MoreKeys];

/// What a token does in the head of a procedure.
fn head(sym: Sym, token: &Token) -> Step<'static>
    requires { machine.IsHeadSym sym }
    ensures { machine.turn_of result ≡ machine.turn sym token.now }
{
    match sym {
        Sym::Procs => match token {
            Token::Proc => Step::Takes(
                &[Sym::Name, Sym::Open, Sym::Params, Sym::Keys, Sym::Procs],
                NO_TAIL,
            ),
            _ => Step::Refuses,
        },
        Sym::Params => match token {
            Token::Name(_) => Step::Takes(&[Sym::Colon, Sym::Kind, Sym::MoreParams], NO_TAIL),
            Token::Close => TAKEN,
            _ => Step::Refuses,
        },
        Sym::MoreParams => match token {
            Token::Comma => Step::Takes(
                &[Sym::Name, Sym::Colon, Sym::Kind, Sym::MoreParams],
                NO_TAIL,
            ),
            Token::Close => TAKEN,
            _ => Step::Refuses,
        },
        Sym::Kind => match token {
            Token::IntWord => TAKEN,
            Token::TextWord => TAKEN,
            _ => Step::Refuses,
        },
        Sym::Keys => match token {
            Token::Read => Step::Takes(KEY, NO_TAIL),
            Token::Write => Step::Takes(KEY, NO_TAIL),
            _ => Step::Refuses,
        },
        Sym::MoreKeys => match token {
            Token::Read => Step::Takes(KEY, NO_TAIL),
            Token::Write => Step::Takes(KEY, NO_TAIL),
            Token::Begin => Step::Takes(&[Sym::Statements], NO_TAIL),
            _ => Step::Refuses,
        },
        _ => part(sym, token),
    }
}

/// What a token does in a key expression.
fn part(sym: Sym, token: &Token) -> Step<'static>
    requires { machine.IsKeyPartSym sym }
    ensures { machine.turn_of result ≡ machine.turn sym token.now }
{
    match sym {
        Sym::Part => match token {
            Token::Text(_) => TAKEN,
            Token::Name(_) => TAKEN,
            Token::Show => Step::Takes(&[Sym::Open, Sym::Name, Sym::Close], NO_TAIL),
            _ => Step::Refuses,
        },
        Sym::MoreParts => match token {
            Token::Op(op) => match op {
                Op::Join => Step::Takes(&[Sym::Part, Sym::MoreParts], NO_TAIL),
                _ => Step::Refuses,
            },
            Token::Semicolon => TAKEN,
            _ => Step::Refuses,
        },
        _ => unreachable!(),
    }
}

/// What a token does where one token is expected.
fn single(sym: Sym, token: &Token) -> Step<'static>
    requires { machine.IsSingleSym sym }
    ensures { machine.turn_of result ≡ machine.turn sym token.now }
{
    match sym {
        Sym::Name => match token {
            Token::Name(_) => TAKEN,
            _ => Step::Refuses,
        },
        Sym::Text => match token {
            Token::Text(_) => TAKEN,
            _ => Step::Refuses,
        },
        Sym::Open => match token {
            Token::Open => TAKEN,
            _ => Step::Refuses,
        },
        Sym::Close => match token {
            Token::Close => TAKEN,
            _ => Step::Refuses,
        },
        Sym::Begin => match token {
            Token::Begin => TAKEN,
            _ => Step::Refuses,
        },
        Sym::Colon => match token {
            Token::Colon => TAKEN,
            _ => Step::Refuses,
        },
        Sym::Is => match token {
            Token::Is => TAKEN,
            _ => Step::Refuses,
        },
        Sym::Semicolon => match token {
            Token::Semicolon => TAKEN,
            _ => Step::Refuses,
        },
        _ => unreachable!(),
    }
}

/// What a token does to the part that is expected.
fn turn(sym: Sym, token: &Token) -> Step<'static>
    ensures { machine.turn_of result ≡ machine.turn sym token.now }
{
    match sym {
        Sym::Level(level) => operand(level, token),
        Sym::Tail(level) => operator(level, token),
        Sym::Statements => statement(token),
        Sym::AfterIf => match token {
            Token::Else => Step::Takes(&[Sym::Begin, Sym::Statements, Sym::Statements], NO_TAIL),
            _ => statement(token),
        },
        Sym::Item => match token {
            Token::Row => Step::Takes(&[Sym::Open, Sym::Name, Sym::Close], NO_TAIL),
            _ => operand(0, token),
        },
        Sym::MoreItems => match token {
            Token::Comma => Step::Takes(&[Sym::Item, Sym::MoreItems], NO_TAIL),
            Token::Semicolon => TAKEN,
            _ => Step::Refuses,
        },
        Sym::Name => single(sym, token),
        Sym::Text => single(sym, token),
        Sym::Open => single(sym, token),
        Sym::Close => single(sym, token),
        Sym::Begin => single(sym, token),
        Sym::Colon => single(sym, token),
        Sym::Is => single(sym, token),
        Sym::Semicolon => single(sym, token),
        _ => head(sym, token),
    }
}

/// Puts parts on the stack, the first of them on top.
fn push_all(stack: &mut Vec<Sym>, parts: &[Sym]) -> Result<(), NoMemory>
    ensures { OnOk result (reverse stack.new.items ≡ parts.now ++ reverse stack.old.items) }
{
    stack.extend(parts.iter().rev())?;
    Ok(())
}

/// Reads a token: whether some procedures begin with the tokens so far and it.
pub(crate) fn advance(stack: &mut Vec<Sym>, token: &Token) -> Result<bool, NoMemory>
    ensures { IfOk result (machine.Advances (reverse stack.old.items) token.now (reverse stack.new.items)) }
{
    while let Some(part) = stack.pop() {
        match turn(part, token) {
            Step::Takes(now, level) => {
                push_all(stack, tails(level))?;
                push_all(stack, now)?;
                return Ok(true);
            }
            Step::Passes => {}
            Step::Refuses => return Ok(false),
        }
    }
    Ok(false)
}
