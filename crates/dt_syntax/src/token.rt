use crate::apart::Apart;
use crate::operator::Op;
use dt_text::{Name, Str};

/// A token: what a text of procedures is made of. Spellings lie elsewhere, so that the tokens of a long text take little memory.
#[derive(Drop)]
pub enum Token {
    /// A name, which is no keyword.
    Name(Apart<Name>),
    /// A number.
    Int(i64),
    /// A text, without its quotes and escapes.
    Text(Apart<Str>),
    /// An operator: also the words `or` and `and`, and `-` before an operand.
    Op(Op),
    /// `proc`
    Proc,
    /// `read`
    Read,
    /// `write`
    Write,
    /// `let`
    Let,
    /// `set`
    Set,
    /// `clear`
    Clear,
    /// `if`
    If,
    /// `else`
    Else,
    /// `abort`
    Abort,
    /// `give`
    Give,
    /// `row`
    Row,
    /// `int`
    IntWord,
    /// `text`
    TextWord,
    /// `has`
    Has,
    /// `len`
    Len,
    /// `show`
    Show,
    /// `not`
    Not,
    /// `true` or `false`
    Truth(bool),
    /// `(`
    Open,
    /// `)`
    Close,
    /// `{`
    Begin,
    /// `}`
    End,
    /// `,`
    Comma,
    /// `;`
    Semicolon,
    /// `:`
    Colon,
    /// `=`
    Is,
}

/// A token with the place of its first byte.
#[derive(Drop)]
pub struct Placed {
    /// How many bytes stand before it.
    pub place: u32,
    /// The token.
    pub token: Token,
}
