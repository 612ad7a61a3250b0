ghost use Rattle.std.specs.Prelude.{◌≡◌, ◌+◌, ◌-◌, ◌<◌, ◌≤◌, ◌^◌, ◌≢◌, ◌==◌, ◌||◌, length, drop, take_while, slice_index, nat_eq, IfOk, IsTrue, None, pos};
ghost use Rattle.std.specs.Option.{option_map};
ghost use Rattle.std.specs.List.{list_all};
ghost use Rattle.std.specs.Cmp.Lexicographic.{pointwise};
ghost use Rattle.dt_text.specs.Texts.{is_name_byte, is_text_byte};
ghost use Rattle.dt_syntax.specs.Tokens as tokens;
ghost use Rattle.dt_syntax.specs.Tokens.{tokens_from};

use crate::apart::Apart;
use crate::operator::Op;
use crate::token::Token;
use dt_text::{Name, NoMemory, Str, is_name_byte, is_text_byte, read_i64};
use std::alloc::Global;

/// The place of the first byte from `at` on that is no part of a blank or a comment, or the text's end.
pub(crate) fn gap_end(text: &[u8], at: usize) -> usize
    requires { at ≤ length text.now }
    ensures after { at ≤ result }
    ensures within { result ≤ length text.now }
    ensures same { tokens_from 0 at (drop at text.now) ≡ tokens_from 0 result (drop result text.now) }
    ensures starts { tokens.BeginsToken (drop result text.now) }
{
    let mut end = at;
    while end < text.len() {
        if is_blank(text[end]) {
            end += 1;
        } else if text[end] == b'#' {
            end += 1;
            end += line_end(&text[end..]);
        } else {
            return end;
        }
    }
    end
}

/// How many bytes stand before the end of the line.
fn line_end(bytes: &[u8]) -> usize
    ensures same { result ≡ length (take_while tokens.is_no_line_end bytes.now) }
    ensures within { result ≤ length bytes.now }
{
    bytes.iter().take_while(|byte| **byte != b'\n').count()
}

/// Whether the byte separates tokens.
fn is_blank(byte: u8) -> bool
    ensures { result ≡ tokens.is_blank byte }
{
    byte == b' ' || byte == b'\t' || byte == b'\n' || byte == b'\r'
}

/// The token that some bytes begin with, the longest one, and how many bytes it takes; `None` where
/// none begins there.
pub(crate) fn front_token(alloc: Global, bytes: &[u8]) -> Result<Option<(Token, usize)>, NoMemory>
    requires { length bytes.now < 2 ^ 32 }
    ensures { IfOk result (λ found. found ≡ tokens.front_token bytes.now) }
{
    let [first, rest @ ..] = bytes else {
        return Ok(None);
    };
    if is_name_byte(*first) {
        return front_word(alloc, bytes);
    }
    if *first == b'"' {
        return text_after(alloc, rest);
    }
    Ok(sign_before(*first, rest))
}

/// The word that some bytes begin with, as a token.
fn front_word(alloc: Global, bytes: &[u8]) -> Result<Option<(Token, usize)>, NoMemory>
    requires { length bytes.now < 2 ^ 32 }
    ensures { IfOk result (λ found. found ≡ tokens.front_word bytes.now) }
{
    let end = word_end(bytes);
    match word_token(alloc, &bytes[..end])? {
        Some(token) => Ok(Some((token, end))),
        None => Ok(None),
    }
}

/// How many bytes at the front are letters, digits or `_`.
fn word_end(bytes: &[u8]) -> usize
    ensures { result ≡ length (take_while is_name_byte bytes.now) }
{
    bytes.iter().take_while(|byte| is_name_byte(**byte)).count()
}

/// The token of a whole word of letters, digits and `_`.
fn word_token(alloc: Global, word: &[u8]) -> Result<Option<Token>, NoMemory>
    requires short { length word.now < 2 ^ 32 }
    requires letters { IsTrue (list_all is_name_byte word.now) }
    ensures { IfOk result (λ token. token ≡ tokens.word_token word.now) }
{
    if let Some(token) = statement_word(word) {
        return Ok(Some(token));
    }
    if let Some(token) = expression_word(word) {
        return Ok(Some(token));
    }
    plain_word(alloc, word)
}

/// The token of a word that is no keyword: a number or a name.
fn plain_word(alloc: Global, word: &[u8]) -> Result<Option<Token>, NoMemory>
    requires short { length word.now < 2 ^ 32 }
    requires letters { IsTrue (list_all is_name_byte word.now) }
    ensures { IfOk result (λ token. token ≡ tokens.plain_word word.now) }
{
    let [first, ..] = word else {
        return Ok(None);
    };
    if first.is_ascii_digit() {
        return Ok(number(word));
    }
    if !first.is_ascii_lowercase() || word.len() > Name::LONGEST {
        return Ok(None);
    }
    Ok(Some(Token::Name(Apart::new(alloc, Name::new(alloc, word)?)?)))
}

/// The token of a number.
fn number(word: &[u8]) -> Option<Token>
    requires short { length word.now < 2 ^ 32 }
    requires digit { IsTrue (tokens.is_digit (slice_index word.now 0)) }
    ensures { result ≡ option_map (λ n. Token.Int (pos n)) (tokens.whole_number word.now) }
{
    let value = read_i64(word)?;
    Some(Token::Int(value))
}

/// The keyword of procedures and statements that a word is.
fn statement_word(word: &[u8]) -> Option<Token>
    ensures { result ≡ tokens.word_in tokens.statement_words word.now }
{
    if is_word(word, b"proc") {
        Some(Token::Proc)
    } else if is_word(word, b"read") {
        Some(Token::Read)
    } else if is_word(word, b"write") {
        Some(Token::Write)
    } else if is_word(word, b"let") {
        Some(Token::Let)
    } else if is_word(word, b"set") {
        Some(Token::Set)
    } else if is_word(word, b"clear") {
        Some(Token::Clear)
    } else if is_word(word, b"if") {
        Some(Token::If)
    } else if is_word(word, b"else") {
        Some(Token::Else)
    } else if is_word(word, b"abort") {
        Some(Token::Abort)
    } else if is_word(word, b"give") {
        Some(Token::Give)
    } else if is_word(word, b"row") {
        Some(Token::Row)
    } else {
        None
    }
}

/// The keyword of expressions that a word is.
fn expression_word(word: &[u8]) -> Option<Token>
    ensures { result ≡ tokens.word_in tokens.expression_words word.now }
{
    if is_word(word, b"int") {
        Some(Token::IntWord)
    } else if is_word(word, b"text") {
        Some(Token::TextWord)
    } else if is_word(word, b"has") {
        Some(Token::Has)
    } else if is_word(word, b"len") {
        Some(Token::Len)
    } else if is_word(word, b"show") {
        Some(Token::Show)
    } else if is_word(word, b"and") {
        Some(Token::Op(Op::And))
    } else if is_word(word, b"or") {
        Some(Token::Op(Op::Or))
    } else if is_word(word, b"not") {
        Some(Token::Not)
    } else if is_word(word, b"true") {
        Some(Token::Truth(true))
    } else if is_word(word, b"false") {
        Some(Token::Truth(false))
    } else {
        None
    }
}

/// Whether a word has these bytes.
fn is_word(word: &[u8], bytes: &[u8]) -> bool
    ensures { result ≡ pointwise nat_eq word.now bytes.now }
{
    word == bytes
}

/// The text whose items come first, up to the `"` that closes it, as a token that began one byte before.
fn text_after(alloc: Global, bytes: &[u8]) -> Result<Option<(Token, usize)>, NoMemory>
    requires { length bytes.now < 2 ^ 32 }
    ensures { IfOk result (λ found. found ≡ tokens.text_after bytes.now) }
{
    let mut items = Vec::new(alloc);
    let mut rest = bytes;
    while let [first, after @ ..] = rest {
        if *first == b'"' {
            let size = bytes.len() - after.len() + 1;
            let text = Apart::new(alloc, Str::new(alloc, items.as_slice())?)?;
            return Ok(Some((Token::Text(text), size)));
        }
        if items.len() == Str::LONGEST {
            return Ok(None);
        }
        let Some((byte, after)) = item(*first, after) else {
            return Ok(None);
        };
        items.push(byte)?;
        rest = after;
    }
    Ok(None)
}

/// The first item of a text: the byte that it stands for, and what follows it.
fn item(first: u8, after: &[u8]) -> Option<(u8, &[u8])>
    requires { first ≢ 34 }
    ensures { tokens.ItemIs first after.now (option_map (λ found. (found.0, found.1.now)) result) }
{
    if first != b'\\' {
        return is_text_byte(first).then_some((first, after));
    }
    match after {
        [byte, rest @ ..] if *byte == b'"' || *byte == b'\\' => Some((*byte, rest)),
        _ => None,
    }
}

/// The symbol that begins with a byte, and how many bytes it takes.
fn sign_before(first: u8, rest: &[u8]) -> Option<(Token, usize)>
    ensures { result ≡ tokens.sign_before first rest.now }
{
    if let [second, ..] = rest
        && let Some(token) = double_sign(first, *second)
    {
        return Some((token, 2));
    }
    Some((single_sign(first)?, 1))
}

/// The symbol of two bytes.
fn double_sign(first: u8, second: u8) -> Option<Token>
    ensures { result ≡ tokens.double_sign first second }
{
    match (first, second) {
        (b'=', b'=') => Some(Token::Op(Op::Equal)),
        (b'!', b'=') => Some(Token::Op(Op::Differ)),
        (b'<', b'=') => Some(Token::Op(Op::AtMost)),
        (b'>', b'=') => Some(Token::Op(Op::AtLeast)),
        (b'+', b'+') => Some(Token::Op(Op::Join)),
        _ => None,
    }
}

/// The symbol of one byte.
fn single_sign(byte: u8) -> Option<Token>
    ensures { result ≡ tokens.single_sign byte }
{
    match byte {
        b'(' => Some(Token::Open),
        b')' => Some(Token::Close),
        b'{' => Some(Token::Begin),
        b'}' => Some(Token::End),
        b',' => Some(Token::Comma),
        b';' => Some(Token::Semicolon),
        b':' => Some(Token::Colon),
        b'=' => Some(Token::Is),
        b'<' => Some(Token::Op(Op::Less)),
        b'>' => Some(Token::Op(Op::More)),
        b'+' => Some(Token::Op(Op::Add)),
        b'-' => Some(Token::Op(Op::Sub)),
        b'*' => Some(Token::Op(Op::Mul)),
        b'/' => Some(Token::Op(Op::Div)),
        b'%' => Some(Token::Op(Op::Rem)),
        _ => None,
    }
}
