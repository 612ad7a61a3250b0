//! What comes first of some tokens, and what follows it.

ghost use Rattle.std.specs.Prelude.{◌≡◌, ◌<◌, ℕ, List, ◌∷◌, ◌++◌, length, IfSome};
ghost use Rattle.dt_syntax.specs.declared.token.Placed.{Placed};
ghost use Rattle.dt_syntax.specs.declared.token.Token.TheVariants as tok;
ghost use Rattle.dt_syntax.specs.Grammar.{at, Bracketed, bracketed_tokens};
ghost use Rattle.dt_proc.specs.WalkInner as walked;
ghost use Rattle.dt_syntax.specs.declared.operator.Op.TheVariants as op;

use dt_syntax::{Op, Placed, Token};
use dt_text::Name;

/// What follows the first token.
pub(crate) fn after_one(tokens: &[Placed]) -> &[Placed]
    requires { 0 < length tokens.now }
    ensures shorter { length result.now < length tokens.now }
    ensures right { (t : Placed) (rest : List Placed) → t ∷ rest ≡ tokens.now → result.now ≡ rest }
{
    let [_, rest @ ..] = tokens else {
        unreachable!();
    };
    rest
}

/// The name that comes first, with its place, and what follows it.
pub(crate) fn named(tokens: &[Placed]) -> (u32, &Name, &[Placed])
    requires starts { walked.StartsName tokens.now }
    ensures shorter { length result.2.now < length tokens.now }
    ensures right { (p : ℕ) (n : List ℕ) (rest : List Placed) → at p (tok.Name n) ∷ rest ≡ tokens.now
        → (result.0 ≡ p) × (result.1.now ≡ n) × (result.2.now ≡ rest) }
{
    let [first, rest @ ..] = tokens else {
        unreachable!();
    };
    let Token::Name(name) = &first.token else {
        unreachable!();
    };
    (first.place, name.get(), rest)
}

/// The name in brackets that comes first, with its place, and what follows the brackets.
pub(crate) fn bracketed(tokens: &[Placed]) -> (u32, &Name, &[Placed])
    requires starts { walked.StartsBrackets tokens.now }
    ensures shorter { length result.2.now < length tokens.now }
    ensures right { (b : Bracketed) (rest : List Placed) → bracketed_tokens b ++ rest ≡ tokens.now
        → (result.0 ≡ b.name_at) × (result.1.now ≡ b.name) × (result.2.now ≡ rest) }
{
    let (place, name, rest) = named(after_one(tokens));
    (place, name, after_one(rest))
}

/// What follows a `,`, if one comes first.
pub(crate) fn after_comma(tokens: &[Placed]) -> Option<&[Placed]>
    ensures shorter { IfSome result (λ r. length r.now < length tokens.now) }
    ensures right { walked.FollowsToken tok.Comma tokens.now (walked.left_shown result) }
{
    match tokens {
        [first, rest @ ..] if matches!(first.token, Token::Comma) => Some(rest),
        _ => None,
    }
}

/// What follows an `else`, if one comes first.
pub(crate) fn after_else(tokens: &[Placed]) -> Option<&[Placed]>
    ensures shorter { IfSome result (λ r. length r.now < length tokens.now) }
    ensures right { walked.FollowsToken tok.Else tokens.now (walked.left_shown result) }
{
    match tokens {
        [first, rest @ ..] if matches!(first.token, Token::Else) => Some(rest),
        _ => None,
    }
}

/// What follows a `)`, if one comes first.
pub(crate) fn after_close(tokens: &[Placed]) -> Option<&[Placed]>
    ensures shorter { IfSome result (λ r. length r.now < length tokens.now) }
    ensures right { walked.FollowsToken tok.Close tokens.now (walked.left_shown result) }
{
    match tokens {
        [first, rest @ ..] if matches!(first.token, Token::Close) => Some(rest),
        _ => None,
    }
}

/// What follows a `++`, if one comes first.
pub(crate) fn after_join(tokens: &[Placed]) -> Option<&[Placed]>
    ensures shorter { IfSome result (λ r. length r.now < length tokens.now) }
    ensures right { walked.FollowsToken (tok.Op op.Join) tokens.now (walked.left_shown result) }
{
    match tokens {
        [first, rest @ ..] if matches!(first.token, Token::Op(Op::Join)) => Some(rest),
        _ => None,
    }
}
