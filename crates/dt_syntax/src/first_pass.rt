//! The first pass: tokens, syntax, and what is one too many.

ghost use Rattle.std.specs.Prelude.{◌≡◌, ◌≢◌, ◌<◌, ◌≤◌, ◌^◌, [], ◌∷◌, length, IfOk, IfErr, MatchBool};
ghost use Rattle.dt_syntax.specs.declared.machine.Sym.TheVariants as sym;
ghost use Rattle.dt_syntax.specs.FirstPass.{FirstFault, PassesFirst};

use crate::counts::Counts;
use crate::error::SyntaxError;
use crate::lexer::{front_token, gap_end};
use crate::machine::{Sym, advance};
use crate::token::Placed;
use std::alloc::Global;

/// The tokens of a text that are those of some procedures, of which none is one too many; or the
/// first fault.
pub fn read_tokens(alloc: Global, text: &[u8]) -> Result<Vec<Placed>, SyntaxError>
    requires { length text.now < 2 ^ 32 }
    ensures ok { IfOk result (λ tokens. PassesFirst text.now tokens.items) }
    ensures short { IfOk result (λ tokens. length tokens.items ≤ length text.now) }
    ensures fault { IfErr result (FirstFault text.now) }
{
    let mut tokens = Vec::new(alloc);
    let mut stack = Vec::new(alloc);
    stack.push(Sym::Procs)?;
    let mut counts = Counts::new();
    let mut at = gap_end(text, 0);
    while at < text.len() {
        let Some((token, size)) = front_token(alloc, &text[at..])? else {
            return Err(SyntaxError::Syntax(at as u32));
        };
        if !advance(&mut stack, &token)? {
            return Err(SyntaxError::Syntax(at as u32));
        }
        if counts.is_too_many(&token) {
            return Err(SyntaxError::TooMany(at as u32));
        }
        counts.add(&token);
        tokens.push(Placed {
            place: at as u32,
            token,
        })?;
        at = gap_end(text, at + size);
    }
    if is_whole(stack.as_slice()) {
        Ok(tokens)
    } else {
        Err(SyntaxError::Syntax(text.len() as u32))
    }
}

/// Whether only more procedures may follow.
fn is_whole(stack: &[Sym]) -> bool
    ensures { MatchBool result (stack.now ≡ sym.Procs ∷ []) (stack.now ≢ sym.Procs ∷ []) }
{
    match stack {
        [only] => matches!(only, Sym::Procs),
        _ => false,
    }
}
