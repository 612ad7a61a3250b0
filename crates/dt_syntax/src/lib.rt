//! The syntax of procedures: tokens, the grammar, and the first of two passes over a text.
//!
//! [`read_tokens`] cuts a text into tokens and tests it as a whole for what it is made of. It answers the
//! tokens, each with its place, where they are those of some procedures of the grammar and none is one too
//! many; and else the first fault by place. What names mean and which kinds fit is reported by the second
//! pass, in the crate above.
//!
//! The first pass keeps a stack of what may come next (`machine`) and some counts (`counts`); that the
//! stack goes on exactly where some procedures begin with the tokens so far is proved.
#![tactic(auto)]

mod apart;
mod counts;
mod error;
mod first_pass;
mod kinds;
mod laws;
mod lexer;
mod machine;
mod operator;
mod token;

pub use apart::Apart;
pub use error::SyntaxError;
pub use first_pass::read_tokens;
pub use kinds::Kind;
pub use laws::texts_are_text_words;
pub use operator::Op;
pub use token::{Placed, Token};
