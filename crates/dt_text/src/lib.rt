//! Texts: keys, names, values and numbers, each with its one spelling.
//!
//! Read next: `specs/Texts.antt`, which bytes keys, names and texts are; `specs/Lines.antt` and `specs/Words.antt`, how a file
//! is cut into lines and a line into words.
#![tactic(auto)]

mod bytes;
mod common;
mod errors;
mod key;
mod laws;
mod lines;
mod listed;
mod name;
mod no_memory;
mod numbers;
mod printed;
mod spelling;
mod text;
mod value;
mod word;

pub use bytes::{are_same, is_name_byte, is_text_byte};
pub use common::Common;
pub use errors::{KeyError, StrError};
pub use key::Key;
pub use laws::{numbers_have_one_spelling, printed_texts_read_back, words_are_exact};
pub use lines::{Line, Lines};
pub use listed::Listed;
pub use name::Name;
pub use no_memory::NoMemory;
pub use numbers::{put_i64, put_u64, read_i64, read_u32};
pub use printed::{put_text, put_value};
pub use text::Str;
pub use value::Value;
pub use word::{Word, Words, bare_end, gap_end, is_visible, words};
