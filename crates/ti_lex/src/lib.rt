//! The lexer: splits the bytes of a source into tokens, by longest match.
#![tactic(auto)]

mod byte_class;
mod comment;
mod cursor;
mod error;
mod input_element;
mod lexer;
mod number;
mod offset;
mod operator;
mod string;
mod token_end;
mod word;

pub use error::LexErr;
pub use lexer::{MOST_BYTES, element_len, lex, one_reading, tokens_in_order};
pub use offset::offset_of;
pub use token_end::end_of;
