//! The syntax of the language: tokens, abstract syntax trees, and (in specs/Spelling) the grammar, which relates token lists to trees.
#![tactic(auto)]

mod spelled;
mod token;
pub mod tree;

pub use spelled::Spelled;
pub use token::{Token, TokenKind};
