//! The language: resolved programs, their static types and their operational semantics.
#![tactic(auto)]

pub mod meaning;
pub mod program;
pub mod typing;

pub use ti_syntax::{Spelled, Token, TokenKind, tree};
