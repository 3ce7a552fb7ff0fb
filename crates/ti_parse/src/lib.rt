//! The parser: recursive descent from a token list to the tree of a program, with limits on nesting and on the weight of expressions.
#![tactic(auto)]

mod classes;
mod exprs;
mod parser;
mod simple;
mod stmts;
mod text;
mod types;
mod words;

pub use text::{one_text, parse};
pub use ti_parse_expr::ParseErr;
