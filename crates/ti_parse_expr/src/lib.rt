//! The parser of expressions and of the types in them.
#![tactic(auto)]

pub mod error;
pub mod exprs;
pub mod full;
pub mod operators;
pub mod parse;
mod parse_stop;
pub mod postfix_expr;
mod tokens;
pub mod types;
pub mod weight;

pub use error::ParseErr;
pub use parse::{Form, one_tree, parse_expr};
pub use parse_stop::ParseStop;
pub use postfix_expr::{PostfixExpr, PostfixKind};
pub use tokens::Tokens;
