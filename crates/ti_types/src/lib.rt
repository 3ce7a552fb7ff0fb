//! The type checker for expressions: the type of each, and its first type error.
#![tactic(auto)]

mod arguments;
mod built_in;
mod error;
mod exprs;
mod fitting;
mod laws;
mod literals;
mod nodes;
mod operands;
mod operators;
mod rects;
mod refusals;
mod typed_expr;
mod typing;
mod words;

pub use arguments::result_type;
pub use error::TypeErr;
pub use exprs::TypeChecker;
pub use laws::typed_breaks_words_alone;
pub use operators::binary_type;
pub use rects::{Literal, Ranges};
pub use refusals::{assign_refusal, operand_refusal};
pub use typed_expr::{TypedExpr, TypedTarget};
pub use typing::type_of;
pub use words::type_words;
