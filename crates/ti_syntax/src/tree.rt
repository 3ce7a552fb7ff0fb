// The abstract syntax tree, as parsed.
//
// Each form of the grammar that has a node holds its source position and its parts in source order. A group `(e)` has no node: its
// tree is that of `e`.

mod classes;
mod exprs;
mod stmts;
mod text;
mod types;

pub use classes::{
    Class, Field, Member, Method, Modifier, ModifierWord, ParamDecl, Params, ResultDecl,
};
pub use exprs::{BinaryOperator, Expr, Range, UnaryOperator};
pub use stmts::{Dims, Init, PrintArgument, StepOperator, Stmt};
pub use text::Tree;
pub use types::{Base, Brackets, Qualifier, QualifierWord, TypeName};
