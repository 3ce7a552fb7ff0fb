// Postfix expressions.

use ti_syntax::tree::Expr;

/// The last part of a Postfix, which determines how the Postfix may be used.
#[derive(Clone, Copy)]
pub enum PostfixKind {
    /// A simple name, a member's name or an index: it can be assigned to.
    Target,
    /// An argument list: it can be a statement.
    Call,
    /// Anything else.
    Other,
}

/// A Postfix, with its ending.
#[derive(Drop)]
pub struct PostfixExpr {
    pub expr: Expr,
    pub kind: PostfixKind,
}
