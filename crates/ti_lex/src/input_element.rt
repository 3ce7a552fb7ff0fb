// Lexical elements.

use ti_syntax::TokenKind;

/// A lexical element.
#[derive(Debug, Drop)]
pub enum InputElement {
    /// A whitespace byte or a comment.
    Space,
    Token(TokenKind),
}
