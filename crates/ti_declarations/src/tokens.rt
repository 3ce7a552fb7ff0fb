// Tokens by their index, and the brackets among them. No index needs to be one of a token.

use ti_syntax::{Token, TokenKind};

/// Whether the token at this index is of the kind of another one, whatever their values.
pub fn is_kind(tokens: &[Token], index: usize, kind: &TokenKind) -> bool {
    match tokens.get(index) {
        Some(token) => token.kind.number() == kind.number(),
        None => false,
    }
}

/// The name that is the token at this index.
pub fn name_of(tokens: &[Token], index: usize) -> Option<&[u8]> {
    match tokens.get(index) {
        Some(token) => match &token.kind {
            TokenKind::Name(name) => Some(name.as_bytes()),
            _ => None,
        },
        None => None,
    }
}

/// Whether the token at this index is a name.
pub fn is_name(tokens: &[Token], index: usize) -> bool {
    name_of(tokens, index).is_some()
}

/// Whether the token at this index is this name.
pub fn is_named(tokens: &[Token], index: usize, name: &[u8]) -> bool {
    match name_of(tokens, index) {
        Some(other) => other == name,
        None => false,
    }
}

/// The index of the token after this one.
pub fn after(index: usize) -> usize {
    index.saturating_add(1)
}

/// Whether the token before this index is of the kind of another one.
pub fn is_before(tokens: &[Token], index: usize, kind: &TokenKind) -> bool {
    match index.checked_sub(1) {
        Some(before) => is_kind(tokens, before, kind),
        None => false,
    }
}

fn is_opening(tokens: &[Token], index: usize) -> bool {
    match tokens.get(index) {
        Some(token) => matches!(
            &token.kind,
            TokenKind::LeftParen | TokenKind::LeftBracket | TokenKind::LeftBrace
        ),
        None => false,
    }
}

fn is_closing(tokens: &[Token], index: usize) -> bool {
    match tokens.get(index) {
        Some(token) => matches!(
            &token.kind,
            TokenKind::RightParen | TokenKind::RightBracket | TokenKind::RightBrace
        ),
        None => false,
    }
}

/// The index of the first bracket from this index on that closes one before it.
pub fn close_from(tokens: &[Token], index: usize) -> Option<usize> {
    let mut open = 0usize;
    for at in index..tokens.len() {
        if is_opening(tokens, at) {
            open = open.saturating_add(1);
        } else if is_closing(tokens, at) {
            if open == 0 {
                return Some(at);
            }
            open -= 1;
        }
    }
    None
}

/// The index of the bracket that closes the one at this index.
pub fn close_of(tokens: &[Token], index: usize) -> Option<usize> {
    close_from(tokens, after(index))
}

/// The index of the bracket that the one at this index closes.
pub fn open_of(tokens: &[Token], index: usize) -> Option<usize> {
    let mut closed = 0usize;
    for distance in 0..=index {
        let at = index.checked_sub(distance)?;
        if is_closing(tokens, at) {
            closed = closed.saturating_add(1);
        } else if is_opening(tokens, at) {
            if closed <= 1 {
                return Some(at);
            }
            closed -= 1;
        }
    }
    None
}

/// The number of braces that are open before this index.
pub fn depth_at(tokens: &[Token], index: usize) -> usize {
    let mut depth = 0usize;
    for at in 0..index.min(tokens.len()) {
        if is_kind(tokens, at, &TokenKind::LeftBrace) {
            depth = depth.saturating_add(1);
        } else if is_kind(tokens, at, &TokenKind::RightBrace) {
            depth = depth.saturating_sub(1);
        }
    }
    depth
}
