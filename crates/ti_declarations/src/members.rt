// Classes and their members, each by the index of the token that is its name in its declaration.

use crate::tokens::{after, close_of, is_before, is_kind, is_name, is_named};
use ti_syntax::{Token, TokenKind};

/// How a member is used: as a field, or by a call.
#[derive(Clone, Copy, PartialEq, Eq)]
pub enum MemberUse {
    Field,
    Call,
}

/// How the name at this index is used: a call has arguments after it.
pub fn use_of(tokens: &[Token], index: usize) -> MemberUse {
    if is_kind(tokens, after(index), &TokenKind::LeftParen) {
        MemberUse::Call
    } else {
        MemberUse::Field
    }
}

/// The first class of this name.
pub fn class_named(tokens: &[Token], name: &[u8]) -> Option<usize> {
    for at in 0..tokens.len() {
        if is_named(tokens, at, name) && is_before(tokens, at, &TokenKind::KeywordClass) {
            return Some(at);
        }
    }
    None
}

/// The class whose body has the token at this index.
pub fn class_around(tokens: &[Token], index: usize) -> Option<usize> {
    let mut class = None;
    for at in 0..index.min(tokens.len()) {
        if is_name(tokens, at) && is_before(tokens, at, &TokenKind::KeywordClass) {
            class = Some(at);
        }
    }
    let class = class?;
    let close = close_of(tokens, after(class))?;
    if index < close { Some(class) } else { None }
}

// Whether a declaration of this kind has its name at this index, within one brace.
fn is_declared_as(tokens: &[Token], index: usize, kind: MemberUse) -> bool {
    let next = after(index);
    match kind {
        MemberUse::Call => is_kind(tokens, next, &TokenKind::LeftParen),
        MemberUse::Field => is_kind(tokens, next, &TokenKind::Semicolon),
    }
}

// The number of open braces after the token at this index, if there were this many before it.
fn depth_after(tokens: &[Token], index: usize, depth: usize) -> usize {
    if is_kind(tokens, index, &TokenKind::LeftBrace) {
        depth.saturating_add(1)
    } else if is_kind(tokens, index, &TokenKind::RightBrace) {
        depth.saturating_sub(1)
    } else {
        depth
    }
}

/// The first field or method of this name in a class.
pub fn member_named(tokens: &[Token], class: usize, name: &[u8], kind: MemberUse) -> Option<usize> {
    let end = close_of(tokens, after(class))?;
    let mut depth = 0;
    for at in after(class)..end {
        depth = depth_after(tokens, at, depth);
        let is_member = depth == 1 && is_declared_as(tokens, at, kind);
        if is_member && is_named(tokens, at, name) {
            return Some(at);
        }
    }
    None
}

/// The method whose parameters or body have the token at this index.
pub fn method_around(tokens: &[Token], index: usize) -> Option<usize> {
    let mut method = None;
    let mut depth = 0;
    for at in 0..index.min(tokens.len()) {
        depth = depth_after(tokens, at, depth);
        if depth == 1 && is_kind(tokens, at, &TokenKind::RightBrace) {
            method = None;
        } else if depth == 1 && is_name(tokens, at) && use_of(tokens, at) == MemberUse::Call {
            method = Some(at);
        }
    }
    method
}

// Whether the declaration of a member or variable, or a parameter, can't reach to the token at this index.
fn is_outside(tokens: &[Token], index: usize) -> bool {
    match tokens.get(index) {
        Some(token) => matches!(
            &token.kind,
            TokenKind::LeftBrace
                | TokenKind::RightBrace
                | TokenKind::Semicolon
                | TokenKind::LeftParen
                | TokenKind::RightParen
                | TokenKind::Comma
        ),
        None => true,
    }
}

/// The index of the first token of the declaration whose name is at this index: of a modifier or of the type.
pub fn declaration_start(tokens: &[Token], index: usize) -> usize {
    let mut start = index;
    for distance in 1..=index {
        let Some(at) = index.checked_sub(distance) else {
            return start;
        };
        if is_outside(tokens, at) {
            return start;
        }
        start = at;
    }
    start
}

/// Whether the declaration whose name is at this index has a keyword before the name.
pub fn has_keyword(tokens: &[Token], index: usize, keyword: &TokenKind) -> bool {
    for at in declaration_start(tokens, index)..index {
        if is_kind(tokens, at, keyword) {
            return true;
        }
    }
    false
}

/// Whether a method is declared static.
pub fn is_static(tokens: &[Token], method: usize) -> bool {
    has_keyword(tokens, method, &TokenKind::KeywordStatic)
}

/// Whether the token at this index is in an instance method.
pub fn has_this(tokens: &[Token], index: usize) -> bool {
    match method_around(tokens, index) {
        Some(method) => !is_static(tokens, method),
        None => false,
    }
}
