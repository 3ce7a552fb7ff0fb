// Variables of methods, and where they are in scope. A variable is given by the index of the token that is its name in its declaration.

use crate::members::declaration_start;
use crate::tokens::{after, close_from, close_of, is_before, is_kind, is_name, is_named};
use ti_syntax::{Token, TokenKind};

// Whether a type can end with the token at this index.
fn ends_type(tokens: &[Token], index: usize) -> bool {
    match tokens.get(index) {
        Some(token) => matches!(
            &token.kind,
            TokenKind::Name(_)
                | TokenKind::KeywordInt
                | TokenKind::KeywordLong
                | TokenKind::KeywordBoolean
                | TokenKind::KeywordSharedRegion
                | TokenKind::KeywordSingle
                | TokenKind::KeywordLocal
                | TokenKind::RightBracket
                | TokenKind::Greater
        ),
        None => false,
    }
}

/// Whether the token at this index is the variable of a `foreach`, in its head.
pub fn is_foreach(tokens: &[Token], index: usize) -> bool {
    match index.checked_sub(1) {
        Some(open) => {
            is_kind(tokens, open, &TokenKind::LeftParen)
                && is_before(tokens, open, &TokenKind::KeywordForeach)
        }
        None => false,
    }
}

/// Whether the token at this index is the name of a local variable in its declaration.
pub fn is_local(tokens: &[Token], index: usize) -> bool {
    let has_type = match index.checked_sub(1) {
        Some(before) => ends_type(tokens, before),
        None => false,
    };
    has_type && is_kind(tokens, after(index), &TokenKind::Assign)
}

// Whether the declaration is `String[] x`, which declares no variable.
fn is_main_parameter(tokens: &[Token], index: usize) -> bool {
    let start = declaration_start(tokens, index);
    is_kind(tokens, start, &TokenKind::KeywordString)
}

/// Whether the token at this index is the name of a parameter of this method in its declaration.
pub fn is_parameter(tokens: &[Token], method: usize, index: usize) -> bool {
    let next = after(index);
    let ends = is_kind(tokens, next, &TokenKind::Comma)
        || is_kind(tokens, next, &TokenKind::RightParen);
    match close_of(tokens, after(method)) {
        Some(close) => {
            ends && method < index && index < close && !is_main_parameter(tokens, index)
        }
        None => false,
    }
}

// The index of the first semicolon from this index on.
fn semicolon_from(tokens: &[Token], index: usize) -> Option<usize> {
    for at in index..tokens.len() {
        if is_kind(tokens, at, &TokenKind::Semicolon) {
            return Some(at);
        }
    }
    None
}

// A statement before its end: the index of its next part, and how many `if`s in it may have an `else`.
#[derive(Clone, Copy)]
struct Unfinished {
    at: usize,
    conditions: usize,
}

// Whether the token at this index begins a statement with a head in parentheses.
fn has_head(tokens: &[Token], index: usize) -> bool {
    match tokens.get(index) {
        Some(token) => matches!(
            &token.kind,
            TokenKind::KeywordIf
                | TokenKind::KeywordWhile
                | TokenKind::KeywordFor
                | TokenKind::KeywordForeach
        ),
        None => false,
    }
}

// The statement after its next head.
fn after_head(tokens: &[Token], rest: Unfinished) -> Option<Unfinished> {
    let close = close_of(tokens, after(rest.at))?;
    let conditions = if is_kind(tokens, rest.at, &TokenKind::KeywordIf) {
        rest.conditions.saturating_add(1)
    } else {
        rest.conditions
    };
    Some(Unfinished {
        at: after(close),
        conditions,
    })
}

// The end of the block or the simple statement at this index.
fn simple_end(tokens: &[Token], index: usize) -> Option<usize> {
    if is_kind(tokens, index, &TokenKind::LeftBrace) {
        close_of(tokens, index)
    } else {
        semicolon_from(tokens, index)
    }
}

// The index of the last token of the statement that begins at this index.
fn statement_end(tokens: &[Token], index: usize) -> Option<usize> {
    let mut rest = Unfinished {
        at: index,
        conditions: 0,
    };
    for _ in 0..tokens.len() {
        if has_head(tokens, rest.at) {
            rest = after_head(tokens, rest)?;
        } else {
            let end = simple_end(tokens, rest.at)?;
            let is_more = is_kind(tokens, after(end), &TokenKind::KeywordElse);
            if rest.conditions == 0 || !is_more {
                return Some(end);
            }
            rest = Unfinished {
                at: after(after(end)),
                conditions: rest.conditions - 1,
            };
        }
    }
    None
}

// Whether a statement after the head that opens at this index has the token at another one.
fn is_in_body(tokens: &[Token], open: usize, index: usize) -> bool {
    let Some(close) = close_of(tokens, open) else {
        return false;
    };
    match statement_end(tokens, after(close)) {
        Some(end) => close < index && index <= end,
        None => false,
    }
}

// The index of the parenthesis of a `for` whose head begins with the declaration whose name is at this index.
fn for_open(tokens: &[Token], index: usize) -> Option<usize> {
    let open = declaration_start(tokens, index).checked_sub(1)?;
    let is_head = is_kind(tokens, open, &TokenKind::LeftParen)
        && is_before(tokens, open, &TokenKind::KeywordFor);
    if is_head { Some(open) } else { None }
}

// Whether the variable of a `for` is in scope at an index: in the rest of the head, or in the body.
fn is_in_for(tokens: &[Token], open: usize, index: usize) -> bool {
    let in_head = match close_of(tokens, open) {
        Some(close) => index < close,
        None => false,
    };
    in_head || is_in_body(tokens, open, index)
}

// Whether a local variable is in scope at an index: after its declaration, in its block or its `for`.
fn is_local_in_scope(tokens: &[Token], variable: usize, index: usize) -> bool {
    let Some(end) = semicolon_from(tokens, variable) else {
        return false;
    };
    if index <= end {
        return false;
    }
    if let Some(open) = for_open(tokens, variable) {
        return is_in_for(tokens, open, index);
    }
    match close_from(tokens, variable) {
        Some(close) => index < close,
        None => false,
    }
}

// Whether the variable of a `foreach` is in scope at an index: in its body.
fn is_foreach_in_scope(tokens: &[Token], variable: usize, index: usize) -> bool {
    match variable.checked_sub(1) {
        Some(open) => is_in_body(tokens, open, index),
        None => false,
    }
}

// Whether the token at `variable` declares a variable of this method that is in scope at an index after it.
fn is_in_scope(tokens: &[Token], method: usize, variable: usize, index: usize) -> bool {
    if is_parameter(tokens, method, variable) {
        true
    } else if is_foreach(tokens, variable) {
        is_foreach_in_scope(tokens, variable, index)
    } else {
        is_local(tokens, variable) && is_local_in_scope(tokens, variable, index)
    }
}

/// The variable of this name that is in scope at an index in this method.
pub fn variable_at(tokens: &[Token], method: usize, index: usize, name: &[u8]) -> Option<usize> {
    for at in after(method)..index {
        if is_named(tokens, at, name) && is_in_scope(tokens, method, at, index) {
            return Some(at);
        }
    }
    None
}

/// Whether the token at this index is the name of a variable or parameter of this method in its declaration.
pub fn is_variable(tokens: &[Token], method: usize, index: usize) -> bool {
    is_name(tokens, index)
        && (is_parameter(tokens, method, index)
            || is_foreach(tokens, index)
            || is_local(tokens, index))
}
