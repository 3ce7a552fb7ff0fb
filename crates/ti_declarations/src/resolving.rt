// What a name stands for: the index of the token that is the name in its declaration, for a name at any index.

use crate::chains::member_at;
use crate::members::{
    MemberUse, class_around, class_named, has_this, is_static, member_named, method_around, use_of,
};
use crate::tokens::{after, depth_at, is_before, is_kind, is_name, is_named, name_of, open_of};
use crate::variables::{is_foreach, is_variable, variable_at};
use ti_syntax::{Token, TokenKind};

// Whether the name at this index is that of a class, a field or a method in its declaration.
fn is_member_declaration(tokens: &[Token], index: usize) -> bool {
    let next = after(index);
    let ends = is_kind(tokens, next, &TokenKind::LeftParen)
        || is_kind(tokens, next, &TokenKind::Semicolon);
    is_before(tokens, index, &TokenKind::KeywordClass) || ends && depth_at(tokens, index) == 1
}

// Whether the name at this index is declared there.
fn is_declaration(tokens: &[Token], index: usize) -> bool {
    if is_member_declaration(tokens, index) {
        return true;
    }
    match method_around(tokens, index) {
        Some(method) => is_variable(tokens, method, index),
        None => false,
    }
}

// Whether what is made by `new`, perhaps in a region, begins at this index.
fn follows_new(tokens: &[Token], index: usize) -> bool {
    let Some(before) = index.checked_sub(1) else {
        return false;
    };
    if is_kind(tokens, before, &TokenKind::KeywordNew) {
        return true;
    }
    if !is_kind(tokens, before, &TokenKind::RightParen) {
        return false;
    }
    match open_of(tokens, before) {
        Some(open) => is_before(tokens, open, &TokenKind::KeywordNew),
        None => false,
    }
}

// Whether the name at this index is a type: in a declaration, in a cast, or after `new`.
fn is_type(tokens: &[Token], index: usize) -> bool {
    let next = after(index);
    let has_qualifier = is_kind(tokens, next, &TokenKind::KeywordSingle)
        || is_kind(tokens, next, &TokenKind::KeywordLocal);
    let has_brackets = is_kind(tokens, next, &TokenKind::LeftBracket)
        && is_kind(tokens, after(next), &TokenKind::Dim(1));
    let declares = is_name(tokens, next)
        && (is_kind(tokens, after(next), &TokenKind::Assign) || depth_at(tokens, index) == 1);
    has_qualifier || has_brackets || declares || follows_new(tokens, index)
}

// Whether an operand can end with the token at this index.
fn ends_operand(tokens: &[Token], index: usize) -> bool {
    match tokens.get(index) {
        Some(token) => matches!(
            &token.kind,
            TokenKind::Name(_)
                | TokenKind::RightBracket
                | TokenKind::RightParen
                | TokenKind::KeywordThis
                | TokenKind::KeywordNull
                | TokenKind::KeywordTrue
                | TokenKind::KeywordFalse
                | TokenKind::Int(_)
                | TokenKind::LongInt(_)
        ),
        None => false,
    }
}

// Whether the name at this index is the `in` after the variable of a `foreach`.
fn is_in(tokens: &[Token], index: usize) -> bool {
    match index.checked_sub(1) {
        Some(before) => { is_named(tokens, index, b"in".as_slice()) && is_foreach(tokens, before) }
        None => false,
    }
}

// Whether the name at this index is, or may be, a word of the grammar: that `in`, or `from` after an operand.
fn is_word(tokens: &[Token], index: usize) -> bool {
    let follows_operand = match index.checked_sub(1) {
        Some(before) => ends_operand(tokens, before) && !is_in(tokens, before),
        None => false,
    };
    is_in(tokens, index) || is_named(tokens, index, b"from".as_slice()) && follows_operand
}

// The method of the class around that the name at this index calls: an instance method only from one.
fn own_method(tokens: &[Token], index: usize, name: &[u8]) -> Option<usize> {
    let class = class_around(tokens, index)?;
    let method = member_named(tokens, class, name, MemberUse::Call)?;
    if is_static(tokens, method) || has_this(tokens, index) {
        Some(method)
    } else {
        None
    }
}

// The field of `this` of this name.
fn own_field(tokens: &[Token], index: usize, name: &[u8]) -> Option<usize> {
    if has_this(tokens, index) {
        member_named(tokens, class_around(tokens, index)?, name, MemberUse::Field)
    } else {
        None
    }
}

// The variable in scope, or else the field of `this`, or else the class before a dot, of this name.
fn value_name(tokens: &[Token], index: usize, name: &[u8]) -> Option<usize> {
    let method = method_around(tokens, index)?;
    if let Some(variable) = variable_at(tokens, method, index, name) {
        return Some(variable);
    }
    if let Some(field) = own_field(tokens, index, name) {
        return Some(field);
    }
    if is_kind(tokens, after(index), &TokenKind::Dot) {
        class_named(tokens, name)
    } else {
        None
    }
}

/// The declaration of the name at this index, which isn't after a dot.
pub fn bare_name(tokens: &[Token], index: usize) -> Option<usize> {
    let name = name_of(tokens, index)?;
    if is_declaration(tokens, index) {
        Some(index)
    } else if is_type(tokens, index) {
        class_named(tokens, name)
    } else if is_word(tokens, index) {
        None
    } else if use_of(tokens, index) == MemberUse::Call {
        own_method(tokens, index, name)
    } else {
        value_name(tokens, index, name)
    }
}

/// The declaration of the name at this index, if it is known.
pub fn declaration_of(tokens: &[Token], index: usize) -> Option<usize> {
    if is_before(tokens, index, &TokenKind::Dot) {
        member_at(tokens, index)
    } else {
        bare_name(tokens, index)
    }
}
