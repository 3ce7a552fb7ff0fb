// What is said of a declared name: its declaration, and what it declares.

use crate::members::{MemberUse, class_around, declaration_start, has_keyword, use_of};
use crate::tokens::{after, close_of, depth_at, is_before, is_kind, name_of};
use crate::variables::{is_foreach, is_local};
use std::alloc::Global;
use ti_base::Memory;
use ti_syntax::{Token, TokenKind};

/// What a name declares.
#[derive(Clone, Copy, PartialEq, Eq)]
enum DeclaredKind {
    Class,
    Method,
    Field,
    Foreach,
    Variable,
    Parameter,
}

fn kind_of(tokens: &[Token], index: usize) -> DeclaredKind {
    if is_before(tokens, index, &TokenKind::KeywordClass) {
        return DeclaredKind::Class;
    }
    if is_foreach(tokens, index) {
        return DeclaredKind::Foreach;
    }
    if is_local(tokens, index) {
        return DeclaredKind::Variable;
    }
    if use_of(tokens, index) == MemberUse::Call {
        return DeclaredKind::Method;
    }
    if is_kind(tokens, after(index), &TokenKind::Semicolon) && depth_at(tokens, index) == 1 {
        DeclaredKind::Field
    } else {
        DeclaredKind::Parameter
    }
}

fn is_modifier(tokens: &[Token], index: usize) -> bool {
    match tokens.get(index) {
        Some(token) => matches!(
            &token.kind,
            TokenKind::KeywordPublic
                | TokenKind::KeywordPrivate
                | TokenKind::KeywordProtected
                | TokenKind::KeywordStatic
                | TokenKind::KeywordFinal
        ),
        None => false,
    }
}

// Whether the method whose name is at this index has the modifier `single`.
fn is_single_method(tokens: &[Token], index: usize) -> bool {
    for at in declaration_start(tokens, index)..index {
        if is_kind(tokens, at, &TokenKind::KeywordSingle) {
            return true;
        }
        if !is_modifier(tokens, at) {
            return false;
        }
    }
    false
}

// Whether what is declared at this index is declared single.
fn is_single(tokens: &[Token], index: usize, kind: DeclaredKind) -> bool {
    match kind {
        DeclaredKind::Class => false,
        DeclaredKind::Method => is_single_method(tokens, index),
        DeclaredKind::Foreach => false,
        DeclaredKind::Field | DeclaredKind::Variable | DeclaredKind::Parameter => {
            has_keyword(tokens, index, &TokenKind::KeywordSingle)
        }
    }
}

// The index of the last token of a declaration without its value or body.
fn declaration_end(tokens: &[Token], index: usize, kind: DeclaredKind) -> usize {
    if kind == DeclaredKind::Method {
        close_of(tokens, after(index)).unwrap_or(index)
    } else {
        index
    }
}

fn kind_words(kind: DeclaredKind) -> &'static str {
    match kind {
        DeclaredKind::Class => "class",
        DeclaredKind::Method => "method",
        DeclaredKind::Field => "field",
        DeclaredKind::Foreach => "variable of `foreach`",
        DeclaredKind::Variable => "variable",
        DeclaredKind::Parameter => "parameter",
    }
}

// Appends bytes, if they are text.
fn push_bytes(alloc: Global, out: &mut String, bytes: &[u8]) -> Result<(), Memory> {
    if let Ok(text) = String::from_utf8(bytes.to_vec(alloc)?) {
        out.push_str(text.as_str())?;
    }
    Ok(())
}

// Appends the class of a member.
fn push_class(
    alloc: Global,
    out: &mut String,
    tokens: &[Token],
    index: usize,
    kind: DeclaredKind,
) -> Result<(), Memory> {
    if kind != DeclaredKind::Method && kind != DeclaredKind::Field {
        return Ok(());
    }
    let Some(class) = class_around(tokens, index) else {
        return Ok(());
    };
    let Some(name) = name_of(tokens, class) else {
        return Ok(());
    };
    out.push_str(" of `")?;
    push_bytes(alloc, out, name)?;
    out.push('`')?;
    Ok(())
}

// The bytes of the declaration whose name is at this index.
fn declaration_bytes<'t>(
    text: &'t [u8],
    tokens: &[Token],
    offsets: &[usize],
    index: usize,
    kind: DeclaredKind,
) -> &'t [u8] {
    let last = declaration_end(tokens, index, kind);
    let len = match name_of(tokens, last) {
        Some(name) => name.len(),
        None => 1,
    };
    let Some(from) = offsets.get(declaration_start(tokens, index)) else {
        return &[];
    };
    let Some(to) = offsets.get(last) else {
        return &[];
    };
    text.get(*from..to.saturating_add(len)).unwrap_or(&[])
}

/// What is said of the name that is declared at this index, as Markdown: the declaration, and what it declares, with its line.
pub fn describe(
    alloc: Global,
    text: &[u8],
    tokens: &[Token],
    offsets: &[usize],
    index: usize,
) -> Result<String, Memory> {
    let kind = kind_of(tokens, index);
    let mut out = String::from_str(alloc, "```titan\n")?;
    let bytes = declaration_bytes(text, tokens, offsets, index, kind);
    push_bytes(alloc, &mut out, bytes)?;
    out.push_str("\n```\n\n")?;
    if is_single(tokens, index, kind) {
        out.push_str("single ")?;
    }
    out.push_str(kind_words(kind))?;
    push_class(alloc, &mut out, tokens, index, kind)?;
    if let Some(token) = tokens.get(index) {
        let line = token.place.line;
        let line = format!(in alloc; ", line {line}")?;
        out.push_str(line.as_str())?;
    }
    Ok(out)
}
