// Edits that bring the `single` annotations of a source to a marking: missing keywords are inserted, and those that the marking doesn't have
// are removed. No contract says that the edited source is accepted, since whoever offers the edits checks it first.
ghost use Rattle.std.specs.Prelude.{◌+◌, ◌<◌, ◌≤◌, ◌^◌, IfSome, length};

use std::alloc::Global;
use ti_base::{Memory, Place};
use ti_blame::{Mark, MarkKind};
use ti_declarations::token_offsets;
use ti_lsp::TextEdit;
use ti_syntax::{Token, TokenKind};

// How many tokens are between the modifiers of a method and its parameters, at most: a result type has no more.
const MAX_RESULT_TOKENS: usize = 16;

// How many modifiers a method has, at most, for an edit.
const MAX_MODIFIERS: usize = 8;

fn is_single(tokens: &[Token], index: usize) -> bool {
    match tokens.get(index) {
        Some(token) => matches!(&token.kind, TokenKind::KeywordSingle),
        None => false,
    }
}

fn is_name(tokens: &[Token], index: usize) -> bool {
    match tokens.get(index) {
        Some(token) => matches!(&token.kind, TokenKind::Name(_)),
        None => false,
    }
}

fn is_left_paren(tokens: &[Token], index: usize) -> bool {
    match tokens.get(index) {
        Some(token) => matches!(&token.kind, TokenKind::LeftParen),
        None => false,
    }
}

// Whether the token is a modifier other than `single`.
fn is_modifier(tokens: &[Token], index: usize) -> bool {
    match tokens.get(index) {
        Some(token) => matches!(
            &token.kind,
            TokenKind::KeywordPublic
                | TokenKind::KeywordPrivate
                | TokenKind::KeywordProtected
                | TokenKind::KeywordStatic
                | TokenKind::KeywordFinal
        ),
        None => false,
    }
}

// Whether a member can begin after the token.
fn ends_member(tokens: &[Token], index: usize) -> bool {
    match tokens.get(index) {
        Some(token) => matches!(
            &token.kind,
            TokenKind::LeftBrace | TokenKind::RightBrace | TokenKind::Semicolon
        ),
        None => true,
    }
}

// Whether a mark is before those of this kind at this position, in the order of a marking.
fn is_earlier(mark: &Mark, place: Place, kind: MarkKind) -> bool {
    mark.place.is_before(place) || mark.place == place && mark.kind.rank() < kind.rank()
}

// Whether a marking has a mark of this kind at this position.
fn has_mark(marks: &[Mark], place: Place, kind: MarkKind) -> bool {
    let index = marks.partition_point(|mark| is_earlier(mark, place, kind));
    match marks.get(index) {
        Some(mark) => mark.place == place && mark.kind.rank() == kind.rank(),
        None => false,
    }
}

// Whether the token is a name that is marked as a variable, or as a method with a single result.
fn is_marked_name(tokens: &[Token], marks: &[Mark], index: usize) -> bool {
    match tokens.get(index) {
        Some(token) => {
            has_mark(marks, token.place, MarkKind::Variable)
                || has_mark(marks, token.place, MarkKind::Result)
        }
        None => false,
    }
}

// Whether the token is a name that is marked as a method.
fn is_marked_method(tokens: &[Token], marks: &[Mark], index: usize) -> bool {
    match tokens.get(index) {
        Some(token) => has_mark(marks, token.place, MarkKind::Method),
        None => false,
    }
}

// Whether the token is the name `main`, whose method keeps its modifiers.
fn is_main(tokens: &[Token], index: usize) -> bool {
    match tokens.get(index) {
        Some(token) => match &token.kind {
            TokenKind::Name(name) => name.as_bytes() == b"main".as_slice(),
            _ => false,
        },
        None => false,
    }
}

// The index of the name of the method whose modifiers are at this index: the token before the next parenthesis.
fn method_name(tokens: &[Token], index: usize) -> Option<usize> {
    for offset in 0..MAX_RESULT_TOKENS {
        let next = index.saturating_add(offset);
        if is_left_paren(tokens, next.saturating_add(1)) {
            return Some(next);
        }
    }
    None
}

// Whether the keyword `single` at this index is a modifier, and not a qualifier of a type.
fn is_modifier_single(tokens: &[Token], index: usize) -> bool {
    let Some(before) = index.checked_sub(1) else {
        return true;
    };
    is_modifier(tokens, before) || ends_member(tokens, before)
}

// Whether the keyword `single` at this index is needed by the marking, or is where no mark can be, as in a cast.
fn keeps_single(tokens: &[Token], marks: &[Mark], index: usize) -> bool {
    let next = index.saturating_add(1);
    if !is_modifier_single(tokens, index) {
        return !is_name(tokens, next) || is_marked_name(tokens, marks, next);
    }
    match method_name(tokens, next) {
        Some(name) => is_main(tokens, name) || is_marked_method(tokens, marks, name),
        None => true,
    }
}

// Whether the keyword `single` is among the modifiers that end before this index.
fn has_single_before(tokens: &[Token], index: usize) -> bool {
    for offset in 1..MAX_MODIFIERS {
        let Some(before) = index.checked_sub(offset) else {
            return false;
        };
        if is_single(tokens, before) {
            return true;
        }
        if !is_modifier(tokens, before) {
            return false;
        }
    }
    false
}

// Whether the token is the first after modifiers other than `single`.
fn follows_modifiers(tokens: &[Token], index: usize) -> bool {
    let Some(before) = index.checked_sub(1) else {
        return false;
    };
    is_modifier(tokens, before) && !is_modifier(tokens, index)
}

// Whether the marking has a mark for which `single` is missing before this token.
fn lacks_single(tokens: &[Token], marks: &[Mark], index: usize) -> bool {
    let Some(before) = index.checked_sub(1) else {
        return false;
    };
    if is_name(tokens, index) && is_marked_name(tokens, marks, index) {
        return !is_single(tokens, before);
    }
    if !follows_modifiers(tokens, index) || has_single_before(tokens, index) {
        return false;
    }
    match method_name(tokens, index) {
        Some(name) => is_marked_method(tokens, marks, name),
        None => false,
    }
}

// The end of the keyword `single` at this offset, with the space after it, if there is one.
fn keyword_end(text: &[u8], start: usize) -> usize {
    let end = start.saturating_add(6).min(text.len());
    match text.get(end) {
        Some(b' ') => end.saturating_add(1),
        _ => end,
    }
}

// The edit at a token, which begins at this offset.
fn edit_at(
    alloc: Global,
    text: &[u8],
    tokens: &[Token],
    marks: &[Mark],
    index: usize,
    start: usize,
) -> Result<Option<TextEdit>, Memory> {
    if is_single(tokens, index) {
        if keeps_single(tokens, marks, index) {
            return Ok(None);
        }
        let end = keyword_end(text, start);
        return Ok(Some(TextEdit {
            start,
            end,
            new_text: String::new(alloc),
        }));
    }
    if !lacks_single(tokens, marks, index) {
        return Ok(None);
    }
    let new_text = String::from_str(alloc, "single ")?;
    Ok(Some(TextEdit {
        start,
        end: start,
        new_text,
    }))
}

/// The edits that bring the annotations of a source to a marking, in the order of the source. The tokens are those of the source, and the
/// marks are sorted.
///
/// Requires that no line or column of the text exceeds 32 bits.
pub fn annotation_edits(
    alloc: Global,
    text: &[u8],
    tokens: &[Token],
    marks: &[Mark],
) -> Result<Vec<TextEdit>, Memory>
    requires { length text.now + 2 < 2 ^ 32 }
{
    let offsets = token_offsets(alloc, text, tokens)?;
    let mut edits = Vec::new(alloc);
    for (index, start) in offsets.iter().enumerate() {
        if let Some(edit) = edit_at(alloc, text, tokens, marks, index, *start)? {
            edits.push(edit)?;
        }
    }
    Ok(edits)
}
