// The name at an offset of a source, and where it is declared.
ghost use Rattle.std.specs.Prelude.{◌+◌, ◌<◌, ◌≤◌, ◌^◌, IfOk, IfSome, length};
ghost use Rattle.ti_declarations.specs.KnownNames.{IsKnownToken};

use crate::description::describe;
use crate::offsets::token_offsets;
use crate::resolving::declaration_of;
use crate::tokens::name_of;
use std::alloc::Global;
use ti_base::Memory;
use ti_lex::{LexErr, MOST_BYTES, end_of, lex};
use ti_lsp::KnownName;
use ti_syntax::Token;

// The index of the name at an offset, or that ends there.
fn name_index(tokens: &[Token], offsets: &[usize], offset: usize) -> Option<usize> {
    for (index, start) in offsets.iter().enumerate() {
        if let Some(name) = name_of(tokens, index) {
            if *start <= offset && offset <= start.saturating_add(name.len()) {
                return Some(index);
            }
        }
    }
    None
}

// What is known of the name whose token begins at `start`, if it is at the offset, and the name that begins at `declared_start` is the same.
fn same_name(
    alloc: Global,
    text: &[u8],
    offset: usize,
    start: usize,
    declared_start: usize,
    description: String,
) -> Result<Option<KnownName>, Memory>
    ensures { IfOk result (λ o. IfSome o (IsKnownToken text.now offset)) }
{
    if start >= text.len() || declared_start > text.len() {
        return Ok(None);
    }
    let end = end_of(alloc, text, start)?;
    let declared_end = end_of(alloc, text, declared_start)?;
    if offset < start || end < offset {
        return Ok(None);
    }
    if text[start..end] != text[declared_start..declared_end] {
        return Ok(None);
    }
    Ok(Some(KnownName {
        start,
        end,
        declared_start,
        declared_end,
        description,
    }))
}

// What is known of the name at an offset of a text with these tokens.
fn known_among(
    alloc: Global,
    text: &[u8],
    tokens: &[Token],
    offset: usize,
) -> Result<Option<KnownName>, Memory>
    requires { length text.now + 2 < 2 ^ 32 }
    ensures { IfOk result (λ o. IfSome o (IsKnownToken text.now offset)) }
{
    let offsets = token_offsets(alloc, text, tokens)?;
    let Some(used) = name_index(tokens, &offsets, offset) else {
        return Ok(None);
    };
    let Some(declared) = declaration_of(tokens, used) else {
        return Ok(None);
    };
    let Some(start) = offsets.get(used) else {
        return Ok(None);
    };
    let Some(declared_start) = offsets.get(declared) else {
        return Ok(None);
    };
    let description = describe(alloc, text, tokens, &offsets, declared)?;
    same_name(alloc, text, offset, *start, *declared_start, description)
}

/// What is known of the name at an offset of a source, or of one that ends there: where it is declared, and what it stands for. None if there
/// is none, if the source has no tokens, or if nothing is known of it. The only error is that memory ran out.
pub fn known_name(alloc: Global, text: &[u8], offset: usize) -> Result<Option<KnownName>, Memory>
    ensures { IfOk result (λ o. IfSome o (IsKnownToken text.now offset)) }
{
    if text.len() > MOST_BYTES {
        return Ok(None);
    }
    match lex(alloc, text) {
        Ok(tokens) => known_among(alloc, text, &tokens, offset),
        Err(LexErr::Refused(_)) => Ok(None),
        Err(LexErr::Memory) => Err(Memory),
    }
}
