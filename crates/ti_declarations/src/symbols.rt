// The declarations of a source, found by its tokens. So they are found in rejected sources, too, as long as these have tokens.
ghost use Rattle.std.specs.Prelude.{◌+◌, ◌<◌, ◌^◌, All, IfOk, IfSome, length};
ghost use Rattle.ti_lsp.specs.Symbols.{IsSymbolOf};

use crate::offsets::token_offsets;
use crate::tokens::{is_kind, is_name};
use std::alloc::Global;
use ti_base::Memory;
use ti_lex::end_of;
use ti_lsp::{Symbol, SymbolKind};
use ti_syntax::{Token, TokenKind};

// The number of open braces after the token, if there were this many before it.
fn depth_after(tokens: &[Token], index: usize, depth: u64) -> u64 {
    match tokens.get(index) {
        Some(token) => match &token.kind {
            TokenKind::LeftBrace => depth.saturating_add(1),
            TokenKind::RightBrace => depth.saturating_sub(1),
            _ => depth,
        },
        None => depth,
    }
}

// What the name at this index declares, within this many open braces. Members are within one.
fn declared_kind(tokens: &[Token], index: usize, depth: u64) -> Option<SymbolKind> {
    let before = index.checked_sub(1)?;
    let next = index.saturating_add(1);
    if !is_name(tokens, index) {
        None
    } else if is_kind(tokens, before, &TokenKind::KeywordClass) {
        Some(SymbolKind::Class)
    } else if depth != 1 {
        None
    } else if is_kind(tokens, next, &TokenKind::LeftParen) {
        Some(SymbolKind::Method)
    } else if is_kind(tokens, next, &TokenKind::Semicolon) {
        Some(SymbolKind::Field)
    } else {
        None
    }
}

// The symbol whose name begins at this offset, if the name is text.
fn symbol_at(
    alloc: Global,
    text: &[u8],
    start: usize,
    kind: SymbolKind,
) -> Result<Option<Symbol>, Memory>
    ensures { IfOk result (λ o. IfSome o (IsSymbolOf text.now)) }
{
    if start >= text.len() {
        return Ok(None);
    }
    let end = end_of(alloc, text, start)?;
    let Ok(name) = String::from_utf8(text[start..end].to_vec(alloc)?) else {
        return Ok(None);
    };
    Ok(Some(Symbol {
        name,
        kind,
        start,
        end,
    }))
}

/// The classes, methods and fields that a source declares, in its order. The tokens are those of the source.
///
/// Requires that no line or column of the text exceeds 32 bits.
#[tactic(auto, using(crate::proofs::SymbolLists::one_more))]
pub fn symbols_of(alloc: Global, text: &[u8], tokens: &[Token]) -> Result<Vec<Symbol>, Memory>
    requires { length text.now + 2 < 2 ^ 32 }
    ensures { IfOk result (λ v. All (IsSymbolOf text.now) v.items) }
{
    let offsets = token_offsets(alloc, text, tokens)?;
    let mut symbols = Vec::new(alloc);
    let mut depth = 0;
    for (index, start) in offsets.iter().enumerate() {
        depth = depth_after(tokens, index, depth);
        if let Some(kind) = declared_kind(tokens, index, depth) {
            if let Some(symbol) = symbol_at(alloc, text, *start, kind)? {
                symbols.push(symbol)?;
            }
        }
    }
    Ok(symbols)
}
