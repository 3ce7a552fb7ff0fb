// Where the nest of statements, or the expression, begins that is too deep at a token. The tokens alone tell: the weight of an expression
// is a count of tokens, and the body of a method is within two braces.
ghost use Rattle.std.specs.Prelude.{◌≡◌, ◌<◌, ◌+◌, length, ◌^◌, slice_get, reverse, false, Some, IfOk};
ghost use Rattle.ti_syntax.specs.Spelling.{TooDeep, IsGrammarRefusal};
ghost use Rattle.ti_explain.specs.Mirrors.Trials.{AreTokens};
ghost use Rattle.ti_explain.specs.DepthReasons.{AreTooDeepReasons, counted_behind, first_counted, begins_compound, separates, is_else, braces_after, parens_after, body_statements, outermost, nest_reason, weight_reason, depth_reasons};

use crate::expected::first_at;
use crate::reason::{ReasonKind, RefusalReason};
use std::alloc::Global;
use ti_base::{Memory, Place};
use ti_lex::tokens_in_order;
use ti_parse_expr::operators::{arity_behind, counts};
use ti_parse_expr::weight::MOST_WEIGHT;
use ti_syntax::{Token, TokenKind};

// ---- expressions

// The positions of the tokens that are counted in weights.
fn counted_places(alloc: Global, list: &[Token]) -> Result<Vec<Place>, Memory>
    ensures { IfOk result (λ v. v.items ≡ counted_behind 0 list.now) }
{
    let mut found = Vec::new(alloc);
    let mut arity = 0;
    let mut rest = list;
    while let [first, after @ ..] = rest {
        if arity > 0 {
            arity -= 1;
        } else {
            if counts(&first.kind) {
                found.push(first.place)?;
            }
            arity = arity_behind(&first.kind);
        }
        rest = after;
    }
    Ok(found)
}

// The position that has this number counted from the end of the list, beginning with 0.
fn nth_last(places: &[Place], index: usize) -> Option<Place>
    ensures { result ≡ slice_get (reverse places.now) index }
{
    if index < places.len() {
        Some(places[places.len() - 1 - index])
    } else {
        None
    }
}

// ---- statements

// Whether the token is the first one of a compound statement.
fn begins_compound(kind: &TokenKind) -> bool
    ensures { result ≡ begins_compound kind.now }
{
    matches!(
        kind,
        TokenKind::LeftBrace
            | TokenKind::KeywordIf
            | TokenKind::KeywordWhile
            | TokenKind::KeywordFor
            | TokenKind::KeywordForeach
    )
}

// Whether a statement can begin after this token that isn't part of another one.
fn separates(kind: &TokenKind) -> bool
    ensures { result ≡ separates kind.now }
{
    matches!(
        kind,
        TokenKind::LeftBrace | TokenKind::RightBrace | TokenKind::Semicolon
    )
}

// Whether the token continues an `if`.
fn is_else(kind: &TokenKind) -> bool
    ensures { result ≡ is_else kind.now }
{
    matches!(kind, TokenKind::KeywordElse)
}

// How many braces are open after this token, if so many were open before it.
fn braces_after(count: usize, kind: &TokenKind) -> usize
    requires { count + 1 < 2 ^ 64 }
    ensures { result ≡ braces_after count kind.now }
{
    match kind {
        TokenKind::LeftBrace => count + 1,
        TokenKind::RightBrace => count.saturating_sub(1),
        _ => count,
    }
}

// How many parentheses are open after this token, if so many were open before it.
fn parens_after(count: usize, kind: &TokenKind) -> usize
    requires { count + 1 < 2 ^ 64 }
    ensures { result ≡ parens_after count kind.now }
{
    match kind {
        TokenKind::LeftParen => count + 1,
        TokenKind::RightParen => count.saturating_sub(1),
        _ => count,
    }
}

// The positions of the statements directly in the bodies of methods.
fn body_statements(alloc: Global, list: &[Token]) -> Result<Vec<Place>, Memory>
    ensures { IfOk result (λ v. v.items ≡ body_statements 0 0 false list.now) }
{
    let mut found = Vec::new(alloc);
    let mut braces = 0;
    let mut parens = 0;
    let mut fresh = false;
    let mut rest = list;
    while let [first, after @ ..] = rest {
        if fresh && braces == 2 && parens == 0 && !is_else(&first.kind) {
            found.push(first.place)?;
        }
        braces = braces_after(braces, &first.kind);
        parens = parens_after(parens, &first.kind);
        fresh = separates(&first.kind);
        rest = after;
    }
    Ok(found)
}

// ---- reasons

// The reason that the nest of statements begins at this position, if there is one.
fn nest_reason(alloc: Global, place: Option<Place>) -> Result<Vec<RefusalReason>, Memory>
    ensures { IfOk result (λ v. v.items ≡ nest_reason place) }
{
    let mut found = Vec::new(alloc);
    if let Some(place) = place {
        let kind = ReasonKind::NestBegins;
        found.push(RefusalReason { place, kind })?;
    }
    Ok(found)
}

// The reason that the counted tokens of the expression begin at this position, if there is one.
fn weight_reason(alloc: Global, place: Option<Place>) -> Result<Vec<RefusalReason>, Memory>
    ensures { IfOk result (λ v. v.items ≡ weight_reason place) }
{
    let mut found = Vec::new(alloc);
    if let Some(place) = place {
        let kind = ReasonKind::WeightBegins;
        found.push(RefusalReason { place, kind })?;
    }
    Ok(found)
}

// Where the nest of statements, or the expression, begins that is above its limit at the last one of these tokens, whose kind this is.
fn depth_reasons(
    alloc: Global,
    kind: &TokenKind,
    upto: &[Token],
) -> Result<Vec<RefusalReason>, Memory>
    ensures { IfOk result (λ v. v.items ≡ depth_reasons kind.now upto.now) }
{
    if begins_compound(kind) {
        let places = body_statements(alloc, upto)?;
        return nest_reason(alloc, nth_last(&places, 0));
    }
    let places = counted_places(alloc, upto)?;
    weight_reason(alloc, nth_last(&places, MOST_WEIGHT as usize))
}

/// Where the nest of statements, or the expression, begins that is above its limit at the first token that is too deep, which is at this
/// position, as a reason.
pub fn too_deep_reasons(
    alloc: Global,
    tokens: &[Token],
    place: Place,
) -> Result<Vec<RefusalReason>, Memory>
    requires tokens { AreTokens tokens.now }
    requires misfit { IsGrammarRefusal tokens.now (Some (TooDeep, place)) }
    ensures { IfOk result (λ v. AreTooDeepReasons tokens.now place v.items) }
{
    tokens_in_order();
    let Some(index) = first_at(tokens, place) else {
        unreachable!()
    };
    let Some(here) = tokens.get(index) else {
        unreachable!()
    };
    depth_reasons(alloc, &here.kind, &tokens[..index + 1])
}
