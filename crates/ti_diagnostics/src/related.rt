// The reasons for an error as places of its text.
ghost use Rattle.std.specs.Prelude.{◌≡◌, true, false, IfOk, IfSome, None, Ok};
ghost use Rattle.ti_diagnostics.specs.Rejections.{AreRelated, IsRelatedTo, IsUnrelated};

use std::alloc::Global;
use ti_base::{Memory, Place};
use ti_explain::{Explanation, ReasonSpan};
use ti_lex::{end_of, offset_of};
use ti_lsp::Related;
use ti_wording::{display_text, is_own, is_said, reason_label, token_at};

// The number of related places of an error, at most: the first ones.
const MOST_RELATED: usize = 16;

// Whether two positions are equal.
#[tactic(auto, using(crate::proofs::Positions::same_decides))]
fn is_same(p: Place, q: Place) -> bool
    ensures same { result ≡ true → p ≡ q }
    ensures other { result ≡ false → p ≡ q → ⊥ }
{
    p.line == q.line && p.col == q.col
}

// What a reason says of its position.
fn label_of(alloc: Global, text: &[u8], reason: &ReasonSpan) -> Result<String, Memory> {
    let Ok(token) = display_text(alloc, token_at(text, reason.place, reason.len)) else {
        return Err(Memory);
    };
    match reason_label(alloc, &reason.kind, token.as_str()) {
        Ok(label) => Ok(label),
        Err(_) => Err(Memory),
    }
}

// The place of a reason, if there are still fewer than the most. A reason at the position of the error that says no more than the error does
// has none.
#[tactic(auto, using(crate::proofs::RelatedPlaces::related_to, crate::proofs::RelatedPlaces::too_many, crate::proofs::RelatedPlaces::at_error, crate::proofs::RelatedPlaces::nowhere))]
fn place_of_reason(
    alloc: Global,
    text: &[u8],
    explanation: &Explanation,
    count: usize,
    reason: &ReasonSpan,
) -> Result<Option<Related>, Memory>
    ensures some { IfOk result (λ o. IfSome o (IsRelatedTo text.now reason.now)) }
    ensures none { result ≡ Ok None
        → IsUnrelated text.now explanation.now.refusal count reason.now }
{
    if count >= MOST_RELATED {
        return Ok(None);
    }
    let is_there = is_same(reason.place, explanation.refusal.place);
    if is_there && (is_own(&reason.kind) || is_said(explanation, reason)) {
        return Ok(None);
    }
    let Some(start) = offset_of(text, reason.place) else {
        return Ok(None);
    };
    let end = end_of(alloc, text, start)?;
    let message = label_of(alloc, text, reason)?;
    Ok(Some(Related {
        start,
        end,
        message,
    }))
}

// The places of these reasons for an error, in their order.
#[tactic(auto, using(crate::proofs::RelatedPlaces::none_yet, crate::proofs::RelatedPlaces::one_related, crate::proofs::RelatedPlaces::one_unrelated))]
fn places_of(
    alloc: Global,
    text: &[u8],
    explanation: &Explanation,
    reasons: &[ReasonSpan],
) -> Result<Vec<Related>, Memory>
    ensures { IfOk result (λ v.
        AreRelated text.now explanation.now.refusal reasons.now v.items) }
{
    let mut places = Vec::new(alloc);
    for reason in reasons {
        if let Some(place) = place_of_reason(alloc, text, explanation, places.len(), reason)? {
            places.push(place)?;
        }
    }
    Ok(places)
}

/// The places of the reasons for an error, in their order.
pub fn related_places(
    alloc: Global,
    text: &[u8],
    explanation: &Explanation,
) -> Result<Vec<Related>, Memory>
    ensures { IfOk result (λ v. AreRelated text.now explanation.now.refusal
        explanation.now.reasons.items v.items) }
{
    let places = places_of(alloc, text, explanation, &explanation.reasons)?;
    Ok(places)
}
