// The lengths of reasons: each covers the token at its position.
ghost use Rattle.std.specs.Prelude.{◌≡◌, All, IfOk, map};
ghost use Rattle.ti_explain.specs.declared.reason.ReasonSpan.{ReasonSpan};
ghost use Rattle.ti_explain.specs.ReasonSpans.{IsLengthAt, HasLengths, without_len};

use crate::reason::{Explanation, ReasonSpan, RefusalReason, RefusalReasons};
use std::alloc::Global;
use ti_base::{Memory, Place};
use ti_lex::{end_of, offset_of};

// The length of the token at this position; 0 if the position isn't one of the text.
#[tactic(auto, using(crate::proofs::SpanLaws::length_there, crate::proofs::SpanLaws::no_length))]
fn token_len(alloc: Global, text: &[u8], place: Place) -> Result<usize, Memory>
    ensures { IfOk result (IsLengthAt text.now place) }
{
    match offset_of(text, place) {
        Some(start) => {
            let end = end_of(alloc, text, start)?;
            Ok(end - start)
        }
        None => Ok(0),
    }
}

// The reasons, each with the length of its token.
#[tactic(auto, using(crate::proofs::SpanLaws::one_span, crate::proofs::SpanLaws::one_length))]
fn spans_of(
    alloc: Global,
    text: &[u8],
    reasons: Vec<RefusalReason>,
) -> Result<Vec<ReasonSpan>, Memory>
    ensures reasons { IfOk result (λ v. map without_len v.items ≡ reasons.items) }
    ensures lengths { IfOk result (λ v. All (λ (s : ReasonSpan). IsLengthAt text.now s.place s.len) v.items) }
{
    let mut spans = Vec::new(alloc);
    for reason in reasons {
        let RefusalReason { place, kind } = reason;
        let len = token_len(alloc, text, place)?;
        spans.push(ReasonSpan { place, len, kind })?;
    }
    Ok(spans)
}

/// The refusal of this text and its reasons, each with the length of its token.
pub fn explanation_of(
    alloc: Global,
    text: &[u8],
    found: RefusalReasons,
) -> Result<Explanation, Memory>
    ensures refusal { IfOk result (λ e. e.refusal ≡ found.refusal) }
    ensures reasons { IfOk result (λ e. map without_len e.reasons.items ≡ found.reasons.items) }
    ensures lengths { IfOk result (HasLengths text.now) }
{
    let RefusalReasons { refusal, reasons } = found;
    let len = token_len(alloc, text, refusal.place)?;
    let reasons = spans_of(alloc, text, reasons)?;
    Ok(Explanation {
        refusal,
        len,
        reasons,
    })
}
