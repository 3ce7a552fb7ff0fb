// Errors of programs as diagnostics.
ghost use Rattle.std.specs.Prelude.{◌≡◌, ◌≤◌, IfOk, Ok, Some, length};
ghost use Rattle.ti_base.specs.Places.{place_of};
ghost use Rattle.ti_rules.specs.RefusalOf.{IsRefusal};
ghost use Rattle.ti_explain.specs.Explanations.{Explains};
ghost use Rattle.ti_diagnostics.specs.Rejections.{IsDiagnosticOf};

use crate::related::related_places;
use std::alloc::Global;
use ti_base::Memory;
use ti_explain::Explanation;
use ti_lex::{MOST_BYTES, end_of, offset_of};
use ti_lsp::Diagnostic;
use ti_rules::{Refusal, rule_text};
use ti_wording::{NoMemory, error_label, help_of};

// The offset of an error. A text that is too long is rejected at its first byte.
#[tactic(auto, using(crate::proofs::Positions::first_place))]
fn start_of(text: &[u8], refusal: Refusal) -> usize
    requires { IsRefusal text.now refusal }
    ensures within { result ≤ length text.now }
    ensures place { place_of text.now result ≡ refusal.place }
{
    if text.len() > MOST_BYTES {
        return 0;
    }
    match offset_of(text, refusal.place) {
        Some(start) => start,
        None => unreachable!(),
    }
}

// What is wrong at the position of an error.
fn label_of(alloc: Global, text: &[u8], explanation: &Explanation) -> Result<String, Memory> {
    match error_label(alloc, text, explanation) {
        Ok(label) => Ok(label),
        Err(NoMemory) => Err(Memory),
    }
}

// How an error is fixed.
fn help_for(alloc: Global, text: &[u8], explanation: &Explanation) -> Result<String, Memory> {
    match help_of(alloc, text, explanation) {
        Ok(help) => Ok(help),
        Err(NoMemory) => Err(Memory),
    }
}

/// The diagnostic of an explained error of a source: from the error's position to the end of the token there, with the reasons for it as
/// related places.
///
/// Requires that it is the explanation of the error of this source. The only error of the call is that memory ran out.
pub fn diagnostic_of(
    alloc: Global,
    text: &[u8],
    explanation: &Explanation,
) -> Result<Diagnostic, Memory>
    requires { Explains text.now (Ok (Some explanation.now)) }
    ensures { IfOk result (IsDiagnosticOf text.now explanation.now) }
{
    let refusal = explanation.refusal;
    let start = start_of(text, refusal);
    let end = end_of(alloc, text, start)?;
    let label = label_of(alloc, text, explanation)?;
    let help = help_for(alloc, text, explanation)?;
    let related = related_places(alloc, text, explanation)?;
    Ok(Diagnostic {
        start,
        end,
        code: refusal.rule.code(),
        message: rule_text(refusal.rule),
        label,
        help,
        related,
    })
}
