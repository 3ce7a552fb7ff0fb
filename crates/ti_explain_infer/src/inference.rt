// From a text to its explanation in mode infer: its program without annotations is checked by the rules of types and qualifiers, and then its
// annotations are inferred.
ghost use Rattle.std.specs.Prelude.{◌≡◌, [], map, IfOk};
ghost use Rattle.ti_lang.specs.Program.Views.{program_of};
ghost use Rattle.ti_rules.specs.TypeRules.{type_refusals};
ghost use Rattle.ti_infer.specs.Stripped.{stripped};
ghost use Rattle.ti_explain.specs.ReasonSpans.{without_len, HasLengths};
ghost use Rattle.ti_explain_infer.specs.InferenceReasons.{IsResolved, IsTypeRefusal, ExplainsInference};
ghost use Rattle.ti_explain_infer.specs.Mirrors.Phases.{neither_before, IsExplainedAs, GivesChainExplained};

use crate::early::{explain_unread, read_program};
use crate::links::chain_reasons;
use std::alloc::Global;
use ti_base::Memory;
use ti_check::{CheckErr, check_types};
use ti_explain::{Explanation, RefusalReasons, explain, explanation_of};
use ti_infer::{stripped, stripped_once, unaligned_chain};
use ti_lang::program::Program;
use ti_lex::one_reading;
use ti_names::one_program;
use ti_parse::one_text;
use ti_rules::{Refusal, Rule};

// Whether two refusals are the same one.
fn is_same(a: Refusal, b: Refusal) -> bool
    ensures { result ≡ neither_before a b }
{
    !a.is_before(b) && !b.is_before(a)
}

// A refusal without reasons.
fn without_reasons(alloc: Global, text: &[u8], refusal: Refusal) -> Result<Explanation, Memory>
    ensures refusal { IfOk result (λ e. e.refusal ≡ refusal) }
    ensures reasons { IfOk result (λ e. map without_len e.reasons.items ≡ []) }
    ensures lengths { IfOk result (HasLengths text.now) }
{
    let reasons = Vec::new(alloc);
    explanation_of(alloc, text, RefusalReasons { refusal, reasons })
}

// A refusal by a rule of types and qualifiers, with the reasons that mode check has for it, if that has the same refusal.
fn explain_types(alloc: Global, text: &[u8], refusal: Refusal) -> Result<Explanation, Memory>
    requires { IsTypeRefusal text.now refusal }
    ensures { IfOk result (IsExplainedAs text.now refusal) }
{
    one_reading();
    one_text();
    one_program();
    match explain(alloc, text)? {
        Some(explanation) => {
            if is_same(explanation.refusal, refusal) {
                Ok(explanation)
            } else {
                without_reasons(alloc, text, refusal)
            }
        }
        None => without_reasons(alloc, text, refusal),
    }
}

// Why no annotations align the collectives of a program; None if some do.
fn explain_chain(
    alloc: Global,
    text: &[u8],
    program: &Program,
) -> Result<Option<Explanation>, Memory>
    requires types { type_refusals (program_of program.now.parts) ≡ [] }
    requires stripped { stripped (program_of program.now.parts) ≡ program_of program.now.parts }
    ensures { GivesChainExplained text.now (program_of program.now.parts) result }
{
    match unaligned_chain(alloc, program)? {
        Some(found) => {
            let reasons = chain_reasons(alloc, program, found.place, &found.steps)?;
            let refusal = Refusal {
                rule: Rule::B1,
                place: found.place,
            };
            let found = RefusalReasons { refusal, reasons };
            Ok(Some(explanation_of(alloc, text, found)?))
        }
        None => Ok(None),
    }
}

// The explanation of a text with this program.
fn explain_program(
    alloc: Global,
    text: &[u8],
    program: Program,
) -> Result<Option<Explanation>, Memory>
    requires { IsResolved text.now (program_of program.parts) }
    ensures { ExplainsInference text.now result }
{
    stripped_once();
    let program = stripped(program);
    match check_types(alloc, &program) {
        Ok(()) => explain_chain(alloc, text, &program),
        Err(CheckErr::Refused(refusal)) => Ok(Some(explain_types(alloc, text, refusal)?)),
        Err(CheckErr::Memory) => Err(Memory),
    }
}

/// Explains why mode infer refuses a text: its refusal there, with the reasons for it, each with the length of the token at its position; None
/// if mode infer accepts the text. The only error is Memory.
pub fn explain_inference(alloc: Global, text: &[u8]) -> Result<Option<Explanation>, Memory>
    ensures { ExplainsInference text.now result }
{
    match read_program(alloc, text)? {
        Some(program) => explain_program(alloc, text, program),
        None => explain_unread(alloc, text),
    }
}
