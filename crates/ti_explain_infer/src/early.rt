// The program of a text, by the phases that don't depend on annotations. A text without one is refused alike in all modes.
ghost use Rattle.ti_explain_infer.specs.InferenceReasons.{ExplainsInference};
ghost use Rattle.ti_explain_infer.specs.Mirrors.Phases.{IsUnread, GivesProgram};

use std::alloc::Global;
use ti_base::Memory;
use ti_explain::{Explanation, explain};
use ti_lang::program::Program;
use ti_lex::{LexErr, lex, one_reading};
use ti_names::{NameErr, one_program, resolve};
use ti_parse::{ParseErr, one_text, parse};

/// The program of a text, or none if the text breaks a rule of bytes, tokens or names. Errors only if it runs out of memory.
pub(crate) fn read_program(alloc: Global, text: &[u8]) -> Result<Option<Program>, Memory>
    ensures { GivesProgram text.now result }
{
    one_reading();
    one_text();
    one_program();
    match lex(alloc, text) {
        Ok(tokens) => match parse(alloc, &tokens) {
            Ok(tree) => match resolve(alloc, &tree) {
                Ok(program) => Ok(Some(program)),
                Err(NameErr::Refused(_)) => Ok(None),
                Err(NameErr::Memory) => Err(Memory),
            },
            Err(ParseErr::Refused(_)) => Ok(None),
            Err(ParseErr::Memory) => Err(Memory),
        },
        Err(LexErr::Refused(_)) => Ok(None),
        Err(LexErr::Memory) => Err(Memory),
    }
}

/// The explanation of a text without a program. Errors only if it runs out of memory.
pub(crate) fn explain_unread(alloc: Global, text: &[u8]) -> Result<Option<Explanation>, Memory>
    requires { IsUnread text.now }
    ensures { ExplainsInference text.now result }
{
    one_reading();
    one_text();
    one_program();
    explain(alloc, text)
}
