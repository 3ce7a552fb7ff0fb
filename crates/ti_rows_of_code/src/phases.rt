// Compiles a source up to its checked program, with one error type for all passes.

ghost use Rattle.std.specs.Prelude.{IfOk};
ghost use Rattle.ti_parse_expr.specs.Answers.{EndsAtEnd};

use std::alloc::Global;
use ti_check::{CheckErr, check};
use ti_lang::program::Program;
use ti_lex::{LexErr, lex};
use ti_names::{NameErr, resolve};
use ti_parse::{ParseErr, parse};
use ti_rules::Checked;
use ti_syntax::Token;
use ti_syntax::tree::Tree;

/// The source is rejected, or memory runs out.
#[derive(Clone, Copy)]
pub(crate) struct FrontEndError;

impl From<LexErr> for FrontEndError {
    fn from(_error: LexErr) -> FrontEndError {
        FrontEndError
    }
}

impl From<ParseErr> for FrontEndError {
    fn from(_error: ParseErr) -> FrontEndError {
        FrontEndError
    }
}

impl From<NameErr> for FrontEndError {
    fn from(_error: NameErr) -> FrontEndError {
        FrontEndError
    }
}

impl From<CheckErr> for FrontEndError {
    fn from(_error: CheckErr) -> FrontEndError {
        FrontEndError
    }
}

/// Lexes a source.
fn tokens(alloc: Global, text: &[u8]) -> Result<Vec<Token>, FrontEndError>
    ensures { IfOk result (λ list. EndsAtEnd list.items) }
{
    Ok(lex(alloc, text)?)
}

/// Lexes and parses a source.
fn parse_source(alloc: Global, text: &[u8]) -> Result<Tree, FrontEndError> {
    let list = tokens(alloc, text)?;
    Ok(parse(alloc, &list)?)
}

/// Lexes, parses and resolves a source. Types and `single` are not checked.
pub(crate) fn resolve_source(alloc: Global, text: &[u8]) -> Result<Program, FrontEndError> {
    let tree = parse_source(alloc, text)?;
    Ok(resolve(alloc, &tree)?)
}

/// Compiles a source up to its checked program.
fn check_source(alloc: Global, text: &[u8]) -> Result<Checked, FrontEndError> {
    let program = resolve_source(alloc, text)?;
    Ok(check(alloc, program)?)
}

/// The checked program of a source; none if the source is rejected or memory runs out.
pub(crate) fn checked_of(alloc: Global, text: &[u8]) -> Option<Checked> {
    check_source(alloc, text).ok()
}
