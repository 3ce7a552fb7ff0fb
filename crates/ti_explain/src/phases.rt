// From a text to its explanation: the phases of the compiler in order, each of which may refuse.
ghost use Rattle.std.specs.Prelude.{◌≡◌, []};
ghost use Rattle.ti_syntax.specs.Trees.Text.{tree_of};
ghost use Rattle.ti_lang.specs.Program.Views.{program_of};
ghost use Rattle.ti_parse_expr.specs.Answers.{EndsAtEnd};
ghost use Rattle.ti_rules.specs.TypeRules.{type_refusals};
ghost use Rattle.ti_explain.specs.Explanations.{Explains};
ghost use Rattle.ti_explain.specs.Mirrors.Phases.{ProgramExplained, TreeExplained, TokensExplained, TextExplained};
ghost use Rattle.ti_explain.specs.Mirrors.Trials.{AreTokens};

use crate::depth::too_deep_reasons;
use crate::expected::expected_tokens;
use crate::methods::{single_reasons, type_reasons};
use crate::reason::{Explanation, RefusalReasons};
use crate::refused_names::refused_name_reasons;
use crate::spans::explanation_of;
use std::alloc::Global;
use ti_base::Memory;
use ti_check::{CheckErr, check, check_types};
use ti_lang::program::Program;
use ti_lex::{LexErr, lex, one_reading};
use ti_names::{NameErr, one_program, resolve};
use ti_parse::{ParseErr, one_text, parse};
use ti_rules::{Refusal, Rule, one_program_refusal};
use ti_syntax::Token;
use ti_syntax::tree::Tree;

// A refusal without reasons.
fn unexplained(alloc: Global, refusal: Refusal) -> RefusalReasons
    ensures refusal { result.refusal ≡ refusal }
    ensures reasons { result.reasons.items ≡ [] }
{
    RefusalReasons {
        refusal,
        reasons: Vec::new(alloc),
    }
}

// The first refusal of a program by the rules of single values, with its reasons. The program is checked as a copy, since a check that
// refuses drops it.
fn explain_single(
    alloc: Global,
    tree: &Tree,
    program: Program,
) -> Result<Option<RefusalReasons>, Memory>
    requires { type_refusals (program_of program.parts) ≡ [] }
    ensures { ProgramExplained (tree_of tree.now) (program_of program.parts) result }
{
    match check(alloc, program.copy(alloc)?) {
        Ok(_) => Ok(None),
        Err(CheckErr::Refused(refusal)) => {
            let reasons = single_reasons(alloc, tree, &program, refusal)?;
            Ok(Some(RefusalReasons { refusal, reasons }))
        }
        Err(CheckErr::Memory) => Err(Memory),
    }
}

// The explanation of a program, which is that of the tree.
fn explain_program(
    alloc: Global,
    tree: &Tree,
    program: Program,
) -> Result<Option<RefusalReasons>, Memory>
    ensures { ProgramExplained (tree_of tree.now) (program_of program.parts) result }
{
    match check_types(alloc, &program) {
        Ok(()) => explain_single(alloc, tree, program),
        Err(CheckErr::Refused(refusal)) => {
            let reasons = type_reasons(alloc, tree, &program, refusal)?;
            Ok(Some(RefusalReasons { refusal, reasons }))
        }
        Err(CheckErr::Memory) => Err(Memory),
    }
}

// The explanation of a tree.
fn explain_tree(alloc: Global, tree: &Tree) -> Result<Option<RefusalReasons>, Memory>
    ensures { TreeExplained (tree_of tree.now) result }
{
    one_program();
    match resolve(alloc, tree) {
        Ok(program) => explain_program(alloc, tree, program),
        Err(NameErr::Refused(refusal)) => {
            let reasons = refused_name_reasons(alloc, tree, refusal)?;
            Ok(Some(RefusalReasons { refusal, reasons }))
        }
        Err(NameErr::Memory) => Err(Memory),
    }
}

// The explanation of a list of tokens.
fn explain_tokens(alloc: Global, tokens: Vec<Token>) -> Result<Option<RefusalReasons>, Memory>
    requires tokens { AreTokens tokens.items }
    requires ends { EndsAtEnd tokens.items }
    ensures { TokensExplained tokens.items result }
{
    match parse(alloc, &tokens) {
        Ok(tree) => explain_tree(alloc, &tree),
        Err(ParseErr::Refused(refusal)) => match refusal.rule {
            Rule::G1 => {
                let reasons = expected_tokens(alloc, tokens, refusal.place)?;
                Ok(Some(RefusalReasons { refusal, reasons }))
            }
            _ => {
                let reasons = too_deep_reasons(alloc, &tokens, refusal.place)?;
                Ok(Some(RefusalReasons { refusal, reasons }))
            }
        },
        Err(ParseErr::Memory) => Err(Memory),
    }
}

// The refusal of a text, with its reasons; None if the text has no refusal.
fn reasons_of(alloc: Global, text: &[u8]) -> Result<Option<RefusalReasons>, Memory>
    ensures { TextExplained text.now result }
{
    one_reading();
    one_text();
    one_program();
    one_program_refusal();
    match lex(alloc, text) {
        Ok(tokens) => explain_tokens(alloc, tokens),
        Err(LexErr::Refused(refusal)) => Ok(Some(unexplained(alloc, refusal))),
        Err(LexErr::Memory) => Err(Memory),
    }
}

/// Explains why a text is refused: its refusal, with the reasons for it, each with the length of the token at its position; None if the
/// text has no refusal. The only error is Memory.
pub fn explain(alloc: Global, text: &[u8]) -> Result<Option<Explanation>, Memory>
    ensures { Explains text.now result }
{
    match reasons_of(alloc, text)? {
        Some(found) => Ok(Some(explanation_of(alloc, text, found)?)),
        None => Ok(None),
    }
}
