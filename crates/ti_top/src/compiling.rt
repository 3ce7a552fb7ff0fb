// From a text to its checked program: the phases in order, each of which may refuse.
ghost use Rattle.std.specs.Prelude.{◌≡◌, ◌⊎◌, ℕ, List};
ghost use Rattle.ti_lang.specs.Program.Classes.{ProgramView};
ghost use Rattle.ti_rules.specs.declared.refusal.Refusal.{Refusal as RefusalSeen};
ghost use Rattle.ti_rules.specs.RefusalOf.{HasProgram, IsRefusal};
ghost use Rattle.ti_top.specs.Mirrors.Compiling.{ReadsProgram, Compiles};

use crate::exit::Exit;
use std::alloc::Global;
use ti_align::aligned;
use ti_check::{CheckErr, check};
use ti_lang::program::Program;
use ti_lex::{LexErr, lex, one_reading};
use ti_names::{NameErr, one_program, resolve};
use ti_parse::{ParseErr, one_text, parse};
use ti_rules::{Checked, Refusal, one_program_refusal};

/// Why a text has no program.
#[derive(Clone, Copy, Debug, PartialEq, Eq)]
pub enum CompileErr {
    /// It is refused.
    Refused(Refusal),
    /// Out of memory.
    Memory,
}

impl From<CompileErr> for Exit {
    ghost use Rattle.std.specs.Prelude.{◌≡◌};
    ghost use Rattle.ti_top.specs.Mirrors.Compiling.{ending_by};

    ghost from_gives = { λ e found. found ≡ ending_by e };

    fn from(error: CompileErr) -> Exit {
        match error {
            CompileErr::Refused(refusal) => Exit::Refused(refusal),
            CompileErr::Memory => Exit::NoMemory,
        }
    }
}

impl From<LexErr> for CompileErr {
    ghost use Rattle.std.specs.Prelude.{◌≡◌};
    ghost use Rattle.ti_top.specs.Mirrors.Compiling.{of_lexer};

    ghost from_gives = { λ e found. found ≡ of_lexer e };

    fn from(error: LexErr) -> CompileErr {
        match error {
            LexErr::Refused(refusal) => CompileErr::Refused(refusal),
            LexErr::Memory => CompileErr::Memory,
        }
    }
}

impl From<ParseErr> for CompileErr {
    ghost use Rattle.std.specs.Prelude.{◌≡◌};
    ghost use Rattle.ti_top.specs.Mirrors.Compiling.{of_parser};

    ghost from_gives = { λ e found. found ≡ of_parser e };

    fn from(error: ParseErr) -> CompileErr {
        match error {
            ParseErr::Refused(refusal) => CompileErr::Refused(refusal),
            ParseErr::Memory => CompileErr::Memory,
        }
    }
}

impl From<NameErr> for CompileErr {
    ghost use Rattle.std.specs.Prelude.{◌≡◌};
    ghost use Rattle.ti_top.specs.Mirrors.Compiling.{of_names};

    ghost from_gives = { λ e found. found ≡ of_names e };

    fn from(error: NameErr) -> CompileErr {
        match error {
            NameErr::Refused(refusal) => CompileErr::Refused(refusal),
            NameErr::Memory => CompileErr::Memory,
        }
    }
}

impl From<CheckErr> for CompileErr {
    ghost use Rattle.std.specs.Prelude.{◌≡◌};
    ghost use Rattle.ti_top.specs.Mirrors.Compiling.{of_check};

    ghost from_gives = { λ e found. found ≡ of_check e };

    fn from(error: CheckErr) -> CompileErr {
        match error {
            CheckErr::Refused(refusal) => CompileErr::Refused(refusal),
            CheckErr::Memory => CompileErr::Memory,
        }
    }
}

/// A law: a text has one program or one refusal, and never both.
pub fn one_answer()
    ensures some { (text : List ℕ) → ((program : ProgramView) × HasProgram text program)
        ⊎ ((refusal : RefusalSeen) × IsRefusal text refusal) }
    ensures one_program { (text : List ℕ) (p q : ProgramView) → HasProgram text p → HasProgram text q → p ≡ q }
    ensures one_refusal { (text : List ℕ) (a b : RefusalSeen) → IsRefusal text a → IsRefusal text b → a ≡ b }
    ensures never_both { (text : List ℕ) (program : ProgramView) (refusal : RefusalSeen) → HasProgram text program
        → IsRefusal text refusal → ⊥ }
{
    one_reading();
    one_text();
    one_program();
    one_program_refusal();
}

/// Reads a text as a program: lexes it, parses the tokens, and resolves the names. Each phase's input is freed as soon as the next has its own.
pub fn read_program(alloc: Global, text: &[u8]) -> Result<Program, CompileErr>
    ensures { ReadsProgram text.now result }
{
    one_reading();
    one_text();
    one_program();
    let tokens = lex(alloc, text)?;
    let tree = parse(alloc, &tokens)?;
    drop(tokens);
    let program = resolve(alloc, &tree)?;
    Ok(program)
}

/// Compiles a text to a checked program: reads it, and checks the rules of types, qualifiers and single values. A checked program is aligned.
pub fn compile(alloc: Global, text: &[u8]) -> Result<Checked, CompileErr>
    ensures { Compiles text.now result }
{
    one_answer();
    let program = read_program(alloc, text)?;
    let checked = check(alloc, program)?;
    aligned(&checked);
    Ok(checked)
}
