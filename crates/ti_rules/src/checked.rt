// Checked programs: those that break no rule.

ghost use Rattle.std.specs.Prelude.{◌≡◌};
ghost use Rattle.ti_lang.specs.Program.Views.{program_of};
ghost use Rattle.ti_rules.specs.Mirrors.LiteralFacts.{one_way};
ghost use Rattle.ti_rules.specs.Mirrors.Literals.{LiteralsFit};
ghost use Rattle.ti_rules.specs.ProgramRefusals.{BreaksNothing, IsChecked};

use crate::reading::literals_fit;
use ti_lang::program::Program;

/// A program that breaks no rule: of names, of types and qualifiers, and of single values.
#[derive(Drop)]
pub struct Checked {
    pub program: Program,
    ghost unbroken: { BreaksNothing (program_of program.parts) },
    ghost literals: { LiteralsFit (program_of program.parts) } by { one_way (program_of program.parts) },
}

impl Checked {
    /// A resolved program, which keeps the rules of names, that breaks no other rule. Reads the program's literals once.
    ///
    /// For the prover: reading them brings the ranges of their types into scope, so that every later pass knows them.
    pub fn of(unbroken: Program) -> Checked
        requires { BreaksNothing (program_of unbroken.parts) }
        ensures { result.program ≡ unbroken }
    {
        literals_fit(&unbroken);
        Checked { program: unbroken }
    }

    /// The program.
    pub fn program(&self) -> &Program
        ensures program { result.now ≡ self.now.program }
        ensures checked { IsChecked (program_of self.now.program.parts) }
    {
        &self.program
    }
}
