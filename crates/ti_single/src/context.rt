// The context of a statement, for the rules of single values.
ghost use Rattle.std.specs.Prelude.{◌≡◌};
ghost use Rattle.ti_lang.specs.Program.Scope.{this_of};
ghost use Rattle.ti_lang.specs.Program.Views.{program_of, numbered_method_of};
ghost use Rattle.ti_lang.specs.Typing.Effects.{return_acts};

use ti_lang::program::{Method, Program, Scope};

/// The context of a statement: its method, the parameters and foreach variables in scope, and the innermost enclosing loop, if any.
#[derive(Clone, Copy)]
pub struct SingleContext<'a> {
    pub program: &'a Program,
    pub method: &'a Method,
    pub scope: &'a Scope,
    /// Whether a `return` of the method counts as a global effect.
    pub return_is_global: bool,
    /// Whether a jump out of the innermost enclosing loop counts as a global effect; None if there is no loop.
    pub jump_has: Option<bool>,
    ghost of_method: { scope.now.this ≡ this_of (numbered_method_of method.now) },
    ghost returning: { return_is_global ≡ return_acts (program_of program.now.parts) (numbered_method_of method.now) },
}
