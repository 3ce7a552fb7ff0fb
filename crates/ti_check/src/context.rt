// The context of a statement.
ghost use Rattle.std.specs.Prelude.{◌≡◌};
ghost use Rattle.ti_lang.specs.Program.Scope.{this_of};
ghost use Rattle.ti_lang.specs.Program.Views.{program_of, numbered_method_of};
ghost use Rattle.ti_lang.specs.Typing.Effects.{return_acts};

use ti_lang::program::{Method, Program, Scope};

/// The context of a statement: its method, the parameters and foreach variables in scope, and whether it is in a loop.
#[derive(Clone, Copy)]
pub struct CheckContext<'a> {
    pub program: &'a Program,
    pub method: &'a Method,
    pub scope: &'a Scope,
    /// Whether a `return` of the method counts as a global effect.
    pub return_is_global: bool,
    /// Whether there is an enclosing loop. Whether a jump out of it counts as a global effect is known only after its body.
    pub is_in_loop: bool,
    ghost of_method: { scope.now.this ≡ this_of (numbered_method_of method.now) },
    ghost returning: { return_is_global ≡ return_acts (program_of program.now.parts) (numbered_method_of method.now) },
}
