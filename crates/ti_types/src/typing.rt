// The public entry point to the type checker.
ghost use Rattle.ti_lang.specs.Program.Scope.{contents_of};
ghost use Rattle.ti_lang.specs.Program.Views.{program_of, expression_of};
ghost use Rattle.ti_rules.specs.Known.{IsKnown};
ghost use Rattle.ti_types.specs.Answer.{GivesType};

use crate::error::TypeErr;
use crate::exprs::TypeChecker;
use std::alloc::Global;
use ti_lang::program::{Expr, Program, Scope, Ty};

/// The type of an expression in a scope of a program.
///
/// Error: the first type error, by position, and at one position by the order in which the rules are listed; or Memory.
pub fn type_of(alloc: Global, program: &Program, scope: &Scope, expr: &Expr) -> Result<Ty, TypeErr>
    requires { IsKnown (program_of program.now.parts) (contents_of scope.now) (expression_of expr.now) }
    ensures { GivesType (program_of program.now.parts) (contents_of scope.now) (expression_of expr.now) result }
{
    let checker = TypeChecker {
        program: &program.parts,
    };
    let judged = checker.exp(scope, expr);
    match judged.first {
        Some(refusal) => Err(TypeErr::Refused(refusal)),
        None => match judged.ty {
            Some(ty) => Ok(ty.copy(alloc)?),
            None => unreachable!(),
        },
    }
}
