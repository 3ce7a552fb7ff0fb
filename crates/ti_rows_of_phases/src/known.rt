// Checks the precondition of `type_of`: that the names of an expression are declared. The check is sound but incomplete, which is enough
// for the expressions of the rows.

ghost use Rattle.std.specs.Prelude.{IsTrue};
ghost use Rattle.ti_lang.specs.Program.Scope.{contents_of};
ghost use Rattle.ti_lang.specs.Program.Views.{expression_of, program_of};
ghost use Rattle.ti_rules.specs.Known.{IsKnown};

use ti_lang::program::{Expr, ProgramData, Scope};
use ti_lang::typing::variable_type;

/// Whether the names of an expression are declared in a program and a scope. False for `this`, fields of `this`, calls, points, domains and
/// indexing, even if their names are declared.
pub(crate) fn is_known(p: &ProgramData, s: &Scope, e: &Expr) -> bool
    ensures { IsTrue result → IsKnown (program_of p.now) (contents_of s.now) (expression_of e.now) }
{
    match e {
        Expr::Int(_, _) => true,
        Expr::Long(_, _) => true,
        Expr::Bool(_, _) => true,
        Expr::Null(_) => true,
        Expr::ThisProc(_) => true,
        Expr::NumProcs(_) => true,
        Expr::Variable(_, v) => variable_type(s, v).is_some(),
        Expr::Unary { operand, .. } => is_known(p, s, operand),
        Expr::Binary { left, right, .. } => is_known(p, s, left) && is_known(p, s, right),
        Expr::Cast { operand, .. } => is_known(p, s, operand),
        Expr::Select { receiver, .. } => is_known(p, s, receiver),
        _ => false,
    }
}
