// What explanations ask of the parts of a program: the first error by the rules of types of one statement and of the head of a method, the
// type of a right side, and what a target is.
ghost use Rattle.std.specs.Prelude.{◌≡◌, ◌++◌, false, is_some};
ghost use Rattle.std.specs.Option.{option_map};
ghost use Rattle.ti_lang.specs.Program.Views.{expression_of, initial_of, statement_of, numbered_method_of};
ghost use Rattle.ti_lang.specs.Typing.TyRef.{ty_view};
ghost use Rattle.ti_rules.specs.Mirrors.First.{earliest};
ghost use Rattle.ti_rules.specs.InitialTypes.{initial_type};
ghost use Rattle.ti_rules.specs.StmtInContext.{stands};
ghost use Rattle.ti_rules.specs.Broken.Statements.{standing_refusals};
ghost use Rattle.ti_rules.specs.Broken.Targets.{is_point_coordinate};
ghost use Rattle.ti_rules.specs.TypeRules.{end_refusals, head_refusals};
ghost use Rattle.ti_single.specs.Contexts.{program_at, around_of, scope_at};
ghost use Rattle.ti_check.specs.Mirrors.Contexts as check;

use crate::context::CheckContext;
use crate::declarations::head;
use crate::methods::end;
use ti_lang::program::{Expr, Init, Method, Stmt};
use ti_lang::typing::TyRef;
use ti_rules::{Refusal, earlier_of};
use ti_single::SingleContext;

// The context for the rules of types: of a loop it is only known that there is one.
fn check_context<'a>(site: SingleContext<'a>) -> CheckContext<'a>
    ensures program { check.program_at result ≡ program_at site.entry }
    ensures around { check.around_of result
        ≡ record (around_of site.entry) { jump_has = check.jump_in (is_some (around_of site.entry).jump_has) false } }
{
    CheckContext {
        program: site.program,
        method: site.method,
        scope: site.scope,
        return_is_global: site.return_is_global,
        is_in_loop: site.jump_has.is_some(),
    }
}

/// The first error by the rules of types that a statement has by itself, without the statements in it.
pub fn statement_refusal(site: SingleContext<'_>, stmt: &Stmt) -> Option<Refusal>
    ensures { result ≡ earliest (standing_refusals (program_at site.entry) (stands (around_of site.entry) (statement_of stmt.now))) }
{
    check_context(site).types(stmt)
}

/// The type of a right side; None if an error by the rules of types is in it.
pub fn initial_type<'a>(site: SingleContext<'a>, value: &'a Init) -> Option<TyRef<'a>>
    ensures { option_map ty_view result ≡ initial_type (program_at site.entry) (scope_at site.entry) (initial_of value.now) }
{
    check_context(site).initial(value).ty
}

/// Whether a target is a coordinate of a point, into which nothing can be stored.
pub fn is_point_coordinate(site: SingleContext<'_>, target: &Expr) -> bool
    ensures { result ≡ is_point_coordinate (program_at site.entry) (scope_at site.entry) (expression_of target.now) }
{
    let context = check_context(site);
    context.is_coordinate(target, context.target(target).receiver)
}

/// The first error by the rules of types in the modifiers and qualifiers of a method, or at its end.
#[tactic(auto, using(ti_rules::proofs::Lemmas::firsts))]
pub fn head_refusal(method: &Method) -> Option<Refusal>
    ensures { result ≡ earliest (head_refusals (numbered_method_of method.now) ++ end_refusals (numbered_method_of method.now)) }
{
    earlier_of(head(method), end(method))
}
