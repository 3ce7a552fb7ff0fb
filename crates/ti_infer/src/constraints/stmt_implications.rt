// Constraints of one statement in its context, without its sub-statements.
ghost use Rattle.std.specs.Prelude.{◌≡◌, ◌++◌, ◌∷◌, [], map, Option, OnOk, IfOk};
ghost use Rattle.std.specs.Option.{option_map, option_and_then};
ghost use Rattle.ti_syntax.specs.Trees.Views.{maybe_of};
ghost use Rattle.ti_lang.specs.Program.Scope.{in_scope_of, contents_of, this_of};
ghost use Rattle.ti_lang.specs.Program.Views.{expression_of, initial_of, statement_of, numbered_method_of};
ghost use Rattle.ti_lang.specs.Typing.Kinds.{domain_dim};
ghost use Rattle.ti_lang.specs.Typing.TyRef.{ty_view};
ghost use Rattle.ti_lang.specs.Typing.Expressions.{operand_type};
ghost use Rattle.ti_lang.specs.Typing.Effects.{doings_of_maybe};
ghost use Rattle.ti_single.specs.Mirrors.Maybe.{maybe_in};
ghost use Rattle.ti_blame.specs.declared.reason.Reason.TheVariants.{OfVariable};
ghost use Rattle.ti_blame.specs.declared.implication.Conclusion.TheVariants.{One};
ghost use Rattle.ti_infer.specs.Reason.{target_reasons, result_reasons};
ghost use Rattle.ti_infer.specs.Mirrors.Dependencies.{dependencies, whole_dependencies, initial_dependencies};
ghost use Rattle.ti_infer.specs.Mirrors.Implications.{inside_at, one_each, each, ones, whole_edges, initial_edges, condition_edges, inside_foreach, variables_foreach};
ghost use Rattle.ti_infer.specs.Mirrors.Sites.{program_at, method_of_site, inside_of, dependencies_at};
ghost use Rattle.ti_infer.specs.Mirrors.StmtSites.{variables_at, always_if};

use crate::constraints::implications::{
    each, each_to, initial_dependencies, jumps_in, one_each, part_dependencies, whole_dependencies,
};
use crate::constraints::reasons::{result, target};
use crate::constraints::right_sides::{initial, whole_edges};
use crate::constraints::site::StmtSite;
use std::alloc::Global;
use ti_base::{Memory, Place};
use ti_blame::{Conclusion, Implication, Reason};
use ti_lang::program::{Expr, Init, Stmt};
use ti_lang::typing::TyRef;
use ti_types::TypeChecker;

// ---- assignments

/// Appends constraints of a variable's declaration: those of its right side, and unless that is single, the variable isn't.
#[tactic(auto, using(crate::proofs::Pushing::pushing))]
pub fn declare(
    alloc: Global,
    context: StmtSite,
    place: Place,
    value: &Init,
    out: &mut Vec<Implication>,
) -> Result<(), Memory>
    ensures { OnOk result (out.new.items ≡ out.old.items ++ (initial_edges (program_at context.entry.site) (method_of_site context.entry.site) context.entry.whole
        (inside_of context.entry.inside.now) (initial_of value.now) ++ one_each
        (initial_dependencies (program_at context.entry.site) (method_of_site context.entry.site) (inside_at (inside_of context.entry.inside.now))
        (initial_of value.now)) (One (OfVariable place)))) }
{
    initial(
        alloc,
        context.site,
        context.whole,
        context.inside,
        value,
        out,
    )?;
    let found = initial_dependencies(alloc, context.site, context.inside, value)?;
    one_each(&found, Conclusion::One(Reason::OfVariable(place)), out)
}

/// Appends constraints of an assignment: those of its right side, and unless that is single, the assigned variable isn't.
#[tactic(auto, using(crate::proofs::Pushing::pushing))]
pub fn assign(
    alloc: Global,
    context: StmtSite,
    to: &Expr,
    value: &Init,
    out: &mut Vec<Implication>,
) -> Result<(), Memory>
    ensures { OnOk result (out.new.items ≡ out.old.items ++ (initial_edges (program_at context.entry.site) (method_of_site context.entry.site) context.entry.whole
        (inside_of context.entry.inside.now) (initial_of value.now) ++ each
        (initial_dependencies (program_at context.entry.site) (method_of_site context.entry.site) (inside_at (inside_of context.entry.inside.now))
        (initial_of value.now)) (ones (target_reasons (program_at context.entry.site) (method_of_site context.entry.site) (expression_of to.now))))) }
{
    initial(
        alloc,
        context.site,
        context.whole,
        context.inside,
        value,
        out,
    )?;
    let found = initial_dependencies(alloc, context.site, context.inside, value)?;
    each_to(&found, target(context.site, to), out)
}

/// Appends constraints of a compound assignment: those of its right side, and unless that is single, the assigned variable isn't.
#[tactic(auto, using(crate::proofs::Pushing::pushing))]
pub fn update(
    alloc: Global,
    context: StmtSite,
    to: &Expr,
    value: &Expr,
    out: &mut Vec<Implication>,
) -> Result<(), Memory>
    ensures { OnOk result (out.new.items ≡ out.old.items ++ (whole_edges (program_at context.entry.site) (method_of_site context.entry.site) context.entry.whole
        (inside_of context.entry.inside.now) (expression_of value.now) ++ each
        (whole_dependencies (program_at context.entry.site) (method_of_site context.entry.site) (inside_at (inside_of context.entry.inside.now))
        (expression_of value.now)) (ones (target_reasons (program_at context.entry.site) (method_of_site context.entry.site)
        (expression_of to.now))))) }
{
    whole_edges(
        alloc,
        context.site,
        context.whole,
        context.inside,
        value,
        out,
    )?;
    let found = whole_dependencies(alloc, context.site, context.inside, value)?;
    each_to(&found, target(context.site, to), out)
}

// ---- conditions

/// Appends constraints: unless the condition is single, each of `whats` is ruled out.
pub fn condition(
    alloc: Global,
    context: StmtSite,
    expr: &Expr,
    whats: &[Conclusion],
    out: &mut Vec<Implication>,
) -> Result<(), Memory>
    ensures { OnOk result (out.new.items ≡ out.old.items ++ each (dependencies_at context.entry.site context.entry.inside.now (expression_of expr.now))
        whats.now) }
{
    let found = part_dependencies(alloc, context.site, context.inside, expr)?;
    each(&found, whats, out)
}

/// Appends constraints: unless the condition is single, each of `whats` is ruled out. Appends nothing if there is no condition.
pub fn condition_of(
    alloc: Global,
    context: StmtSite,
    expr: &Option<Expr>,
    whats: &[Conclusion],
    out: &mut Vec<Implication>,
) -> Result<(), Memory>
    ensures { OnOk result (out.new.items ≡ out.old.items ++ condition_edges (program_at context.entry.site) (method_of_site context.entry.site) context.entry.whole
        (inside_of context.entry.inside.now) (maybe_of expression_of expr.now) whats.now) }
{
    match expr {
        Some(expr) => condition(alloc, context, expr, whats, out),
        None => Ok(()),
    }
}

/// Appends constraints of a `return`: unless its value is single, its method's result isn't.
pub fn return_stmt(
    alloc: Global,
    context: StmtSite,
    value: &Option<Expr>,
    out: &mut Vec<Implication>,
) -> Result<(), Memory>
    ensures { OnOk result (out.new.items ≡ out.old.items ++ condition_edges (program_at context.entry.site) (method_of_site context.entry.site) context.entry.whole
        (inside_of context.entry.inside.now) (maybe_of expression_of value.now)
        (ones (result_reasons (program_at context.entry.site) (method_of_site context.entry.site) (method_of_site context.entry.site).result))) }
{
    match value {
        Some(e) => {
            let found = part_dependencies(alloc, context.site, context.inside, e)?;
            each_to(
                &found,
                result(context.site, &context.site.method.result),
                out,
            )
        }
        None => Ok(()),
    }
}

/// Records a jump in the update of a `for` as unconditionally to blame. No program that was parsed has one.
pub fn update_jumps(
    context: StmtSite,
    update: &Option<Box<Stmt>>,
    out: &mut Vec<Implication>,
) -> Result<(), Memory>
    ensures { OnOk result (out.new.items ≡ out.old.items ++ always_if
        (doings_of_maybe (program_at context.entry.site) (this_of (method_of_site context.entry.site)) (maybe_in update.now)).jumps) }
{
    if jumps_in(context.site, update) {
        out.push(Implication {
            from: None,
            then: Conclusion::One(Reason::Always),
        })?;
    }
    Ok(())
}

// ---- foreach

// The number of dimensions of a domain type; `None` for other types.
fn domain_dim(ty: Option<TyRef>) -> Option<usize>
    ensures { result ≡ option_and_then domain_dim (option_map ty_view ty.entry) }
{
    match ty {
        Some(ty) => ty.domain_dim(),
        None => None,
    }
}

/// The number of dimensions of an expression that is a domain; otherwise `None`.
pub fn dim(context: StmtSite, domain: &Expr) -> Option<usize>
    ensures { result ≡ option_and_then domain_dim (operand_type (program_at context.entry.site) (contents_of context.entry.scope.now)
        (expression_of domain.now)) }
{
    let judge = TypeChecker {
        program: &context.site.program.parts,
    };
    domain_dim(judge.exp(context.scope, domain).operand())
}
