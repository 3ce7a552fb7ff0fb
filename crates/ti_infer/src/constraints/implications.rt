// Building blocks of the constraints of one statement: an `Implication` says that unless its premise is in the marking, its conclusion is ruled
// out.
ghost use Rattle.std.specs.Prelude.{◌≡◌, ◌≤◌, ◌+◌, ◌^◌, ◌++◌, ◌∷◌, [], map, length, not, OnOk, IfOk, IfErr, if◌then◌else◌};
ghost use Rattle.std.specs.Option.{option_map};
ghost use Rattle.ti_syntax.specs.Trees.Views.{maybe_of};
ghost use Rattle.ti_lang.specs.Program.Expressions.{numbered_exps};
ghost use Rattle.ti_lang.specs.Program.Scope.{this_of};
ghost use Rattle.ti_lang.specs.Program.Views.{expression_of, initial_of, statement_of, numbered_param_of, numbered_params_of, numbered_result_of, numbered_method_of};
ghost use Rattle.ti_lang.specs.Typing.TextTypes.{syntactic_type};
ghost use Rattle.ti_lang.specs.Typing.Called.{called_method, member_called};
ghost use Rattle.ti_lang.specs.Typing.Effects.{doings, doings_of_maybe};
ghost use Rattle.ti_lang.specs.Typing.TyRef.{ty_view, built_in_of};
ghost use Rattle.ti_lang.specs.Typing.Singleness.{is_single_sent};
ghost use Rattle.ti_rules.specs.SingleRules.{is_delete};
ghost use Rattle.ti_single.specs.Mirrors.Maybe.{maybe_in};
ghost use Rattle.ti_blame.specs.declared.reason.Reason.TheVariants.{OfVariable, OfCollective};
ghost use Rattle.ti_blame.specs.declared.implication.Conclusion.TheVariants.{One, Between};
ghost use Rattle.ti_infer.specs.Reason.{reasons, reasons_of_maybe, target_reasons, result_reasons};
ghost use Rattle.ti_infer.specs.Mirrors.Dependencies.{result_dependencies, callee_dependencies, whole_dependencies, initial_dependencies, plain_if};
ghost use Rattle.ti_infer.specs.Mirrors.Implications.{inside_at, one_each, each, ones, then_if, loop_targets, effect_targets, arguments_edges, params_edges, call_edges, whole_edges, initial_edges, condition_edges};
ghost use Rattle.ti_infer.specs.Mirrors.Listed.{option_list};
ghost use Rattle.ti_infer.specs.Mirrors.Sites.{program_at, method_of_site, inside_of, dependencies_at};

use crate::constraints::dependencies::{dependencies, plain_if};
use crate::constraints::reads::{callee, static_type};
use crate::constraints::reasons::{reasons, reasons_of_maybe};
use crate::constraints::site::{MethodSite, VariableDeps};
use std::alloc::Global;
use ti_base::{Memory, Place};
use ti_blame::{Conclusion, Implication, Mark, MarkKind, Reason};
use ti_lang::program::{Expr, Init, Method, Param, Params, ResultType, Stmt};
use ti_lang::typing::TyRef;
use ti_single::{deref_stmt, stmt_effects, this_of};

// ---- all pairs

/// Appends a constraint from each of these premises to one conclusion.
pub fn one_each(
    found: &[Option<Mark>],
    what: Conclusion,
    out: &mut Vec<Implication>,
) -> Result<(), Memory>
    ensures { OnOk result (out.new.items ≡ out.old.items ++ one_each found.now what) }
{
    for from in found {
        out.push(Implication {
            from: *from,
            then: what,
        })?;
    }
    Ok(())
}

/// Appends a constraint from each of these premises to each of these conclusions.
pub fn each(
    found: &[Option<Mark>],
    whats: &[Conclusion],
    out: &mut Vec<Implication>,
) -> Result<(), Memory>
    ensures { OnOk result (out.new.items ≡ out.old.items ++ each found.now whats.now) }
{
    for what in whats {
        one_each(found, *what, out)?;
    }
    Ok(())
}

/// Appends a constraint from each of these premises to a reason, if there is one.
#[tactic(auto, using(crate::proofs::Pushing::pushing))]
pub fn each_to(
    found: &[Option<Mark>],
    to: Option<Reason>,
    out: &mut Vec<Implication>,
) -> Result<(), Memory>
    ensures { OnOk result (out.new.items ≡ out.old.items ++ each found.now (ones (option_list to))) }
{
    match to {
        Some(b) => one_each(found, Conclusion::One(b), out),
        None => Ok(()),
    }
}

// ---- requirements

/// What an expression requires to be single as a condition, an argument or a part of another expression. Errors only if it runs out of
/// memory.
pub fn part_dependencies(
    alloc: Global,
    site: MethodSite,
    inside: &[VariableDeps],
    expr: &Expr,
) -> Result<Vec<Option<Mark>>, Memory>
    ensures { IfOk result (λ v. v.items ≡ dependencies_at site.entry inside.now (expression_of expr.now)) }
{
    let mut found = Vec::new(alloc);
    dependencies(site, inside, expr, &mut found)?;
    Ok(found)
}

// What the value of a call requires to be single: the annotation of the method's result. `None` for `void`.
fn result_dependency(
    site: MethodSite,
    inside: &[VariableDeps],
    place: Place,
    ty: &ResultType,
) -> Option<Mark>
    ensures { result ∷ [] ≡ result_dependencies (program_at site.entry) (method_of_site site.entry) (inside_at (inside_of inside.now)) place
        (numbered_result_of ty.now) }
{
    match ty {
        ResultType::Void => None,
        ResultType::Typed(_) => Some(Mark {
            place,
            kind: MarkKind::Result,
        }),
    }
}

/// A list of one requirement.
pub fn one_dependency(alloc: Global, dependency: Option<Mark>) -> Result<Vec<Option<Mark>>, Memory>
    ensures { IfOk result (λ v. v.items ≡ dependency ∷ []) }
{
    let mut found = Vec::new(alloc);
    found.push(dependency)?;
    Ok(found)
}

// What a whole right side requires to be single, which calls this method, if any.
fn callee_dependencies(
    alloc: Global,
    site: MethodSite,
    inside: &[VariableDeps],
    method: Option<&Method>,
    expr: &Expr,
) -> Result<Vec<Option<Mark>>, Memory>
    ensures { IfOk result (λ v. v.items ≡ callee_dependencies (program_at site.entry) (method_of_site site.entry) (inside_at (inside_of inside.now))
        (option_map (λ method. numbered_method_of method.now) method.entry) (expression_of expr.now)) }
{
    match method {
        Some(method) => one_dependency(
            alloc,
            result_dependency(site, inside, method.place, &method.result),
        ),
        None => part_dependencies(alloc, site, inside, expr),
    }
}

/// What an expression that is a whole right side requires to be single: of a call, the annotation of the method's result.
pub fn whole_dependencies(
    alloc: Global,
    site: MethodSite,
    inside: &[VariableDeps],
    expr: &Expr,
) -> Result<Vec<Option<Mark>>, Memory>
    ensures { IfOk result (λ v. v.items ≡ whole_dependencies (program_at site.entry) (method_of_site site.entry) (inside_at (inside_of inside.now))
        (expression_of expr.now)) }
{
    let m = callee(site, expr);
    callee_dependencies(alloc, site, inside, m, expr)
}

// Whether a broadcast value of this type can be single.
fn is_sent(ty: TyRef) -> bool
    ensures { result ≡ is_single_sent (ty_view ty.entry) }
{
    matches!(
        ty,
        TyRef::Int | TyRef::Long | TyRef::Bool | TyRef::Pt(_) | TyRef::Rc(_)
    )
}

// The requirement that no marking satisfies, if the test holds; otherwise none.
fn plain_when(alloc: Global, test: bool) -> Result<Vec<Option<Mark>>, Memory>
    ensures { IfOk result (λ v. v.items ≡ plain_if test) }
{
    let mut found = Vec::new(alloc);
    plain_if(test, &mut found)?;
    Ok(found)
}

/// What a right side requires to be single. New objects and grids can't be single, new regions are, and broadcast values are if their
/// type can be sent as a single value.
pub fn initial_dependencies(
    alloc: Global,
    site: MethodSite,
    inside: &[VariableDeps],
    value: &Init,
) -> Result<Vec<Option<Mark>>, Memory>
    ensures { IfOk result (λ v. v.items ≡ initial_dependencies (program_at site.entry) (method_of_site site.entry) (inside_at (inside_of inside.now))
        (initial_of value.now)) }
{
    match value {
        Init::Value(e) => whole_dependencies(alloc, site, inside, e),
        Init::NewRegion(_) => plain_when(alloc, false),
        Init::NewObject { .. } => plain_when(alloc, true),
        Init::NewGrid { .. } => plain_when(alloc, true),
        Init::Broadcast { value, .. } => plain_when(alloc, !is_sent(static_type(site, value))),
    }
}

// ---- calls

// Appends constraints of one argument: unless it's single, its parameter isn't.
fn argument(
    alloc: Global,
    site: MethodSite,
    inside: &[VariableDeps],
    param: &Param,
    expr: &Expr,
    out: &mut Vec<Implication>,
) -> Result<(), Memory>
    ensures { OnOk result (out.new.items ≡ out.old.items ++ one_each (dependencies_at site.entry inside.now (expression_of expr.now))
        (One (OfVariable (numbered_param_of param.now).place))) }
{
    let found = part_dependencies(alloc, site, inside, expr)?;
    one_each(
        &found,
        Conclusion::One(Reason::OfVariable(param.place)),
        out,
    )
}

fn arguments(
    alloc: Global,
    site: MethodSite,
    whole: Conclusion,
    inside: &[VariableDeps],
    params: &[Param],
    args: &[Expr],
    out: &mut Vec<Implication>,
) -> Result<(), Memory>
    ensures { OnOk result (out.new.items ≡ out.old.items ++ arguments_edges (program_at site.entry) (method_of_site site.entry) whole
        (inside_of inside.now) (map numbered_param_of params.now) (numbered_exps (map expression_of args.now))) }
{
    for i in 0..args.len() {
        if i >= params.len() {
            return Ok(());
        }
        argument(alloc, site, inside, &params[i], &args[i], out)?;
    }
    Ok(())
}

fn params(
    alloc: Global,
    site: MethodSite,
    whole: Conclusion,
    inside: &[VariableDeps],
    params: &Params,
    args: &[Expr],
    out: &mut Vec<Implication>,
) -> Result<(), Memory>
    ensures { OnOk result (out.new.items ≡ out.old.items ++ params_edges (program_at site.entry) (method_of_site site.entry) whole
        (inside_of inside.now) (numbered_params_of params.now) (numbered_exps (map expression_of args.now))) }
{
    match params {
        Params::MainArgs => Ok(()),
        Params::Typed(params) => arguments(alloc, site, whole, inside, params, args, out),
    }
}

// Appends the constraints of the arguments of a call, if a declared method is called. Surplus arguments and parameters are ignored.
pub fn call(
    alloc: Global,
    site: MethodSite,
    whole: Conclusion,
    inside: &[VariableDeps],
    method: Option<&Method>,
    args: &[Expr],
    out: &mut Vec<Implication>,
) -> Result<(), Memory>
    ensures { OnOk result (out.new.items ≡ out.old.items ++ call_edges (program_at site.entry) (method_of_site site.entry) whole
        (inside_of inside.now) (option_map (λ method. numbered_method_of method.now) method.entry) (numbered_exps (map expression_of args.now))) }
{
    match method {
        Some(method) => params(alloc, site, whole, inside, &method.params, args, out),
        None => Ok(()),
    }
}

// ---- conclusions

fn returns(site: MethodSite, stmt: &Stmt) -> bool
    ensures { result ≡ (doings (program_at site.entry) (this_of (method_of_site site.entry)) (statement_of stmt.now)).returns }
{
    stmt_effects(site.program, this_of(site.method), stmt).returns
}

fn jumps(site: MethodSite, stmt: &Stmt) -> bool
    ensures { result ≡ (doings (program_at site.entry) (this_of (method_of_site site.entry)) (statement_of stmt.now)).jumps }
{
    stmt_effects(site.program, this_of(site.method), stmt).jumps
}

fn returns_in(site: MethodSite, stmt: &Option<Box<Stmt>>) -> bool
    ensures { result ≡ (doings_of_maybe (program_at site.entry) (this_of (method_of_site site.entry)) (maybe_in stmt.now)).returns }
{
    match stmt {
        Some(stmt) => returns(site, deref_stmt(stmt)),
        None => false,
    }
}

/// Whether an update has a jump in it. No program that was parsed has one.
pub fn jumps_in(site: MethodSite, stmt: &Option<Box<Stmt>>) -> bool
    ensures { result ≡ (doings_of_maybe (program_at site.entry) (this_of (method_of_site site.entry)) (maybe_in stmt.now)).jumps }
{
    match stmt {
        Some(stmt) => jumps(site, deref_stmt(stmt)),
        None => false,
    }
}

/// The sum of two indices. Errors if it is larger than `usize::MAX`.
pub fn index_after(index: usize, count: usize) -> Result<usize, Memory>
    ensures place { IfOk result (λ k. k ≡ index + count) }
    ensures large { IfErr result (λ _. 2 ^ 64 ≤ index + count) }
{
    match index.checked_add(count) {
        Some(k) => Ok(k),
        None => Err(Memory),
    }
}

// The `count` reasons from `index` on, and those of the whole method if the test holds (`back`: there is a `return`).
fn effect_conclusions(
    alloc: Global,
    index: usize,
    count: usize,
    back: bool,
    whole: Conclusion,
) -> Result<Vec<Conclusion>, Memory>
    ensures { IfOk result (λ v. v.items ≡ Between index (index + count) ∷ then_if back whole) }
{
    let mut found = Vec::new(alloc);
    found.push(Conclusion::Between(index, index_after(index, count)?))?;
    if back {
        found.push(whole)?;
    }
    Ok(found)
}

/// What is ruled out unless the condition of a loop is single, and what a jump out of it has as effects: all reasons of its update and
/// body, and those of the whole method if there is a `return` in them. The reasons begin at `index`.
pub fn loop_targets(
    alloc: Global,
    site: MethodSite,
    whole: Conclusion,
    index: usize,
    update: &Option<Box<Stmt>>,
    body: &Stmt,
) -> Result<Vec<Conclusion>, Memory>
    ensures { IfOk result (λ v. v.items ≡ loop_targets (program_at site.entry) (method_of_site site.entry) whole index (maybe_in update.now)
        (statement_of body.now)) }
{
    let mut found = Vec::new(alloc);
    reasons_of_maybe(site, update, &mut found)?;
    reasons(site, body, &mut found)?;
    let back = returns_in(site, update) || returns(site, body);
    effect_conclusions(alloc, index, found.len(), back, whole)
}

/// What is ruled out unless the condition of an `if` is single: the reasons of the statement, which begin at `index`; those of the
/// whole method if there is a `return` in it; and `jump` if there is a jump in it.
pub fn effect_targets(
    alloc: Global,
    site: MethodSite,
    whole: Conclusion,
    index: usize,
    jump: &[Conclusion],
    stmt: &Stmt,
) -> Result<Vec<Conclusion>, Memory>
    ensures { IfOk result (λ v. v.items ≡ effect_targets (program_at site.entry) (method_of_site site.entry) whole index jump.now
        (statement_of stmt.now)) }
{
    let mut found = Vec::new(alloc);
    reasons(site, stmt, &mut found)?;
    let mut targets = effect_conclusions(alloc, index, found.len(), returns(site, stmt), whole)?;
    if jumps(site, stmt) {
        targets.extend_from_slice(jump)?;
    }
    Ok(targets)
}
