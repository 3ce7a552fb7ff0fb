// The first statement inside of another one that has a global effect of its own.
ghost use Rattle.std.specs.Prelude.{◌≡◌, map, false};
ghost use Rattle.std.specs.Option.{option_map, option_map_or, option_or};
ghost use Rattle.ti_lang.specs.Program.Classes.{NumberedMethod};
ghost use Rattle.ti_lang.specs.Program.Scope.{this_of};
ghost use Rattle.ti_lang.specs.Program.Statements.{numbered_stms};
ghost use Rattle.ti_lang.specs.Program.Views.{program_of, expression_of, initial_of, statement_of, numbered_method_of};
ghost use Rattle.ti_lang.specs.Typing.Effects.{is_collective, is_collective_call, is_single_target, return_acts, jump_acts};
ghost use Rattle.ti_lang.specs.Typing.TyRef.{built_in_of};
ghost use Rattle.ti_single.specs.Contexts.{program_at, around_of};
ghost use Rattle.ti_single.specs.EffectsAt.{effects_in_loop};
ghost use Rattle.ti_single.specs.Mirrors.Maybe.{maybe_in};
ghost use Rattle.ti_explain.specs.declared.reason.GlobalEffect.TheVariants as effect;
ghost use Rattle.ti_explain.specs.FirstEffects.{effect_at, effect_if, calls_single, call_effect, initial_effect, loop_effect, first_effect, first_effect_of_maybe, first_effect_of_all};

use crate::reason::{EffectAt, GlobalEffect};
use ti_base::Place;
use ti_lang::program::{Expr, Init, Method, Program, Stmt};
use ti_lang::typing::{BuiltIn, called_method, member_called};
use ti_single::{
    SingleContext, deref_expr, deref_init, deref_stmt, deref_stmts, effects_in_loop,
    is_single_target, jump_acts, this_of,
};

// ---- single statements

fn effect_at(place: Place, effect: GlobalEffect) -> Option<EffectAt>
    ensures { result ≡ effect_at place effect }
{
    Some(EffectAt { place, effect })
}

fn effect_if(has: bool, place: Place, effect: GlobalEffect) -> Option<EffectAt>
    ensures { result ≡ effect_if has place effect }
{
    if has { effect_at(place, effect) } else { None }
}

// The effect of a statement that changes this target.
fn change_effect(place: Place, target: &Expr) -> Option<EffectAt>
    ensures { result ≡ effect_if (is_single_target (expression_of target.now)) place effect.ChangesSingle }
{
    effect_if(is_single_target(target), place, GlobalEffect::ChangesSingle)
}

fn is_collective(built_in: Option<BuiltIn>) -> bool
    ensures { result ≡ is_collective (option_map built_in_of built_in) }
{
    matches!(built_in, Some(BuiltIn::Exchange | BuiltIn::Delete))
}

// Whether the expression is a call of a built-in collective: an exchange, or the deletion of a region.
#[tactic(auto, using(ti_lang::proofs::Lemmas::program_bridges))]
fn is_collective_call(program: &Program, this: Option<u32>, expr: &Expr) -> bool
    ensures { result ≡ is_collective_call (program_of program.now.parts) this (expression_of expr.now) }
{
    match expr {
        Expr::Member { receiver, name, .. } => {
            is_collective(member_called(&program.parts, this, receiver, *name))
        }
        _ => false,
    }
}

fn is_single_method(method: Option<&Method>) -> bool
    ensures { result ≡ option_map_or (λ (m : NumberedMethod). m.is_single)
        (option_map (λ m. numbered_method_of m.now) method.entry) false }
{
    match method {
        Some(method) => method.single,
        None => false,
    }
}

// Whether the expression is a call of a method that is declared single.
fn calls_single(site: SingleContext<'_>, expr: &Expr) -> bool
    ensures { result ≡ calls_single (program_at site.entry) (around_of site.entry).method (expression_of expr.now) }
{
    is_single_method(called_method(&site.program.parts, this_of(site.method), expr))
}

// The effect of an expression that is a statement or a right-hand side.
fn call_effect(site: SingleContext<'_>, expr: &Expr) -> Option<EffectAt>
    ensures { result ≡ call_effect (program_at site.entry) (around_of site.entry).method (expression_of expr.now) }
{
    if is_collective_call(site.program, this_of(site.method), expr) {
        effect_at(expr.place(), GlobalEffect::Collective)
    } else {
        effect_if(
            calls_single(site, expr),
            expr.place(),
            GlobalEffect::SingleCall,
        )
    }
}

// The effect of the right-hand side of a declaration or an assignment.
fn initial_effect(site: SingleContext<'_>, value: &Init) -> Option<EffectAt>
    ensures { result ≡ initial_effect (program_at site.entry) (around_of site.entry).method (initial_of value.now) }
{
    match value {
        Init::Value(e) => call_effect(site, e),
        Init::NewRegion(place) => effect_at(*place, GlobalEffect::NewRegion),
        Init::NewObject { .. } => None,
        Init::NewGrid { .. } => None,
        Init::Broadcast { place, .. } => effect_at(*place, GlobalEffect::Broadcast),
    }
}

/// Whether a jump out of this loop has a global effect; false if the statement is no loop.
pub fn jump_has_inside(site: SingleContext<'_>, stmt: &Stmt) -> bool
    ensures { result ≡ jump_acts (return_acts (program_at site.entry) (around_of site.entry).method)
        (effects_in_loop (program_at site.entry) (around_of site.entry).method (statement_of stmt.now)) }
{
    let inside = effects_in_loop(site.program, site.method, stmt);
    jump_acts(site.return_is_global, inside)
}

// ---- statements

/// The first effect of a sequence of statements, with all statements in them. `jump_has` says whether a jump out of the innermost
/// enclosing loop has a global effect; false if there is no loop.
#[cycle(first)]
pub fn first_effect_of_all(
    site: SingleContext<'_>,
    jump_has: bool,
    stmts: &[Stmt],
) -> Option<EffectAt>
    ensures { result ≡ first_effect_of_all (program_at site.entry) (around_of site.entry).method jump_has
        (numbered_stms (map statement_of stmts.now)) }
{
    for x in stmts {
        if let Some(found) = first_effect(site, jump_has, x) {
            return Some(found);
        }
    }
    None
}

/// The first effect of an optional statement.
#[cycle(first)]
pub fn first_effect_of_maybe(
    site: SingleContext<'_>,
    jump_has: bool,
    stmt: &Option<Box<Stmt>>,
) -> Option<EffectAt>
    ensures { result ≡ first_effect_of_maybe (program_at site.entry) (around_of site.entry).method jump_has (maybe_in stmt.now) }
{
    match stmt {
        Some(x) => first_effect(site, jump_has, deref_stmt(x)),
        None => None,
    }
}

/// The first effect in the body and the update of a loop; None if the statement is no loop.
#[cycle(first)]
#[tactic(auto, using(ti_lang::proofs::Lemmas::program_bridges))]
pub fn loop_effect(site: SingleContext<'_>, stmt: &Stmt) -> Option<EffectAt>
    ensures { result ≡ loop_effect (program_at site.entry) (around_of site.entry).method (statement_of stmt.now) }
{
    let jump_has = jump_has_inside(site, stmt);
    match stmt {
        Stmt::While { body, .. } => first_effect(site, jump_has, deref_stmt(body)),
        Stmt::For { update, body, .. } => {
            let body = first_effect(site, jump_has, deref_stmt(body));
            body.or(first_effect_of_maybe(site, jump_has, update))
        }
        Stmt::Foreach { body, .. } => first_effect(site, jump_has, deref_stmt(body)),
        _ => None,
    }
}

/// The first effect of a statement, with all statements in it: the statement that has it, and which it is; None if it has no global
/// effect. `jump_has` says whether a jump out of the innermost enclosing loop has one; false if there is no loop.
#[cycle(first)]
#[tactic(auto, using(ti_lang::proofs::Lemmas::program_bridges))]
pub fn first_effect(site: SingleContext<'_>, jump_has: bool, stmt: &Stmt) -> Option<EffectAt>
    ensures { result ≡ first_effect (program_at site.entry) (around_of site.entry).method jump_has (statement_of stmt.now) }
{
    match stmt {
        Stmt::Declare {
            place,
            ty,
            value,
            ..
        } => initial_effect(site, deref_init(value)).or(effect_if(
            ty.single,
            *place,
            GlobalEffect::DeclaresSingle,
        )),
        Stmt::Assign {
            place,
            target,
            value,
        } => initial_effect(site, deref_init(value)).or(change_effect(*place, target)),
        Stmt::Update {
            place,
            target,
            value,
            ..
        } => call_effect(site, value).or(change_effect(*place, target)),
        Stmt::Step { place, target, .. } => { change_effect(*place, target) }
        Stmt::Call(e) => call_effect(site, e),
        Stmt::Barrier(place) => effect_at(*place, GlobalEffect::Barrier),
        Stmt::Block(body) => first_effect_of_all(site, jump_has, deref_stmts(body)),
        Stmt::If {
            then,
            otherwise,
            ..
        } => {
            let then = first_effect(site, jump_has, deref_stmt(then));
            match otherwise {
                Some(otherwise) => { then.or(first_effect(site, jump_has, deref_stmt(otherwise))) }
                None => then,
            }
        }
        Stmt::While { .. } => loop_effect(site, stmt),
        Stmt::For { first, .. } => {
            let first = first_effect_of_maybe(site, jump_has, first);
            first.or(loop_effect(site, stmt))
        }
        Stmt::Foreach { .. } => loop_effect(site, stmt),
        Stmt::Break(place) => effect_if(jump_has, *place, GlobalEffect::Jump),
        Stmt::Continue(place) => effect_if(jump_has, *place, GlobalEffect::Jump),
        Stmt::Return(place, _) => { effect_if(site.return_is_global, *place, GlobalEffect::Return) }
        Stmt::Empty => None,
        Stmt::Print(_, _) => None,
    }
}
