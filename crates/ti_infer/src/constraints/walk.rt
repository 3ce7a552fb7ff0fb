// Generates the constraints of statements, including those of the statements in them.
ghost use Rattle.std.specs.Prelude.{◌≡◌, ◌++◌, map, OnOk, IfOk};
ghost use Rattle.ti_syntax.specs.Trees.Views.{maybe_of};
ghost use Rattle.ti_lang.specs.Program.Scope.{contents_of, this_of};
ghost use Rattle.ti_lang.specs.Program.Statements.{NoStm, numbered_stms};
ghost use Rattle.ti_lang.specs.Program.Views.{expression_of, statement_of};
ghost use Rattle.ti_lang.specs.Typing.Effects.{doings_of_maybe};
ghost use Rattle.ti_single.specs.Mirrors.Maybe.{maybe_in};
ghost use Rattle.ti_infer.specs.Mirrors.Implications.{each, condition_edges, loop_targets, effect_targets};
ghost use Rattle.ti_infer.specs.Mirrors.Sites.{program_at, method_of_site, inside_of, dependencies_at};
ghost use Rattle.ti_infer.specs.Mirrors.StmtSites.{edges_with, edges_around, maybe_around, all_around, always_if};

use crate::constraints::foreach_scope::{scope_inside, with_own};
use crate::constraints::implications::{effect_targets, index_after, loop_targets};
use crate::constraints::reasons::{size, size_of_maybe};
use crate::constraints::right_sides::whole_edges;
use crate::constraints::site::{StmtSite, VariableDeps};
use crate::constraints::stmt_implications::{
    assign, condition, condition_of, declare, return_stmt, update, update_jumps,
};
use std::alloc::Global;
use ti_base::Memory;
use ti_blame::{Conclusion, Implication};
use ti_lang::program::{Expr, Scope, Stmt};
use ti_single::{deref_init, deref_stmt, deref_stmts};

// ---- constraints of one statement, without its sub-statements

// Constraints of the condition of an `if`, whose effects are those of the whole statement `stmt`: unless the condition is single, they are
// ruled out.
fn own_if(
    alloc: Global,
    context: StmtSite,
    index: usize,
    jump: &[Conclusion],
    stmt: &Stmt,
    expr: &Expr,
    out: &mut Vec<Implication>,
) -> Result<(), Memory>
    ensures { OnOk result (out.new.items ≡ out.old.items ++ each (dependencies_at context.entry.site context.entry.inside.now (expression_of expr.now))
        (effect_targets (program_at context.entry.site) (method_of_site context.entry.site) context.entry.whole index jump.now (statement_of stmt.now))) }
{
    let whats = effect_targets(alloc, context.site, context.whole, index, jump, stmt)?;
    condition(alloc, context, expr, &whats, out)
}

// What the condition of a loop without update rules out unless it's single; a jump out of the loop rules out the same.
fn body_targets(
    alloc: Global,
    context: StmtSite,
    index: usize,
    body: &Stmt,
) -> Result<Vec<Conclusion>, Memory>
    ensures { IfOk result (λ v. v.items ≡ loop_targets (program_at context.entry.site) (method_of_site context.entry.site) context.entry.whole index NoStm
        (statement_of body.now)) }
{
    let none = None;
    loop_targets(alloc, context.site, context.whole, index, &none, body)
}

// Constraints of a `for` by its condition, which rules out `whats` unless it's single, and by jumps in its update.
#[tactic(auto, using(crate::proofs::Pushing::pushing))]
fn own_for(
    alloc: Global,
    context: StmtSite,
    expr: &Option<Expr>,
    whats: &[Conclusion],
    update: &Option<Box<Stmt>>,
    out: &mut Vec<Implication>,
) -> Result<(), Memory>
    ensures { OnOk result (out.new.items ≡ out.old.items ++ (condition_edges (program_at context.entry.site)
        (method_of_site context.entry.site) context.entry.whole (inside_of context.entry.inside.now) (maybe_of expression_of expr.now) whats.now
        ++ always_if (doings_of_maybe (program_at context.entry.site) (this_of (method_of_site context.entry.site)) (maybe_in update.now)).jumps)) }
{
    condition_of(alloc, context, expr, whats, out)?;
    update_jumps(context, update, out)
}

// ---- the body of a foreach

// For the prover: the `context` with another scope and other foreach variables.
fn with_scope<'context>(
    context: StmtSite<'context>,
    scope: &'context Scope,
    inside: &'context [VariableDeps],
) -> StmtSite<'context>
    requires { scope.now.this ≡ context.scope.now.this }
    ensures { edges_around result ≡ edges_with context.entry.site context.entry.whole (contents_of scope.now).variables (inside_of inside.now) }
{
    StmtSite {
        site: context.site,
        whole: context.whole,
        scope,
        inside,
    }
}

// ---- statements

/// Appends the constraints of some statements and of those in them. The reasons of the statements begin at `index` of the program's
/// list of reasons; a jump out of the innermost loop has the effects `jump`.
#[cycle(walk)]
pub fn statements(
    alloc: Global,
    context: StmtSite,
    index: usize,
    jump: &[Conclusion],
    stmts: &[Stmt],
    out: &mut Vec<Implication>,
) -> Result<(), Memory>
    ensures { OnOk result (out.new.items ≡ out.old.items ++ all_around context.entry index jump.now (numbered_stms (map statement_of stmts.now))) }
{
    let mut at = index;
    for x in stmts {
        statement(alloc, context, at, jump, x, out)?;
        at = index_after(at, size(alloc, context.site, x)?)?;
    }
    Ok(())
}

// Appends the constraints of a statement, if there is one; its reasons begin at `index`.
#[cycle(walk)]
fn maybe(
    alloc: Global,
    context: StmtSite,
    index: usize,
    jump: &[Conclusion],
    stmt: &Option<Box<Stmt>>,
    out: &mut Vec<Implication>,
) -> Result<(), Memory>
    ensures { OnOk result (out.new.items ≡ out.old.items ++ maybe_around context.entry index jump.now (maybe_in stmt.now)) }
{
    match stmt {
        Some(stmt) => statement(alloc, context, index, jump, deref_stmt(stmt), out),
        None => Ok(()),
    }
}

// Appends the constraints of a statement and of those in it; its reasons begin at `index`.
#[cycle(walk)]
#[tactic(auto, using(ti_lang::proofs::Lemmas::program_bridges, crate::proofs::Pushing::pushing))]
fn statement(
    alloc: Global,
    context: StmtSite,
    index: usize,
    jump: &[Conclusion],
    stmt: &Stmt,
    out: &mut Vec<Implication>,
) -> Result<(), Memory>
    ensures { OnOk result (out.new.items ≡ out.old.items ++ edges_around context.entry index jump.now (statement_of stmt.now)) }
{
    match stmt {
        Stmt::Declare { place, value, .. } => {
            declare(alloc, context, *place, deref_init(value), out)
        }
        Stmt::Assign { target, value, .. } => {
            assign(alloc, context, target, deref_init(value), out)
        }
        Stmt::Update { target, value, .. } => update(alloc, context, target, value, out),
        Stmt::Call(e) => whole_edges(alloc, context.site, context.whole, context.inside, e, out),
        Stmt::Return(_, value) => return_stmt(alloc, context, value, out),
        Stmt::Block(body) => statements(alloc, context, index, jump, deref_stmts(body), out),
        Stmt::If {
            condition: c,
            then,
            otherwise,
            ..
        } => {
            let then = deref_stmt(then);
            own_if(alloc, context, index, jump, stmt, c, out)?;
            statement(alloc, context, index, jump, then, out)?;
            match otherwise {
                Some(otherwise) => {
                    let next = index_after(index, size(alloc, context.site, then)?)?;
                    statement(alloc, context, next, jump, deref_stmt(otherwise), out)
                }
                None => Ok(()),
            }
        }
        Stmt::While {
            condition: c,
            body,
            ..
        } => {
            let body = deref_stmt(body);
            let whats = body_targets(alloc, context, index, body)?;
            condition(alloc, context, c, &whats, out)?;
            statement(alloc, context, index, &whats, body, out)
        }
        Stmt::For {
            first,
            condition: c,
            update,
            body,
            ..
        } => {
            let body = deref_stmt(body);
            let second = index_after(index, size_of_maybe(alloc, context.site, first)?)?;
            let third = index_after(second, size_of_maybe(alloc, context.site, update)?)?;
            let whats = loop_targets(alloc, context.site, context.whole, second, update, body)?;
            own_for(alloc, context, c, &whats, update, out)?;
            maybe(alloc, context, index, jump, first, out)?;
            maybe(alloc, context, second, jump, update, out)?;
            statement(alloc, context, third, &whats, body, out)
        }
        Stmt::Foreach {
            variable,
            domain,
            body,
            ..
        } => {
            let body = deref_stmt(body);
            let whats = body_targets(alloc, context, index, body)?;
            condition(alloc, context, domain, &whats, out)?;
            let scope = scope_inside(alloc, context, *variable, domain)?;
            let inside = with_own(alloc, context, *variable, domain)?;
            statement(
                alloc,
                with_scope(context, &scope, &inside),
                index,
                &whats,
                body,
                out,
            )
        }
        Stmt::Empty
        | Stmt::Step { .. }
        | Stmt::Print(_, _)
        | Stmt::Barrier(_)
        | Stmt::Break(_)
        | Stmt::Continue(_) => Ok(()),
    }
}
