// The traversal of a method's statements, each in its context.
ghost use Rattle.std.specs.Prelude.{◌≡◌, map, true, Some, IfOk};
ghost use Rattle.std.specs.Option.{option_map, option_and_then};
ghost use Rattle.ti_lang.specs.Program.Scope.{in_scope_of, contents_of, this_of};
ghost use Rattle.ti_lang.specs.Program.Statements.{numbered_stms};
ghost use Rattle.ti_lang.specs.Program.Views.{expression_of, statement_of};
ghost use Rattle.ti_lang.specs.Typing.Effects.{kept_in_loop, doings, doings_of_maybe, doings_of_all};
ghost use Rattle.ti_lang.specs.Typing.Kinds.{domain_dim};
ghost use Rattle.ti_lang.specs.Typing.TyRef.{ty_view};
ghost use Rattle.ti_rules.specs.Mirrors.First.{earlier_of as sooner_of, earliest};
ghost use Rattle.ti_rules.specs.StmtInContext.{with_foreach_variable, variables_inside, inside as inside_one, inside_maybe, inside_all};
ghost use Rattle.ti_rules.specs.SingleRules.{single_refusals_at};
ghost use Rattle.ti_single.specs.Effects.{effects_of};
ghost use Rattle.ti_single.specs.EffectsAt.{effects_in_loop};
ghost use Rattle.ti_single.specs.Mirrors.Maybe.{maybe_in};
ghost use Rattle.ti_check.specs.Mirrors.Refusals.{inner_statements, is_simple};
ghost use Rattle.ti_check.specs.Mirrors.Contexts.{program_at, around_where, around_of, scope_at};
ghost use Rattle.ti_check.specs.Mirrors.StmtReport.{single_where, IsStmtReport, doings_inside, jump_acts_inside};

use crate::context::CheckContext;
use crate::reports::StmtReport;
use crate::scope_pool::{ScopePool, copy_variables};
use std::alloc::Global;
use ti_base::Memory;
use ti_lang::program::{Expr, InScope, Scope, Stmt};
use ti_lang::typing::TyRef;
use ti_rules::{Refusal, earlier_of};
use ti_single::{Effects, deref_stmt, deref_stmts, jump_acts, stmt_effects};

// ---- scopes

// The variables in scope with that of a foreach over a domain of `dim` dimensions. None means that it isn't a domain: no variable then.
fn with_foreach_variable(
    alloc: Global,
    unused: Vec<InScope>,
    variables: &[InScope],
    number: u32,
    is_single: bool,
    dim: Option<usize>,
) -> Result<Vec<InScope>, Memory>
    ensures { IfOk result (λ v. map in_scope_of v.items ≡ with_foreach_variable (map in_scope_of variables.now) number is_single dim) }
{
    let mut found = copy_variables(alloc, unused, variables)?;
    match dim {
        Some(dim) => {
            found.push(InScope {
                number,
                ty: TyRef::Pt(dim).copy(alloc)?,
                single: is_single,
            })?;
            Ok(found)
        }
        None => Ok(found),
    }
}

impl<'a> CheckContext<'a> {
    // The scope of a foreach's body.
    fn inside_foreach(
        self,
        alloc: Global,
        unused: Vec<InScope>,
        number: u32,
        domain: &'a Expr,
    ) -> Result<Scope, Memory>
        ensures this { IfOk result (λ s. s.this ≡ self.entry.scope.now.this) }
        ensures variables { IfOk result (λ s. (contents_of s).variables
            ≡ variables_inside (program_at self.entry) (scope_at self.entry) number (expression_of domain.now)) }
    {
        let is_single = self.is_single_inside(domain);
        let dim = domain_dim(self.exp(domain).operand());
        let variables = with_foreach_variable(
            alloc,
            unused,
            &self.scope.variables,
            number,
            is_single,
            dim,
        )?;
        Ok(Scope {
            this: self.scope.this,
            variables,
            method: self.scope.method,
            innermost_loop: self.scope.innermost_loop,
        })
    }

    // The context inside of a loop.
    fn in_loop(self) -> CheckContext<'a>
        ensures program { program_at result ≡ program_at self.entry }
        ensures around { around_where result ≡ (λ jump_has. record (around_of self.entry) { jump_has = Some jump_has }) }
        ensures this { result.scope.now.this ≡ self.entry.scope.now.this }
    {
        CheckContext {
            program: self.program,
            method: self.method,
            scope: self.scope,
            return_is_global: self.return_is_global,
            is_in_loop: true,
        }
    }

    // The context with other variables in scope.
    fn with_scope(self, scope: &'a Scope) -> CheckContext<'a>
        requires { scope.now.this ≡ self.scope.now.this }
        ensures program { program_at result ≡ program_at self.entry }
        ensures around { around_where result
            ≡ (λ jump_has. record (around_where self.entry jump_has) { variables = (contents_of scope.now).variables }) }
    {
        CheckContext {
            program: self.program,
            method: self.method,
            scope,
            return_is_global: self.return_is_global,
            is_in_loop: self.is_in_loop,
        }
    }

    // The first broken rule of single values if a jump out of the innermost enclosing loop counts as a global effect; `single` is the one
    // if it doesn't. The two differ only if the statement contains a jump.
    fn single_jumping(
        self,
        stmt: &'a Stmt,
        own: Effects,
        inside: Effects,
        single: Option<Refusal>,
    ) -> Option<Refusal>
        requires own { effects_of own ≡ doings (program_at self) (this_of (around_of self).method) (statement_of stmt.now) }
        requires inside { effects_of inside ≡ effects_in_loop (program_at self) (around_of self).method (statement_of stmt.now) }
        requires single { single ≡ earliest (single_refusals_at (program_at self) (around_of self) (statement_of stmt.now)) }
        ensures { result ≡ earliest (single_refusals_at (program_at self.entry) (around_where self.entry true) (statement_of stmt.now)) }
    {
        if own.jumps {
            self.single(stmt, true, own, inside)
        } else {
            single
        }
    }

    // The result for a statement, given that of the statements in it, whose effect summary is also its own. `inside` is the effect
    // summary of its update and body if it is a loop.
    fn stmt_report(self, stmt: &'a Stmt, below: StmtReport, inside: Effects) -> StmtReport
        requires below { IsStmtReport (program_at self) (λ jump_has. inner_statements (program_at self) (around_where self jump_has)
            (statement_of stmt.now)) below }
        requires own { effects_of below.doings ≡ doings (program_at self) (this_of (around_of self).method) (statement_of stmt.now) }
        requires inside { effects_of inside ≡ effects_in_loop (program_at self) (around_of self).method (statement_of stmt.now) }
        ensures found { IsStmtReport (program_at self.entry) (λ jump_has. inside_one (program_at self.entry) (around_where self.entry jump_has)
            (statement_of stmt.now)) result }
        ensures doings { effects_of result.doings ≡ doings (program_at self.entry) (this_of (around_of self.entry).method)
            (statement_of stmt.now) }
    {
        let single = self.single(stmt, false, below.doings, inside);
        let own = StmtReport {
            types: self.types(stmt),
            single,
            jumping: self.single_jumping(stmt, below.doings, inside, single),
            doings: Effects::none(),
        };
        own.and(below)
    }

    // The result for a statement without statements in it.
    fn simple_report(self, stmt: &'a Stmt) -> StmtReport
        requires { is_simple (statement_of stmt.now) ≡ true }
        ensures found { IsStmtReport (program_at self.entry) (λ jump_has. inside_one (program_at self.entry) (around_where self.entry jump_has)
            (statement_of stmt.now)) result }
        ensures doings { effects_of result.doings ≡ doings (program_at self.entry) (this_of (around_of self.entry).method)
            (statement_of stmt.now) }
    {
        let does = stmt_effects(self.program, self.this(), stmt);
        let single = self.single(stmt, false, does, Effects::none());
        StmtReport {
            types: self.types(stmt),
            single,
            jumping: self.single_jumping(stmt, does, Effects::none(), single),
            doings: does,
        }
    }

    // The result for a loop's update and body. Jumps don't leave the loop.
    fn loop_report(self, update: StmtReport, body: StmtReport) -> StmtReport
        ensures types { result.types ≡ sooner_of update.types body.types }
        ensures single { result.single ≡ sooner_of update.single (single_where body (jump_acts_inside self.entry update body)) }
        ensures jumping { result.jumping ≡ sooner_of update.jumping (single_where body (jump_acts_inside self.entry update body)) }
        ensures doings { effects_of result.doings ≡ kept_in_loop (doings_inside update body) }
    {
        let inside = update.doings.merge(body.doings);
        let single = body.single_where(jump_acts(self.return_is_global, inside));
        StmtReport {
            types: earlier_of(update.types, body.types),
            single: earlier_of(update.single, single),
            jumping: earlier_of(update.jumping, single),
            doings: inside.absorb_jumps(),
        }
    }
}

fn domain_dim(ty: Option<TyRef>) -> Option<usize>
    ensures { result ≡ option_and_then domain_dim (option_map ty_view ty.entry) }
{
    match ty {
        Some(ty) => ty.domain_dim(),
        None => None,
    }
}

// ---- statements

/// The result for a sequence of statements, with all statements in them.
#[cycle(walk)]
pub fn statements<'a>(
    alloc: Global,
    unused: &mut ScopePool,
    site: CheckContext<'a>,
    stmts: &'a [Stmt],
) -> Result<StmtReport, Memory>
    ensures found { IfOk result (λ w. IsStmtReport (program_at site.entry)
        (λ jump_has. inside_all (program_at site.entry) (around_where site.entry jump_has) (numbered_stms (map statement_of stmts.now))) w) }
    ensures doings { IfOk result (λ w. effects_of w.doings ≡ doings_of_all (program_at site.entry) (this_of (around_of site.entry).method)
        (numbered_stms (map statement_of stmts.now))) }
{
    let mut found = StmtReport::with_effects(Effects::none());
    for x in stmts {
        let next = statement(alloc, unused, site, x)?;
        found = found.and(next);
    }
    Ok(found)
}

// The result for an optional statement.
#[cycle(walk)]
fn optional<'a>(
    alloc: Global,
    unused: &mut ScopePool,
    site: CheckContext<'a>,
    stmt: &'a Option<Box<Stmt>>,
) -> Result<StmtReport, Memory>
    ensures found { IfOk result (λ w. IsStmtReport (program_at site.entry)
        (λ jump_has. inside_maybe (program_at site.entry) (around_where site.entry jump_has) (maybe_in stmt.now)) w) }
    ensures doings { IfOk result (λ w. effects_of w.doings ≡ doings_of_maybe (program_at site.entry) (this_of (around_of site.entry).method)
        (maybe_in stmt.now)) }
{
    match stmt {
        Some(stmt) => statement(alloc, unused, site, deref_stmt(stmt)),
        None => Ok(StmtReport::with_effects(Effects::none())),
    }
}

// Whether the statement is of a form without statements in it.
#[tactic(auto, using(ti_lang::proofs::Lemmas::program_bridges))]
fn is_simple(stmt: &Stmt) -> bool
    ensures { result ≡ is_simple (statement_of stmt.now) }
{
    match stmt {
        Stmt::Block(_) | Stmt::While { .. } | Stmt::For { .. } | Stmt::Foreach { .. } => false,
        // For the prover: the model has two forms of `if`, so the match is split.
        Stmt::If { otherwise, .. } => match otherwise {
            Some(_) => false,
            None => false,
        },
        _ => true,
    }
}

// The result for a statement. Simple statements have a fast path, which doesn't go through `compound`.
#[cycle(walk)]
fn statement<'a>(
    alloc: Global,
    unused: &mut ScopePool,
    site: CheckContext<'a>,
    stmt: &'a Stmt,
) -> Result<StmtReport, Memory>
    ensures found { IfOk result (λ w. IsStmtReport (program_at site.entry)
        (λ jump_has. inside_one (program_at site.entry) (around_where site.entry jump_has) (statement_of stmt.now)) w) }
    ensures doings { IfOk result (λ w. effects_of w.doings ≡ doings (program_at site.entry) (this_of (around_of site.entry).method)
        (statement_of stmt.now)) }
{
    if is_simple(stmt) {
        return Ok(site.simple_report(stmt));
    }
    compound(alloc, unused, site, stmt)
}

// The result for a statement of any form.
#[cycle(walk)]
fn compound<'a>(
    alloc: Global,
    unused: &mut ScopePool,
    site: CheckContext<'a>,
    stmt: &'a Stmt,
) -> Result<StmtReport, Memory>
    ensures found { IfOk result (λ w. IsStmtReport (program_at site.entry)
        (λ jump_has. inside_one (program_at site.entry) (around_where site.entry jump_has) (statement_of stmt.now)) w) }
    ensures doings { IfOk result (λ w. effects_of w.doings ≡ doings (program_at site.entry) (this_of (around_of site.entry).method)
        (statement_of stmt.now)) }
{
    match stmt {
        Stmt::Block(body) => {
            let below = statements(alloc, unused, site, deref_stmts(body))?;
            Ok(site.stmt_report(stmt, below, Effects::none()))
        }
        Stmt::If {
            then,
            otherwise,
            ..
        } => {
            let then = statement(alloc, unused, site, deref_stmt(then))?;
            let otherwise = optional(alloc, unused, site, otherwise)?;
            Ok(site.stmt_report(stmt, then.and(otherwise), Effects::none()))
        }
        Stmt::While { body, .. } => {
            let body = statement(alloc, unused, site.in_loop(), deref_stmt(body))?;
            let below = site.loop_report(StmtReport::with_effects(Effects::none()), body);
            Ok(site.stmt_report(stmt, below, body.doings))
        }
        Stmt::For {
            first,
            update,
            body,
            ..
        } => {
            let first = optional(alloc, unused, site, first)?;
            let update = optional(alloc, unused, site, update)?;
            let body = statement(alloc, unused, site.in_loop(), deref_stmt(body))?;
            let below = first.and(site.loop_report(update, body));
            Ok(site.stmt_report(stmt, below, update.doings.merge(body.doings)))
        }
        Stmt::Foreach {
            variable,
            domain,
            body,
            ..
        } => {
            let scope = site.inside_foreach(alloc, unused.take(), *variable, domain)?;
            let within = site.in_loop();
            let inside = within.with_scope(&scope);
            let body = statement(alloc, unused, inside, deref_stmt(body))?;
            unused.keep(scope.variables)?;
            let below = site.loop_report(StmtReport::with_effects(Effects::none()), body);
            Ok(site.stmt_report(stmt, below, body.doings))
        }
        Stmt::Empty
        | Stmt::Declare { .. }
        | Stmt::Assign { .. }
        | Stmt::Update { .. }
        | Stmt::Step { .. }
        | Stmt::Call(_)
        | Stmt::Print(_, _)
        | Stmt::Barrier(_)
        | Stmt::Break(_)
        | Stmt::Continue(_)
        | Stmt::Return(_, _) => Ok(site.simple_report(stmt)),
    }
}
