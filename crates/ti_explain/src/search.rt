// The search for the statement that breaks a rule of types or of single values, with its context.
ghost use Rattle.std.specs.Prelude.{◌≡◌, ◌↔◌, ◌++◌, ◌∷◌, [], map, Some, IsTrue, IfOk};
ghost use Rattle.std.specs.Option.{option_map, option_and_then};
ghost use Rattle.ti_lang.specs.Program.Scope.{in_scope_of, contents_of, this_of};
ghost use Rattle.ti_lang.specs.Program.Statements.{numbered_stms};
ghost use Rattle.ti_lang.specs.Program.Views.{program_of, expression_of, statement_of};
ghost use Rattle.ti_lang.specs.Typing.Effects.{return_acts, jump_acts};
ghost use Rattle.ti_lang.specs.Typing.Expressions.{operand_type};
ghost use Rattle.ti_lang.specs.Typing.Kinds.{domain_dim};
ghost use Rattle.ti_lang.specs.Typing.TyRef.{ty_view};
ghost use Rattle.ti_rules.specs.Mirrors.First.{earliest};
ghost use Rattle.ti_rules.specs.StmtInContext.{stands, scope_of, with_foreach_variable, variables_inside, inside, inside_maybe, inside_all};
ghost use Rattle.ti_single.specs.Contexts.{program_at, around_of, scope_at};
ghost use Rattle.ti_single.specs.EffectsAt.{effects_in_loop};
ghost use Rattle.ti_single.specs.Mirrors.Maybe.{maybe_in};
ghost use Rattle.ti_explain.specs.Mirrors.Found.{own_refusals, reasons_of_statement, IsFound, in_this_loop, nested};

use crate::effects::jump_has_inside;
use crate::reason::RefusalReason;
use crate::statement::statement_reasons;
use crate::type_statement::type_statement_reasons;
use std::alloc::Global;
use ti_base::Memory;
use ti_check::statement_refusal;
use ti_lang::program::{Expr, InScope, Scope, Stmt};
use ti_lang::typing::TyRef;
use ti_rules::Refusal;
use ti_single::{SingleContext, deref_stmt, deref_stmts, effects_in_loop, stmt_effects, this_of};
use ti_syntax::tree::Tree;
use ti_types::TypeChecker;

/// What is searched for: what is refused so, by the rules of types and qualifiers or else by those of single values. The tree is that of the
/// program.
#[derive(Clone, Copy)]
pub struct SoughtRefusal<'a> {
    pub by_types: bool,
    pub refusal: Refusal,
    pub tree: &'a Tree,
}

// ---- contexts

// The variables in scope with that of a foreach over a domain of `dim` dimensions. None means that it isn't a domain: no variable then.
fn with_foreach_variable(
    alloc: Global,
    variables: &[InScope],
    number: u32,
    is_single: bool,
    dim: Option<usize>,
) -> Result<Vec<InScope>, Memory>
    ensures { IfOk result (λ v. map in_scope_of v.items ≡ with_foreach_variable (map in_scope_of variables.now) number is_single dim) }
{
    let mut found = copy_variables(alloc, variables)?;
    match dim {
        Some(dim) => {
            found.push(InScope {
                number,
                ty: TyRef::Pt(dim).copy(alloc)?,
                single: is_single,
            })?;
            Ok(found)
        }
        None => Ok(found),
    }
}

// Copies of these variables.
fn copy_variables(alloc: Global, variables: &[InScope]) -> Result<Vec<InScope>, Memory>
    ensures { IfOk result (λ v. map in_scope_of v.items ≡ map in_scope_of variables.now) }
{
    let mut found = Vec::new(alloc);
    for v in variables {
        found.push(InScope {
            number: v.number,
            ty: v.ty.copy(alloc)?,
            single: v.single,
        })?;
    }
    Ok(found)
}

// The number of dimensions of the domain that this expression is; None if it is no domain.
fn domain_dim(site: SingleContext<'_>, domain: &Expr) -> Option<usize>
    ensures { result ≡ option_and_then domain_dim (operand_type (program_at site.entry) (scope_at site.entry) (expression_of domain.now)) }
{
    let judge = TypeChecker {
        program: &site.program.parts,
    };
    match judge.exp(site.scope, domain).operand() {
        Some(ty) => ty.domain_dim(),
        None => None,
    }
}

// The scope of the body of a foreach.
fn foreach_scope(
    alloc: Global,
    site: SingleContext<'_>,
    number: u32,
    domain: &Expr,
) -> Result<Scope, Memory>
    ensures this { IfOk result (λ s. s.this ≡ site.entry.scope.now.this) }
    ensures variables { IfOk result (λ s. (contents_of s).variables
        ≡ variables_inside (program_at site.entry) (scope_at site.entry) number (expression_of domain.now)) }
{
    let is_single = site.is_single_inside(domain);
    let dim = domain_dim(site, domain);
    let variables = with_foreach_variable(alloc, &site.scope.variables, number, is_single, dim)?;
    Ok(Scope {
        this: site.scope.this,
        variables,
        method: site.scope.method,
        innermost_loop: site.scope.innermost_loop,
    })
}

// The context in the body of a loop.
fn in_loop<'a>(site: SingleContext<'a>, stmt: &Stmt) -> SingleContext<'a>
    ensures program { program_at result ≡ program_at site.entry }
    ensures around { around_of result ≡ in_this_loop (program_at site.entry) (around_of site.entry) (statement_of stmt.now) }
    ensures this { result.scope.now.this ≡ site.entry.scope.now.this }
{
    SingleContext {
        program: site.program,
        method: site.method,
        scope: site.scope,
        return_is_global: site.return_is_global,
        jump_has: Some(jump_has_inside(site, stmt)),
    }
}

// The context with other variables in scope.
fn with_scope<'a>(site: SingleContext<'a>, scope: &'a Scope) -> SingleContext<'a>
    requires { scope.now.this ≡ site.scope.now.this }
    ensures program { program_at result ≡ program_at site.entry }
    ensures around { around_of result ≡ record (around_of site.entry) { variables = (contents_of scope.now).variables } }
{
    SingleContext {
        program: site.program,
        method: site.method,
        scope,
        return_is_global: site.return_is_global,
        jump_has: site.jump_has,
    }
}

// ---- the search

/// Whether what was found is this refusal.
pub fn is_refused_as(found: Option<Refusal>, refusal: Refusal) -> bool
    ensures { IsTrue result ↔ (found ≡ Some refusal) }
{
    found == Some(refusal)
}

// The first refusal of a statement by itself, by the rules that are searched.
fn own_refusal(by_types: bool, site: SingleContext<'_>, stmt: &Stmt) -> Option<Refusal>
    ensures { result ≡ earliest (own_refusals by_types (program_at site.entry) (stands (around_of site.entry) (statement_of stmt.now))) }
{
    if by_types {
        statement_refusal(site, stmt)
    } else {
        let own = stmt_effects(site.program, this_of(site.method), stmt);
        let inside = effects_in_loop(site.program, site.method, stmt);
        site.refusal(stmt, own, inside)
    }
}

// The reasons of a statement, by the rules that are searched.
fn reasons_here(
    alloc: Global,
    sought: SoughtRefusal<'_>,
    site: SingleContext<'_>,
    stmt: &Stmt,
) -> Result<Vec<RefusalReason>, Memory>
    ensures { IfOk result (λ v. v.items ≡ reasons_of_statement sought.entry (program_at site.entry) (stands (around_of site.entry)
        (statement_of stmt.now))) }
{
    if sought.by_types {
        type_statement_reasons(alloc, sought.tree, site, sought.refusal, stmt)
    } else {
        statement_reasons(alloc, site, sought.refusal, stmt)
    }
}

// The reasons of a statement if it is refused so by itself.
fn found_here(
    alloc: Global,
    sought: SoughtRefusal<'_>,
    site: SingleContext<'_>,
    stmt: &Stmt,
) -> Result<Option<Vec<RefusalReason>>, Memory>
    ensures { IfOk result (λ o. IsFound (program_at site.entry) sought.entry (stands (around_of site.entry) (statement_of stmt.now) ∷ []) o) }
{
    if is_refused_as(own_refusal(sought.by_types, site, stmt), sought.refusal) {
        Ok(Some(reasons_here(alloc, sought, site, stmt)?))
    } else {
        Ok(None)
    }
}

/// The reasons of the first of these statements, or of those in them, that is refused so by itself; None if there is none.
#[cycle(search)]
pub fn found_among(
    alloc: Global,
    sought: SoughtRefusal<'_>,
    site: SingleContext<'_>,
    stmts: &[Stmt],
) -> Result<Option<Vec<RefusalReason>>, Memory>
    ensures { IfOk result (λ o. IsFound (program_at site.entry) sought.entry (inside_all (program_at site.entry) (around_of site.entry)
        (numbered_stms (map statement_of stmts.now))) o) }
{
    for x in stmts {
        if let Some(found) = found_in(alloc, sought, site, x)? {
            return Ok(Some(found));
        }
    }
    Ok(None)
}

#[cycle(search)]
fn found_in_maybe(
    alloc: Global,
    sought: SoughtRefusal<'_>,
    site: SingleContext<'_>,
    stmt: &Option<Box<Stmt>>,
) -> Result<Option<Vec<RefusalReason>>, Memory>
    ensures { IfOk result (λ o. IsFound (program_at site.entry) sought.entry (inside_maybe (program_at site.entry) (around_of site.entry)
        (maybe_in stmt.now)) o) }
{
    match stmt {
        Some(x) => found_in(alloc, sought, site, deref_stmt(x)),
        None => Ok(None),
    }
}

#[cycle(search)]
fn found_in(
    alloc: Global,
    sought: SoughtRefusal<'_>,
    site: SingleContext<'_>,
    stmt: &Stmt,
) -> Result<Option<Vec<RefusalReason>>, Memory>
    ensures { IfOk result (λ o. IsFound (program_at site.entry) sought.entry (inside (program_at site.entry) (around_of site.entry)
        (statement_of stmt.now)) o) }
{
    if let Some(found) = found_here(alloc, sought, site, stmt)? {
        return Ok(Some(found));
    }
    found_nested(alloc, sought, site, stmt)
}

// In the statements in a statement.
#[cycle(search)]
fn found_nested(
    alloc: Global,
    sought: SoughtRefusal<'_>,
    site: SingleContext<'_>,
    stmt: &Stmt,
) -> Result<Option<Vec<RefusalReason>>, Memory>
    ensures { IfOk result (λ o. IsFound (program_at site.entry) sought.entry (nested (program_at site.entry) (around_of site.entry)
        (statement_of stmt.now)) o) }
{
    match stmt {
        Stmt::Block(body) => found_among(alloc, sought, site, deref_stmts(body)),
        Stmt::If {
            then,
            otherwise,
            ..
        } => {
            if let Some(found) = found_in(alloc, sought, site, deref_stmt(then))? {
                return Ok(Some(found));
            }
            found_in_maybe(alloc, sought, site, otherwise)
        }
        Stmt::While { body, .. } => {
            found_in(alloc, sought, in_loop(site, stmt), deref_stmt(body))
        }
        Stmt::For {
            first,
            update,
            body,
            ..
        } => {
            if let Some(found) = found_in_maybe(alloc, sought, site, first)? {
                return Ok(Some(found));
            }
            if let Some(found) = found_in_maybe(alloc, sought, site, update)? {
                return Ok(Some(found));
            }
            found_in(alloc, sought, in_loop(site, stmt), deref_stmt(body))
        }
        Stmt::Foreach {
            variable,
            domain,
            body,
            ..
        } => {
            let scope = foreach_scope(alloc, site, *variable, domain)?;
            let within = with_scope(in_loop(site, stmt), &scope);
            found_in(alloc, sought, within, deref_stmt(body))
        }
        Stmt::Empty
        | Stmt::Declare { .. }
        | Stmt::Assign { .. }
        | Stmt::Update { .. }
        | Stmt::Step { .. }
        | Stmt::Call(_)
        | Stmt::Print(_, _)
        | Stmt::Barrier(_)
        | Stmt::Break(_)
        | Stmt::Continue(_)
        | Stmt::Return(_, _) => Ok(None),
    }
}
