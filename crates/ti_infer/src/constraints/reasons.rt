// The reasons for which a statement has global effects: the collectives in it, the methods that it calls, and the variables that it
// declares or assigns.
ghost use Rattle.std.specs.Prelude.{◌≡◌, ◌++◌, ◌∷◌, [], map, length, OnOk, IfOk};
ghost use Rattle.std.specs.Option.{option_map};
ghost use Rattle.ti_lang.specs.Program.Expressions.{place_of_numbered};
ghost use Rattle.ti_lang.specs.Program.Scope.{this_of};
ghost use Rattle.ti_lang.specs.Program.Statements.{numbered_stms};
ghost use Rattle.ti_lang.specs.Program.Views.{program_of, expression_of, initial_of, statement_of, variable_of, numbered_result_of, numbered_method_of};
ghost use Rattle.ti_lang.specs.Typing.TyRef.{built_in_of};
ghost use Rattle.ti_lang.specs.Typing.Effects.{is_collective, is_collective_call};
ghost use Rattle.ti_single.specs.Mirrors.Maybe.{maybe_in};
ghost use Rattle.ti_blame.specs.declared.reason.Reason.TheVariants.{OfCollective};
ghost use Rattle.ti_infer.specs.Marks.{variable_place};
ghost use Rattle.ti_infer.specs.Reason.{reasons_if, method_reasons, acts_reasons, initial_reasons, place_reasons, declared_reasons, target_reasons, reasons, reasons_of_maybe, reasons_of_all, result_reasons, return_reasons};
ghost use Rattle.ti_infer.specs.Mirrors.Listed.{option_list};
ghost use Rattle.ti_infer.specs.Mirrors.Sites.{program_at, method_of_site};

use crate::constraints::reads::{built_in, callee};
use crate::constraints::site::MethodSite;
use std::alloc::Global;
use ti_base::{Memory, Place};
use ti_blame::Reason;
use ti_lang::program::{Declared, Expr, Init, Method, ResultType, Stmt, Variable};
use ti_lang::typing::BuiltIn;
use ti_single::{deref_init, deref_stmt, deref_stmts};

fn push(found: Option<Reason>, out: &mut Vec<Reason>) -> Result<(), Memory>
    ensures { OnOk result (out.new.items ≡ out.old.items ++ option_list found) }
{
    if let Some(b) = found {
        out.push(b)?;
    }
    Ok(())
}

// ---- expressions

// A called method, as a reason; `Always` if it is single already.
fn callee_reason(method: Option<&Method>) -> Option<Reason>
    ensures { option_list result ≡ method_reasons (option_map (λ method. numbered_method_of method.now) method.entry) }
{
    match method {
        Some(method) => {
            if method.single {
                Some(Reason::Always)
            } else {
                Some(Reason::OfMethod(method.place))
            }
        }
        None => None,
    }
}

fn is_collective(member: Option<BuiltIn>) -> bool
    ensures { result ≡ is_collective (option_map built_in_of member) }
{
    matches!(member, Some(BuiltIn::Exchange | BuiltIn::Delete))
}

#[tactic(auto, using(ti_lang::proofs::Lemmas::program_bridges))]
fn is_collective_call(site: MethodSite, expr: &Expr) -> bool
    ensures { result ≡ is_collective_call (program_at site.entry) (this_of (method_of_site site.entry)) (expression_of expr.now) }
{
    match expr {
        Expr::Member { receiver, name, .. } => is_collective(built_in(site, receiver, *name)),
        _ => false,
    }
}

// The collective that an expression is, as a reason.
fn collective(site: MethodSite, expr: &Expr) -> Option<Reason>
    ensures { option_list result ≡ reasons_if (is_collective_call (program_at site.entry) (this_of (method_of_site site.entry)) (expression_of expr.now))
        (OfCollective (place_of_numbered (expression_of expr.now)) ∷ []) }
{
    if is_collective_call(site, expr) {
        Some(Reason::OfCollective(expr.place()))
    } else {
        None
    }
}

// Appends the reasons of an expression that is a whole statement or right side: what it calls.
#[tactic(auto, using(crate::proofs::Pushing::pushing))]
fn acts(site: MethodSite, expr: &Expr, out: &mut Vec<Reason>) -> Result<(), Memory>
    ensures { OnOk result (out.new.items ≡ out.old.items ++ acts_reasons (program_at site.entry) (method_of_site site.entry)
        (expression_of expr.now)) }
{
    let m = callee(site, expr);
    push(callee_reason(m), out)?;
    push(collective(site, expr), out)
}

// Appends the reasons of a right side.
fn initial(site: MethodSite, value: &Init, out: &mut Vec<Reason>) -> Result<(), Memory>
    ensures { OnOk result (out.new.items ≡ out.old.items ++ initial_reasons (program_at site.entry) (method_of_site site.entry)
        (initial_of value.now)) }
{
    match value {
        Init::Value(e) => acts(site, e, out),
        Init::NewRegion(place) => Ok(out.push(Reason::OfCollective(*place))?),
        Init::NewObject { .. } => Ok(()),
        Init::NewGrid { .. } => Ok(()),
        Init::Broadcast { place, .. } => Ok(out.push(Reason::OfCollective(*place))?),
    }
}

// ---- targets

/// The place of the declaration of the variable with this number; `None` if there is none.
pub fn place_at(site: MethodSite, number: u32) -> Option<Place>
    ensures { result ≡ variable_place (method_of_site site.entry) number }
{
    let number = number as usize;
    if number < site.places.len() {
        site.places[number]
    } else {
        None
    }
}

fn declared_reason(site: MethodSite, variable: &Variable) -> Option<Reason>
    ensures { option_list result ≡ declared_reasons (program_at site.entry) (method_of_site site.entry) (variable_of variable.now).number
        (variable_of variable.now).declared }
{
    match &variable.declared {
        Declared::Typed { .. } => match place_at(site, variable.number) {
            Some(place) => Some(Reason::OfVariable(place)),
            None => None,
        },
        Declared::Foreach => None,
    }
}

/// The assigned variable, as a reason; `None` if the target is a foreach variable or no variable.
#[tactic(auto, using(ti_lang::proofs::Lemmas::program_bridges))]
pub fn target(site: MethodSite, expr: &Expr) -> Option<Reason>
    ensures { option_list result ≡ target_reasons (program_at site.entry) (method_of_site site.entry) (expression_of expr.now) }
{
    match expr {
        Expr::Variable(_, v) => declared_reason(site, v),
        _ => None,
    }
}

// ---- statements

/// Appends the reasons for which these statements have global effects, in source order.
#[cycle(reasons)]
pub fn reasons_of_all(site: MethodSite, stmts: &[Stmt], out: &mut Vec<Reason>) -> Result<(), Memory>
    ensures { OnOk result (out.new.items ≡ out.old.items ++ reasons_of_all (program_at site.entry) (method_of_site site.entry)
        (numbered_stms (map statement_of stmts.now))) }
{
    for x in stmts {
        reasons(site, x, out)?;
    }
    Ok(())
}

/// Appends the reasons of an optional statement.
#[cycle(reasons)]
pub fn reasons_of_maybe(
    site: MethodSite,
    stmt: &Option<Box<Stmt>>,
    out: &mut Vec<Reason>,
) -> Result<(), Memory>
    ensures { OnOk result (out.new.items ≡ out.old.items ++ reasons_of_maybe (program_at site.entry) (method_of_site site.entry)
        (maybe_in stmt.now)) }
{
    match stmt {
        Some(stmt) => reasons(site, deref_stmt(stmt), out),
        None => Ok(()),
    }
}

/// Appends the reasons for which a statement has global effects, including those of the statements in it.
#[cycle(reasons)]
#[tactic(auto, using(ti_lang::proofs::Lemmas::program_bridges, crate::proofs::Pushing::pushing))]
pub fn reasons(site: MethodSite, stmt: &Stmt, out: &mut Vec<Reason>) -> Result<(), Memory>
    ensures { OnOk result (out.new.items ≡ out.old.items ++ reasons (program_at site.entry) (method_of_site site.entry) (statement_of stmt.now)) }
{
    match stmt {
        Stmt::Declare { place, value, .. } => {
            out.push(Reason::OfVariable(*place))?;
            initial(site, deref_init(value), out)
        }
        Stmt::Assign {
            target: to,
            value,
            ..
        } => {
            push(target(site, to), out)?;
            initial(site, deref_init(value), out)
        }
        Stmt::Update {
            target: to,
            value,
            ..
        } => {
            push(target(site, to), out)?;
            acts(site, value, out)
        }
        Stmt::Step { target: to, .. } => push(target(site, to), out),
        Stmt::Call(e) => acts(site, e, out),
        Stmt::Barrier(place) => Ok(out.push(Reason::OfCollective(*place))?),
        Stmt::Block(body) => reasons_of_all(site, deref_stmts(body), out),
        Stmt::If {
            then,
            otherwise,
            ..
        } => {
            reasons(site, deref_stmt(then), out)?;
            match otherwise {
                Some(otherwise) => reasons(site, deref_stmt(otherwise), out),
                None => Ok(()),
            }
        }
        Stmt::While { body, .. } => reasons(site, deref_stmt(body), out),
        Stmt::For {
            first,
            update,
            body,
            ..
        } => {
            reasons_of_maybe(site, first, out)?;
            reasons_of_maybe(site, update, out)?;
            reasons(site, deref_stmt(body), out)
        }
        Stmt::Foreach { body, .. } => reasons(site, deref_stmt(body), out),
        Stmt::Empty | Stmt::Print(_, _) | Stmt::Break(_) | Stmt::Continue(_) | Stmt::Return(_, _) =>
            Ok(()),
    }
}

// ---- methods

/// The result of the method, as a reason; `None` if it is `void`.
pub fn result(site: MethodSite, ty: &ResultType) -> Option<Reason>
    ensures { option_list result ≡ result_reasons (program_at site.entry) (method_of_site site.entry) (numbered_result_of ty.now) }
{
    match ty {
        ResultType::Void => None,
        ResultType::Typed(_) => Some(Reason::OfResult(site.method.place)),
    }
}

/// Appends the reasons for which a `return` of the method has global effects: its result, and the reasons of all its statements.
#[tactic(auto, using(crate::proofs::Pushing::pushing))]
pub fn return_reasons(site: MethodSite, out: &mut Vec<Reason>) -> Result<(), Memory>
    ensures { OnOk result (out.new.items ≡ out.old.items ++ return_reasons (program_at site.entry) (method_of_site site.entry)) }
{
    push(result(site, &site.method.result), out)?;
    reasons_of_all(site, deref_stmts(&site.method.body), out)
}

// ---- counts

/// The number of reasons of a statement. Errors only if it runs out of memory.
pub fn size(alloc: Global, site: MethodSite, stmt: &Stmt) -> Result<usize, Memory>
    ensures { IfOk result (λ n. n ≡ length (reasons (program_at site.entry) (method_of_site site.entry) (statement_of stmt.now))) }
{
    let mut found = Vec::new(alloc);
    reasons(site, stmt, &mut found)?;
    Ok(found.len())
}

/// The number of reasons of an optional statement: 0 if there is none. Errors only if it runs out of memory.
pub fn size_of_maybe(
    alloc: Global,
    site: MethodSite,
    stmt: &Option<Box<Stmt>>,
) -> Result<usize, Memory>
    ensures { IfOk result (λ n. n ≡ length (reasons_of_maybe (program_at site.entry) (method_of_site site.entry) (maybe_in stmt.now))) }
{
    match stmt {
        Some(stmt) => size(alloc, site, deref_stmt(stmt)),
        None => Ok(0),
    }
}
