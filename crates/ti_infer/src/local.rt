// The local variables that the statements of a method declare, in source order.
ghost use Rattle.std.specs.Prelude.{◌≡◌, ◌++◌, ◌∷◌, [], map, OnOk, IfOk};
ghost use Rattle.ti_lang.specs.Program.Statements.{numbered_stms};
ghost use Rattle.ti_lang.specs.Program.Views.{type_use_of, statement_of, numbered_method_of};
ghost use Rattle.ti_single.specs.Mirrors.Maybe.{maybe_in};
ghost use Rattle.ti_infer.specs.Mirrors.Locals.{local_of, locals_in, locals_in_maybe, locals_in_all};

use crate::constraints::fits::accepts_single;
use std::alloc::Global;
use ti_base::{Memory, Place};
use ti_lang::program::{Method, Stmt, TypeUse};
use ti_single::{deref_stmt, deref_stmts};

/// A local variable: its number, the place of its declaration, and whether its type can be `single` there (`accepts`).
#[derive(Clone, Copy)]
pub struct Local {
    pub number: u32,
    pub place: Place,
    pub accepts: bool,
}

fn push_local(
    alloc: Global,
    number: u32,
    place: Place,
    ty: &TypeUse,
    out: &mut Vec<Local>,
) -> Result<(), Memory>
    ensures { OnOk result (out.new.items ≡ out.old.items ++ local_of number place (type_use_of ty.now) ∷ []) }
{
    let accepts = accepts_single(alloc, place, ty)?;
    out.push(Local {
        number,
        place: place,
        accepts,
    })?;
    Ok(())
}

// ---- statements

#[cycle(locals)]
fn in_all(alloc: Global, stmts: &[Stmt], out: &mut Vec<Local>) -> Result<(), Memory>
    ensures { OnOk result (out.new.items ≡ out.old.items ++ locals_in_all (numbered_stms (map statement_of stmts.now))) }
{
    for x in stmts {
        in_statement(alloc, x, out)?;
    }
    Ok(())
}

#[cycle(locals)]
fn in_maybe(alloc: Global, stmt: &Option<Box<Stmt>>, out: &mut Vec<Local>) -> Result<(), Memory>
    ensures { OnOk result (out.new.items ≡ out.old.items ++ locals_in_maybe (maybe_in stmt.now)) }
{
    match stmt {
        Some(stmt) => in_statement(alloc, deref_stmt(stmt), out),
        None => Ok(()),
    }
}

// Appends the variables that a statement and the statements in it declare. The variable of a `foreach` isn't among them, since it can't
// be annotated.
#[cycle(locals)]
#[tactic(auto, using(ti_lang::proofs::Lemmas::program_bridges, crate::proofs::Pushing::pushing))]
fn in_statement(alloc: Global, stmt: &Stmt, out: &mut Vec<Local>) -> Result<(), Memory>
    ensures { OnOk result (out.new.items ≡ out.old.items ++ locals_in (statement_of stmt.now)) }
{
    match stmt {
        Stmt::Declare {
            place,
            ty,
            variable,
            ..
        } => push_local(alloc, *variable, *place, ty, out),
        Stmt::Block(body) => in_all(alloc, deref_stmts(body), out),
        Stmt::If {
            then,
            otherwise,
            ..
        } => {
            in_statement(alloc, deref_stmt(then), out)?;
            match otherwise {
                Some(otherwise) => in_statement(alloc, deref_stmt(otherwise), out),
                None => Ok(()),
            }
        }
        Stmt::While { body, .. } => in_statement(alloc, deref_stmt(body), out),
        Stmt::For {
            first,
            update,
            body,
            ..
        } => {
            in_maybe(alloc, first, out)?;
            in_maybe(alloc, update, out)?;
            in_statement(alloc, deref_stmt(body), out)
        }
        Stmt::Foreach { body, .. } => in_statement(alloc, deref_stmt(body), out),
        Stmt::Empty
        | Stmt::Assign { .. }
        | Stmt::Update { .. }
        | Stmt::Step { .. }
        | Stmt::Call(_)
        | Stmt::Print(_, _)
        | Stmt::Barrier(_)
        | Stmt::Break(_)
        | Stmt::Continue(_)
        | Stmt::Return(_, _) => Ok(()),
    }
}

/// The variables that the statements of a method declare, in source order; parameters aren't among them. Errors only if it runs out of
/// memory.
pub fn locals(alloc: Global, method: &Method) -> Result<Vec<Local>, Memory>
    ensures { IfOk result (λ v. v.items ≡ locals_in_all (numbered_stms (numbered_method_of method.now).body)) }
{
    let mut found = Vec::new(alloc);
    in_all(alloc, deref_stmts(&method.body), &mut found)?;
    Ok(found)
}
