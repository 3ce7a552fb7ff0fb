// Lookup of a method's loops by the positions of their keywords.
ghost use Rattle.std.specs.Prelude.{◌≡◌, map};
ghost use Rattle.std.specs.Option.{option_map, option_or};
ghost use Rattle.ti_lang.specs.Program.Statements.{numbered_stms};
ghost use Rattle.ti_lang.specs.Program.Views.{program_of, statement_of, numbered_method_of};
ghost use Rattle.ti_single.specs.Effects.{effects_of};
ghost use Rattle.ti_single.specs.EffectsAt.{effects_in_loop};
ghost use Rattle.ti_single.specs.Mirrors.Loops.{loop_in, loop_in_all};

use crate::deref::{deref_stmt, deref_stmts};
use crate::statements::{Effects, stmt_effects, this_of};
use ti_base::Place;
use ti_lang::program::{Method, Program, Stmt};

fn first_some<'a>(first: Option<&'a Stmt>, second: Option<&'a Stmt>) -> Option<&'a Stmt>
    ensures { option_map (λ y. statement_of y.now) result ≡ option_or (option_map (λ y. statement_of y.now) first.entry)
        (option_map (λ y. statement_of y.now) second.entry) }
{
    match first {
        Some(x) => Some(x),
        None => second,
    }
}

/// The first loop in these statements whose keyword is at this position.
#[cycle(loops)]
pub fn loop_in_all<'a>(loop_place: Place, stmts: &'a [Stmt]) -> Option<&'a Stmt>
    ensures { option_map (λ y. statement_of y.now) result ≡ loop_in_all loop_place (numbered_stms (map statement_of stmts.now)) }
{
    for x in stmts {
        if let Some(found) = loop_in(loop_place, x) {
            return Some(found);
        }
    }
    None
}

// The first loop in a statement whose keyword is at this position.
#[cycle(loops)]
#[tactic(auto, using(ti_lang::proofs::Lemmas::program_bridges))]
fn loop_in<'a>(loop_place: Place, stmt: &'a Stmt) -> Option<&'a Stmt>
    ensures { option_map (λ y. statement_of y.now) result ≡ loop_in loop_place (statement_of stmt.now) }
{
    match stmt {
        Stmt::Block(body) => loop_in_all(loop_place, deref_stmts(body)),
        Stmt::If {
            then,
            otherwise,
            ..
        } => {
            let then = loop_in(loop_place, deref_stmt(then));
            match otherwise {
                Some(otherwise) => first_some(then, loop_in(loop_place, deref_stmt(otherwise))),
                None => then,
            }
        }
        Stmt::While { place, body, .. } => {
            if loop_place == *place {
                Some(stmt)
            } else {
                loop_in(loop_place, deref_stmt(body))
            }
        }
        Stmt::For {
            place,
            first,
            update,
            body,
            ..
        } => {
            if loop_place == *place {
                return Some(stmt);
            }
            let first = match first {
                Some(first) => loop_in(loop_place, deref_stmt(first)),
                None => None,
            };
            let update = match update {
                Some(update) => loop_in(loop_place, deref_stmt(update)),
                None => None,
            };
            first_some(
                first,
                first_some(update, loop_in(loop_place, deref_stmt(body))),
            )
        }
        Stmt::Foreach { place, body, .. } => {
            if loop_place == *place {
                Some(stmt)
            } else {
                loop_in(loop_place, deref_stmt(body))
            }
        }
        Stmt::Empty
        | Stmt::Declare { .. }
        | Stmt::Assign { .. }
        | Stmt::Update { .. }
        | Stmt::Step { .. }
        | Stmt::Call(_)
        | Stmt::Print(_, _)
        | Stmt::Barrier(_)
        | Stmt::Break(_)
        | Stmt::Continue(_)
        | Stmt::Return(_, _) => None,
    }
}

/// The effect summary of a loop's update and body; that of nothing if the statement is no loop.
pub fn effects_in_loop(program: &Program, method: &Method, stmt: &Stmt) -> Effects
    ensures { effects_of result ≡ effects_in_loop (program_of program.now.parts) (numbered_method_of method.now) (statement_of stmt.now) }
{
    let this = this_of(method);
    match stmt {
        Stmt::While { body, .. } => stmt_effects(program, this, deref_stmt(body)),
        Stmt::For { update, body, .. } => {
            let body = stmt_effects(program, this, deref_stmt(body));
            match update {
                Some(update) => stmt_effects(program, this, deref_stmt(update)).merge(body),
                None => body,
            }
        }
        Stmt::Foreach { body, .. } => stmt_effects(program, this, deref_stmt(body)),
        _ => Effects::none(),
    }
}
