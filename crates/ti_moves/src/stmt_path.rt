// The statement at the position of a call, and the parts of loops. Positions are indices rather than references, so a process doesn't
// borrow its program.

ghost use Rattle.std.specs.Prelude.{◌≡◌, ◌<◌, [], ◌∷◌, length, map, reverse, slice_get, unwrap_or, if◌then◌else◌};
ghost use Rattle.ti_syntax.specs.Trees.Views.{maybe_of};
ghost use Rattle.ti_lang.specs.Program.Statements.{Block, Empty, numbered_stms};
ghost use Rattle.ti_lang.specs.Program.Views.{expression_of, statement_of};
ghost use Rattle.ti_lang.specs.Meaning.Processes.{Do, End};
ghost use Rattle.ti_lang.specs.Meaning.Performing as performing;
ghost use Rattle.ti_lang.specs.Meaning.Statements.{maybe_do};
ghost use Rattle.ti_eval.specs.declared.frame.ChildIndex.TheVariants.{Update};
ghost use Rattle.ti_eval.specs.Comes.{Comes};
ghost use Rattle.ti_eval.specs.Envs.{env_of};
ghost use Rattle.ti_eval.specs.Frames.{condition_in, update_in, loop_place_of, list_in, end_of_for};
ghost use Rattle.ti_eval.specs.Places.{inside, child_of};
ghost use Rattle.ti_moves.specs.Receiving.{stm_seen};

use std::alloc::Global;
use ti_base::Place;
use ti_eval::{CanonicalAnswer, ChildIndex, Env, Interrupt, StmtFrame, VarValue, evaluate};
use ti_lang::program::{Expr, Stmt};

// The statement of this number in a list, if there is one.
#[tactic(auto, using(crate::proofs::Entering::entering))]
fn item<'c>(list: &'c [Stmt], number: usize) -> Option<&'c Stmt>
    ensures { stm_seen result ≡ unwrap_or (slice_get (map statement_of list.now) number) Empty }
{
    list.get(number)
}

// A part of the body of a method.
#[tactic(auto, using(crate::proofs::Entering::entering))]
fn part_of_body<'c>(body: &'c [Stmt], inner: ChildIndex) -> Option<&'c Stmt>
    ensures { stm_seen result ≡ child_of (Block (numbered_stms (map statement_of body.now))) inner }
{
    match inner {
        ChildIndex::Item(n) => item(body, n),
        _ => None,
    }
}

// A part of a statement, if the statement has it.
#[tactic(auto, using(crate::proofs::Entering::entering))]
fn part<'c>(stmt: &'c Stmt, inner: ChildIndex) -> Option<&'c Stmt>
    ensures { stm_seen result ≡ child_of (statement_of stmt.now) inner }
{
    match (stmt, inner) {
        (Stmt::Block(body), ChildIndex::Item(n)) => item(body, n),
        (Stmt::If { then, .. }, ChildIndex::Then) => Some(then),
        (
            Stmt::If {
                otherwise: Some(otherwise),
                ..
            },
            ChildIndex::Else,
        ) => Some(otherwise),
        (Stmt::While { body, .. }, ChildIndex::Body) => Some(body),
        (Stmt::Foreach { body, .. }, ChildIndex::Body) => Some(body),
        (Stmt::For { body, .. }, ChildIndex::Body) => Some(body),
        (
            Stmt::For {
                first: Some(first),
                ..
            },
            ChildIndex::First,
        ) => Some(first),
        (
            Stmt::For {
                update: Some(update),
                ..
            },
            ChildIndex::Update,
        ) => Some(update),
        _ => None,
    }
}

// A part of a statement that may be missing.
fn part_in<'c>(stmt: Option<&'c Stmt>, inner: ChildIndex) -> Option<&'c Stmt>
    ensures { stm_seen result ≡ child_of (stm_seen stmt.entry) inner }
{
    match stmt {
        Some(s) => part(s, inner),
        None => None,
    }
}

/// The innermost statement of those entered in the body of a method; a missing one counts as empty.
pub fn statement_at<'c>(body: &'c [Stmt], levels: &[StmtFrame]) -> Option<&'c Stmt>
    requires { 0 < length levels.now }
    ensures { stm_seen result ≡ inside (numbered_stms (map statement_of body.now)) (reverse levels.now) }
{
    let mut x = part_of_body(body, levels[0].inner);
    for n in 1..levels.len() {
        x = part_in(x, levels[n].inner);
    }
    x
}

// How many statements a block has; 0 for another statement.
#[tactic(auto, using(crate::proofs::Entering::entering))]
fn count_in(stmt: Option<&Stmt>) -> usize
    ensures { result ≡ length (list_in (stm_seen stmt.entry)) }
{
    match stmt {
        Some(s) => match s {
            Stmt::Block(body) => body.len(),
            _ => 0,
        },
        None => 0,
    }
}

/// How many statements the list of the innermost block has.
#[tactic(auto, using(crate::proofs::Entering::entering))]
pub fn count(body: &[Stmt], levels: &[StmtFrame]) -> usize
    ensures { result ≡ length (list_in (inside (numbered_stms (map statement_of body.now)) (reverse levels.now))) }
{
    if levels.is_empty() {
        body.len()
    } else {
        count_in(statement_at(body, levels))
    }
}

// The condition of a `for`; a missing one is true.
fn for_condition<'a>(
    alloc: Global,
    env: &Env,
    expr: &Option<Expr>,
    answers: &'a [CanonicalAnswer],
) -> Result<(VarValue, &'a [CanonicalAnswer]), Interrupt>
    ensures { Comes result (performing.condition (env_of env.now) (maybe_of expression_of expr.now) answers.now) }
{
    match expr {
        Some(expr) => evaluate(alloc, env, expr, answers),
        None => Ok((VarValue::boolean(true), answers)),
    }
}

/// The condition of a loop; a missing one is true.
pub fn condition<'a>(
    alloc: Global,
    env: &Env,
    stmt: Option<&Stmt>,
    answers: &'a [CanonicalAnswer],
) -> Result<(VarValue, &'a [CanonicalAnswer]), Interrupt>
    ensures { Comes result (performing.condition (env_of env.now) (condition_in (stm_seen stmt.entry)) answers.now) }
{
    match stmt {
        Some(s) => match s {
            Stmt::While { condition, .. } => evaluate(alloc, env, condition, answers),
            Stmt::For { condition, .. } => for_condition(alloc, env, condition, answers),
            _ => Ok((VarValue::boolean(true), answers)),
        },
        None => Ok((VarValue::boolean(true), answers)),
    }
}

/// The place of a loop.
pub fn loop_place(stmt: Option<&Stmt>) -> Place
    ensures { result ≡ loop_place_of (stm_seen stmt.entry) }
{
    match stmt {
        Some(s) => match s {
            Stmt::While { place, .. } => *place,
            Stmt::For { place, .. } => *place,
            Stmt::Foreach { place, .. } => *place,
            _ => Place { line: 0, col: 0 },
        },
        None => Place { line: 0, col: 0 },
    }
}

/// Whether each iteration of a loop ends with an update.
pub fn has_update(stmt: Option<&Stmt>) -> bool
    ensures { maybe_do (update_in (stm_seen stmt.entry)) ≡ (if result then Do (child_of (stm_seen stmt.entry) Update) ∷ [] else []) }
{
    match stmt {
        Some(s) => match s {
            Stmt::For { update, .. } => update.is_some(),
            _ => false,
        },
        None => false,
    }
}

/// Whether the statement is a `for`.
pub fn is_for(stmt: Option<&Stmt>) -> bool
    ensures { end_of_for (stm_seen stmt.entry) ≡ (if result then End (stm_seen stmt.entry) ∷ [] else []) }
{
    match stmt {
        Some(s) => match s {
            Stmt::For { .. } => true,
            _ => false,
        },
        None => false,
    }
}
