// The receivers of values: where the values of right sides are stored.

ghost use Rattle.std.specs.Prelude.{◌≡◌, IfOk};
ghost use Rattle.ti_lang.specs.Program.Types.{ValueType};
ghost use Rattle.ti_lang.specs.Program.Expressions.{place_of_numbered};
ghost use Rattle.ti_lang.specs.Program.Statements.{NumberedStm};
ghost use Rattle.ti_lang.specs.Program.Views.{expression_of, statement_of, type_use_of};
ghost use Rattle.ti_lang.specs.Meaning.Processes as process;
ghost use Rattle.ti_lang.specs.Meaning.Scoping.{type_of as type_of_spec};
ghost use Rattle.ti_lang.specs.Meaning.Targets.{held_in as held_in_spec, into as into_spec};
ghost use Rattle.ti_lang.specs.Meaning.Moves.{receives as receives_spec};
ghost use Rattle.ti_lang.specs.Meaning.Statements.{one_more as one_more_spec, declared_as};
ghost use Rattle.ti_eval.specs.Comes.{Comes, ComesAs};
ghost use Rattle.ti_eval.specs.Envs.{env_of};
ghost use Rattle.ti_eval.specs.Frames.{slot_of};
ghost use Rattle.ti_moves.specs.declared.outcomes.VarUpdate.{VarUpdate as Changing};
ghost use Rattle.ti_moves.specs.Outcomes.{update_variables, move_after};
ghost use Rattle.ti_moves.specs.Receiving.{stm_seen, dest_seen, receiver_of, right_seen};
ghost use Rattle.ti_moves.specs.Targets.{target_of};

use crate::outcomes::{Continuation, StmtOutcome, VarUpdate};
use crate::targets::{Target, as_typed, locate, store, target_value};
use std::alloc::Global;
use ti_base::{Memory, Place};
use ti_eval::{
    CanonicalAnswer, Env, Interrupt, Resume, Slot, VarValue, apply_binary, coerce, evaluate,
    type_of,
};
use ti_lang::program::{Declared, Expr, Stmt, TypeUse, Variable};
use ti_lang::tree::{BinaryOperator, StepOperator};

/// The receiver of the value of a right side: where it is stored.
#[derive(Clone, Copy)]
pub enum Dest<'c> {
    Nowhere,
    /// In a new variable with this number.
    Declared {
        place: Place,
        ty: &'c TypeUse,
        variable: u32,
    },
    /// In the target of an assignment.
    Assigned {
        place: Place,
        target: &'c Expr,
    },
    /// In the target of an assignment, by an operator on its old value.
    Updated {
        place: Place,
        operator: BinaryOperator,
        target: &'c Expr,
    },
}

/// A right side: an expression to be evaluated, or a value that is known already.
#[derive(Clone, Copy)]
pub enum RightSide<'r> {
    Value(&'r Expr),
    Known(&'r VarValue),
}

/// The operator of `++` is `+`, and that of `--` is `-`.
pub fn one_more(operator: StepOperator) -> BinaryOperator
    ensures { result ≡ one_more_spec operator }
{
    match operator {
        StepOperator::Increment => BinaryOperator::Add,
        StepOperator::Decrement => BinaryOperator::Subtract,
    }
}

// The receiver of the value of a statement's right side.
fn dest_in<'c>(stmt: &'c Stmt) -> Dest<'c>
    ensures { dest_seen result ≡ receiver_of (statement_of stmt.now) }
{
    match stmt {
        Stmt::Declare {
            place,
            ty,
            variable,
            ..
        } => Dest::Declared {
            place: *place,
            ty,
            variable: *variable,
        },
        Stmt::Assign { place, target, .. } => Dest::Assigned {
            place: *place,
            target,
        },
        Stmt::Update {
            place,
            operator,
            target,
            ..
        } => Dest::Updated {
            place: *place,
            operator: *operator,
            target,
        },
        Stmt::Step {
            place,
            operator,
            target,
        } => Dest::Updated {
            place: *place,
            operator: one_more(*operator),
            target,
        },
        _ => Dest::Nowhere,
    }
}

/// The receiver of the value of a statement's right side; a missing statement has none.
pub fn dest_at<'c>(stmt: Option<&'c Stmt>) -> Dest<'c>
    ensures { dest_seen result ≡ receiver_of (stm_seen stmt.entry) }
{
    match stmt {
        Some(s) => dest_in(s),
        None => Dest::Nowhere,
    }
}

// The value of a right side.
fn value_of<'a>(
    alloc: Global,
    env: &Env,
    right: RightSide,
    answers: &'a [CanonicalAnswer],
) -> Result<(VarValue, &'a [CanonicalAnswer]), Interrupt>
    ensures { Comes result (right_seen (env_of env.now) right.entry answers.now) }
{
    match right {
        RightSide::Value(e) => evaluate(alloc, env, e, answers),
        RightSide::Known(h) => Ok((h.copy(alloc)?, answers)),
    }
}

// ---- into a new variable

/// A new variable.
pub fn new_slot(alloc: Global, ty: &TypeUse, number: u32, held: VarValue) -> Result<Slot, Memory>
    ensures { IfOk result (λ s. slot_of s ≡ record { named = declared_as (type_use_of ty.now) number; held = held }) }
{
    let declared = Declared::Typed {
        single: ty.single,
        ty: ty.ty.copy(alloc)?,
    };
    let variable = Variable { number, declared };
    Ok(Slot { variable, held })
}

// Stores the value of a right side in a new variable, converted to its type.
#[tactic(auto, using(ti_eval::proofs::Lemmas::steps))]
fn store_in_new<'a, 'c>(
    alloc: Global,
    env: &Env,
    place: Place,
    ty: &TypeUse,
    variable: u32,
    right: RightSide,
    answers: &'a [CanonicalAnswer],
) -> Result<(VarUpdate<'c>, &'a [CanonicalAnswer]), Interrupt>
    ensures { ComesAs (λ (c : Changing). update_variables c (env_of env.now).variables) result
        (into_spec (env_of env.now) (process.Declared place (declared_as (type_use_of ty.now) variable))
        (right_seen (env_of env.now) right.entry) answers.now) }
{
    let (h, answers) = value_of(alloc, env, right, answers)?;
    let (held, answers) = coerce(alloc, place, &ty.ty, h, answers)?;
    let slot = new_slot(alloc, ty, variable, held)?;
    Ok((VarUpdate::New(slot), answers))
}

// ---- into a target

// Stores the value of a right side in a target, converted to its type.
#[tactic(auto, using(ti_eval::proofs::Lemmas::steps))]
fn assign_target<'a, 'c>(
    alloc: Global,
    env: &Env,
    place: Place,
    target: &'c Expr,
    right: RightSide,
    answers: &'a [CanonicalAnswer],
) -> Result<(VarUpdate<'c>, &'a [CanonicalAnswer]), Interrupt>
    ensures { ComesAs (λ (c : Changing). update_variables c (env_of env.now).variables) result
        (into_spec (env_of env.now) (process.Assigned place (expression_of target.now)) (right_seen (env_of env.now) right.entry)
        answers.now) }
{
    let (located_target, answers) = locate(alloc, env, target, answers)?;
    let (h, answers) = value_of(alloc, env, right, answers)?;
    let (k, answers) = as_typed(alloc, place, type_of(env, target), h, answers)?;
    store(place, &located_target, k, answers)
}

// The value of the target that an expression denotes.
fn target_value_at<'a>(
    alloc: Global,
    env: &Env,
    expr: &Expr,
    target: &Target,
    answers: &'a [CanonicalAnswer],
) -> Result<(VarValue, &'a [CanonicalAnswer]), Interrupt>
    ensures { (through : ValueType) → Comes result (held_in_spec (env_of env.now) (place_of_numbered (expression_of expr.now))
        (type_of_spec (env_of env.now) (expression_of expr.now)) (target_of through target.now) answers.now) }
{
    target_value(alloc, env, expr.place(), target, answers)
}

// Stores the result of an operator on the old value of a target and the value of the right side.
#[tactic(auto, using(ti_eval::proofs::Lemmas::steps))]
fn update_target<'a, 'c>(
    alloc: Global,
    env: &Env,
    place: Place,
    operator: BinaryOperator,
    target: &'c Expr,
    right: RightSide,
    answers: &'a [CanonicalAnswer],
) -> Result<(VarUpdate<'c>, &'a [CanonicalAnswer]), Interrupt>
    ensures { ComesAs (λ (c : Changing). update_variables c (env_of env.now).variables) result
        (into_spec (env_of env.now) (process.Updated place operator (expression_of target.now)) (right_seen (env_of env.now) right.entry)
        answers.now) }
{
    let (located_target, answers) = locate(alloc, env, target, answers)?;
    let (old, answers) = target_value_at(alloc, env, target, &located_target, answers)?;
    let (h, answers) = value_of(alloc, env, right, answers)?;
    let (new, answers) = apply_binary(alloc, place, operator, &old, h, answers)?;
    let (k, answers) = as_typed(alloc, place, type_of(env, target), new, answers)?;
    store(place, &located_target, k, answers)
}

// ---- any receiver

/// Stores the value of a right side in its receiver, and returns the change of the variables in scope.
#[tactic(auto, using(ti_eval::proofs::Lemmas::steps))]
pub fn store_into<'a, 'c>(
    alloc: Global,
    env: &Env,
    dest: Dest<'c>,
    right: RightSide,
    answers: &'a [CanonicalAnswer],
) -> Result<(VarUpdate<'c>, &'a [CanonicalAnswer]), Interrupt>
    ensures { ComesAs (λ (c : Changing). update_variables c (env_of env.now).variables) result
        (into_spec (env_of env.now) (dest_seen dest.entry) (right_seen (env_of env.now) right.entry) answers.now) }
{
    match dest {
        Dest::Nowhere => {
            let (_, answers) = value_of(alloc, env, right, answers)?;
            Ok((VarUpdate::Same, answers))
        }
        Dest::Declared {
            place,
            ty,
            variable,
        } => { store_in_new(alloc, env, place, ty, variable, right, answers) }
        Dest::Assigned { place, target } => assign_target(
            alloc, env, place, target, right, answers,
        ),
        Dest::Updated {
            place,
            operator,
            target,
        } => update_target(alloc, env, place, operator, target, right, answers),
    }
}

/// Stores the value of a right side in its receiver, which completes the statement.
#[tactic(auto, using(ti_eval::proofs::Lemmas::steps))]
pub fn store_value<'a, 'c>(
    alloc: Global,
    env: &Env,
    dest: Dest<'c>,
    right: RightSide,
    answers: &'a [CanonicalAnswer],
) -> Result<(StmtOutcome<'c>, &'a [CanonicalAnswer]), Interrupt>
    ensures { (x : NumberedStm) → ComesAs (move_after (env_of env.now) x) result
        (receives_spec (env_of env.now) (dest_seen dest.entry) (right_seen (env_of env.now) right.entry) answers.now) }
{
    let (change, answers) = store_into(alloc, env, dest, right, answers)?;
    Ok((
        StmtOutcome::Goes(change, Continuation::Own(Resume::Inside)),
        answers,
    ))
}
