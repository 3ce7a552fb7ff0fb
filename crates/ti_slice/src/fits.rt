// Whether an outcome fits the departure for which the program slice waits.

ghost use Rattle.std.specs.Prelude.{◌≡◌, ◌↔◌, IsTrue, IfOk};
ghost use Rattle.ti_lang.specs.Program.Views.{initial_of};
ghost use Rattle.ti_lang.specs.Typing.TyRef.{ty_view};
ghost use Rattle.ti_lang.specs.Meaning.Comp.{ToBeDone, ValueOf};
ghost use Rattle.ti_lang.specs.Meaning.Answers.{FitsWanted};
ghost use Rattle.ti_eval.specs.Envs.{env_of};
ghost use Rattle.ti_moves.specs.Receiving.{stm_seen};
ghost use Rattle.ti_moves.specs.Outcomes.{type_given, type_received};

use crate::forms::has_form;
use crate::typed::type_here;
use std::alloc::Global;
use ti_base::{Answer, Memory};
use ti_eval::Env;
use ti_lang::program::{Init, Stmt};
use ti_lang::typing::TyRef;

/// Whether an answer is a value of a type's form.
pub fn fits_form(ty: TyRef, answer: &Answer) -> bool
    ensures { IsTrue result ↔ FitsWanted (ValueOf (ty_view ty.entry)) answer.now }
{
    match *answer {
        Answer::Done => false,
        Answer::Val(v) => has_form(ty, v),
    }
}

/// Whether an answer has no value, but says that something is done.
pub fn is_done(answer: &Answer) -> bool
    ensures { IsTrue result ↔ FitsWanted ToBeDone answer.now }
{
    match answer {
        Answer::Done => true,
        Answer::Val(_) => false,
    }
}

// The type of the value that a right side gets from a collective.
fn type_given<'a>(alloc: Global, env: &Env<'a>, value: &'a Init) -> Result<TyRef<'a>, Memory>
    ensures { IfOk result (λ t. ty_view t ≡ type_given (env_of env.now) (initial_of value.now)) }
{
    match value {
        Init::Broadcast { value, .. } => type_here(alloc, env, value),
        _ => Ok(TyRef::Region),
    }
}

// The type of the value for which a statement waits at a collective.
fn type_received<'a>(
    alloc: Global,
    env: &Env<'a>,
    stmt: Option<&'a Stmt>,
) -> Result<TyRef<'a>, Memory>
    ensures { IfOk result (λ t. ty_view t ≡ type_received (env_of env.now) (stm_seen stmt.entry)) }
{
    match stmt {
        Some(s) => match s {
            Stmt::Declare { value, .. } => type_given(alloc, env, value),
            Stmt::Assign { value, .. } => type_given(alloc, env, value),
            _ => Ok(TyRef::Region),
        },
        None => Ok(TyRef::Region),
    }
}

/// Whether an answer fits the departure from a collective for whose value a statement waits.
pub fn fits_departure(
    alloc: Global,
    env: &Env,
    stmt: Option<&Stmt>,
    answer: &Answer,
) -> Result<bool, Memory>
    ensures yes { IfOk result (λ fits. IsTrue fits → FitsWanted (ValueOf (type_received (env_of env.now) (stm_seen stmt.entry))) answer.now) }
    ensures no { IfOk result (λ fits. FitsWanted (ValueOf (type_received (env_of env.now) (stm_seen stmt.entry))) answer.now → IsTrue fits) }
{
    let t = type_received(alloc, env, stmt)?;
    Ok(fits_form(t, answer))
}
