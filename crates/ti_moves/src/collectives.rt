// The collectives, up to the arrival of a process.

ghost use Rattle.std.specs.Prelude.{◌≡◌, ℕ, List, map, None};
ghost use Rattle.ti_base.specs.declared.entry.Answer.{Answer};
ghost use Rattle.ti_lang.specs.Program.Types.{Region};
ghost use Rattle.ti_lang.specs.Program.Expressions.{numbered_exps};
ghost use Rattle.ti_lang.specs.Program.Expressions as exp;
ghost use Rattle.ti_lang.specs.Program.Statements.{NumberedStm};
ghost use Rattle.ti_lang.specs.Program.Statements as stm;
ghost use Rattle.ti_lang.specs.Program.Views.{expression_of};
ghost use Rattle.ti_lang.specs.Typing.Kinds.{element_of};
ghost use Rattle.ti_lang.specs.Typing.TyRef.{ty_view};
ghost use Rattle.ti_lang.specs.Meaning.Held.{as_type as as_type_spec};
ghost use Rattle.ti_lang.specs.Meaning.Comp.{Gives};
ghost use Rattle.ti_lang.specs.Meaning.Scoping.{Env as Where, type_here};
ghost use Rattle.ti_lang.specs.Meaning.Collectives as collectives;
ghost use Rattle.ti_eval.specs.Comes.{Comes, ComesAs};
ghost use Rattle.ti_eval.specs.Envs.{env_of};
ghost use Rattle.ti_moves.specs.Outcomes.{move_after, type_received};
ghost use Rattle.ti_moves.specs.Receiving.{receiver_of};

use crate::outcomes::{CollectiveCall, StmtOutcome};
use crate::references::{first_or_false, require_reference};
use std::alloc::Global;
use ti_base::{Action, CollKind, Deposit, FaultKind, Place};
use ti_eval::{
    CanonicalAnswer, Env, Interrupt, Resume, VarValue, as_type, evaluate, evaluate_all,
    is_rect_of_procs, request, type_of,
};
use ti_lang::program::Expr;
use ti_lang::typing::TyRef as Kind;

// An arrival without an argument.
fn collective(place: Place, kind: CollKind) -> CollectiveCall
    ensures { result ≡ record { place = place; kind = kind; arg = None } }
{
    CollectiveCall {
        place,
        kind,
        arg: None,
    }
}

// ---- barriers and regions

/// `Ti.barrier()`
pub fn barrier<'c>(place: Place) -> StmtOutcome<'c>
    ensures { (env : Where) (x : NumberedStm) (rest : List Answer) → collectives.meets place rest ≡ Gives (move_after env x result) rest }
{
    StmtOutcome::Meets {
        collective: collective(place, CollKind::Barrier),
        deposit: Deposit::Nothing,
        resume: Resume::Inside,
    }
}

/// `new SharedRegion()`, whose departure yields the region.
pub fn makes_region<'c>(place: Place) -> StmtOutcome<'c>
    ensures { (env : Where) (x : NumberedStm) (rest : List Answer) → type_received env x ≡ Region
        → collectives.makes_region (receiver_of x) place rest ≡ Gives (move_after env x result) rest }
{
    StmtOutcome::Expects {
        collective: collective(place, CollKind::MakeRegion),
        deposit: Deposit::Nothing,
    }
}

/// `r.delete()`
#[tactic(auto, using(ti_eval::proofs::Lemmas::steps))]
pub fn delete<'a, 'c>(
    alloc: Global,
    env: &Env,
    place: Place,
    receiver: &Expr,
    answers: &'a [CanonicalAnswer],
) -> Result<(StmtOutcome<'c>, &'a [CanonicalAnswer]), Interrupt>
    ensures { (x : NumberedStm) → ComesAs (move_after (env_of env.now) x) result
        (collectives.deletes (env_of env.now) place (expression_of receiver.now) answers.now) }
{
    let (h, answers) = evaluate(alloc, env, receiver, answers)?;
    let region = h.region();
    Ok((StmtOutcome::Deletes { place, region }, answers))
}

// ---- broadcasts

/// The number of a process; another number is a fault.
pub fn root_among<'a>(
    procs: u32,
    place: Place,
    value: &VarValue,
    answers: &'a [CanonicalAnswer],
) -> Result<(u32, &'a [CanonicalAnswer]), Interrupt>
    ensures { Comes result (collectives.root_among procs place value.now answers.now) }
{
    let n = value.integer();
    if 0 <= n && n < i64::from(procs) {
        Ok((n as u32, answers))
    } else {
        Err(Interrupt::Fault(FaultKind::BadRoot, place))
    }
}

// The root contributes its value, other processes nothing.
#[tactic(auto, using(ti_eval::proofs::Lemmas::steps))]
fn root_gives<'a>(
    alloc: Global,
    env: &Env,
    root: u32,
    value: &Expr,
    answers: &'a [CanonicalAnswer],
) -> Result<(Deposit, &'a [CanonicalAnswer]), Interrupt>
    ensures { Comes result (collectives.root_deposit (env_of env.now) root (expression_of value.now) answers.now) }
{
    if env.rank.number == root {
        let (h, answers) = evaluate(alloc, env, value, answers)?;
        Ok((Deposit::One(h.value()), answers))
    } else {
        Ok((Deposit::Nothing, answers))
    }
}

/// `broadcast e from p`, whose departure yields the root's value.
#[tactic(auto, using(ti_eval::proofs::Lemmas::steps))]
pub fn broadcasts<'a, 'c>(
    alloc: Global,
    env: &Env,
    place: Place,
    value: &Expr,
    root: &Expr,
    answers: &'a [CanonicalAnswer],
) -> Result<(StmtOutcome<'c>, &'a [CanonicalAnswer]), Interrupt>
    ensures { (x : NumberedStm) → type_received (env_of env.now) x ≡ type_here (env_of env.now) (expression_of value.now)
        → ComesAs (move_after (env_of env.now) x) result (collectives.broadcasts (env_of env.now) (receiver_of x) place
        (expression_of value.now) (expression_of root.now) answers.now) }
{
    let (h, answers) = evaluate(alloc, env, root, answers)?;
    let (root, answers) = root_among(env.rank.procs, place, &h, answers)?;
    let (deposit, answers) = root_gives(alloc, env, root, value, answers)?;
    let collective = CollectiveCall {
        place,
        kind: CollKind::Broadcast,
        arg: Some(root),
    };
    Ok((
        StmtOutcome::Expects {
            collective,
            deposit,
        },
        answers,
    ))
}

// ---- exchanges

// Converts a value to the element type of a grid.
fn as_element<'p>(ty: Kind<'p>, value: VarValue) -> VarValue
    ensures { result ≡ as_type_spec (element_of (ty_view ty.entry)) value }
{
    match ty {
        Kind::Grid {
            elem,
            any_dim: _,
            dim: _,
            local: _,
        } => as_type(elem, value),
        _ => value,
    }
}

/// `a.exchange(e)`, at its place.
#[tactic(auto, using(ti_eval::proofs::Lemmas::steps))]
pub fn exchanges<'a, 'c>(
    alloc: Global,
    env: &Env,
    place: Place,
    receiver: &Expr,
    args: &[Expr],
    answers: &'a [CanonicalAnswer],
) -> Result<(StmtOutcome<'c>, &'a [CanonicalAnswer]), Interrupt>
    ensures { (name : ℕ) → ComesAs (move_after (env_of env.now) (stm.Call
        (exp.member place (expression_of receiver.now) name (map expression_of args.now)))) result
        (collectives.exchanges (env_of env.now) place (expression_of receiver.now) (numbered_exps (map expression_of args.now)) answers.now) }
{
    let (h, answers) = evaluate(alloc, env, receiver, answers)?;
    let (hs, answers) = evaluate_all(alloc, env, args, answers)?;
    let (grid, answers) = require_reference(place, &h, answers)?;
    let (d, answers) = request(place, Action::DomainOf { grid }, answers)?;
    if !is_rect_of_procs(&d.rect(), env.rank.procs) {
        return Err(Interrupt::Fault(FaultKind::ExchangeDomain, place));
    }
    let value = as_element(type_of(env, receiver), first_or_false(hs)).value();
    let outcome = StmtOutcome::Meets {
        collective: collective(place, CollKind::Exchange),
        deposit: Deposit::One(value),
        resume: Resume::Taking { grid, next: 0 },
    };
    Ok((outcome, answers))
}
