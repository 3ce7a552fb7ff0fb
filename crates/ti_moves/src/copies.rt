// Copies of grids, and the writes of an exchange into its grid.

ghost use Rattle.std.specs.Prelude.{◌≡◌, ◌<◌, ◌^◌, ℕ, List, [], ◌∷◌, map};
ghost use Rattle.ti_base.specs.declared.point.Point.{Point as At};
ghost use Rattle.ti_base.specs.Rects.{IsRect};
ghost use Rattle.ti_lang.specs.Program.Types.{ValueType};
ghost use Rattle.ti_lang.specs.Program.Expressions.{numbered_exps};
ghost use Rattle.ti_lang.specs.Program.Expressions as exp;
ghost use Rattle.ti_lang.specs.Program.Statements as stm;
ghost use Rattle.ti_lang.specs.Program.Views.{expression_of};
ghost use Rattle.ti_lang.specs.Meaning.Held.{points_in};
ghost use Rattle.ti_lang.specs.Meaning.Processes.{CopyAll, TakeAll};
ghost use Rattle.ti_lang.specs.Meaning.Scoping.{Env as Where};
ghost use Rattle.ti_lang.specs.Meaning.Moves as move;
ghost use Rattle.ti_lang.specs.Meaning.Copies as copying;
ghost use Rattle.ti_eval.specs.Comes.{ComesAs};
ghost use Rattle.ti_eval.specs.Envs.{env_of};
ghost use Rattle.ti_moves.specs.Outcomes.{move_after};

use crate::outcomes::StmtOutcome;
use crate::references::{first_or_false, require_reference};
use crate::statements::continue_with;
use std::alloc::Global;
use ti_base::{Action, Id, Place, Point, Rect, Value};
use ti_eval::{
    CanonicalAnswer, Copy, Env, Interrupt, Resume, VarValue, element_at, evaluate, evaluate_all,
    request,
};
use ti_lang::program::Expr;
use ti_rect::rect_meet;

// ---- copies

// The intersection of two rectangular domains; if they have different numbers of dimensions, a value without points.
fn common_domain(rect: &Rect, other: &Rect) -> VarValue
    requires first { IsRect rect.now }
    requires second { IsRect other.now }
    ensures { points_in result ≡ copying.common_points rect.now other.now }
{
    if rect.dim == other.dim {
        VarValue::plain(Value::Rc(rect_meet(rect, other)))
    } else {
        VarValue::boolean(false)
    }
}

/// `a.copy(b)`, at its place: both grids and the intersection of their domains.
#[tactic(auto, using(ti_eval::proofs::Lemmas::steps))]
pub fn copies<'a, 'c>(
    alloc: Global,
    env: &Env,
    place: Place,
    receiver: &Expr,
    args: &[Expr],
    answers: &'a [CanonicalAnswer],
) -> Result<(StmtOutcome<'c>, &'a [CanonicalAnswer]), Interrupt>
    ensures { (name : ℕ) → ComesAs (move_after (env_of env.now) (stm.Call
        (exp.member place (expression_of receiver.now) name (map expression_of args.now)))) result
        (copying.copies (env_of env.now) place (expression_of receiver.now) (numbered_exps (map expression_of args.now)) answers.now) }
{
    let (h, answers) = evaluate(alloc, env, receiver, answers)?;
    let (hs, answers) = evaluate_all(alloc, env, args, answers)?;
    let (to, answers) = require_reference(place, &h, answers)?;
    let (from, answers) = require_reference(place, &first_or_false(hs), answers)?;
    let (d, answers) = request(place, Action::DomainOf { grid: to }, answers)?;
    let (e, answers) = request(place, Action::DomainOf { grid: from }, answers)?;
    let domain = common_domain(&d.rect(), &e.rect());
    let copy = Box::new(alloc, Copy { to, from, domain })?;
    Ok((continue_with(Resume::Copying { copy, last: None }), answers))
}

// ---- elements

/// Copies the element at a point from one grid to the other.
#[tactic(auto, using(ti_eval::proofs::Lemmas::steps))]
pub fn copy_element<'a>(
    place: Place,
    to: Id,
    from: Id,
    point: Point,
    answers: &'a [CanonicalAnswer],
) -> Result<((), &'a [CanonicalAnswer]), Interrupt>
    ensures { (env : Where) (t u : ValueType) (ps : List At) → ComesAs
        (λ done. move.Goes env.variables (CopyAll place (record { thing = to; type = t }) (record { thing = from; type = u }) ps ∷ [])) result
        (copying.copied env place (record { thing = to; type = t }) (record { thing = from; type = u }) (point ∷ ps) answers.now) }
{
    let (h, answers) = request(
        place,
        Action::GetElem {
            grid: from,
            at: point,
        },
        answers,
    )?;
    let action = Action::PutElem {
        grid: to,
        at: point,
        value: h.value(),
    };
    let (_, answers) = request(place, action, answers)?;
    Ok(((), answers))
}

/// Takes the value of a process and writes it into the grid.
#[tactic(auto, using(ti_eval::proofs::Lemmas::steps))]
pub fn take_element<'a>(
    place: Place,
    grid: Id,
    number: u32,
    answers: &'a [CanonicalAnswer],
) -> Result<((), &'a [CanonicalAnswer]), Interrupt>
    requires { number < 2 ^ 31 }
    ensures { (env : Where) (t : ValueType) (is : List ℕ) → ComesAs
        (λ done. move.Goes env.variables (TakeAll place (record { thing = grid; type = t }) is ∷ [])) result
        (copying.taken env place (record { thing = grid; type = t }) (number ∷ is) answers.now) }
{
    let (h, answers) = request(place, Action::Take { who: number }, answers)?;
    let action = Action::PutElem {
        grid,
        at: element_at(number),
        value: h.value(),
    };
    let (_, answers) = request(place, action, answers)?;
    Ok(((), answers))
}
