// The targets of assignments: their references and indices, their values, and the writes.

ghost use Rattle.std.specs.Prelude.{◌≡◌, List};
ghost use Rattle.ti_base.specs.declared.value.Id.{Id as Thing};
ghost use Rattle.ti_base.specs.declared.action.Action.TheVariants.{PutField, PutElem};
ghost use Rattle.ti_lang.specs.Program.Types.{ValueType};
ghost use Rattle.ti_lang.specs.Program.Views.{expression_of};
ghost use Rattle.ti_lang.specs.Typing.TyRef.{ty_view};
ghost use Rattle.ti_lang.specs.Meaning.Held.{plain_of, as_type as as_type_spec};
ghost use Rattle.ti_lang.specs.Meaning.Comp.{ToBeDone, asked as asked_spec, bind_result, gives};
ghost use Rattle.ti_lang.specs.Meaning.Conversions as conversions;
ghost use Rattle.ti_lang.specs.Meaning.Processes.{Variable as InScope};
ghost use Rattle.ti_lang.specs.Meaning.Scoping.{Env as Where};
ghost use Rattle.ti_lang.specs.Meaning.Targets as targets;
ghost use Rattle.ti_eval.specs.Comes.{Comes, ComesAs};
ghost use Rattle.ti_eval.specs.Envs.{env_of};
ghost use Rattle.ti_moves.specs.declared.outcomes.VarUpdate.{VarUpdate as Changing};
ghost use Rattle.ti_moves.specs.Outcomes.{update_variables};
ghost use Rattle.ti_moves.specs.Targets.{target_of, through_of, write_through};

use crate::outcomes::VarUpdate;
use crate::references::require_reference;
use std::alloc::Global;
use ti_base::{Action, Place, Point, Value};
use ti_eval::{
    CanonicalAnswer, Env, Interrupt, VarValue, as_int, as_long, evaluate, evaluate_numbers,
    fetch_element, fetch_field, field_selected, find, point_of_numbers, request, to_domain,
};
use ti_lang::program::{Expr, Variable};
use ti_lang::typing::TyRef;

/// The target of an assignment: a variable, a field or an element.
#[derive(Drop)]
pub enum Target<'c> {
    Variable(&'c Variable),
    /// A field of an object.
    Field(VarValue, u32),
    /// An element of a grid.
    Element(VarValue, Point),
}

// ---- targets

/// The target that an expression denotes; its reference and its index are evaluated.
#[tactic(auto, using(ti_eval::proofs::Lemmas::evaluating))]
pub fn locate<'a, 'c>(
    alloc: Global,
    env: &Env,
    expr: &'c Expr,
    answers: &'a [CanonicalAnswer],
) -> Result<(Target<'c>, &'a [CanonicalAnswer]), Interrupt>
    ensures { ComesAs (target_of (through_of (env_of env.now) (expression_of expr.now))) result
        (targets.located (env_of env.now) (expression_of expr.now) answers.now) }
{
    match expr {
        Expr::Variable(_, v) => Ok((Target::Variable(v), answers)),
        Expr::OwnField(_, field) => {
            let this = VarValue::plain(Value::Obj(env.this));
            Ok((Target::Field(this, *field), answers))
        }
        Expr::Select {
            place: _,
            receiver,
            name,
        } => {
            let field = field_selected(env, receiver, *name)?;
            let (h, answers) = evaluate(alloc, env, receiver, answers)?;
            Ok((Target::Field(h, field), answers))
        }
        Expr::Index {
            place: _,
            receiver,
            indices,
        } => {
            let (h, answers) = evaluate(alloc, env, receiver, answers)?;
            let (numbers, answers) = evaluate_numbers(alloc, env, indices, answers)?;
            Ok((Target::Element(h, point_of_numbers(&numbers)), answers))
        }
        _ => Ok((Target::Field(VarValue::boolean(false), 0), answers)),
    }
}

// ---- what they hold

/// The value of a target.
pub fn target_value<'a>(
    alloc: Global,
    env: &Env,
    place: Place,
    target: &Target,
    answers: &'a [CanonicalAnswer],
) -> Result<(VarValue, &'a [CanonicalAnswer]), Interrupt>
    ensures { (through type : ValueType) → Comes result (targets.held_in (env_of env.now) place type
        (target_of through target.now) answers.now) }
{
    match target {
        Target::Variable(v) => Ok((find(alloc, v, env.variables)?, answers)),
        Target::Field(object, field) => fetch_field(place, object, *field, answers),
        Target::Element(grid, index) => fetch_element(place, grid, *index, answers),
    }
}

// Converts a value to a static type that isn't a domain's.
fn as_static_type<'p>(ty: TyRef<'p>, value: VarValue) -> VarValue
    ensures { result ≡ as_type_spec (ty_view ty.entry) value }
{
    match ty {
        TyRef::Long => as_long(value),
        TyRef::Int => as_int(value),
        TyRef::Class { class: _, local: _ } => VarValue::plain(Value::Obj(value.thing())),
        TyRef::Grid {
            elem: _,
            any_dim: _,
            dim: _,
            local: _,
        } => VarValue::plain(Value::Grid(value.thing())),
        _ => value,
    }
}

/// Converts a value to a static type. A domain with too many points is a fault.
pub fn as_typed<'a, 'p>(
    alloc: Global,
    place: Place,
    ty: TyRef<'p>,
    value: VarValue,
    answers: &'a [CanonicalAnswer],
) -> Result<(VarValue, &'a [CanonicalAnswer]), Interrupt>
    ensures { Comes result (conversions.converted place (ty_view ty.entry) value answers.now) }
{
    match ty {
        TyRef::Dm(_) => to_domain(alloc, place, value, answers),
        _ => Ok((as_static_type(ty, value), answers)),
    }
}

// A write, which changes no variable.
#[tactic(auto, using(ti_eval::proofs::Lemmas::steps))]
fn put<'a, 'c>(
    place: Place,
    action: Action,
    answers: &'a [CanonicalAnswer],
) -> Result<(VarUpdate<'c>, &'a [CanonicalAnswer]), Interrupt>
    ensures { (through : ValueType) (ws : List InScope) → ComesAs (λ (c : Changing). update_variables c ws) result
        (bind_result (asked_spec (record { place = place; action = action; through = through; wanted = ToBeDone }) answers.now)
        (λ done. gives ws)) }
{
    let (_, answers) = request(place, action, answers)?;
    Ok((VarUpdate::Same, answers))
}

// A write to a field of an object. A null reference is a fault.
#[tactic(auto, using(ti_eval::proofs::Lemmas::steps))]
fn put_field<'a, 'c>(
    place: Place,
    object: &VarValue,
    field: u32,
    new_value: &VarValue,
    answers: &'a [CanonicalAnswer],
) -> Result<(VarUpdate<'c>, &'a [CanonicalAnswer]), Interrupt>
    ensures { (through : ValueType) (ws : List InScope) → ComesAs (λ (c : Changing). update_variables c ws) result
        (write_through place through object.now (λ (obj : Thing). PutField obj field (plain_of new_value.now)) ws answers.now) }
{
    let (obj, answers) = require_reference(place, object, answers)?;
    let value = new_value.value();
    put(place, Action::PutField { obj, field, value }, answers)
}

// A write to an element of a grid. A null reference is a fault.
#[tactic(auto, using(ti_eval::proofs::Lemmas::steps))]
fn put_element<'a, 'c>(
    place: Place,
    grid: &VarValue,
    index: Point,
    new_value: &VarValue,
    answers: &'a [CanonicalAnswer],
) -> Result<(VarUpdate<'c>, &'a [CanonicalAnswer]), Interrupt>
    ensures { (through : ValueType) (ws : List InScope) → ComesAs (λ (c : Changing). update_variables c ws) result
        (write_through place through grid.now (λ (grid : Thing). PutElem grid index (plain_of new_value.now)) ws answers.now) }
{
    let (grid, answers) = require_reference(place, grid, answers)?;
    let action = Action::PutElem {
        grid,
        at: index,
        value: new_value.value(),
    };
    put(place, action, answers)
}

/// Stores a value in a target.
pub fn store<'a, 'c>(
    place: Place,
    target: &Target<'c>,
    value: VarValue,
    answers: &'a [CanonicalAnswer],
) -> Result<(VarUpdate<'c>, &'a [CanonicalAnswer]), Interrupt>
    ensures { (env : Where) (through : ValueType) → ComesAs (λ (c : Changing). update_variables c env.variables) result
        (targets.stored env place (target_of through target.now) value answers.now) }
{
    match target {
        Target::Variable(v) => Ok((VarUpdate::Changed(*v, value), answers)),
        Target::Field(object, field) => put_field(place, object, *field, &value, answers),
        Target::Element(grid, index) => put_element(place, grid, *index, &value, answers),
    }
}
