// The evaluation of expressions by recursion over them. Each function consumes answers from the beginning of a list and returns those that
// are left.

ghost use Rattle.std.specs.Prelude.{◌≡◌, map, option_map, ℤ, pos};
ghost use Rattle.std.specs.declared.vec.Vec.{Vec as Row};
ghost use Rattle.std.specs.declared.alloc.Global.{Global as Heap};
ghost use Rattle.ti_base.specs.declared.place.Place.{Place as At};
ghost use Rattle.ti_base.specs.declared.value.Value.TheVariants.{Int, Obj};
ghost use Rattle.ti_lang.specs.Program.Types.{ValueType};
ghost use Rattle.ti_lang.specs.Program.Expressions.{numbered_exps, numbered_ranges};
ghost use Rattle.ti_lang.specs.Program.Expressions as form;
ghost use Rattle.ti_lang.specs.Program.Views.{expression_of, bound_of, type_use_of, variable_of};
ghost use Rattle.ti_lang.specs.Typing.Kinds.{is_point_type as is_point_spec};
ghost use Rattle.ti_lang.specs.Typing.TyRef.{built_in_of};
ghost use Rattle.ti_lang.specs.Meaning.Scoping.{type_of as type_of_spec, value_by};
ghost use Rattle.ti_lang.specs.Meaning.Held.{Held as Seen, Plain};
ghost use Rattle.ti_lang.specs.Meaning.Comp.{bind_result, gives};
ghost use Rattle.ti_lang.specs.Meaning.CellRefs.{Field, fetched, indexed as indexed_spec};
ghost use Rattle.ti_lang.specs.Meaning.MemberForms as forms;
ghost use Rattle.ti_lang.specs.Meaning.Evaluation as evaluation;
ghost use Rattle.ti_eval.specs.Bounds.{bounds_of};
ghost use Rattle.ti_eval.specs.Comes.{Comes, ComesAs};
ghost use Rattle.ti_eval.specs.Envs.{env_of};
ghost use Rattle.ti_eval.specs.Scalars.{held_of_scalar};

use crate::bounds::Bounds;
use crate::canonical_answer::{CanonicalAnswer, Evaluated};
use crate::conversions::{check_local, coerce};
use crate::env::{Env, called_member, type_of, variable};
use crate::fields::field_selected;
use crate::heap_reads::fetch_field;
use crate::literals::{
    concat_bounds, no_bounds, plain_bounds, point_of_numbers, rect_within, stepped_bounds,
    with_numbers,
};
use crate::members::{index_value, member};
use crate::operators::{apply_binary, apply_unary, short_circuit};
use crate::scalars::Scalar;
use crate::var_value::VarValue;
use std::alloc::Global;
use ti_base::{Id, Place, Value};
use ti_lang::program::{Expr, Range, TypeUse, Variable};
use ti_lang::tree::{BinaryOperator, UnaryOperator};
use ti_lang::typing::{BuiltIn, TyRef as Kind};

// Whether the static type of an expression is that of a point.
fn is_point(env: &Env, expr: &Expr) -> bool
    ensures { result ≡ is_point_spec (type_of_spec (env_of env.now) (expression_of expr.now)) }
{
    match type_of(env, expr) {
        Kind::Pt(_) => true,
        _ => false,
    }
}

// The value of a variable.
fn value_of_variable<'a>(
    alloc: Global,
    env: &Env,
    variable_use: &Variable,
    answers: &'a [CanonicalAnswer],
) -> Evaluated<'a, VarValue>
    ensures { Comes result (gives (value_by (variable_of variable_use.now).declared (env_of env.now) (variable_of variable_use.now)) answers.now) }
{
    Ok((variable(alloc, env, variable_use)?, answers))
}

// A field of `this`.
fn own_field<'a>(
    env: &Env,
    place: Place,
    field: u32,
    answers: &'a [CanonicalAnswer],
) -> Evaluated<'a, VarValue>
    ensures { (type through : ValueType) → Comes result (fetched place type (Field (Plain (Obj env.now.this)) through field) answers.now) }
{
    fetch_field(
        place,
        &VarValue::plain(Value::Obj(env.this)),
        field,
        answers,
    )
}

// A point.
#[cycle(evaluate)]
#[tactic(auto, using(crate::proofs::Steps::steps))]
fn point<'a>(
    alloc: Global,
    env: &Env,
    parts: &[Expr],
    answers: &'a [CanonicalAnswer],
) -> Evaluated<'a, VarValue>
    ensures { (at : At) → Comes result (evaluation.eval (env_of env.now) (form.Point at (numbered_exps (map expression_of parts.now)))
        answers.now) }
{
    let (numbers, answers) = evaluate_numbers(alloc, env, parts, answers)?;
    Ok((
        VarValue::plain(Value::Pt(point_of_numbers(&numbers))),
        answers,
    ))
}

/// The rectangular domain of ranges, one per coordinate.
#[cycle(evaluate)]
#[tactic(auto, using(crate::proofs::Steps::steps))]
pub fn rectangle<'a>(
    alloc: Global,
    env: &Env,
    place: Place,
    ranges: &[Range],
    answers: &'a [CanonicalAnswer],
) -> Evaluated<'a, VarValue>
    ensures { Comes result (evaluation.eval (env_of env.now) (form.Rect place (numbered_ranges (map bound_of ranges.now))) answers.now) }
{
    let (bounds, answers) = evaluate_ranges(alloc, env, ranges, answers)?;
    rect_within(place, &bounds, answers)
}

// A unary operator.
#[cycle(evaluate)]
#[tactic(auto, using(crate::proofs::Steps::steps))]
fn unary<'a>(
    alloc: Global,
    env: &Env,
    operator: UnaryOperator,
    operand: &Expr,
    answers: &'a [CanonicalAnswer],
) -> Evaluated<'a, VarValue>
    ensures { (at : At) → Comes result (evaluation.eval (env_of env.now) (form.Unary at operator (expression_of operand.now)) answers.now) }
{
    let (h, answers) = evaluate(alloc, env, operand, answers)?;
    Ok((apply_unary(operator, h), answers))
}

// A binary operator, given the value of its left operand. `&&` and `||` may not evaluate the right one.
#[cycle(evaluate)]
#[tactic(auto, using(crate::proofs::Steps::steps))]
fn with_right<'a>(
    alloc: Global,
    env: &Env,
    place: Place,
    operator: BinaryOperator,
    left: &VarValue,
    right: &Expr,
    answers: &'a [CanonicalAnswer],
) -> Evaluated<'a, VarValue>
    ensures { Comes result (evaluation.with_right place operator left.now (evaluation.eval (env_of env.now) (expression_of right.now)) answers.now) }
{
    if let Some(k) = short_circuit(operator, left) {
        return Ok((k, answers));
    }
    let (k, answers) = evaluate(alloc, env, right, answers)?;
    apply_binary(alloc, place, operator, left, k, answers)
}

// A cast.
#[cycle(evaluate)]
#[tactic(auto, using(crate::proofs::Steps::steps))]
fn cast<'a>(
    alloc: Global,
    env: &Env,
    place: Place,
    to: &TypeUse,
    operand: &Expr,
    answers: &'a [CanonicalAnswer],
) -> Evaluated<'a, VarValue>
    ensures { Comes result (evaluation.eval (env_of env.now) (form.Cast place (type_use_of to.now) (expression_of operand.now)) answers.now) }
{
    let (h, answers) = evaluate(alloc, env, operand, answers)?;
    let (k, answers) = coerce(alloc, place, &to.ty, h, answers)?;
    check_local(env.rank.number, place, &to.ty, k, answers)
}

// A field of an object.
#[cycle(evaluate)]
#[tactic(auto, using(crate::proofs::Steps::steps))]
fn select_field<'a>(
    alloc: Global,
    env: &Env,
    place: Place,
    receiver: &Expr,
    name: u32,
    answers: &'a [CanonicalAnswer],
) -> Evaluated<'a, VarValue>
    ensures { Comes result (evaluation.eval (env_of env.now) (form.Select place (expression_of receiver.now) name) answers.now) }
{
    let (h, answers) = evaluate(alloc, env, receiver, answers)?;
    let field = field_selected(env, receiver, name)?;
    fetch_field(place, &h, field, answers)
}

// A built-in member, given the value of its receiver.
#[cycle(evaluate)]
#[tactic(auto, using(crate::proofs::Steps::steps))]
fn with_arguments<'a>(
    alloc: Global,
    env: &Env,
    place: Place,
    called: Option<BuiltIn>,
    value: &VarValue,
    args: &[Expr],
    answers: &'a [CanonicalAnswer],
) -> Evaluated<'a, VarValue>
    ensures { (type through : ValueType) → Comes result (bind_result (evaluation.eval_all (env_of env.now)
        (numbered_exps (map expression_of args.now)) answers.now)
        (λ hs. forms.member_value place type (option_map built_in_of called) through value.now hs)) }
{
    let (hs, answers) = evaluate_all(alloc, env, args, answers)?;
    member(place, called, value, &hs, answers)
}

// An indexing, given the value of the point or the grid.
#[cycle(evaluate)]
#[tactic(auto, using(crate::proofs::Steps::steps))]
fn with_indices<'a>(
    alloc: Global,
    env: &Env,
    place: Place,
    is_point: bool,
    value: &VarValue,
    indices: &[Expr],
    answers: &'a [CanonicalAnswer],
) -> Evaluated<'a, VarValue>
    ensures { (type through : ValueType) → Comes result (bind_result (evaluation.eval_numbers (env_of env.now)
        (numbered_exps (map expression_of indices.now)) answers.now)
        (λ xs. indexed_spec is_point place type through value.now xs)) }
{
    let (numbers, answers) = evaluate_numbers(alloc, env, indices, answers)?;
    index_value(is_point, place, value, &numbers, answers)
}

/// The values of expressions, in order.
#[cycle(evaluate)]
pub fn evaluate_all<'a>(
    alloc: Global,
    env: &Env,
    exprs: &[Expr],
    answers: &'a [CanonicalAnswer],
) -> Evaluated<'a, Vec<VarValue>>
    ensures { ComesAs (λ (v : Row Seen Heap). v.items) result (evaluation.eval_all (env_of env.now)
        (numbered_exps (map expression_of exprs.now)) answers.now) }
{
    let mut found = Vec::new(alloc);
    let mut left = answers;
    for x in exprs {
        let (h, rest) = evaluate(alloc, env, x, left)?;
        found.push(h)?;
        left = rest;
    }
    Ok((found, left))
}

/// The integers that expressions evaluate to: numbers, or coordinates of points.
#[cycle(evaluate)]
pub fn evaluate_numbers<'a>(
    alloc: Global,
    env: &Env,
    exprs: &[Expr],
    answers: &'a [CanonicalAnswer],
) -> Evaluated<'a, Vec<i32>>
    ensures { ComesAs (λ (v : Row ℤ Heap). v.items) result (evaluation.eval_numbers (env_of env.now)
        (numbered_exps (map expression_of exprs.now)) answers.now) }
{
    let mut found = Vec::new(alloc);
    let mut left = answers;
    for x in exprs {
        let (h, rest) = evaluate(alloc, env, x, left)?;
        found = with_numbers(found, h)?;
        left = rest;
    }
    Ok((found, left))
}

// The bounds of a range, of numbers or of points.
#[cycle(evaluate)]
#[tactic(auto, using(crate::proofs::Steps::steps))]
fn range<'a>(
    alloc: Global,
    env: &Env,
    range: &Range,
    answers: &'a [CanonicalAnswer],
) -> Evaluated<'a, Bounds>
    ensures { ComesAs bounds_of result (evaluation.eval_range (env_of env.now) (bound_of range.now) answers.now) }
{
    match range {
        Range::Plain { low, high } => {
            let (a, answers) = evaluate(alloc, env, low, answers)?;
            let (b, answers) = evaluate(alloc, env, high, answers)?;
            Ok((plain_bounds(alloc, &a, &b)?, answers))
        }
        Range::Stepped { low, high, step } => {
            let (a, answers) = evaluate(alloc, env, low, answers)?;
            let (b, answers) = evaluate(alloc, env, high, answers)?;
            let (c, answers) = evaluate(alloc, env, step, answers)?;
            Ok((stepped_bounds(alloc, &a, &b, &c)?, answers))
        }
    }
}

/// The bounds of ranges, coordinate by coordinate.
#[cycle(evaluate)]
pub fn evaluate_ranges<'a>(
    alloc: Global,
    env: &Env,
    ranges: &[Range],
    answers: &'a [CanonicalAnswer],
) -> Evaluated<'a, Bounds>
    ensures { ComesAs bounds_of result (evaluation.eval_ranges (env_of env.now) (numbered_ranges (map bound_of ranges.now)) answers.now) }
{
    let mut found = no_bounds(alloc);
    let mut left = answers;
    for r in ranges {
        let (b, rest) = range(alloc, env, r, left)?;
        found = concat_bounds(found, b)?;
        left = rest;
    }
    Ok((found, left))
}

/// The value of an expression on these answers, with the answers that are left. It requests an action if the answers are used up, and fails
/// with a fault if the semantics does. A call of a declared method has no value here.
#[cycle(evaluate)]
#[tactic(auto, using(crate::proofs::Evaluating::evaluating))]
pub fn evaluate<'a>(
    alloc: Global,
    env: &Env,
    expr: &Expr,
    answers: &'a [CanonicalAnswer],
) -> Evaluated<'a, VarValue>
    ensures { Comes result (evaluation.eval (env_of env.now) (expression_of expr.now) answers.now) }
{
    match expr {
        Expr::Int(_, n) => scalar_value(Scalar::Int(*n), answers),
        Expr::Long(_, n) => scalar_value(Scalar::Long(*n), answers),
        Expr::Bool(_, b) => scalar_value(Scalar::Bool(*b), answers),
        Expr::Null(_) => object(None, answers),
        Expr::This(_) => object(env.this, answers),
        Expr::Variable(_, v) => value_of_variable(alloc, env, v, answers),
        Expr::OwnField(place, field) => own_field(env, *place, *field, answers),
        Expr::ThisProc(_) => scalar_value(this_proc(env), answers),
        Expr::NumProcs(_) => scalar_value(num_procs(env), answers),
        Expr::Point(_, parts) => point(alloc, env, parts, answers),
        Expr::Rect(place, ranges) => rectangle(alloc, env, *place, ranges, answers),
        Expr::Unary {
            place: _,
            operator,
            operand,
        } => unary(alloc, env, *operator, operand, answers),
        Expr::Binary {
            place,
            operator,
            left,
            right,
        } => {
            let (h, answers) = evaluate(alloc, env, left, answers)?;
            with_right(alloc, env, *place, *operator, &h, right, answers)
        }
        Expr::Cast { place, to, operand } => cast(alloc, env, *place, to, operand, answers),
        Expr::Select {
            place,
            receiver,
            name,
        } => select_field(alloc, env, *place, receiver, *name, answers),
        Expr::Member {
            place,
            receiver,
            name,
            args,
        } => {
            let (h, answers) = evaluate(alloc, env, receiver, answers)?;
            let called = called_member(env, receiver, *name);
            with_arguments(alloc, env, *place, called, &h, args, answers)
        }
        Expr::Index {
            place,
            receiver,
            indices,
        } => {
            let (h, answers) = evaluate(alloc, env, receiver, answers)?;
            let is_point = is_point(env, receiver);
            with_indices(alloc, env, *place, is_point, &h, indices, answers)
        }
        Expr::Call { .. } => scalar_value(Scalar::Bool(false), answers),
        Expr::OwnCall { .. } => scalar_value(Scalar::Bool(false), answers),
    }
}

// The number of the process.
fn this_proc(env: &Env) -> Scalar
    ensures { held_of_scalar result ≡ Plain (Int (pos env.now.rank.number)) }
{
    let rank = env.rank;
    Scalar::Int(rank.number as i32)
}

// The number of processes.
fn num_procs(env: &Env) -> Scalar
    ensures { held_of_scalar result ≡ Plain (Int (pos env.now.rank.procs)) }
{
    let rank = env.rank;
    Scalar::Int(rank.procs as i32)
}

// The value of a number or a boolean.
fn scalar_value<'a>(scalar: Scalar, answers: &'a [CanonicalAnswer]) -> Evaluated<'a, VarValue>
    ensures { Comes result (gives (held_of_scalar scalar) answers.now) }
{
    Ok((scalar.into_value(), answers))
}

// The value of an object, or null.
fn object<'a>(id: Option<Id>, answers: &'a [CanonicalAnswer]) -> Evaluated<'a, VarValue>
    ensures { Comes result (gives (Plain (Obj id)) answers.now) }
{
    Ok((VarValue::plain(Value::Obj(id)), answers))
}
