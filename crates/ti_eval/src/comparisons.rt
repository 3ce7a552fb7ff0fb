// Comparisons and equality.

ghost use Rattle.std.specs.Prelude.{◌≡◌, ◌||◌, ◌&&◌};
ghost use Rattle.ti_base.specs.PointSets.{same_point as same_point_spec};
ghost use Rattle.ti_base.specs.Rects.{IsRect, points_of};
ghost use Rattle.ti_lang.specs.Meaning.Operands as seen;
ghost use Rattle.ti_lang.specs.Meaning.Operators as ops;
ghost use Rattle.ti_eval.specs.Comes.{Comes};
ghost use Rattle.ti_eval.specs.Operators.{HaveOneDim, test_of};

use crate::canonical_answer::{CanonicalAnswer, Evaluated};
use crate::conversions::as_domain;
use crate::kinds::CmpOp;
use crate::operand_pair::operands;
use crate::pairs::Operands;
use crate::var_value::VarValue;
use std::alloc::Global;
use ti_base::{Id, Place, Point, Rect};
use ti_domain::{Dom, dom_same};

fn test(operator: CmpOp, left: i64, right: i64) -> bool
    ensures { result ≡ test_of operator left right }
{
    match operator {
        CmpOp::Less => left < right,
        CmpOp::LessEqual => left <= right,
        CmpOp::Greater => left > right,
        CmpOp::GreaterEqual => left >= right,
    }
}

// The test holds, or the coordinate isn't used.
fn unless(is_unused: bool, operator: CmpOp, left: i32, right: i32) -> bool
    ensures { result ≡ (is_unused || test_of operator left right) }
{
    if is_unused {
        true
    } else {
        test(operator, i64::from(left), i64::from(right))
    }
}

// For the prover: a conjunction of three.
fn all_three(first: bool, second: bool, third: bool) -> bool
    ensures { result ≡ (first && second && third) }
{
    first && second && third
}

// The test holds in each coordinate that is used.
fn in_each(operator: CmpOp, point: &Point, other: &Point) -> bool
    ensures { result ≡ seen.in_each (test_of operator) point.now other.now }
{
    let first = test(operator, i64::from(point.x1), i64::from(other.x1));
    let second = unless(point.dim < 2, operator, point.x2, other.x2);
    let third = unless(point.dim < 3, operator, point.x3, other.x3);
    all_three(first, second, third)
}

/// A comparison of two numbers or of two points; that of points holds if it holds in every coordinate. `false` for other operands.
pub fn compare(operator: CmpOp, left: &VarValue, right: &VarValue) -> VarValue
    ensures { result ≡ ops.compare_values (test_of operator) (seen.operands left.now right.now) }
{
    match operands(left, right) {
        Operands::Ints(a, b) => VarValue::boolean(test(operator, i64::from(a), i64::from(b))),
        Operands::Longs(a, b) => VarValue::boolean(test(operator, a, b)),
        Operands::Points(p, q) => VarValue::boolean(in_each(operator, &p, &q)),
        _ => VarValue::boolean(false),
    }
}

// ---- equality

fn same_point(point: &Point, other: &Point) -> bool
    ensures { result ≡ same_point_spec point.now other.now }
{
    point.dim == other.dim && point.x1 == other.x1 && point.x2 == other.x2 && point.x3 == other.x3
}

// Whether two rectangular domains of one dimension have the same points.
fn same_rect(rect: &Rect, other: &Rect) -> bool
    requires first { IsRect rect.now }
    requires second { IsRect other.now }
    requires dim { other.now.dim ≡ rect.now.dim }
    ensures { result ≡ seen.same_points (points_of rect.now) (points_of other.now) }
{
    if !same_point(&rect.lo, &other.lo) {
        return false;
    }
    if !same_point(&rect.hi, &other.hi) {
        return false;
    }
    if rect.step[0] != other.step[0] {
        return false;
    }
    if rect.step[1] != other.step[1] {
        return false;
    }
    if rect.step[2] != other.step[2] {
        return false;
    }
    true
}

// Whether two domains of one dimension have the same points.
fn same_domain(domain: &Dom, other: &Dom) -> bool
    requires { other.now.dim ≡ domain.now.dim }
    ensures { result ≡ seen.same_points domain.now.points other.now.points }
{
    dom_same(domain, other)
}

fn same_thing(left: Option<Id>, right: Option<Id>) -> bool
    ensures { result ≡ seen.same_thing left right }
{
    match left {
        None => match right {
            None => true,
            Some(_) => false,
        },
        Some(left) => match right {
            None => false,
            Some(right) => left.maker == right.maker && left.serial == right.serial,
        },
    }
}

// Whether two domains of one dimension, each rectangular or not, have the same points.
#[tactic(auto, using(crate::proofs::Steps::steps))]
fn equal_domains<'a>(
    alloc: Global,
    place: Place,
    left: &VarValue,
    right: &VarValue,
    answers: &'a [CanonicalAnswer],
) -> Evaluated<'a, bool>
    requires { HaveOneDim left.now right.now }
    ensures { Comes result (ops.equal place left.now right.now seen.Domains answers.now) }
{
    let (d, answers) = as_domain(alloc, place, left, answers)?;
    let (e, answers) = as_domain(alloc, place, right, answers)?;
    Ok((same_domain(&d, &e), answers))
}

/// Whether two operands are equal. It can fault, since a rectangular domain may have to be converted.
pub fn equal<'a>(
    alloc: Global,
    place: Place,
    left: &VarValue,
    right: &VarValue,
    answers: &'a [CanonicalAnswer],
) -> Evaluated<'a, bool>
    ensures { Comes result (ops.equal place left.now right.now (seen.operands left.now right.now) answers.now) }
{
    match operands(left, right) {
        Operands::Ints(a, b) => Ok((a == b, answers)),
        Operands::Longs(a, b) => Ok((a == b, answers)),
        Operands::Bools(a, b) => Ok((a == b, answers)),
        Operands::Points(p, q) => Ok((same_point(&p, &q), answers)),
        Operands::Rects(r, s) => Ok((same_rect(&r, &s), answers)),
        Operands::Domains => equal_domains(alloc, place, left, right, answers),
        Operands::Things(a, b) => Ok((same_thing(a, b), answers)),
        Operands::Regions(a, b) => Ok((a == b, answers)),
        Operands::Others => Ok((false, answers)),
    }
}
