// Points and rectangular domains from their coordinates, which literals give as numbers or as points.

ghost use Rattle.std.specs.Prelude.{◌≡◌, ◌++◌, pos, int_le, map, true, IfOk, OnOk};
ghost use Rattle.std.specs.List.{list_all};
ghost use Rattle.ti_base.specs.Points.{IsPoint};
ghost use Rattle.ti_base.specs.Rects.{IsRect};
ghost use Rattle.ti_lang.specs.Meaning.Literals as literal;
ghost use Rattle.ti_eval.specs.Comes.{Comes};
ghost use Rattle.ti_eval.specs.Bounds.{bounds_of};

use crate::bounds::Bounds;
use crate::canonical_answer::{CanonicalAnswer, Evaluated};
use crate::interrupt::Interrupt;
use crate::var_value::VarValue;
use crate::variables::empty_rect;
use std::alloc::Global;
use ti_base::{FaultKind, Memory, Place, Point, Rect, Value};
use ti_domain::Held;
use ti_rect::rect_make;

// Appends the coordinates of a point, or the number if the value is one.
fn add_numbers(found: &mut Vec<i32>, value: &VarValue) -> Result<(), Memory>
    ensures { OnOk result (found.new.items ≡ found.old.items ++ literal.numbers_in value.now) }
{
    match &value.kept {
        Held::Plain(Value::Pt(p)) => {
            let all = [p.x1, p.x2, p.x3];
            found.extend_from_slice(&all[..usize::from(p.dim)])?;
            Ok(())
        }
        _ => {
            found.push(value.int())?;
            Ok(())
        }
    }
}

/// These numbers followed by the coordinates of a point, or by the number if the value is one.
pub fn with_numbers(numbers: Vec<i32>, value: VarValue) -> Result<Vec<i32>, Memory>
    ensures { IfOk result (λ v. v.items ≡ numbers.items ++ literal.numbers_in value) }
{
    let mut found = numbers;
    add_numbers(&mut found, &value)?;
    Ok(found)
}

// The coordinates of a point, or the number if the value is one.
fn numbers_of(alloc: Global, value: &VarValue) -> Result<Vec<i32>, Memory>
    ensures { IfOk result (λ v. v.items ≡ literal.numbers_in value.now) }
{
    let mut found = Vec::new(alloc);
    add_numbers(&mut found, value)?;
    Ok(found)
}

// As many ones as there are numbers.
fn ones(alloc: Global, numbers: &[i32]) -> Result<Vec<i32>, Memory>
    ensures { IfOk result (λ v. v.items ≡ map (λ x. pos 1) numbers.now) }
{
    let mut found = Vec::new(alloc);
    found.resize(numbers.len(), 1)?;
    Ok(found)
}

/// The bounds of a range whose steps are 1.
pub fn plain_bounds(alloc: Global, low: &VarValue, high: &VarValue) -> Result<Bounds, Memory>
    ensures { IfOk result (λ b. bounds_of b ≡ literal.plain_bounds low.now high.now) }
{
    let low = numbers_of(alloc, low)?;
    let high = numbers_of(alloc, high)?;
    let step = ones(alloc, &low)?;
    Ok(Bounds { low, high, step })
}

/// The bounds of a range with steps.
pub fn stepped_bounds(
    alloc: Global,
    low: &VarValue,
    high: &VarValue,
    step: &VarValue,
) -> Result<Bounds, Memory>
    ensures { IfOk result (λ b. bounds_of b ≡ literal.stepped_bounds low.now high.now step.now) }
{
    let low = numbers_of(alloc, low)?;
    let high = numbers_of(alloc, high)?;
    let step = numbers_of(alloc, step)?;
    Ok(Bounds { low, high, step })
}

/// The coordinates of the first bounds followed by those of the second.
pub fn concat_bounds(left: Bounds, right: Bounds) -> Result<Bounds, Memory>
    ensures { IfOk result (λ c. bounds_of c ≡ literal.append_bounds (bounds_of left) (bounds_of right)) }
{
    let Bounds {
        mut low,
        mut high,
        mut step,
    } = left;
    low.extend_from_slice(&right.low)?;
    high.extend_from_slice(&right.high)?;
    step.extend_from_slice(&right.step)?;
    Ok(Bounds { low, high, step })
}

/// The bounds without coordinates.
pub fn no_bounds(alloc: Global) -> Bounds
    ensures { bounds_of result ≡ literal.no_bounds }
{
    Bounds {
        low: Vec::new(alloc),
        high: Vec::new(alloc),
        step: Vec::new(alloc),
    }
}

/// The point of one to three coordinates; the one-dimensional point 0 for another number of them.
pub fn point_of_numbers(numbers: &[i32]) -> Point
    ensures value { result ≡ literal.point_of_numbers numbers.now }
    ensures form { IsPoint result }
{
    let n = numbers.len();
    if n == 1 {
        return Point {
            dim: 1,
            x1: numbers[0],
            x2: 0,
            x3: 0,
        };
    }
    if n == 2 {
        return Point {
            dim: 2,
            x1: numbers[0],
            x2: numbers[1],
            x3: 0,
        };
    }
    if n == 3 {
        return Point {
            dim: 3,
            x1: numbers[0],
            x2: numbers[1],
            x3: numbers[2],
        };
    }
    Point {
        dim: 1,
        x1: 0,
        x2: 0,
        x3: 0,
    }
}

fn is_even(bounds: &Bounds) -> bool
    ensures { result ≡ literal.is_even (bounds_of bounds.now) }
{
    let n = bounds.low.len();
    1 <= n && n <= 3 && bounds.high.len() == n && bounds.step.len() == n
}

// Whether all steps are at least 1.
fn all_forward(steps: &[i32]) -> bool
    ensures { result ≡ list_all (int_le (pos 1)) steps.now }
{
    steps.iter().all(|x| 1 <= *x)
}

// The rectangular domain within the bounds, whose steps are all at least 1.
fn rect_of(bounds: &Bounds) -> Rect
    requires { list_all (int_le (pos 1)) bounds.now.step.items ≡ true }
    ensures value { result ≡ literal.rect_of_bounds (bounds_of bounds.now) }
    ensures form { IsRect result }
{
    if !is_even(bounds) {
        return empty_rect(1);
    }
    let low = point_of_numbers(&bounds.low);
    let high = point_of_numbers(&bounds.high);
    let step = point_of_numbers(&bounds.step);
    match rect_make(&low, &high, &step) {
        Ok(r) => r,
        Err(_) => unreachable!(),
    }
}

/// The rectangular domain within the bounds; a fault if a step is below 1.
pub fn rect_within<'a>(
    place: Place,
    bounds: &Bounds,
    answers: &'a [CanonicalAnswer],
) -> Evaluated<'a, VarValue>
    ensures { Comes result (literal.rect_within place (bounds_of bounds.now) answers.now) }
{
    if !all_forward(&bounds.step) {
        return Err(Interrupt::Fault(FaultKind::BadStride, place));
    }
    Ok((VarValue::plain(Value::Rc(rect_of(bounds))), answers))
}
