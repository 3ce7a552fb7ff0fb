// Points, ranges and rectangular domains from operands: what the instructions that make them share.

ghost use Rattle.std.specs.Prelude.{◌≡◌, ◌++◌, [], IfOk, OnOk};
ghost use Rattle.ti_base.specs.Points.{IsDim};
ghost use Rattle.ti_base.specs.Rects.{IsRect};
ghost use Rattle.ti_lang.specs.Meaning.Held.{Dm};
ghost use Rattle.ti_lang.specs.Meaning.Literals as literal;
ghost use Rattle.ti_eval.specs.Bounds.{bounds_of};
ghost use Rattle.ti_code.specs.Effects as effects;

use std::alloc::Global;
use ti_base::{Memory, Rect, Value};
use ti_domain::{DomErr, dom_of};
use ti_eval::{Bounds, VarValue, empty_rect};
use ti_rect::rect_meet;

/// The empty domain of the given number of dimensions. The only error is out of memory.
pub(crate) fn no_points(alloc: Global, dim: u8) -> Result<VarValue, Memory>
    requires { IsDim dim }
    ensures { IfOk result (λ h. h ≡ Dm dim []) }
{
    match dom_of(alloc, &empty_rect(dim)) {
        Ok(d) => Ok(VarValue::domain(d)),
        Err(DomErr::TooLarge) => unreachable!(),
        Err(DomErr::Memory) => Err(Memory),
    }
}

/// The intersection of two rectangular domains; the empty domain if they have different numbers of dimensions.
pub(crate) fn intersection(alloc: Global, left: &Rect, right: &Rect) -> Result<VarValue, Memory>
    requires first { IsRect left.now }
    requires second { IsRect right.now }
    ensures { IfOk result (λ h. h ≡ effects.common_domain left.now right.now) }
{
    if left.dim == right.dim {
        Ok(VarValue::plain(Value::Rc(rect_meet(left, right))))
    } else {
        no_points(alloc, left.dim)
    }
}

// Appends the coordinates of a point, or the number if the operand is one.
#[tactic(auto, using(crate::proofs::Numbers::numbers))]
fn add_numbers(found: &mut Vec<i32>, operand: &VarValue) -> Result<(), Memory>
    ensures { OnOk result (found.new.items ≡ found.old.items ++ literal.numbers_in operand.now) }
{
    match operand.value() {
        Value::Pt(_) => {
            let p = operand.point();
            let all = [p.x1, p.x2, p.x3];
            found.extend_from_slice(&all[..usize::from(p.dim)])?;
            Ok(())
        }
        _ => {
            found.push(operand.int())?;
            Ok(())
        }
    }
}

/// The numbers that operands denote: numbers, or coordinates of points.
pub(crate) fn numbers_of(alloc: Global, args: &[VarValue]) -> Result<Vec<i32>, Memory>
    ensures { IfOk result (λ v. v.items ≡ effects.numbers_of args.now) }
{
    let mut found = Vec::new(alloc);
    for h in args {
        add_numbers(&mut found, h)?;
    }
    Ok(found)
}

// Appends the bounds and the step of a range.
fn add_range(
    bounds: &mut Bounds,
    low: &VarValue,
    high: &VarValue,
    step: &VarValue,
) -> Result<(), Memory>
    ensures { OnOk result (bounds_of bounds.new ≡ literal.append_bounds (bounds_of bounds.old) (literal.stepped_bounds low.now high.now step.now)) }
{
    add_numbers(&mut bounds.low, low)?;
    add_numbers(&mut bounds.high, high)?;
    add_numbers(&mut bounds.step, step)?;
    Ok(())
}

/// The bounds of ranges, of which each is three operands: low bound, high bound and step.
pub(crate) fn bounds(alloc: Global, args: &[VarValue]) -> Result<Bounds, Memory>
    ensures { IfOk result (λ b. bounds_of b ≡ effects.range_bounds args.now) }
{
    let mut found = Bounds {
        low: Vec::new(alloc),
        high: Vec::new(alloc),
        step: Vec::new(alloc),
    };
    for k in 0..args.len() / 3 {
        add_range(&mut found, &args[3 * k], &args[3 * k + 1], &args[3 * k + 2])?;
    }
    Ok(found)
}
