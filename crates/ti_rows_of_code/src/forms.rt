// Checks that the results in a history are in canonical form, as the contracts of processes require.

ghost use Rattle.std.specs.Prelude.{IsTrue, IfSome};
ghost use Rattle.ti_base.specs.Points.{IsPoint};
ghost use Rattle.ti_base.specs.Rects.{IsRect};
ghost use Rattle.ti_eval.specs.Forms.{IsFormedAnswer};

use ti_base::{Answer, Point, Rect, Value};
use ti_rect::rect_make;

/// Whether a point has 1 to 3 dimensions, and its unused coordinates are 0.
fn is_point(p: Point) -> bool
    ensures { IsTrue result → IsPoint p }
{
    match p.dim {
        1 => p.x2 == 0 && p.x3 == 0,
        2 => p.x3 == 0,
        3 => true,
        _ => false,
    }
}

/// The step of a dimension, or 0 if the dimension is unused; none if the step doesn't fit in an `int`.
fn step_in(used: bool, step: u32) -> Option<i32> {
    if used {
        i32::try_from(step).ok()
    } else {
        Some(0)
    }
}

/// The steps of a rectangle as a point; none if one doesn't fit in an `int`.
fn steps_of(r: &Rect) -> Option<Point> {
    let [x1, x2, x3] = r.step;
    Some(Point {
        dim: r.dim,
        x1: step_in(true, x1)?,
        x2: step_in(r.dim >= 2, x2)?,
        x3: step_in(r.dim >= 3, x3)?,
    })
}

/// The rectangle from `lo` to `hi` by `step`; none if a point is malformed, the dimensions differ, or `rect_make` fails.
fn rect_from(lo: Point, hi: Point, step: Point) -> Option<Rect>
    ensures { IfSome result IsRect }
{
    if is_point(lo) && is_point(hi) && is_point(step) && lo.dim == hi.dim && lo.dim == step.dim {
        rect_make(&lo, &hi, &step).ok()
    } else {
        None
    }
}

/// The rectangle as a result, if it is in canonical form; none if it isn't, or a step doesn't fit in an `int`.
fn formed_rect(r: &Rect) -> Option<Answer>
    ensures { IfSome result IsFormedAnswer }
{
    let made = rect_from(r.lo, r.hi, steps_of(r)?)?;
    if made == *r {
        Some(Answer::Val(Value::Rc(made)))
    } else {
        None
    }
}

/// The result itself if it is in canonical form, or none. Only points and rectangles can fail to be.
pub(crate) fn canonical_answer(answer: Answer) -> Option<Answer>
    ensures { IfSome result IsFormedAnswer }
{
    match answer {
        Answer::Val(Value::Rc(r)) => formed_rect(&r),
        Answer::Val(Value::Pt(p)) => { if is_point(p) { Some(answer) } else { None } }
        _ => Some(answer),
    }
}
