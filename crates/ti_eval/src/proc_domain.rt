// Rectangular domains with one point for each process, as an exchange requires.

ghost use Rattle.std.specs.Prelude.{◌≡◌, ◌<◌, ◌^◌};
ghost use Rattle.ti_base.specs.Points.{IsPoint};
ghost use Rattle.ti_base.specs.Rects.{IsRect, IsIn, points_of};
ghost use Rattle.ti_lang.specs.Meaning.Collectives as collectives;
ghost use Rattle.ti_lang.specs.Meaning.Copies.{element_at as element_at_spec};
ghost use Rattle.ti_lang.specs.Meaning.Operands.{same_points};
ghost use Rattle.ti_eval.specs.Mirrors.ProcDomain.{last_proc_element};

use ti_base::{Point, Rect};
use ti_rect::rect::is_empty;
use ti_rect::rect_make;

/// The point of a process.
pub fn element_at(number: u32) -> Point
    requires { number < 2 ^ 31 }
    ensures value { result ≡ element_at_spec number }
    ensures form { IsPoint result }
{
    Point {
        dim: 1,
        x1: number as i32,
        x2: 0,
        x3: 0,
    }
}

// The point of the last of `procs` processes.
fn last_element(procs: u32) -> Point
    requires { procs < 2 ^ 31 }
    ensures value { result ≡ last_proc_element procs }
    ensures form { IsPoint result }
{
    Point {
        dim: 1,
        x1: procs as i32 - 1,
        x2: 0,
        x3: 0,
    }
}

/// The rectangular domain with one point for each process: from 0 to `procs` - 1.
pub fn rect_of_procs(procs: u32) -> Rect
    requires { procs < 2 ^ 31 }
    ensures value { result ≡ collectives.team procs }
    ensures form { IsRect result }
    ensures first { 0 < procs → IsIn result (element_at_spec 0) }
{
    match rect_make(&element_at(0), &last_element(procs), &element_at(1)) {
        Ok(r) => r,
        Err(_) => unreachable!(),
    }
}

/// Whether a rectangular domain has exactly one point for each process. Without processes any empty one does, of whatever dimension.
pub fn is_rect_of_procs(rect: &Rect, procs: u32) -> bool
    requires form { IsRect rect.now }
    requires small { procs < 2 ^ 31 }
    ensures { result ≡ same_points (points_of rect.now) (points_of (collectives.team procs)) }
{
    if procs == 0 {
        is_empty(rect)
    } else {
        *rect == rect_of_procs(procs)
    }
}
