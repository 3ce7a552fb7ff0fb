// Reads the answers that rows give to actions: `done`, `7`, `7L`, `object:0`, `grid:0`, `region:1`, and `line:0:2` for the domain of the
// points from 0 to 2.

ghost use Rattle.std.specs.Prelude.{◌≡◌, IfSome};
ghost use Rattle.ti_base.specs.Points.{IsPoint};
ghost use Rattle.ti_eval.specs.Forms.{IsFormedAnswer};

use ti_base::{Answer, Id, Point, Value};
use ti_rect::rect_make;

/// The object or grid with this sequence number that process 0 created and owns.
fn thing(serial: u32) -> Id {
    Id {
        maker: 0,
        serial,
        owner: 0,
        region: 0,
    }
}

/// A point of one dimension.
fn at(x1: i32) -> Point
    ensures form { IsPoint result }
    ensures dim { result.dim ≡ 1 }
{
    Point {
        dim: 1,
        x1,
        x2: 0,
        x3: 0,
    }
}

/// The one-dimensional domain of the points from `low` to `high`, both included; empty if `high` is below `low`.
///
/// For the prover: the error of `rect_make`, which is of steps below 1 only, is `None`.
fn line(low: i32, high: i32) -> Option<Answer>
    ensures { IfSome result IsFormedAnswer }
{
    match rect_make(&at(low), &at(high), &at(1)) {
        Ok(r) => Some(Answer::Val(Value::Rc(r))),
        Err(_) => None,
    }
}

/// The domain whose ends are spelled as in `0:2`. `None` if they aren't two ints.
fn line_of(ends: &str) -> Option<Answer>
    ensures { IfSome result IsFormedAnswer }
{
    let (low, high) = ends.split_once(':')?;
    line(low.parse::<i32>().ok()?, high.parse::<i32>().ok()?)
}

/// An object or grid by its sequence number, or a region by its number. `None` for any other kind.
fn numbered_thing(kind: &str, number: u32) -> Option<Answer>
    ensures { IfSome result IsFormedAnswer }
{
    match kind {
        "object" => Some(Answer::Val(Value::Obj(Some(thing(number))))),
        "grid" => Some(Answer::Val(Value::Grid(Some(thing(number))))),
        "region" => Some(Answer::Val(Value::Region(number))),
        _ => None,
    }
}

/// An int, or a long if it ends with `L`. `None` if it is malformed or out of range.
fn int_answer(digits: &str) -> Option<Answer>
    ensures { IfSome result IsFormedAnswer }
{
    match digits.strip_suffix('L') {
        Some(digits) => Some(Answer::Val(Value::Long(digits.parse::<i64>().ok()?))),
        None => Some(Answer::Val(Value::Int(digits.parse::<i32>().ok()?))),
    }
}

/// Reads one answer, such as `done` or `grid:0`. `None` if it is malformed.
pub(crate) fn answer_of(word: &str) -> Option<Answer>
    ensures { IfSome result IsFormedAnswer }
{
    match word.split_once(':') {
        Some(("line", ends)) => line_of(ends),
        Some((kind, number)) => numbered_thing(kind, number.parse::<u32>().ok()?),
        None if word == "done" => Some(Answer::Done),
        None => int_answer(word),
    }
}
