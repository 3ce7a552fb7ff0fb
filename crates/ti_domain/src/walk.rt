// The next point of a domain in lexicographic order.

ghost use Rattle.std.specs.Prelude.{◌≡◌, IfSome, MatchOption, option_copied};
ghost use Rattle.ti_base.specs.Points.{IsPoint};
ghost use Rattle.ti_base.specs.PointSets.{IsAmong, IsNextAfter, NoneAfter};
ghost use Rattle.ti_domain.specs.Walks.{IsSooner, AgreeInDim};

use crate::dom::{Dom, dom_pieces};
use ti_base::{Point, pt_lex_lt};
use ti_rect::rect_next_after;

/// The lexicographically smaller of two points; if only one is given, that one.
fn earlier_point(left: Option<Point>, right: Option<Point>) -> Option<Point>
    requires { AgreeInDim left right }
    ensures { IsSooner left right result }
{
    match left {
        Some(p) => match right {
            Some(q) => { if pt_lex_lt(&q, &p) { Some(q) } else { Some(p) } }
            None => Some(p),
        },
        None => right,
    }
}

/// The lexicographically first point above `point`, or the first of all if `point` is None; the result is None exactly if there is no such
/// point.
pub fn dom_next_after(dom: &Dom, point: Option<&Point>) -> Option<Point>
    requires { IfSome (option_copied point) (λ q. q.dim ≡ dom.now.dim) }
    ensures point { IfSome result IsPoint }
    ensures next { MatchOption result (NoneAfter (IsAmong dom.now.points) (option_copied point.entry))
        (λ q. IsNextAfter (IsAmong dom.now.points) (option_copied point.entry) q) }
{
    let pieces = dom_pieces(dom);
    let mut next = None;
    for r in pieces {
        next = earlier_point(next, rect_next_after(r, point));
    }
    next
}
