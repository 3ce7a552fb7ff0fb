// The iteration over the points of a domain in lexicographic order, which keeps only the last point.

ghost use Rattle.std.specs.Prelude.{◌≡◌, IfSome, MatchOption, option_copied};
ghost use Rattle.ti_base.specs.Points.{IsPoint};
ghost use Rattle.ti_base.specs.PointSets.{IsAmong, IsDomain, IsNextAfter, NoneAfter};
ghost use Rattle.ti_base.specs.Rects.{IsRect, points_of};
ghost use Rattle.ti_lang.specs.Meaning.Held.{points_in, dim_of};
ghost use Rattle.ti_eval.specs.Frames.{from_point, points_above};

use crate::var_value::VarValue;
use ti_base::{Point, Rect, Value};
use ti_domain::{Dom, Held, dom_next_after, dom_pieces};
use ti_rect::rect_next_after;

// The next point of a rectangular domain.
fn next_in_rect(rect: &Rect, last: Option<&Point>) -> Option<Point>
    requires rect { IsRect rect.now }
    requires dim { IfSome (option_copied last) (λ q. q.dim ≡ rect.now.dim) }
    ensures list { IsDomain rect.now.dim (points_of rect.now) }
    ensures form { IfSome result IsPoint }
    ensures next { MatchOption result (NoneAfter (IsAmong (points_of rect.now)) (option_copied last.entry))
        (λ q. IsNextAfter (IsAmong (points_of rect.now)) (option_copied last.entry) q) }
{
    rect_next_after(rect, last)
}

// The next point of a general domain.
fn next_in_domain(domain: &Dom, last: Option<&Point>) -> Option<Point>
    requires { IfSome (option_copied last) (λ q. q.dim ≡ domain.now.dim) }
    ensures list { IsDomain domain.now.dim domain.now.points }
    ensures form { IfSome result IsPoint }
    ensures next { MatchOption result (NoneAfter (IsAmong domain.now.points) (option_copied last.entry))
        (λ q. IsNextAfter (IsAmong domain.now.points) (option_copied last.entry) q) }
{
    // For the prover: brings the form of the domain into scope.
    let _ = dom_pieces(domain);
    dom_next_after(domain, last)
}

/// The lexicographically first point of a domain after `last`, or its first point without `last`. Returns `None` iff there is no such
/// point. A value that is no domain has no points.
pub fn next_above(domain: &VarValue, last: Option<&Point>) -> Option<Point>
    requires { IfSome (option_copied last) (λ q. q.dim ≡ dim_of domain.now) }
    ensures list { IsDomain (dim_of domain.now) (points_in domain.now) }
    ensures form { IfSome result IsPoint }
    ensures next { MatchOption result (NoneAfter (IsAmong (points_in domain.now)) (option_copied last.entry))
        (λ q. IsNextAfter (IsAmong (points_in domain.now)) (option_copied last.entry) q) }
{
    match &domain.kept {
        Held::Plain(Value::Rc(r)) => next_in_rect(r, last),
        Held::Plain(_) => None,
        Held::Dm(d) => next_in_domain(d, last),
    }
}

/// The first point of a domain after `last`, or its first point without `last`; `None` also if `last` is of another dimension.
#[tactic(auto, using(crate::proofs::PointsAbove::points))]
pub fn next_point(domain: &VarValue, last: Option<Point>) -> Option<Point>
    ensures value { points_above domain.now last ≡ from_point domain.now result }
    ensures form { IfSome result IsPoint }
{
    match last {
        Some(p) => if p.dim == domain.dim() {
            next_above(domain, Some(&p))
        } else {
            None
        },
        None => next_above(domain, None),
    }
}
