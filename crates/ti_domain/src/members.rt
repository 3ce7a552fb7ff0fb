// Membership, equality and size of domains.

ghost use Rattle.std.specs.Prelude.{◌≡◌, ◌↔◌, pos, IsTrue, length};
ghost use Rattle.ti_base.specs.PointSets.{IsAmong};

use crate::dom::{Dom, dim_of, dom_pieces};
use crate::sizes::{common_count, total};
use ti_base::Point;
use ti_rect::rect_contains;

/// Whether the point is in the domain.
pub fn dom_contains(dom: &Dom, point: &Point) -> bool
    requires { point.now.dim ≡ dom.now.dim }
    ensures { IsTrue result ↔ IsAmong dom.now.points point.now }
{
    let pieces = dom_pieces(dom);
    for r in pieces {
        if rect_contains(r, point) {
            return true;
        }
    }
    false
}

/// Whether the two domains have the same points: each has as many points as both have in common.
pub fn dom_same(dom: &Dom, other: &Dom) -> bool
    requires { other.now.dim ≡ dom.now.dim }
    ensures { IsTrue result ↔ (dom.now.points ≡ other.now.points) }
{
    let dim = dim_of(dom);
    let left = dom_pieces(dom);
    let right = dom_pieces(other);
    let count = total(left);
    if total(right) != count {
        return false;
    }
    common_count(dim, left, right) == count
}

/// The number of points of the domain.
pub fn dom_size(dom: &Dom) -> i32
    ensures { result ≡ pos (length dom.now.points) }
{
    total(dom_pieces(dom)) as i32
}
