// Union, difference and intersection of domains.

ghost use Rattle.std.specs.Prelude.{◌≡◌, ◌*◌, ◌<◌, ◌≤◌, IfOk, OnOk, length};
ghost use Rattle.ti_base.specs.PointSets.{meet, minus, union};

use crate::cut::{append_rects, copy_rects};
use crate::dom::{Dom, dim_of, dom_from_pieces, dom_pieces};
use crate::error::DomErr;
use crate::meets::meets;
use crate::rest::minus_all;
use crate::sizes::{MAX_POINTS, total};
use std::alloc::Global;
use ti_base::Memory;

/// The union of the domains. The error is `TooLarge` only if the union has more than 1,048,576 points, and then no domain is returned.
pub fn dom_union(alloc: Global, dom: &Dom, other: &Dom) -> Result<Dom, DomErr>
    requires { other.now.dim ≡ dom.now.dim }
    ensures large { result ≡ Err DomErr.TooLarge → 1048576 < length (union dom.now.points other.now.points) }
    ensures small { OnOk result (length (union dom.now.points other.now.points) ≤ 1048576) }
    ensures dim { IfOk result (λ d. d.dim ≡ dom.now.dim) }
    ensures points { IfOk result (λ d. d.points ≡ union dom.now.points other.now.points) }
{
    let dim = dim_of(dom);
    let left = dom_pieces(dom);
    let right = dom_pieces(other);
    let more = minus_all(alloc, dim, right, left)?;
    if total(left) + total(more.as_slice()) > MAX_POINTS {
        return Err(DomErr::TooLarge);
    }
    let own = copy_rects(alloc, left)?;
    let pieces = append_rects(own, more.as_slice())?;
    Ok(dom_from_pieces(dim, pieces))
}

/// The points of `dom` that aren't in `other`.
pub fn dom_minus(alloc: Global, dom: &Dom, other: &Dom) -> Result<Dom, Memory>
    requires { other.now.dim ≡ dom.now.dim }
    ensures dim { IfOk result (λ d. d.dim ≡ dom.now.dim) }
    ensures points { IfOk result (λ d. d.points ≡ minus dom.now.points other.now.points) }
{
    let dim = dim_of(dom);
    let left = dom_pieces(dom);
    let right = dom_pieces(other);
    let pieces = minus_all(alloc, dim, left, right)?;
    Ok(dom_from_pieces(dim, pieces))
}

/// The intersection of the domains.
pub fn dom_meet(alloc: Global, dom: &Dom, other: &Dom) -> Result<Dom, Memory>
    requires { other.now.dim ≡ dom.now.dim }
    ensures dim { IfOk result (λ d. d.dim ≡ dom.now.dim) }
    ensures points { IfOk result (λ d. d.points ≡ meet dom.now.points other.now.points) }
    ensures pieces { IfOk result (λ d. length d.pieces ≤ length dom.now.pieces * length other.now.pieces) }
{
    let dim = dim_of(dom);
    let left = dom_pieces(dom);
    let right = dom_pieces(other);
    let pieces = meets(alloc, dim, left, right)?;
    Ok(dom_from_pieces(dim, pieces))
}
