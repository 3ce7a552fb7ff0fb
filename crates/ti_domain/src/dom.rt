// Domains and their representation; the domain of one rectangle.

ghost use Rattle.std.specs.Prelude.{◌≡◌, ◌↔◌, ◌<◌, ◌≤◌, IsTrue, IsErrOf, IfOk, OnOk, length};
ghost use Rattle.ti_base.specs.declared.point.Point.{Point};
ghost use Rattle.ti_base.specs.PointSets.{IsAmong};
ghost use Rattle.ti_base.specs.Rects.{IsRect, points_of};
ghost use Rattle.ti_domain.specs.Pieces.{ArePieces, IsInSome, points_in};
ghost use Rattle.ti_domain.specs.Domains.{IsDom, IsKept, one_piece};

use crate::cut::{copy_rects, piece_of};
use crate::error::DomErr;
use crate::sizes::MAX_POINTS;
use std::alloc::Global;
use std::marker::Model;
use ti_base::{Memory, Rect};
use ti_rect::rect_size;

/// A set of points of one dimension, at most 1,048,576.
///
/// Contracts see its dimension and the sorted list of its points. It is represented by rectangles that have points, no two a common one,
/// which `dom_pieces` returns.
#[derive(Drop)]
pub struct Dom {
    dim: u8,
    pieces: Vec<Rect>,
}

impl Model for Dom {
    ghost use Rattle.ti_domain.specs.Pieces.{points_in};
    ghost use Rattle.ti_domain.specs.Domains.{Domain, IsKept};

    ghost Value = { Domain };

    ghost view = { λ d. record { dim = d.dim; points = points_in d.pieces.items; pieces = d.pieces.items } };

    ghost invariant = { λ d. IsKept d.dim d.pieces.items };
}

/// The rectangles that represent the domain: each has points, no two have a common one, and their union is the domain.
pub fn dom_pieces(dom: &Dom) -> &[Rect]
    ensures domain { IsDom dom.now }
    ensures pieces { ArePieces dom.now.dim result.now }
    ensures members { (p : Point) → IsAmong dom.now.points p ↔ IsInSome result.now p }
    ensures list { dom.now.points ≡ points_in result.now }
    ensures same { result.now ≡ dom.now.pieces }
{
    dom.pieces.as_slice()
}

/// The dimension of the domain's points.
pub fn dim_of(dom: &Dom) -> u8
    ensures { result ≡ dom.now.dim }
{
    dom.dim
}

/// The domain that these disjoint rectangles represent.
pub fn dom_from_pieces(dim: u8, pieces: Vec<Rect>) -> Dom
    requires { IsKept dim pieces.items }
    ensures { result ≡ record { dim = dim; points = points_in pieces.items; pieces = pieces.items } }
{
    Dom { dim, pieces }
}

/// Whether the rectangle has too many points for a domain.
fn is_large(rect: &Rect) -> bool
    requires { IsRect rect.now }
    ensures { IsTrue result ↔ (1048576 < length (points_of rect.now)) }
{
    match rect_size(rect) {
        Ok(count) => count as u64 > MAX_POINTS,
        Err(_) => true,
    }
}

/// The domain with the points of the rectangle. The error is `TooLarge` exactly if there are more than 1,048,576.
pub fn dom_of(alloc: Global, rect: &Rect) -> Result<Dom, DomErr>
    requires { IsRect rect.now }
    ensures large { IsErrOf result DomErr.TooLarge ↔ (1048576 < length (points_of rect.now)) }
    ensures dim { IfOk result (λ d. d.dim ≡ rect.now.dim) }
    ensures points { IfOk result (λ d. d.points ≡ points_of rect.now) }
    ensures pieces { IfOk result (λ d. d.pieces ≡ one_piece rect.now) }
{
    if is_large(rect) {
        return Err(DomErr::TooLarge);
    }
    let pieces = piece_of(alloc, rect)?;
    Ok(dom_from_pieces(rect.dim, pieces))
}

/// A copy of the domain.
pub fn dom_copy(alloc: Global, dom: &Dom) -> Result<Dom, Memory>
    ensures { IfOk result (λ d. d ≡ dom.now) }
{
    let pieces = copy_rects(alloc, dom_pieces(dom))?;
    Ok(dom_from_pieces(dim_of(dom), pieces))
}
