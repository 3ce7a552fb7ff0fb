// Intersections of lists of rectangles.

ghost use Rattle.std.specs.Prelude.{◌≡◌, ◌*◌, ◌≤◌, ◌++◌, IfOk, length};
ghost use Rattle.ti_base.specs.Rects.{IsIn, IsRect};
ghost use Rattle.ti_domain.specs.Domains.{one_piece};
ghost use Rattle.ti_domain.specs.Pieces.{IsNonEmptyRect, ArePieces, ArePiecesOf, IsInSome};

use crate::cut::append_rects;
use std::alloc::Global;
use ti_base::{Memory, Rect};
use ti_rect::rect::is_empty;
use ti_rect::rect_meet;

/// The rectangles, with `rect` appended if it has points.
fn with_filled(mut rects: Vec<Rect>, rect: Rect) -> Result<Vec<Rect>, Memory>
    requires { IsRect rect }
    ensures { IfOk result (λ v. v.items ≡ rects.items ++ one_piece rect) }
{
    if is_empty(&rect) {
        return Ok(rects);
    }
    rects.push(rect)?;
    Ok(rects)
}

/// The points of `rect` that are in one of the other rectangles, as disjoint rectangles.
fn meets_with(alloc: Global, rect: &Rect, others: &[Rect]) -> Result<Vec<Rect>, Memory>
    requires piece { IsNonEmptyRect rect.now.dim rect.now }
    requires others { ArePieces rect.now.dim others.now }
    ensures pieces { IfOk result (λ v. ArePiecesOf rect.now.dim v.items (λ p. IsIn rect.now p × IsInSome others.now p)) }
    ensures number { IfOk result (λ v. length v.items ≤ length others.now) }
{
    let mut common = Vec::new(alloc);
    for other in others {
        common = with_filled(common, rect_meet(rect, other))?;
    }
    Ok(common)
}

/// The points that are in one of the rectangles and in one of the others, as disjoint rectangles. `dim` is for the prover: the dimension
/// of all of them.
pub fn meets(alloc: Global, dim: u8, rects: &[Rect], others: &[Rect]) -> Result<Vec<Rect>, Memory>
    requires pieces { ArePieces dim rects.now }
    requires others { ArePieces dim others.now }
    ensures pieces { IfOk result (λ v. ArePiecesOf dim v.items (λ p. IsInSome rects.now p × IsInSome others.now p)) }
    ensures number { IfOk result (λ v. length v.items ≤ length rects.now * length others.now) }
{
    let _ = dim;
    let mut common = Vec::new(alloc);
    for r in rects {
        let more = meets_with(alloc, r, others)?;
        common = append_rects(common, more.as_slice())?;
    }
    Ok(common)
}
