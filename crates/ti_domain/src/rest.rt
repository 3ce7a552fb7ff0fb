// Differences of lists of rectangles. Rectangles that are apart by their bounds are recognized first, so that nothing is copied for them.

ghost use Rattle.std.specs.Prelude.{◌≡◌, ℤ, All, IfOk, IsTrue};
ghost use Rattle.ti_base.specs.declared.point.Point.{Point};
ghost use Rattle.ti_base.specs.Ranges.{IsOn};
ghost use Rattle.ti_base.specs.Rects.{IsIn};
ghost use Rattle.ti_rect.specs.Axes.{range};
ghost use Rattle.ti_domain.specs.Pieces.{IsShape, IsNonEmptyRect, ArePieces, ArePiecesOf, IsInSome};

use crate::cut::{append_rects, copy_rects, rect_minus};
use std::alloc::Global;
use ti_base::{Memory, Rect};
use ti_rect::axis::Axis;
use ti_rect::rect::{first, second, third};

/// The points of the rectangles that aren't in `other`, as disjoint rectangles.
fn minus_one(alloc: Global, rects: &[Rect], other: &Rect) -> Result<Vec<Rect>, Memory>
    requires form { IsShape other.now.dim other.now }
    requires pieces { ArePieces other.now.dim rects.now }
    ensures { IfOk result (λ v. ArePiecesOf other.now.dim v.items (λ p. IsInSome rects.now p × (IsIn other.now p → ⊥))) }
{
    let mut left = Vec::new(alloc);
    for r in rects {
        let parts = rect_minus(alloc, r, other)?;
        left = append_rects(left, parts.as_slice())?;
    }
    Ok(left)
}

/// Whether the first range ends before the second begins.
fn ends_before(left: Axis, right: Axis) -> bool
    ensures { IsTrue result → (x : ℤ) → IsOn (range left) x → IsOn (range right) x → ⊥ }
{
    left.high < right.low
}

/// Whether the bounds of the ranges show that they have no common number.
fn are_apart(left: Axis, right: Axis) -> bool
    ensures { IsTrue result → (x : ℤ) → IsOn (range left) x → IsOn (range right) x → ⊥ }
{
    if ends_before(right, left) {
        return true;
    }
    ends_before(left, right)
}

/// Whether the bounds of the rectangles show that they have no common point.
fn lies_apart(rect: &Rect, other: &Rect) -> bool
    ensures { IsTrue result → (p : Point) → IsIn rect.now p → IsIn other.now p → ⊥ }
{
    if are_apart(first(rect), first(other)) {
        return true;
    }
    if are_apart(second(rect), second(other)) {
        return true;
    }
    are_apart(third(rect), third(other))
}

/// Whether the bounds show that none of the rectangles has a common point with `other`.
fn all_lie_apart(rects: &[Rect], other: &Rect) -> bool
    ensures { IsTrue result → (p : Point) → IsInSome rects.now p → IsIn other.now p → ⊥ }
{
    for r in rects {
        if !lies_apart(r, other) {
            return false;
        }
    }
    true
}

/// The points of the rectangles that aren't in `other`, as disjoint rectangles; `rects` itself if the bounds show that all are outside.
fn without_one(alloc: Global, rects: Vec<Rect>, other: &Rect) -> Result<Vec<Rect>, Memory>
    requires form { IsShape other.now.dim other.now }
    requires pieces { ArePieces other.now.dim rects.items }
    ensures { IfOk result (λ v. ArePiecesOf other.now.dim v.items (λ p. IsInSome rects.items p × (IsIn other.now p → ⊥))) }
{
    if all_lie_apart(rects.as_slice(), other) {
        return Ok(rects);
    }
    minus_one(alloc, rects.as_slice(), other)
}

/// The points of the rectangles that are in none of the others, as disjoint rectangles. `dim` is for the prover: the dimension of all of
/// them.
pub fn minus_all(
    alloc: Global,
    dim: u8,
    rects: &[Rect],
    others: &[Rect],
) -> Result<Vec<Rect>, Memory>
    requires pieces { ArePieces dim rects.now }
    requires others { All (IsNonEmptyRect dim) others.now }
    ensures { IfOk result (λ v. ArePiecesOf dim v.items (λ p. IsInSome rects.now p × (IsInSome others.now p → ⊥))) }
{
    let _ = dim;
    let mut left = copy_rects(alloc, rects)?;
    for other in others {
        left = without_one(alloc, left, other)?;
    }
    Ok(left)
}
