// The difference of two rectangles, as disjoint rectangles: slabs are cut off in one coordinate after the other.

ghost use Rattle.std.specs.Prelude.{◌≡◌, ◌++◌, ℤ, IfOk};
ghost use Rattle.ti_base.specs.declared.point.Point.{Point};
ghost use Rattle.ti_base.specs.Ranges.{IsOn, IsRange};
ghost use Rattle.ti_base.specs.Rects.{IsRect, IsIn};
ghost use Rattle.ti_rect.specs.Axes.{range};
ghost use Rattle.ti_domain.specs.Domains.{one_piece};
ghost use Rattle.ti_domain.specs.Pieces.{IsNonEmptyRect, IsShape, ArePiecesOf};
ghost use Rattle.ti_domain.specs.Slabs.{coordinate_of, range_at, with_range};

use std::alloc::Global;
use ti_base::{Memory, Point, Rect};
use ti_rect::axis::Axis;
use ti_rect::parts::complement;
use ti_rect::rect::{first, is_empty, second, third};
use ti_rect::rect_meet;

/// One of the three coordinates.
#[derive(Clone, Copy)]
pub enum Coordinate {
    First,
    Second,
    Third,
}

/// The range of `coordinate`.
fn axis_at(rect: &Rect, coordinate: Coordinate) -> Axis
    ensures { range result ≡ range_at coordinate rect.now }
{
    match coordinate {
        Coordinate::First => first(rect),
        Coordinate::Second => second(rect),
        Coordinate::Third => third(rect),
    }
}

/// The rectangle with another range in `coordinate`.
fn with_axis(rect: &Rect, coordinate: Coordinate, axis: Axis) -> Rect
    ensures { result ≡ with_range coordinate (range axis) rect.now }
{
    match coordinate {
        Coordinate::First => with_first(rect, axis),
        Coordinate::Second => with_second(rect, axis),
        Coordinate::Third => with_third(rect, axis),
    }
}

/// The rectangle with another range in the first coordinate.
fn with_first(rect: &Rect, axis: Axis) -> Rect
    ensures { result ≡ with_range Coordinate.First (range axis) rect.now }
{
    Rect {
        dim: rect.dim,
        lo: Point {
            x1: axis.low,
            ..rect.lo
        },
        hi: Point {
            x1: axis.high,
            ..rect.hi
        },
        step: [axis.step, rect.step[1], rect.step[2]],
    }
}

/// The rectangle with another range in the second coordinate.
fn with_second(rect: &Rect, axis: Axis) -> Rect
    ensures { result ≡ with_range Coordinate.Second (range axis) rect.now }
{
    Rect {
        dim: rect.dim,
        lo: Point {
            x2: axis.low,
            ..rect.lo
        },
        hi: Point {
            x2: axis.high,
            ..rect.hi
        },
        step: [rect.step[0], axis.step, rect.step[2]],
    }
}

/// The rectangle with another range in the third coordinate.
fn with_third(rect: &Rect, axis: Axis) -> Rect
    ensures { result ≡ with_range Coordinate.Third (range axis) rect.now }
{
    Rect {
        dim: rect.dim,
        lo: Point {
            x3: axis.low,
            ..rect.lo
        },
        hi: Point {
            x3: axis.high,
            ..rect.hi
        },
        step: [rect.step[0], rect.step[1], axis.step],
    }
}

/// The points of `rect` whose `coordinate` isn't on `removed`, as disjoint rectangles; all numbers on `removed` are on the range of that
/// coordinate.
fn slabs(
    alloc: Global,
    rect: &Rect,
    coordinate: Coordinate,
    removed: Axis,
) -> Result<Vec<Rect>, Memory>
    requires piece { IsNonEmptyRect rect.now.dim rect.now }
    requires form { IsRange (range removed) }
    requires inside { (x : ℤ) → IsOn (range removed) x → IsOn (range_at coordinate rect.now) x }
    ensures { IfOk result (λ v. ArePiecesOf rect.now.dim v.items (λ p. IsIn rect.now p × (IsOn (range removed) (coordinate_of coordinate p) → ⊥))) }
{
    let parts = complement(alloc, axis_at(rect, coordinate), removed)?;
    let mut pieces = Vec::new(alloc);
    for part in &parts {
        pieces.push(with_axis(rect, coordinate, *part))?;
    }
    Ok(pieces)
}

/// A copy of the rectangles.
pub fn copy_rects(alloc: Global, rects: &[Rect]) -> Result<Vec<Rect>, Memory>
    ensures { IfOk result (λ v. v.items ≡ rects.now) }
{
    Ok(Vec::from_slice(alloc, rects)?)
}

/// The rectangles of both lists, appended.
pub fn append_rects(mut rects: Vec<Rect>, more: &[Rect]) -> Result<Vec<Rect>, Memory>
    ensures { IfOk result (λ v. v.items ≡ rects.items ++ more.now) }
{
    rects.extend_from_slice(more)?;
    Ok(rects)
}

/// The rectangle in a list, or the empty list if it has no points.
pub fn piece_of(alloc: Global, rect: &Rect) -> Result<Vec<Rect>, Memory>
    requires { IsRect rect.now }
    ensures { IfOk result (λ v. v.items ≡ one_piece rect.now) }
{
    let mut pieces = Vec::new(alloc);
    if !is_empty(rect) {
        pieces.push(*rect)?;
    }
    Ok(pieces)
}

/// The points of `rect` that aren't in `removed`, a part of it, as disjoint rectangles: those whose first coordinate isn't on `removed`'s
/// range, of the others those whose second isn't, and of the rest those whose third isn't.
fn cut(alloc: Global, rect: &Rect, removed: &Rect) -> Result<Vec<Rect>, Memory>
    requires whole { IsNonEmptyRect rect.now.dim rect.now }
    requires part { IsNonEmptyRect rect.now.dim removed.now }
    requires inside { (p : Point) → IsIn removed.now p → IsIn rect.now p }
    ensures { IfOk result (λ v. ArePiecesOf rect.now.dim v.items (λ p. IsIn rect.now p × (IsIn removed.now p → ⊥))) }
{
    let x = first(removed);
    let y = second(removed);
    let z = third(removed);
    let plane = with_first(rect, x);
    let row = with_second(&plane, y);
    let planes = slabs(alloc, rect, Coordinate::First, x)?;
    let rows = slabs(alloc, &plane, Coordinate::Second, y)?;
    let points = slabs(alloc, &row, Coordinate::Third, z)?;
    let more = append_rects(planes, rows.as_slice())?;
    append_rects(more, points.as_slice())
}

/// The points of `rect` that aren't in `other`, as disjoint rectangles.
pub fn rect_minus(alloc: Global, rect: &Rect, other: &Rect) -> Result<Vec<Rect>, Memory>
    requires piece { IsNonEmptyRect rect.now.dim rect.now }
    requires shape { IsShape rect.now.dim other.now }
    ensures { IfOk result (λ v. ArePiecesOf rect.now.dim v.items (λ p. IsIn rect.now p × (IsIn other.now p → ⊥))) }
{
    let common = rect_meet(rect, other);
    if is_empty(&common) {
        piece_of(alloc, rect)
    } else {
        cut(alloc, rect, &common)
    }
}
