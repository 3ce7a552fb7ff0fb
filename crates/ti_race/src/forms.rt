// Whether a rectangle and the parameters of a view are canonical, which the code can't assume of entries that weren't produced by a run.
ghost use Rattle.std.specs.Prelude.{◌≡◌, ◌↔◌, IsTrue, ℤ, ℕ};
ghost use Rattle.ti_base.specs.Points.{IsDim, IsPoint};
ghost use Rattle.ti_base.specs.Ranges.{IsRange};
ghost use Rattle.ti_base.specs.Rects.{IsRect, HasPoints, empty_rect, first_range, second_range, third_range};
ghost use Rattle.ti_rect.specs.Axes.{range};
ghost use Rattle.ti_rect.specs.Views.{IsView};

use ti_base::{Point, Rect, ViewHow};
use ti_rect::axis::{Axis, distance};
use ti_rect::rect::{first, second, third};

// Whether this is a number of dimensions: 1, 2 or 3.
fn is_dim(dim: u8) -> bool
    ensures { IsTrue result ↔ IsDim dim }
{
    1 <= dim && dim <= 3
}

// Whether the number of dimensions is from 1 to 3 and all unused coordinates are 0.
fn is_point(point: &Point) -> bool
    ensures { IsTrue result ↔ IsPoint point.now }
{
    is_dim(point.dim) && (point.dim >= 2 || point.x2 == 0) && (point.dim >= 3 || point.x3 == 0)
}

// Whether a range is canonical: its upper bound is one of its elements, and its stride is 1 if there is only one element.
fn is_range(axis: Axis) -> bool
    ensures { IsTrue result ↔ IsRange (range axis) }
{
    if axis.step == 0 || axis.high < axis.low {
        return false;
    }
    let span = distance(axis.low, i64::from(axis.high));
    if span == 0 {
        return axis.step == 1;
    }
    span % u64::from(axis.step) == 0
}

// Whether all three ranges are canonical.
fn are_ranges(rect: &Rect) -> bool
    ensures { IsTrue result ↔ (IsRange (first_range rect.now) × IsRange (second_range rect.now) × IsRange (third_range rect.now)) }
{
    is_range(first(rect)) && is_range(second(rect)) && is_range(third(rect))
}

// Whether a non-empty rectangle is canonical.
fn has_points(rect: &Rect) -> bool
    ensures { IsTrue result ↔ HasPoints rect.now }
{
    is_point(&rect.lo)
        && rect.lo.dim == rect.dim
        && is_point(&rect.hi)
        && rect.hi.dim == rect.dim
        && are_ranges(rect)
}

// The canonical empty rectangle with this number of dimensions.
fn empty(dim: u8) -> Rect
    ensures { result ≡ empty_rect dim }
{
    let lo = Point {
        dim,
        x1: 1,
        x2: if dim >= 2 { 1 } else { 0 },
        x3: if dim >= 3 { 1 } else { 0 },
    };
    let hi = Point {
        dim,
        x1: 0,
        x2: 0,
        x3: 0,
    };
    Rect {
        dim,
        lo,
        hi,
        step: [1, 1, 1],
    }
}

/// Whether a rectangle, empty or not, is canonical.
pub fn is_rect(rect: &Rect) -> bool
    ensures { IsTrue result ↔ IsRect rect.now }
{
    is_dim(rect.dim) && (*rect == empty(rect.dim) || has_points(rect))
}

/// Whether the parameters of a view are canonical. Those of a slice always are.
pub fn is_view(how: ViewHow) -> bool
    ensures { IsTrue result ↔ IsView how }
{
    match how {
        ViewHow::Restrict(r) => is_rect(&r),
        ViewHow::Translate(p) => is_point(&p),
        ViewHow::Slice(_, _) => true,
    }
}
