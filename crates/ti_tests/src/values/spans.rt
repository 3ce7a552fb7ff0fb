// Rectangles and domains from the bounds and strides of their dimensions.

ghost use Rattle.std.specs.Prelude.{◌≡◌, IfOk};
ghost use Rattle.ti_base.specs.Points.{IsDim, IsPoint};
ghost use Rattle.ti_base.specs.Rects.{IsRect};

use std::alloc::Global;
use std::test::Fail;
use ti_base::{Point, Rect};
use ti_domain::{Dom, dom_of};
use ti_rect::{BadStride, rect_make};

/// The lower bound, upper bound and stride of one dimension.
#[derive(Clone, Copy)]
pub struct Span(pub i32, pub i32, pub i32);

/// The span of 0 only, for dimensions that aren't used.
pub const ZERO: Span = Span(0, 0, 0);

/// The point with as many of these coordinates as the dimension says.
pub fn point(dim: u8, x1: i32, x2: i32, x3: i32) -> Point
    requires { IsDim dim }
    ensures form { IsPoint result }
    ensures dim { result.dim ≡ dim }
{
    if dim < 2 {
        return Point {
            dim,
            x1,
            x2: 0,
            x3: 0,
        };
    }
    if dim < 3 {
        return Point { dim, x1, x2, x3: 0 };
    }
    Point { dim, x1, x2, x3 }
}

/// The rectangle of as many of these spans as the dimension says.
pub fn rect_of(dim: u8, spans: [Span; 3]) -> Result<Rect, BadStride>
    requires { IsDim dim }
    ensures form { IfOk result IsRect }
    ensures dim { IfOk result (λ r. r.dim ≡ dim) }
{
    let [a, b, c] = spans;
    let lo = point(dim, a.0, b.0, c.0);
    let hi = point(dim, a.1, b.1, c.1);
    let step = point(dim, a.2, b.2, c.2);
    rect_make(&lo, &hi, &step)
}

/// The one-dimensional rectangle of a span.
pub fn line(span: Span) -> Result<Rect, BadStride>
    ensures form { IfOk result IsRect }
    ensures dim { IfOk result (λ r. r.dim ≡ 1) }
{
    rect_of(1, [span, ZERO, ZERO])
}

/// Two domains with the same number of dimensions.
#[derive(Drop)]
pub struct DomainPair {
    pub dim: u8,
    pub left: Dom,
    pub right: Dom,
    ghost left_dim: { left.dim ≡ dim },
    ghost right_dim: { right.dim ≡ dim },
}

/// The domains of two rectangles.
pub fn both_of(alloc: Global, dim: u8, r: &Rect, s: &Rect) -> Result<DomainPair, Fail>
    requires first { IsRect r.now }
    requires second { IsRect s.now }
    requires first_dim { r.now.dim ≡ dim }
    requires second_dim { s.now.dim ≡ dim }
    ensures { IfOk result (λ both. both.dim ≡ dim) }
{
    let left = dom_of(alloc, r)?;
    let right = dom_of(alloc, s)?;
    Ok(DomainPair { dim, left, right })
}
