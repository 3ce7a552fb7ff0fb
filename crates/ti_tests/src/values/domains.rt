// Functions on domains.

ghost use Rattle.std.specs.Prelude.{◌≡◌};

use super::spans::{Span, ZERO, line, point, rect_of};
use std::alloc::Global;
use std::test::Fail;
use ti_base::Value;
use ti_domain::{
    Dom, DomErr, Held, dom_copy, dom_minus, dom_next_after, dom_of, dom_pieces, dom_same, dom_size,
    dom_union,
};

/// A one-dimensional domain.
#[derive(Drop)]
struct Flat {
    domain: Dom,
    ghost flat: { domain.dim ≡ 1 },
}

/// The domain of a span.
fn flat_of(alloc: Global, span: Span) -> Result<Flat, Fail> {
    let domain = dom_of(alloc, &line(span)?)?;
    Ok(Flat { domain })
}

/// The union of two domains.
fn union_of(alloc: Global, a: &Flat, b: &Flat) -> Result<Flat, DomErr> {
    let domain = dom_union(alloc, &a.domain, &b.domain)?;
    Ok(Flat { domain })
}

/// The points of the first span that aren't in the second.
fn flat_minus(alloc: Global, a: Span, b: Span) -> Result<Flat, Fail> {
    let left = flat_of(alloc, a)?;
    let right = flat_of(alloc, b)?;
    let domain = dom_minus(alloc, &left.domain, &right.domain)?;
    Ok(Flat { domain })
}

/// A two-dimensional domain.
#[derive(Drop)]
struct Plane {
    domain: Dom,
    ghost plane: { domain.dim ≡ 2 },
}

/// The points whose two coordinates are both in the span.
fn square_of(alloc: Global, span: Span) -> Result<Plane, Fail> {
    let r = rect_of(2, [span, span, ZERO])?;
    let domain = dom_of(alloc, &r)?;
    Ok(Plane { domain })
}

/// The points of the first square that aren't in the second.
fn square_minus(alloc: Global, a: Span, b: Span) -> Result<Plane, Fail> {
    let left = square_of(alloc, a)?;
    let right = square_of(alloc, b)?;
    let domain = dom_minus(alloc, &left.domain, &right.domain)?;
    Ok(Plane { domain })
}

/// The number of points of the domain of the span.
fn flat_size(alloc: Global, span: Span) -> Result<i32, Fail> {
    Ok(dom_size(&flat_of(alloc, span)?.domain))
}

#[test]
fn a_difference_of_a_million_points(rt: HostRuntime) -> Result<(), Fail> {
    let even = Span(0, 1999998, 2);
    let third = Span(0, 2999997, 3);
    assert_eq!(rt; flat_size(rt.alloc(), even)?, 1000000);
    assert_eq!(rt; flat_size(rt.alloc(), third)?, 1000000);
    let left = flat_minus(rt.alloc(), even, third)?;
    let figures = (dom_size(&left.domain), dom_pieces(&left.domain).len());
    assert_eq!(rt; figures, (666666, 2));
    Ok(())
}

/// The number of points of the domain of the square.
fn square_size(alloc: Global, span: Span) -> Result<i32, Fail> {
    Ok(dom_size(&square_of(alloc, span)?.domain))
}

#[test]
fn a_difference_of_a_million_points_in_two_coordinates(rt: HostRuntime) -> Result<(), Fail> {
    let even = Span(0, 1998, 2);
    let third = Span(0, 2997, 3);
    assert_eq!(rt; square_size(rt.alloc(), even)?, 1000000);
    assert_eq!(rt; square_size(rt.alloc(), third)?, 1000000);
    let left = square_minus(rt.alloc(), even, third)?;
    assert_eq!(rt; dom_size(&left.domain), 888444);
    Ok(())
}

/// The second coordinates of the points, in the order of iteration, as digits of a number in base 3; `None` if there are `most` points or
/// more.
fn walk_digits(plane: &Plane, most: u32) -> Option<i32> {
    let mut sum = 0i32;
    let mut at = dom_next_after(&plane.domain, None);
    for _ in 0..most {
        match at {
            Some(p) => {
                sum = sum.wrapping_mul(3).wrapping_add(p.x2);
                at = dom_next_after(&plane.domain, Some(&point(2, p.x1, p.x2, 0)));
            }
            None => return Some(sum),
        }
    }
    None
}

#[test]
fn a_ring_of_twelve_points(rt: HostRuntime) -> Result<(), Fail> {
    let ring = square_minus(rt.alloc(), Span(0, 3, 1), Span(1, 2, 1))?;
    let figures = (dom_size(&ring.domain), walk_digits(&ring, 20));
    assert_eq!(rt; figures, (12, Some(120546)));
    Ok(())
}

/// Whether the iteration yields exactly these numbers.
fn has_walk(flat: &Flat, numbers: &[i32]) -> bool {
    let mut at = dom_next_after(&flat.domain, None);
    for want in numbers {
        let Some(p) = at else {
            return false;
        };
        if p.x1 != *want {
            return false;
        }
        at = dom_next_after(&flat.domain, Some(&point(1, *want, 0, 0)));
    }
    at.is_none()
}

/// Whether a copy of a domain equals it.
fn copy_is_same(alloc: Global, flat: &Flat) -> Result<bool, Fail> {
    let copy = dom_copy(alloc, &flat.domain)?;
    Ok(dom_same(&copy, &flat.domain))
}

#[test]
fn a_difference_by_residues(rt: HostRuntime) -> Result<(), Fail> {
    let left = flat_minus(rt.alloc(), Span(0, 30, 2), Span(0, 30, 3))?;
    let wanted = [2, 4, 8, 10, 14, 16, 20, 22, 26, 28];
    let walk = has_walk(&left, &wanted);
    let copied = copy_is_same(rt.alloc(), &left)?;
    assert_eq!(rt; (dom_size(&left.domain), walk, copied), (10, true, true));
    Ok(())
}

/// Whether the domains of the two spans are equal.
fn are_same(alloc: Global, a: Span, b: Span) -> Result<bool, Fail> {
    let left = flat_of(alloc, a)?;
    let right = flat_of(alloc, b)?;
    Ok(dom_same(&left.domain, &right.domain))
}

#[test]
fn equality(rt: HostRuntime) -> Result<(), Fail> {
    let even = Span(0, 30, 2);
    assert!(rt; are_same(rt.alloc(), even, Span(0, 31, 2))?);
    assert!(rt; !are_same(rt.alloc(), even, Span(0, 30, 3))?);
    Ok(())
}

/// A domain has at most 1,048,576 points.
#[test]
fn the_most_points(rt: HostRuntime) -> Result<(), Fail> {
    let r = line(Span(0, 1048576, 1))?;
    assert_eq!(rt; dom_of(rt.alloc(), &r).err(), Some(DomErr::TooLarge));
    let most = Span(0, 1048575, 1);
    let more = Span(1048576, 1048576, 1);
    assert_eq!(rt; flat_size(rt.alloc(), most)?, 1048576);
    assert_eq!(rt; union_size(rt.alloc(), most, more)?, Err(DomErr::TooLarge));
    assert_eq!(rt; union_size(rt.alloc(), most, most)?, Ok(1048576));
    Ok(())
}

/// The number of points in either of the spans.
fn union_size(alloc: Global, a: Span, b: Span) -> Result<Result<i32, DomErr>, Fail> {
    let left = flat_of(alloc, a)?;
    let right = flat_of(alloc, b)?;
    Ok(union_of(alloc, &left, &right).map(|union| dom_size(&union.domain)))
}

/// The domain with this number added.
fn with_number(alloc: Global, flat: &Flat, x: i32) -> Result<Flat, Fail> {
    let point = flat_of(alloc, Span(x, x, 1))?;
    Ok(union_of(alloc, flat, &point)?)
}

/// A thousand single points, each 389 after the previous one modulo 1009, yield one domain.
#[test]
fn a_union_of_a_thousand_points(rt: HostRuntime) -> Result<(), Fail> {
    let mut all = flat_of(rt.alloc(), Span(1, 0, 1))?;
    let mut x = 0u32;
    for _ in 0..1000 {
        all = with_number(rt.alloc(), &all, x.cast_signed())?;
        x = x.wrapping_add(389) % 1009;
    }
    assert_eq!(rt; dom_size(&all.domain), 1000);
    Ok(())
}

/// The number of points that a variable's value has, if it is a domain.
fn held_size(held: &Held) -> i32 {
    match held {
        Held::Plain(_) => 0,
        Held::Dm(domain) => dom_size(domain),
    }
}

/// A variable holds a value or a domain.
#[test]
fn what_variables_hold(rt: HostRuntime) -> Result<(), Fail> {
    let some = flat_of(rt.alloc(), Span(1, 5, 2))?;
    let held = Held::Dm(some.domain);
    assert_eq!(rt; held_size(&Held::Plain(Value::Int(7))), 0);
    assert_eq!(rt; held_size(&held), 3);
    Ok(())
}
