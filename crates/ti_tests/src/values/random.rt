// Pseudo-random small rectangles, compared with a membership test of each point of a box.

ghost use Rattle.std.specs.Prelude.{◌≡◌, IfOk};
ghost use Rattle.ti_base.specs.Points.{IsDim};
ghost use Rattle.ti_base.specs.Rects.{IsRect};

use super::spans::{DomainPair, Span, both_of, rect_of};
use std::alloc::Global;
use std::test::Fail;
use ti_base::{Point, Rect};
use ti_domain::{
    Dom, dom_contains, dom_meet, dom_minus, dom_next_after, dom_pieces, dom_same, dom_size,
    dom_union,
};
use ti_rect::{rect_contains, rect_meet};

/// Two rectangles by their spans.
#[derive(Clone, Copy)]
struct Spans {
    dim: u8,
    a: [Span; 3],
    b: [Span; 3],
}

/// Whether the number is in the span.
fn is_on(span: Span, x: i32) -> bool {
    span.0 <= x && x <= span.1 && x.wrapping_sub(span.0).checked_rem(span.2) == Some(0)
}

/// Whether each coordinate that the dimension uses is in its span.
fn is_within(dim: u8, spans: [Span; 3], p: Point) -> bool {
    is_on(spans[0], p.x1)
        && (dim < 2 || is_on(spans[1], p.x2))
        && (dim < 3 || is_on(spans[2], p.x3))
}

/// The next pseudo-random number.
fn next_random(state: u32) -> u32 {
    state.wrapping_mul(1664525).wrapping_add(1013904223)
}

/// One of `count` numbers, from `least` on, by a pseudo-random number.
fn small(state: u32, count: u32, least: i32) -> i32 {
    let part = (state / 65536).checked_rem(count).unwrap_or(0);
    part.cast_signed().wrapping_add(least)
}

/// A small span from a seed, and the next seed.
fn span_of(seed: u32) -> (Span, u32) {
    let low = next_random(seed);
    let high = next_random(low);
    let step = next_random(high);
    let span = Span(small(low, 9, -2), small(high, 9, 1), small(step, 4, 1));
    (span, step)
}

/// Three small spans from a seed, and the next seed.
fn spans_of(seed: u32) -> ([Span; 3], u32) {
    let (first, seed) = span_of(seed);
    let (second, seed) = span_of(seed);
    let (third, seed) = span_of(seed);
    ([first, second, third], seed)
}

/// Two rectangles from a seed, and the next seed.
fn pair_of(dim: u8, seed: u32) -> (Spans, u32)
    ensures { result.0.dim ≡ dim }
{
    let (a, middle) = spans_of(seed);
    let (b, end) = spans_of(middle);
    (Spans { dim, a, b }, end)
}

/// The number of points of the box that contains all small rectangles.
fn box_size(dim: u8) -> u32 {
    match dim {
        1 => 16,
        2 => 256,
        _ => 4096,
    }
}

/// Point number `n` of the box, in lexicographic order.
fn box_point(dim: u8, n: u32) -> Point
    ensures { result.dim ≡ dim }
{
    let first = (n / 256 % 16).cast_signed().wrapping_sub(4);
    let second = (n / 16 % 16).cast_signed().wrapping_sub(4);
    let third = (n % 16).cast_signed().wrapping_sub(4);
    let (x1, x2, x3) = match dim {
        1 => (third, 0, 0),
        2 => (second, third, 0),
        _ => (first, second, third),
    };
    Point { dim, x1, x2, x3 }
}

/// Whether the point is in the first rectangle, and whether it is in the second.
fn places(spans: Spans, p: Point) -> (bool, bool) {
    (
        is_within(spans.dim, spans.a, p),
        is_within(spans.dim, spans.b, p),
    )
}

/// The first point of the box, from number `from` on, that is in one of the two.
fn first_within(spans: Spans, from: u32) -> Option<Point> {
    for n in from..box_size(spans.dim) {
        let p = box_point(spans.dim, n);
        let (left, right) = places(spans, p);
        if left || right {
            return Some(p);
        }
    }
    None
}

/// The results of the set operations on two domains.
#[derive(Drop)]
struct Results {
    dim: u8,
    union: Dom,
    minus: Dom,
    meet: Dom,
    ghost union_dim: { union.dim ≡ dim },
    ghost minus_dim: { minus.dim ≡ dim },
    ghost meet_dim: { meet.dim ≡ dim },
}

/// The union, the difference and the intersection of the two.
fn results_of(alloc: Global, both: &DomainPair) -> Result<Results, Fail>
    ensures { IfOk result (λ results. results.dim ≡ both.now.dim) }
{
    let union = dom_union(alloc, &both.left, &both.right)?;
    let minus = dom_minus(alloc, &both.left, &both.right)?;
    let meet = dom_meet(alloc, &both.left, &both.right)?;
    Ok(Results {
        dim: both.dim,
        union,
        minus,
        meet,
    })
}

/// Whether the rectangles and their intersection contain the point as `places` says.
fn rectangles_agree(r: &Rect, s: &Rect, p: Point, places: (bool, bool)) -> bool
    requires first { IsRect r.now }
    requires second { IsRect s.now }
    requires same { s.now.dim ≡ r.now.dim }
    requires dim { p.dim ≡ r.now.dim }
{
    let in_first = rect_contains(r, &p);
    let in_second = rect_contains(s, &p);
    let in_both = rect_contains(&rect_meet(r, s), &p);
    (in_first, in_second) == places && in_both == (places.0 && places.1)
}

/// Whether the domains contain the point as `places` says.
fn domains_agree(results: &Results, p: Point, places: (bool, bool)) -> bool
    requires { p.dim ≡ results.now.dim }
{
    let in_union = dom_contains(&results.union, &p);
    let in_minus = dom_contains(&results.minus, &p);
    let in_meet = dom_contains(&results.meet, &p);
    let (left, right) = places;
    in_union == (left || right) && in_minus == (left && !right) && in_meet == (left && right)
}

/// Whether the iteration continues from the point as expected, if the point is in the union.
fn walk_agrees(results: &Results, spans: Spans, n: u32, p: Point, places: (bool, bool)) -> bool
    requires { p.dim ≡ results.now.dim }
{
    let is_member = places.0 || places.1;
    !is_member || dom_next_after(&results.union, Some(&p)) == first_within(spans, n.wrapping_add(1))
}

/// The first point of the box at which the domains or their iteration aren't as expected.
fn domain_mismatch(results: &Results, spans: Spans) -> Option<Point> {
    for n in 0..box_size(spans.dim) {
        let p = box_point(results.dim, n);
        let places = places(spans, p);
        if !domains_agree(results, p, places) || !walk_agrees(results, spans, n, p, places) {
            return Some(p);
        }
    }
    None
}

/// The first point of the box at which the rectangles aren't as expected.
fn rectangle_mismatch(r: &Rect, s: &Rect, spans: Spans) -> Option<Point>
    requires first { IsRect r.now }
    requires second { IsRect s.now }
    requires same { s.now.dim ≡ r.now.dim }
{
    for n in 0..box_size(spans.dim) {
        let p = box_point(r.dim, n);
        if !rectangles_agree(r, s, p, places(spans, p)) {
            return Some(p);
        }
    }
    None
}

/// The numbers of points of the box in either, in the first only, and in both.
fn counts(spans: Spans) -> [i32; 3] {
    let mut counts = [0i32; 3];
    for n in 0..box_size(spans.dim) {
        let (left, right) = places(spans, box_point(spans.dim, n));
        let [union, minus, meet] = counts;
        counts = [
            union.wrapping_add(i32::from(left || right)),
            minus.wrapping_add(i32::from(left && !right)),
            meet.wrapping_add(i32::from(left && right)),
        ];
    }
    counts
}

/// The numbers of points of the domains.
fn sizes(results: &Results) -> [i32; 3] {
    [
        dom_size(&results.union),
        dom_size(&results.minus),
        dom_size(&results.meet),
    ]
}

/// Whether the domain is represented by the rectangle only, or by none if it is empty.
fn is_alone(domain: &Dom, r: &Rect) -> bool {
    let pieces = dom_pieces(domain);
    pieces.len() == usize::from(dom_size(domain) > 0) && pieces.iter().all(|piece| *piece == *r)
}

/// Whether the union commutes, and the two are equal exactly if the rectangles are.
fn equality_agrees(
    alloc: Global,
    both: &DomainPair,
    union: &Dom,
    is_same: bool,
) -> Result<bool, Fail>
    requires { union.now.dim ≡ both.now.dim }
{
    let other = dom_union(alloc, &both.right, &both.left)?;
    Ok(dom_same(union, &other) && dom_same(&both.left, &both.right) == is_same)
}

/// Whether sizes, pieces and equality of the domains agree with counting.
fn counts_agree(
    alloc: Global,
    both: &DomainPair,
    results: &Results,
    spans: Spans,
    is_same: bool,
) -> Result<bool, Fail>
    requires { results.now.dim ≡ both.now.dim }
{
    Ok(
        sizes(results) == counts(spans)
            && dom_pieces(&results.meet).len() <= 1
            && dom_next_after(&results.union, None) == first_within(spans, 0)
            && equality_agrees(alloc, both, &results.union, is_same)?,
    )
}

/// Whether each domain of a rectangle is represented by it only.
fn are_alone(both: &DomainPair, r: &Rect, s: &Rect) -> bool {
    is_alone(&both.left, r) && is_alone(&both.right, s)
}

/// The first points of the box at which rectangles and domains aren't as expected, and whether what they count agrees with counting.
fn compare_sets(alloc: Global, spans: Spans) -> Result<(Option<Point>, Option<Point>, bool), Fail>
    requires { IsDim spans.dim }
{
    let r = rect_of(spans.dim, spans.a)?;
    let s = rect_of(spans.dim, spans.b)?;
    let both = both_of(alloc, spans.dim, &r, &s)?;
    let results = results_of(alloc, &both)?;
    let agree = counts_agree(alloc, &both, &results, spans, r == s)? && are_alone(&both, &r, &s);
    Ok((
        rectangle_mismatch(&r, &s, spans),
        domain_mismatch(&results, spans),
        agree,
    ))
}

/// A series of pairs of small rectangles with this number of dimensions, from a seed.
struct Random {
    seed: u32,
    dim: u8,
    rounds: u32,
}

const RANDOM: [Random; 3] = [
    Random {
        seed: 20261127,
        dim: 1,
        rounds: 200,
    },
    Random {
        seed: 14142135,
        dim: 2,
        rounds: 40,
    },
    Random {
        seed: 17320508,
        dim: 3,
        rounds: 5,
    },
];

#[test]
fn small_rectangles_against_plain_lists(rt: HostRuntime) -> Result<(), Fail> {
    for case in &RANDOM {
        let mut state = case.seed;
        for _ in 0..case.rounds {
            let (spans, end) = pair_of(case.dim, state);
            assert!(rt; 1 <= spans.dim && spans.dim <= 3);
            assert_eq!(rt;
                compare_sets(rt.alloc(), spans)?,
                (None, None, true),
                "seed {state}"
            );
            state = end;
        }
    }
    Ok(())
}
