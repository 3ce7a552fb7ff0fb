// Functions on rectangles.

ghost use Rattle.ti_base.specs.Points.{IsDim};

use super::spans::{Span, ZERO, line, point, rect_of};
use std::test::Fail;
use ti_base::Rect;
use ti_rect::{
    BadStride, rect_max, rect_meet, rect_min, rect_next_after, rect_size, rect_translate,
};

/// A range, and the expected results of functions on one-dimensional rectangles.
struct RangeCase {
    span: Span,
    size: Option<i32>,
    least: Option<i32>,
    greatest: Option<i32>,
    /// The range in canonical form.
    kept: (i32, i32, u32),
}

const LINES: [RangeCase; 8] = [
    RangeCase {
        span: Span(0, 10, 3),
        size: Some(4),
        least: Some(0),
        greatest: Some(9),
        kept: (0, 9, 3),
    },
    RangeCase {
        span: Span(5, 7, 3),
        size: Some(1),
        least: Some(5),
        greatest: Some(5),
        kept: (5, 5, 1),
    },
    RangeCase {
        span: Span(1, 0, 7),
        size: Some(0),
        least: None,
        greatest: None,
        kept: (1, 0, 1),
    },
    RangeCase {
        span: Span(i32::MAX, i32::MIN, 1),
        size: Some(0),
        least: None,
        greatest: None,
        kept: (1, 0, 1),
    },
    RangeCase {
        span: Span(i32::MIN, i32::MAX, 1),
        size: None,
        least: Some(i32::MIN),
        greatest: Some(i32::MAX),
        kept: (i32::MIN, i32::MAX, 1),
    },
    RangeCase {
        span: Span(i32::MIN, -2, 1),
        size: Some(i32::MAX),
        least: Some(i32::MIN),
        greatest: Some(-2),
        kept: (i32::MIN, -2, 1),
    },
    RangeCase {
        span: Span(i32::MIN, i32::MAX, i32::MAX),
        size: Some(3),
        least: Some(i32::MIN),
        greatest: Some(2147483646),
        kept: (i32::MIN, 2147483646, 2147483647),
    },
    RangeCase {
        span: Span(1, i32::MAX, i32::MAX),
        size: Some(1),
        least: Some(1),
        greatest: Some(1),
        kept: (1, 1, 1),
    },
];

#[test]
fn each_line(rt: HostRuntime) -> Result<(), Fail> {
    for case in &LINES {
        let r = line(case.span)?;
        let least = rect_min(&r).ok().map(|p| p.x1);
        let greatest = rect_max(&r).ok().map(|p| p.x1);
        let first = rect_next_after(&r, None).map(|p| p.x1);
        assert_eq!(rt; (r.lo.x1, r.hi.x1, r.step[0]), case.kept);
        assert_eq!(rt; rect_size(&r).ok(), case.size);
        assert_eq!(rt;
            (least, greatest, first),
            (case.least, case.greatest, case.least)
        );
    }
    Ok(())
}

/// Whether the rectangle is rejected.
fn is_refused(dim: u8, spans: [Span; 3]) -> bool
    requires { IsDim dim }
{
    rect_of(dim, spans).is_err()
}

/// A stride of 0 or below is rejected, in each dimension that is used.
#[test]
fn bad_strides(rt: HostRuntime) -> Result<(), Fail> {
    let good = Span(0, 1, 1);
    for step in [0, -1, i32::MIN] {
        let bad = Span(0, 1, step);
        let line = is_refused(1, [bad, ZERO, ZERO]);
        let plane = is_refused(2, [good, bad, ZERO]);
        let space = is_refused(3, [good, good, bad]);
        assert_eq!(rt; (line, plane, space), (true, true, true), "{step}");
    }
    assert!(rt; !is_refused(3, [good, good, good]));
    Ok(())
}

/// Two ranges, and the range of the numbers in both.
struct Common {
    a: Span,
    b: Span,
    both: Option<(i32, i32, u32)>,
}

const COMMON: [Common; 6] = [
    Common {
        a: Span(0, 10, 3),
        b: Span(1, 10, 2),
        both: Some((3, 9, 6)),
    },
    Common {
        a: Span(0, 4, 2),
        b: Span(1, 5, 2),
        both: None,
    },
    Common {
        a: Span(i32::MIN, i32::MAX, 65536),
        b: Span(i32::MIN, i32::MAX, 65537),
        both: Some((i32::MIN, i32::MIN, 1)),
    },
    Common {
        a: Span(i32::MIN, i32::MAX, 65535),
        b: Span(i32::MIN, i32::MAX, 65536),
        both: Some((i32::MIN, 2147418112, 4294901760)),
    },
    Common {
        a: Span(i32::MIN, i32::MAX, i32::MAX),
        b: Span(-1, i32::MAX, 1),
        both: Some((-1, 2147483646, 2147483647)),
    },
    Common {
        a: Span(0, 100, 6),
        b: Span(4, 100, 10),
        both: Some((24, 84, 30)),
    },
];

#[test]
fn meets_of_lines(rt: HostRuntime) -> Result<(), Fail> {
    for case in &COMMON {
        let a = line(case.a)?;
        let b = line(case.b)?;
        let r = rect_meet(&a, &b);
        assert_eq!(rt;
            (r.lo.x1, r.hi.x1, r.step[0]),
            case.both.unwrap_or((1, 0, 1))
        );
        assert_eq!(rt; rect_meet(&b, &a), r);
    }
    Ok(())
}

/// The intersection of two two-dimensional rectangles.
fn plane_meet(a: [Span; 3], b: [Span; 3]) -> Result<Rect, BadStride> {
    let r = rect_of(2, a)?;
    let s = rect_of(2, b)?;
    Ok(rect_meet(&r, &s))
}

#[test]
fn a_meet_in_two_coordinates(rt: HostRuntime) -> Result<(), Fail> {
    let whole = Span(0, 9, 1);
    let even = Span(0, 9, 2);
    let odd = Span(1, 9, 2);
    let some = plane_meet([even, whole, ZERO], [whole, odd, ZERO])?;
    let none = plane_meet([even, whole, ZERO], [odd, odd, ZERO])?;
    assert_eq!(rt; rect_of(2, [even, odd, ZERO]), Ok(some));
    assert_eq!(rt; (none.hi.x1, none.lo.x2), (0, 1));
    Ok(())
}

/// The number of points; `None` if there are too many.
fn size_of(dim: u8, spans: [Span; 3]) -> Result<Option<i32>, BadStride>
    requires { IsDim dim }
{
    let r = rect_of(dim, spans)?;
    Ok(rect_size(&r).ok())
}

#[test]
fn sizes_of_great_rectangles(rt: HostRuntime) -> Result<(), Fail> {
    let all = Span(i32::MIN, i32::MAX, 1);
    let some = Span(1, 65536, 1);
    let half = Span(1, 32767, 1);
    assert_eq!(rt; size_of(3, [all, all, all]), Ok(None));
    assert_eq!(rt; size_of(2, [some, some, ZERO]), Ok(None));
    assert_eq!(rt; size_of(2, [some, half, ZERO]), Ok(Some(2147418112)));
    Ok(())
}

/// A range, by how much it is translated, and its bounds afterwards.
struct Moved {
    span: Span,
    by: i32,
    ends: Option<(i32, i32)>,
}

const MOVED: [Moved; 5] = [
    Moved {
        span: Span(0, 6, 3),
        by: -4,
        ends: Some((-4, 2)),
    },
    Moved {
        span: Span(0, 1, 1),
        by: 2147483646,
        ends: Some((2147483646, i32::MAX)),
    },
    Moved {
        span: Span(0, 1, 1),
        by: i32::MAX,
        ends: None,
    },
    Moved {
        span: Span(-1, 0, 1),
        by: i32::MIN,
        ends: None,
    },
    Moved {
        span: Span(1, 0, 1),
        by: i32::MAX,
        ends: Some((1, 0)),
    },
];

#[test]
fn moved_lines(rt: HostRuntime) -> Result<(), Fail> {
    for case in &MOVED {
        let r = line(case.span)?;
        let moved = rect_translate(&r, &point(1, case.by, 0, 0)).ok();
        assert_eq!(rt; moved.map(|s| (s.lo.x1, s.hi.x1)), case.ends);
    }
    Ok(())
}
