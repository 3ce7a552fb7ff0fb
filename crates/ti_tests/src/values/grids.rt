// Views of views, compared with lists of points.

ghost use Rattle.ti_base.specs.Rects.{IsRect};

use super::spans::{Span, ZERO, point, rect_of};
use std::test::Fail;
use ti_base::{FaultKind, Id, Rect};
use ti_grid::{View, index_of, view_of, view_restrict, view_slice, view_translate};
use ti_rect::rect_size;

/// A view of the result of the steps before.
#[derive(Clone, Copy)]
enum ViewStep {
    Restrict(Span, Span, Span),
    Translate(i32, i32, i32),
    Slice(i32, i32),
}

/// Views of a block, each of the one before, and the points of the last one, each with the number of its cell; or the fault of the last
/// step.
struct ViewCase {
    dim: u8,
    block: [Span; 3],
    steps: &'static [ViewStep],
    points: &'static [(i32, i32, i32, u64)],
    fault: Option<FaultKind>,
}

/// Three rows of four points, numbered row by row.
const ROWS: [Span; 3] = [Span(0, 2, 1), Span(0, 3, 1), ZERO];

/// Two planes of three rows of two points.
const PLANES: [Span; 3] = [Span(0, 1, 1), Span(0, 2, 1), Span(0, 1, 1)];

const CASES: [ViewCase; 14] = [
    ViewCase {
        dim: 1,
        block: [Span(0, 10, 5), ZERO, ZERO],
        steps: &[],
        points: &[(0, 0, 0, 0), (5, 0, 0, 1), (10, 0, 0, 2)],
        fault: None,
    },
    ViewCase {
        dim: 2,
        block: ROWS,
        steps: &[ViewStep::Restrict(Span(1, 2, 1), Span(1, 3, 2), ZERO)],
        points: &[(1, 1, 0, 5), (1, 3, 0, 7), (2, 1, 0, 9), (2, 3, 0, 11)],
        fault: None,
    },
    ViewCase {
        dim: 2,
        block: ROWS,
        steps: &[
            ViewStep::Translate(1, 1, 0),
            ViewStep::Restrict(Span(3, 9, 1), Span(0, 4, 1), ZERO),
        ],
        points: &[(3, 1, 0, 8), (3, 2, 0, 9), (3, 3, 0, 10), (3, 4, 0, 11)],
        fault: None,
    },
    ViewCase {
        dim: 2,
        block: ROWS,
        steps: &[ViewStep::Slice(1, 1)],
        points: &[(0, 0, 0, 4), (1, 0, 0, 5), (2, 0, 0, 6), (3, 0, 0, 7)],
        fault: None,
    },
    ViewCase {
        dim: 2,
        block: ROWS,
        steps: &[ViewStep::Slice(2, 3)],
        points: &[(0, 0, 0, 3), (1, 0, 0, 7), (2, 0, 0, 11)],
        fault: None,
    },
    ViewCase {
        dim: 3,
        block: PLANES,
        steps: &[ViewStep::Slice(2, 1), ViewStep::Translate(5, -1, 0)],
        points: &[(5, -1, 0, 2), (5, 0, 0, 3), (6, -1, 0, 8), (6, 0, 0, 9)],
        fault: None,
    },
    ViewCase {
        dim: 3,
        block: PLANES,
        steps: &[ViewStep::Slice(3, 1), ViewStep::Slice(1, 1)],
        points: &[(0, 0, 0, 7), (1, 0, 0, 9), (2, 0, 0, 11)],
        fault: None,
    },
    ViewCase {
        dim: 1,
        block: [Span(0, 20, 2), ZERO, ZERO],
        steps: &[
            ViewStep::Restrict(Span(0, 20, 3), ZERO, ZERO),
            ViewStep::Restrict(Span(6, 18, 12), ZERO, ZERO),
        ],
        points: &[(6, 0, 0, 3), (18, 0, 0, 9)],
        fault: None,
    },
    ViewCase {
        dim: 1,
        block: [Span(0, 20, 2), ZERO, ZERO],
        steps: &[
            ViewStep::Restrict(Span(30, 40, 1), ZERO, ZERO),
            ViewStep::Translate(i32::MAX, 0, 0),
        ],
        points: &[],
        fault: None,
    },
    ViewCase {
        dim: 1,
        block: [Span(0, 1, 1), ZERO, ZERO],
        steps: &[ViewStep::Translate(i32::MAX, 0, 0)],
        points: &[],
        fault: Some(FaultKind::Range),
    },
    ViewCase {
        dim: 2,
        block: ROWS,
        steps: &[ViewStep::Slice(3, 0)],
        points: &[],
        fault: Some(FaultKind::Bounds),
    },
    ViewCase {
        dim: 2,
        block: ROWS,
        steps: &[ViewStep::Slice(0, 0)],
        points: &[],
        fault: Some(FaultKind::Bounds),
    },
    ViewCase {
        dim: 2,
        block: ROWS,
        steps: &[ViewStep::Slice(1, 3)],
        points: &[],
        fault: Some(FaultKind::Bounds),
    },
    ViewCase {
        dim: 2,
        block: ROWS,
        steps: &[
            ViewStep::Restrict(Span(5, 6, 1), Span(0, 3, 1), ZERO),
            ViewStep::Slice(2, 1),
        ],
        points: &[],
        fault: Some(FaultKind::Bounds),
    },
];

/// The identity of the block.
const BLOCK: Id = Id {
    maker: 1,
    serial: 2,
    owner: 1,
    region: 3,
};

/// The view of the whole block.
fn whole_block(r: &Rect) -> Result<View, FaultKind>
    requires { IsRect r.now }
{
    match rect_size(r) {
        Ok(count) => {
            if count > 1_048_576 {
                return Err(FaultKind::DomainSize);
            }
            Ok(view_of(BLOCK, r))
        }
        Err(_) => Err(FaultKind::DomainSize),
    }
}

/// The view that a step makes.
fn step_view(v: &View, step: ViewStep) -> Result<View, FaultKind> {
    let dim = v.domain().dim;
    match step {
        ViewStep::Restrict(a, b, c) => match rect_of(dim, [a, b, c]) {
            Ok(r) => Ok(view_restrict(v, &r)),
            Err(_) => Err(FaultKind::BadStride),
        },
        ViewStep::Translate(x1, x2, x3) => view_translate(v, &point(dim, x1, x2, x3)),
        ViewStep::Slice(k, j) => {
            if dim < 2 {
                return Err(FaultKind::Depth);
            }
            view_slice(v, k, j)
        }
    }
}

/// The view that all steps make.
fn case_view(case: &ViewCase) -> Result<View, FaultKind> {
    let dim = if case.dim == 1 || case.dim == 2 {
        case.dim
    } else {
        3
    };
    let mut view = match rect_of(dim, case.block) {
        Ok(r) => whole_block(&r)?,
        Err(_) => return Err(FaultKind::BadStride),
    };
    for step in case.steps {
        view = step_view(&view, *step)?;
    }
    Ok(view)
}

/// The number of the cell of a point.
fn number_at(v: &View, x1: i32, x2: i32, x3: i32) -> Option<u64> {
    let dim = v.domain().dim;
    index_of(v, &point(dim, x1, x2, x3))
}

/// The number of points of a small box that the view has.
fn count(v: &View) -> u32 {
    let mut points = 0u32;
    let dim = v.domain().dim;
    for x1 in -3..23 {
        for x2 in -3..23 {
            for x3 in -3..23 {
                let used = (dim > 1 || x2 == 0) && (dim > 2 || x3 == 0);
                if used && number_at(v, x1, x2, x3).is_some() {
                    points = points.saturating_add(1);
                }
            }
        }
    }
    points
}

#[test]
fn views_of_views(rt: HostRuntime) -> Result<(), Fail> {
    for case in &CASES {
        match case_view(case) {
            Ok(view) => {
                assert_eq!(rt; case.fault, None);
                assert_eq!(rt; view.block(), BLOCK);
                assert_eq!(rt; count(&view) as usize, case.points.len());
                for (x1, x2, x3, number) in case.points {
                    assert_eq!(rt; number_at(&view, *x1, *x2, *x3), Some(*number));
                }
            }
            Err(kind) => assert_eq!(rt; case.fault, Some(kind)),
        }
    }
    Ok(())
}
