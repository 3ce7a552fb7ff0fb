// The view of a whole block, in row-major order.

ghost use Rattle.std.specs.Prelude.{◌≡◌, ◌≤◌, length};
ghost use Rattle.ti_base.specs.Rects.{IsRect, points_of};
ghost use Rattle.ti_grid.specs.Views.{IsLaid, IsWhole, NumbersBelow};

use crate::layout::Layout;
use crate::view::{View, view_from_layout};
use ti_base::{Id, Rect};
use ti_rect::axis::count;
use ti_rect::rect::{is_empty, second, third};

/// The layout of a block in row-major order: a row is as long as the range of the third coordinate, and a plane has as many rows as the
/// range of the second.
fn row_major_layout(block: Id, dom: &Rect) -> Layout
    requires form { IsRect dom.now }
    requires few { length (points_of dom.now) ≤ 1048576 }
    ensures block { result.block ≡ block }
    ensures dom { result.dom ≡ dom.now }
    ensures laid { IsLaid result }
    ensures numbers { IsWhole result }
{
    if is_empty(dom) {
        return Layout {
            block,
            dom: *dom,
            base: 0,
            steps: [0, 0, 0],
        };
    }
    let row = count(third(dom));
    let plane = count(second(dom)) * row;
    Layout {
        block,
        dom: *dom,
        base: 0,
        steps: [plane, row, 1],
    }
}

/// The view of the whole block over this domain: the index of a point's cell is the point's index in the sorted list of the domain's
/// points. The domain has at most 1,048,576 points.
pub fn view_of(block: Id, dom: &Rect) -> View
    requires form { IsRect dom.now }
    requires few { length (points_of dom.now) ≤ 1048576 }
    ensures block { result.block ≡ block }
    ensures domain { result.dom ≡ dom.now }
    ensures cells { IsWhole result }
    ensures below { NumbersBelow (length (points_of dom.now)) result }
{
    view_from_layout(row_major_layout(block, dom))
}
