// Views restricted to a rectangle.

ghost use Rattle.std.specs.Prelude.{◌≡◌};
ghost use Rattle.ti_base.specs.declared.point.Point.{Point};
ghost use Rattle.ti_base.specs.declared.action.ViewHow.TheVariants.{Restrict};
ghost use Rattle.ti_base.specs.Rects.{IsRect, HasPoints, IsIn};
ghost use Rattle.ti_rect.specs.Axes.{range};
ghost use Rattle.ti_grid.specs.Mirrors.Numbers.{cell_index};
ghost use Rattle.ti_grid.specs.Mirrors.Parts.{IsSubrange, IsStretched};
ghost use Rattle.ti_grid.specs.Views.{IsLaid, IsSeen};

use crate::layout::Layout;
use crate::numbers::number;
use crate::view::{View, layout, view_from_layout};
use ti_base::Rect;
use ti_rect::axis::Axis;
use ti_rect::rect::{first, is_empty, second, third};
use ti_rect::rect_meet;

/// What one step of the subrange adds to the cell index, if one step of the range adds `step`.
fn scaled_step(axis: Axis, part: Axis, step: u64) -> u64
    requires { IsSubrange (range axis) (range part) step }
    ensures { IsStretched (range axis) (range part) step result }
{
    if part.low < part.high {
        u64::from(part.step / axis.step) * step
    } else {
        0
    }
}

/// The same map, restricted to a part of the domain that has points.
fn restrict_layout(layout: &Layout, dom: &Rect) -> Layout
    requires laid { IsLaid layout.now }
    requires form { HasPoints dom.now }
    requires inside { (p : Point) → IsIn dom.now p → IsIn layout.now.dom p }
    ensures block { result.block ≡ layout.now.block }
    ensures domain { result.dom ≡ dom.now }
    ensures numbers { (p : Point) → IsIn dom.now p → cell_index result p ≡ cell_index layout.now p }
{
    let base = number(layout, &dom.lo);
    let x = scaled_step(first(&layout.dom), first(dom), layout.steps[0]);
    let y = scaled_step(second(&layout.dom), second(dom), layout.steps[1]);
    let z = scaled_step(third(&layout.dom), third(dom), layout.steps[2]);
    Layout {
        block: layout.block,
        dom: *dom,
        base,
        steps: [x, y, z],
    }
}

/// The view over the intersection of its domain with `rect`: each point keeps its cell.
pub fn view_restrict(view: &View, rect: &Rect) -> View
    requires form { IsRect rect.now }
    requires dim { rect.now.dim ≡ view.now.dom.dim }
    ensures { IsSeen (Restrict rect.now) view.now result }
{
    let l = layout(view);
    let dom = rect_meet(&l.dom, rect);
    if is_empty(&dom) {
        return view_from_layout(Layout { dom, ..l });
    }
    view_from_layout(restrict_layout(&l, &dom))
}
