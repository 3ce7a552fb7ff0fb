// The cell index of a point.

ghost use Rattle.std.specs.Prelude.{◌≡◌, ◌↔◌, ◌*◌, ◌<◌, ℕ, Some, None, IsNone, IfSome};
ghost use Rattle.ti_base.specs.declared.point.Point.{Point};
ghost use Rattle.ti_base.specs.Ranges.{IsOn};
ghost use Rattle.ti_base.specs.Rects.{IsIn};
ghost use Rattle.ti_rect.specs.Axes.{range};
ghost use Rattle.ti_grid.specs.Mirrors.Numbers.{steps_to, cell_index};
ghost use Rattle.ti_grid.specs.Views.{IsLaid, NumbersBelow, cell_number};

use crate::layout::Layout;
use crate::view::{View, layout};
use ti_base::Point;
use ti_rect::axis::{Axis, distance};
use ti_rect::rect::{first, second, third};
use ti_rect::rect_contains;

/// What the coordinate `number` on the range adds to the cell index, if one step of the range adds `step`.
pub fn offset(axis: Axis, number: i32, step: u64) -> u64
    requires positive { 0 < axis.step }
    requires on { IsOn (range axis) number }
    requires below { steps_to (range axis) number * step < 1048576 }
    ensures { result ≡ steps_to (range axis) number * step }
{
    distance(axis.low, i64::from(number)) / u64::from(axis.step) * step
}

/// The cell index of a point of the domain.
pub fn number(layout: &Layout, point: &Point) -> u64
    requires laid { IsLaid layout.now }
    requires inside { IsIn layout.now.dom point.now }
    ensures value { result ≡ cell_index layout.now point.now }
    ensures below { result < 1048576 }
{
    let x = offset(first(&layout.dom), point.x1, layout.steps[0]);
    let y = offset(second(&layout.dom), point.x2, layout.steps[1]);
    let z = offset(third(&layout.dom), point.x3, layout.steps[2]);
    layout.base + x + y + z
}

/// The index of the point's cell in the block, which is below the block's size; None exactly if the point isn't in the domain. Different
/// points have different indices.
pub fn index_of(view: &View, point: &Point) -> Option<u64>
    requires { point.now.dim ≡ view.now.dom.dim }
    ensures value { result ≡ cell_number view.now point.now }
    ensures outside { IsNone result ↔ (IsIn view.now.dom point.now → ⊥) }
    ensures below { (n : ℕ) → NumbersBelow n view.now → IfSome result (λ i. i < n) }
    ensures differ { IfSome result (λ i. (q : Point) → cell_number view.now q ≡ Some i → q ≡ point.now) }
{
    let l = layout(view);
    if rect_contains(&l.dom, point) {
        Some(number(&l, point))
    } else {
        None
    }
}
