// Views whose points are shifted.

ghost use Rattle.std.specs.Prelude.{◌≡◌, ◌↔◌, IsErr, IfOk};
ghost use Rattle.std.specs.Result.{result_err};
ghost use Rattle.ti_base.specs.declared.action.ViewHow.TheVariants.{Translate};
ghost use Rattle.ti_base.specs.Points.{IsPoint};
ghost use Rattle.ti_base.specs.Rects.{LeavesRange};
ghost use Rattle.ti_base.specs.Cells.{view_fault};
ghost use Rattle.ti_grid.specs.Views.{IsSeen};

use crate::layout::Layout;
use crate::view::{View, layout, view_from_layout};
use ti_base::{FaultKind, Point};
use ti_rect::rect_translate;

/// The view with each point shifted by the coordinates of `point`. The fault is `Range`, exactly if a coordinate of a point of the domain
/// would leave 32 bits; a view without points never has it.
pub fn view_translate(view: &View, point: &Point) -> Result<View, FaultKind>
    requires by { IsPoint point.now }
    requires dim { point.now.dim ≡ view.now.dom.dim }
    ensures fault { result_err result ≡ view_fault (Translate point.now) view.now.dom }
    ensures range { IsErr result ↔ LeavesRange view.now.dom point.now }
    ensures view { IfOk result (λ moved. IsSeen (Translate point.now) view.now moved) }
{
    let l = layout(view);
    match rect_translate(&l.dom, point) {
        Ok(dom) => Ok(view_from_layout(Layout { dom, ..l })),
        Err(_) => Err(FaultKind::Range),
    }
}
