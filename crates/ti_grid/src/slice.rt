// Array slices: views with one coordinate fixed and left out.

ghost use Rattle.std.specs.Prelude.{◌≡◌, ◌↔◌, ◌≤◌, ℤ, false, IsErr, IfOk, MatchOption};
ghost use Rattle.std.specs.Result.{result_err};
ghost use Rattle.ti_base.specs.declared.action.ViewHow.TheVariants.{Slice};
ghost use Rattle.ti_base.specs.Cells.{has_coordinate, view_fault};
ghost use Rattle.ti_rect.specs.Axes.{range};
ghost use Rattle.ti_grid.specs.Mirrors.Slices.{IsSplit};
ghost use Rattle.ti_grid.specs.Views.{IsLaid, IsSeen, SomeHas};

use crate::layout::Layout;
use crate::numbers::offset;
use crate::view::{View, layout, view_from_layout};
use ti_base::FaultKind;
use ti_rect::axis::{Axis, UNUSED, contains};
use ti_rect::rect::{first, of_axes, second, third};

/// The range of a coordinate, and what one step in it adds to the cell index.
#[derive(Clone, Copy)]
struct Lane {
    axis: Axis,
    step: u64,
}

/// Splits off `coordinate`, counted from 1: it comes first, then the others in their order. None exactly if the dimension has no such
/// coordinate.
fn set_apart(layout: &Layout, coordinate: i32) -> Option<(Lane, Lane, Lane)>
    requires laid { IsLaid layout.now }
    requires two { 2 ≤ layout.now.dom.dim }
    ensures { MatchOption result ((j : ℤ) → false ≡ has_coordinate layout.now.dom coordinate j) (λ s.
        IsSplit layout.now coordinate (range s.0.axis) (range s.1.axis) (range s.2.axis) s.0.step s.1.step s.2.step) }
{
    if coordinate < 1 || i32::from(layout.dom.dim) < coordinate {
        return None;
    }
    let x = Lane {
        axis: first(&layout.dom),
        step: layout.steps[0],
    };
    let y = Lane {
        axis: second(&layout.dom),
        step: layout.steps[1],
    };
    let z = Lane {
        axis: third(&layout.dom),
        step: layout.steps[2],
    };
    Some(match coordinate {
        1 => (x, y, z),
        2 => (y, x, z),
        _ => (z, x, y),
    })
}

/// The view with `coordinate`, counted from 1, fixed at `position` and left out. The fault is `Bounds`, exactly if `coordinate` isn't
/// between 1 and the dimension or no point of the domain has `position` as `coordinate`; for a view without points it always is.
pub fn view_slice(view: &View, coordinate: i32, position: i32) -> Result<View, FaultKind>
    requires { 2 ≤ view.now.dom.dim }
    ensures fault { result_err result ≡ view_fault (Slice coordinate position) view.now.dom }
    ensures bounds { IsErr result ↔ (SomeHas view.now.dom coordinate position → ⊥) }
    ensures view { IfOk result (λ part. IsSeen (Slice coordinate position) view.now part) }
{
    let l = layout(view);
    let Some((out, a, b)) = set_apart(&l, coordinate) else {
        return Err(FaultKind::Bounds);
    };
    if !contains(out.axis, position) {
        return Err(FaultKind::Bounds);
    }
    let dom = of_axes(l.dom.dim - 1, a.axis, b.axis, UNUSED);
    let base = l.base + offset(out.axis, position, out.step);
    Ok(view_from_layout(Layout {
        block: l.block,
        dom,
        base,
        steps: [a.step, b.step, 0],
    }))
}
