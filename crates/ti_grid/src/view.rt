// Views, with the invariant that different points have different cells.

ghost use Rattle.std.specs.Prelude.{◌≡◌, ◌≤◌, length};
ghost use Rattle.ti_base.specs.Rects.{IsRect, points_of};
ghost use Rattle.ti_grid.specs.Views.{IsLaid, DifferInCells};

use crate::layout::Layout;
use std::marker::Model;
use ti_base::{Id, Rect};

/// A view of a block: a map from the points of a domain to the indices of the block's cells.
///
/// Contracts see its block, its domain and the cell index of each point (`cell_number`). A domain has at most 1,048,576 points, and
/// different points have different cells. The cells are shared: a view has none of its own.
#[derive(Drop)]
pub struct View {
    layout: Layout,
}

impl Model for View {
    ghost use Rattle.ti_grid.specs.declared.layout.Layout.{Layout};
    ghost use Rattle.ti_grid.specs.Views.{IsLaid};

    ghost Value = { Layout };

    ghost view = { λ v. v.layout };

    ghost invariant = { λ v. IsLaid v.layout };
}

impl View {
    /// The name of the block whose cells the view shares.
    pub fn block(&self) -> Id
        ensures { result ≡ self.now.block }
    {
        self.layout.block
    }

    /// The domain of the view.
    pub fn domain(&self) -> Rect
        ensures value { result ≡ self.now.dom }
        ensures form { IsRect self.now.dom }
        ensures few { length (points_of self.now.dom) ≤ 1048576 }
        ensures differ { DifferInCells self.now }
    {
        self.layout.dom
    }
}

/// The layout of the view, which satisfies the invariant.
pub fn layout(view: &View) -> Layout
    ensures value { result ≡ view.now }
    ensures laid { IsLaid result }
{
    view.layout
}

/// The view with this layout, which must satisfy the invariant.
pub fn view_from_layout(layout: Layout) -> View
    requires { IsLaid layout }
    ensures { result ≡ layout }
{
    View { layout }
}
