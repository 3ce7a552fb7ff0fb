// The affine map from points to cell indices by which a view is represented.

use ti_base::{Id, Rect};

/// A strided map from points to cell indices: the least point of the domain has the cell `base`, and each step of the domain in a
/// coordinate adds that coordinate's entry of `steps` to the index.
#[derive(Clone, Copy)]
pub struct Layout {
    /// The block that has the cells.
    pub block: Id,
    /// The points of the view.
    pub dom: Rect,
    /// The cell index of the domain's least point.
    pub base: u64,
    /// For each coordinate, what one step of the domain adds to the cell index.
    pub steps: [u64; 3],
}
