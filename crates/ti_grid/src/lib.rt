//! Views of blocks: maps from the points of a domain to the indices of a block's cells. Views don't own their cells, so restricting,
//! translating and slicing only computes a new map.
#![tactic(auto)]

mod layout;
mod numbers;
mod restrict;
mod slice;
mod translate;
mod view;
mod whole;

pub use numbers::index_of;
pub use restrict::view_restrict;
pub use slice::view_slice;
pub use translate::view_translate;
pub use view::View;
pub use whole::view_of;
