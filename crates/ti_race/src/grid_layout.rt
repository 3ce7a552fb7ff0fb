// How grids (Titanium's arrays) are stored: each one is a view of a block of cells.
ghost use Rattle.ti_base.specs.declared.point.Rect.{Rect as Domain};
ghost use Rattle.ti_rect.specs.Views.{IsView};
ghost use Rattle.ti_lang.specs.Meaning.Spots.{Block, viewed_told};
ghost use Rattle.ti_race.specs.Mirrors.GridLayout.{LaysOut, LaysOutIf, SeenIf};
ghost use Rattle.std.specs.Prelude.{Some};

use ti_base::ViewHow;
use ti_grid::{View, view_restrict, view_slice, view_translate};
use ti_rect::{tests_decide, views_inside};

/// A grid: the number of the entry that created its block, and its view of the block.
#[derive(Drop)]
pub struct GridLayout {
    pub number: u32,
    pub view: View,
}

// The view of a view; `None` if the numbers of dimensions don't match or making it is a fault.
fn view_by(view: &View, how: ViewHow) -> Option<View>
    requires form { IsView how }
    ensures { SeenIf how view.now result }
{
    let dim = view.domain().dim;
    match how {
        ViewHow::Restrict(r) => {
            if r.dim == dim {
                Some(view_restrict(view, &r))
            } else {
                None
            }
        }
        ViewHow::Translate(by) => {
            if by.dim == dim {
                view_translate(view, &by).ok()
            } else {
                None
            }
        }
        ViewHow::Slice(k, j) => {
            if 2 <= dim {
                view_slice(view, k, j).ok()
            } else {
                None
            }
        }
    }
}

/// The view of a grid made in this way; `None` if the numbers of dimensions don't match or making it is a fault.
pub fn view_layout(grid: &GridLayout, how: ViewHow) -> Option<GridLayout>
    requires form { IsView how }
    ensures { (whole : Domain) (b : Block) → LaysOut whole grid.now b → LaysOutIf whole result (viewed_told how (Some b)) }
{
    views_inside();
    tests_decide();
    match view_by(&grid.view, how) {
        Some(view) => Some(GridLayout {
            number: grid.number,
            view,
        }),
        None => None,
    }
}
