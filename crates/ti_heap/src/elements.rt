// Reading and writing elements of grids, and reading their domains.

ghost use Rattle.std.specs.Prelude.{◌≡◌, ◌↔◌, IsErr, Some, IsSome, IsSomeAnd};
ghost use Rattle.std.specs.Option.{option_map};
ghost use Rattle.ti_base.specs.declared.value.Id.{Id};
ghost use Rattle.ti_base.specs.Rects.{IsIn};
ghost use Rattle.ti_heap.specs.Contents.{grid_cell, ReadsCell, WritesCell};
ghost use Rattle.ti_heap.specs.Things.{contents};

use crate::heap::Heap;
use ti_base::{FaultKind, Id, Point, Rect, Value};
use ti_grid::index_of;

impl Heap {
    /// The value of the element of a grid at a point. The fault is `Bounds`, exactly if the point isn't in the grid's domain. The grid
    /// must be in no dropped region, and the point must have its dimension.
    pub fn get_elem(&self, grid: Id, point: &Point) -> Result<Value, FaultKind>
        requires { IsSomeAnd ((contents self.now).grid grid) (λ g. point.now.dim ≡ g.domain.dim) }
        ensures value { ReadsCell (contents self.now) (grid_cell grid point.now (contents self.now)) result }
        ensures bounds { IsSomeAnd ((contents self.now).grid grid) (λ g. IsErr result ↔ (IsIn g.domain point.now → ⊥)) }
    {
        let view = self.view(grid);
        match index_of(view, point) {
            Some(i) => Ok(self.value(view.block(), i)),
            None => Err(FaultKind::Bounds),
        }
    }

    /// Writes the element of a grid at a point; nothing else changes. The fault is `Bounds`, exactly if the point isn't in the grid's
    /// domain, and then nothing changes. The grid must be in no dropped region, and the point must have its dimension.
    pub fn put_elem(&mut self, grid: Id, point: &Point, value: Value) -> Result<(), FaultKind>
        requires { IsSomeAnd ((contents self.old).grid grid) (λ g. point.now.dim ≡ g.domain.dim) }
        ensures value { WritesCell (contents self.old) (grid_cell grid point.now (contents self.old)) value result (contents self.new) }
        ensures kept { (id : Id) → (contents self.new).grid id ≡ (contents self.old).grid id }
        ensures bounds { IsSomeAnd ((contents self.old).grid grid) (λ g. IsErr result ↔ (IsIn g.domain point.now → ⊥)) }
    {
        let view = self.view(grid);
        let block = view.block();
        match index_of(view, point) {
            Some(i) => {
                self.put(block, i, value);
                Ok(())
            }
            None => Err(FaultKind::Bounds),
        }
    }

    /// The domain of a grid, which must be in no dropped region.
    pub fn domain_of(&self, grid: Id) -> Rect
        requires { IsSome ((contents self.now).grid grid) }
        ensures { option_map (λ g. g.domain) ((contents self.now).grid grid) ≡ Some result }
    {
        self.view(grid).domain()
    }
}
