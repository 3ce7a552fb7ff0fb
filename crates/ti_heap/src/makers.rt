// Making objects, grids and views, with the limit on what a process may make.

ghost use Rattle.std.specs.Prelude.{◌≡◌, ℕ, ◌+◌, ◌<◌, IsSome, nat_lt, true, map, replicate, length, [], IfOk, OnErr, IsSomeAnd, Some, None, if◌then◌else◌};
ghost use Rattle.std.specs.Option.{option_map};
ghost use Rattle.std.specs.Result.{result_err};
ghost use Rattle.ti_base.specs.Rects.{IsRect, points_of};
ghost use Rattle.ti_base.specs.Cells.{zero_value, suits, view_fault};
ghost use Rattle.ti_rect.specs.Views.{IsView};
ghost use Rattle.ti_grid.specs.Views.{IsSeen};
ghost use Rattle.ti_heap.specs.Contents.{FaultsAs, new_fault, seen_fault, own_id, view_id, with_thing, whole_map, seen_map, cost_of, cell_at};
ghost use Rattle.ti_heap.specs.Things.{contents};

use crate::allocation::Allocation;
use crate::error::HeapErr;
use crate::heap::Heap;
use crate::values::{Values, zero_of};
use std::alloc::Global;
use ti_base::{FaultKind, Id, Rect, ViewHow, Zero};
use ti_grid::{View, view_of, view_restrict, view_slice, view_translate};
use ti_rect::rect_size;

/// The view of a view. The fault is `Range` or `Bounds`, as `view_fault` states.
fn derive_view(view: &View, how: ViewHow) -> Result<View, FaultKind>
    requires how { IsView how }
    requires suits { suits how view.now.dom ≡ true }
    ensures fault { result_err result ≡ view_fault how view.now.dom }
    ensures view { IfOk result (IsSeen how view.now) }
{
    match how {
        ViewHow::Restrict(r) => Ok(view_restrict(view, &r)),
        ViewHow::Translate(by) => view_translate(view, &by),
        ViewHow::Slice(k, j) => view_slice(view, k, j),
    }
}

impl Heap {
    /// The name of the next object or grid that `process` makes in its own memory.
    fn next_id(&self, process: u32, region: u32) -> Id
        requires proc { process < (contents self.now).procs }
        requires serial { length ((contents self.now).made process) < 4294967295 }
        ensures { result ≡ own_id process region (contents self.now) }
    {
        Id {
            maker: process,
            serial: self.count(process) as u32,
            owner: process,
            region,
        }
    }

    /// The number of elements of a grid over the domain, or None if the cost of `process` would exceed the limit.
    fn room_for(&self, process: u32, dom: &Rect) -> Option<u64>
        requires proc { process < (contents self.now).procs }
        requires form { IsRect dom.now }
        ensures { result ≡ (if nat_lt 1048576 (cost_of process (contents self.now) + (1 + length (points_of dom.now))) then None else Some
            (length (points_of dom.now))) }
    {
        match rect_size(dom) {
            Ok(count) => {
                let count = count as u64;
                if self.is_full(process, 1 + count) {
                    None
                } else {
                    Some(count)
                }
            }
            Err(_) => None,
        }
    }

    /// Makes an object of `process` in a region (0 for none), its fields zero. It costs 1, and 1 for each field; the fault is
    /// `HeapFull`, exactly if the cost of `process` would exceed 1,048,576. The process must have made fewer than 2^32 - 1 objects, grids
    /// and views. On an error nothing changes.
    pub fn new_obj(
        &mut self,
        alloc: Global,
        process: u32,
        zeros: &[Zero],
        region: u32,
    ) -> Result<Id, HeapErr>
        requires proc { process < (contents self.old).procs }
        requires serial { length ((contents self.old).made process) < 4294967295 }
        ensures fault { FaultsAs (new_fault process (length zeros.now) (contents self.old)) result }
        ensures id { IfOk result (λ id. id ≡ own_id process region (contents self.old)) }
        ensures made { IfOk result (λ id. contents self.new ≡ with_thing id (map zero_value zeros.now) None (contents self.old)) }
        ensures there { IfOk result (λ id. (field : ℕ) → field < length zeros.now → IsSome ((contents self.new).held (cell_at id field))) }
        ensures err { OnErr result (self.new ≡ self.old) }
    {
        if self.is_full(process, 1 + zeros.len() as u64) {
            return Err(HeapErr::Faulted(FaultKind::HeapFull));
        }
        let fields = Values::of(alloc, zeros)?;
        let id = self.next_id(process, region);
        self.push(id, Allocation::Object { region, fields })?;
        Ok(id)
    }

    /// Makes a grid of `process` over a domain in a region (0 for none), its elements zero. It costs 1, and 1 for each element; the
    /// fault is `HeapFull`, exactly if the cost of `process` would exceed 1,048,576. The process must have made fewer than 2^32 - 1
    /// objects, grids and views. On an error nothing changes.
    pub fn new_grid(
        &mut self,
        alloc: Global,
        process: u32,
        zero: Zero,
        dom: &Rect,
        region: u32,
    ) -> Result<Id, HeapErr>
        requires proc { process < (contents self.old).procs }
        requires serial { length ((contents self.old).made process) < 4294967295 }
        requires form { IsRect dom.now }
        ensures fault { FaultsAs (new_fault process (length (points_of dom.now)) (contents self.old)) result }
        ensures id { IfOk result (λ id. id ≡ own_id process region (contents self.old)) }
        ensures made { IfOk result (λ id. contents self.new ≡ with_thing id (replicate (length (points_of dom.now)) (zero_value zero))
            (Some (whole_map id dom.now)) (contents self.old)) }
        ensures there { IfOk result (λ id. (contents self.new).grid id ≡ Some (whole_map id dom.now)) }
        ensures err { OnErr result (self.new ≡ self.old) }
    {
        let count = match self.room_for(process, dom) {
            Some(count) => count,
            None => return Err(HeapErr::Faulted(FaultKind::HeapFull)),
        };
        let elements = Values::filled(alloc, zero_of(zero), count)?;
        let id = self.next_id(process, region);
        let whole = view_of(id, dom);
        self.push(id, Allocation::Block { whole, elements })?;
        Ok(id)
    }

    /// Makes a view of a grid for `process`. It shares the grid's cells, is in the grid's region, and costs 1. The fault is that of the
    /// view, `Range` or `Bounds`; if there is none, it is `HeapFull`, exactly if the cost of `process` would exceed 1,048,576. The grid
    /// must be in no dropped region, the rectangle or point must have its dimension, a sliced grid must have at least two dimensions, and
    /// the process must have made fewer than 2^32 - 1 objects, grids and views. On an error nothing changes.
    pub fn make_view(&mut self, process: u32, grid: Id, how: ViewHow) -> Result<Id, HeapErr>
        requires proc { process < (contents self.old).procs }
        requires serial { length ((contents self.old).made process) < 4294967295 }
        requires how { IsView how }
        requires grid { IsSomeAnd ((contents self.old).grid grid) (λ g. suits how g.domain ≡ true) }
        ensures fault { IsSomeAnd ((contents self.old).grid grid) (λ g. FaultsAs (seen_fault process how g (contents self.old)) result) }
        ensures id { IfOk result (λ id. id ≡ view_id process grid (contents self.old)) }
        ensures made { IfOk result (λ id. contents self.new ≡ with_thing id [] (option_map (seen_map how) ((contents self.old).grid grid))
            (contents self.old)) }
        ensures there { IfOk result (λ id. (contents self.new).grid id ≡ option_map (seen_map how) ((contents self.old).grid grid)) }
        ensures kept { (contents self.new).grid grid ≡ (contents self.old).grid grid }
        ensures err { OnErr result (self.new ≡ self.old) }
    {
        let view = match derive_view(self.view(grid), how) {
            Ok(view) => view,
            Err(kind) => return Err(HeapErr::Faulted(kind)),
        };
        if self.is_full(process, 1) {
            return Err(HeapErr::Faulted(FaultKind::HeapFull));
        }
        let id = Id {
            owner: grid.owner,
            ..self.next_id(process, grid.region)
        };
        self.push(id, Allocation::ViewOf(view))?;
        Ok(id)
    }
}
