// The heap, and the operations on cells, views and shares from which its public calls are composed.

ghost use Rattle.std.specs.Prelude.{◌≡◌, ℕ, ◌+◌, ◌<◌, ◌≤◌, nat_lt, true, length, IfOk, OnOk, OnErr, IsSome, Some};
ghost use Rattle.std.specs.Option.{option_map};
ghost use Rattle.ti_heap.specs.Contents.{empty_contents, cost_of, own_id, with_cell_value, with_thing, without_region, cell_at};
ghost use Rattle.ti_heap.specs.Things.{thing_at, live, value_in_cell, layout_in, layout_of, map_of, values_of, contents, share_of, is_named, IsBacked, HaveBlocks, HasBacking};
ghost use Rattle.ti_heap.specs.Things as things;

use crate::allocation::Allocation;
use crate::proc_heap::ProcHeap;
use std::alloc::Global;
use std::marker::Model;
use ti_base::{Id, Memory, Value};
use ti_grid::View;

/// The objects and grids of all processes.
///
/// Contracts see it through `contents`: the value of each cell, the domain of each grid and the cell of each of its points, and for each
/// process what it made and what that costs.
#[derive(Drop)]
pub struct Heap {
    shares: Vec<ProcHeap>,
}

impl Model for Heap {
    ghost use Rattle.std.specs.Prelude.{List};
    ghost use Rattle.ti_heap.specs.declared.allocation.Allocation.{Allocation};
    ghost use Rattle.ti_heap.specs.Things.{thing_at, HaveBlocks};

    ghost Value = { List (List Allocation) };

    ghost view = { λ h. h.shares.items };

    ghost invariant = { λ h. HaveBlocks (thing_at h.shares.items) };
}

impl Heap {
    /// An empty heap for the given number of processes.
    pub fn new(alloc: Global, procs: u32) -> Result<Self, Memory>
        ensures { IfOk result (λ heap. contents heap ≡ empty_contents procs) }
    {
        let mut shares = Vec::new(alloc);
        for _process in 0..procs {
            shares.push(ProcHeap::new(alloc))?;
        }
        Ok(Heap { shares })
    }

    /// The shares of all processes, by process number.
    pub(crate) fn shares(&self) -> &[ProcHeap]
        ensures shares { result.now ≡ self.now }
        ensures sound { HaveBlocks (thing_at self.now) }
    {
        &self.shares
    }

    /// The object or grid with this name, which must be in no dropped region.
    fn thing(&self, id: Id) -> &Allocation
        requires { IsSome (live (thing_at self.now) id) }
        ensures { live (thing_at self.now) id ≡ Some result.now }
    {
        let share = &self.shares()[id.maker as usize];
        share.thing(id.serial)
    }

    /// The value of the cell with `index` of the object or block with this name.
    pub(crate) fn value(&self, id: Id, index: u64) -> Value
        requires { IsSome (value_in_cell (thing_at self.now) (cell_at id index)) }
        ensures { value_in_cell (thing_at self.now) (cell_at id index) ≡ Some result }
    {
        self.thing(id).value(index)
    }

    /// The grid with this name, as a view of a block.
    pub(crate) fn view(&self, grid: Id) -> &View
        requires { IsSome (layout_in (thing_at self.now) grid) }
        ensures layout { layout_in (thing_at self.now) grid ≡ Some result.now }
        ensures backed { IsBacked (thing_at self.now) result.now }
    {
        let _shares = self.shares();
        match self.thing(grid) {
            Allocation::Block { whole, .. } => whole,
            Allocation::ViewOf(view) => view,
            _ => unreachable!(),
        }
    }

    /// How many objects, grids and views `process` has made, dropped ones included.
    pub(crate) fn count(&self, process: u32) -> u64
        requires { process < length self.now }
        ensures { result ≡ length ((contents self.now).made process) }
    {
        let share = &self.shares()[process as usize];
        share.count()
    }

    /// Whether the cost of `process` would exceed the limit if it grew by `cells`.
    pub(crate) fn is_full(&self, process: u32, cells: u64) -> bool
        requires { process < length self.now }
        ensures { result ≡ nat_lt 1048576 (cost_of process (contents self.now) + cells) }
    {
        let share = &self.shares()[process as usize];
        share.is_full(cells)
    }

    /// Writes a value to the cell with `index` of the object or block with this name.
    pub(crate) fn put(&mut self, id: Id, index: u64, value: Value)
        requires { IsSome (value_in_cell (thing_at self.old) (cell_at id index)) }
        ensures { contents self.new ≡ with_cell_value (cell_at id index) value (contents self.old) }
    {
        let share = &mut self.shares[id.maker as usize];
        share.put(id.serial, index, value);
    }

    /// Adds an object, grid or view with this name, which is the next one of its maker. If memory runs out, nothing changes.
    pub(crate) fn push(&mut self, id: Id, thing: Allocation) -> Result<(), Memory>
        requires here { id.maker < length self.old }
        requires next { id.serial ≡ length (share_of self.old id.maker) }
        requires named { is_named id thing ≡ true }
        requires room { cost_of id.maker (contents self.old) + things.allocation_cost thing ≤ 1048576 }
        requires backed { HasBacking (thing_at self.old) id thing }
        ensures ok { OnOk result (contents self.new ≡ with_thing id (values_of thing) (option_map map_of (layout_of thing))
            (contents self.old)) }
        ensures err { OnErr result (self.new ≡ self.old) }
    {
        let share = &mut self.shares[id.maker as usize];
        share.push(thing)
    }

    /// Drops all objects and grids in the region, which isn't 0. What is dropped costs nothing any more.
    pub fn drop_region(&mut self, region: u32)
        requires { 0 < region }
        ensures { contents self.new ≡ without_region region (contents self.old) }
    {
        for i in 0..self.shares.len() {
            let share = &mut self.shares[i];
            share.drop_region(region);
        }
    }
}
