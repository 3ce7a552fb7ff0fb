// What one process made, with its cost.

ghost use Rattle.std.specs.Prelude.{◌≡◌, ◌+◌, ◌<◌, ◌≤◌, nat_lt, [], ◌∷◌, ◌++◌, map, length, slice_get, Some, OnOk, OnErr, IsSomeAnd};
ghost use Rattle.ti_heap.specs.Places.{places_in_region};
ghost use Rattle.ti_heap.specs.Things.{values_of, allocation_cost, total_cost, put_in, drop_if_in, changed_at};

use crate::allocation::Allocation;
use crate::region_index::RegionIndex;
use std::alloc::Global;
use std::marker::Model;
use ti_base::{Memory, Value};

/// The maximal cost of what a process made: 1 for each object, grid and view, and 1 for each cell.
pub const LIMIT: u64 = 1_048_576;

/// The objects, grids and views that one process made, in the order of making (the index is the serial number), and their total cost.
#[derive(Drop)]
pub struct ProcHeap {
    things: Vec<Allocation>,
    // The total cost of `things`.
    cost: u64,
    // The serial numbers of what is in each region.
    index: RegionIndex,
}

impl Model for ProcHeap {
    ghost use Rattle.std.specs.Prelude.{List};
    ghost use Rattle.ti_heap.specs.declared.allocation.Allocation.{Allocation};
    ghost use Rattle.ti_heap.specs.Places.{IsShare};

    ghost Value = { List Allocation };

    ghost view = { λ s. s.things.items };

    ghost invariant = { λ s. IsShare s.cost s.index s.things.items };
}

/// Drops what is in the region, which isn't 0, where the places of all that is in it are given. The result is what it cost.
fn drop_all(things: &mut [Allocation], region: u32, places: &[u32]) -> u64
    requires region { 0 < region }
    requires places { places.now ≡ places_in_region region things.old }
    requires few { total_cost things.old ≤ 1048576 }
    ensures things { things.new ≡ map (drop_if_in region) things.old }
    ensures freed { result + total_cost things.new ≡ total_cost things.old }
{
    let mut freed = 0;
    for place in places {
        let thing = &mut things[*place as usize];
        freed += thing.drop_from(region);
    }
    freed
}

impl ProcHeap {
    /// An empty share.
    pub fn new(alloc: Global) -> Self
        ensures { result ≡ [] }
    {
        ProcHeap {
            things: Vec::new(alloc),
            cost: 0,
            index: RegionIndex::new(alloc),
        }
    }

    /// How many objects, grids and views were made, dropped ones included.
    pub fn count(&self) -> u64
        ensures { result ≡ length self.now }
    {
        self.things.len() as u64
    }

    /// Whether the cost would exceed the limit if it grew by `cells`.
    pub fn is_full(&self, cells: u64) -> bool
        ensures { result ≡ nat_lt 1048576 (total_cost self.now + cells) }
    {
        LIMIT - self.cost < cells
    }

    /// All objects, grids and views, by serial number.
    pub fn things(&self) -> &[Allocation]
        ensures { result.now ≡ self.now }
    {
        &self.things
    }

    /// The object, grid or view with this serial number.
    pub fn thing(&self, serial: u32) -> &Allocation
        requires { serial < length self.now }
        ensures { slice_get self.now serial ≡ Some result.now }
    {
        &self.things[serial as usize]
    }

    /// The serial numbers of what is in the region, which isn't 0, in the order of making.
    pub fn places_in(&self, region: u32) -> &[u32]
        requires { 0 < region }
        ensures { result.now ≡ places_in_region region self.now }
    {
        let _things = &self.things;
        self.index.of(region)
    }

    /// Adds an object, grid or view. If memory runs out, nothing changes. Its cost must not exceed the limit.
    pub fn push(&mut self, thing: Allocation) -> Result<(), Memory>
        requires room { total_cost self.old + allocation_cost thing ≤ 1048576 }
        requires serial { length self.old < 4294967296 }
        ensures ok { OnOk result (self.new ≡ self.old ++ thing ∷ []) }
        ensures err { OnErr result (self.new ≡ self.old) }
    {
        let cost = thing.cost();
        let region = thing.region();
        let serial = self.things.len() as u32;
        self.things.push(thing)?;
        if let Err(memory) = self.index.add(region, serial) {
            self.things.pop();
            return Err(memory);
        }
        self.cost += cost;
        Ok(())
    }

    /// Writes a value to the cell with `index` of the object or block with this serial number.
    pub fn put(&mut self, serial: u32, index: u64, value: Value)
        requires { IsSomeAnd (slice_get self.old serial) (λ thing. index < length (values_of thing)) }
        ensures { self.new ≡ changed_at serial (put_in index value) self.old }
    {
        let thing = &mut self.things[serial as usize];
        thing.put(index, value);
    }

    /// Drops what is in the region, which isn't 0, and takes back its cost.
    pub fn drop_region(&mut self, region: u32)
        requires { 0 < region }
        ensures { self.new ≡ map (drop_if_in region) self.old }
    {
        match self.index.take(region) {
            Some(places) => {
                let freed = drop_all(&mut self.things, region, &places);
                self.cost -= freed;
            }
            None => {}
        }
    }
}
