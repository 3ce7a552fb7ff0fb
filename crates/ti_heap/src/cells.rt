// Iteration over the values of all cells in a region, as the delete of a region needs it to take back references.

ghost use Rattle.std.specs.Prelude.{◌≡◌, ◌+◌, ◌≤◌, [], ◌∷◌, ◌++◌, length};
ghost use Rattle.std.specs.List.{flat_map};
ghost use Rattle.std.specs.Iterator.{YieldsFirst, item_count};
ghost use Rattle.ti_heap.specs.Contents.{ListsCells};
ghost use Rattle.ti_heap.specs.Things.{values_in, values_at, all_values_in, contents};

use crate::allocation::Allocation;
use crate::heap::Heap;
use crate::proc_heap::ProcHeap;
use std::marker::Model;
use ti_base::Value;

/// An iterator over the values of the cells in a region. Contracts see the values that are still to come.
#[derive(Drop)]
pub struct Cells<'a> {
    region: u32,
    // What is left of the current object's or block's values.
    values: &'a [Value],
    // What the current share's process made, and the serial numbers that are left of what is in the region.
    things: &'a [Allocation],
    places: &'a [u32],
    // What is left of the current share, if the region is 0, which has no list of its own.
    rest: &'a [Allocation],
    // The shares after the current one.
    shares: &'a [ProcHeap],
}

impl<'a> Model for Cells<'a> {
    ghost use Rattle.std.specs.Prelude.{List};
    ghost use Rattle.ti_base.specs.declared.value.Value.{Value as Held};
    ghost use Rattle.ti_heap.specs.Things.{values_left};

    ghost Value = { List Held };

    ghost view = { λ c. values_left c.region c.values.now c.places.now c.things.now c.rest.now
        c.shares.now };
}

/// The values of the cells of the object or block at this place, if it is in the region.
fn values_at(things: &[Allocation], place: u32, region: u32) -> &[Value]
    ensures { result.now ≡ values_at region things.now place }
{
    match things.get(place as usize) {
        Some(thing) => thing.values_in(region),
        None => &[],
    }
}

/// What is in the region among what a process made: the serial numbers, if the region isn't 0, and otherwise all that it made.
fn places_and_rest(share: &ProcHeap, region: u32) -> (&[u32], &[Allocation])
    ensures few { length result.0.now + length result.1.now ≤ length share.now }
    ensures values { flat_map (values_at region share.now) result.0.now
        ++ flat_map (values_in region) result.1.now ≡ flat_map (values_in region) share.now }
{
    if region == 0 {
        return (&[], share.things());
    }
    (share.places_in(region), &[])
}

impl<'a> Iterator for Cells<'a> {
    type Item = Value;

    ghost next_gives = { YieldsFirst (λ values. values) };

    ghost remaining = { item_count (λ values. values) };

    fn next(&mut self) -> Option<Value> {
        while self.values.is_empty() {
            if let Some((place, others)) = self.places.split_first() {
                self.places = others;
                self.values = values_at(self.things, *place, self.region);
            } else if let Some((thing, others)) = self.rest.split_first() {
                self.rest = others;
                self.values = thing.values_in(self.region);
            } else {
                let (share, others) = self.shares.split_first()?;
                let (places, rest) = places_and_rest(share, self.region);
                self.shares = others;
                self.things = share.things();
                self.places = places;
                self.rest = rest;
            }
        }
        let (value, others) = self.values.split_first()?;
        self.values = others;
        Some(*value)
    }
}

impl Heap {
    /// The values of the cells of all objects and grids in the region, each cell once: first by the process that made the object or grid,
    /// then in the order of making.
    pub fn cells_of(&self, region: u32) -> Cells<'_>
        ensures values { result ≡ all_values_in region self.now }
        ensures cells { ListsCells (contents self.now) region result }
    {
        Cells {
            region,
            values: &[],
            things: &[],
            places: &[],
            rest: &[],
            shares: self.shares(),
        }
    }
}
