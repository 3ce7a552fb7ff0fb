// A heap object: an object, a block of elements or a view.

ghost use Rattle.std.specs.Prelude.{◌≡◌, ◌+◌, ◌<◌, length, slice_get, Some, if◌then◌else◌, ◌==◌, []};
ghost use Rattle.ti_heap.specs.Things.{values_of, allocation_region, allocation_cost, put_in, drop_if_in, values_in};

use crate::values::Values;
use ti_base::Value;
use ti_grid::View;

/// A heap object that a process made.
#[derive(Drop)]
pub enum Allocation {
    /// An object in a region, with its fields.
    Object { region: u32, fields: Values },
    /// A block: the elements of a grid in row-major order, and the grid as the view of the whole block.
    Block { whole: View, elements: Values },
    /// A view of a block.
    ViewOf(View),
    /// What was in a dropped region.
    Gone,
}

impl Allocation {
    /// The region that it is in; 0 if it is in none or was dropped.
    pub fn region(&self) -> u32
        ensures { result ≡ allocation_region self.now }
    {
        match self {
            Allocation::Object { region, .. } => *region,
            Allocation::Block { whole, .. } => whole.block().region,
            Allocation::ViewOf(view) => view.block().region,
            Allocation::Gone => 0,
        }
    }

    /// Its cost: 1, and 1 for each cell; what was dropped costs nothing.
    pub fn cost(&self) -> u64
        ensures { result ≡ allocation_cost self.now }
    {
        match self {
            Allocation::Object { fields, .. } => 1 + fields.count(),
            Allocation::Block { elements, .. } => 1 + elements.count(),
            Allocation::ViewOf(_) => 1,
            Allocation::Gone => 0,
        }
    }

    /// The value of its cell with this index.
    pub fn value(&self, index: u64) -> Value
        requires { index < length (values_of self.now) }
        ensures { slice_get (values_of self.now) index ≡ Some result }
    {
        match self {
            Allocation::Object { fields, .. } => fields.get(index),
            Allocation::Block { elements, .. } => elements.get(index),
            _ => unreachable!(),
        }
    }

    /// Writes a value to its cell with this index.
    pub fn put(&mut self, index: u64, value: Value)
        requires { index < length (values_of self.old) }
        ensures { self.new ≡ put_in index value self.old }
    {
        match self {
            Allocation::Object { fields, .. } => fields.put(index, value),
            Allocation::Block { elements, .. } => elements.put(index, value),
            _ => unreachable!(),
        }
    }

    /// Drops it if it is in the region. The result is what it cost, or 0 if it isn't in the region.
    pub fn drop_from(&mut self, region: u32) -> u64
        ensures thing { self.new ≡ drop_if_in region self.old }
        ensures freed { result + allocation_cost self.new ≡ allocation_cost self.old }
    {
        if self.region() != region {
            return 0;
        }
        let cost = self.cost();
        *self = Allocation::Gone;
        cost
    }

    /// The values of its cells if it is in the region, otherwise none.
    pub fn values_in(&self, region: u32) -> &[Value]
        ensures { result.now ≡ values_in region self.now }
    {
        if self.region() != region {
            return &[];
        }
        match self {
            Allocation::Object { fields, .. } => fields.as_slice(),
            Allocation::Block { elements, .. } => elements.as_slice(),
            _ => &[],
        }
    }
}
