// A region, and which region a value refers into.
ghost use Rattle.std.specs.Prelude.{◌≡◌};
ghost use Rattle.ti_base.specs.Cells.{named_by};
ghost use Rattle.ti_region.specs.Counting.{counted_for};

use ti_base::{Id, Value};

/// A shared region that was made.
#[derive(Clone, Copy)]
pub struct Region {
    /// Whether it isn't deleted.
    pub is_live: bool,
    /// How many cells outside it name an object or grid in it.
    pub count: u64,
}

// The object or grid that a value names, if it names one.
fn thing_of(value: Value) -> Option<Id>
    ensures { result ≡ named_by value }
{
    match value {
        Value::Obj(id) => id,
        Value::Grid(id) => id,
        Value::Int(_) => None,
        Value::Long(_) => None,
        Value::Bool(_) => None,
        Value::Pt(_) => None,
        Value::Rc(_) => None,
        Value::Region(_) => None,
    }
}

/// The region whose count a value in a cell of region `cell_region` increases: that of the object or grid that it names, unless this is
/// in no region (0) or in the cell's own.
pub fn region_counted(cell_region: u32, value: Value) -> Option<u32>
    ensures { result ≡ counted_for cell_region value }
{
    match thing_of(value) {
        Some(id) => {
            if id.region == 0 || id.region == cell_region {
                return None;
            }
            Some(id.region)
        }
        None => None,
    }
}
