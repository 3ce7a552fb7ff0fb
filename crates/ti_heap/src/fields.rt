// Reading and writing fields of objects.

ghost use Rattle.std.specs.Prelude.{◌≡◌, IsSome, Some};
ghost use Rattle.ti_heap.specs.Contents.{cell_at, with_cell_value};
ghost use Rattle.ti_heap.specs.Things.{contents};

use crate::heap::Heap;
use ti_base::{Id, Value};

impl Heap {
    /// The value of a field of an object. The object must be in no dropped region and have the field.
    pub fn get_field(&self, obj: Id, field: u32) -> Value
        requires { IsSome ((contents self.now).held (cell_at obj field)) }
        ensures { (contents self.now).held (cell_at obj field) ≡ Some result }
    {
        self.value(obj, u64::from(field))
    }

    /// Writes a field of an object; nothing else changes. The object must be in no dropped region and have the field.
    pub fn put_field(&mut self, obj: Id, field: u32, value: Value)
        requires { IsSome ((contents self.old).held (cell_at obj field)) }
        ensures { contents self.new ≡ with_cell_value (cell_at obj field) value (contents self.old) }
    {
        self.put(obj, u64::from(field), value);
    }
}
