// The values of the cells of one object or block.

ghost use Rattle.std.specs.Prelude.{◌≡◌, ◌<◌, ◌≤◌, map, replicate, length, slice_get, slice_set, Some, IfOk};
ghost use Rattle.ti_base.specs.Rects.{empty_rect};
ghost use Rattle.ti_base.specs.Cells.{zero_value};

use std::alloc::Global;
use std::marker::Model;
use ti_base::{Memory, Point, Rect, Value, Zero};

/// The values of the fields of an object or of the elements of a block, in their order: at most 1,048,576.
#[derive(Drop)]
pub struct Values {
    items: Vec<Value>,
}

impl Model for Values {
    ghost use Rattle.std.specs.Prelude.{◌≤◌, List, length};
    ghost use Rattle.ti_base.specs.declared.value.Value.{Value as Held};

    ghost Value = { List Held };

    ghost view = { λ v. v.items.items };

    ghost invariant = { λ v. length v.items.items ≤ 1048576 };
}

/// The rectangular domain without points, of the given number of dimensions, in its canonical form.
fn empty(dim: u8) -> Rect
    ensures { result ≡ empty_rect dim }
{
    Rect {
        dim,
        lo: Point {
            dim,
            x1: 1,
            x2: if dim >= 2 { 1 } else { 0 },
            x3: if dim >= 3 { 1 } else { 0 },
        },
        hi: Point {
            dim,
            x1: 0,
            x2: 0,
            x3: 0,
        },
        step: [1, 1, 1],
    }
}

/// The initial value of a cell of this kind.
pub fn zero_of(zero: Zero) -> Value
    ensures { result ≡ zero_value zero }
{
    match zero {
        Zero::Int => Value::Int(0),
        Zero::Long => Value::Long(0),
        Zero::Bool => Value::Bool(false),
        Zero::Pt(dim) => Value::Pt(Point {
            dim,
            x1: 0,
            x2: 0,
            x3: 0,
        }),
        Zero::Rc(dim) => Value::Rc(empty(dim)),
        Zero::Obj => Value::Obj(None),
        Zero::Grid => Value::Grid(None),
    }
}

impl Values {
    /// `count` copies of the value.
    pub fn filled(alloc: Global, value: Value, count: u64) -> Result<Self, Memory>
        requires { count ≤ 1048576 }
        ensures { IfOk result (λ values. values ≡ replicate count value) }
    {
        let count = count as usize;
        let mut items = Vec::with_capacity(alloc, count)?;
        for _i in 0..count {
            items.push(value)?;
        }
        Ok(Values { items })
    }

    /// The initial values of cells of these kinds.
    pub fn of(alloc: Global, zeros: &[Zero]) -> Result<Self, Memory>
        requires { length zeros.now ≤ 1048576 }
        ensures { IfOk result (λ values. values ≡ map zero_value zeros.now) }
    {
        let mut items = Vec::with_capacity(alloc, zeros.len())?;
        for zero in zeros {
            items.push(zero_of(*zero))?;
        }
        Ok(Values { items })
    }

    /// The number of values.
    pub fn count(&self) -> u64
        ensures value { result ≡ length self.now }
        ensures few { result ≤ 1048576 }
    {
        self.items.len() as u64
    }

    /// The value with this index.
    pub fn get(&self, index: u64) -> Value
        requires { index < length self.now }
        ensures { slice_get self.now index ≡ Some result }
    {
        self.items[index as usize]
    }

    /// Replaces the value with this index.
    pub fn put(&mut self, index: u64, value: Value)
        requires { index < length self.old }
        ensures { self.new ≡ slice_set self.old index value }
    {
        self.items[index as usize] = value;
    }

    /// The values as a slice.
    pub fn as_slice(&self) -> &[Value]
        ensures { result.now ≡ self.now }
    {
        &self.items
    }
}
