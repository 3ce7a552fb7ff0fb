// The columns: what is kept of entries besides their heads, by type.

ghost use Rattle.std.specs.Prelude.{◌≡◌, ◌+◌, ◌≤◌, ◌++◌, ◌∷◌, [], vec_len, vec_capacity, OnOk, true};
ghost use Rattle.ti_history.specs.Mirrors.Held.{lists_in, lists_left, Fits, FitsValue, FitsEntry};
ghost use Rattle.ti_history.specs.Mirrors.Packing.{joined, no_lists, coordinates_in, point_value_in, lists_of_value, lists_of_field, lists_of_elem, lists_of};
ghost use Rattle.ti_history.specs.Mirrors.Reading.{lengths, firsts, without_first};

use crate::counts::Counts;
use crate::head::{PointForm, form_of_point};
use crate::reading::Rest;
use crate::slices::skipped;
use std::alloc::Global;
use ti_base::{Action, Answer, Entry, Id, Memory, Point, Value};

/// What is kept of entries besides their heads, by type.
#[derive(Drop)]
pub struct Columns {
    /// The objects and grids of the operations, and those that values refer to.
    pub things: Vec<Id>,
    /// The fields.
    pub fields: Vec<u32>,
    /// The coordinates of points, and the values of type `int`.
    pub integers: Vec<i32>,
    /// The values of type `long`.
    pub longs: Vec<i64>,
    /// All other values.
    pub values: Vec<Value>,
    /// The entries that are kept whole.
    pub whole: Vec<Entry>,
}

/// Appends the coordinates by which a point is kept. There has to be capacity for three.
fn append_coordinates(integers: &mut Vec<i32>, form: PointForm, at: &Point)
    requires { Fits integers.old 3 }
    ensures items { integers.new.items ≡ integers.old.items ++ coordinates_in form at.now }
    ensures len { vec_len integers.new ≤ vec_len integers.old + 3 }
    ensures capacity { vec_capacity integers.new ≡ vec_capacity integers.old }
{
    match form {
        PointForm::Absent => {}
        PointForm::One => integers.push_reserved(at.x1),
        PointForm::Two => {
            integers.push_reserved(at.x1);
            integers.push_reserved(at.x2);
        }
        PointForm::Three => {
            integers.push_reserved(at.x1);
            integers.push_reserved(at.x2);
            integers.push_reserved(at.x3);
        }
        PointForm::Other => {}
    }
}

/// Appends a point as a value, if it isn't kept by its coordinates. There has to be capacity for it.
fn append_point(values: &mut Vec<Value>, form: PointForm, at: &Point)
    requires { Fits values.old 1 }
    ensures items { values.new.items ≡ values.old.items ++ point_value_in form at.now }
    ensures len { vec_len values.new ≤ vec_len values.old + 1 }
    ensures capacity { vec_capacity values.new ≡ vec_capacity values.old }
{
    match form {
        PointForm::Absent | PointForm::One | PointForm::Two | PointForm::Three => {}
        PointForm::Other => values.push_reserved(Value::Pt(*at)),
    }
}

impl Columns {
    /// Columns with nothing in them.
    pub fn new(alloc: Global) -> Columns
        ensures { lists_in result ≡ no_lists }
    {
        Columns {
            things: Vec::new(alloc),
            fields: Vec::new(alloc),
            integers: Vec::new(alloc),
            longs: Vec::new(alloc),
            values: Vec::new(alloc),
            whole: Vec::new(alloc),
        }
    }

    /// Reserves capacity for one more entry of any kind.
    pub fn reserve(&mut self) -> Result<(), Memory>
        ensures lists { lists_in self.new ≡ lists_in self.old }
        ensures room { OnOk result (FitsEntry self.new) }
    {
        self.things.reserve(2)?;
        self.fields.reserve(1)?;
        self.integers.reserve(4)?;
        self.longs.reserve(1)?;
        self.values.reserve(2)?;
        self.whole.reserve(1)?;
        Ok(())
    }

    /// Appends a value. There has to be capacity for it.
    fn append_value(&mut self, value: &Value)
        requires { FitsValue self.old }
        ensures { lists_in self.new ≡ joined (lists_in self.old) (lists_of_value value.now) }
    {
        match value {
            Value::Int(x) => self.integers.push_reserved(*x),
            Value::Long(x) => self.longs.push_reserved(*x),
            Value::Bool(_) => {}
            Value::Pt(_) => self.values.push_reserved(*value),
            Value::Rc(_) => self.values.push_reserved(*value),
            Value::Obj(Some(id)) => self.things.push_reserved(*id),
            Value::Obj(None) => {}
            Value::Grid(Some(id)) => self.things.push_reserved(*id),
            Value::Grid(None) => {}
            Value::Region(_) => self.values.push_reserved(*value),
        }
    }

    /// Appends a field of an object. There has to be capacity for an entry; then there is capacity for a value.
    fn append_field(&mut self, obj: &Id, field: u32)
        requires { FitsEntry self.old }
        ensures lists { lists_in self.new ≡ joined (lists_in self.old) (lists_of_field obj.now field) }
        ensures room { FitsValue self.new }
    {
        self.things.push_reserved(*obj);
        self.fields.push_reserved(field);
    }

    /// Appends an element of a grid. There has to be capacity for an entry; then there is capacity for a value.
    fn append_elem(&mut self, grid: &Id, at: &Point)
        requires { FitsEntry self.old }
        ensures lists { lists_in self.new ≡ joined (lists_in self.old) (lists_of_elem grid.now at.now) }
        ensures room { FitsValue self.new }
    {
        let form = form_of_point(at);
        self.things.push_reserved(*grid);
        append_coordinates(&mut self.integers, form, at);
        append_point(&mut self.values, form, at);
    }

    /// Appends what is kept of an entry besides its head. There has to be capacity for it.
    pub fn append(&mut self, entry: &Entry)
        requires { FitsEntry self.old }
        ensures { lists_in self.new ≡ joined (lists_in self.old) (lists_of entry.now) }
    {
        match (&entry.act, &entry.answer) {
            (Action::GetField { obj, field }, Answer::Val(value)) => {
                self.append_field(obj, *field);
                self.append_value(value);
            }
            (Action::PutField { obj, field, value }, Answer::Done) => {
                self.append_field(obj, *field);
                self.append_value(value);
            }
            (Action::GetElem { grid, at }, Answer::Val(value)) => {
                self.append_elem(grid, at);
                self.append_value(value);
            }
            (Action::PutElem { grid, at, value }, Answer::Done) => {
                self.append_elem(grid, at);
                self.append_value(value);
            }
            _ => self.whole.push_reserved(*entry),
        }
    }

    /// How much each column has.
    pub fn lengths(&self) -> Counts
        ensures { result ≡ lengths (lists_in self.now) }
    {
        Counts {
            things: self.things.len(),
            fields: self.fields.len(),
            integers: self.integers.len(),
            longs: self.longs.len(),
            values: self.values.len(),
            whole: self.whole.len(),
        }
    }

    /// What the columns have behind so much of each.
    pub fn rest(&self, counts: &Counts) -> Rest<'_>
        ensures { lists_left result ≡ without_first counts.now (lists_in self.now) }
    {
        Rest {
            things: skipped(&self.things, counts.things),
            fields: skipped(&self.fields, counts.fields),
            integers: skipped(&self.integers, counts.integers),
            longs: skipped(&self.longs, counts.longs),
            values: skipped(&self.values, counts.values),
            whole: skipped(&self.whole, counts.whole),
        }
    }

    /// All that the columns have.
    pub fn all(&self) -> Rest<'_>
        ensures { lists_left result ≡ lists_in self.now }
    {
        Rest {
            things: &self.things,
            fields: &self.fields,
            integers: &self.integers,
            longs: &self.longs,
            values: &self.values,
            whole: &self.whole,
        }
    }

    /// Keeps so much of each column.
    pub fn truncate(&mut self, counts: &Counts)
        ensures { lists_in self.new ≡ firsts counts.now (lists_in self.old) }
    {
        self.things.truncate(counts.things);
        self.fields.truncate(counts.fields);
        self.integers.truncate(counts.integers);
        self.longs.truncate(counts.longs);
        self.values.truncate(counts.values);
        self.whole.truncate(counts.whole);
    }
}
