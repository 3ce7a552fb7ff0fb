// Reading entries back from the columns.

ghost use Rattle.std.specs.Prelude.{◌≡◌};
ghost use Rattle.ti_history.specs.Mirrors.Held.{lists_left};
ghost use Rattle.ti_history.specs.Mirrors.Reading.{no_id, coordinate, value_from, point_from, event_of, entry_of, without_first, behind};

use crate::counts::Counts;
use crate::head::{Form, Head, PointForm, ValueForm};
use crate::slices::{first_or, skipped};
use ti_base::{Action, Answer, Entry, Id, Point, Value};

/// What is left of the columns.
#[derive(Clone, Copy)]
pub struct Rest<'a> {
    pub things: &'a [Id],
    pub fields: &'a [u32],
    pub integers: &'a [i32],
    pub longs: &'a [i64],
    pub values: &'a [Value],
    pub whole: &'a [Entry],
}

/// Stands for an object or a grid where there is none.
fn absent_id() -> Id
    ensures { result ≡ no_id }
{
    Id {
        maker: 0,
        serial: 0,
        owner: 0,
        region: 0,
    }
}

/// The point with one to three coordinates from a column.
fn point_at(form: PointForm, integers: &[i32], values: &[Value]) -> Point
    ensures { result ≡ point_from form integers.now values.now }
{
    let mut point = Point {
        dim: 0,
        x1: 0,
        x2: 0,
        x3: 0,
    };
    match form {
        PointForm::Absent => {}
        PointForm::One => {
            point.dim = 1;
            point.x1 = coordinate_at(integers, 0);
        }
        PointForm::Two => {
            point.dim = 2;
            point.x1 = coordinate_at(integers, 0);
            point.x2 = coordinate_at(integers, 1);
        }
        PointForm::Three => {
            point.dim = 3;
            point.x1 = coordinate_at(integers, 0);
            point.x2 = coordinate_at(integers, 1);
            point.x3 = coordinate_at(integers, 2);
        }
        PointForm::Other => {
            if let Value::Pt(at) = first_or(values, Value::Int(0)) {
                point = at;
            }
        }
    }
    point
}

impl<'a> Rest<'a> {
    /// The columns without their first elements.
    fn skip(&self, counts: &Counts) -> Rest<'a>
        ensures { lists_left result ≡ without_first counts.now (lists_left self.now) }
    {
        Rest {
            things: skipped(self.things, counts.things),
            fields: skipped(self.fields, counts.fields),
            integers: skipped(self.integers, counts.integers),
            longs: skipped(self.longs, counts.longs),
            values: skipped(self.values, counts.values),
            whole: skipped(self.whole, counts.whole),
        }
    }

    /// The columns behind the entry with this head.
    pub fn behind(&self, head: &Head) -> Rest<'a>
        ensures { lists_left result ≡ behind head.now (lists_left self.now) }
    {
        self.skip(&Counts::of_cell(head.form, head.point))
            .skip(&Counts::of_value(head.value))
    }

    /// The value at the beginning of the columns.
    fn value(&self, form: ValueForm) -> Value
        ensures { result ≡ value_from form (lists_left self.now) }
    {
        match form {
            ValueForm::Absent => Value::Int(0),
            ValueForm::Int => Value::Int(first_or(self.integers, 0)),
            ValueForm::Long => Value::Long(first_or(self.longs, 0)),
            ValueForm::False => Value::Bool(false),
            ValueForm::True => Value::Bool(true),
            ValueForm::NullObject => Value::Obj(None),
            ValueForm::Object => Value::Obj(Some(first_or(self.things, absent_id()))),
            ValueForm::NullGrid => Value::Grid(None),
            ValueForm::Grid => Value::Grid(Some(first_or(self.things, absent_id()))),
            ValueForm::Other => first_or(self.values, Value::Int(0)),
        }
    }

    /// The entry with this head, which is at the beginning of the columns.
    pub fn entry(&self, head: &Head) -> Entry
        ensures { result ≡ entry_of head.now (lists_left self.now) }
    {
        let thing = first_or(self.things, absent_id());
        let value = self
            .skip(&Counts::of_cell(head.form, head.point))
            .value(head.value);
        match head.form {
            Form::Whole => first_or(self.whole, event(head, Action::Depart, Answer::Done)),
            Form::GetField => {
                let field = first_or(self.fields, 0);
                let act = Action::GetField { obj: thing, field };
                event(head, act, Answer::Val(value))
            }
            Form::PutField => {
                let field = first_or(self.fields, 0);
                let act = Action::PutField {
                    obj: thing,
                    field,
                    value,
                };
                event(head, act, Answer::Done)
            }
            Form::GetElem => {
                let at = point_at(head.point, self.integers, self.values);
                let act = Action::GetElem { grid: thing, at };
                event(head, act, Answer::Val(value))
            }
            Form::PutElem => {
                let at = point_at(head.point, self.integers, self.values);
                let act = Action::PutElem {
                    grid: thing,
                    at,
                    value,
                };
                event(head, act, Answer::Done)
            }
        }
    }
}

/// The entry of the head's process and source position.
fn event(head: &Head, act: Action, answer: Answer) -> Entry
    ensures { result ≡ event_of head.now act answer }
{
    Entry {
        proc: head.proc,
        place: head.place,
        act,
        answer,
    }
}

fn coordinate_at(integers: &[i32], index: usize) -> i32
    ensures { result ≡ coordinate integers.now index }
{
    match integers.get(index) {
        Some(x) => *x,
        None => 0,
    }
}
