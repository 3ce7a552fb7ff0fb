// How much of each column an entry takes.

ghost use Rattle.std.specs.Prelude.{◌≡◌, ◌≤◌};
ghost use Rattle.ti_history.specs.Mirrors.Reading.{coordinates, point_values, cell_counts, value_counts, no_counts, less, without_entry, without_entries};

use crate::head::{Form, Head, PointForm, ValueForm};

/// A number for each column.
#[derive(Clone, Copy)]
pub struct Counts {
    pub things: usize,
    pub fields: usize,
    pub integers: usize,
    pub longs: usize,
    pub values: usize,
    pub whole: usize,
}

/// How many coordinates a point takes.
fn coordinates_of(form: PointForm) -> usize
    ensures count { result ≡ coordinates form }
    ensures bound { result ≤ 3 }
{
    match form {
        PointForm::Absent => 0,
        PointForm::One => 1,
        PointForm::Two => 2,
        PointForm::Three => 3,
        PointForm::Other => 0,
    }
}

/// How many values a point takes.
fn point_values_of(form: PointForm) -> usize
    ensures count { result ≡ point_values form }
    ensures bound { result ≤ 1 }
{
    match form {
        PointForm::Absent => 0,
        PointForm::One => 0,
        PointForm::Two => 0,
        PointForm::Three => 0,
        PointForm::Other => 1,
    }
}

impl Counts {
    fn none() -> Counts
        ensures { result ≡ no_counts }
    {
        Counts {
            things: 0,
            fields: 0,
            integers: 0,
            longs: 0,
            values: 0,
            whole: 0,
        }
    }

    /// How much a value takes.
    pub fn of_value(form: ValueForm) -> Counts
        ensures { result ≡ value_counts form }
    {
        let mut counts = Counts::none();
        match form {
            ValueForm::Int => counts.integers = 1,
            ValueForm::Long => counts.longs = 1,
            ValueForm::Object => counts.things = 1,
            ValueForm::Grid => counts.things = 1,
            ValueForm::Other => counts.values = 1,
            ValueForm::Absent => {}
            ValueForm::False => {}
            ValueForm::True => {}
            ValueForm::NullObject => {}
            ValueForm::NullGrid => {}
        }
        counts
    }

    /// How much an entry takes besides its value.
    pub fn of_cell(form: Form, point: PointForm) -> Counts
        ensures { result ≡ cell_counts form point }
    {
        let mut counts = Counts::none();
        match form {
            Form::Whole => counts.whole = 1,
            Form::GetField | Form::PutField => {
                counts.things = 1;
                counts.fields = 1;
            }
            Form::GetElem | Form::PutElem => {
                counts.things = 1;
                counts.integers = coordinates_of(point);
                counts.values = point_values_of(point);
            }
        }
        counts
    }

    /// What is left of these counts without others.
    pub fn less(&self, other: &Counts) -> Counts
        ensures { result ≡ less self.now other.now }
    {
        Counts {
            things: self.things.saturating_sub(other.things),
            fields: self.fields.saturating_sub(other.fields),
            integers: self.integers.saturating_sub(other.integers),
            longs: self.longs.saturating_sub(other.longs),
            values: self.values.saturating_sub(other.values),
            whole: self.whole.saturating_sub(other.whole),
        }
    }

    /// What is left of these counts without the entry with this head.
    pub fn without(&self, head: &Head) -> Counts
        ensures { result ≡ without_entry self.now head.now }
    {
        self.less(&Counts::of_cell(head.form, head.point))
            .less(&Counts::of_value(head.value))
    }

    /// What is left of these counts without the entries with these heads.
    pub fn without_all(&self, heads: &[Head]) -> Counts
        ensures { result ≡ without_entries self.now heads.now }
    {
        let mut left = *self;
        for head in heads {
            left = left.without(head);
        }
        left
    }
}
