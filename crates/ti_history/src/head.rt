// The head of an entry: its process and source position, and how the rest of it is kept.

ghost use Rattle.std.specs.Prelude.{◌≡◌};
ghost use Rattle.ti_history.specs.Mirrors.Packing.{point_form, value_form, head_by, whole_head, head_of};

use ti_base::{Action, Answer, Entry, Place, Point, Value};

/// The operation of an entry, if it is kept in columns.
#[derive(Clone, Copy)]
pub enum Form {
    /// The entry is kept whole.
    Whole,
    GetField,
    PutField,
    GetElem,
    PutElem,
}

/// How a point is kept.
#[derive(Clone, Copy)]
pub enum PointForm {
    /// There is none.
    Absent,
    /// By its coordinates, if it is canonical.
    One,
    Two,
    Three,
    /// As a value, otherwise.
    Other,
}

/// How a value is kept.
#[derive(Clone, Copy)]
pub enum ValueForm {
    /// There is none.
    Absent,
    Int,
    Long,
    False,
    True,
    NullObject,
    Object,
    NullGrid,
    Grid,
    /// As a value.
    Other,
}

/// The head of an entry.
#[derive(Clone, Copy)]
pub struct Head {
    pub proc: u32,
    pub place: Place,
    pub form: Form,
    pub point: PointForm,
    pub value: ValueForm,
}

const _: () = prove!(size_of::<Head>() == 16);

/// How a point is kept: by its coordinates if those that it doesn't use are 0, so that it can be read back.
pub fn form_of_point(at: &Point) -> PointForm
    ensures { result ≡ point_form at.now }
{
    if at.dim == 3 {
        PointForm::Three
    } else if at.x3 != 0 {
        PointForm::Other
    } else if at.dim == 2 {
        PointForm::Two
    } else if at.x2 != 0 {
        PointForm::Other
    } else if at.dim == 1 {
        PointForm::One
    } else {
        PointForm::Other
    }
}

fn form_of_value(value: &Value) -> ValueForm
    ensures { result ≡ value_form value.now }
{
    match value {
        Value::Int(_) => ValueForm::Int,
        Value::Long(_) => ValueForm::Long,
        Value::Bool(true) => ValueForm::True,
        Value::Bool(false) => ValueForm::False,
        Value::Obj(None) => ValueForm::NullObject,
        Value::Obj(Some(_)) => ValueForm::Object,
        Value::Grid(None) => ValueForm::NullGrid,
        Value::Grid(Some(_)) => ValueForm::Grid,
        Value::Pt(_) => ValueForm::Other,
        Value::Rc(_) => ValueForm::Other,
        Value::Region(_) => ValueForm::Other,
    }
}

impl Head {
    fn with(entry: &Entry, form: Form, point: PointForm, value: ValueForm) -> Head
        ensures { result ≡ head_by entry.now form point value }
    {
        Head {
            proc: entry.proc,
            place: entry.place,
            form,
            point,
            value,
        }
    }

    fn whole(entry: &Entry) -> Head
        ensures { result ≡ whole_head entry.now }
    {
        Head::with(entry, Form::Whole, PointForm::Absent, ValueForm::Absent)
    }

    /// The head of an entry.
    pub fn of(entry: &Entry) -> Head
        ensures { result ≡ head_of entry.now }
    {
        let act = &entry.act;
        match (act, &entry.answer) {
            (Action::GetField { .. }, Answer::Val(value)) => Head::with(
                entry,
                Form::GetField,
                PointForm::Absent,
                form_of_value(value),
            ),
            (Action::PutField { value, .. }, Answer::Done) => Head::with(
                entry,
                Form::PutField,
                PointForm::Absent,
                form_of_value(value),
            ),
            (Action::GetElem { at, .. }, Answer::Val(value)) => Head::with(
                entry,
                Form::GetElem,
                form_of_point(at),
                form_of_value(value),
            ),
            (Action::PutElem { at, value, .. }, Answer::Done) => Head::with(
                entry,
                Form::PutElem,
                form_of_point(at),
                form_of_value(value),
            ),
            _ => Head::whole(entry),
        }
    }
}
