// Reads of fields and elements, domains and views of grids: what needs an action of the store.

ghost use Rattle.std.specs.Prelude.{◌≡◌};
ghost use Rattle.ti_lang.specs.Program.Types.{ValueType};
ghost use Rattle.ti_lang.specs.Meaning.Comp.{Wanted, asked as asked_spec};
ghost use Rattle.ti_lang.specs.Meaning.CellRefs.{Field, Element, fetched, domain_of, viewed};
ghost use Rattle.ti_eval.specs.Comes.{Comes};

use crate::canonical_answer::{CanonicalAnswer, Evaluated, answer_value};
use crate::interrupt::Interrupt;
use crate::var_value::VarValue;
use ti_base::{Action, FaultKind, Place, Point, ViewHow};

/// The answer to an action, if there is one left; otherwise a request for the action.
pub fn request<'a>(
    place: Place,
    action: Action,
    answers: &'a [CanonicalAnswer],
) -> Evaluated<'a, VarValue>
    ensures { (through : ValueType) (wanted : Wanted) → Comes result
        (asked_spec (record { place = place; action = action; through = through; wanted = wanted }) answers.now) }
{
    match answers.split_first() {
        Some((first, rest)) => Ok((answer_value(*first), rest)),
        None => Err(Interrupt::Request(place, action)),
    }
}

/// Reads a field of an object. A null reference is a fault.
pub fn fetch_field<'a>(
    place: Place,
    object: &VarValue,
    field: u32,
    answers: &'a [CanonicalAnswer],
) -> Evaluated<'a, VarValue>
    ensures { (type through : ValueType) → Comes result (fetched place type (Field object.now through field) answers.now) }
{
    match object.thing() {
        Some(obj) => request(place, Action::GetField { obj, field }, answers),
        None => Err(Interrupt::Fault(FaultKind::NullRef, place)),
    }
}

/// Reads an element of a grid. A null reference is a fault.
pub fn fetch_element<'a>(
    place: Place,
    grid: &VarValue,
    index: Point,
    answers: &'a [CanonicalAnswer],
) -> Evaluated<'a, VarValue>
    ensures { (type through : ValueType) → Comes result (fetched place type (Element grid.now through index) answers.now) }
{
    match grid.thing() {
        Some(grid) => request(place, Action::GetElem { grid, at: index }, answers),
        None => Err(Interrupt::Fault(FaultKind::NullRef, place)),
    }
}

/// The domain of a grid. A null reference is a fault.
pub fn fetch_domain<'a>(
    place: Place,
    grid: &VarValue,
    answers: &'a [CanonicalAnswer],
) -> Evaluated<'a, VarValue>
    ensures { (through : ValueType) → Comes result (domain_of place through grid.now answers.now) }
{
    match grid.thing() {
        Some(grid) => request(place, Action::DomainOf { grid }, answers),
        None => Err(Interrupt::Fault(FaultKind::NullRef, place)),
    }
}

/// A view of a grid. A null reference is a fault.
pub fn fetch_view<'a>(
    place: Place,
    how: ViewHow,
    grid: &VarValue,
    answers: &'a [CanonicalAnswer],
) -> Evaluated<'a, VarValue>
    ensures { (type through : ValueType) → Comes result (viewed place type how through grid.now answers.now) }
{
    match grid.thing() {
        Some(grid) => request(place, Action::MakeView { grid, how }, answers),
        None => Err(Interrupt::Fault(FaultKind::NullRef, place)),
    }
}
