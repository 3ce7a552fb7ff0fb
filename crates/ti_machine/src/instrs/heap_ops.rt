// The instructions that request an action of the store. Each leaves the frame at the next instruction and returns the request as
// `Interrupt::Request`; what the answer does to the frame is said by `AnswerUse`.

ghost use Rattle.std.specs.Prelude.{◌≡◌, ◌+◌};
ghost use Rattle.ti_code.specs.Effects.{Who, process_of_point};
ghost use Rattle.ti_code.specs.declared.instr.Instr.TheVariants as i;
ghost use Rattle.ti_lang.specs.Meaning.Held.{plain_of};
ghost use Rattle.ti_code.specs.Effects.{top};
ghost use Rattle.ti_machine.specs.Mirrors.FrameStates.{local_state_of, InstrOutcome};

use crate::frame::state::FrameState;
use ti_base::{Action, FaultKind, Place, Zero};
use ti_eval::{Interrupt, VarValue};

// The number of the process whose element of a grid has this point; 0 if the coordinate is negative.
fn process_of(point: &VarValue) -> u32
    ensures { result ≡ process_of_point point.now }
{
    let x = point.point().x1;
    if x < 0 { 0 } else { x as u32 }
}

impl FrameState {
    /// Reads a field of an object. A null reference is a fault.
    pub(crate) fn get_field(
        &mut self,
        field: u32,
        place: Place,
        next: usize,
    ) -> Result<(), Interrupt>
        requires next { next ≡ self.old.at + 1 }
        ensures { (w : Who) → InstrOutcome w (i.GetField field place) result (local_state_of self.old) (local_state_of self.new) }
    {
        let thing = self.last_thing();
        self.drop_top();
        self.at = next;
        match thing {
            Some(obj) => Err(Interrupt::Request(place, Action::GetField { obj, field })),
            None => Err(Interrupt::Fault(FaultKind::NullRef, place)),
        }
    }

    /// Writes a field of an object. A null reference is a fault.
    pub(crate) fn put_field(
        &mut self,
        field: u32,
        place: Place,
        next: usize,
    ) -> Result<(), Interrupt>
        requires next { next ≡ self.old.at + 1 }
        ensures { (w : Who) → InstrOutcome w (i.PutField field place) result (local_state_of self.old) (local_state_of self.new) }
    {
        let value = self.last_value();
        self.drop_top();
        let thing = self.last_thing();
        self.drop_top();
        self.at = next;
        match thing {
            Some(obj) => { Err(Interrupt::Request(place, Action::PutField { obj, field, value })) }
            None => Err(Interrupt::Fault(FaultKind::NullRef, place)),
        }
    }

    /// Reads an element of a grid. A null reference is a fault.
    pub(crate) fn get_element(&mut self, at: Place, next: usize) -> Result<(), Interrupt>
        requires next { next ≡ self.old.at + 1 }
        ensures { (w : Who) → InstrOutcome w (i.GetElem at) result (local_state_of self.old) (local_state_of self.new) }
    {
        let point = self.last_point();
        self.drop_top();
        let thing = self.last_thing();
        self.drop_top();
        self.at = next;
        match thing {
            Some(grid) => Err(Interrupt::Request(at, Action::GetElem { grid, at: point })),
            None => Err(Interrupt::Fault(FaultKind::NullRef, at)),
        }
    }

    /// Writes an element of a grid. A null reference is a fault.
    pub(crate) fn put_element(&mut self, at: Place, next: usize) -> Result<(), Interrupt>
        requires next { next ≡ self.old.at + 1 }
        ensures { (w : Who) → InstrOutcome w (i.PutElem at) result (local_state_of self.old) (local_state_of self.new) }
    {
        let value = self.last_value();
        self.drop_top();
        let point = self.last_point();
        self.drop_top();
        let thing = self.last_thing();
        self.drop_top();
        self.at = next;
        match thing {
            Some(grid) => {
                Err(Interrupt::Request(
                    at,
                    Action::PutElem {
                        grid,
                        at: point,
                        value,
                    },
                ))
            }
            None => Err(Interrupt::Fault(FaultKind::NullRef, at)),
        }
    }

    /// Makes a new object of a class in the region on top.
    pub(crate) fn new_object(
        &mut self,
        class: u32,
        place: Place,
        next: usize,
    ) -> Result<(), Interrupt>
        requires next { next ≡ self.old.at + 1 }
        ensures { (w : Who) → InstrOutcome w (i.NewObj class place) result (local_state_of self.old) (local_state_of self.new) }
    {
        let region = self.pop()?.region();
        self.at = next;
        Err(Interrupt::Request(place, Action::NewObj { class, region }))
    }

    /// Makes a new grid over the domain on top, in the region below it.
    pub(crate) fn new_grid(
        &mut self,
        zero: Zero,
        place: Place,
        next: usize,
    ) -> Result<(), Interrupt>
        requires next { next ≡ self.old.at + 1 }
        ensures { (w : Who) → InstrOutcome w (i.NewGrid zero place) result (local_state_of self.old) (local_state_of self.new) }
    {
        let (x, y) = self.pop_two()?;
        let region = x.region();
        let dom = y.rect();
        self.at = next;
        Err(Interrupt::Request(place, Action::NewGrid { zero, dom, region }))
    }

    /// Prints a line; if `valued`, the top operand is its value.
    pub(crate) fn print(
        &mut self,
        literal: Option<u32>,
        valued: bool,
        place: Place,
        next: usize,
    ) -> Result<(), Interrupt>
        requires next { next ≡ self.old.at + 1 }
        ensures { (w : Who) → InstrOutcome w (i.Print literal valued place) result (local_state_of self.old) (local_state_of self.new) }
    {
        if valued {
            let value = self.pop()?.value();
            self.at = next;
            return Err(Interrupt::Request(
                place,
                Action::Print {
                    literal,
                    value: Some(value),
                },
            ));
        }
        self.at = next;
        Err(Interrupt::Request(
            place,
            Action::Print {
                literal,
                value: None,
            },
        ))
    }

    /// Takes what the process whose point is the top operand contributed to the last exchange.
    pub(crate) fn take(&mut self, place: Place, next: usize) -> Result<(), Interrupt>
        requires next { next ≡ self.old.at + 1 }
        ensures { (w : Who) → InstrOutcome w (i.Take place) result (local_state_of self.old) (local_state_of self.new) }
    {
        let h = self.pop()?;
        let who = process_of(&h);
        self.at = next;
        Err(Interrupt::Request(place, Action::Take { who }))
    }
}
