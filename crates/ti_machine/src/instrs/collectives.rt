// Arrivals at collectives and departures. An arrival takes the contribution of the process from the operand stack; the contribution to the
// deletion of a region is the number of slots that still refer to something in it.

ghost use Rattle.std.specs.Prelude.{◌≡◌, ◌+◌, ◌^◌, ◌≤◌, ◌≤ℤ◌, ℕ, pos, count_by, Some, IfOk, IfErr};
ghost use Rattle.ti_base.specs.Ranges.{natural};
ghost use Rattle.ti_base.specs.declared.action.CollKind.TheVariants as coll;
ghost use Rattle.ti_lang.specs.Meaning.Held.{Held as Seen, referent_of};
ghost use Rattle.ti_lang.specs.Meaning.Steps.{lies_in as lies_in_spec};
ghost use Rattle.ti_code.specs.Programs.{Code as Methods};
ghost use Rattle.ti_code.specs.declared.instr.Instr.TheVariants as i;
ghost use Rattle.ti_code.specs.Machine as seen;
ghost use Rattle.ti_machine.specs.Mirrors.FrameStates.{local_state_of};
ghost use Rattle.ti_machine.specs.Mirrors.Machines.{machine_of, IsInstrResult, IsArrivalPayload, KeepsRest};

use crate::frame::state::{AnswerUse, FrameState};
use crate::machine::{Frame, Machine, StepResult};
use ti_base::{Action, CollKind, Deposit, Id, Memory, Place};
use ti_eval::VarValue;

// What a process passes on at an arrival: the argument of the collective and its contribution.
#[derive(Clone, Copy)]
pub struct ArrivalPayload {
    /// The root of a broadcast, or the region that is deleted.
    pub arg: Option<u32>,
    pub deposit: Deposit,
}

const NO_PAYLOAD: ArrivalPayload = ArrivalPayload {
    arg: None,
    deposit: Deposit::Nothing,
};

// Whether a reference refers to something in a region.
fn lies_in(region: u32, id: Option<Id>) -> bool
    ensures { result ≡ lies_in_spec region id }
{
    match id {
        Some(id) => id.region == region,
        None => false,
    }
}

// The sum; out of memory iff it doesn't fit into 32 bits.
fn add_counts(count: u32, more: usize) -> Result<u32, Memory>
    ensures value { IfOk result (λ m. m ≡ count + more) }
    ensures large { IfErr result (λ _. 2 ^ 32 ≤ count + more) }
{
    if more as u64 > u64::from(u32::MAX - count) {
        return Err(Memory);
    }
    Ok(count + more as u32)
}

// The number, or 0 if it is negative; out of memory iff it doesn't fit into 32 bits.
fn as_u32(number: i64) -> Result<u32, Memory>
    ensures value { IfOk result (λ m. m ≡ natural number) }
    ensures large { IfErr result (λ _. pos (2 ^ 32) ≤ℤ number) }
{
    if number < 0 {
        return Ok(0);
    }
    if number > i64::from(u32::MAX) {
        return Err(Memory);
    }
    Ok(number as u32)
}

impl FrameState {
    // How many slots of the frame refer to something in a region.
    fn count_refs_into(&self, region: u32) -> usize
        ensures { result ≡ count_by (λ (h : Seen). lies_in_spec region (referent_of h)) (local_state_of self.now).slots }
    {
        let mut count = 0;
        for h in &self.slots {
            if lies_in(region, h.thing()) {
                count += 1;
            }
        }
        count
    }
}

impl Machine {
    // How many slots of all frames refer to something in a region.
    fn count_refs_into(&self, region: u32) -> Result<u32, Memory>
        ensures { IfOk result (λ n. (c : Methods) → n ≡ seen.named_in region (machine_of c self.now).frames) }
    {
        let mut count = add_counts(0, self.top.state.count_refs_into(region))?;
        for f in &self.below {
            count = add_counts(count, f.state.count_refs_into(region))?;
        }
        Ok(count)
    }

    // The contribution to a broadcast: the root's number, and the value, if this process is the root.
    fn broadcast_payload(&mut self) -> Result<ArrivalPayload, Memory>
        ensures gift { IfOk result (λ g. (c : Methods) → IsArrivalPayload c coll.Broadcast self.old g self.new) }
        ensures rest { IfOk result (λ _. (c : Methods) → KeepsRest c self.old self.new) }
    {
        let (x, y) = self.top.state.pop_two()?;
        let root = as_u32(x.integer())?;
        let deposit = if self.team.number == root {
            Deposit::One(y.value())
        } else {
            Deposit::Nothing
        };
        Ok(ArrivalPayload {
            arg: Some(root),
            deposit,
        })
    }

    // The contribution to the deletion of a region: how many slots of the process refer to something in it.
    fn delete_payload(&mut self) -> Result<ArrivalPayload, Memory>
        ensures gift { IfOk result (λ g. (c : Methods) → IsArrivalPayload c coll.DeleteRegion self.old g self.new) }
        ensures rest { IfOk result (λ _. (c : Methods) → KeepsRest c self.old self.new) }
    {
        let region = self.top.state.pop()?.region();
        let count = self.count_refs_into(region)?;
        Ok(ArrivalPayload {
            arg: Some(region),
            deposit: Deposit::Count(count),
        })
    }

    // The contribution to an exchange: a value.
    fn exchange_payload(&mut self) -> Result<ArrivalPayload, Memory>
        ensures gift { IfOk result (λ g. (c : Methods) → IsArrivalPayload c coll.Exchange self.old g self.new) }
        ensures rest { IfOk result (λ _. (c : Methods) → KeepsRest c self.old self.new) }
    {
        let h = self.top.state.pop()?;
        Ok(ArrivalPayload {
            arg: None,
            deposit: Deposit::One(h.value()),
        })
    }

    // The contribution at an arrival.
    fn arrival_payload(&mut self, kind: CollKind) -> Result<ArrivalPayload, Memory>
        ensures gift { IfOk result (λ g. (c : Methods) → IsArrivalPayload c kind self.old g self.new) }
        ensures rest { IfOk result (λ _. (c : Methods) → KeepsRest c self.old self.new) }
    {
        match kind {
            CollKind::Barrier => Ok(NO_PAYLOAD),
            CollKind::MakeRegion => Ok(NO_PAYLOAD),
            CollKind::Broadcast => self.broadcast_payload(),
            CollKind::Exchange => self.exchange_payload(),
            CollKind::DeleteRegion => self.delete_payload(),
        }
    }

    /// Arrives at a collective.
    pub(crate) fn arrive(
        &mut self,
        kind: CollKind,
        place: Place,
        next: usize,
    ) -> Result<StepResult, Memory>
        requires { next ≡ self.old.top.state.at + 1 }
        ensures { IfOk result (λ t. (c : Methods) → IsInstrResult c self.old (i.Arrive kind place) t self.new) }
    {
        let gift = self.arrival_payload(kind)?;
        self.top.state.at = next;
        let action = Action::Arrive {
            kind,
            arg: gift.arg,
            deposit: gift.deposit,
        };
        Ok(self.request(place, action, AnswerUse::Ignore))
    }

    /// Leaves the collective.
    pub(crate) fn depart(&mut self, place: Place, next: usize) -> StepResult
        requires { next ≡ self.old.top.state.at + 1 }
        ensures { (c : Methods) → IsInstrResult c self.old (i.Depart place) result self.new }
    {
        self.top.state.at = next;
        self.request(place, Action::Depart, AnswerUse::PushIfValue)
    }
}
