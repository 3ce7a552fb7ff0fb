// The variables in scope of a call. Their number is bounded, so that the contribution to the deletion of a region fits into 32 bits.

ghost use Rattle.std.specs.Prelude.{◌≡◌, ◌<◌, ◌≤◌, ◌+◌, ◌^◌, [], ◌∷◌, ◌++◌, count_by, if◌then◌else◌, IfOk, OnOk};
ghost use Rattle.ti_lang.specs.Meaning.Held.{referent_of};
ghost use Rattle.ti_lang.specs.Meaning.Processes.{Variable};
ghost use Rattle.ti_lang.specs.Meaning.Scoping.{without_variables};
ghost use Rattle.ti_lang.specs.Meaning.Performing.{declared_in};
ghost use Rattle.ti_lang.specs.Meaning.Steps.{lies_in as lies_in_spec};
ghost use Rattle.ti_eval.specs.Frames.{slots_of};
ghost use Rattle.ti_moves.specs.Outcomes.{update_variables};
ghost use Rattle.ti_moves.specs.Receiving.{stm_seen};

use crate::process::{CallFrame, Variables};
use std::alloc::Global;
use ti_base::{Id, Memory};
use ti_eval::{Slot, change};
use ti_lang::program::Stmt;
use ti_moves::{VarUpdate, leave};

// The most variables of a call.
const ROOM: usize = 16777215;

// Whether a reference refers to something in the region.
fn lies_in(region: u32, thing: Option<Id>) -> bool
    ensures { result ≡ lies_in_spec region thing }
{
    match thing {
        Some(id) => id.region == region,
        None => false,
    }
}

impl Variables {
    /// No variables.
    pub fn none(alloc: Global) -> Variables
        ensures { result.slots.items ≡ [] }
    {
        Variables {
            slots: Vec::new(alloc),
        }
    }

    /// These variables; out of memory if there are more than `ROOM`.
    pub fn of(slots: Vec<Slot>) -> Result<Variables, Memory>
        ensures { IfOk result (λ v. v.slots.items ≡ slots.items) }
    {
        if slots.len() > ROOM {
            return Err(Memory);
        }
        Ok(Variables { slots })
    }

    // Adds a variable; out of memory if there are `ROOM` already.
    fn add(&mut self, slot: Slot) -> Result<(), Memory>
        ensures { OnOk result (self.new.slots.items ≡ self.old.slots.items ++ slot ∷ []) }
    {
        if self.slots.len() >= ROOM {
            return Err(Memory);
        }
        self.slots.push(slot)?;
        Ok(())
    }

    /// Applies a change.
    #[tactic(auto, using(crate::proofs::Few::few))]
    pub fn vary(&mut self, by: VarUpdate) -> Result<(), Memory>
        ensures { OnOk result (slots_of self.new.slots.items ≡ update_variables by.entry (slots_of self.old.slots.items)) }
    {
        match by {
            VarUpdate::Same => Ok(()),
            VarUpdate::New(slot) => Ok(self.add(slot)?),
            VarUpdate::Changed(variable, held) => {
                change(&mut self.slots, variable, held);
                Ok(())
            }
        }
    }

    /// Removes the variables of a block or a `for` at its end.
    #[tactic(auto, using(crate::proofs::Few::few))]
    pub fn leave(&mut self, stmt: Option<&Stmt>)
        ensures { slots_of self.new.slots.items ≡ without_variables (declared_in (stm_seen stmt.entry)) (slots_of self.old.slots.items) }
    {
        leave(&mut self.slots, stmt);
    }

    // How many of the variables refer to something in a region.
    #[tactic(auto, using(crate::proofs::Few::few))]
    fn count_in_region(&self, region: u32) -> u32
        ensures value { result ≡ count_by (λ (x : Variable). lies_in_spec region (referent_of x.held)) (slots_of self.now.slots.items) }
        ensures small { result < 2 ^ 24 }
    {
        let mut count = 0;
        for slot in &self.slots {
            if lies_in(region, slot.held.thing()) {
                count += 1;
            }
        }
        count
    }
}

impl CallFrame {
    /// How many variables of the call refer to something in a region; `this` is one.
    pub fn count_in_region(&self, region: u32) -> u32
        ensures value { result ≡ count_by (λ (x : Variable). lies_in_spec region (referent_of x.held))
            (slots_of self.now.variables.slots.items) + (if lies_in_spec region self.now.this then 1 else 0) }
        ensures small { result ≤ 2 ^ 24 }
    {
        let count = self.variables.count_in_region(region);
        if lies_in(region, self.this) {
            count + 1
        } else {
            count
        }
    }
}
