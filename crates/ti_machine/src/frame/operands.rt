// The operand stack and the slots of a frame. Contracts see both with the newest element first, while the vectors grow at their ends. An
// access to something that isn't there yields `false`, as in the semantics.

ghost use Rattle.std.specs.Prelude.{◌≡◌, ◌+◌, ◌<◌, ◌^◌, [], ◌∷◌, reverse, length, IfOk, vec_len, vec_capacity};
ghost use Rattle.ti_lang.specs.Meaning.Held.{Held as Seen, plain_of, point_of, referent_of};
ghost use Rattle.ti_code.specs.Effects.{top, below, top_operands, under, slot, put, oldest_slots};
ghost use Rattle.ti_machine.specs.Mirrors.FrameStates.{local_state_of};

use crate::frame::operand::StackOperand;
use crate::frame::state::FrameState;
use std::alloc::Global;
use ti_base::{Id, Memory, Point, Value};
use ti_eval::VarValue;

impl FrameState {
    /// Pushes an operand.
    #[tactic(auto, using(crate::proofs::Reversed::reversed))]
    pub(crate) fn push(&mut self, held: VarValue) -> Result<(), Memory>
        ensures { IfOk result (λ _. local_state_of self.new ≡ record (local_state_of self.old) { stack = held ∷ (local_state_of self.old).stack }) }
    {
        self.stack.push(StackOperand::of(held))?;
        Ok(())
    }

    /// Pushes an operand without allocating: there is capacity for it.
    #[tactic(auto, using(crate::proofs::Reversed::reversed))]
    pub(crate) fn push_within(&mut self, held: VarValue)
        requires { vec_len self.old.stack < vec_capacity self.old.stack }
        ensures { local_state_of self.new ≡ record (local_state_of self.old) { stack = held ∷ (local_state_of self.old).stack } }
    {
        let _ = self.stack.push(StackOperand::of(held));
    }

    /// Pops the top operand; `false` if the stack is empty.
    #[tactic(auto, using(crate::proofs::Reversed::reversed))]
    pub(crate) fn pop(&mut self) -> Result<VarValue, Memory>
        ensures value { IfOk result (λ h. h ≡ top (local_state_of self.old).stack) }
        ensures rest { local_state_of self.new ≡ record (local_state_of self.old) { stack = below (local_state_of self.old).stack } }
    {
        match self.stack.pop() {
            Some(o) => o.into_held(),
            None => Ok(VarValue::boolean(false)),
        }
    }

    /// The object or the grid that the top operand refers to, if there is one.
    #[tactic(auto, using(crate::proofs::Reversed::lasts))]
    pub(crate) fn last_thing(&self) -> Option<Id>
        ensures { result ≡ referent_of (top (local_state_of self.now).stack) }
    {
        match self.stack.last() {
            Some(o) => o.thing(),
            None => None,
        }
    }

    /// The value that the top operand is.
    #[tactic(auto, using(crate::proofs::Reversed::lasts))]
    pub(crate) fn last_value(&self) -> Value
        ensures { result ≡ plain_of (top (local_state_of self.now).stack) }
    {
        match self.stack.last() {
            Some(o) => o.value(),
            None => Value::Bool(false),
        }
    }

    /// The point that the top operand is.
    #[tactic(auto, using(crate::proofs::Reversed::lasts))]
    pub(crate) fn last_point(&self) -> Point
        ensures { result ≡ point_of (top (local_state_of self.now).stack) }
    {
        match self.stack.last() {
            Some(o) => o.point(),
            None => Point {
                dim: 1,
                x1: 0,
                x2: 0,
                x3: 0,
            },
        }
    }

    /// Drops the top operand.
    #[tactic(auto, using(crate::proofs::Reversed::reversed))]
    pub(crate) fn drop_top(&mut self)
        ensures { local_state_of self.new ≡ record (local_state_of self.old) { stack = below (local_state_of self.old).stack } }
    {
        let _dropped = self.stack.pop();
    }

    /// Pops the two top operands and returns them in the order in which they were pushed.
    pub(crate) fn pop_two(&mut self) -> Result<(VarValue, VarValue), Memory>
        ensures under { IfOk result (λ p. p.0 ≡ top (below (local_state_of self.old).stack)) }
        ensures last { IfOk result (λ p. p.1 ≡ top (local_state_of self.old).stack) }
        ensures rest { IfOk result (λ _. local_state_of self.new ≡ record (local_state_of self.old) { stack = below (below (local_state_of self.old).stack) }) }
    {
        let y = self.pop()?;
        let x = self.pop()?;
        Ok((x, y))
    }

    /// Pops the `count` top operands and returns them in the order in which they were pushed.
    pub(crate) fn take_args(&mut self, alloc: Global, count: u64) -> Result<Vec<VarValue>, Memory>
        ensures args { IfOk result (λ v. v.items ≡ top_operands count (local_state_of self.old).stack []) }
        ensures rest { IfOk result (λ _. local_state_of self.new ≡ record (local_state_of self.old) { stack = under count (local_state_of self.old).stack }) }
    {
        self.take_args_into(count, Vec::new(alloc))
    }

    /// Pops the `count` top operands into the given empty vector, in the order in which they were pushed.
    pub(crate) fn take_args_into(
        &mut self,
        count: u64,
        room: Vec<VarValue>,
    ) -> Result<Vec<VarValue>, Memory>
        requires { room.items ≡ [] }
        ensures args { IfOk result (λ v. v.items ≡ top_operands count (local_state_of self.old).stack []) }
        ensures rest { IfOk result (λ _. local_state_of self.new ≡ record (local_state_of self.old) { stack = under count (local_state_of self.old).stack }) }
    {
        let mut args = room;
        for k in 0..count {
            let h = self.pop()?;
            args.push(h)?;
        }
        args.reverse();
        Ok(args)
    }

    /// A copy of the value in a slot; `false` if there is no such slot.
    pub(crate) fn slot(&self, alloc: Global, index: u32) -> Result<VarValue, Memory>
        ensures { IfOk result (λ h. h ≡ slot index (local_state_of self.now).slots) }
    {
        match self.slots.get(index as usize) {
            Some(h) => Ok(h.copy(alloc)?),
            None => Ok(VarValue::boolean(false)),
        }
    }

    /// Writes a slot; adds one if there are at most `index`.
    #[tactic(auto, using(crate::proofs::Reversed::putting))]
    pub(crate) fn put(&mut self, index: usize, held: VarValue) -> Result<(), Memory>
        ensures { IfOk result (λ _. local_state_of self.new ≡ record (local_state_of self.old) { slots = put index held (local_state_of self.old).slots }) }
    {
        if index < self.slots.len() {
            self.slots[index] = held;
        } else {
            self.slots.push(held)?;
        }
        Ok(())
    }

    /// Keeps the `count` oldest slots.
    #[tactic(auto, using(crate::proofs::Reversed::cutting))]
    pub(crate) fn cut(&mut self, count: usize)
        ensures { local_state_of self.new ≡ record (local_state_of self.old) { slots = oldest_slots count (local_state_of self.old).slots } }
    {
        self.slots.truncate(count);
    }
}
