// The instructions that move values between constants, slots and operands, and those that jump. `next` is the position after the
// instruction, where the frame continues unless it jumps.

ghost use Rattle.std.specs.Prelude.{◌≡◌, ◌+◌, ℕ, List, Option};
ghost use Rattle.ti_base.specs.Points.{IsDim};
ghost use Rattle.ti_code.specs.Effects.{Who};
ghost use Rattle.ti_code.specs.Forms.{IsFormedValue};
ghost use Rattle.ti_code.specs.declared.instr.Instr.TheVariants as i;
ghost use Rattle.ti_machine.specs.Mirrors.FrameStates.{local_state_of, who, InstrOutcome};

use crate::frame::operand::StackOperand;
use crate::frame::state::FrameState;
use crate::instrs::domains::no_points;
use std::alloc::Global;
use ti_base::Value;
use ti_eval::{Interrupt, Rank, VarValue};

impl FrameState {
    /// Pushes a constant.
    pub(crate) fn constant(&mut self, value: Value, next: usize) -> Result<(), Interrupt>
        requires next { next ≡ self.old.at + 1 }
        requires form { IsFormedValue value }
        ensures { (w : Who) → InstrOutcome w (i.Const value) result (local_state_of self.old) (local_state_of self.new) }
    {
        self.push(VarValue::plain(value))?;
        self.at = next;
        Ok(())
    }

    /// Pushes the empty domain of the given number of dimensions.
    pub(crate) fn empty_domain(
        &mut self,
        alloc: Global,
        dim: u8,
        next: usize,
    ) -> Result<(), Interrupt>
        requires next { next ≡ self.old.at + 1 }
        requires form { IsDim dim }
        ensures { (w : Who) → InstrOutcome w (i.EmptyDom dim) result (local_state_of self.old) (local_state_of self.new) }
    {
        self.push(no_points(alloc, dim)?)?;
        self.at = next;
        Ok(())
    }

    /// Drops the top operand.
    #[tactic(auto, using(crate::proofs::Reversed::reversed))]
    pub(crate) fn drop_one(&mut self, next: usize) -> Result<(), Interrupt>
        requires next { next ≡ self.old.at + 1 }
        ensures { (w : Who) → InstrOutcome w i.Pop result (local_state_of self.old) (local_state_of self.new) }
    {
        let _dropped = self.stack.pop();
        self.at = next;
        Ok(())
    }

    /// Pushes a copy of the top operand.
    #[tactic(auto, using(crate::proofs::Reversed::reversed))]
    pub(crate) fn double(&mut self, alloc: Global, next: usize) -> Result<(), Interrupt>
        requires next { next ≡ self.old.at + 1 }
        ensures { (w : Who) → InstrOutcome w i.Dup result (local_state_of self.old) (local_state_of self.new) }
    {
        let o = match self.stack.last() {
            Some(o) => o.copy(alloc)?,
            None => StackOperand::of(VarValue::boolean(false)),
        };
        self.stack.push(o)?;
        self.at = next;
        Ok(())
    }

    /// Pushes the value of a slot.
    pub(crate) fn load(&mut self, alloc: Global, index: u32, next: usize) -> Result<(), Interrupt>
        requires next { next ≡ self.old.at + 1 }
        ensures { (w : Who) → InstrOutcome w (i.Load index) result (local_state_of self.old) (local_state_of self.new) }
    {
        let h = self.slot(alloc, index)?;
        self.push(h)?;
        self.at = next;
        Ok(())
    }

    /// Pops the top operand into a slot.
    pub(crate) fn keep(&mut self, index: u32, next: usize) -> Result<(), Interrupt>
        requires next { next ≡ self.old.at + 1 }
        ensures { (w : Who) → InstrOutcome w (i.Keep index) result (local_state_of self.old) (local_state_of self.new) }
    {
        let h = self.pop()?;
        self.put(index as usize, h)?;
        self.at = next;
        Ok(())
    }

    /// Keeps the `count` oldest slots.
    pub(crate) fn trim(&mut self, count: u32, next: usize) -> Result<(), Interrupt>
        requires next { next ≡ self.old.at + 1 }
        ensures { (w : Who) → InstrOutcome w (i.Trim count) result (local_state_of self.old) (local_state_of self.new) }
    {
        self.cut(count as usize);
        self.at = next;
        Ok(())
    }

    /// Pushes the number of the process.
    pub(crate) fn this_proc(&mut self, team: Rank, next: usize) -> Result<(), Interrupt>
        requires next { next ≡ self.old.at + 1 }
        ensures { (receivers : List (Option ℕ)) → InstrOutcome (who team receivers) i.ThisProc result (local_state_of self.old) (local_state_of self.new) }
    {
        self.push(VarValue::plain(Value::Int(team.number as i32)))?;
        self.at = next;
        Ok(())
    }

    /// Pushes the number of processes.
    pub(crate) fn num_procs(&mut self, team: Rank, next: usize) -> Result<(), Interrupt>
        requires next { next ≡ self.old.at + 1 }
        ensures { (receivers : List (Option ℕ)) → InstrOutcome (who team receivers) i.NumProcs result (local_state_of self.old) (local_state_of self.new) }
    {
        self.push(VarValue::plain(Value::Int(team.procs as i32)))?;
        self.at = next;
        Ok(())
    }

    /// Continues at the target.
    pub(crate) fn jump(&mut self, target: u32) -> Result<(), Interrupt>
        ensures { (w : Who) → InstrOutcome w (i.Jump target) result (local_state_of self.old) (local_state_of self.new) }
    {
        self.at = target as usize;
        Ok(())
    }

    /// Pops a boolean and jumps if it is true.
    pub(crate) fn jump_if(&mut self, target: u32, next: usize) -> Result<(), Interrupt>
        requires next { next ≡ self.old.at + 1 }
        ensures { (w : Who) → InstrOutcome w (i.JumpIf target) result (local_state_of self.old) (local_state_of self.new) }
    {
        let h = self.pop()?;
        if h.is_true() {
            self.at = target as usize;
        } else {
            self.at = next;
        }
        Ok(())
    }

    /// Pops a boolean and jumps if it is false.
    pub(crate) fn jump_if_not(&mut self, target: u32, next: usize) -> Result<(), Interrupt>
        requires next { next ≡ self.old.at + 1 }
        ensures { (w : Who) → InstrOutcome w (i.JumpIfNot target) result (local_state_of self.old) (local_state_of self.new) }
    {
        let h = self.pop()?;
        if h.is_true() {
            self.at = next;
        } else {
            self.at = target as usize;
        }
        Ok(())
    }

    /// Moves the first point of the domain on top into a slot and leaves the other points; jumps if the domain is empty.
    #[tactic(auto, using(crate::proofs::Reversed::reversed))]
    pub(crate) fn next_point(
        &mut self,
        index: u32,
        target: u32,
        next: usize,
    ) -> Result<(), Interrupt>
        requires next { next ≡ self.old.at + 1 }
        ensures { (w : Who) → InstrOutcome w (i.Next index target) result (local_state_of self.old) (local_state_of self.new) }
    {
        let Some(o) = self.stack.pop() else {
            self.at = target as usize;
            return Ok(());
        };
        let (rest, p) = o.step();
        self.stack.push(rest)?;
        match p {
            Some(p) => {
                self.put(index as usize, VarValue::plain(Value::Pt(p)))?;
                self.at = next;
            }
            None => self.at = target as usize,
        }
        Ok(())
    }
}
