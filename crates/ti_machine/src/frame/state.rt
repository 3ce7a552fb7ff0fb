// The activation state of a call: program counter, slots and operand stack.

ghost use Rattle.std.specs.Prelude.{◌≡◌, []};

use crate::frame::operand::StackOperand;
use ti_eval::VarValue;

/// The mutable state of a frame: the number of the next instruction, the slots, the oldest first (`this` is slot 0, if there is one), and
/// the operand stack, whose top is the last element.
#[derive(Drop)]
pub struct FrameState {
    pub at: usize,
    pub slots: Vec<VarValue>,
    pub stack: Vec<StackOperand>,
}

impl FrameState {
    /// An empty frame that reuses the memory of this one.
    pub(crate) fn into_empty(self) -> FrameState
        ensures slots { result.slots.items ≡ [] }
        ensures stack { result.stack.items ≡ [] }
        ensures at { result.at ≡ 0 }
    {
        let FrameState {
            at: _,
            mut slots,
            mut stack,
        } = self;
        slots.clear();
        stack.clear();
        FrameState {
            at: 0,
            slots,
            stack,
        }
    }
}

/// How an instruction uses the answer to the action that it requested.
#[derive(Clone, Copy)]
pub enum AnswerUse {
    /// The answer is ignored.
    Ignore,
    /// The value of the answer is pushed; `false` if the answer has no value.
    Push,
    /// The value of the answer is pushed, if the answer has one.
    PushIfValue,
}
