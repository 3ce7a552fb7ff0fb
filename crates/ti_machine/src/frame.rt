// The activation frame of a call: its program counter, its slots and its operand stack.

pub(crate) mod operand;
pub(crate) mod operands;
pub(crate) mod state;
