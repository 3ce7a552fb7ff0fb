//! The bytecode of a virtual machine, its listing, and its semantics.
#![tactic(auto)]

mod code;
mod instr;
mod operands;
mod text;
mod words;

pub use code::{Code, Instrs, MethodCode};
pub use instr::{Instr, OneOperand, Operation, ValueMember};
pub use text::code_text;
