//! A tree interpreter: a process that executes the trees of its program.
#![tactic(auto)]

mod call_stack;
mod environment;
mod ghost_history;
mod jumps;
mod laws;
mod loops;
mod normalization;
mod process;
mod requests;
mod run_loop;
mod steps;
mod transitions;
mod tree_proc;
mod variables;

pub use jumps::is_mark;
pub use laws::{fitting_is_formed, next_is_unique, process_is_sent};
pub use loops::after_loop;
pub use process::{
    CallFrame, CallStack, ControlMode, OnAnswer, PendingRequest, StepOutcome, TreeMachine,
    Variables,
};
pub use steps::end_place;
pub use tree_proc::TreeProc;
