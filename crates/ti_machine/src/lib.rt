//! A virtual machine that executes code: it says what a process does next.
#![tactic(auto)]

mod fast;
mod frame;
mod history;
mod instrs;
mod laws;
mod machine;
mod proc;
mod run_loop;

pub use laws::{following_code_goes_on, next_is_unique, process_is_sent};
pub use proc::Proc;
