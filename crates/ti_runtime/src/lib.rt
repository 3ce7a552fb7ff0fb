//! Runs a checked program by its code, on one thread or on several workers that share one store.
//!
//! One worker schedules all processes itself (`solo`). Several workers get the processes dealt out, run them on threads, and hand them back
//! (`threads`); whatever is left to do then runs on the caller's thread, by the scheduler of one worker, so that a thread that can't be
//! started costs nothing but speed.
#![tactic(auto)]

mod code_of;
mod runner;
mod solo;
mod threads;

pub use runner::{How, RunEnd, run};
