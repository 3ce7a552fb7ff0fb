//! The collectives of a run (*rounds* in the code): which processes have arrived at the nth one, what each contributed, and which have
//! left it.
#![tactic(auto)]

mod arrival;
mod proc_rounds;
mod rounds;

pub use rounds::Rounds;
