//! The program slice of a checked program, run by itself: the next collective as a function of the outcomes of its departures so far.
#![tactic(auto)]

mod acts;
mod answer;
mod fits;
mod forms;
mod single_stmt;
mod slice_stop;
mod step;
mod typed;

pub use answer::slice_next;
