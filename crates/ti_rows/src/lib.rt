//! Worked examples, proved by evaluation: short programs with what their runs print, programs that are rejected and why; and
//! counterexamples that show that the theorems of other crates rule something out.
#![tactic(auto)]

pub mod refusals;
pub mod refutations;
pub mod refutations_of_meaning;
pub mod refutations_of_races;
pub mod refutations_of_values;
pub mod refutations_of_walks;
pub mod rows;
pub mod simulation;
pub mod slices;
