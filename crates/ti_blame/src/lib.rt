//! A solver of implications: finds the greatest set of `single` annotations that satisfies constraints of the form "unless this
//! annotation is in the set, these are ruled out". It knows nothing of programs.
#![tactic(auto)]

mod chains;
mod done;
mod implication;
mod mark;
mod propagation;
mod reason;
mod search;
mod solution;
mod waiting;
mod worklist;

pub use chains::{ChainStep, blame_chain, chains_rule_out};
pub use implication::{Conclusion, Implication};
pub use mark::{Mark, MarkKind};
pub use reason::Reason;
pub use solution::{Solution, solve};
