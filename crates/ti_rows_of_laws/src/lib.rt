//! Worked examples of definitions about annotations, traces and instruction counts: instances that satisfy a definition and instances that
//! don't. They rule out that these definitions are trivially true or trivially false.
#![tactic(auto)]

pub mod markings;
pub mod traces;
