//! Generates a test program from a seed.
#![tactic(auto)]

mod source;

pub use source::gen_source;
