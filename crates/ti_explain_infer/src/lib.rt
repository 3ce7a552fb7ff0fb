//! Explanations of mode infer: why no `single` annotations let a source be accepted, as positions in it with what is there.
#![tactic(auto)]

mod early;
mod fixed_parts;
mod inference;
mod links;

pub use inference::explain_inference;
