//! Inference of `single`: finds the greatest set of `single` annotations under which a program without them is accepted, or the first
//! collective that no set of annotations aligns. It generates constraints from the program, which ti_blame solves.
#![tactic(auto)]

mod annotate;
mod constraints;
mod inference;
mod laws;
mod local;
mod places;
mod strip;
mod uses;

pub use annotate::program::marked;
pub use inference::{InferErr, Marking, Unaligned, infer, unaligned_chain};
pub use laws::{
    edges_are_rules, fewer_collectives, greatest_is_found, marked_is_numbered, marks_and_types,
    nothing_blamed_in_any_case, one_inference, reasons_are_rules, settled_is_inferred,
    stripped_is_numbered, stripped_once, union_is_accepted, union_keeps_single_rules,
};
pub use strip::program::stripped;
