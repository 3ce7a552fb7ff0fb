//! Theorems about every run of a checked program. The main one is alignment: all processes that reach their nth collective reach the
//! same one. Only the type `SliceStep` exists at run time.
#![tactic(auto)]

mod laws;
mod names;
mod slices;

pub use laws::{
    actions_formed, aligned, arrivals_agree, cells_are_counted, fields_fit, fields_storable,
    heap_fits, none_after_end, none_impossible, nothing_dangles, owners_kept, regions_made,
    rounds_balance, run_typed, taken_as_given, values_have_forms, variables_in_scope,
};
pub use names::{answers_fit, names_fit, regions_named};
pub use slices::{SliceStep, one_slice_answer, slice_tells};
