//! Shared regions: which are live, and how many references from cells outside lead into each. A region may be deleted only if its count
//! is 0.
#![tactic(auto)]

mod region;
mod regions;

pub use regions::Regions;
