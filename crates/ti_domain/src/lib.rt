//! Domains: sets of points of one dimension, at most 1,048,576, represented by disjoint rectangles.
#![tactic(auto)]

mod cut;
mod dom;
mod error;
mod held;
mod meets;
mod members;
mod rest;
mod sets;
mod sizes;
mod walk;

pub use dom::{Dom, dim_of, dom_copy, dom_of, dom_pieces};
pub use error::DomErr;
pub use held::Held;
pub use members::{dom_contains, dom_same, dom_size};
pub use sets::{dom_meet, dom_minus, dom_union};
pub use walk::dom_next_after;
