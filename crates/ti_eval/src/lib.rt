//! Evaluates expressions, given the answers that their actions have received so far. An evaluation is a function of these answers: if it
//! needs one more, it stops with a request, and is repeated from its beginning when the answer is there.
#![tactic(auto)]

mod bounds;
mod canonical_answer;
mod comparisons;
mod conversions;
mod env;
mod expressions;
mod fields;
mod frame;
mod heap_reads;
mod interrupt;
mod kinds;
mod literals;
mod members;
mod numbers;
mod operand_pair;
mod operators;
mod pairs;
mod point_iteration;
mod proc_domain;
mod rank;
mod scalars;
mod sets;
mod var_value;
mod variables;

pub use bounds::Bounds;
pub use canonical_answer::{CanonicalAnswer, Evaluated, answer_value};
pub use conversions::{as_domain, as_int, as_long, as_type, check_local, coerce, to_domain};
pub use env::{Env, called_member, class_of_this, type_of, variable};
pub use expressions::{evaluate, evaluate_all, evaluate_numbers, rectangle};
pub use fields::field_selected;
pub use frame::{CanonicalPoint, ChildIndex, Copy, Resume, Slot, StmtFrame};
pub use heap_reads::{fetch_element, fetch_field, request};
pub use interrupt::Interrupt;
pub use literals::{point_of_numbers, rect_within};
pub use members::{index_value, member};
pub use operators::{apply_binary, apply_unary, short_circuit};
pub use point_iteration::next_point;
pub use proc_domain::{element_at, is_rect_of_procs, rect_of_procs};
pub use rank::Rank;
pub use scalars::{Scalar, of_scalars};
pub use var_value::VarValue;
pub use variables::{change, empty_rect, find};
