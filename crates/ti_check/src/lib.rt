//! The checker: applies the rules of types, qualifiers and single values to a whole program.
#![tactic(auto)]

mod checking;
mod context;
mod declarations;
mod error;
mod methods;
mod modifiers;
mod parts;
mod reports;
mod right_sides;
mod scope_pool;
mod statements;
mod targets;
mod values;
mod walk;

pub use checking::{check, check_types};
pub use error::CheckErr;
pub use parts::{head_refusal, initial_type, is_point_coordinate, statement_refusal};
pub use targets::is_foreach_variable;
