//! The rules of the language, the errors of programs that break them, and the type of programs that break none.
#![tactic(auto)]

mod checked;
mod laws;
mod order;
mod reading;
mod refusal;
mod rule;

pub use checked::Checked;
pub use laws::{checked_standing, one_program_refusal, typed_where_unbroken};
pub use order::{earlier_of, first_counts, refused_if};
pub use refusal::Refusal;
pub use rule::{Rule, rule_text};
