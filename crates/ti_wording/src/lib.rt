//! The words of explanations: labels for positions, the tokens that were expected, and help. The command that writes excerpts takes them from
//! here.
#![tactic(auto)]

mod chain_labels;
mod expectation;
mod grammar_help;
mod help;
mod labels;
mod memory;
mod name_labels;
mod tokens;
mod type_labels;

pub use chain_labels::{is_chain, link_label};
pub use help::{help_of, rule_help};
pub use labels::{error_label, primary_label, reason_label};
pub use memory::NoMemory;
pub use name_labels::is_own;
pub use tokens::{display_text, line_of, token_at};
pub use type_labels::is_said;
