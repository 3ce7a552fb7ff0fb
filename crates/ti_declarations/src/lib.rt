//! Where the names of a source are declared, and what they stand for, found by its tokens. So names are known in rejected sources, too, as long
//! as these have tokens.
#![tactic(auto)]

mod chains;
mod description;
mod known;
mod members;
mod offsets;
mod resolving;
mod symbols;
mod tokens;
mod variables;

pub use known::known_name;
pub use offsets::token_offsets;
pub use symbols::symbols_of;
