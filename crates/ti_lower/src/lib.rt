//! Compiles a checked program to bytecode, with the proof that the code follows the program.
#![tactic(auto)]

mod body;
mod builtins;
mod calls;
mod emit_context;
mod inits;
mod laws;
mod methods;
mod receivers;
mod targets;
mod values;
mod walker;

pub use laws::code_follows;
pub use methods::lower;
