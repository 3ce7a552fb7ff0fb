//! Name resolution: turns a tree into a program in which names are numbers, or finds the first broken naming rule.
#![tactic(auto)]

mod build;
mod checks;
mod classes;
mod context;
mod error;
mod exprs;
mod literals;
mod main_form;
mod method_decls;
mod methods;
mod names;
mod number;
mod resolving;
mod spelling;
mod stmts;
mod tables;
mod types;

pub use error::NameErr;
pub use resolving::{one_program, resolve};
