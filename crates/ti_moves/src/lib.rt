//! The execution of single statements: their outcome (a move of the process), given the answers that their actions have received so far.
#![tactic(auto)]

mod assign;
mod calls;
mod collectives;
mod copies;
mod makers;
mod outcomes;
mod prints;
mod references;
mod scopes;
mod statements;
mod stmt_path;
mod targets;

pub use assign::{Dest, RightSide, dest_at, store_value};
pub use calls::{argument, body_of, method, number_called};
pub use collectives::{delete, root_among};
pub use copies::{copy_element, take_element};
pub use outcomes::{CollectiveCall, Continuation, StmtOutcome, VarUpdate};
pub use scopes::leave;
pub use statements::{continue_with, returns, statement, store_received};
pub use stmt_path::{condition, count, has_update, is_for, loop_place, statement_at};
