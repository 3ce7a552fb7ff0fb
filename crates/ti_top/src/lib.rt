//! The whole of titan as one call, `titan_top`: arguments in, status out, with the files and streams as parameters. The program `titan` makes
//! this call and nothing else, so the call's contract is that of the command.
#![tactic(auto)]

mod coding;
mod command;
mod compiling;
mod exit;
mod fault;
mod inferring;
mod job_result;
mod laws;
mod printing;
mod reading;
mod reports;
mod run_job;
mod run_line;
mod summary;
mod text_queries;
mod verifying;

pub use command::{Outcome, titan_top};
pub use compiling::one_answer;
pub use inferring::one_marking;
pub use laws::one_ending;
pub use text_queries::{marking_of_text, refusal_of_text};
