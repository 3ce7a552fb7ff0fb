//! Parses the command-line arguments into a job.
#![tactic(auto)]

mod arguments;
mod error;
mod job;
mod numbers;
mod piece;
mod words;

pub use error::WordsErr;
pub use job::{FileName, Job, Mode};
pub use words::read_words;
