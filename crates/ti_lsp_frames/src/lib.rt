//! The base protocol of the Language Server Protocol: messages with a header that gives the length of their content, read from a reader of
//! bytes and written to a writer.
#![tactic(auto)]

mod error;
mod header_field;
mod message;
mod reading;
mod writing;

pub use error::FrameErr;
pub use message::read_message;
pub use writing::write_message;
