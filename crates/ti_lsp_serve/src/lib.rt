//! A language server as a loop: it reads messages, handles each in a session, and writes what the session sends. It is generic over the
//! reader, the writer and the analyzer, so that the contract is about every server of this kind.
#![tactic(auto)]

mod error;
mod serving;

pub use error::ServeErr;
pub use serving::serve;
