//! Checks a trace against a program: whether it is the trace of a complete run, and if not, which line is the first wrong one.
//!
//! The trace is replayed: each line names the process whose next entry it has to be, so the run is made again entry by entry (`replay`), on one
//! thread and by the program's code, and each entry's line is compared with the trace's. Memory grows with the run, not with the trace: at most
//! one line and one block of the trace are held (`line_reader`).
#![tactic(auto)]

mod checking;
mod error;
mod laws;
mod line;
mod line_reader;
mod naming;
mod replay;
mod verdict;

pub use checking::check_trace;
pub use error::TraceErr;
pub use laws::one_verdict;
pub use verdict::Verdict;
