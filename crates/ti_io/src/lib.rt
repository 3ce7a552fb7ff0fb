//! Input and output: named sources and sinks of bytes, each with a count of faults; and gates, hooks that processes pass before they act.
//!
//! Code above is generic over these traits. The implementations in memory let a caller choose which calls fail; the adapters to real
//! files and streams promise nothing but their count of faults.
#![tactic(auto)]

mod faults;
mod files;
mod gate;
mod memory;
mod piece;
mod sink;
mod source;
mod streams;

pub use files::FileSource;
pub use gate::{Gate, HoldGate, OpenGate};
pub use memory::sink::MemSink;
pub use memory::source::MemSource;
pub use piece::write_piece;
pub use sink::Sink;
pub use source::{Failed, Source};
pub use streams::StdSink;
