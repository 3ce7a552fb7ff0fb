// Why a server stops before the client says `exit`.

use std::alloc::AllocError;
use std::io;
use thiserror::Error;
use ti_lsp_frames::FrameErr;

/// Why a server stops before the client says `exit`, other than at the end of the input.
#[derive(Debug, Drop, Error)]
pub enum ServeErr {
    /// No message was read.
    #[error("{0}")]
    Frame(FrameErr),
    /// A write failed.
    #[error("a write failed: {0}")]
    Write(io::Error),
    /// 2^64 - 1 messages were handled.
    #[error("too many messages")]
    TooManyMessages,
    /// Out of memory.
    #[error("out of memory")]
    Memory,
}

impl From<FrameErr> for ServeErr {
    fn from(e: FrameErr) -> ServeErr {
        ServeErr::Frame(e)
    }
}

impl From<io::Error> for ServeErr {
    fn from(e: io::Error) -> ServeErr {
        ServeErr::Write(e)
    }
}

impl From<AllocError> for ServeErr {
    fn from(_: AllocError) -> ServeErr {
        ServeErr::Memory
    }
}
