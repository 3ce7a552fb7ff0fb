// Errors of the base protocol. Each is final: after one, nothing says where the next message begins.
ghost use Rattle.std.specs.Prelude.{◌≡◌};

use std::alloc::{AllocError, AllocFailed};
use std::io;
use thiserror::Error;

/// Why no message was read. After an error no further message can be read from the same reader.
#[derive(Debug, Drop, Error)]
pub enum FrameErr {
    /// A line of a header has more than 1,000 bytes before its end.
    #[error("a line of the header is too long")]
    LineTooLong,
    /// A header has more than 31 fields.
    #[error("the header has too many fields")]
    TooManyFields,
    /// A line of a header doesn't end with CR LF, has no colon, or has a `Content-Length` that is no number.
    #[error("a field of the header is malformed")]
    MalformedField,
    /// A header has no `Content-Length`.
    #[error("the header has no Content-Length")]
    NoContentLength,
    /// A header has a second `Content-Length`.
    #[error("the header has a second Content-Length")]
    DuplicateContentLength,
    /// The content has more than 16,777,216 bytes.
    #[error("the message is too long")]
    ContentTooLong,
    /// The reader reached its end within a message.
    #[error("the input ends within a message")]
    UnexpectedEnd,
    /// A read failed.
    #[error("a read failed: {0}")]
    Read(io::Error),
    /// A read was interrupted 1,000 times in a row.
    #[error("a read was interrupted too often")]
    Interrupted,
    /// Out of memory.
    #[error("out of memory")]
    Memory,
}

impl From<AllocError> for FrameErr {
    ghost use Rattle.std.specs.Prelude.{◌≡◌};
    ghost use Rattle.ti_lsp_frames.specs.declared.error.FrameErr.TheVariants.{Memory};

    ghost from_gives = { λ _ e. e ≡ Memory };

    fn from(_: AllocError) -> FrameErr {
        FrameErr::Memory
    }
}

impl<T: Drop> From<AllocFailed<T>> for FrameErr {
    ghost use Rattle.std.specs.Prelude.{◌≡◌};
    ghost use Rattle.ti_lsp_frames.specs.declared.error.FrameErr.TheVariants.{Memory};

    ghost from_gives = { λ _ e. e ≡ Memory };

    fn from(_: AllocFailed<T>) -> FrameErr {
        FrameErr::Memory
    }
}
