// Errors of a row.

use std::alloc::{AllocError, AllocFailed};
use thiserror::Error;
use ti_base::Memory;

/// Why a row has no result.
#[derive(Clone, Copy, Debug, Error)]
pub enum RowErr {
    /// The heading above the row requests nothing that is known.
    #[error("no heading that is known")]
    Heading,
    /// The row, or the file that it names, can't be read.
    #[error("no row that can be read")]
    Row,
    /// Out of memory.
    #[error("out of memory")]
    Memory,
}

impl From<Memory> for RowErr {
    fn from(_: Memory) -> RowErr {
        RowErr::Memory
    }
}

impl From<AllocError> for RowErr {
    fn from(_: AllocError) -> RowErr {
        RowErr::Memory
    }
}

impl<T: Drop> From<AllocFailed<T>> for RowErr {
    fn from(_: AllocFailed<T>) -> RowErr {
        RowErr::Memory
    }
}
