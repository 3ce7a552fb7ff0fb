// The errors of all phases as one type, so that `?` converts each of them.

use std::alloc::{AllocError, AllocFailed};
use ti_base::Memory;
use ti_check::CheckErr;
use ti_lex::LexErr;
use ti_names::NameErr;
use ti_parse::ParseErr;
use ti_row_files::RowErr;
use ti_rules::Refusal;
use ti_types::TypeErr;

/// Why a row has no result.
#[derive(Clone, Copy)]
pub(crate) enum NoResult {
    /// A phase rejects the source. A row may expect this.
    Refused(Refusal),
    /// The row can't be evaluated.
    Row(RowErr),
}

/// Out of memory.
pub(crate) const MEMORY: NoResult = NoResult::Row(RowErr::Memory);

/// The row is malformed, or names something that doesn't exist.
pub(crate) const NO_ROW: NoResult = NoResult::Row(RowErr::Row);

impl From<RowErr> for NoResult {
    fn from(error: RowErr) -> NoResult {
        NoResult::Row(error)
    }
}

impl From<Memory> for NoResult {
    fn from(_: Memory) -> NoResult {
        MEMORY
    }
}

impl From<AllocError> for NoResult {
    fn from(_: AllocError) -> NoResult {
        MEMORY
    }
}

impl<T: Drop> From<AllocFailed<T>> for NoResult {
    fn from(_: AllocFailed<T>) -> NoResult {
        MEMORY
    }
}

impl From<LexErr> for NoResult {
    fn from(error: LexErr) -> NoResult {
        match error {
            LexErr::Refused(refusal) => NoResult::Refused(refusal),
            LexErr::Memory => MEMORY,
        }
    }
}

impl From<ParseErr> for NoResult {
    fn from(error: ParseErr) -> NoResult {
        match error {
            ParseErr::Refused(refusal) => NoResult::Refused(refusal),
            ParseErr::Memory => MEMORY,
        }
    }
}

impl From<NameErr> for NoResult {
    fn from(error: NameErr) -> NoResult {
        match error {
            NameErr::Refused(refusal) => NoResult::Refused(refusal),
            NameErr::Memory => MEMORY,
        }
    }
}

impl From<CheckErr> for NoResult {
    fn from(error: CheckErr) -> NoResult {
        match error {
            CheckErr::Refused(refusal) => NoResult::Refused(refusal),
            CheckErr::Memory => MEMORY,
        }
    }
}

impl From<TypeErr> for NoResult {
    fn from(error: TypeErr) -> NoResult {
        match error {
            TypeErr::Refused(refusal) => NoResult::Refused(refusal),
            TypeErr::Memory => MEMORY,
        }
    }
}
