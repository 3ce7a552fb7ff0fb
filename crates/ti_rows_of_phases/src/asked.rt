// Dispatches a row by its kind to the function that computes its result.

use crate::evaluation::value;
use crate::no_result::NoResult;
use crate::phases::phase;
use crate::slices::slice;
use crate::tables::{job, table_row};
use crate::walks::walk;
use std::alloc::{AllocError, Global};
use ti_row_files::{Judge, Row, RowErr};
use ti_rules::Refusal;

/// The judge of this program: computes the results of rows by single phases of titan.
#[derive(Clone, Copy)]
pub(crate) struct Phases {
    alloc: Global,
}

impl Phases {
    /// A judge whose results use this allocator.
    pub(crate) fn new(alloc: Global) -> Phases {
        Phases { alloc }
    }
}

impl Judge for Phases {
    fn answer(&self, asked: &str, row: Row) -> Result<Vec<u8>, RowErr> {
        match row_result(self.alloc, asked, row) {
            Ok(found) => Ok(found),
            Err(NoResult::Refused(refusal)) => Ok(shown_refusal(self.alloc, refusal)?.into_bytes()),
            Err(NoResult::Row(error)) => Err(error),
        }
    }
}

/// The rule that a source breaks and the place, such as `X1 1:62`.
fn shown_refusal(alloc: Global, refusal: Refusal) -> Result<String, AllocError> {
    format!(in alloc; "{:?} {:?}", refusal.rule, refusal.place)
}

/// The result of a row of the kind `asked`. `RowErr::Row` if the kind needs what is before `<-` and the row has no `<-`.
fn row_result(alloc: Global, asked: &str, row: Row) -> Result<Vec<u8>, NoResult> {
    match asked {
        "job" => job(alloc, row.spelled),
        "rule" | "fault" | "seed" | "source" => table_row(alloc, asked, row.spelled),
        "value" | "walk" | "slice" => match row.given {
            Some(given) => given_result(alloc, asked, given, row.text),
            None => Err(NoResult::Row(RowErr::Row)),
        },
        _ => phase(alloc, asked, row.text),
    }
}

/// The result of a row of the kind `value`, `walk` or `slice` on a source, with what the row gives before `<-`.
fn given_result(alloc: Global, asked: &str, given: &str, text: &[u8]) -> Result<Vec<u8>, NoResult> {
    match asked {
        "value" => value(alloc, given, text),
        "walk" => walk(alloc, given, text),
        _ => slice(alloc, given, text),
    }
}
