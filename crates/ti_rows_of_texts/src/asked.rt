// Dispatches a test case to the function that its heading selects.

use crate::collectives::collectives;
use crate::commands::command;
use crate::traces::{check_changes, run_and_check};
use std::sync::Wait;
use std::thread::Threads;
use ti_row_files::{Row, RowErr};

/// The bytes to be compared with what a test case expects. `asked` is the first word of the section's heading, such as `command`.
/// Errors: the row has no arguments or is malformed, the heading is unknown, or out of memory.
pub(crate) fn answer<R: AllocGlobal + Threads + Wait + Sync>(
    rt: &R,
    asked: &str,
    row: Row,
) -> Result<Vec<u8>, RowErr> {
    let Some(given) = row.given else {
        return Err(RowErr::Row);
    };
    match asked {
        "collectives" => collectives(rt, given, row.text),
        "traced" => run_and_check(rt, given, row.text),
        "changed" => check_changes(rt, given, row.text),
        _ => command(rt, asked, given, row.text),
    }
}
