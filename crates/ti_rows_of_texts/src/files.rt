// Judges files of test cases (rows).
// For the prover: these repeat the loops of `judge_files` of ti_row_files over a function of this crate, since a call that starts threads
// can't be proved through a trait method, whose bounds are known on one thread only.

use crate::asked::answer;
use std::env::Env;
use std::rt::Files;
use std::sync::Wait;
use std::thread::Threads;
use std::{env, io};
use ti_row_files::{
    FileLine, FileRow, Row, RowErr, RowInput, contents, input_of, lines_of, report, report_line,
};

/// The actual result of a row.
fn row_result<R: Files + AllocGlobal + Threads + Wait + Sync>(
    rt: &R,
    row: FileRow,
) -> Result<Vec<u8>, RowErr> {
    let RowInput {
        asked,
        given,
        spelled,
        text,
    } = input_of(rt, row)?;
    let text = text.as_slice();
    answer(
        rt,
        asked,
        Row {
            given,
            spelled,
            text,
        },
    )
}

/// Judges a line of a file, and returns whether it is a row that holds.
fn line_holds<R: Files + Print + AllocGlobal + Threads + Wait + Sync>(
    rt: &R,
    file: &str,
    line: FileLine,
) -> io::Result<bool> {
    match line {
        FileLine::Row(row) => report(rt, row, row_result(rt, row)),
        FileLine::Other(line) => report_line(rt, file, line),
    }
}

/// Judges the rows of a file, and prints how many hold.
fn judge_file<R: Files + Print + AllocGlobal + Threads + Wait + Sync>(
    rt: &R,
    file: &str,
) -> io::Result<()> {
    let Some(text) = contents(rt, file)? else {
        return Ok(());
    };
    let mut holding = 0u64;
    for line in &lines_of(rt.alloc(), text.as_str())? {
        if line_holds(rt, file, *line)? {
            holding = holding.wrapping_add(1);
        }
    }
    println!(rt; "{file}: {holding} rows hold")
}

/// Judges the rows of the files that the command-line arguments name.
pub(crate) fn judge_files<R: Files + Print + Env + AllocGlobal + Threads + Wait + Sync>(
    rt: &R,
) -> io::Result<()> {
    for file in env::args(rt)?.skip(1) {
        judge_file(rt, file.as_str())?;
    }
    Ok(())
}
