// Runs files of rows and prints the results.

use crate::error::RowErr;
use crate::judge::{Judge, Row};
use crate::judging::{RowInput, input_of, mismatch};
use crate::lines::{FileLine, FileRow, lines_of};
use std::env::Env;
use std::rt::Files;
use std::{env, fs, io};

/// The contents of a file after an empty line; `None` if it can't be read, which is printed.
pub fn contents<R: Files + Print + AllocGlobal>(rt: &R, file: &str) -> io::Result<Option<String>> {
    match fs::read_to_string(rt, file) {
        Ok(text) => Ok(Some(["\n", text.as_str()].concat(rt.alloc())?)),
        Err(_) => {
            println!(rt; "{file}: can't be read")?;
            Ok(None)
        }
    }
}

/// The difference of a result from what its row expects: the result in the notation of rows; `None` if it is as expected.
fn difference<R: AllocGlobal>(
    rt: &R,
    row: FileRow,
    found: Result<Vec<u8>, RowErr>,
) -> Result<Option<String>, RowErr> {
    mismatch(rt.alloc(), &found?, row.expected)
}

/// Compares a result with what its row expects, prints the row if it fails, and returns whether it passes.
pub fn report<R: Print + AllocGlobal>(
    rt: &R,
    row: FileRow,
    found: Result<Vec<u8>, RowErr>,
) -> io::Result<bool> {
    let FileRow {
        row: input,
        expected,
        ..
    } = row;
    match difference(rt, row, found) {
        Ok(None) => return Ok(true),
        Ok(Some(found)) => {
            println!(rt; "{input}\n  expected {expected}\n  found    {found}")?;
        }
        Err(error) => println!(rt; "{input}\n  expected {expected}\n  {error}")?,
    }
    Ok(false)
}

/// Prints a line that is neither a row nor a comment. Returns `false`, since no row passes there.
pub fn report_line<R: Print>(rt: &R, file: &str, line: &str) -> io::Result<bool> {
    println!(rt; "{file}: no row: {line}")?;
    Ok(false)
}

/// The result of a row by a judge.
fn row_result<R: Files + AllocGlobal, J: Judge>(
    rt: &R,
    judge: &J,
    row: FileRow,
) -> Result<Vec<u8>, RowErr> {
    let RowInput {
        asked,
        given,
        spelled,
        text,
    } = input_of(rt, row)?;
    let text = text.as_slice();
    judge.answer(
        asked,
        Row {
            given,
            spelled,
            text,
        },
    )
}

/// Judges a line of a file, and returns whether it is a row that passes.
fn line_holds<R: Files + Print + AllocGlobal, J: Judge>(
    rt: &R,
    judge: &J,
    file: &str,
    line: FileLine,
) -> io::Result<bool> {
    match line {
        FileLine::Row(row) => report(rt, row, row_result(rt, judge, row)),
        FileLine::Other(line) => report_line(rt, file, line),
    }
}

/// Judges the rows of a file, and prints how many pass.
fn judge_file<R: Files + Print + AllocGlobal, J: Judge>(
    rt: &R,
    judge: &J,
    file: &str,
) -> io::Result<()> {
    let Some(text) = contents(rt, file)? else {
        return Ok(());
    };
    let mut holding = 0u64;
    for line in &lines_of(rt.alloc(), text.as_str())? {
        if line_holds(rt, judge, file, *line)? {
            holding = holding.wrapping_add(1);
        }
    }
    println!(rt; "{file}: {holding} rows hold")
}

/// Judges the rows of the files that the program's arguments name, one after the other.
pub fn judge_files<R: Files + Print + Env + AllocGlobal, J: Judge>(
    rt: &R,
    judge: &J,
) -> io::Result<()> {
    for file in env::args(rt)?.skip(1) {
        judge_file(rt, judge, file.as_str())?;
    }
    Ok(())
}
