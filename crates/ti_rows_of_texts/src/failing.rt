// Fault injection: runs a command repeatedly, each time with another failing call, and renders how much output it still wrote.

use crate::check_source::check_source;
use crate::commands::{CommandResult, Texts, left_by, trace_of};
use crate::stages::Stage;
use std::alloc::{AllocError, Global};
use std::sync::Wait;
use std::thread::Threads;
use ti_base::{Action, Entry, Memory, Value};
use ti_history::PackedHistory;
use ti_row_files::RowErr;
use ti_rules::Checked;
use ti_watch::{StatsWatch, Watch};

/// The number of runs; in run n, the call with index n fails.
const RUNS: u32 = 20;

/// Renders the statistics of events.
fn statistics_of(alloc: Global, history: &PackedHistory) -> Result<Vec<u8>, Memory> {
    let mut stats = StatsWatch::new(alloc);
    for entry in history.iter() {
        stats.see(&entry)?;
    }
    let mut text = Vec::new(alloc);
    stats.report(&mut text)?;
    Ok(text)
}

/// Appends the characters of the string literal with this index, if there is one.
fn push_literal(text: &mut Vec<u8>, checked: &Checked, literal: Option<u32>) -> Result<(), Memory> {
    if let Some(number) = literal {
        if let Some(spelled) = checked.program.parts.literals.get(number as usize) {
            text.extend_from_slice(spelled.as_bytes())?;
        }
    }
    Ok(())
}

/// Appends the line that a print event outputs, without a value that isn't an `int`. Other events append nothing.
fn push_line(
    alloc: Global,
    text: &mut Vec<u8>,
    checked: &Checked,
    entry: &Entry,
) -> Result<(), Memory> {
    if let Action::Print { literal, value } = entry.act {
        push_literal(text, checked, literal)?;
        if let Some(Value::Int(n)) = value {
            text.extend_from_slice(format!(in alloc; "{n}")?.as_bytes())?;
        }
        text.push(b'\n')?;
    }
    Ok(())
}

/// The full standard output of a run: the printed lines, then the trace and the statistics.
fn output_of(alloc: Global, checked: &Checked, history: &PackedHistory) -> Result<Vec<u8>, Memory> {
    let mut text = Vec::new(alloc);
    for entry in history.iter() {
        push_line(alloc, &mut text, checked, &entry)?;
    }
    text.extend_from_slice(&trace_of(alloc, history)?)?;
    text.extend_from_slice(&statistics_of(alloc, history)?)?;
    Ok(text)
}

/// Renders how much of the full output was written: `all`, the length in bytes of a proper prefix, or `something else`.
fn part_of(alloc: Global, written: &[u8], whole: &[u8]) -> Result<String, AllocError> {
    if written == whole {
        return String::from_str(alloc, "all");
    }
    if whole.starts_with(written) {
        format!(in alloc; "{}", written.len())
    } else {
        String::from_str(alloc, "something else")
    }
}

/// Renders a run as `status:output:errors`: its exit status, how much of its output was written to standard output, and the number of
/// bytes on standard error.
fn run_text(alloc: Global, checked: &Checked, left: &CommandResult) -> Result<String, RowErr> {
    let whole = output_of(alloc, checked, &left.outcome.history)?;
    let out = part_of(alloc, left.sinks.out.bytes(), &whole)?;
    let err = left.sinks.err.bytes().len();
    Ok(format!(in alloc; "{}:{}:{err}", left.outcome.status, out.as_str())?)
}

/// Runs the command once and appends the rendered run.
fn push_run<R: AllocGlobal + Threads + Wait + Sync>(
    rt: &R,
    found: &mut Vec<u8>,
    line: &str,
    stage: Stage,
    text: &[u8],
    checked: &Checked,
) -> Result<(), RowErr> {
    let left = left_by(rt, line, stage, Texts::of(text))?;
    let shown = run_text(rt.alloc(), checked, &left)?;
    found.extend_from_slice(shown.as_bytes())?;
    Ok(())
}

/// Appends the rendered runs, separated by spaces; in run n, the call with index n fails.
fn push_runs<R: AllocGlobal + Threads + Wait + Sync>(
    rt: &R,
    found: &mut Vec<u8>,
    line: &str,
    stage: Stage,
    text: &[u8],
    checked: &Checked,
) -> Result<(), RowErr> {
    for number in 0..RUNS {
        if number > 0 {
            found.push(b' ')?;
        }
        push_run(rt, found, line, stage.in_run(number), text, checked)?;
    }
    Ok(())
}

/// Renders all runs of a command, in each of which another call fails: the exit status, how much of its output was written to standard
/// output, and the number of bytes on standard error.
pub(crate) fn each_failing<R: AllocGlobal + Threads + Wait + Sync>(
    rt: &R,
    line: &str,
    stage: Stage,
    text: &[u8],
) -> Result<Vec<u8>, RowErr> {
    let checked = check_source(rt.alloc(), text)?;
    let mut found = Vec::new(rt.alloc());
    push_runs(rt, &mut found, line, stage, text, &checked)?;
    Ok(found)
}
