// Test cases on `--mode verify`: checks the trace of a run, intact or with one byte changed, against the program that was run.

use crate::commands::{Texts, left_by, shown_ending, trace_of};
use crate::stages::{Stage, split_stage};
use std::alloc::{AllocError, Global};
use std::sync::Wait;
use std::thread::Threads;
use ti_base::Memory;
use ti_row_files::RowErr;

/// A run: its command line, stage, source, and the trace that it left.
#[derive(Drop)]
struct TracedRun<'a> {
    line: &'a str,
    stage: Stage,
    text: &'a [u8],
    trace: Vec<u8>,
}

/// Runs a command on a source and returns the trace of its history.
fn trace_left<R: AllocGlobal + Threads + Wait + Sync>(
    rt: &R,
    line: &str,
    stage: Stage,
    text: &[u8],
) -> Result<Vec<u8>, Memory> {
    let left = left_by(rt, line, stage, Texts::of(text))?;
    trace_of(rt.alloc(), &left.outcome.history)
}

/// Runs what a row gives on a source, and keeps the trace. Error: the row is malformed, or out of memory.
fn run_of<'a, R: AllocGlobal + Threads + Wait + Sync>(
    rt: &R,
    given: &'a str,
    text: &'a [u8],
) -> Result<TracedRun<'a>, RowErr> {
    let Some((line, stage)) = split_stage(given) else {
        return Err(RowErr::Row);
    };
    let trace = trace_left(rt, line, stage, text)?;
    Ok(TracedRun {
        line,
        stage,
        text,
        trace,
    })
}

/// Checks a trace against the program of a run, with the run's arguments, and renders the command's exit status and output.
fn check_trace<R: AllocGlobal + Threads + Wait + Sync>(
    rt: &R,
    run: &TracedRun,
    trace: &[u8],
) -> Result<Vec<u8>, Memory> {
    let line = ["--mode verify --against t.tr ", run.line].concat(rt.alloc())?;
    let texts = Texts::with_trace(run.text, trace);
    let left = left_by(rt, line.as_str(), run.stage, texts)?;
    shown_ending(rt.alloc(), left.outcome.status, &left.sinks)
}

/// Runs a program, checks the trace against it, and renders the check's exit status and output.
pub(crate) fn run_and_check<R: AllocGlobal + Threads + Wait + Sync>(
    rt: &R,
    given: &str,
    text: &[u8],
) -> Result<Vec<u8>, RowErr> {
    let run = run_of(rt, given, text)?;
    Ok(check_trace(rt, &run, &run.trace)?)
}

/// Checks the trace of a run against its program with the lowest bit of the byte at this index flipped.
fn held_with_change<R: AllocGlobal + Threads + Wait + Sync>(
    rt: &R,
    run: &TracedRun,
    at: usize,
) -> Result<Vec<u8>, Memory> {
    let mut changed = run.trace.to_vec(rt.alloc())?;
    if let Some(byte) = changed.get_mut(at) {
        *byte ^= 1;
    }
    check_trace(rt, run, &changed)
}

/// The rendered result of a check that rejects a trace at this line.
fn refused_at(alloc: Global, line: u64) -> Result<String, AllocError> {
    format!(in alloc; "7 err: titan: the trace is no run at line {line}\n")
}

/// Appends the index of a changed byte and the result of the check.
fn push_found(
    alloc: Global,
    shown: &mut Vec<u8>,
    at: usize,
    found: &[u8],
) -> Result<(), AllocError> {
    let named = format!(in alloc; ", but {at}: ")?;
    shown.extend_from_slice(named.as_bytes())?;
    shown.extend_from_slice(found)?;
    Ok(())
}

/// Checks the trace with the byte at this index changed, and appends the result unless the trace is rejected at line `line`.
fn push_change<R: AllocGlobal + Threads + Wait + Sync>(
    rt: &R,
    shown: &mut Vec<u8>,
    run: &TracedRun,
    at: usize,
    line: u64,
) -> Result<(), Memory> {
    let found = held_with_change(rt, run, at)?;
    let wanted = refused_at(rt.alloc(), line)?;
    if found.as_slice() != wanted.as_bytes() {
        push_found(rt.alloc(), shown, at, &found)?;
    }
    Ok(())
}

/// Checks the trace of a run once per byte, with that byte changed.
fn push_changes<R: AllocGlobal + Threads + Wait + Sync>(
    rt: &R,
    shown: &mut Vec<u8>,
    run: &TracedRun,
) -> Result<(), Memory> {
    let mut line = 1u64;
    for (at, byte) in run.trace.iter().enumerate() {
        push_change(rt, shown, run, at, line)?;
        if *byte == b'\n' {
            line = line.wrapping_add(1);
        }
    }
    Ok(())
}

/// Renders the trace's length in bytes and, for each byte whose change isn't rejected at the byte's own line, its index from 0 and the
/// result of the check.
pub(crate) fn check_changes<R: AllocGlobal + Threads + Wait + Sync>(
    rt: &R,
    given: &str,
    text: &[u8],
) -> Result<Vec<u8>, RowErr> {
    let run = run_of(rt, given, text)?;
    let mut shown = format!(in rt.alloc(); "{} bytes", run.trace.len())?.into_bytes();
    push_changes(rt, &mut shown, &run)?;
    Ok(shown)
}
