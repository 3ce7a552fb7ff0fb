// Reads files of test programs, compares the two executions of each program and counts those that agree.

ghost use Rattle.std.specs.Prelude.{◌≤◌, IfSome};
ghost use Rattle.ti_store.specs.Conditions.{IsWithinRunLimits};

use crate::comparison::{Comparison, compare_source};
use crate::course::Limits;
use crate::inferred::is_remarked;
use crate::telling::tell_parting;
use std::rt::Files;
use std::sync::Wait;
use std::thread::Threads;
use std::{fs, io};

/// The totals over all programs so far.
#[derive(Clone, Copy)]
pub(crate) struct Count {
    /// The programs whose executions agree with one worker.
    pub programs: u64,
    /// The events of these runs.
    pub entries: usize,
    /// The programs whose executions agree with as many workers as processes.
    pub on_threads: u64,
    /// The programs that break no rule with inferred `single` annotations in place of their own.
    pub remarked: u64,
}

/// Parses limits; none unless there are 1 to 32 processes and 1 to 4,000,000 ticks.
fn limits_of(procs: &str, fuel: &str) -> Option<Limits>
    ensures { IfSome result (λ limits. IsWithinRunLimits limits.procs limits.fuel) }
{
    let procs = procs.parse::<u32>().ok()?;
    let fuel = fuel.parse::<u32>().ok()?;
    if 1 <= procs && procs <= 32 && 1 <= fuel && fuel <= 4_000_000 {
        Some(Limits { procs, fuel })
    } else {
        None
    }
}

/// Parses a heading such as `2 1000 a barrier`: the number of processes, the ticks of each, and a name.
fn read_heading(line: &str) -> Option<(Limits, &str)>
    ensures { IfSome result (λ found. IsWithinRunLimits found.0.procs found.0.fuel) }
{
    let (procs, behind) = line.split_once(' ')?;
    let (fuel, name) = behind.split_once(' ')?;
    Some((limits_of(procs, fuel)?, name))
}

/// Compares the two executions of a program with `workers` workers. Returns the number of events if they agree; else prints the result.
fn compare_program<R: Print + AllocGlobal + Threads + Wait + Sync>(
    rt: &R,
    name: &str,
    text: &str,
    limits: Limits,
    workers: u32,
) -> io::Result<Option<usize>>
    requires limits { IsWithinRunLimits limits.procs limits.fuel }
    requires workers { 1 ≤ workers }
{
    match compare_source(rt, text.as_bytes(), limits, workers) {
        Comparison::Agrees(entries) => return Ok(Some(entries)),
        Comparison::Parts(parting) => tell_parting(rt, name, parting)?,
        Comparison::Refused => println!(rt; "{name}: no program")?,
        Comparison::Memory => println!(rt; "{name}: the run wants memory")?,
        Comparison::Stranger => println!(rt; "{name}: an entry is of no process")?,
        Comparison::Other => println!(rt; "{name}: the order of the history makes other entries")?,
    }
    Ok(None)
}

/// Compares the executions of a program with one worker and with a worker per process, checks it with inferred annotations, and adds it to
/// the totals.
fn judge<R: Print + AllocGlobal + Threads + Wait + Sync>(
    rt: &R,
    name: &str,
    text: &str,
    limits: Limits,
    count: Count,
) -> io::Result<Count>
    requires { IsWithinRunLimits limits.procs limits.fuel }
{
    let mut found = count;
    if let Some(entries) = compare_program(rt, name, text, limits, 1)? {
        found.programs = found.programs.wrapping_add(1);
        found.entries = found.entries.wrapping_add(entries);
    }
    if compare_program(rt, name, text, limits, limits.procs)?.is_some() {
        found.on_threads = found.on_threads.wrapping_add(1);
    }
    if is_remarked(rt.alloc(), text.as_bytes()) {
        found.remarked = found.remarked.wrapping_add(1);
    }
    Ok(found)
}

/// Judges a piece of a file: a heading, then a program. Prints the first line if it is no heading.
fn judge_piece<R: Files + Print + AllocGlobal + Threads + Wait + Sync>(
    rt: &R,
    piece: &str,
    count: Count,
) -> io::Result<Count> {
    let (line, text) = match piece.split_once('\n') {
        Some(parts) => parts,
        None => (piece, ""),
    };
    match read_heading(line) {
        Some((limits, name)) => judge(rt, name, text, limits, count),
        None => {
            println!(rt; "no heading: {line}")?;
            Ok(count)
        }
    }
}

/// Judges the programs in a file's contents, each of which follows a line that begins with `== `.
fn judge_all<R: Files + Print + AllocGlobal + Threads + Wait + Sync>(
    rt: &R,
    text: &str,
    count: Count,
) -> io::Result<Count> {
    let Some((_, behind)) = text.split_once("\n== ") else {
        return Ok(count);
    };
    let mut left = behind;
    let mut found = count;
    for _ in 0..text.len() {
        match left.split_once("\n== ") {
            Some((piece, behind)) => {
                found = judge_piece(rt, piece, found)?;
                left = behind;
            }
            None => return judge_piece(rt, left, found),
        }
    }
    Ok(found)
}

/// Judges the programs of a file, or prints that it can't be read.
pub(crate) fn judge_file<R: Files + Print + AllocGlobal + Threads + Wait + Sync>(
    rt: &R,
    file: &str,
    count: Count,
) -> io::Result<Count> {
    match fs::read_to_string(rt, file) {
        Ok(text) => judge_all(rt, text.as_str(), count),
        Err(_) => {
            println!(rt; "{file}: can't be read")?;
            Ok(count)
        }
    }
}
