// Test cases on program slices: runs a program and checks that the slice of each process predicts every collective at which the process
// arrives, and its end, from the results of the earlier collectives.

ghost use Rattle.std.specs.Prelude.{◌≤◌, IfSome};

use crate::check_source::check_source;
use crate::commands::{CommandResult, Texts, left_by};
use crate::stages::PLAIN;
use std::alloc::Global;
use std::sync::Wait;
use std::thread::Threads;
use ti_align::SliceStep;
use ti_base::{Action, Answer, Entry, Memory};
use ti_history::PackedHistory;
use ti_row_files::RowErr;
use ti_rules::Checked;
use ti_slice::slice_next;

/// The tick budget of each process, both of the run (the command's default) and of its program slice.
const FUEL: u32 = 100000;

/// The slice step that predicts this event: an arrival at a collective or an end; none for events that slices leave out.
fn slice_at(entry: &Entry) -> Option<SliceStep> {
    match entry.act {
        Action::Arrive { kind, arg, .. } => Some(SliceStep::At(kind, entry.place, arg)),
        Action::End => Some(SliceStep::Ended),
        _ => None,
    }
}

/// Whether the slice predicts this event, given the results of the collectives before it. Events that slices leave out always pass.
fn tells_entry(
    alloc: Global,
    c: &Checked,
    procs: u32,
    outcomes: &[Answer],
    entry: &Entry,
) -> Result<bool, Memory>
    requires { procs ≤ 32 }
{
    match slice_at(entry) {
        Some(step) => Ok(slice_next(alloc, c, procs, FUEL, outcomes)? == step),
        None => Ok(true),
    }
}

/// The number of collectives from which process `number` departs in a history; none if its slice mispredicts an arrival or the end.
fn departures_of(
    alloc: Global,
    c: &Checked,
    procs: u32,
    history: &PackedHistory,
    number: u32,
) -> Result<Option<usize>, Memory>
    requires { procs ≤ 32 }
{
    let mut outcomes = Vec::new(alloc);
    for entry in history.iter() {
        if entry.proc == number {
            if !tells_entry(alloc, c, procs, &outcomes, &entry)? {
                return Ok(None);
            }
            if entry.act == Action::Depart {
                outcomes.push(entry.answer)?;
            }
        }
    }
    Ok(Some(outcomes.len()))
}

/// The number of collectives from which process 0 departs; none if the slice of any process mispredicts an arrival or the end.
fn departures(
    alloc: Global,
    c: &Checked,
    procs: u32,
    history: &PackedHistory,
) -> Result<Option<usize>, Memory>
    requires { procs ≤ 32 }
{
    for number in 1..procs {
        if departures_of(alloc, c, procs, history, number)?.is_none() {
            return Ok(None);
        }
    }
    departures_of(alloc, c, procs, history, 0)
}

/// Runs the command on a source with `procs` processes and one worker.
fn left_with<R: AllocGlobal + Threads + Wait + Sync>(
    rt: &R,
    procs: u32,
    text: &[u8],
) -> Result<CommandResult, Memory> {
    let line = format!(in rt.alloc(); "--procs {procs} --workers 1 a.ti")?;
    left_by(rt, line.as_str(), PLAIN, Texts::of(text))
}

/// Runs a source with `procs` processes and returns the number of collectives from which process 0 departs; none if a slice mispredicts.
fn departures_in<R: AllocGlobal + Threads + Wait + Sync>(
    rt: &R,
    procs: u32,
    text: &[u8],
) -> Result<Option<usize>, RowErr>
    requires { procs ≤ 32 }
{
    let left = left_with(rt, procs, text)?;
    let c = check_source(rt.alloc(), text)?;
    Ok(departures(rt.alloc(), &c, procs, &left.outcome.history)?)
}

/// Parses the number of processes; none unless it is at most 32.
fn procs_of(given: &str) -> Option<u32>
    ensures { IfSome result (λ procs. procs ≤ 32) }
{
    match given.parse::<u32>() {
        Ok(procs) if procs <= 32 => Some(procs),
        _ => None,
    }
}

/// Runs a source with the number of processes in `given`. Returns the number of collectives from which process 0 departs, in decimal, or
/// `not told` if the slice of some process mispredicts an arrival or the end.
pub(crate) fn collectives<R: AllocGlobal + Threads + Wait + Sync>(
    rt: &R,
    given: &str,
    text: &[u8],
) -> Result<Vec<u8>, RowErr> {
    let Some(procs) = procs_of(given) else {
        return Err(RowErr::Row);
    };
    match departures_in(rt, procs, text)? {
        Some(count) => Ok(format!(in rt.alloc(); "{count}")?.into_bytes()),
        None => Ok(b"not told".to_vec(rt.alloc())?),
    }
}
