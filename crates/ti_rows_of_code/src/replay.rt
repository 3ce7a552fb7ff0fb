// Replays a history on one thread: processes by code and a store, scheduled in the order of the history's events.

ghost use Rattle.ti_store.specs.Conditions.{IsWithinRunLimits};

use crate::course::Limits;
use std::alloc::Global;
use ti_base::Memory;
use ti_history::PackedHistory;
use ti_io::{MemSource, Source};
use ti_rules::Checked;
use ti_trace_check::{Verdict, check_trace};
use ti_watch::{TraceWatch, Watch};

/// Renders a history as a trace.
fn text_of(alloc: Global, history: &PackedHistory) -> Result<Vec<u8>, Memory> {
    let mut trace = TraceWatch::new(alloc);
    for entry in history.iter() {
        trace.see(&entry)?;
    }
    let mut text = Vec::new(alloc);
    trace.report(&mut text)?;
    Ok(text)
}

/// An opened in-memory file with these contents; none if memory runs out.
fn source_of(alloc: Global, text: Vec<u8>) -> Option<MemSource> {
    let name = String::from_str(alloc, "trace").ok()?;
    let files = vec![in alloc; (name, text)].ok()?;
    let mut source = MemSource::new(files, 4096, Vec::new(alloc));
    match source.find("trace") {
        Ok(true) => Some(source),
        _ => None,
    }
}

/// The events of a run in which each line of a trace schedules the process that it names; none if a line differs from the event of that
/// process, the run isn't complete, or memory runs out.
fn replay_trace(
    alloc: Global,
    checked: &Checked,
    limits: Limits,
    text: Vec<u8>,
) -> Option<PackedHistory>
    requires { IsWithinRunLimits limits.procs limits.fuel }
{
    let mut source = source_of(alloc, text)?;
    match check_trace(alloc, checked, limits.procs, limits.fuel, &mut source) {
        Ok(Verdict::Run(entries)) => Some(entries),
        _ => None,
    }
}

/// Whether replaying a history, with the processes scheduled in its order, yields exactly its events. False if memory runs out.
pub(crate) fn is_replayed(
    alloc: Global,
    checked: &Checked,
    limits: Limits,
    history: &PackedHistory,
) -> bool
    requires { IsWithinRunLimits limits.procs limits.fuel }
{
    let Ok(text) = text_of(alloc, history) else {
        return false;
    };
    match replay_trace(alloc, checked, limits, text) {
        Some(entries) => entries.iter().eq(history.iter()),
        None => false,
    }
}
