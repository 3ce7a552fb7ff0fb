// Prints differences between the two executions of a program.

use crate::comparison::Parting;
use std::alloc::Global;
use std::io;
use ti_base::{Action, Answer, Entry, Memory, Next};
use ti_watch::{TraceWatch, Watch};

/// An event for what process `number` does next, with the result `Done`.
fn entry_of(number: u32, next: Next) -> Entry {
    let (place, act) = match next {
        Next::Act(place, action) => (place, action),
        Next::End(place) => (place, Action::End),
        Next::Fault(kind, place) => (place, Action::Fault { kind }),
    };
    Entry {
        proc: number,
        place,
        act,
        answer: Answer::Done,
    }
}

/// Renders an event as the only line of a trace.
fn trace_line(alloc: Global, entry: &Entry) -> Result<Vec<u8>, Memory> {
    let mut trace = TraceWatch::new(alloc);
    trace.see(entry)?;
    let mut text = Vec::new(alloc);
    trace.report(&mut text)?;
    Ok(text)
}

/// The part of a trace line after the event's number and before its result.
fn line_middle(line: &str) -> &str {
    let behind = match line.split_once(' ') {
        Some((_, behind)) => behind,
        None => line,
    };
    match behind.split_once(" -> ") {
        Some((front, _)) => front,
        None => behind,
    }
}

/// Prints a label and the short form of a trace line.
fn tell_next<R: Print + AllocGlobal>(rt: &R, label: &str, line: &[u8]) -> io::Result<()> {
    let line = String::from_utf8_lossy(rt.alloc(), line)?;
    let shown = line_middle(line.as_str());
    println!(rt; "  {label} {shown}")
}

/// Prints a label and what process `number` does next, or `nothing`.
pub(crate) fn tell<R: Print + AllocGlobal>(
    rt: &R,
    label: &str,
    number: u32,
    next: Option<Next>,
) -> io::Result<()> {
    let Some(next) = next else {
        return println!(rt; "  {label} nothing");
    };
    match trace_line(rt.alloc(), &entry_of(number, next)) {
        Ok(line) => tell_next(rt, label, &line),
        Err(_) => println!(rt; "  {label} what wants memory"),
    }
}

/// Prints the first difference between the two executions of a program: process, index of the event, and what code and trees do there.
pub(crate) fn tell_parting<R: Print + AllocGlobal>(
    rt: &R,
    name: &str,
    parting: Parting,
) -> io::Result<()> {
    let Parting {
        number,
        entry,
        expected,
        found,
    } = parting;
    println!(rt; "{name}: process {number}, entry {entry}")?;
    tell(rt, "expected", number, expected)?;
    tell(rt, "found   ", number, found)
}
