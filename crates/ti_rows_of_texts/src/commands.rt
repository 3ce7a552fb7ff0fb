// Runs the command on in-memory files and streams, with failing calls, watchers and held processes as a test case requests, and renders
// what the test case compares.

use crate::failing::each_failing;
use crate::fronts::fronts;
use crate::stages::{Fails, HeldPair, ROOM, Stage, split_stage};
use crate::watchers::{Handed, short_of, told_trace};
use std::alloc::Global;
use std::sync::Wait;
use std::sync::atomic::{AtomicU32, Ordering};
use std::thread::Threads;
use ti_base::Memory;
use ti_history::PackedHistory;
use ti_io::{Gate, HoldGate, MemSink, MemSource};
use ti_race::RaceWatch;
use ti_row_files::{RowErr, bytes_of};
use ti_top::{Outcome, titan_top};
use ti_watch::{StatsWatch, TraceWatch, Watch};

/// The gate that processes pass before their operations: counts the passes, and holds two processes if a test case requests it.
#[derive(Drop)]
struct Passage {
    /// How often a process has passed so far, over all processes.
    passes: AtomicU32,
    held: Option<HoldGate>,
}

impl Gate for Passage {
    fn pass(&self, p: u32) {
        self.passes.fetch_add(1, Ordering::SeqCst);
        if let Some(gate) = &self.held {
            gate.pass(p);
        }
    }
}

impl Passage {
    /// A gate without passes that holds the processes in `held`, if there are any.
    fn of(held: Option<HeldPair>) -> Passage {
        let passes = AtomicU32::new(0);
        match held {
            Some(held) => Passage {
                passes,
                held: Some(HoldGate::new(held.one, held.other, held.looks)),
            },
            None => Passage { passes, held: None },
        }
    }

    /// Whether a held process stopped waiting for the other.
    fn gave_up(&self) -> bool {
        match &self.held {
            Some(gate) => gate.gave_up(),
            None => false,
        }
    }

    /// How often a process has passed, over all processes.
    fn count(&self) -> u32 {
        self.passes.load(Ordering::SeqCst)
    }
}

/// The in-memory standard output and standard error.
#[derive(Drop)]
pub(crate) struct Sinks {
    pub(crate) out: MemSink,
    pub(crate) err: MemSink,
}

/// The files that the command reads, and the streams that it writes.
#[derive(Drop)]
struct Streams {
    source: MemSource,
    sinks: Sinks,
}

/// The command-line arguments, and the streams that the command reads and writes.
#[derive(Drop)]
struct CommandCall {
    words: Vec<String>,
    streams: Streams,
}

/// The result of a command: its outcome, its output, and what the gate observed.
#[derive(Drop)]
pub(crate) struct CommandResult {
    pub(crate) outcome: Outcome,
    pub(crate) sinks: Sinks,
    /// Whether a held process stopped waiting for the other.
    gave_up: bool,
    /// How often a process has passed the gate, over all processes.
    passes: u32,
}

/// The contents of the files: `a.ti` is a source, and `t.tr` is a trace, if there is one.
#[derive(Clone, Copy)]
pub(crate) struct Texts<'a> {
    pub(crate) text: &'a [u8],
    pub(crate) trace: Option<&'a [u8]>,
}

impl<'a> Texts<'a> {
    /// A source without a trace.
    pub(crate) fn of(text: &'a [u8]) -> Texts<'a> {
        Texts { text, trace: None }
    }

    /// A source and a trace.
    pub(crate) fn with_trace(text: &'a [u8], trace: &'a [u8]) -> Texts<'a> {
        let trace = Some(trace);
        Texts { text, trace }
    }
}

/// The indices of the calls that fail: one for `At`, none for `Never` and for an unresolved `Each`.
fn fails_of(alloc: Global, fails: Fails) -> Result<Vec<u32>, Memory> {
    let mut numbers = Vec::new(alloc);
    if let Fails::At(number) = fails {
        numbers.push(number)?;
    }
    Ok(numbers)
}

/// A sink that accepts at most 3 bytes per write and `room` bytes in all.
fn sink_of(alloc: Global, fails: Fails, room: usize) -> Result<MemSink, Memory> {
    let fails = fails_of(alloc, fails)?;
    MemSink::new(alloc, 3, room, fails)
}

/// Standard output and standard error as a stage describes them.
fn sinks_of(alloc: Global, stage: Stage) -> Result<Sinks, Memory> {
    let out = sink_of(alloc, stage.out, stage.room)?;
    let err = sink_of(alloc, stage.err, ROOM)?;
    Ok(Sinks { out, err })
}

/// Appends a file.
fn push_file(
    alloc: Global,
    files: &mut Vec<(String, Vec<u8>)>,
    name: &str,
    text: &[u8],
) -> Result<(), Memory> {
    let name = String::from_str(alloc, name)?;
    files.push((name, text.to_vec(alloc)?))?;
    Ok(())
}

/// The files by name, with their contents.
fn files_of(alloc: Global, texts: Texts) -> Result<Vec<(String, Vec<u8>)>, Memory> {
    let mut files = Vec::new(alloc);
    push_file(alloc, &mut files, "a.ti", texts.text)?;
    if let Some(trace) = texts.trace {
        push_file(alloc, &mut files, "t.tr", trace)?;
    }
    Ok(files)
}

/// An in-memory file system with these files, which yields at most 8 bytes per read.
fn source_of(alloc: Global, texts: Texts, fails: Fails) -> Result<MemSource, Memory> {
    let files = files_of(alloc, texts)?;
    let fails = fails_of(alloc, fails)?;
    Ok(MemSource::new(files, 8, fails))
}

/// The files and the output streams as a stage describes them.
fn streams_of(alloc: Global, stage: Stage, texts: Texts) -> Result<Streams, Memory> {
    let source = source_of(alloc, texts, stage.source)?;
    let sinks = sinks_of(alloc, stage)?;
    Ok(Streams { source, sinks })
}

/// Splits a command line into arguments at white space.
fn words_of(alloc: Global, line: &str) -> Result<Vec<String>, Memory> {
    let mut words = Vec::new(alloc);
    for word in line.split_ascii_whitespace() {
        words.push(String::from_str(alloc, word)?)?;
    }
    Ok(words)
}

/// A command line with its files and streams, ready to run.
fn call_of(alloc: Global, line: &str, stage: Stage, texts: Texts) -> Result<CommandCall, Memory> {
    let streams = streams_of(alloc, stage, texts)?;
    let words = words_of(alloc, line)?;
    Ok(CommandCall { words, streams })
}

/// Runs the command. For the prover: the only call of `titan_top`, since each further one would be expensive to prove.
fn call_command<R: AllocGlobal + Threads + Wait + Sync>(
    rt: &R,
    call: CommandCall,
    gate: &Passage,
    watchers: Vec<Box<dyn Watch>>,
) -> CommandResult {
    let CommandCall { words, streams } = call;
    let Streams { source, sinks } = streams;
    let Sinks { out, err } = sinks;
    let mut source = source;
    let mut out = out;
    let mut err = err;
    let outcome = titan_top(rt, &words, &mut source, &mut out, &mut err, gate, watchers);
    CommandResult {
        outcome,
        sinks: Sinks { out, err },
        gave_up: gate.gave_up(),
        passes: gate.count(),
    }
}

/// Appends a watcher.
fn put(watchers: &mut Vec<Box<dyn Watch>>, watcher: Box<dyn Watch>) -> Result<(), Memory> {
    watchers.push(watcher)?;
    Ok(())
}

/// Runs a command line in a stage.
/// For the prover: the watchers are constructed here, since no function can return them, and first, since each value that is live at an
/// allocation failure must be dropped on a path of its own.
pub(crate) fn left_by<R: AllocGlobal + Threads + Wait + Sync>(
    rt: &R,
    line: &str,
    stage: Stage,
    texts: Texts,
) -> Result<CommandResult, Memory> {
    let alloc = rt.alloc();
    let mut watchers: Vec<Box<dyn Watch>> = Vec::new(alloc);
    for handed in stage.watchers {
        match handed {
            Some(Handed::Trace) => put(&mut watchers, Box::new(alloc, TraceWatch::new(alloc))?)?,
            Some(Handed::ToldTrace) => put(&mut watchers, Box::new(alloc, told_trace(alloc)?)?)?,
            Some(Handed::Stats) => put(&mut watchers, Box::new(alloc, StatsWatch::new(alloc))?)?,
            Some(Handed::Races) => put(&mut watchers, Box::new(alloc, RaceWatch::new(alloc))?)?,
            Some(Handed::Deaf) => put(&mut watchers, Box::new(alloc, short_of(alloc, 1))?)?,
            Some(Handed::Mute) => put(&mut watchers, Box::new(alloc, short_of(alloc, 100))?)?,
            None => {}
        }
    }
    let call = call_of(alloc, line, stage, texts)?;
    let gate = Passage::of(stage.held);
    Ok(call_command(rt, call, &gate, watchers))
}

/// Appends a label and bytes, unless there are no bytes.
fn push_named(text: &mut Vec<u8>, name: &[u8], bytes: &[u8]) -> Result<(), Memory> {
    if !bytes.is_empty() {
        text.extend_from_slice(name)?;
        text.extend_from_slice(bytes)?;
    }
    Ok(())
}

/// Renders the exit status, then standard output and standard error, each unless it is empty.
pub(crate) fn shown_ending(alloc: Global, status: u8, sinks: &Sinks) -> Result<Vec<u8>, Memory> {
    let mut text = format!(in alloc; "{status}")?.into_bytes();
    push_named(&mut text, b" out: ", sinks.out.bytes())?;
    push_named(&mut text, b" err: ", sinks.err.bytes())?;
    Ok(text)
}

/// A trace watcher that has observed these events.
fn told_watcher(alloc: Global, history: &PackedHistory) -> Result<TraceWatch, Memory> {
    let mut trace = TraceWatch::new(alloc);
    for entry in history.iter() {
        trace.see(&entry)?;
    }
    Ok(trace)
}

/// The report of a trace watcher.
fn report_of(alloc: Global, trace: &TraceWatch) -> Result<Vec<u8>, Memory> {
    let mut text = Vec::new(alloc);
    trace.report(&mut text)?;
    Ok(text)
}

/// Renders events as a trace.
pub(crate) fn trace_of(alloc: Global, history: &PackedHistory) -> Result<Vec<u8>, Memory> {
    let trace = told_watcher(alloc, history)?;
    report_of(alloc, &trace)
}

/// A trace watcher that has observed only the last of these events.
fn told_last(alloc: Global, history: &PackedHistory) -> Result<TraceWatch, Memory> {
    let mut trace = TraceWatch::new(alloc);
    if let Some(entry) = history.last() {
        trace.see(&entry)?;
    }
    Ok(trace)
}

/// Renders the number of events, and the last one as the only line of a trace.
fn last_of(alloc: Global, history: &PackedHistory) -> Result<Vec<u8>, Memory> {
    let trace = told_last(alloc, history)?;
    let last = report_of(alloc, &trace)?;
    let mut text = format!(in alloc; "{} entries, the last: ", history.len())?.into_bytes();
    text.extend_from_slice(&last)?;
    Ok(text)
}

/// Renders numbers in decimal, separated by spaces.
fn number_list(alloc: Global, numbers: &[u64]) -> Result<Vec<u8>, Memory> {
    let mut text = Vec::new(alloc);
    for number in numbers {
        if !text.is_empty() {
            text.push(b' ')?;
        }
        text.extend_from_slice(format!(in alloc; "{number}")?.as_bytes())?;
    }
    Ok(text)
}

/// Renders the exit status, the number of events, and whether a held process stopped waiting.
fn shown_holding(alloc: Global, left: &CommandResult) -> Result<Vec<u8>, Memory> {
    let how = if left.gave_up {
        "one gave up"
    } else {
        "none gave up"
    };
    let Outcome {
        status,
        history,
        ..
    } = &left.outcome;
    Ok(format!(in alloc; "{status}, {} entries, {how}", history.len())?.into_bytes())
}

/// Renders the exit status, the number of events, and how often processes have passed the gate.
fn shown_passes(alloc: Global, left: &CommandResult) -> Result<Vec<u8>, Memory> {
    let Outcome {
        status,
        history,
        ..
    } = &left.outcome;
    let (count, passes) = (history.len(), left.passes);
    Ok(format!(in alloc; "{status}, {count} entries, {passes} passes")?.into_bytes())
}

/// Renders the part of a result that a heading word such as `command` selects. Error: the word is unknown, or out of memory.
fn part_of(alloc: Global, asked: &str, left: &CommandResult) -> Result<Vec<u8>, RowErr> {
    let CommandResult { outcome, sinks, .. } = left;
    match asked {
        "command" => Ok(shown_ending(alloc, outcome.status, sinks)?),
        "history" => Ok(trace_of(alloc, &outcome.history)?),
        "end" => Ok(last_of(alloc, &outcome.history)?),
        "finished" => Ok(number_list(alloc, &outcome.done)?),
        "holding" => Ok(shown_holding(alloc, left)?),
        "passes" => Ok(shown_passes(alloc, left)?),
        _ => Err(RowErr::Heading),
    }
}

/// Runs a command on a source, and on a trace if one is given, in the spelling of rows.
fn left_over<R: AllocGlobal + Threads + Wait + Sync>(
    rt: &R,
    line: &str,
    stage: Stage,
    text: &[u8],
    trace: Option<&str>,
) -> Result<CommandResult, RowErr> {
    let Some(spelled) = trace else {
        return Ok(left_by(rt, line, stage, Texts::of(text))?);
    };
    let trace = bytes_of(rt.alloc(), spelled)?;
    let texts = Texts::with_trace(text, &trace);
    Ok(left_by(rt, line, stage, texts)?)
}

/// Splits what a row gives at ` |` into the command and, if present, the spelled trace.
fn split_given(given: &str) -> (&str, Option<&str>) {
    match given.split_once(" |") {
        Some((words, trace)) => (words, Some(trace.strip_prefix(" ").unwrap_or(trace))),
        None => (given, None),
    }
}

/// Runs a command on a file `a.ti` with this source, and on a file `t.tr` if a trace is given after ` |`, and renders what `asked` selects:
/// one run, a run per failing call (`failing`), or a run per prefix of the source (`command-fronts`).
pub(crate) fn command<R: AllocGlobal + Threads + Wait + Sync>(
    rt: &R,
    asked: &str,
    given: &str,
    text: &[u8],
) -> Result<Vec<u8>, RowErr> {
    let (given, trace) = split_given(given);
    let Some((line, stage)) = split_stage(given) else {
        return Err(RowErr::Row);
    };
    match asked {
        "failing" => each_failing(rt, line, stage, text),
        "command-fronts" => fronts(rt, line, stage, text),
        _ => {
            let left = left_over(rt, line, stage, text, trace)?;
            part_of(rt.alloc(), asked, &left)
        }
    }
}
