//! The executable `titan`: runs the command of `ti_top` on the machine's arguments, files, standard streams and threads, with the three
//! watchers (trace, statistics, races).
#![tactic(auto)]

use std::env;
use std::io::{self, ErrorKind};
use std::process::ExitCode;
use std::sync::Wait;
use std::thread::Threads;
use ti_io::{FileSource, OpenGate, StdSink};
use ti_race::RaceWatch;
use ti_top::titan_top;
use ti_watch::{StatsWatch, TraceWatch, Watch};

/// The command-line arguments after the program's name. If one of them isn't valid Unicode, the list is empty, which is not a valid
/// command either.
fn words_of(rt: &HostRuntime) -> io::Result<Vec<String>> {
    let mut words = Vec::new(rt.alloc());
    let args = match env::args(rt) {
        Ok(args) => args,
        Err(e) if e.kind() == ErrorKind::InvalidData => return Ok(words),
        Err(e) => return Err(e),
    };
    for word in args.skip(1) {
        words.push(word)?;
    }
    Ok(words)
}

/// Runs the command and returns its exit status. `threads` starts the worker threads. If memory runs out for the arguments or the
/// watchers, returns the error before anything is written.
fn run<R: AllocGlobal + Threads + Wait + Sync>(rt: &HostRuntime, threads: &R) -> io::Result<u8> {
    let alloc = rt.alloc();
    let words = words_of(rt)?;
    let mut watchers: Vec<Box<dyn Watch>> = Vec::new(alloc);
    watchers.push(Box::new(alloc, TraceWatch::new(alloc))?)?;
    watchers.push(Box::new(alloc, StatsWatch::new(alloc))?)?;
    watchers.push(Box::new(alloc, RaceWatch::new(alloc))?)?;
    let mut source = FileSource::new(rt);
    let mut out = StdSink::out(rt);
    let mut err = StdSink::err(rt);
    let outcome = titan_top(
        threads,
        &words,
        &mut source,
        &mut out,
        &mut err,
        &OpenGate,
        watchers,
    );
    Ok(outcome.status)
}

/// Exits with the command's exit status, or with 6 if the command couldn't be set up.
fn main(rt: HostRuntime) -> ExitCode {
    match run(&rt, &rt) {
        Ok(status) => ExitCode::from(status),
        Err(_) => ExitCode::from(6),
    }
}
