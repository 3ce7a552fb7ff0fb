//! `titan_explain`: says why programs are refused, with excerpts of their texts. It is a program of its own beside `titan`, whose words and
//! outputs stay as they are.
//!
//! `titan_explain [FILE..] [--infer FILE..]` writes the reports of the files in their order to standard output, so that they can be paged: those
//! after `--infer` as mode infer refuses them, the others as the other modes do. The status is 0 if all texts are accepted (nothing is
//! written about those), 1 if one is refused, 3 for no file, 4 if a file can't be read, 5 if standard output can't be written, and 6 if
//! memory runs out; with 3 to 6 it ends there.
#![tactic(auto)]

mod excerpt;
mod source;

use excerpt::report;
use std::alloc::Global;
use std::io::{self, ErrorKind};
use std::process::ExitCode;
use std::{env, fs};
use ti_base::Memory;
use ti_explain::{Explanation, explain};
use ti_explain_infer::explain_inference;

const USAGE: &str = "usage: titan_explain [FILE..] [--infer FILE..]";

/// A file that is explained: its name, and whether as mode infer refuses it.
#[derive(Drop)]
struct Job {
    name: String,
    is_infer: bool,
}

/// Why there is no report.
#[derive(Clone, Copy)]
enum Stop {
    Arguments,
    Unreadable,
    Unwritable,
    Memory,
}

impl Stop {
    fn status(self) -> u8 {
        match self {
            Stop::Arguments => 3,
            Stop::Unreadable => 4,
            Stop::Unwritable => 5,
            Stop::Memory => 6,
        }
    }
}

// The files of the arguments, which are all Unicode: at least one.
fn jobs(rt: &HostRuntime) -> Result<Vec<Job>, Stop> {
    let args = match env::args(rt) {
        Ok(args) => args,
        Err(e) if e.kind() == ErrorKind::InvalidData => return Err(Stop::Arguments),
        Err(_) => return Err(Stop::Memory),
    };
    let mut jobs = Vec::new(rt.alloc());
    let mut is_infer = false;
    for name in args.skip(1) {
        if name.as_str() == "--infer" {
            is_infer = true;
        } else if jobs.push(Job { name, is_infer }).is_err() {
            return Err(Stop::Memory);
        }
    }
    if jobs.is_empty() {
        Err(Stop::Arguments)
    } else {
        Ok(jobs)
    }
}

fn read(rt: &HostRuntime, name: &str) -> Result<Vec<u8>, Stop> {
    match fs::read(rt, name) {
        Ok(text) => Ok(text),
        Err(e) if e.kind() == ErrorKind::OutOfMemory => Err(Stop::Memory),
        Err(_) => Err(Stop::Unreadable),
    }
}

fn explain_as(alloc: Global, text: &[u8], is_infer: bool) -> Result<Option<Explanation>, Memory> {
    if is_infer {
        explain_inference(alloc, text)
    } else {
        explain(alloc, text)
    }
}

// The report of a text; None if it is accepted.
fn report_on(alloc: Global, job: &Job, text: &[u8]) -> Result<Option<String>, Stop> {
    match explain_as(alloc, text, job.is_infer) {
        Ok(None) => Ok(None),
        Ok(Some(explanation)) => match report(alloc, job.name.as_str(), text, &explanation) {
            Ok(report) => Ok(Some(report)),
            Err(_) => Err(Stop::Memory),
        },
        Err(_) => Err(Stop::Memory),
    }
}

// Writes the report of a file, if its text is refused, with this text before it. Returns whether it is.
fn run(rt: &HostRuntime, job: &Job, before: &str) -> Result<bool, Stop> {
    let text = read(rt, job.name.as_str())?;
    match report_on(rt.alloc(), job, &text)? {
        Some(report) => match print!(rt; "{before}{report}") {
            Ok(()) => Ok(true),
            Err(_) => Err(Stop::Unwritable),
        },
        None => Ok(false),
    }
}

fn run_all(rt: &HostRuntime) -> Result<u8, Stop> {
    let jobs = jobs(rt)?;
    let mut status = 0;
    let mut before = "";
    for job in &jobs {
        if run(rt, job, before)? {
            status = 1;
            before = "\n";
        }
    }
    Ok(status)
}

fn finish(rt: &HostRuntime) -> io::Result<u8> {
    match run_all(rt) {
        Ok(status) => Ok(status),
        Err(stop) => {
            if let Stop::Arguments = stop {
                eprintln!(rt; "{USAGE}")?;
            }
            Ok(stop.status())
        }
    }
}

fn main(rt: HostRuntime) -> ExitCode {
    match finish(&rt) {
        Ok(status) => ExitCode::from(status),
        Err(_) => ExitCode::from(5),
    }
}
