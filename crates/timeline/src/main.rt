//! `timeline`: reads the report of a trace, optionally followed by that of races, from standard input, and writes a picture of the run
//! (SVG) to standard output.
#![tactic(auto)]

mod entry;
mod layout;
mod parts;
mod picture;
mod reading;
mod report;
mod shapes;

use report::{NoReport, read_report};
use std::io::{self, BufRead, BufReader};
use std::process::ExitCode;

// The number of lines of a report of 2,000 entries, all of which race.
const MOST_LINES: usize = 4_001;

// Reads the lines of standard input, at most `MOST_LINES`.
fn read_lines(rt: &HostRuntime) -> Result<Vec<String>, NoReport> {
    let alloc = rt.alloc();
    let mut lines = Vec::new(alloc);
    let Ok(input) = BufReader::new(alloc, rt.stdin()) else {
        return Err(NoReport::Memory);
    };
    for line in input.lines(alloc) {
        let Ok(line) = line else {
            return Err(NoReport::Unreadable);
        };
        if lines.len() >= MOST_LINES {
            return Err(NoReport::TooLong);
        }
        lines.push(line)?;
    }
    Ok(lines)
}

// The picture of the run that standard input reports.
fn draw(rt: &HostRuntime) -> Result<String, NoReport> {
    let alloc = rt.alloc();
    let lines = read_lines(rt)?;
    let report = read_report(alloc, &lines)?;
    Ok(picture::picture(alloc, &report)?)
}

// Writes the picture to standard output, or an error message to standard error.
fn run(rt: &HostRuntime) -> io::Result<ExitCode> {
    match draw(rt) {
        Ok(text) => {
            print!(rt; "{text}")?;
            Ok(ExitCode::SUCCESS)
        }
        Err(reason) => {
            eprintln!(rt; "timeline: {reason}")?;
            Ok(ExitCode::FAILURE)
        }
    }
}

fn main(rt: HostRuntime) -> ExitCode {
    run(&rt).unwrap_or(ExitCode::FAILURE)
}
