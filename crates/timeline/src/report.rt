// Parses the report of a run: its entries, and which of them race.
ghost use Rattle.std.specs.Prelude.{◌≤◌, vec_len, IfOk};

use crate::entry::TraceEntry;
use crate::parts::number;
use crate::reading::read_entry;
use std::alloc::{AllocError, AllocFailed, Global};
use std::fmt;

/// The maximum number of entries of a picture.
const MOST_ENTRIES: usize = 2_000;

/// Why there is no picture.
#[derive(Drop)]
pub(crate) enum NoReport {
    /// The line with this number, from 1, isn't one that a report has there.
    Other(usize),
    TooLong,
    Unreadable,
    Memory,
}

impl fmt::Display for NoReport {
    fn fmt<W: fmt::Write>(&self, f: &mut fmt::Formatter<W>) -> fmt::Result {
        match self {
            NoReport::Other(line) => write!(f, "line {line} isn't one of a report"),
            NoReport::TooLong => f.write_str("there are more than 2000 entries"),
            NoReport::Unreadable => f.write_str("standard input can't be read"),
            NoReport::Memory => f.write_str("no memory"),
        }
    }
}

impl From<AllocError> for NoReport {
    fn from(_: AllocError) -> NoReport {
        NoReport::Memory
    }
}

impl<T: Drop> From<AllocFailed<T>> for NoReport {
    fn from(_: AllocFailed<T>) -> NoReport {
        NoReport::Memory
    }
}

/// The entries of a run in their order, and the numbers of those that race.
#[derive(Drop)]
pub(crate) struct Report<'a> {
    pub(crate) entries: Vec<TraceEntry<'a>>,
    pub(crate) racing: Vec<usize>,
}

/// Parses lines as entries up to the first line that isn't one. Errors if there are more than `MOST_ENTRIES`.
fn read_entries<'a>(alloc: Global, lines: &'a [String]) -> Result<Vec<TraceEntry<'a>>, NoReport>
    ensures { IfOk result (λ entries. vec_len entries ≤ MOST_ENTRIES) }
{
    let mut entries = Vec::new(alloc);
    for line in lines {
        let Some(entry) = read_entry(line.as_str(), entries.len()) else {
            break;
        };
        if entries.len() >= MOST_ENTRIES {
            return Err(NoReport::TooLong);
        }
        entries.push(entry)?;
    }
    Ok(entries)
}

/// The number of the entry that a line of the report of races names. The line must be a prefix of that entry's own line.
fn read_racing(lines: &[String], line: &str) -> Option<usize> {
    let (found, _) = line.split_once(' ')?;
    let number = number(found)? as usize;
    let whole = lines.get(number)?;
    if whole.as_str().strip_prefix(line)?.starts_with(' ') {
        Some(number)
    } else {
        None
    }
}

/// The numbers of the entries that race, from the lines after the heading.
fn read_races(alloc: Global, lines: &[String], from: usize) -> Result<Vec<usize>, NoReport> {
    let mut racing = Vec::new(alloc);
    for (at, line) in lines.iter().enumerate().skip(from) {
        let Some(number) = read_racing(lines, line.as_str()) else {
            return Err(NoReport::Other(at.saturating_add(1)));
        };
        racing.push(number)?;
    }
    Ok(racing)
}

/// The number of lines that the heading of the report of races announces.
fn read_heading(line: &str) -> Option<usize> {
    Some(number(line.strip_prefix("races ")?)? as usize)
}

/// Parses the lines of a trace, optionally followed by the report of races, whose heading must have the right count.
pub(crate) fn read_report<'a>(alloc: Global, lines: &'a [String]) -> Result<Report<'a>, NoReport> {
    let entries = read_entries(alloc, lines)?;
    let count = entries.len();
    let Some(line) = lines.get(count) else {
        return if count == 0 {
            Err(NoReport::Other(1))
        } else {
            Ok(Report {
                entries,
                racing: Vec::new(alloc),
            })
        };
    };
    let racing = read_races(alloc, lines, count.saturating_add(1))?;
    if count == 0 || read_heading(line.as_str()) != Some(racing.len()) {
        return Err(NoReport::Other(count.saturating_add(1)));
    }
    Ok(Report { entries, racing })
}
