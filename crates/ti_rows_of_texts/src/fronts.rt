// Runs a command on every prefix of a source, and reports the prefixes that are accepted or rejected for another reason than that they end
// too early.

use crate::commands::{CommandResult, Texts, left_by};
use crate::stages::Stage;
use std::alloc::{AllocError, Global};
use std::sync::Wait;
use std::thread::Threads;
use ti_base::Place;
use ti_row_files::RowErr;

/// Parses a source location such as `1:62`.
fn place_of(numbers: &str) -> Option<Place> {
    let (line, col) = numbers.split_once(':')?;
    Some(Place {
        line: line.parse::<u32>().ok()?,
        col: col.parse::<u32>().ok()?,
    })
}

/// The source location after a byte at `place`.
fn place_after(place: Place, byte: u8) -> Place {
    let (line, col) = match byte {
        b'\n' => (place.line.saturating_add(1), 1),
        _ => (place.line, place.col.saturating_add(1)),
    };
    Place { line, col }
}

/// The rule and the source location in a diagnostic on `a.ti` such as `a.ti:1:62: G1 an unexpected token`.
fn refusal_in(line: &str) -> Option<(&str, Place)> {
    let (place, behind) = line.strip_prefix("a.ti:")?.split_once(": ")?;
    let (rule, _) = behind.split_once(' ')?;
    Some((rule, place_of(place)?))
}

/// Whether a diagnostic reports an unexpected token (G1) or an unterminated string (X3) at `end` or before.
fn stands_by(line: &str, end: Place) -> bool {
    match refusal_in(line) {
        Some(("G1" | "X3", place)) => !end.is_before(place),
        _ => false,
    }
}

/// `accepted`, or the diagnostic of a prefix; none if the prefix, which ends at `end`, is rejected with G1 or X3 at its end or before.
fn said(left: &CommandResult, end: Place) -> Option<&str> {
    if left.outcome.status == 0 {
        return Some("accepted");
    }
    match str::from_utf8(left.sinks.err.bytes()) {
        Ok(line) if stands_by(line, end) => None,
        Ok(line) => Some(line.trim_end()),
        Err(_) => Some("no line"),
    }
}

/// Appends the length and the result of a prefix, unless it is rejected with G1 or X3 at its end or before.
fn push_front(
    alloc: Global,
    found: &mut String,
    count: usize,
    left: &CommandResult,
    end: Place,
) -> Result<(), AllocError> {
    if let Some(said) = said(left, end) {
        let mark = if found.is_empty() { "" } else { ", " };
        found.push_str(&format!(in alloc; "{mark}{count} {said}")?)?;
    }
    Ok(())
}

/// Runs a command on a prefix, and appends its length and result unless it is rejected with G1 or X3 at its end or before.
fn push_left<R: AllocGlobal + Threads + Wait + Sync>(
    rt: &R,
    found: &mut String,
    line: &str,
    stage: Stage,
    front: &[u8],
    end: Place,
) -> Result<(), RowErr> {
    let left = left_by(rt, line, stage, Texts::of(front))?;
    push_front(rt.alloc(), found, front.len(), &left, end)?;
    Ok(())
}

/// Runs a command on all prefixes of a source, by increasing length, and renders the length and the result of each, but leaves out those
/// that are rejected with G1 or X3 at their end or before.
pub(crate) fn fronts<R: AllocGlobal + Threads + Wait + Sync>(
    rt: &R,
    line: &str,
    stage: Stage,
    text: &[u8],
) -> Result<Vec<u8>, RowErr> {
    let mut found = String::new(rt.alloc());
    let mut end = Place::first();
    for count in 0..=text.len() {
        push_left(rt, &mut found, line, stage, &text[..count], end)?;
        if let Some(byte) = text.get(count) {
            end = place_after(end, *byte);
        }
    }
    Ok(found.into_bytes())
}
