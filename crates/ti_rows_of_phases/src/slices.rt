// Row kind `slice`: runs the slice of a program, which is the part that all processes execute alike, up to its next step. The row gives
// the fuel, and the outcomes of the departures before that step.

use crate::no_result::{NO_ROW, NoResult};
use crate::phases::check_source;
use crate::things::answer_of;
use crate::walks::collective;
use std::alloc::{AllocError, Global};
use ti_align::SliceStep;
use ti_base::{Answer, CollKind, Place, fault_name};
use ti_rules::Checked;
use ti_slice::slice_next;

/// An arrival of the program slice at a collective, with the argument of the collective if there is one, and the place.
fn shown_arrival(
    alloc: Global,
    kind: CollKind,
    place: Place,
    arg: Option<u32>,
) -> Result<String, AllocError> {
    let name = collective(kind);
    match arg {
        Some(n) => format!(in alloc; "arrive {name} {n} {place:?}"),
        None => format!(in alloc; "arrive {name} {place:?}"),
    }
}

/// A step of a program slice.
fn shown_step(alloc: Global, step: SliceStep) -> Result<String, AllocError> {
    match step {
        SliceStep::At(kind, place, arg) => shown_arrival(alloc, kind, place, arg),
        SliceStep::Ended => format!(in alloc; "end"),
        SliceStep::Faults(kind, place) => {
            let name = fault_name(kind);
            format!(in alloc; "{name} {place:?}")
        }
        SliceStep::NoFuel => format!(in alloc; "fuel"),
        SliceStep::Unfit(n) => format!(in alloc; "unfit {n}"),
    }
}

/// The outcomes that are spelled, separated by whitespace. `NO_ROW` if one is malformed.
fn outcomes_of(alloc: Global, words: &str) -> Result<Vec<Answer>, NoResult> {
    let mut outcomes = Vec::new(alloc);
    for word in words.split_ascii_whitespace() {
        let Some(outcome) = answer_of(word) else {
            return Err(NO_ROW);
        };
        outcomes.push(outcome)?;
    }
    Ok(outcomes)
}

/// The next step of the program slice with three processes and `fuel` ticks, after the outcomes that are spelled.
fn slice_step(alloc: Global, c: &Checked, fuel: u32, words: &str) -> Result<SliceStep, NoResult> {
    let outcomes = outcomes_of(alloc, words)?;
    Ok(slice_next(alloc, c, 3, fuel, &outcomes)?)
}

/// The next step of the program slice of a source, with three processes and `fuel` ticks, after the outcomes that are spelled.
fn step_of(alloc: Global, fuel: u32, words: &str, text: &[u8]) -> Result<SliceStep, NoResult> {
    let c = check_source(alloc, text)?;
    slice_step(alloc, &c, fuel, words)
}

/// Splits what a row gives into the fuel and the outcomes after it, which may be missing. `None` if the fuel isn't a `u32`.
fn fuel_of(given: &str) -> Option<(u32, &str)> {
    match given.split_once(' ') {
        Some((fuel, words)) => Some((fuel.parse::<u32>().ok()?, words)),
        None => Some((given.parse::<u32>().ok()?, "")),
    }
}

/// Row kind `slice`: the next step of the program slice of a source with three processes. `given` has the ticks of fuel and then the
/// outcomes of the departures so far.
pub(crate) fn slice(alloc: Global, given: &str, text: &[u8]) -> Result<Vec<u8>, NoResult> {
    let Some((fuel, words)) = fuel_of(given) else {
        return Err(NO_ROW);
    };
    let step = step_of(alloc, fuel, words, text)?;
    Ok(shown_step(alloc, step)?.into_bytes())
}
