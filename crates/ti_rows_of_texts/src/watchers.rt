// The watchers that a test case can pass to the command, including one that runs out of memory.

use std::alloc::Global;
use ti_base::{Action, Answer, Entry, Memory, Place};
use ti_watch::{TraceWatch, Watch};

/// A watcher that a test case names.
#[derive(Clone, Copy)]
pub(crate) enum Handed {
    Trace,
    /// A trace that has already observed `TOLD`.
    ToldTrace,
    Stats,
    Races,
    /// A watcher of kind 0 that runs out of memory at its second event.
    Deaf,
    /// A watcher of kind 0 that runs out of memory in its report.
    Mute,
}

/// An event that a watcher observed before the command runs.
const TOLD: Entry = Entry {
    proc: 5,
    place: Place { line: 9, col: 9 },
    act: Action::End,
    answer: Answer::Done,
};

/// Runs out of memory after `most` events, and in its report.
#[derive(Drop)]
pub(crate) struct Short {
    /// The events observed so far.
    told: Vec<Entry>,
    /// The number of events that it accepts.
    most: usize,
}

impl Watch for Short {
    ghost kind_of = { λ _. 0 };

    ghost told = { λ watch. watch.told.items };

    fn kind(&self) -> u8 {
        0
    }

    fn see(&mut self, e: &Entry) -> Result<(), Memory> {
        if self.told.len() >= self.most {
            return Err(Memory);
        }
        self.told.push(*e)?;
        Ok(())
    }

    fn report(&self, _out: &mut Vec<u8>) -> Result<(), Memory> {
        Err(Memory)
    }
}

/// A watcher that runs out of memory after `most` events.
pub(crate) fn short_of(alloc: Global, most: usize) -> Short {
    Short {
        told: Vec::new(alloc),
        most,
    }
}

/// A trace that has already observed `TOLD`.
pub(crate) fn told_trace(alloc: Global) -> Result<TraceWatch, Memory> {
    let mut trace = TraceWatch::new(alloc);
    trace.see(&TOLD)?;
    Ok(trace)
}
