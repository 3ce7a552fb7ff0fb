// The layout of entries in the picture.
//
// Between two collectives, the entries of each process are stacked below each other, and those of all processes begin at the same height,
// since their order isn't fixed. An arrival is directly above the line of its collective, and a departure on it.

use crate::entry::{Act, PROCESSES, TraceEntry};
use std::alloc::{AllocError, Global};

/// The vertical position of an entry between two collectives.
#[derive(Clone, Copy)]
pub(crate) enum Height {
    /// In the row with this index: the number of entries of its process that come before it.
    Row(usize),
    /// Directly above the line.
    Foot,
    /// On the line.
    Line,
}

/// The position of an entry: the number of collectives that its process has left before it (`phase`), and the height after these.
#[derive(Clone, Copy)]
pub(crate) struct EntryPosition {
    pub(crate) phase: usize,
    pub(crate) height: Height,
}

/// How far the layout of a process has come: its phase, the rows used in it, and whether the process has arrived at the next collective.
#[derive(Clone, Copy)]
struct LaneState {
    phase: usize,
    rows: usize,
    has_arrived: bool,
}

// A process before the first entry of a phase.
const START: LaneState = LaneState {
    phase: 0,
    rows: 0,
    has_arrived: false,
};

/// The state of a process after one more entry, and the position of this entry.
fn next_lane(lane: LaneState, act: Act) -> (LaneState, EntryPosition) {
    let phase = lane.phase;
    match act {
        Act::Depart => (
            LaneState {
                phase: phase.saturating_add(1),
                ..START
            },
            EntryPosition {
                phase,
                height: Height::Line,
            },
        ),
        Act::Arrive => (
            LaneState {
                has_arrived: true,
                ..lane
            },
            EntryPosition {
                phase,
                height: Height::Foot,
            },
        ),
        _ if lane.has_arrived => (
            lane,
            EntryPosition {
                phase,
                height: Height::Line,
            },
        ),
        _ => (
            LaneState {
                rows: lane.rows.saturating_add(1),
                ..lane
            },
            EntryPosition {
                phase,
                height: Height::Row(lane.rows),
            },
        ),
    }
}

/// The positions of these entries.
fn positions_of(alloc: Global, entries: &[TraceEntry]) -> Result<Vec<EntryPosition>, AllocError> {
    let mut lanes = [START; PROCESSES];
    let mut spots = Vec::new(alloc);
    for entry in entries {
        let (lane, spot) = next_lane(lanes[entry.process], entry.act);
        lanes[entry.process] = lane;
        spots.push(spot)?;
    }
    Ok(spots)
}

/// The number of rows that an entry at this position needs in this phase.
fn rows_for(spot: &EntryPosition, phase: usize) -> usize {
    match spot.height {
        Height::Row(row) if spot.phase == phase => row.saturating_add(1),
        _ => 0,
    }
}

/// The number of rows of a phase above its line: those of entries, and one for arrivals.
fn rows_of(spots: &[EntryPosition], phase: usize) -> usize {
    let mut rows = 0;
    for spot in spots {
        rows = rows_for(spot, phase).max(rows);
    }
    rows.saturating_add(1)
}

/// The greatest phase of an entry: how many collectives its process has left before it.
fn lines_of(spots: &[EntryPosition]) -> usize {
    let mut phases = 0;
    for spot in spots {
        phases = spot.phase.max(phases);
    }
    phases
}

/// The number of lanes: one more than the greatest process number.
fn processes_of(entries: &[TraceEntry]) -> usize {
    let mut processes = 0;
    for entry in entries {
        processes = entry.process.saturating_add(1).max(processes);
    }
    processes
}

/// The row of the line of each phase, below the rows of the phase.
fn line_rows(alloc: Global, spots: &[EntryPosition]) -> Result<Vec<usize>, AllocError> {
    let mut rows = Vec::new(alloc);
    let mut next = 0usize;
    for phase in 0..=lines_of(spots) {
        next = next.saturating_add(rows_of(spots, phase));
        rows.push(next)?;
        next = next.saturating_add(1);
    }
    Ok(rows)
}

/// The positions of all entries, in a picture of `processes` lanes and `lines` collectives. After the last collective there is one more
/// phase, which ends at the bottom of the picture.
#[derive(Drop)]
pub(crate) struct PictureLayout {
    pub(crate) processes: usize,
    pub(crate) lines: usize,
    spots: Vec<EntryPosition>,
    rows: Vec<usize>,
}

impl PictureLayout {
    /// The layout of these entries. Errors only if it runs out of memory.
    pub(crate) fn of(alloc: Global, entries: &[TraceEntry]) -> Result<PictureLayout, AllocError> {
        let spots = positions_of(alloc, entries)?;
        Ok(PictureLayout {
            processes: processes_of(entries),
            lines: lines_of(&spots),
            rows: line_rows(alloc, &spots)?,
            spots,
        })
    }

    /// The row of the line below a phase.
    pub(crate) fn line(&self, phase: usize) -> usize {
        self.rows.get(phase).copied().unwrap_or(0)
    }

    /// The first row of a phase.
    fn first_row(&self, phase: usize) -> usize {
        if phase == 0 {
            0
        } else {
            self.line(phase - 1).saturating_add(1)
        }
    }

    /// The row of the entry with this number.
    pub(crate) fn row(&self, number: usize) -> usize {
        match self.spots.get(number) {
            Some(
                EntryPosition {
                    phase,
                    height: Height::Row(row),
                },
            ) => self.first_row(*phase).saturating_add(*row),
            Some(
                EntryPosition {
                    phase,
                    height: Height::Foot,
                },
            ) => self.line(*phase).saturating_sub(1),
            Some(
                EntryPosition {
                    phase,
                    height: Height::Line,
                },
            ) => self.line(*phase),
            None => 0,
        }
    }
}
