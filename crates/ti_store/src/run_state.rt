// What a store keeps of a run.

use crate::region_rounds::RegionRounds;
use ti_base::{Answer, FaultKind};
use ti_heap::Heap;
use ti_history::PackedHistory;
use ti_lang::program::Program;
use ti_region::Regions;
use ti_rounds::Rounds;

/// The state of a run: its program and number of processes, its entries, and what is computed from them (heap, collectives, regions).
/// That all parts are those of the entries is the invariant of `Store`.
#[derive(Drop)]
pub struct RunState {
    pub program: Program,
    pub procs: u32,
    pub entries: PackedHistory,
    pub heap: Heap,
    /// The state of the collectives.
    pub rounds: Rounds,
    /// How many region-making collectives each process has reached.
    pub region_rounds: RegionRounds,
    pub regions: Regions,
}

/// The outcome of an action: an answer or a fault.
#[derive(Clone, Copy)]
pub enum ActOutcome {
    /// The action was performed, with this answer.
    Answered(Answer),
    /// The action faulted.
    Faulted(FaultKind),
}
