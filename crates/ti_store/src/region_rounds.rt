// Counts, for each process, the region-making collectives that it has reached. They give regions their numbers: the nth such collective
// makes region n.

use std::alloc::Global;
use std::marker::Model;
use ti_base::{CollKind, Memory};

/// For each process, how many region-making collectives it has reached. Contracts see these numbers.
#[derive(Drop)]
pub struct RegionRounds {
    counts: Vec<u32>,
}

impl Model for RegionRounds {
    ghost use Rattle.std.specs.Prelude.{List, ℕ};

    ghost Value = { List ℕ };

    ghost view = { λ m. m.counts.items };
}

impl RegionRounds {
    ghost use Rattle.std.specs.Prelude.{◌≡◌, ◌+◌, ◌-◌, ◌^◌, ◌<◌, length, replicate, slice_index, slice_set, IfOk};
    ghost use Rattle.ti_store.specs.Mirrors.Rounds.{region_rounds_after};

    /// The counts of the given number of processes, all 0.
    pub fn new(alloc: Global, procs: u32) -> Result<Self, Memory>
        ensures { IfOk result (λ region_rounds. region_rounds ≡ replicate procs 0) }
    {
        let mut counts = Vec::new(alloc);
        counts.resize(procs as usize, 0)?;
        Ok(RegionRounds { counts })
    }

    /// The count of process `proc`.
    pub fn of(&self, proc: u32) -> u32
        requires { proc < length self.now }
        ensures { result ≡ slice_index self.now proc }
    {
        self.counts[proc as usize]
    }

    // Counts one more for process `proc`.
    fn add(&mut self, proc: u32)
        requires process { proc < length self.old }
        requires few { slice_index self.old proc < 2 ^ 32 - 1 }
        ensures { self.new ≡ slice_set self.old proc (slice_index self.old proc + 1) }
    {
        self.counts[proc as usize] += 1;
    }

    /// Records that process `proc` has reached a collective of this kind: counts one more if it makes a region.
    pub fn count(&mut self, proc: u32, kind: CollKind)
        requires process { proc < length self.old }
        requires few { slice_index self.old proc < 2 ^ 32 - 1 }
        ensures { self.new ≡ region_rounds_after proc kind self.old }
    {
        match kind {
            CollKind::MakeRegion => self.add(proc),
            _ => {}
        }
    }
}
