// The shared regions of a run: which are deleted, when one is in use, and what is freed with one.

ghost use Rattle.std.specs.Prelude.{◌≡◌, ◌↔◌, ◌+◌, ◌-◌, ◌^◌, ◌<◌, true, false, length, IsTrue, OnOk, OnErr};
ghost use Rattle.ti_region.specs.Counting.{IsMadeRegion, region_at, with_deleted};
ghost use Rattle.ti_heap.specs.Contents.{without_region};
ghost use Rattle.ti_heap.specs.Things.{all_values_in, contents};
ghost use Rattle.ti_lang.specs.Meaning.Histories.{arrivals, departures};
ghost use Rattle.ti_lang.specs.Meaning.RoundsOf.{round_of, is_positive_count, was_counted, rounds_making};
ghost use Rattle.ti_lang.specs.Meaning.RegionsOf.{is_gone};
ghost use Rattle.ti_lang.specs.Meaning.RegionUse.{is_in_use};
ghost use Rattle.ti_store.specs.Mirrors.Refs.{IsPlaceIn, KeepsRefs, after_clearing, CanForget};
ghost use Rattle.ti_store.specs.Mirrors.Rounds.{KeepsRounds};
ghost use Rattle.ti_store.specs.Mirrors.Regions.{IsFirst, KeepsRegions};
ghost use Rattle.ti_store.specs.Mirrors.RunState.{AllArrived};
ghost use Rattle.ti_store.specs.Mirrors.Parts.{program_in, history_in, Represents};

use crate::run_state::RunState;
use ti_base::{Deposit, Memory, Value};
use ti_heap::Heap;
use ti_region::Regions;

/// Whether a contribution is a count above 0. To the delete of a region, each process contributes how many of its variables in scope
/// name something in the region.
fn is_positive_count(given: Deposit) -> bool
    ensures { result ≡ is_positive_count given }
{
    match given {
        Deposit::Count(count) => count > 0,
        _ => false,
    }
}

/// Takes back what the cells of the region count for: each of their values that names something in another region is one reference
/// less to that region.
fn forget(regions: &mut Regions, heap: &Heap, region: u32)
    requires { CanForget region (all_values_in region heap.now) regions.old }
    ensures { regions.new ≡ after_clearing region (all_values_in region heap.now) regions.old }
{
    for value in heap.cells_of(region) {
        regions.note_put(region, value, Value::Obj(None));
    }
}

impl RunState {
    /// Whether the region is deleted; 0 (no region) never is.
    pub fn is_gone(&self, region: u32) -> bool
        requires place { IsPlaceIn self.now.regions region }
        requires kept { KeepsRegions (history_in self.now) self.now.regions }
        requires nowhere { is_gone 0 (history_in self.now) ≡ false }
        ensures { result ≡ is_gone region (history_in self.now) }
    {
        if region == 0 {
            return false;
        }
        !self.regions.is_live(region)
    }

    /// Makes the region of the next region-making collective of process `proc`, if `proc` is the first to arrive there. If memory runs out,
    /// nothing changes.
    pub fn make_region(&mut self, proc: u32) -> Result<(), Memory>
        requires process { proc < self.old.procs }
        requires kept { Represents self.old (history_in self.old) }
        requires few { rounds_making proc (history_in self.old) < 2 ^ 32 - 1 }
        requires unmade { is_gone (length self.old.regions + 1) (history_in self.old) ≡ false }
        ensures kept { OnOk result (Represents self.new (history_in self.old)) }
        ensures there { OnOk result (rounds_making proc (history_in self.old) < length self.new.regions) }
        ensures same { OnOk result (self.new ≡ record self.old { regions = self.new.regions }) }
        ensures err { OnErr result (self.new ≡ self.old) }
    {
        if self.regions.made() == self.region_rounds.of(proc) {
            self.regions.make()?;
        }
        Ok(())
    }

    /// Whether no process has left the collective at which process `proc` waits.
    pub fn is_first(&self, proc: u32) -> bool
        requires process { proc < self.now.procs }
        requires kept { KeepsRounds self.now.procs (history_in self.now) self.now.rounds }
        requires waits { arrivals proc self.now.entries.items ≡ departures proc self.now.entries.items + 1 }
        ensures { IsTrue result ↔ IsFirst self.now.procs (history_in self.now) proc }
    {
        self.rounds.first_out(proc)
    }

    // Whether some process arrived with a count above 0 at the collective at which process `proc` waits.
    fn is_counted(&self, proc: u32) -> bool
        requires process { proc < self.now.procs }
        requires kept { Represents self.now (history_in self.now) }
        requires waits { arrivals proc self.now.entries.items ≡ departures proc self.now.entries.items + 1 }
        requires arrived { AllArrived self.now.procs proc self.now.entries.items }
        ensures { result ≡ was_counted (round_of proc (history_in self.now)) (history_in self.now) }
    {
        for who in 0..self.procs {
            if is_positive_count(self.rounds.given(proc, who)) {
                return true;
            }
        }
        false
    }

    /// Whether the region is in use: a cell outside it refers into it, or a process contributed a count above 0 to the delete. All
    /// processes have arrived at the delete, and process `proc` waits there.
    pub fn is_in_use(&self, proc: u32, region: u32) -> bool
        requires process { proc < self.now.procs }
        requires kept { Represents self.now (history_in self.now) }
        requires waits { arrivals proc self.now.entries.items ≡ departures proc self.now.entries.items + 1 }
        requires arrived { AllArrived self.now.procs proc self.now.entries.items }
        requires made { IsMadeRegion self.now.regions region }
        ensures value { result ≡ is_in_use (program_in self.now) region (round_of proc (history_in self.now)) (history_in self.now) }
        ensures count { result ≡ false → (region_at self.now.regions region).count ≡ 0 }
    {
        if self.regions.outside_refs(region) > 0 {
            return true;
        }
        self.is_counted(proc)
    }

    /// Deletes a live region into which no cell outside it refers, and drops all that is in it.
    pub fn drop_region(&mut self, region: u32)
        requires made { IsMadeRegion self.old.regions region }
        requires live { (region_at self.old.regions region).is_live ≡ true }
        requires unused { (region_at self.old.regions region).count ≡ 0 }
        requires refs { KeepsRefs (contents self.old.heap).held self.old.regions }
        ensures heap { contents self.new.heap ≡ without_region region (contents self.old.heap) }
        ensures regions { self.new.regions ≡ with_deleted (after_clearing region (all_values_in region self.old.heap) self.old.regions) region }
        ensures same { self.new ≡ record self.old { heap = self.new.heap; regions = self.new.regions } }
    {
        forget(&mut self.regions, &self.heap, region);
        self.regions.delete(region);
        self.heap.drop_region(region);
    }
}
