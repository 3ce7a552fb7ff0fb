// The shared regions of a run.

use crate::region::{Region, region_counted};
use std::alloc::Global;
use std::marker::Model;
use ti_base::{Memory, Value};

/// The shared regions that were made, with a count of references for each.
///
/// Contracts see the list of the regions in the order of making, each with whether it is live and with its count. Regions are numbered
/// from 1. The counts are those of references into a region from cells outside it, provided that `note_put` is called for each write.
#[derive(Drop)]
pub struct Regions {
    regions: Vec<Region>,
}

impl Model for Regions {
    ghost use Rattle.std.specs.Prelude.{List, ◌<◌, ◌^◌, vec_len};
    ghost use Rattle.ti_region.specs.declared.region.Region.{Region};

    ghost Value = { List Region };

    ghost view = { λ r. r.regions.items };

    ghost invariant = { λ r. vec_len r.regions < 2 ^ 32 };
}

impl Regions {
    ghost use Rattle.std.specs.Prelude.{◌≡◌, ◌+◌, ◌-◌, ◌^◌, ◌<◌, true, [], ◌∷◌, ◌++◌, length, Some, IfOk, OnOk, OnErr};
    ghost use Rattle.ti_region.specs.Counting.{IsMadeRegion, region_at, new_region, with_deleted, counted_for, one_less, with_one_more, CanLose, CanGain, after_put};

    /// No regions.
    pub fn new(alloc: Global) -> Self
        ensures { result ≡ [] }
    {
        Regions {
            regions: Vec::new(alloc),
        }
    }

    /// Makes a region, which is live and has the count 0, and returns its number.
    ///
    /// Fewer than 2^32 - 1 regions must have been made. If memory runs out, nothing changes.
    pub fn make(&mut self) -> Result<u32, Memory>
        requires { length self.old < 2 ^ 32 - 1 }
        ensures number { IfOk result (λ r. r ≡ length self.old + 1) }
        ensures made { OnOk result (self.new ≡ self.old ++ new_region ∷ []) }
        ensures kept { OnErr result (self.new ≡ self.old) }
    {
        self.regions.push(Region {
            is_live: true,
            count: 0,
        })?;
        Ok(self.made())
    }

    /// How many regions were made, deleted ones included.
    pub fn made(&self) -> u32
        ensures { result ≡ length self.now }
    {
        self.regions.len() as u32
    }

    /// Whether region `number`, which was made, isn't deleted.
    pub fn is_live(&self, number: u32) -> bool
        requires { IsMadeRegion self.now number }
        ensures { result ≡ (region_at self.now number).is_live }
    {
        self.regions[number as usize - 1].is_live
    }

    /// How many cells outside region `number`, which was made, refer into it.
    pub fn outside_refs(&self, number: u32) -> u64
        requires { IsMadeRegion self.now number }
        ensures { result ≡ (region_at self.now number).count }
    {
        self.regions[number as usize - 1].count
    }

    // Subtracts 1 from the count of region `number`.
    fn lose_one(&mut self, number: u32)
        requires { CanLose self.old (Some number) }
        ensures { self.new ≡ one_less self.old (Some number) }
    {
        let region = &mut self.regions[number as usize - 1];
        region.count -= 1;
    }

    // Adds 1 to the count of region `number`.
    fn gain_one(&mut self, number: u32)
        requires { CanGain self.old (Some number) }
        ensures { self.new ≡ with_one_more self.old (Some number) }
    {
        let region = &mut self.regions[number as usize - 1];
        region.count += 1;
    }

    /// Counts a write to a cell of region `cell_region` (0 for none) that held `before` and now holds `after`.
    ///
    /// It subtracts 1 from the count of the region that `before` refers into, and then adds 1 to that of the region that `after` refers
    /// into, each only if that region is neither 0 nor `cell_region`. These regions must have been made, and the counts must stay between
    /// 0 and 2^64 - 1.
    pub fn note_put(&mut self, cell_region: u32, before: Value, after: Value)
        requires before { CanLose self.old (counted_for cell_region before) }
        requires after { CanGain (one_less self.old (counted_for cell_region before)) (counted_for cell_region after) }
        ensures { self.new ≡ after_put cell_region before after self.old }
    {
        match region_counted(cell_region, before) {
            Some(region) => self.lose_one(region),
            None => {}
        }
        match region_counted(cell_region, after) {
            Some(region) => self.gain_one(region),
            None => {}
        }
    }

    /// Deletes region `number`, which must be live and have the count 0.
    pub fn delete(&mut self, number: u32)
        requires made { IsMadeRegion self.old number }
        requires live { (region_at self.old number).is_live ≡ true }
        requires unused { (region_at self.old number).count ≡ 0 }
        ensures { self.new ≡ with_deleted self.old number }
    {
        let region = &mut self.regions[number as usize - 1];
        region.is_live = false;
    }
}
