// Where the objects, grids and views of each region stand in the list of what a process made.

ghost use Rattle.std.specs.Prelude.{◌≡◌, ℕ, ◌<◌, ◌==◌, [], ◌∷◌, ◌++◌, OnOk, OnErr, if◌then◌else◌};
ghost use Rattle.ti_heap.specs.Places.{items_or_none, listed};

use std::alloc::Global;
use std::collections::HashMap;
use ti_base::Memory;

/// For each region, the serial numbers of what is in it, ascending. A region in which nothing is has no entry.
#[derive(Drop)]
pub struct RegionIndex {
    alloc: Global,
    lists: HashMap<u32, Vec<u32>>,
}

impl RegionIndex {
    /// An index in which no region has anything.
    pub fn new(alloc: Global) -> Self
        ensures { (r : ℕ) → listed result r ≡ [] }
    {
        RegionIndex {
            alloc,
            lists: HashMap::new(alloc),
        }
    }

    /// The serial numbers of what is in the region.
    pub fn of(&self, region: u32) -> &[u32]
        ensures { result.now ≡ listed self.now region }
    {
        match self.lists.get(&region) {
            Some(serials) => serials,
            None => &[],
        }
    }

    /// Adds a serial number to those of a region; there is no list for region 0. If memory runs out, nothing changes.
    pub fn add(&mut self, region: u32, serial: u32) -> Result<(), Memory>
        ensures ok { OnOk result ((r : ℕ) → 0 < r → listed self.new r
            ≡ (if r == region then listed self.old r ++ serial ∷ [] else listed self.old r)) }
        ensures err { OnErr result ((r : ℕ) → listed self.new r ≡ listed self.old r) }
    {
        if region == 0 {
            return Ok(());
        }
        if let Some(serials) = self.lists.get_mut(&region) {
            serials.push(serial)?;
            return Ok(());
        }
        let mut serials = Vec::new(self.alloc);
        serials.push(serial)?;
        self.lists.insert(region, serials)?;
        Ok(())
    }

    /// Takes out the serial numbers of a region, if it has any.
    pub fn take(&mut self, region: u32) -> Option<Vec<u32>>
        ensures taken { items_or_none result ≡ listed self.old region }
        ensures rest { (r : ℕ) → listed self.new r
            ≡ (if r == region then [] else listed self.old r) }
    {
        self.lists.remove(&region)
    }
}
