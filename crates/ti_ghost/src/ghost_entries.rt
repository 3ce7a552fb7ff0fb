// Ghost record of what a watcher has observed.

ghost use Rattle.std.specs.Prelude.{◌≡◌, List, [], ◌∷◌, ◌++◌};
ghost use Rattle.std.specs.Borrow.{ftrue};
ghost use Rattle.std.specs.Coded.{coded_list};
ghost use Rattle.ti_base.specs.contracts.entry.Entry as one_entry;
ghost use Rattle.ti_base.specs.declared.entry.Entry.{Entry as Listed};

use std::marker::Model;
use ti_base::Entry;

/// The entries observed so far. Zero-sized; exists only for contracts.
#[derive(Drop)]
pub struct GhostEntries {
    pub ghost entries: { List Listed } by { coded_list one_entry.the_row.coded },
}

impl Model for GhostEntries {
    ghost also_owns = { λ _. ftrue };
}

impl GhostEntries {
    /// No entries. No effect at run time.
    pub fn new() -> GhostEntries
        ensures { result.entries ≡ [] }
    {
        GhostEntries {}
    }

    /// These entries and one more. No effect at run time.
    pub fn and(&self, _e: &Entry) -> GhostEntries
        ensures { result.entries ≡ self.now.entries ++ _e.now ∷ [] }
    {
        GhostEntries {}
    }
}
