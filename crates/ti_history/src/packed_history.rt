// A history: the entries of a run in order.

ghost use Rattle.std.specs.Prelude.{◌≡◌, ◌+◌, ◌-◌, ◌<◌, ◌^◌, true, [], ◌∷◌, ◌++◌, length, take, slice_get, Some, OnOk};
ghost use Rattle.ti_base.specs.declared.entry.Entry.{Entry as Listed};

use crate::columns::Columns;
use crate::head::Head;
use crate::packed_entries::PackedEntries;
use crate::slices::skipped;
use std::alloc::Global;
use std::marker::Model;
use ti_base::{Entry, Memory};

/// The entries of a run in order. Contracts see them as a list, and whether there is capacity for one more.
#[derive(Drop)]
pub struct PackedHistory {
    heads: Vec<Head>,
    columns: Columns,
}

impl Model for PackedHistory {
    ghost use Rattle.std.specs.Prelude.{◌&&◌};
    ghost use Rattle.ti_base.specs.contracts.entry.Entry as entry;
    ghost use Rattle.ti_history.specs.Recorded.{Recorded, recorded_code};
    ghost use Rattle.ti_history.specs.Mirrors.Held.{lists_in, has_room, fits_entry};
    ghost use Rattle.ti_history.specs.Mirrors.Reading.{entries_in, IsPacked};

    ghost Value = { Recorded };

    ghost coded = { recorded_code entry.the_row.coded };

    ghost view = { λ h. record {
      items = entries_in h.heads.items (lists_in h.columns);
      has_room = has_room h.heads 1 && fits_entry h.columns;
    } };

    ghost invariant = { λ h. IsPacked h.heads.items (lists_in h.columns) };
}

impl PackedHistory {
    /// A history without entries.
    pub fn new(alloc: Global) -> Self
        ensures { result.items ≡ [] }
    {
        PackedHistory {
            heads: Vec::new(alloc),
            columns: Columns::new(alloc),
        }
    }

    /// The number of entries.
    pub fn len(&self) -> usize
        ensures len { result ≡ length self.now.items }
        ensures bound { result < 2 ^ 63 }
    {
        let _bound = self.heads.capacity();
        self.heads.len()
    }

    /// The number of the process of the entry at this index.
    pub fn proc_at(&self, index: usize) -> u32
        requires { index < length self.now.items }
        ensures { (e : Listed) → slice_get self.now.items index ≡ Some e → result ≡ e.proc }
    {
        self.heads[index].proc
    }

    /// The last entry, if there is one.
    pub fn last(&self) -> Option<Entry>
        ensures { result ≡ slice_get self.now.items (length self.now.items - 1) }
    {
        let head = self.heads.last()?;
        let before = self.columns.lengths().without(head);
        Some(self.columns.rest(&before).entry(head))
    }

    /// Reserves capacity for one more entry.
    pub fn reserve(&mut self) -> Result<(), Memory>
        ensures items { self.new.items ≡ self.old.items }
        ensures room { OnOk result (self.new.has_room ≡ true) }
    {
        self.heads.reserve(1)?;
        self.columns.reserve()
    }

    /// Appends an entry. It doesn't allocate: there has to be capacity for it.
    pub fn push(&mut self, entry: Entry)
        requires { self.old.has_room ≡ true }
        ensures { self.new.items ≡ self.old.items ++ entry ∷ [] }
    {
        self.heads.push_reserved(Head::of(&entry));
        self.columns.append(&entry);
    }

    /// The entries in order.
    pub fn iter(&self) -> PackedEntries<'_>
        ensures { result ≡ self.now.items }
    {
        PackedEntries {
            heads: &self.heads,
            columns: self.columns.all(),
        }
    }

    /// Keeps the first `count` entries and drops the others.
    pub fn truncate(&mut self, count: usize)
        ensures { self.new.items ≡ take count self.old.items }
    {
        let dropped = skipped(&self.heads, count);
        let kept = self.columns.lengths().without_all(dropped);
        self.heads.truncate(count);
        self.columns.truncate(&kept);
    }
}
