// Iteration over the entries of a history.

ghost use Rattle.std.specs.Iterator.{YieldsFirst, item_count};

use crate::head::Head;
use crate::reading::Rest;
use std::marker::Model;
use ti_base::Entry;

/// An iterator over the entries of a history, in order. Contracts see the entries that are still to come.
#[derive(Drop)]
pub struct PackedEntries<'a> {
    pub(crate) heads: &'a [Head],
    pub(crate) columns: Rest<'a>,
}

impl<'a> Model for PackedEntries<'a> {
    ghost use Rattle.std.specs.Prelude.{List};
    ghost use Rattle.ti_base.specs.declared.entry.Entry.{Entry as Listed};
    ghost use Rattle.ti_history.specs.Mirrors.Held.{lists_left};
    ghost use Rattle.ti_history.specs.Mirrors.Reading.{entries_in};

    ghost Value = { List Listed };

    ghost view = { λ c. entries_in c.heads.now (lists_left c.columns) };
}

impl<'a> Iterator for PackedEntries<'a> {
    type Item = Entry;

    ghost next_gives = { YieldsFirst (λ entries. entries) };

    ghost remaining = { item_count (λ entries. entries) };

    fn next(&mut self) -> Option<Entry> {
        let (head, others) = self.heads.split_first()?;
        let entry = self.columns.entry(head);
        self.columns = self.columns.behind(head);
        self.heads = others;
        Some(entry)
    }
}
