// Statistics: the number of entries of each operation.
ghost use Rattle.std.specs.Prelude.{◌≡◌, ◌≤◌, [], ◌++◌, length, take, vec_len, count_by, map, flat_map, bytes_eq, OnOk};
ghost use Rattle.ti_watch.specs.Mirrors.{kind_word, kind_count_text, kind_stats_text};
ghost use Rattle.ti_watch.specs.Reports.{number_text};

use crate::Watch;
use crate::acts::{ActKind, act_kind};
use crate::line::Line;
use std::alloc::Global;
use std::marker::Model;
use ti_base::{Entry, Memory};
use ti_ghost::GhostEntries;

// The names of operations, in the order of the lines of the report.
const WORDS: [&str; 14] = [
    "getField", "putField", "newObj", "newGrid", "getElem", "putElem", "makeView", "domainOf",
    "print", "arrive", "depart", "take", "end", "fault",
];

/// A watcher that reports how many entries there are of each operation. Its kind is 1.
///
/// It keeps one byte for each entry: its operation.
#[derive(Drop)]
pub struct StatsWatch {
    kinds: Vec<ActKind>,
    told: GhostEntries,
}

impl Model for StatsWatch {
    ghost use Rattle.std.specs.Prelude.{◌≡◌, List};
    ghost use Rattle.ti_base.specs.declared.entry.Entry.{Entry};
    ghost use Rattle.ti_watch.specs.Mirrors.{entry_kinds};

    ghost Value = { List Entry };

    ghost view = { λ watch. watch.told.entries };

    ghost invariant = { λ watch. watch.kinds.items ≡ entry_kinds watch.told.entries };
}

impl StatsWatch {
    /// A watcher that has observed no entry.
    pub fn new(alloc: Global) -> Self
        ensures { result ≡ [] }
    {
        StatsWatch {
            kinds: Vec::new(alloc),
            told: GhostEntries::new(),
        }
    }
}

// How many of the operations have this name.
fn count_of(kinds: &[ActKind], word: &str) -> usize
    ensures { result ≡ count_by (λ kind. bytes_eq (kind_word kind) word.now) kinds.now }
{
    let mut count = 0;
    for kind in kinds {
        if kind.word() == word {
            count += 1;
        }
    }
    count
}

// A line with a label, a space and a number.
fn number_line(label: &[u8], count: usize) -> Line
    requires { length label.now ≤ 100 }
    ensures { result ≡ label.now ++ number_text count }
{
    let mut line = Line::new();
    line.text(label);
    line.labelled_number(b" ", count);
    line.text(b"\n");
    line
}

// Appends the line of one operation. If it runs out of memory, it may have appended a part of it.
fn add_count(kinds: &[ActKind], word: &str, out: &mut Vec<u8>) -> Result<(), Memory>
    ensures text { OnOk result (out.new.items ≡ out.old.items ++ kind_count_text kinds.now word.now) }
    ensures kept { take (vec_len out.old) out.new.items ≡ out.old.items }
{
    out.extend_from_slice(word.as_bytes())?;
    out.extend_from_slice(number_line(b"", count_of(kinds, word)).as_slice())?;
    Ok(())
}

// Appends the lines of these operations. If it runs out of memory, it may have appended a part of them.
fn add_counts(kinds: &[ActKind], words: &[&'static str], out: &mut Vec<u8>) -> Result<(), Memory>
    ensures text { OnOk result (out.new.items
        ≡ out.old.items ++ flat_map (λ word. kind_count_text kinds.now word.now) words.now) }
    ensures kept { take (vec_len out.old) out.new.items ≡ out.old.items }
{
    for word in words {
        add_count(kinds, word, out)?;
    }
    Ok(())
}

// Appends the report. If it runs out of memory, it may have appended a part of it.
fn add_report(kinds: &[ActKind], out: &mut Vec<u8>) -> Result<(), Memory>
    ensures text { OnOk result (out.new.items ≡ out.old.items ++ kind_stats_text kinds.now) }
    ensures kept { take (vec_len out.old) out.new.items ≡ out.old.items }
{
    out.extend_from_slice(number_line(b"stats entries", kinds.len()).as_slice())?;
    add_counts(kinds, &WORDS, out)
}

impl Watch for StatsWatch {
    ghost kind_of = { λ _. 1 };

    ghost told = { λ watch. watch };

    fn kind(&self) -> u8 {
        1
    }

    fn see(&mut self, entry: &Entry) -> Result<(), Memory> {
        self.kinds.push(act_kind(entry.act))?;
        self.told = self.told.and(entry);
        Ok(())
    }

    fn report(&self, out: &mut Vec<u8>) -> Result<(), Memory> {
        let len = out.len();
        match add_report(&self.kinds, out) {
            Ok(()) => Ok(()),
            Err(memory) => {
                out.truncate(len);
                Err(memory)
            }
        }
    }
}
