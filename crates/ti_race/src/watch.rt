// The report of races: one line for each entry that races.
ghost use Rattle.std.specs.Prelude.{◌≡◌, [], ◌∷◌, ◌++◌, codes, decimal, flat_map, take, vec_len, OnOk};
ghost use Rattle.ti_race.specs.Mirrors.HistoryIndex.{use_line, report_of};

use crate::spots::Use;
use crate::table::racing_of;
use crate::uses::Uses;
use std::alloc::Global;
use std::marker::Model;
use ti_base::{Entry, Memory};
use ti_ghost::GhostEntries;
use ti_watch::{Line, Watch};

/// A watcher that lists the entries that race, one line for each. Its kind is 2.
///
/// It stores only the reads and writes, and the index of the history (`HistoryIndex`), not all entries.
#[derive(Drop)]
pub struct RaceWatch {
    uses: Uses,
    heard: GhostEntries,
    alloc: Global,
}

impl Model for RaceWatch {
    ghost use Rattle.std.specs.Prelude.{List};
    ghost use Rattle.ti_base.specs.declared.entry.Entry.{Entry};
    ghost use Rattle.ti_race.specs.Mirrors.HistoryIndex.{Gathers};

    ghost Value = { List Entry };

    ghost view = { λ watch. watch.heard.entries };

    ghost invariant = { λ watch. Gathers watch.uses watch.heard.entries };
}

impl RaceWatch {
    /// A watcher that has observed no entry.
    pub fn new(alloc: Global) -> Self
        ensures { result ≡ [] }
    {
        RaceWatch {
            uses: Uses::new(alloc),
            heard: GhostEntries::new(),
            alloc,
        }
    }
}

// The line with the number of racing entries.
fn count_line(count: usize) -> Line
    ensures { result ≡ codes "races " ++ decimal count ++ 10 ∷ [] }
{
    let mut line = Line::new();
    line.labelled_number(b"races ", count);
    line.text(b"\n");
    line
}

// The line of the entry of an access: its number, process and source location.
fn race_line(access: &Use) -> Line
    ensures { result ≡ use_line access.now }
{
    let mut line = Line::new();
    line.number(access.number);
    line.labelled_number(b" p", access.proc);
    line.labelled_number(b" ", access.place.line);
    line.labelled_number(b":", access.place.col);
    line.text(b"\n");
    line
}

// Appends the lines of the entries of these accesses. If it runs out of memory, it may have appended a part of them.
fn add_lines(uses: &[Use], out: &mut Vec<u8>) -> Result<(), Memory>
    ensures text { OnOk result (out.new.items ≡ out.old.items ++ flat_map use_line uses.now) }
    ensures kept { take (vec_len out.old) out.new.items ≡ out.old.items }
{
    for u in uses {
        out.extend_from_slice(race_line(u).as_slice())?;
    }
    Ok(())
}

// Appends the report. If it runs out of memory, it may have appended a part of it.
fn add_report(alloc: Global, uses: &[Use], out: &mut Vec<u8>) -> Result<(), Memory>
    ensures text { OnOk result (out.new.items ≡ out.old.items ++ report_of uses.now) }
    ensures kept { take (vec_len out.old) out.new.items ≡ out.old.items }
{
    let racing = racing_of(alloc, uses)?;
    out.extend_from_slice(count_line(racing.len()).as_slice())?;
    add_lines(&racing, out)
}

impl Watch for RaceWatch {
    ghost kind_of = { λ _. 2 };

    ghost told = { λ watch. watch };

    fn kind(&self) -> u8 {
        2
    }

    fn see(&mut self, entry: &Entry) -> Result<(), Memory> {
        self.uses.see(entry)?;
        self.heard = self.heard.and(entry);
        Ok(())
    }

    fn report(&self, out: &mut Vec<u8>) -> Result<(), Memory> {
        let len = out.len();
        match add_report(self.alloc, &self.uses.found, out) {
            Ok(()) => Ok(()),
            Err(memory) => {
                out.truncate(len);
                Err(memory)
            }
        }
    }
}
