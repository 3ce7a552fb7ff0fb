// Traces: one line for each entry.
ghost use Rattle.std.specs.Prelude.{◌≡◌, ◌+◌, ◌≤◌, [], ◌++◌, length};
ghost use Rattle.ti_watch.specs.Lines.{line_room};
ghost use Rattle.ti_watch.specs.Reports.{entry_text};

use crate::Watch;
use crate::line::Line;
use std::alloc::Global;
use std::marker::Model;
use ti_base::{Entry, Memory};
use ti_ghost::GhostEntries;

/// A watcher that lists the entries, one line for each. Its kind is 0.
///
/// It keeps their lines.
#[derive(Drop)]
pub struct TraceWatch {
    lines: Vec<u8>,
    // How many entries it has observed.
    count: usize,
    told: GhostEntries,
}

impl Model for TraceWatch {
    ghost use Rattle.std.specs.Prelude.{◌≡◌, List, length};
    ghost use Rattle.ti_base.specs.declared.entry.Entry.{Entry};
    ghost use Rattle.ti_watch.specs.Reports.{trace_text};

    ghost Value = { List Entry };

    ghost view = { λ watch. watch.told.entries };

    ghost invariant = { λ watch. (watch.count ≡ length watch.told.entries)
        × (watch.lines.items ≡ trace_text watch.told.entries) };
}

impl TraceWatch {
    /// A watcher that has observed no entry.
    pub fn new(alloc: Global) -> Self
        ensures { result ≡ [] }
    {
        TraceWatch {
            lines: Vec::new(alloc),
            count: 0,
            told: GhostEntries::new(),
        }
    }
}

impl Line {
    // Appends the line of an entry: its number, process, source location, operation and result. Requires 345 free bytes.
    fn entry(&mut self, number: usize, entry: &Entry)
        requires { length self.old + 345 ≤ line_room }
        ensures { self.new ≡ self.old ++ entry_text number entry.now }
    {
        self.number(number);
        self.labelled_number(b" p", entry.proc);
        self.labelled_number(b" ", entry.place.line);
        self.labelled_number(b":", entry.place.col);
        self.text(b" ");
        self.act(entry.act);
        self.text(b" -> ");
        self.answer(entry.answer);
        self.text(b"\n");
    }
}

// The line of an entry, whose index in the history is `number`.
fn entry_line(number: usize, entry: &Entry) -> Line
    ensures { result ≡ entry_text number entry.now }
{
    let mut line = Line::new();
    line.entry(number, entry);
    line
}

impl Watch for TraceWatch {
    ghost kind_of = { λ _. 0 };

    ghost told = { λ watch. watch };

    fn kind(&self) -> u8 {
        0
    }

    // An entry beyond the greatest number that counts entries is one too many for the memory, too.
    fn see(&mut self, entry: &Entry) -> Result<(), Memory> {
        if self.count == usize::MAX {
            return Err(Memory);
        }
        self.lines
            .extend_from_slice(entry_line(self.count, entry).as_slice())?;
        self.count += 1;
        self.told = self.told.and(entry);
        Ok(())
    }

    fn report(&self, out: &mut Vec<u8>) -> Result<(), Memory> {
        out.extend_from_slice(&self.lines)?;
        Ok(())
    }
}
