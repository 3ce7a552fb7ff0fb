// The line that a trace has for an entry.
ghost use Rattle.std.specs.Prelude.{◌≡◌, ◌≤◌, length};
ghost use Rattle.ti_watch.specs.Reports.{entry_text};

use ti_base::Entry;
use ti_watch::Line;

/// The line of the entry with this index, counted from 0, with its line end.
pub fn entry_line(number: usize, entry: &Entry) -> Line
    ensures text { result ≡ entry_text number entry.now }
    ensures short { length result ≤ 345 }
{
    let mut line = Line::new();
    line.number(number);
    line.labelled_number(b" p", entry.proc);
    line.labelled_number(b" ", entry.place.line);
    line.labelled_number(b":", entry.place.col);
    line.text(b" ");
    line.act(entry.act);
    line.text(b" -> ");
    line.answer(entry.answer);
    line.text(b"\n");
    line
}
