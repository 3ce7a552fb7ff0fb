// The line that sums up a run, which mode gen writes.
ghost use Rattle.std.specs.Prelude.{◌≡◌, cond};
ghost use Rattle.std.specs.Int.{w32};
ghost use Rattle.ti_base.specs.WholeNumbers.{wrap};
ghost use Rattle.ti_top.specs.Summary.{is_print, printed_int as int_spec, print_count, printed_sum, summary_line as line_spec};

use ti_base::{Action, Value, int_add};
use ti_history::PackedHistory;
use ti_watch::Line;

// 1 for a print, and 0 for any other action.
fn prints_by(action: Action) -> usize
    ensures { result ≡ cond (is_print action) 1 0 }
{
    match action {
        Action::Print { .. } => 1,
        _ => 0,
    }
}

// The integer that an action prints, or 0 if it prints none.
fn printed_int(action: Action) -> i32
    ensures { result ≡ int_spec action }
{
    match action {
        Action::Print {
            value: Some(Value::Int(n)),
            ..
        } => n,
        _ => 0,
    }
}

// How many prints there are, and the sum of all printed integers, wrapped to 32 bits. That a history has less than 2^63 entries, as `len` says,
// bounds the count.
fn prints_in(history: &PackedHistory) -> (usize, i32)
    ensures count { result.0 ≡ print_count history.now.items }
    ensures sum { result.1 ≡ wrap w32 (printed_sum history.now.items) }
{
    let _bound = history.len();
    let mut count = 0;
    let mut sum = 0;
    'entries: for entry in history.iter() {
        count += prints_by(entry.act);
        sum = int_add(sum, printed_int(entry.act));
    }
    (count, sum)
}

/// The summary of a run: the number of prints, the sum of the printed integers, and the number of entries.
pub fn summary_line(history: &PackedHistory) -> Line
    ensures { result ≡ line_spec history.now.items }
{
    let (count, sum) = prints_in(history);
    let mut line = Line::new();
    line.text(b"lines ");
    line.number(count);
    line.text(b" entries ");
    line.number(history.len());
    line.text(b" sum ");
    line.number(sum);
    line.text(b"\n");
    line
}
