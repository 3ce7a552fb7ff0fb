// Parses the lines of a trace.
ghost use Rattle.std.specs.Prelude.{◌≡◌, ◌<◌, ◌++◌, codes, decimal, IfSome};
ghost use Rattle.timeline.specs.Lines.{rest_text, timeline_line};

use crate::entry::{Act, PROCESSES, TraceEntry};
use crate::parts::{is_shown, number, place as place_of};

/// The kind of the operation with this name.
fn act_of(word: &str) -> Option<Act> {
    match word {
        "getField" | "getElem" | "domainOf" | "take" => Some(Act::Read),
        "putField" | "putElem" => Some(Act::Write),
        "newObj" | "newGrid" | "makeView" => Some(Act::Make),
        "print" => Some(Act::Print),
        "arrive" => Some(Act::Arrive),
        "depart" => Some(Act::Depart),
        "end" => Some(Act::End),
        "fault" => Some(Act::Fault),
        _ => None,
    }
}

/// Parses the number of a process, such as `p3`.
fn process_of(text: &str) -> Option<usize>
    ensures { IfSome result (λ p. (p < 32) × (text.now ≡ codes "p" ++ decimal p)) }
{
    let process = number(text.strip_prefix('p')?)? as usize;
    if process < PROCESSES {
        Some(process)
    } else {
        None
    }
}

/// What comes before the first space; all if there is none.
fn first_word(text: &str) -> &str {
    match text.split_once(' ') {
        Some((word, _)) => word,
        None => text,
    }
}

/// Parses what follows the number of an entry.
fn read_rest<'a>(rest: &'a str) -> Option<TraceEntry<'a>>
    ensures { IfSome result (λ e. rest.now ≡ rest_text e) }
{
    let (process, rest) = rest.split_once(' ')?;
    let process = process_of(process)?;
    let (place, rest) = rest.split_once(' ')?;
    let (done, answer) = rest.split_once(" -> ")?;
    Some(TraceEntry {
        process,
        place: place_of(place)?,
        act: act_of(first_word(done))?,
        done,
        answer,
    })
}

/// Parses the line of the entry with this number. `None` if it isn't the line of an entry, or is that of another one.
pub(crate) fn read_entry<'a>(line: &'a str, expected: usize) -> Option<TraceEntry<'a>>
    ensures { IfSome result (λ e. line.now ≡ timeline_line expected e) }
{
    let (found, rest) = line.split_once(' ')?;
    if number(found)? as usize == expected && is_shown(line) {
        read_rest(rest)
    } else {
        None
    }
}
