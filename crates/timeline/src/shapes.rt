// Parts of the picture's SVG source.
ghost use Rattle.std.specs.Prelude.{◌≡◌, ◌++◌, string_bytes, IfOk, OnOk};
ghost use Rattle.timeline.specs.Shapes.{escape_of, svg_text, title_text};
ghost use Rattle.timeline.specs.Lines.{timeline_line};

use crate::entry::{Act, SourcePlace, TraceEntry};
use std::alloc::{AllocError, Global};

/// Appends a byte, escaped if it has a meaning in SVG.
fn push_escaped(out: &mut String, byte: u8) -> Result<(), AllocError>
    ensures { OnOk result (string_bytes out.new ≡ string_bytes out.old ++ escape_of byte) }
{
    match byte {
        b'&' => out.push_str("&amp;"),
        b'<' => out.push_str("&lt;"),
        b'>' => out.push_str("&gt;"),
        b'"' => out.push_str("&quot;"),
        _ => out.push(char::from(byte)),
    }
}

/// A string, escaped for SVG.
pub(crate) fn svg_text(alloc: Global, text: &str) -> Result<String, AllocError>
    ensures { IfOk result (λ s. string_bytes s ≡ svg_text text.now) }
{
    let mut out = String::new(alloc);
    for byte in text.as_bytes() {
        push_escaped(&mut out, *byte)?;
    }
    Ok(out)
}

/// The line of an entry in the trace.
fn line_of(alloc: Global, number: usize, entry: &TraceEntry) -> Result<String, AllocError>
    ensures { IfOk result (λ s. string_bytes s ≡ timeline_line number entry.now) }
{
    let TraceEntry {
        process,
        place: SourcePlace { line, column },
        done,
        answer,
        ..
    } = *entry;
    format!(in alloc; "{number} p{process} {line}:{column} {done} -> {answer}")
}

/// The tooltip of an entry: its line in the trace.
pub(crate) fn title_of(
    alloc: Global,
    number: usize,
    entry: &TraceEntry,
) -> Result<String, AllocError>
    ensures { IfOk result (λ s. string_bytes s ≡ title_text number entry.now) }
{
    let line = line_of(alloc, number, entry)?;
    let line = svg_text(alloc, line.as_str())?;
    format!(in alloc; "<title>{line}</title>")
}

/// The CSS class of an entry. No contract says which class an operation has, since it decides nothing but colors.
pub(crate) fn look(act: Act, is_racing: bool) -> &'static str {
    match act {
        _ if is_racing => "race",
        Act::Read => "read",
        Act::Write => "write",
        Act::Make => "make",
        Act::Print => "print",
        Act::Arrive | Act::Depart => "meet",
        Act::End => "end",
        Act::Fault => "fault",
    }
}

/// The label of an entry: its operation and its result, without parts that say nothing (`-`, `done` and the word `arrive` or `depart`).
pub(crate) fn label_of(alloc: Global, entry: &TraceEntry) -> Result<String, AllocError> {
    let done = match entry.done.strip_prefix("arrive ") {
        Some(arrival) => arrival,
        None => entry.done.strip_prefix("depart").unwrap_or(entry.done),
    };
    let done = done.trim_end_matches(" -");
    match entry.answer {
        "done" => String::from_str(alloc, done),
        answer => format!(in alloc; "{done} -> {answer}"),
    }
}
