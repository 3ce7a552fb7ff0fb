// Writes the picture of a run as SVG. Coordinates are in pixels.

use crate::entry::{Act, SourcePlace, TraceEntry};
use crate::layout::PictureLayout;
use crate::report::Report;
use crate::shapes::{label_of, look, svg_text, title_of};
use std::alloc::{AllocError, Global};
use std::fmt::Write;

// The width of the margin at the left.
const LEFT: usize = 16;

// The height of the header.
const TOP: usize = 44;

// The distance between lanes.
const LANE: usize = 304;

// The width of a box.
const BOX: usize = 284;

// The height of a row.
const ROW: usize = 24;

// The number of characters that fit in a box.
const LETTERS: usize = 30;

const STYLE: &str = "<style>\
text{font:12px monospace;fill:#1b1f24}\
.place{fill:#6e7781;text-anchor:end}\
.lane{stroke:#d0d7de}\
.line{stroke:#57606a;stroke-width:3}\
.name{font-weight:bold}\
rect{stroke:#8c959f}\
.read{fill:#ddf4ff}.write{fill:#b6e3ff}.make{fill:#dafbe1}.print{fill:#fff8c5}.meet{fill:#eaeef2}.end{fill:#d0d7de}\
.fault{fill:#ffb3ad;stroke:#a40e26}.race{fill:#ffd8d3;stroke:#cf222e;stroke-width:2.5}\
</style>\n";

/// The x coordinate of the lane of a process.
fn left_of(process: usize) -> usize {
    process.saturating_mul(LANE).saturating_add(LEFT)
}

/// The y coordinate of a row.
fn top(row: usize) -> usize {
    row.saturating_mul(ROW).saturating_add(TOP)
}

/// The prefix of a label that fits in a box.
fn label_prefix(text: &str) -> &str {
    text.get(..LETTERS).unwrap_or(text)
}

/// Appends the header of a picture of this size.
fn add_head(out: &mut String, width: usize, height: usize) -> Result<(), AllocError> {
    writeln!(
        out,
        "<svg xmlns=\"http://www.w3.org/2000/svg\" width=\"{width}\" height=\"{height}\">"
    )?;
    out.push_str(STYLE)?;
    writeln!(
        out,
        "<rect width=\"{width}\" height=\"{height}\" style=\"fill:#fff;stroke:none\"/>"
    )
}

/// Appends the lane of a process, with its name above.
fn add_lane(out: &mut String, process: usize, height: usize) -> Result<(), AllocError> {
    let middle = left_of(process).saturating_add(BOX / 2);
    writeln!(
        out,
        "<line class=\"lane\" x1=\"{middle}\" x2=\"{middle}\" y1=\"{TOP}\" y2=\"{height}\"/>\n<text class=\"name\" x=\"{middle}\" y=\"28\" text-anchor=\"middle\">process {process}</text>"
    )
}

/// Appends the line of a collective across all lanes.
fn add_line(out: &mut String, row: usize, processes: usize) -> Result<(), AllocError> {
    let y = top(row).saturating_add(ROW / 2);
    let right = left_of(processes);
    writeln!(
        out,
        "<line class=\"line\" x1=\"{LEFT}\" x2=\"{right}\" y1=\"{y}\" y2=\"{y}\"/>"
    )
}

/// Appends the box of an entry, with a label and its source location.
fn add_box(
    out: &mut String,
    look: &str,
    x: usize,
    y: usize,
    label: &str,
    place: SourcePlace,
) -> Result<(), AllocError> {
    let (text, end, base) = (
        x.saturating_add(6),
        x.saturating_add(BOX - 6),
        y.saturating_add(14),
    );
    let SourcePlace { line, column } = place;
    writeln!(
        out,
        "<rect class=\"{look}\" x=\"{x}\" y=\"{y}\" width=\"{BOX}\" height=\"20\" rx=\"3\"/>"
    )?;
    writeln!(
        out,
        "<text x=\"{text}\" y=\"{base}\">{label}</text><text class=\"place\" x=\"{end}\" y=\"{base}\">{line}:{column}</text>"
    )
}

/// Appends the dot of a departure on the line of its collective, with a label.
fn add_dot(out: &mut String, x: usize, y: usize, label: &str) -> Result<(), AllocError> {
    let (middle, text) = (x.saturating_add(BOX / 2), x.saturating_add(BOX / 2 + 10));
    let (center, base) = (y.saturating_add(ROW / 2), y.saturating_add(ROW / 2 - 5));
    writeln!(
        out,
        "<circle cx=\"{middle}\" cy=\"{center}\" r=\"6\" fill=\"#57606a\"/><text x=\"{text}\" y=\"{base}\">{label}</text>"
    )
}

/// Appends an entry at this height, with its line in the trace as a tooltip.
fn add_entry(
    alloc: Global,
    out: &mut String,
    number: usize,
    entry: &TraceEntry,
    y: usize,
    is_racing: bool,
) -> Result<(), AllocError> {
    let title = title_of(alloc, number, entry)?;
    let label = label_of(alloc, entry)?;
    let label = svg_text(alloc, label_prefix(label.as_str()))?;
    let x = left_of(entry.process);
    writeln!(out, "<g>{title}")?;
    match entry.act {
        Act::Depart => add_dot(out, x, y, label.as_str())?,
        act => add_box(out, look(act, is_racing), x, y, label.as_str(), entry.place)?,
    }
    out.push_str("</g>\n")
}

/// Appends the lanes and the lines of collectives.
fn add_lanes(out: &mut String, layout: &PictureLayout, height: usize) -> Result<(), AllocError> {
    for process in 0..layout.processes {
        add_lane(out, process, height)?;
    }
    for phase in 0..layout.lines {
        add_line(out, layout.line(phase), layout.processes)?;
    }
    Ok(())
}

/// The picture of a report. Errors only if it runs out of memory.
pub(crate) fn picture(alloc: Global, report: &Report) -> Result<String, AllocError> {
    let layout = PictureLayout::of(alloc, &report.entries)?;
    let (width, height) = (left_of(layout.processes), top(layout.line(layout.lines)));
    let mut out = String::new(alloc);
    add_head(&mut out, width, height.saturating_add(ROW))?;
    add_lanes(&mut out, &layout, height)?;
    for (number, entry) in report.entries.iter().enumerate() {
        let is_racing = report.racing.contains(&number);
        add_entry(
            alloc,
            &mut out,
            number,
            entry,
            top(layout.row(number)),
            is_racing,
        )?;
    }
    out.push_str("</svg>\n")?;
    Ok(out)
}
