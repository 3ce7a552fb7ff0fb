// The report of an explanation: the refusal, the lines of the text that matter with marks below them, and help.

use crate::source::{Window, width_of, window_around};
use std::alloc::{AllocError, Global};
use ti_base::Place;
use ti_explain::{Explanation, ReasonKind, ReasonSpan};
use ti_rules::{Refusal, rule_text};
use ti_wording::{
    NoMemory, display_text, error_label, help_of, is_chain, is_own, is_said, line_of, link_label,
    reason_label, token_at,
};

// The largest number of marks that are shown.
const MOST_MARKS: usize = 6;

// A mark below a line: the position of its first byte, the number of its bytes, what it is drawn with, and what it says.
#[derive(Drop)]
struct Underline {
    place: Place,
    len: usize,
    drawn: char,
    label: String,
}

// The mark of the refusal itself.
fn error_mark(
    alloc: Global,
    text: &[u8],
    explanation: &Explanation,
) -> Result<Underline, NoMemory> {
    Ok(Underline {
        place: explanation.refusal.place,
        len: explanation.len,
        drawn: '^',
        label: error_label(alloc, text, explanation)?,
    })
}

fn reason_mark(alloc: Global, text: &[u8], reason: &ReasonSpan) -> Result<Underline, NoMemory> {
    let token = display_text(alloc, token_at(text, reason.place, reason.len))?;
    Ok(Underline {
        place: reason.place,
        len: reason.len,
        drawn: '-',
        label: reason_label(alloc, &reason.kind, token.as_str())?,
    })
}

// Whether the reason has a mark of its own: an expected token is said by the mark of the refusal, a variable by that of its declaration.
fn is_marked(reason: &ReasonSpan, next: Option<&ReasonSpan>) -> bool {
    match &reason.kind {
        ReasonKind::Plain(_) => match next {
            Some(next) => !matches!(&next.kind, ReasonKind::PlainDeclaration),
            None => true,
        },
        kind => !is_own(kind),
    }
}

// The mark of a reason of a chain: a link, or a part of a condition.
fn link_mark(
    alloc: Global,
    text: &[u8],
    reasons: &[ReasonSpan],
    index: usize,
    reason: &ReasonSpan,
) -> Result<Underline, NoMemory> {
    let label = link_label(alloc, text, reasons, index)?;
    if label.is_empty() {
        return reason_mark(alloc, text, reason);
    }
    Ok(Underline {
        place: reason.place,
        len: reason.len,
        drawn: '-',
        label,
    })
}

// Whether a link of a chain with so many links before its collective has a mark: of a long chain, the first two and the last three.
fn is_shown(index: usize, count: usize) -> bool {
    count < MOST_MARKS || index < 2 || index.saturating_add(3) >= count
}

// The marks of a chain, in its order; the last is that of the refusal, which is at the collective.
fn chain_marks(
    alloc: Global,
    text: &[u8],
    explanation: &Explanation,
) -> Result<Vec<Underline>, NoMemory> {
    let mut marks = Vec::new(alloc);
    let count = explanation.reasons.len().saturating_sub(1);
    for (i, reason) in explanation.reasons.iter().take(count).enumerate() {
        if is_shown(i, count) {
            marks.push(link_mark(alloc, text, &explanation.reasons, i, reason)?)?;
        }
    }
    marks.push(error_mark(alloc, text, explanation)?)?;
    Ok(marks)
}

// The marks of an explanation, in the order of the text, or in that of a chain.
fn marks_of(
    alloc: Global,
    text: &[u8],
    explanation: &Explanation,
) -> Result<Vec<Underline>, NoMemory> {
    if is_chain(&explanation.reasons) {
        return chain_marks(alloc, text, explanation);
    }
    let mut marks = Vec::new(alloc);
    marks.push(error_mark(alloc, text, explanation)?)?;
    for (i, reason) in explanation.reasons.iter().enumerate() {
        let next = explanation.reasons.get(i.saturating_add(1));
        if marks.len() < MOST_MARKS && is_marked(reason, next) && !is_said(explanation, reason) {
            marks.push(reason_mark(alloc, text, reason)?)?;
        }
    }
    marks.sort_by_key(|mark: &Underline| (mark.place.line, mark.place.col))?;
    Ok(marks)
}

fn push_times(out: &mut String, c: char, count: usize) -> Result<(), AllocError> {
    for _ in 0..count {
        out.push(c)?;
    }
    Ok(())
}

// The number of decimal digits.
fn digits(number: u32) -> usize {
    let mut rest = number;
    let mut count = 1usize;
    for _ in 0..10 {
        rest /= 10;
        if rest > 0 {
            count = count.saturating_add(1);
        }
    }
    count
}

// The margin: as many columns as the largest line number has digits.
#[derive(Clone, Copy)]
struct Margin {
    width: usize,
}

impl Margin {
    fn of(marks: &[Underline]) -> Margin {
        let mut width = 1;
        for mark in marks {
            width = width.max(digits(mark.place.line));
        }
        Margin { width }
    }

    // The margin without a number.
    fn push_blank(self, out: &mut String) -> Result<(), AllocError> {
        push_times(out, ' ', self.width)?;
        out.push_str(" |")
    }

    // The margin with the number of a line.
    fn push_number(self, alloc: Global, out: &mut String, line: u32) -> Result<(), AllocError> {
        let number = format!(in alloc; "{line}")?;
        out.push_str(number.as_str())?;
        push_times(out, ' ', self.width.saturating_sub(number.len()))?;
        out.push_str(" |")
    }
}

// Appends the part of a line that is shown.
fn push_line(
    alloc: Global,
    out: &mut String,
    margin: Margin,
    line: u32,
    part: Window<'_>,
) -> Result<(), AllocError> {
    margin.push_number(alloc, out, line)?;
    out.push(' ')?;
    if !part.before.is_empty() {
        out.push_str("...")?;
    }
    out.push_str(display_text(alloc, part.part)?.as_str())?;
    if part.is_cut {
        out.push_str("...")?;
    }
    out.push('\n')
}

// Appends a mark below the part of its line that is shown, with its label.
fn push_mark(
    alloc: Global,
    out: &mut String,
    margin: Margin,
    part: Window<'_>,
    mark: &Underline,
) -> Result<(), AllocError> {
    let at = (mark.place.col.saturating_sub(1) as usize).saturating_sub(part.before.len());
    let front = part.part.get(..at).unwrap_or(part.part);
    let rest = part.part.get(at..).unwrap_or(&[]);
    let token = rest.get(..mark.len).unwrap_or(rest);
    let lead = if part.before.is_empty() { 1 } else { 4 };
    margin.push_blank(out)?;
    push_times(out, ' ', width_of(alloc, front)?.saturating_add(lead))?;
    push_times(out, mark.drawn, width_of(alloc, token)?.max(1))?;
    if !mark.label.is_empty() {
        out.push(' ')?;
        out.push_str(mark.label.as_str())?;
    }
    out.push('\n')
}

// Appends the excerpts: each line once, with its marks below it; a line that is cut, once for each mark.
fn push_excerpts(
    alloc: Global,
    out: &mut String,
    text: &[u8],
    margin: Margin,
    marks: &[Underline],
) -> Result<(), AllocError> {
    let mut last = 0;
    for mark in marks {
        let line = mark.place.line;
        let part = window_around(line_of(text, line), mark.place.col);
        if line != last || part.is_cut || !part.before.is_empty() {
            push_line(alloc, out, margin, line, part)?;
        }
        push_mark(alloc, out, margin, part, mark)?;
        last = line;
    }
    Ok(())
}

// Appends the help of the explanation, if there is any.
fn push_help(out: &mut String, margin: Margin, help: &str) -> Result<(), AllocError> {
    if help.is_empty() {
        return Ok(());
    }
    margin.push_blank(out)?;
    out.push('\n')?;
    push_times(out, ' ', margin.width)?;
    out.push_str(" = help: ")?;
    out.push_str(help)?;
    out.push('\n')
}

/// The report of an explanation of this text, which is the content of the file of this name. Each line ends with a line feed.
pub(crate) fn report(
    alloc: Global,
    name: &str,
    text: &[u8],
    explanation: &Explanation,
) -> Result<String, NoMemory> {
    let Refusal { rule, place } = explanation.refusal;
    let marks = marks_of(alloc, text, explanation)?;
    let margin = Margin::of(&marks);
    let mut out = String::new(alloc);
    out.push_str("error[")?;
    out.push_str(rule.code())?;
    out.push_str("]: ")?;
    out.push_str(rule_text(rule))?;
    out.push('\n')?;
    push_times(&mut out, ' ', margin.width)?;
    let (line, col) = (place.line, place.col);
    let place = format!(in alloc; "--> {name}:{line}:{col}\n")?;
    out.push_str(place.as_str())?;
    margin.push_blank(&mut out)?;
    out.push('\n')?;
    push_excerpts(alloc, &mut out, text, margin, &marks)?;
    let help = help_of(alloc, text, explanation)?;
    push_help(&mut out, margin, help.as_str())?;
    Ok(out)
}
