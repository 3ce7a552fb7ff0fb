// The lines of files of rows.

use std::alloc::{AllocError, Global};

/// A row with the heading above it.
#[derive(Clone, Copy)]
pub struct FileRow<'a> {
    /// What follows `ask ` in the last heading before the row; empty if there is none.
    pub heading: &'a str,
    /// The input, with what is given for it.
    pub row: &'a str,
    pub expected: &'a str,
}

/// A line of a file other than headings, empty lines and comments: a row such as `: a b => 1:1=Name(a) 1:3=Name(b) 1:4=End`, or a line that
/// has no meaning.
#[derive(Clone, Copy)]
pub enum FileLine<'a> {
    Row(FileRow<'a>),
    Other(&'a str),
}

/// The line `line` below a heading. `None` for an empty line and a comment.
fn line_of<'a>(heading: &'a str, line: &'a str) -> Option<FileLine<'a>> {
    if line.is_empty() || line.starts_with('#') {
        return None;
    }
    match line.strip_prefix(": ") {
        Some(row) => match row.split_once(" => ") {
            Some((row, expected)) => Some(FileLine::Row(FileRow {
                heading,
                row,
                expected,
            })),
            None => Some(FileLine::Other(line)),
        },
        None => Some(FileLine::Other(line)),
    }
}

/// Appends the rows below a heading, and the lines without a meaning.
fn push_lines<'a>(
    found: &mut Vec<FileLine<'a>>,
    heading: &'a str,
    rows: &'a str,
) -> Result<(), AllocError> {
    for line in rows.lines() {
        if let Some(line) = line_of(heading, line) {
            found.push(line)?;
        }
    }
    Ok(())
}

/// The rows of a file's contents, each with its heading, and the lines without a meaning, in order. The contents begin with an empty line,
/// so that each heading follows a line end.
pub fn lines_of(alloc: Global, text: &str) -> Result<Vec<FileLine<'_>>, AllocError> {
    let mut found = Vec::new(alloc);
    for section in text.split("\nask ") {
        let (heading, rows) = section.split_once('\n').unwrap_or((section, ""));
        push_lines(&mut found, heading, rows)?;
    }
    Ok(found)
}

/// What a row's input has before `<-`, if there is one, and the input proper.
pub(crate) fn split_row(row: &str) -> (Option<&str>, &str) {
    if let Some(text) = row.strip_prefix("<- ") {
        return (Some(""), text);
    }
    match row.split_once(" <- ") {
        Some((given, text)) => (Some(given), text),
        None => (None, row),
    }
}

/// An expected result: these bytes, or bytes that end with them, begin with them or contain them.
#[derive(Clone, Copy)]
pub(crate) struct Wanted<'a> {
    /// Other bytes may come before them.
    pub(crate) is_end: bool,
    /// Other bytes may come after them.
    pub(crate) is_front: bool,
    pub(crate) bytes: &'a str,
}

/// The expected result of a row. Three dots at its beginning or end allow any bytes there.
pub(crate) fn wanted_by(expected: &str) -> Wanted {
    let (is_end, left) = match expected.strip_prefix("...") {
        Some(left) => (true, left),
        None => (false, expected),
    };
    let (is_front, bytes) = match left.strip_suffix("...") {
        Some(bytes) => (true, bytes),
        None => (false, left),
    };
    Wanted {
        is_end,
        is_front,
        bytes,
    }
}

/// Whether some bytes contain others; never true of no bytes.
fn stands_in(found: &[u8], part: &[u8]) -> bool {
    !part.is_empty() && found.windows(part.len()).any(|piece| piece == part)
}

/// Whether the result matches the expected bytes: exactly, as a suffix (`is_end`), as a prefix (`is_front`), or anywhere (both).
pub(crate) fn fits(found: &[u8], is_end: bool, is_front: bool, bytes: &[u8]) -> bool {
    match (is_end, is_front) {
        (true, true) => stands_in(found, bytes),
        (true, false) => found.ends_with(bytes),
        (false, true) => found.starts_with(bytes),
        (false, false) => found == bytes,
    }
}
