// The part of a line that is shown, and the columns that it takes.
//
// Positions count bytes; what is shown counts columns of a terminal.

use std::alloc::{AllocError, Global};
use ti_wording::display_text;
use unicode_width::UnicodeWidthStr;

// The widest part of a line that is shown, in bytes.
const MOST_BYTES: usize = 100;

// How many bytes before a position are shown of a longer line.
const LEAD: usize = 40;

/// The columns that these bytes take when they are shown.
pub(crate) fn width_of(alloc: Global, bytes: &[u8]) -> Result<usize, AllocError> {
    Ok(display_text(alloc, bytes)?.as_str().width())
}

/// A part of a line that is short enough to be shown: the bytes, and those before them.
#[derive(Clone, Copy)]
pub(crate) struct Window<'a> {
    pub(crate) before: &'a [u8],
    pub(crate) part: &'a [u8],
    pub(crate) is_cut: bool,
}

/// The part of a line around a column, counted from 1.
pub(crate) fn window_around(line: &[u8], col: u32) -> Window<'_> {
    let at = col.saturating_sub(1) as usize;
    let first = if line.len() <= MOST_BYTES {
        0
    } else {
        at.saturating_sub(LEAD)
    };
    let before = line.get(..first).unwrap_or(&[]);
    let rest = line.get(first..).unwrap_or(&[]);
    let part = rest.get(..MOST_BYTES).unwrap_or(rest);
    Window {
        before,
        part,
        is_cut: part.len() < rest.len(),
    }
}
