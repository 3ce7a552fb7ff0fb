// The input of a row, and the comparison of its result with the expected one.

use crate::error::RowErr;
use crate::lines::{FileRow, fits, split_row, wanted_by};
use crate::texts::{bytes_of, row_text, text_of};
use std::alloc::Global;
use std::rt::Files;

/// The input of a row.
#[derive(Drop)]
pub struct RowInput<'a> {
    /// What is requested: the first word of the heading, such as `tokens`.
    pub asked: &'a str,
    /// What comes before `<-`; `None` if the row has no `<-`.
    pub given: Option<&'a str>,
    /// The input as the row writes it.
    pub spelled: &'a str,
    /// The bytes of the input, decoded and with the context that the heading names.
    pub text: Vec<u8>,
}

/// The input of a row below a heading such as `tokens whole`: what is requested, and the context of inputs.
pub fn input_of<'a, R: Files + AllocGlobal>(
    rt: &R,
    row: FileRow<'a>,
) -> Result<RowInput<'a>, RowErr> {
    let Some((asked, frame)) = row.heading.split_once(' ') else {
        return Err(RowErr::Heading);
    };
    let (given, spelled) = split_row(row.row);
    let text = text_of(rt, frame, spelled)?;
    Ok(RowInput {
        asked,
        given,
        spelled,
        text,
    })
}

/// Whether the result is as the row expects.
fn holds(alloc: Global, found: &[u8], expected: &str) -> Result<bool, RowErr> {
    let wanted = wanted_by(expected);
    let bytes = bytes_of(alloc, wanted.bytes)?;
    Ok(fits(found, wanted.is_end, wanted.is_front, &bytes))
}

/// The actual result in the notation of rows if it isn't as expected; otherwise `None`.
pub(crate) fn mismatch(
    alloc: Global,
    found: &[u8],
    expected: &str,
) -> Result<Option<String>, RowErr> {
    if holds(alloc, found, expected)? {
        Ok(None)
    } else {
        Ok(Some(row_text(alloc, found)?))
    }
}
