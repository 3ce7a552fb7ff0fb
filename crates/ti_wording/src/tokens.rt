// Lines and tokens of a source, as they are shown. A control character, as a tab, is shown as one space, and bytes that aren't UTF-8 as a
// replacement character.
ghost use Rattle.std.specs.Prelude.{◌≡◌, take};
ghost use Rattle.ti_wording.specs.ShownTokens.{IsShownAt};

use std::alloc::{AllocError, Global};
use ti_base::Place;
use ti_lex::offset_of;

/// The bytes of a line, counted from 1, without its line feed; none behind the last line.
pub fn line_of(text: &[u8], number: u32) -> &[u8] {
    let index = number.saturating_sub(1) as usize;
    text.split(|byte| *byte == b'\n').nth(index).unwrap_or(&[])
}

/// Whether the line has this word.
pub(crate) fn has_word(line: &[u8], word: &str) -> bool {
    for part in line.split(|byte| !byte.is_ascii_alphabetic()) {
        if part == word.as_bytes() {
            return true;
        }
    }
    false
}

/// These bytes as text in one line.
pub fn display_text(alloc: Global, bytes: &[u8]) -> Result<String, AllocError> {
    let mut text = String::new(alloc);
    for chunk in bytes.utf8_chunks() {
        for c in chunk.valid().chars() {
            text.push(if c.is_control() { ' ' } else { c })?;
        }
        if !chunk.invalid().is_empty() {
            text.push('\u{FFFD}')?;
        }
    }
    Ok(text)
}

fn first_bytes(bytes: &[u8], len: usize) -> &[u8]
    ensures { result.now ≡ take len bytes.now }
{
    if len < bytes.len() {
        &bytes[..len]
    } else {
        bytes
    }
}

/// The bytes of a source from a position on, `len` at most; none if the position isn't one of the source.
#[tactic(auto, using(crate::proofs::TokenBytes::shown_here, crate::proofs::TokenBytes::shown_nowhere))]
pub fn token_at(text: &[u8], place: Place, len: usize) -> &[u8]
    ensures { IsShownAt text.now place len result.now }
{
    match offset_of(text, place) {
        Some(start) => first_bytes(&text[start..], len),
        None => &[],
    }
}
