// Edits of texts: those that a server suggests, and the changes that a client reports.
ghost use Rattle.std.specs.Prelude.{◌≡◌, IfOk, length, map, option_map};
ghost use Rattle.ti_lsp.specs.Edits.{all_changed, changed_by, edited, is_next};
ghost use Rattle.ti_lsp.specs.Views.{change_view};

use crate::position::offset_at;
use crate::{PositionEncoding, TextRange};
use std::alloc::{AllocError, Global};

/// An edit that a server suggests: the bytes of a range are replaced.
#[derive(Drop)]
pub struct TextEdit {
    /// The offset of the first byte of the range.
    pub start: usize,
    /// The offset of the first byte after the range.
    pub end: usize,
    /// What stands there afterwards.
    pub new_text: String,
}

/// A change that a client reports: of a range, or of the whole text.
#[derive(Drop)]
pub struct Change {
    pub range: Option<TextRange>,
    pub text: String,
}

impl TextEdit {
    // Whether its range is one of a text of this length, and not before this offset.
    fn is_next(&self, from: usize, len: usize) -> bool
        ensures { result ≡ is_next from self.now len }
    {
        from <= self.start && self.start <= self.end && self.end <= len
    }
}

/// A text with all of these edits, which all refer to the text as it is. None if their ranges aren't in the text, ordered and disjoint.
#[tactic(auto, using(crate::proofs::Edited::none_yet, crate::proofs::Edited::not_next, crate::proofs::Edited::all))]
pub fn apply_edits(
    alloc: Global,
    text: &[u8],
    edits: &[TextEdit],
) -> Result<Option<Vec<u8>>, AllocError>
    ensures { IfOk result (λ o. option_map (λ v. v.items) o ≡ edited 0 edits.now text.now) }
{
    let mut new = Vec::new(alloc);
    let mut from = 0;
    for edit in edits {
        if !edit.is_next(from, text.len()) {
            return Ok(None);
        }
        new.extend_from_slice(&text[from..edit.start])?;
        new.extend_from_slice(edit.new_text.as_str().as_bytes())?;
        from = edit.end;
    }
    new.extend_from_slice(&text[from..])?;
    Ok(Some(new))
}

// A text with one change.
fn apply_change(
    alloc: Global,
    encoding: PositionEncoding,
    text: &[u8],
    change: &Change,
) -> Result<Vec<u8>, AllocError>
    ensures { IfOk result (λ v. v.items ≡ changed_by encoding text.now (change_view change.now)) }
{
    let Some(range) = change.range else {
        return change.text.as_str().as_bytes().to_vec(alloc);
    };
    let start = offset_at(encoding, text, range.start);
    let end = offset_at(encoding, text, range.end).max(start);
    let mut new = text[..start].to_vec(alloc)?;
    new.extend_from_slice(change.text.as_str().as_bytes())?;
    new.extend_from_slice(&text[end..])?;
    Ok(new)
}

/// A text with all of these changes, each of which refers to the text that the ones before it made.
pub fn apply_changes(
    alloc: Global,
    encoding: PositionEncoding,
    text: &[u8],
    changes: &[Change],
) -> Result<Vec<u8>, AllocError>
    ensures { IfOk result (λ v. v.items
        ≡ all_changed encoding text.now (map change_view changes.now)) }
{
    let mut new = text.to_vec(alloc)?;
    for change in changes {
        new = apply_change(alloc, encoding, &new, change)?;
    }
    Ok(new)
}
