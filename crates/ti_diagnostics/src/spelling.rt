// Suggestions to spell a name that means nothing as one that is declared. No contract says that they fix an error, since whoever offers them
// checks it first.

use std::alloc::Global;
use ti_base::Memory;
use ti_explain::{Explanation, NameReason, ReasonKind};
use ti_lsp::{Suggestion, TextEdit};
use ti_syntax::Spelled;

// The declared name that a reason names, if its spelling is near.
fn near_name(kind: &ReasonKind) -> Option<&Spelled> {
    match kind {
        ReasonKind::Name(NameReason::NearSpelling(name)) => Some(name),
        _ => None,
    }
}

// The suggestion to replace a range by a name, if the name is text.
fn spelling_suggestion(
    alloc: Global,
    start: usize,
    end: usize,
    name: &Spelled,
) -> Result<Option<Suggestion>, Memory> {
    let Ok(new_text) = String::from_utf8(name.as_bytes().to_vec(alloc)?) else {
        return Ok(None);
    };
    let mut title = String::from_str(alloc, "Change to `")?;
    title.push_str(new_text.as_str())?;
    title.push('`')?;
    let mut edits = Vec::new(alloc);
    edits.push(TextEdit {
        start,
        end,
        new_text,
    })?;
    Ok(Some(Suggestion {
        title,
        is_automatic: false,
        edits,
    }))
}

/// The suggestions to replace the name at a range of bytes by each name that the explanation of its error gives as one of nearly the same
/// spelling.
pub fn spelling_suggestions(
    alloc: Global,
    start: usize,
    end: usize,
    explanation: &Explanation,
) -> Result<Vec<Suggestion>, Memory> {
    let mut suggestions = Vec::new(alloc);
    for reason in &explanation.reasons {
        if let Some(name) = near_name(&reason.kind) {
            if let Some(suggestion) = spelling_suggestion(alloc, start, end, name)? {
                suggestions.push(suggestion)?;
            }
        }
    }
    Ok(suggestions)
}
