// Code actions: the edits of suggestions, as a client asks for them.
ghost use Rattle.std.specs.Prelude.{◌≡◌, IfOk, map};
ghost use Rattle.serde_json.specs.View.{view};
ghost use Rattle.ti_lsp.specs.Actions.{action_data, action_kind_name, any_intersects, edit_data, edits_data};
ghost use Rattle.ti_lsp.specs.Actions.{concerns_range, kind_for};

use crate::message::{ActionFilter, ActionKind};
use crate::publishing::{bytes_range, diagnostic_value, range_value};
use crate::{Client, Diagnostic, PositionEncoding, Suggestion, TextEdit, TextRange};
use serde_json::{Value, json};
use std::alloc::{AllocError, Global};

impl ActionKind {
    // Its name in the protocol.
    fn name(self) -> &'static str
        ensures { result.now ≡ action_kind_name self }
    {
        match self {
            ActionKind::QuickFix => "quickfix",
            ActionKind::FixAll => "source.fixAll",
        }
    }
}

// Whether one of these edits intersects a range.
fn any_intersects(
    encoding: PositionEncoding,
    text: &str,
    edits: &[TextEdit],
    range: TextRange,
) -> bool
    ensures { result ≡ any_intersects encoding text.now edits.now range }
{
    for edit in edits {
        if bytes_range(encoding, text, edit.start, edit.end).intersects(range) {
            return true;
        }
    }
    false
}

// Whether the error of a text or one of the edits for it intersects a range.
fn concerns_range(
    encoding: PositionEncoding,
    text: &str,
    diagnostic: &Diagnostic,
    edits: &[TextEdit],
    range: TextRange,
) -> bool
    ensures { result ≡ concerns_range encoding text.now diagnostic.now edits.now range }
{
    let error = bytes_range(encoding, text, diagnostic.start, diagnostic.end);
    error.intersects(range) || any_intersects(encoding, text, edits, range)
}

/// The kind of action as which a suggestion is wanted by this client, if it is.
pub fn kind_for(
    encoding: PositionEncoding,
    text: &str,
    diagnostic: &Diagnostic,
    suggestion: &Suggestion,
    filter: ActionFilter,
) -> Option<ActionKind>
    ensures { result ≡ kind_for encoding text.now diagnostic.now suggestion.now filter }
{
    let is_concerned = concerns_range(encoding, text, diagnostic, &suggestion.edits, filter.range);
    if filter.quick_fix && is_concerned {
        Some(ActionKind::QuickFix)
    } else if filter.fix_all && suggestion.is_automatic {
        Some(ActionKind::FixAll)
    } else {
        None
    }
}

fn edit_value(
    alloc: Global,
    encoding: PositionEncoding,
    text: &str,
    edit: &TextEdit,
) -> Result<Value, AllocError>
    ensures { IfOk result (λ v. view v ≡ edit_data encoding text.now edit.now) }
{
    let range = range_value(alloc, bytes_range(encoding, text, edit.start, edit.end))?;
    json!(in alloc; {"range": range, "newText": (edit.new_text.as_str())})
}

fn edit_values(
    alloc: Global,
    encoding: PositionEncoding,
    text: &str,
    edits: &[TextEdit],
) -> Result<Vec<Value>, AllocError>
    ensures { IfOk result (λ vs. map view vs.items
        ≡ map (edit_data encoding text.now) edits.now) }
{
    let mut values = Vec::new(alloc);
    for edit in edits {
        values.push(edit_value(alloc, encoding, text, edit)?)?;
    }
    Ok(values)
}

fn edits_value(
    alloc: Global,
    encoding: PositionEncoding,
    text: &str,
    edits: &[TextEdit],
) -> Result<Value, AllocError>
    ensures { IfOk result (λ v. view v ≡ edits_data encoding text.now edits.now) }
{
    Ok(Value::Array(edit_values(alloc, encoding, text, edits)?))
}

/// The code action of this kind for a document with an error: it applies the edits of a suggestion.
pub fn action_value(
    alloc: Global,
    client: Client,
    uri: &str,
    text: &str,
    diagnostic: &Diagnostic,
    suggestion: &Suggestion,
    kind: ActionKind,
) -> Result<Value, AllocError>
    ensures { IfOk result (λ v. view v
        ≡ action_data client uri.now text.now diagnostic.now suggestion.now kind) }
{
    let diagnostic = diagnostic_value(alloc, client, uri, text, diagnostic)?;
    let edits = edits_value(alloc, client.encoding, text, &suggestion.edits)?;
    json!(in alloc; {
        "title": (suggestion.title.as_str()),
        "kind": (kind.name()),
        "isPreferred": (suggestion.is_automatic),
        "diagnostics": [diagnostic],
        "edit": {"changes": {(uri): edits}}
    })
}
