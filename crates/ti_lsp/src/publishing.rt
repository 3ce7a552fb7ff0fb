// Diagnostics as JSON, and the notifications that publish them.
ghost use Rattle.std.specs.Prelude.{◌≡◌, None, IfOk, map, option_map};
ghost use Rattle.serde_json.specs.Data.{array, no_items};
ghost use Rattle.serde_json.specs.View.{view};
ghost use Rattle.ti_lsp.specs.Diagnostics.{bytes_range, diagnostic_of, diagnostics_of, hover_data};
ghost use Rattle.ti_lsp.specs.Diagnostics.{location_data, position_data, publication_of};
ghost use Rattle.ti_lsp.specs.Diagnostics.{publication_params, range_data, related_data, related_list};

use crate::position::position_at;
use crate::{Client, Diagnostic, Position, PositionEncoding, Related, TextRange};
use serde_json::{Value, json};
use std::alloc::{AllocError, Global};

/// The range of some bytes of a text. A range that exceeds the text is cut at its end, and one that ends before its start is empty.
pub fn bytes_range(encoding: PositionEncoding, text: &str, start: usize, end: usize) -> TextRange
    ensures { result ≡ bytes_range encoding text.now start end }
{
    let bytes = text.as_bytes();
    let start = start.min(bytes.len());
    let end = end.min(bytes.len()).max(start);
    TextRange {
        start: position_at(encoding, bytes, start),
        end: position_at(encoding, bytes, end),
    }
}

fn position_value(alloc: Global, at: Position) -> Result<Value, AllocError>
    ensures { IfOk result (λ v. view v ≡ position_data at) }
{
    json!(in alloc; {"line": (at.line), "character": (at.character)})
}

/// A range as JSON.
pub fn range_value(alloc: Global, range: TextRange) -> Result<Value, AllocError>
    ensures { IfOk result (λ v. view v ≡ range_data range) }
{
    let start = position_value(alloc, range.start)?;
    let end = position_value(alloc, range.end)?;
    json!(in alloc; {"start": start, "end": end})
}

/// Some bytes of a document as a location.
pub fn location_value(
    alloc: Global,
    encoding: PositionEncoding,
    uri: &str,
    text: &str,
    start: usize,
    end: usize,
) -> Result<Value, AllocError>
    ensures { IfOk result (λ v. view v ≡ location_data encoding uri.now text.now start end) }
{
    let range = range_value(alloc, bytes_range(encoding, text, start, end))?;
    json!(in alloc; {"uri": uri, "range": range})
}

/// A hover: what is said of a range, as Markdown.
pub fn hover_value(alloc: Global, said: &str, range: Value) -> Result<Value, AllocError>
    ensures { IfOk result (λ v. view v ≡ hover_data said.now (view range)) }
{
    json!(in alloc; {"contents": {"kind": "markdown", "value": said}, "range": range})
}

// A related place of a document, with what is said of it.
fn related_value(
    alloc: Global,
    encoding: PositionEncoding,
    uri: &str,
    text: &str,
    related: &Related,
) -> Result<Value, AllocError>
    ensures { IfOk result (λ v. view v ≡ related_data encoding uri.now text.now related.now) }
{
    let location = location_value(alloc, encoding, uri, text, related.start, related.end)?;
    json!(in alloc; {"location": location, "message": (related.message.as_str())})
}

fn related_values(
    alloc: Global,
    encoding: PositionEncoding,
    uri: &str,
    text: &str,
    places: &[Related],
) -> Result<Vec<Value>, AllocError>
    ensures { IfOk result (λ vs. map view vs.items
        ≡ map (related_data encoding uri.now text.now) places.now) }
{
    let mut values = Vec::new(alloc);
    for related in places {
        values.push(related_value(alloc, encoding, uri, text, related)?)?;
    }
    Ok(values)
}

fn related_list(
    alloc: Global,
    encoding: PositionEncoding,
    uri: &str,
    text: &str,
    places: &[Related],
) -> Result<Value, AllocError>
    ensures { IfOk result (λ v. view v ≡ related_list encoding uri.now text.now places.now) }
{
    Ok(Value::Array(related_values(alloc, encoding, uri, text, places)?))
}

/// A diagnostic of a document as JSON, with its related places if the client accepts them.
pub fn diagnostic_value(
    alloc: Global,
    client: Client,
    uri: &str,
    text: &str,
    diagnostic: &Diagnostic,
) -> Result<Value, AllocError>
    ensures { IfOk result (λ v. view v ≡ diagnostic_of client uri.now text.now diagnostic.now) }
{
    let range = bytes_range(client.encoding, text, diagnostic.start, diagnostic.end);
    let range = range_value(alloc, range)?;
    if !client.accepts_related {
        return json!(in alloc; {
            "range": range,
            "severity": 1u32,
            "code": (diagnostic.code),
            "source": "titan",
            "message": (diagnostic.message)
        });
    }
    let related = related_list(alloc, client.encoding, uri, text, &diagnostic.related)?;
    json!(in alloc; {
        "range": range,
        "severity": 1u32,
        "code": (diagnostic.code),
        "source": "titan",
        "message": (diagnostic.message),
        "relatedInformation": related
    })
}

// The diagnostics of a document as JSON.
fn diagnostics_value(
    alloc: Global,
    client: Client,
    uri: &str,
    text: &str,
    diagnostic: &Option<Diagnostic>,
) -> Result<Value, AllocError>
    ensures { IfOk result (λ v. view v ≡ diagnostics_of client uri.now text.now diagnostic.now) }
{
    match diagnostic {
        Some(diagnostic) => {
            let value = diagnostic_value(alloc, client, uri, text, diagnostic)?;
            json!(in alloc; [value])
        }
        None => Ok(Value::Array(Vec::new(alloc))),
    }
}

fn publication_params(
    alloc: Global,
    uri: &str,
    version: Option<i64>,
    diagnostics: Value,
) -> Result<Value, AllocError>
    ensures { IfOk result (λ v. view v
        ≡ publication_params uri.now version (view diagnostics)) }
{
    match version {
        Some(version) => {
            json!(in alloc; {"uri": uri, "version": version, "diagnostics": diagnostics})
        }
        None => json!(in alloc; {"uri": uri, "diagnostics": diagnostics}),
    }
}

fn publication(
    alloc: Global,
    uri: &str,
    version: Option<i64>,
    diagnostics: Value,
) -> Result<Value, AllocError>
    ensures { IfOk result (λ v. view v ≡ publication_of uri.now version (view diagnostics)) }
{
    let params = publication_params(alloc, uri, version, diagnostics)?;
    json!(in alloc; {
        "jsonrpc": "2.0",
        "method": "textDocument/publishDiagnostics",
        "params": params
    })
}

/// The notification of the diagnostics of a document.
pub fn publish_diagnostics(
    alloc: Global,
    client: Client,
    uri: &str,
    version: Option<i64>,
    text: &str,
    diagnostic: &Option<Diagnostic>,
) -> Result<Value, AllocError>
    ensures { IfOk result (λ v. view v ≡ publication_of uri.now version
        (diagnostics_of client uri.now text.now diagnostic.now)) }
{
    let diagnostics = diagnostics_value(alloc, client, uri, text, diagnostic)?;
    publication(alloc, uri, version, diagnostics)
}

/// The notification that a document has no diagnostics any more.
pub fn clear_diagnostics(alloc: Global, uri: &str) -> Result<Value, AllocError>
    ensures { IfOk result (λ v. view v ≡ publication_of uri.now None (array no_items)) }
{
    publication(alloc, uri, None, Value::Array(Vec::new(alloc)))
}
