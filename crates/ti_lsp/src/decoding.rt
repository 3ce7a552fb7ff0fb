// Decodes JSON values as messages. Each function mirrors one of `specs/Messages`, so that the contract of the whole is a definition that can
// be read by itself.
ghost use Rattle.std.specs.Prelude.{◌≡◌, codes, IfOk, map, option_map, string_bytes};
ghost use Rattle.serde_json.specs.View.{items_view, view};
ghost use Rattle.ti_lsp.specs.Messages as decoded;
ghost use Rattle.ti_lsp.specs.Views.{change_view, message_view, notification_view, request_view};

use crate::edit::Change;
use crate::message::{ActionFilter, Message, Notification, Request};
use crate::{Client, Position, PositionEncoding, TextRange};
use serde_json::Value;
use std::alloc::{AllocError, Global};

// The string at a path.
fn string_at<'v>(value: &'v Value, path: &str) -> Option<&'v str>
    ensures { option_map (λ t. t.now) result ≡ decoded.string_at path.now (view value.now) }
{
    match value.pointer(path) {
        Some(found) => found.as_str(),
        None => None,
    }
}

// The number of a member.
fn unsigned_member(value: &Value, key: &str) -> Option<u64>
    ensures { result ≡ decoded.unsigned_member key.now (view value.now) }
{
    match value.get(key) {
        Some(found) => found.as_u64(),
        None => None,
    }
}

// A value as a position.
fn position_in(value: &Value) -> Option<Position>
    ensures { result ≡ decoded.position_in (view value.now) }
{
    match (
        unsigned_member(value, "line"),
        unsigned_member(value, "character"),
    ) {
        (Some(line), Some(character)) => Some(Position { line, character }),
        _ => None,
    }
}

// The position at a path.
fn position_at(value: &Value, path: &str) -> Option<Position>
    ensures { result ≡ decoded.position_at path.now (view value.now) }
{
    match value.pointer(path) {
        Some(at) => position_in(at),
        None => None,
    }
}

// A value as a range.
fn text_range_of(value: &Value) -> Option<TextRange>
    ensures { result ≡ decoded.text_range_of (view value.now) }
{
    match (position_at(value, "/start"), position_at(value, "/end")) {
        (Some(start), Some(end)) => Some(TextRange { start, end }),
        _ => None,
    }
}

// The range at a path.
fn text_range_at(value: &Value, path: &str) -> Option<TextRange>
    ensures { result ≡ decoded.text_range_at path.now (view value.now) }
{
    match value.pointer(path) {
        Some(range) => text_range_of(range),
        None => None,
    }
}

fn is_string(item: &Value, wanted: &str) -> bool
    ensures { result ≡ decoded.is_string wanted.now (view item.now) }
{
    match item.as_str() {
        Some(text) => text == wanted,
        None => false,
    }
}

fn any_is_string(items: &[Value], wanted: &str) -> bool
    ensures { result ≡ decoded.any_is_string wanted.now (items_view items.now) }
{
    for item in items {
        if is_string(item, wanted) {
            return true;
        }
    }
    false
}

// Whether the array at a path contains a string.
fn has_string(value: &Value, path: &str, wanted: &str) -> bool
    ensures { result ≡ decoded.has_string path.now wanted.now (view value.now) }
{
    let Some(list) = value.pointer(path) else {
        return false;
    };
    match list.as_array() {
        Some(items) => any_is_string(items, wanted),
        None => false,
    }
}

// The position encoding of a session: of those that the client supports, the one that is cheapest here.
fn encoding_of(params: &Value) -> PositionEncoding
    ensures { result ≡ decoded.encoding_of (view params.now) }
{
    let path = "/capabilities/general/positionEncodings";
    if has_string(params, path, "utf-8") {
        PositionEncoding::Utf8
    } else if has_string(params, path, "utf-32") {
        PositionEncoding::Utf32
    } else {
        PositionEncoding::Utf16
    }
}

// Whether the value at a path is the boolean true.
fn is_true(value: &Value, path: &str) -> bool
    ensures { result ≡ decoded.is_true path.now (view value.now) }
{
    let Some(found) = value.pointer(path) else {
        return false;
    };
    match found.as_bool() {
        Some(is_true) => is_true,
        None => false,
    }
}

// What a client supports.
fn client_of(params: &Value) -> Client
    ensures { result ≡ decoded.client_of (view params.now) }
{
    let related = "/capabilities/textDocument/publishDiagnostics/relatedInformation";
    Client {
        encoding: encoding_of(params),
        accepts_related: is_true(params, related),
    }
}

// A copy of a string.
fn owned(alloc: Global, text: Option<&str>) -> Result<Option<String>, AllocError>
    ensures { IfOk result (λ o. option_map string_bytes o ≡ option_map (λ t. t.now) text.entry) }
{
    match text {
        Some(text) => Ok(Some(String::from_str(alloc, text)?)),
        None => Ok(None),
    }
}

// The URI of the document that is meant.
fn uri_of(alloc: Global, params: &Value) -> Result<Option<String>, AllocError>
    ensures { IfOk result (λ o. option_map string_bytes o ≡ decoded.uri_of (view params.now)) }
{
    owned(alloc, string_at(params, "/textDocument/uri"))
}

fn hover_request(uri: Option<String>, at: Option<Position>) -> Request
    ensures { request_view result ≡ decoded.hover_from (option_map string_bytes uri) at }
{
    match (uri, at) {
        (Some(uri), Some(at)) => Request::Hover(uri, at),
        _ => Request::InvalidParams,
    }
}

fn definition_request(uri: Option<String>, at: Option<Position>) -> Request
    ensures { request_view result ≡ decoded.definition_from (option_map string_bytes uri) at }
{
    match (uri, at) {
        (Some(uri), Some(at)) => Request::Definition(uri, at),
        _ => Request::InvalidParams,
    }
}

// Whether a client wants quick fixes. One that names no kind does.
fn wants_quick_fix(params: &Value) -> bool
    ensures { result ≡ decoded.wants_quick_fix (view params.now) }
{
    let only = "/context/only";
    has_string(params, only, "quickfix")
        || has_string(params, only, "")
        || params.pointer(only).is_none()
}

// Whether a client wants fixes of the whole document, by their kind or by one that it is part of.
fn wants_fix_all(params: &Value) -> bool
    ensures { result ≡ decoded.wants_fix_all (view params.now) }
{
    let only = "/context/only";
    has_string(params, only, "source.fixAll")
        || has_string(params, only, "source")
        || has_string(params, only, "")
}

// Which code actions a client wants. None if it gives no range.
fn action_filter(params: &Value) -> Option<ActionFilter>
    ensures { result ≡ decoded.action_filter (view params.now) }
{
    match text_range_at(params, "/range") {
        Some(range) => Some(ActionFilter {
            range,
            quick_fix: wants_quick_fix(params),
            fix_all: wants_fix_all(params),
        }),
        None => None,
    }
}

fn action_request(uri: Option<String>, filter: Option<ActionFilter>) -> Request
    ensures { request_view result ≡ decoded.action_from (option_map string_bytes uri) filter }
{
    match (uri, filter) {
        (Some(uri), Some(filter)) => Request::CodeAction(uri, filter),
        _ => Request::InvalidParams,
    }
}

fn symbol_request(uri: Option<String>) -> Request
    ensures { request_view result ≡ decoded.symbol_from (option_map string_bytes uri) }
{
    match uri {
        Some(uri) => Request::DocumentSymbol(uri),
        None => Request::InvalidParams,
    }
}

// The request with this method.
fn decode_request(alloc: Global, method: &str, params: &Value) -> Result<Request, AllocError>
    ensures { IfOk result (λ r. request_view r
        ≡ decoded.request_of method.now (view params.now)) }
{
    match method {
        "initialize" => Ok(Request::Initialize(client_of(params))),
        "shutdown" => Ok(Request::Shutdown),
        "textDocument/hover" => {
            let uri = uri_of(alloc, params)?;
            Ok(hover_request(uri, position_at(params, "/position")))
        }
        "textDocument/definition" => {
            let uri = uri_of(alloc, params)?;
            Ok(definition_request(uri, position_at(params, "/position")))
        }
        "textDocument/codeAction" => {
            let uri = uri_of(alloc, params)?;
            Ok(action_request(uri, action_filter(params)))
        }
        "textDocument/documentSymbol" => Ok(symbol_request(uri_of(alloc, params)?)),
        _ => Ok(Request::UnknownMethod),
    }
}

// The version of the document that is meant.
fn version_of(params: &Value) -> Option<i64>
    ensures { result ≡ decoded.version_of (view params.now) }
{
    match params.pointer("/textDocument/version") {
        Some(version) => version.as_i64(),
        None => None,
    }
}

fn opened(uri: Option<String>, version: Option<i64>, text: Option<String>) -> Notification
    ensures { notification_view result
        ≡ decoded.opened_from (option_map string_bytes uri) version (option_map string_bytes text) }
{
    match (uri, text) {
        (Some(uri), Some(text)) => Notification::Opened(uri, version, text),
        _ => Notification::Other,
    }
}

// The range of a change, none for the whole text; or none at all if the member is no range.
fn change_range(change: &Value) -> Option<Option<TextRange>>
    ensures { result ≡ decoded.change_range (view change.now) }
{
    let Some(range) = change.get("range") else {
        return Some(None);
    };
    match text_range_of(range) {
        Some(range) => Some(Some(range)),
        None => None,
    }
}

// A value as a change.
fn decode_change(alloc: Global, change: &Value) -> Result<Option<Change>, AllocError>
    ensures { IfOk result (λ o. option_map change_view o ≡ decoded.change_of (view change.now)) }
{
    let Some(range) = change_range(change) else {
        return Ok(None);
    };
    match string_at(change, "/text") {
        Some(text) => {
            let text = String::from_str(alloc, text)?;
            Ok(Some(Change { range, text }))
        }
        None => Ok(None),
    }
}

// Values as changes, if each is one.
#[tactic(auto, using(crate::proofs::Items::one_change, crate::proofs::Items::no_change, crate::proofs::Items::all_changes, crate::proofs::Items::first_change))]
fn decode_changes(alloc: Global, items: &[Value]) -> Result<Option<Vec<Change>>, AllocError>
    ensures { IfOk result (λ o. option_map (λ v. map change_view v.items) o
        ≡ decoded.changes_of (items_view items.now)) }
{
    let mut changes = Vec::new(alloc);
    for item in items {
        let Some(change) = decode_change(alloc, item)? else {
            return Ok(None);
        };
        changes.push(change)?;
    }
    Ok(Some(changes))
}

// The changes that a notification reports.
fn content_changes(alloc: Global, params: &Value) -> Result<Option<Vec<Change>>, AllocError>
    ensures { IfOk result (λ o. option_map (λ v. map change_view v.items) o
        ≡ decoded.content_changes (view params.now)) }
{
    let Some(list) = params.get("contentChanges") else {
        return Ok(None);
    };
    match list.as_array() {
        Some(items) => decode_changes(alloc, items),
        None => Ok(None),
    }
}

fn changed(uri: Option<String>, version: Option<i64>, changes: Option<Vec<Change>>) -> Notification
    ensures { notification_view result ≡ decoded.changed_from (option_map string_bytes uri) version
        (option_map (λ v. map change_view v.items) changes) }
{
    match (uri, changes) {
        (Some(uri), Some(changes)) => Notification::Changed(uri, version, changes),
        _ => Notification::Other,
    }
}

fn closed(uri: Option<String>) -> Notification
    ensures { notification_view result ≡ decoded.closed_from (option_map string_bytes uri) }
{
    match uri {
        Some(uri) => Notification::Closed(uri),
        None => Notification::Other,
    }
}

// The notification with this method.
fn decode_notification(
    alloc: Global,
    method: &str,
    params: &Value,
) -> Result<Notification, AllocError>
    ensures { IfOk result (λ n. notification_view n
        ≡ decoded.notification_of method.now (view params.now)) }
{
    match method {
        "exit" => Ok(Notification::Exit),
        "textDocument/didOpen" => {
            let uri = uri_of(alloc, params)?;
            let text = owned(alloc, string_at(params, "/textDocument/text"))?;
            Ok(opened(uri, version_of(params), text))
        }
        "textDocument/didChange" => {
            let uri = uri_of(alloc, params)?;
            let changes = content_changes(alloc, params)?;
            Ok(changed(uri, version_of(params), changes))
        }
        "textDocument/didClose" => Ok(closed(uri_of(alloc, params)?)),
        _ => Ok(Notification::Other),
    }
}

// Whether a value can be the id of a request: a string or an integer.
fn is_id(id: &Value) -> bool
    ensures { result ≡ decoded.is_id (view id.now) }
{
    id.is_string() || id.is_i64() || id.is_u64()
}

// The message with this method.
fn decode_named(
    alloc: Global,
    id: Option<&Value>,
    method: &str,
    params: &Value,
) -> Result<Message, AllocError>
    ensures { IfOk result (λ m. message_view m
        ≡ decoded.request_or_notification (option_map (λ v. view v.now) id.entry) method.now (view params.now)) }
{
    let Some(id) = id else {
        return Ok(Message::Notification(decode_notification(alloc, method, params)?));
    };
    if !is_id(id) {
        return Ok(Message::Invalid);
    }
    let request = decode_request(alloc, method, params)?;
    Ok(Message::Request(id.clone()?, request))
}

// Whether a value without a method is a response.
fn is_response(message: &Value) -> bool
    ensures { result ≡ decoded.is_response (view message.now) }
{
    message.get("result").is_some() || message.get("error").is_some()
}

/// A JSON value as a message.
pub fn decode_message(alloc: Global, message: &Value) -> Result<Message, AllocError>
    ensures { IfOk result (λ m. message_view m ≡ decoded.message_of (view message.now)) }
{
    let none = Value::Null;
    let Some(method) = message.get("method") else {
        return Ok(if is_response(message) {
            Message::Response
        } else {
            Message::Invalid
        });
    };
    let Some(method) = method.as_str() else {
        return Ok(Message::Invalid);
    };
    let params = match message.get("params") {
        Some(params) => params,
        None => &none,
    };
    decode_named(alloc, message.get("id"), method, params)
}
