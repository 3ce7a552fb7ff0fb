// Messages of a client, as far as a server needs them.

use crate::edit::Change;
use crate::{Client, Position, TextRange};
use serde_json::Value;

/// The kinds of code actions that there are.
#[derive(Clone, Copy, Debug, PartialEq, Eq)]
pub enum ActionKind {
    /// `quickfix`: a fix for a diagnostic, as the user chooses it.
    QuickFix,
    /// `source.fixAll`: all fixes that need no choice, as an editor applies them on saving.
    FixAll,
}

/// Which code actions a client asks for.
#[derive(Clone, Copy, Debug, PartialEq, Eq)]
pub struct ActionFilter {
    /// The range of the document for which quick fixes are wanted.
    pub range: TextRange,
    /// Whether quick fixes are wanted.
    pub quick_fix: bool,
    /// Whether fixes of the whole document are wanted that need no choice.
    pub fix_all: bool,
}

/// What a request asks for.
#[derive(Drop)]
pub enum Request {
    /// `initialize`, with what the client supports.
    Initialize(Client),
    /// `shutdown`.
    Shutdown,
    /// `textDocument/hover`: the document's URI and the position.
    Hover(String, Position),
    /// `textDocument/definition`: the document's URI and the position.
    Definition(String, Position),
    /// `textDocument/codeAction`: the document's URI and which actions are wanted.
    CodeAction(String, ActionFilter),
    /// `textDocument/documentSymbol`: the document's URI.
    DocumentSymbol(String),
    /// One of these with invalid parameters.
    InvalidParams,
    /// A method that isn't supported.
    UnknownMethod,
}

/// What a notification says.
#[derive(Drop)]
pub enum Notification {
    /// `exit`.
    Exit,
    /// `textDocument/didOpen`: the document's URI, version and text.
    Opened(String, Option<i64>, String),
    /// `textDocument/didChange`: the document's URI, its new version, and the changes in order.
    Changed(String, Option<i64>, Vec<Change>),
    /// `textDocument/didClose`: the document's URI.
    Closed(String),
    /// Any other notification, or one of these with invalid parameters. The protocol allows no response, so it is ignored.
    Other,
}

/// A message of a client.
#[derive(Drop)]
pub enum Message {
    /// A request with its id.
    Request(Value, Request),
    Notification(Notification),
    /// A response. This server sends no requests, so it is ignored.
    Response,
    /// A JSON value that is no message.
    Invalid,
}
