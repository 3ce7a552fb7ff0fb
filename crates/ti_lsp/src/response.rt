// Responses to requests.
ghost use Rattle.std.specs.Prelude.{◌≡◌, IfOk};
ghost use Rattle.serde_json.specs.Data.{null};
ghost use Rattle.serde_json.specs.View.{view};
ghost use Rattle.ti_lsp.specs.Responses.{capabilities_of, error_code, error_of, message_text, success_of};

use crate::PositionEncoding;
use serde_json::{Value, json};
use std::alloc::{AllocError, Global};

/// Why a request fails, by the protocol's error codes.
#[derive(Clone, Copy, Debug, PartialEq, Eq)]
pub enum ErrorCode {
    ParseError,
    InvalidRequest,
    MethodNotFound,
    InvalidParams,
    ServerNotInitialized,
}

impl ErrorCode {
    /// Its number in the protocol.
    pub fn code(self) -> i64
        ensures { result ≡ error_code self }
    {
        match self {
            ErrorCode::ParseError => -32700,
            ErrorCode::InvalidRequest => -32600,
            ErrorCode::MethodNotFound => -32601,
            ErrorCode::InvalidParams => -32602,
            ErrorCode::ServerNotInitialized => -32002,
        }
    }

    /// Its message.
    pub fn message(self) -> &'static str
        ensures { result.now ≡ message_text self }
    {
        match self {
            ErrorCode::ParseError => "the content is not JSON",
            ErrorCode::InvalidRequest => "the request is invalid in this state",
            ErrorCode::MethodNotFound => "the method is not supported",
            ErrorCode::InvalidParams => "the parameters are invalid",
            ErrorCode::ServerNotInitialized => "the server is not initialized",
        }
    }
}

/// The response that a request has this result.
pub fn success_response(alloc: Global, id: &Value, outcome: Value) -> Result<Value, AllocError>
    ensures { IfOk result (λ v. view v ≡ success_of (view id.now) (view outcome)) }
{
    json!(in alloc; {"jsonrpc": "2.0", "id": id, "result": outcome})
}

/// The response that a request failed.
pub fn error_response(alloc: Global, id: &Value, error: ErrorCode) -> Result<Value, AllocError>
    ensures { IfOk result (λ v. view v ≡ error_of (view id.now) error) }
{
    json!(in alloc; {
        "jsonrpc": "2.0",
        "id": id,
        "error": {"code": (error.code()), "message": (error.message())}
    })
}

/// The response to a content that is not JSON. Its id is null, since none is known.
pub fn parse_error(alloc: Global) -> Result<Value, AllocError>
    ensures { IfOk result (λ v. view v ≡ error_of null ErrorCode.ParseError) }
{
    error_response(alloc, &Value::Null, ErrorCode::ParseError)
}

/// What the server can do, as `initialize` returns it.
pub fn capabilities(alloc: Global, encoding: PositionEncoding) -> Result<Value, AllocError>
    ensures { IfOk result (λ v. view v ≡ capabilities_of encoding) }
{
    json!(in alloc; {
        "capabilities": {
            "positionEncoding": (encoding.name()),
            "textDocumentSync": {"openClose": true, "change": 2u32},
            "hoverProvider": true,
            "definitionProvider": true,
            "documentSymbolProvider": true,
            "codeActionProvider": {"codeActionKinds": ["quickfix", "source.fixAll"]}
        },
        "serverInfo": {"name": "titan_lsp"}
    })
}
