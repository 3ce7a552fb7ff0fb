//! The Language Server Protocol as a state machine over JSON values, for any language with an `Analyzer`: documents are opened, changed and
//! closed, diagnostics are published, and hover and code actions tell about them. It needs no other crate of the repository, so that the
//! protocol is proved by itself.
#![tactic(auto)]

mod analyzer;
mod client;
mod code_action;
mod decoding;
mod diagnostic;
mod document;
mod edit;
mod hover;
mod message;
mod name;
mod position;
mod publishing;
mod response;
mod session;
mod suggestion;
mod symbol;

pub use analyzer::Analyzer;
pub use client::Client;
pub use diagnostic::{Diagnostic, Related};
pub use edit::{Change, TextEdit, apply_changes, apply_edits};
pub use name::KnownName;
pub use position::{
    Position, PositionEncoding, TextRange, columns_are_units, offset_at, position_at,
};
pub use response::parse_error;
pub use session::{Phase, Session};
pub use suggestion::Suggestion;
pub use symbol::{Symbol, SymbolKind};
