// A session of a server with a client: its lifecycle, the open documents, and one step for each message. A message has at most one message
// in return, a response or a publication; the type says so.
ghost use Rattle.std.specs.Prelude.{◌≡◌, ℕ, ℤ, Bool, List, None, Some, Ok, IfOk, IfSome, IsUtf8, map};
ghost use Rattle.std.specs.Prelude.{option_map, string_bytes};
ghost use Rattle.std.specs.BTreeMap.{get_by_text};
ghost use Rattle.serde_json.specs.View.{view};
ghost use Rattle.ti_lsp.specs.Analysis.{IsAnalysis, IsFix, IsWholeFix, is_enough};
ghost use Rattle.ti_lsp.specs.Edits.{edited};
ghost use Rattle.ti_lsp.specs.Handling.{Changes, Clears, Handles, Hovers, Initializes, Lists, Locates};
ghost use Rattle.ti_lsp.specs.Handling.{Offers, OffersEach, OffersOne, Publishes};
ghost use Rattle.ti_lsp.specs.Handling.{Receives, Responds, RespondsInPhase, ShowsKnown, Updates};
ghost use Rattle.ti_lsp.specs.Handling.{changed_text, after_exit, is_stale};
ghost use Rattle.ti_lsp.specs.Messages.{message_of};
ghost use Rattle.ti_lsp.specs.Names.{declaration_data, name_hover};
ghost use Rattle.ti_lsp.specs.Views.{change_view, notification_view, request_view};

use crate::code_action::{action_value, kind_for};
use crate::decoding::decode_message;
use crate::document::Document;
use crate::edit::{Change, apply_changes, apply_edits};
use crate::hover::diagnostic_hover;
use crate::message::{ActionFilter, Message, Notification, Request};
use crate::name::{declaration_value, name_hover};
use crate::position::offset_at;
use crate::publishing::{bytes_range, clear_diagnostics, publish_diagnostics};
use crate::response::{ErrorCode, capabilities, error_response, success_response};
use crate::symbol::symbols_value;
use crate::{Analyzer, Client, Diagnostic, Position, PositionEncoding, Suggestion};
use serde_json::Value;
use std::alloc::{AllocError, Global};
use std::collections::BTreeMap;

/// The phases of a session, by the protocol's lifecycle messages.
#[derive(Clone, Copy, Debug, PartialEq, Eq)]
pub enum Phase {
    /// Before `initialize`.
    Uninitialized,
    /// Between `initialize` and `shutdown`.
    Running,
    /// After `shutdown`.
    ShutDown,
    /// After `exit`, with a `shutdown` before it.
    Exited,
    /// After `exit` without a `shutdown`.
    Aborted,
}

impl Phase {
    // The phase after `exit`.
    fn after_exit(self) -> Phase
        ensures { result ≡ after_exit self }
    {
        match self {
            Phase::ShutDown | Phase::Exited => Phase::Exited,
            Phase::Uninitialized | Phase::Running | Phase::Aborted => Phase::Aborted,
        }
    }
}

// Whether a change to the version `new` comes too late for a document with the version `old`. If one isn't known, it doesn't.
fn is_stale(old: Option<i64>, new: Option<i64>) -> bool
    ensures { result ≡ is_stale old new }
{
    match (old, new) {
        (Some(old), Some(new)) => new <= old,
        _ => false,
    }
}

// Whether it is enough for a fix of this error that this is found afterwards.
fn is_enough(is_automatic: bool, diagnostic: &Diagnostic, later: &Option<Diagnostic>) -> bool
    ensures { result ≡ is_enough is_automatic diagnostic.now later.now }
{
    match later {
        Some(later) => !is_automatic && later.start != diagnostic.start,
        None => true,
    }
}

// The text with the edits of a suggestion, if they can be made.
#[tactic(auto, using(crate::proofs::Fixes::no_edit, crate::proofs::Fixes::not_utf8))]
fn edited_text(
    alloc: Global,
    text: &str,
    suggestion: &Suggestion,
) -> Result<Option<String>, AllocError>
    ensures some { IfOk result (λ o. IfSome o (λ t.
        edited 0 suggestion.now.edits.items text.now ≡ Some (string_bytes t))) }
    ensures none { result ≡ Ok None → (fixed : List ℕ)
        → edited 0 suggestion.now.edits.items text.now ≡ Some fixed → IsUtf8 fixed → ⊥ }
{
    let Some(fixed) = apply_edits(alloc, text.as_bytes(), &suggestion.edits)? else {
        return Ok(None);
    };
    match String::from_utf8(fixed) {
        Ok(fixed) => Ok(Some(fixed)),
        Err(_) => Ok(None),
    }
}

/// A session with a client, over an analyzer of the language.
#[derive(Drop)]
pub struct Session<A: Analyzer> {
    analyzer: A,
    phase: Phase,
    client: Client,
    documents: BTreeMap<String, Document>,
}

impl<A: Analyzer> Session<A> {
    ghost use Rattle.ti_lsp.specs.Sessions.{documents_of, server_state_of};

    /// A session before its first message.
    pub fn new(alloc: Global, analyzer: A) -> Self
        ensures state { server_state_of result
            ≡ record {
              phase = Phase.Uninitialized;
              client = record { encoding = PositionEncoding.Utf16; accepts_related = Bool.false };
            } }
        ensures empty { (uri : List ℕ) → documents_of result uri ≡ None }
    {
        Session {
            analyzer,
            phase: Phase::Uninitialized,
            client: Client {
                encoding: PositionEncoding::Utf16,
                accepts_related: false,
            },
            documents: BTreeMap::new(alloc),
        }
    }

    /// The phase of the session.
    pub fn phase(&self) -> Phase
        ensures { result ≡ (server_state_of self.now).phase }
    {
        self.phase
    }

    // The response to a request before the session is initialized.
    fn initialize(
        &mut self,
        alloc: Global,
        id: &Value,
        request: Request,
    ) -> Result<Value, AllocError>
        ensures response { IfOk result (λ v. Initializes (view id.now) (server_state_of self.old)
            (request_view request) (server_state_of self.new) (view v)) }
        ensures documents { self.new.documents ≡ self.old.documents }
    {
        match request {
            Request::Initialize(client) => {
                let supported = capabilities(alloc, client.encoding)?;
                let response = success_response(alloc, id, supported)?;
                self.phase = Phase::Running;
                self.client = client;
                Ok(response)
            }
            _ => error_response(alloc, id, ErrorCode::ServerNotInitialized),
        }
    }

    // The hover at the name at a position of a text, or null.
    #[tactic(auto, using(crate::proofs::Shown::shows_hover, crate::proofs::Shown::shows_nothing))]
    fn hover_name(&self, alloc: Global, text: &str, at: Position) -> Result<Value, AllocError>
        ensures { IfOk result (λ v. ShowsKnown self.now.client.encoding text.now at
            (name_hover self.now.client.encoding text.now) (view v)) }
    {
        let encoding = self.client.encoding;
        let offset = offset_at(encoding, text.as_bytes(), at);
        match self.analyzer.name_at(alloc, text, offset)? {
            Some(name) => name_hover(alloc, encoding, text, &name),
            None => Ok(Value::Null),
        }
    }

    // The hover at a position of a document.
    #[tactic(auto, using(crate::proofs::Shown::hovers_name, crate::proofs::Shown::hovers_error, crate::proofs::Shown::hovers_beside))]
    fn hover(&self, alloc: Global, uri: &str, at: Position) -> Result<Value, AllocError>
        ensures { IfOk result (λ v. Hovers self.now.client.encoding
            (get_by_text self.now.documents uri.now) at (view v)) }
    {
        let Some(document) = self.documents.get(uri) else {
            return Ok(Value::Null);
        };
        let text = document.text.as_str();
        let Some(diagnostic) = &document.diagnostic else {
            return self.hover_name(alloc, text, at);
        };
        let encoding = self.client.encoding;
        if bytes_range(encoding, text, diagnostic.start, diagnostic.end).touches(at) {
            diagnostic_hover(alloc, encoding, text, diagnostic)
        } else {
            self.hover_name(alloc, text, at)
        }
    }

    // The location at which the name at a position of a text is declared, or null.
    #[tactic(auto, using(crate::proofs::Shown::shows_location, crate::proofs::Shown::shows_nothing))]
    fn locate_in(
        &self,
        alloc: Global,
        uri: &str,
        text: &str,
        at: Position,
    ) -> Result<Value, AllocError>
        ensures { IfOk result (λ v. ShowsKnown self.now.client.encoding text.now at
            (declaration_data self.now.client.encoding uri.now text.now) (view v)) }
    {
        let encoding = self.client.encoding;
        let offset = offset_at(encoding, text.as_bytes(), at);
        match self.analyzer.name_at(alloc, text, offset)? {
            Some(name) => declaration_value(alloc, encoding, uri, text, &name),
            None => Ok(Value::Null),
        }
    }

    // The location at which the name at a position of a document is declared, or null.
    #[tactic(auto, using(crate::proofs::Shown::locates))]
    fn locate(&self, alloc: Global, uri: &str, at: Position) -> Result<Value, AllocError>
        ensures { IfOk result (λ v. Locates self.now.client.encoding uri.now
            (get_by_text self.now.documents uri.now) at (view v)) }
    {
        match self.documents.get(uri) {
            Some(document) => self.locate_in(alloc, uri, document.text.as_str(), at),
            None => Ok(Value::Null),
        }
    }

    // Whether a suggestion fixes an error of a text: its edits are made, and the edited text is analyzed.
    #[tactic(auto, using(crate::proofs::Fixes::fixes, crate::proofs::Fixes::not_applied, crate::proofs::Fixes::not_enough))]
    fn is_fix(
        &self,
        alloc: Global,
        text: &str,
        diagnostic: &Diagnostic,
        suggestion: &Suggestion,
    ) -> Result<bool, AllocError>
        ensures yes { result ≡ Ok Bool.true
            → IsFix A.rejects text.now diagnostic.now suggestion.now }
        ensures no { result ≡ Ok Bool.false
            → IsWholeFix A.rejects text.now suggestion.now → ⊥ }
    {
        let Some(fixed) = edited_text(alloc, text, suggestion)? else {
            return Ok(false);
        };
        let later = self.analyzer.analyze(alloc, &fixed)?;
        Ok(is_enough(suggestion.is_automatic, diagnostic, &later))
    }

    // The code action of a suggestion, if it is wanted and fixes the error.
    #[tactic(auto, using(crate::proofs::Fixes::offers_one, crate::proofs::Fixes::not_wanted, crate::proofs::Fixes::no_fix))]
    fn offer(
        &self,
        alloc: Global,
        uri: &str,
        filter: ActionFilter,
        text: &str,
        diagnostic: &Diagnostic,
        suggestion: &Suggestion,
    ) -> Result<Option<Value>, AllocError>
        ensures { IfOk result (λ o. OffersOne A.rejects self.now.client uri.now filter
            text.now diagnostic.now suggestion.now (option_map view o)) }
    {
        let client = self.client;
        let Some(kind) = kind_for(client.encoding, text, diagnostic, suggestion, filter) else {
            return Ok(None);
        };
        if !self.is_fix(alloc, text, diagnostic, suggestion)? {
            return Ok(None);
        }
        let action = action_value(alloc, client, uri, text, diagnostic, suggestion, kind)?;
        Ok(Some(action))
    }

    // The code actions of suggestions for an error, as far as they are wanted and fix it.
    #[tactic(auto, using(crate::proofs::Fixes::none_offered, crate::proofs::Fixes::one_offered, crate::proofs::Fixes::one_not_offered))]
    fn offer_each(
        &self,
        alloc: Global,
        uri: &str,
        filter: ActionFilter,
        text: &str,
        diagnostic: &Diagnostic,
        suggestions: &[Suggestion],
    ) -> Result<Vec<Value>, AllocError>
        ensures { IfOk result (λ vs. OffersEach A.rejects self.now.client uri.now filter
            text.now diagnostic.now suggestions.now (map view vs.items)) }
    {
        let mut actions = Vec::new(alloc);
        for suggestion in suggestions {
            if let Some(action) = self.offer(alloc, uri, filter, text, diagnostic, suggestion)? {
                actions.push(action)?;
            }
        }
        Ok(actions)
    }

    // The code actions for a document, or null.
    #[tactic(auto, using(crate::proofs::Fixes::offers_all, crate::proofs::Fixes::offers_nothing))]
    fn actions(&self, alloc: Global, uri: &str, filter: ActionFilter) -> Result<Value, AllocError>
        ensures { IfOk result (λ v. Offers A.rejects self.now.client uri.now filter
            (get_by_text self.now.documents uri.now) (view v)) }
    {
        let Some(document) = self.documents.get(uri) else {
            return Ok(Value::Null);
        };
        let Some(diagnostic) = &document.diagnostic else {
            return Ok(Value::Null);
        };
        let actions = self.offer_each(
            alloc,
            uri,
            filter,
            document.text.as_str(),
            diagnostic,
            &document.suggestions,
        )?;
        Ok(Value::Array(actions))
    }

    // The symbols of a document, or null.
    #[tactic(auto, using(crate::proofs::Fixes::lists))]
    fn symbols(&self, alloc: Global, uri: &str) -> Result<Value, AllocError>
        ensures { IfOk result (λ v. Lists self.now.client.encoding uri.now
            (get_by_text self.now.documents uri.now) (view v)) }
    {
        let Some(document) = self.documents.get(uri) else {
            return Ok(Value::Null);
        };
        let text = document.text.as_str();
        let symbols = self.analyzer.symbols(alloc, text)?;
        let value = symbols_value(alloc, self.client.encoding, uri, text, &symbols)?;
        Ok(value)
    }

    // The response to a request of a running session.
    #[tactic(auto, using(crate::proofs::Fixes::returns_such))]
    fn respond(&mut self, alloc: Global, id: &Value, request: Request) -> Result<Value, AllocError>
        ensures response { IfOk result (λ v. Responds A.rejects (documents_of self.old)
            (view id.now) (server_state_of self.old) (request_view request)
            (server_state_of self.new) (view v)) }
        ensures documents { self.new.documents ≡ self.old.documents }
    {
        match request {
            Request::Initialize(_) => error_response(alloc, id, ErrorCode::InvalidRequest),
            Request::Shutdown => {
                let response = success_response(alloc, id, Value::Null)?;
                self.phase = Phase::ShutDown;
                Ok(response)
            }
            Request::Hover(uri, at) => {
                let hover = self.hover(alloc, &uri, at)?;
                let response = success_response(alloc, id, hover)?;
                Ok(response)
            }
            Request::Definition(uri, at) => {
                let location = self.locate(alloc, &uri, at)?;
                let response = success_response(alloc, id, location)?;
                Ok(response)
            }
            Request::CodeAction(uri, filter) => {
                let actions = self.actions(alloc, &uri, filter)?;
                let response = success_response(alloc, id, actions)?;
                Ok(response)
            }
            Request::DocumentSymbol(uri) => {
                let symbols = self.symbols(alloc, &uri)?;
                let response = success_response(alloc, id, symbols)?;
                Ok(response)
            }
            Request::InvalidParams => error_response(alloc, id, ErrorCode::InvalidParams),
            Request::UnknownMethod => error_response(alloc, id, ErrorCode::MethodNotFound),
        }
    }

    // The response to a request.
    fn request(&mut self, alloc: Global, id: &Value, request: Request) -> Result<Value, AllocError>
        ensures response { IfOk result (λ v. RespondsInPhase self.old.phase A.rejects
            (documents_of self.old) (view id.now) (server_state_of self.old)
            (request_view request) (server_state_of self.new) (view v)) }
        ensures documents { self.new.documents ≡ self.old.documents }
    {
        match self.phase {
            Phase::Uninitialized => self.initialize(alloc, id, request),
            Phase::Running => self.respond(alloc, id, request),
            Phase::ShutDown | Phase::Exited | Phase::Aborted => {
                error_response(alloc, id, ErrorCode::InvalidRequest)
            }
        }
    }

    // Edits that may fix a text with this error.
    fn suggestions(
        &self,
        alloc: Global,
        text: &str,
        diagnostic: &Option<Diagnostic>,
    ) -> Result<Vec<Suggestion>, AllocError> {
        match diagnostic {
            Some(diagnostic) => self.analyzer.suggest(alloc, text, diagnostic),
            None => Ok(Vec::new(alloc)),
        }
    }

    // Analyzes a text, stores it as a document, and returns the notification of its diagnostics.
    fn store(
        &mut self,
        alloc: Global,
        uri: String,
        version: Option<i64>,
        text: String,
    ) -> Result<Value, AllocError>
        ensures published { IfOk result (λ v. Publishes A.rejects self.old.client
            (string_bytes uri) version (string_bytes text)
            (documents_of self.old) (documents_of self.new) (Some (view v))) }
        ensures phase { self.new.phase ≡ self.old.phase }
        ensures client { self.new.client ≡ self.old.client }
    {
        let diagnostic = self.analyzer.analyze(alloc, &text)?;
        let suggestions = self.suggestions(alloc, &text, &diagnostic)?;
        let message = publish_diagnostics(alloc, self.client, &uri, version, &text, &diagnostic)?;
        let document = Document {
            version,
            text,
            diagnostic,
            suggestions,
        };
        self.documents.insert(uri, document)?;
        Ok(message)
    }

    // The text of a document after changes. None if it isn't open, if the changes come too late, or if the text isn't UTF-8.
    #[tactic(auto, using(crate::proofs::Fixes::no_change, crate::proofs::Fixes::no_text))]
    fn changed_text(
        &self,
        alloc: Global,
        uri: &str,
        version: Option<i64>,
        changes: &[Change],
    ) -> Result<Option<String>, AllocError>
        ensures some { IfOk result (λ o. IfSome o (λ t. changed_text self.now.client.encoding version
            (map change_view changes.now) (get_by_text self.now.documents uri.now)
            ≡ Some (string_bytes t))) }
        ensures none { result ≡ Ok None → (text : List ℕ) → changed_text self.now.client.encoding version
            (map change_view changes.now) (get_by_text self.now.documents uri.now) ≡ Some text
            → IsUtf8 text → ⊥ }
    {
        let Some(document) = self.documents.get(uri) else {
            return Ok(None);
        };
        if is_stale(document.version, version) {
            return Ok(None);
        }
        let old = document.text.as_str().as_bytes();
        let new = apply_changes(alloc, self.client.encoding, old, changes)?;
        match String::from_utf8(new) {
            Ok(text) => Ok(Some(text)),
            Err(_) => Ok(None),
        }
    }

    // Changes a document, and returns the notification of its diagnostics.
    #[tactic(auto, using(crate::proofs::Fixes::changes, crate::proofs::Fixes::refuses_change))]
    fn change(
        &mut self,
        alloc: Global,
        uri: String,
        version: Option<i64>,
        changes: &[Change],
    ) -> Result<Option<Value>, AllocError>
        ensures changed { IfOk result (λ o. Changes A.rejects self.old.client
            (string_bytes uri) version (map change_view changes.now)
            (documents_of self.old) (documents_of self.new) (option_map view o)) }
        ensures phase { self.new.phase ≡ self.old.phase }
        ensures client { self.new.client ≡ self.old.client }
    {
        let Some(text) = self.changed_text(alloc, &uri, version, changes)? else {
            return Ok(None);
        };
        Ok(Some(self.store(alloc, uri, version, text)?))
    }

    // Forgets a document, and returns the notification that it has no diagnostics.
    fn close(&mut self, alloc: Global, uri: &str) -> Result<Value, AllocError>
        ensures cleared { IfOk result (λ v. Clears uri.now
            (documents_of self.old) (documents_of self.new) (Some (view v))) }
        ensures phase { self.new.phase ≡ self.old.phase }
        ensures client { self.new.client ≡ self.old.client }
    {
        let message = clear_diagnostics(alloc, uri)?;
        self.documents.remove(uri);
        Ok(message)
    }

    // Handles a notification of a running session other than `exit`.
    fn update(
        &mut self,
        alloc: Global,
        notification: Notification,
    ) -> Result<Option<Value>, AllocError>
        ensures updated { IfOk result (λ o. Updates A.rejects self.old.client
            (notification_view notification) (documents_of self.old) (documents_of self.new)
            (option_map view o)) }
        ensures phase { self.new.phase ≡ self.old.phase }
        ensures client { self.new.client ≡ self.old.client }
    {
        match notification {
            Notification::Opened(uri, version, text) => {
                Ok(Some(self.store(alloc, uri, version, text)?))
            }
            Notification::Changed(uri, version, changes) => {
                self.change(alloc, uri, version, &changes)
            }
            Notification::Closed(uri) => Ok(Some(self.close(alloc, &uri)?)),
            Notification::Exit | Notification::Other => Ok(None),
        }
    }

    // Handles a notification.
    fn receive(
        &mut self,
        alloc: Global,
        notification: Notification,
    ) -> Result<Option<Value>, AllocError>
        ensures { IfOk result (λ o. Receives A.rejects (documents_of self.old) (server_state_of self.old)
            (notification_view notification) (server_state_of self.new) (documents_of self.new)
            (option_map view o)) }
    {
        match (self.phase, notification) {
            (_, Notification::Exit) => {
                self.phase = self.phase.after_exit();
                Ok(None)
            }
            (Phase::Running, notification) => self.update(alloc, notification),
            _ => Ok(None),
        }
    }

    /// Handles a message: changes the session, and returns the message that is to be sent for it, if any.
    ///
    /// The only error is that memory ran out; then nothing is said of the session, and it can't be used further.
    pub fn handle(&mut self, alloc: Global, message: &Value) -> Result<Option<Value>, AllocError>
        ensures { IfOk result (λ o. Handles A.rejects (documents_of self.old) (server_state_of self.old)
            (message_of (view message.now)) (server_state_of self.new) (documents_of self.new)
            (option_map view o)) }
    {
        match decode_message(alloc, message)? {
            Message::Request(id, request) => Ok(Some(self.request(alloc, &id, request)?)),
            Message::Notification(notification) => self.receive(alloc, notification),
            Message::Response => Ok(None),
            Message::Invalid => {
                let error = ErrorCode::InvalidRequest;
                Ok(Some(error_response(alloc, &Value::Null, error)?))
            }
        }
    }
}
