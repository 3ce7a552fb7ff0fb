// Documents that a client has open.

use crate::{Diagnostic, Suggestion};

/// A document that a client has open. What was found in its text is stored with it, so that requests don't analyze it again.
#[derive(Drop)]
pub struct Document {
    /// The version that the client gave, if any.
    pub version: Option<i64>,
    pub text: String,
    /// The error of the text, if it has one.
    pub diagnostic: Option<Diagnostic>,
    /// Edits that may fix the text.
    pub suggestions: Vec<Suggestion>,
}
