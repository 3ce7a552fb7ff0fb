// Edits that an analyzer suggests.

use crate::TextEdit;

/// Edits that may fix the error of a text.
#[derive(Drop)]
pub struct Suggestion {
    /// What an editor shows in its list of actions.
    pub title: String,
    /// Whether it needs no choice, so that an editor may apply it on saving. Such a suggestion is offered only if no error is left.
    pub is_automatic: bool,
    /// The edits, in the order of the text. They all refer to the text as it is.
    pub edits: Vec<TextEdit>,
}
