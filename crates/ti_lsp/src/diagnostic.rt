// What an analyzer reports of a text.

/// An error of a text: its range in bytes, and what is said of it. Code and message are those of a rule, which breaks in many places.
#[derive(Drop)]
pub struct Diagnostic {
    /// The offset of the first byte of the range.
    pub start: usize,
    /// The offset of the first byte after the range.
    pub end: usize,
    /// The code of the rule.
    pub code: &'static str,
    /// The message of the rule.
    pub message: &'static str,
    /// What is wrong at the range. It may be empty.
    pub label: String,
    /// How such an error is fixed. It may be empty.
    pub help: String,
    /// The reasons for the error at other places, in the order in which they are told.
    pub related: Vec<Related>,
}

/// A place of a text that has to do with an error: its range in bytes, and what is said of it.
#[derive(Drop)]
pub struct Related {
    /// The offset of the first byte of the range.
    pub start: usize,
    /// The offset of the first byte after the range.
    pub end: usize,
    pub message: String,
}
