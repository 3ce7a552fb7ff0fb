//! titan's errors as diagnostics of an editor: the range in bytes, what is wrong and how to fix it, and the places that have to do with it; and
//! the edits that may fix an error: those that put the `single` annotations of a program where they belong, and other spellings of a name.
#![tactic(auto)]

mod annotations;
mod rejection;
mod related;
mod spelling;

pub use annotations::annotation_edits;
pub use rejection::diagnostic_of;
pub use spelling::spelling_suggestions;
