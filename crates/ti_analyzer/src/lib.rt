//! titan as the analyzer of a language server: the error of a text, by the passes that the command `titan` runs, and edits that may fix it, by
//! its inference of `single` annotations.
#![tactic(auto)]

mod titan;

pub use titan::Titan;
