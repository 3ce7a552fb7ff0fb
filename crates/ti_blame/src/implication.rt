// Constraints.

use crate::mark::Mark;
use crate::reason::Reason;

/// What a constraint rules out: one reason, or the range of a list of reasons from one index to another (exclusive).
#[derive(Clone, Copy, Debug, PartialEq, Eq)]
pub enum Conclusion {
    One(Reason),
    Between(usize, usize),
}

/// A constraint: unless the annotation `from` is in the marking, `then` is ruled out. If `from` is `None`, it is ruled out
/// unconditionally.
#[derive(Clone, Copy, Debug, PartialEq, Eq)]
pub struct Implication {
    pub from: Option<Mark>,
    pub then: Conclusion,
}
