// Reasons for which a rule of single values applies.

use ti_base::Place;

/// A reason for which a rule of single values applies: an annotation, a collective, or one that holds under every marking.
#[derive(Clone, Copy, Debug, PartialEq, Eq)]
pub enum Reason {
    /// The annotation of the method whose name is at this place.
    OfMethod(Place),
    /// The annotation of the result of the method whose name is at this place.
    OfResult(Place),
    /// The annotation of the variable whose declared name is at this place.
    OfVariable(Place),
    /// The collective whose keyword or name is at this place.
    OfCollective(Place),
    /// Unconditional: a call of a method that is single without an annotation, or a jump in the update of a `for`, which no parsed
    /// program has.
    Always,
}
