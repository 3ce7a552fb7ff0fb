// Types as written in a program, before names are resolved.

use crate::Spelled;
use ti_base::Place;

/// A type qualifier. It applies to the base or the grid brackets that it directly follows.
#[derive(Clone, Copy, Debug, PartialEq, Eq)]
pub enum QualifierWord {
    Single,
    Local,
}

/// An occurrence of a qualifier, at the position of its keyword.
#[derive(Clone, Copy, Debug, PartialEq, Eq)]
pub struct Qualifier {
    pub word: QualifierWord,
    pub place: Place,
}

/// The first part of a type, at the position of its keyword or class name.
#[derive(Drop)]
pub enum Base {
    Int(Place),
    Long(Place),
    Boolean(Place),
    /// `Point<n>`, with its number of dimensions n.
    Point(Place, u8),
    /// `RectDomain<n>`, with its number of dimensions n.
    RectDomain(Place, u8),
    /// `Domain<n>`, with its number of dimensions n.
    Domain(Place, u8),
    SharedRegion(Place),
    /// A class type, by its name.
    Named(Place, Spelled),
}

/// One pair of grid brackets: the number of dimensions, and the qualifiers of the grid.
#[derive(Drop)]
pub struct Brackets {
    pub dim: u8,
    pub qualifiers: Vec<Qualifier>,
}

/// A type: its base with the base's qualifiers, then the grid brackets after it, the outermost grid first.
#[derive(Drop)]
pub struct TypeName {
    pub base: Base,
    pub qualifiers: Vec<Qualifier>,
    pub grids: Vec<Brackets>,
}
