// Reasons for refusals by the rules of types and qualifiers, as data.

use ti_syntax::Spelled;

/// What is wrong with a value that is missing, or with a call where none can be.
#[derive(Clone, Copy, Debug)]
pub enum ValueDefect {
    /// A call of a declared method is part of an expression, or in a place where only parts of expressions can be.
    InnerCall,
    /// The value of a call or a member that has none.
    NoValue,
    /// A `return` without a value, of a method with a result.
    ReturnsNothing,
    /// A `return` with a value, of a method without a result.
    ReturnsValue,
    /// A method with a result whose last statement is no `return`.
    NoLastReturn,
}

/// Why a target can't be assigned to.
#[derive(Clone, Copy, Debug)]
pub enum TargetDefect {
    /// It is a coordinate of a point.
    Coordinate,
    /// It is the variable of a `foreach`.
    ForeachVariable,
    /// It is a field or an element of local type, reached through a global reference.
    HiddenLocal,
}

/// Why a keyword of a type or a declaration can't be where it is.
#[derive(Clone, Copy, Debug)]
pub enum WordDefect {
    /// It can be there, but only once.
    Once,
    /// A field is `single`.
    SingleField,
    /// A field is `static`.
    StaticField,
    /// A method that isn't static is `single`.
    SingleInstance,
    /// A type of objects or grids is `single`.
    SingleReference,
    /// `single` in a type that can't have it: that of a field, a cast or elements, or of a parameter of a method that isn't single.
    SingleThere,
    /// A type of other values than objects and grids is `local`.
    LocalValue,
}

/// What a reason for a refusal by a rule of types or qualifiers says of its position. Types are spelled as in a program.
#[derive(Debug, Drop)]
pub enum TypeReason {
    /// What is here has this type.
    Has(Spelled),
    /// A value of this type is wanted here, or for what is declared here.
    Wants(Spelled),
    /// The method that is declared here has this many parameters.
    Takes(usize),
    /// A member of the class of the receiver is declared here.
    Member,
    /// What is wrong with the value here.
    Value(ValueDefect),
    /// What is wrong with the target here.
    Target(TargetDefect),
    /// What is wrong with the keyword here.
    Word(WordDefect),
}
