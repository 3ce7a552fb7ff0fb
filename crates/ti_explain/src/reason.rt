// Explanations of a refusal, as data: where to look and what is there.

use crate::name_reason::NameReason;
use crate::type_reason::TypeReason;
use ti_base::Place;
use ti_rules::Refusal;
use ti_syntax::Spelled;

/// Why a part of an expression is plain, that is, may differ between processes.
#[derive(Clone, Copy, Debug, PartialEq, Eq)]
pub enum PlainCause {
    /// A variable that is declared without `single`.
    Variable,
    /// The variable of a `foreach` over a plain domain.
    ForeachVariable,
    /// A field.
    Field,
    /// An element of a grid.
    Element,
    /// `Ti.thisProc()`
    ThisProc,
    /// `this`
    This,
    /// `null`
    Null,
    /// A call of a method inside an expression.
    InnerCall,
    /// A built-in member other than `size`, `min`, `max` and `contains`.
    Member,
    /// A cast to a local reference.
    LocalCast,
    /// A whole right-hand side that calls a method without a single result.
    PlainResult,
    /// A new object.
    NewObject,
    /// A new grid.
    NewGrid,
    /// A broadcast of a value that isn't a number, a boolean, a point or a rectangular domain.
    SentReference,
}

/// A part of an expression that is plain by itself, whatever its own parts are: its position, and why; and the number of the variable, if it
/// is one that is declared without `single`.
#[derive(Clone, Copy, Debug, PartialEq, Eq)]
pub struct PlainPart {
    pub place: Place,
    pub cause: PlainCause,
    pub variable: Option<u32>,
}

/// What a statement does that all processes have to do together.
#[derive(Clone, Copy, Debug, PartialEq, Eq)]
pub enum GlobalEffect {
    /// A barrier.
    Barrier,
    /// A broadcast.
    Broadcast,
    /// A new region.
    NewRegion,
    /// An exchange, or the deletion of a region.
    Collective,
    /// A call of a method that is declared single.
    SingleCall,
    /// The declaration of a single variable.
    DeclaresSingle,
    /// A change of a single variable.
    ChangesSingle,
    /// A `return` from a method with a single result or with global effects.
    Return,
    /// A `break` or `continue` of a loop with global effects.
    Jump,
}

/// A statement with a global effect of its own: the position that reports use for it, and the effect.
#[derive(Clone, Copy, Debug, PartialEq, Eq)]
pub struct EffectAt {
    pub place: Place,
    pub effect: GlobalEffect,
}

/// What a link of a chain is about.
#[derive(Clone, Copy, Debug, PartialEq, Eq)]
pub enum LinkPart {
    /// A local variable, which can't be single.
    Variable,
    /// A parameter, which can't be single.
    Parameter,
    /// The result of the method of this name, which can't be single.
    Result,
    /// The method of this name, which can't be single.
    Method,
    /// A collective, which all processes can't be made to reach together.
    Collective,
}

/// By which kind of constraint a link of a chain follows from the one before it. The first link follows by itself.
#[derive(Clone, Copy, Debug, PartialEq, Eq)]
pub enum LinkCause {
    /// By a value: that of a variable, an argument, what is returned, or the root or region of a collective. A first link that is a
    /// method is one that can't have an annotation.
    Value,
    /// By a condition or a domain, which decides whether a statement is executed.
    Condition,
    /// By the method around it, which is the link before.
    Method,
}

/// A link of a chain of constraints on annotations, which ends at a collective that no annotations align.
#[derive(Clone, Copy, Debug, PartialEq, Eq)]
pub struct ChainLink {
    pub part: LinkPart,
    pub cause: LinkCause,
}

/// What a reason says of its position.
#[derive(Debug, Drop)]
pub enum ReasonKind {
    /// A token of this text could stand here.
    Expected(Spelled),
    /// The source could end here.
    ExpectedEnd,
    /// The nest of statements that is too deep begins with this statement, directly in the body of a method.
    NestBegins,
    /// The expression that is too heavy has its first bracket, dot or operator here.
    WeightBegins,
    /// This part of a value, a condition or a domain that has to be single is plain.
    Plain(PlainCause),
    /// The variable that is this part is declared here, without `single`.
    PlainDeclaration,
    /// This statement has a global effect.
    Effect(GlobalEffect),
    /// The method of this name isn't declared single.
    PlainMethod,
    /// What there is for a refusal by a rule of names.
    Name(NameReason),
    /// In mode infer, this follows from the reason before it.
    Link(ChainLink),
    /// What there is for a refusal by a rule of types or qualifiers.
    Typing(TypeReason),
}

/// A reason for a refusal: a position in the text, and what is there.
#[derive(Debug, Drop)]
pub struct RefusalReason {
    pub place: Place,
    pub kind: ReasonKind,
}

/// A refusal with its reasons in a fixed order: for an unexpected token that of the texts that are tried, and then the end of the
/// source; for a rule of single values the plain part, if there is one, with the declaration of its variable, and then the
/// effect; for a collective that no annotations align the links of a chain, up to the collective, and before a single link by a
/// condition the plain part of that, if there is one.
#[derive(Drop)]
pub struct RefusalReasons {
    pub refusal: Refusal,
    pub reasons: Vec<RefusalReason>,
}

/// A reason for a refusal, with the length in bytes of the token at its position.
#[derive(Drop)]
pub struct ReasonSpan {
    pub place: Place,
    pub len: usize,
    pub kind: ReasonKind,
}

/// Why a text is refused: its refusal, with the length in bytes of the token at its position, and the reasons, in the order of
/// `RefusalReasons`.
#[derive(Drop)]
pub struct Explanation {
    pub refusal: Refusal,
    pub len: usize,
    pub reasons: Vec<ReasonSpan>,
}
