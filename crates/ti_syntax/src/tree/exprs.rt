// Expressions, as parsed.

use super::types::TypeName;
use crate::Spelled;
use ti_base::Place;

/// A unary operator.
#[derive(Clone, Copy, Debug, PartialEq, Eq)]
pub enum UnaryOperator {
    /// `-`
    Minus,
    /// `+`
    Plus,
    /// `!`
    Not,
    /// `~`
    Complement,
}

/// A binary operator.
#[derive(Clone, Copy, Debug, PartialEq, Eq)]
pub enum BinaryOperator {
    /// `||`
    OrElse,
    /// `&&`
    AndThen,
    /// `|`
    Or,
    /// `^`
    Xor,
    /// `&`
    And,
    /// `==`
    Equal,
    /// `!=`
    NotEqual,
    /// `<`
    Less,
    /// `<=`
    LessEqual,
    /// `>`
    Greater,
    /// `>=`
    GreaterEqual,
    /// `<<`
    ShiftLeft,
    /// `>>`
    ShiftRight,
    /// `>>>`
    UnsignedShiftRight,
    /// `+`
    Add,
    /// `-`
    Subtract,
    /// `*`
    Multiply,
    /// `/`
    Divide,
    /// `%`
    Remainder,
}

/// An expression. Each node holds its source position; where that isn't the node's first token, the variant says which token it is.
#[derive(Drop)]
#[cycle(expr)]
pub enum Expr {
    /// An `int` literal.
    Int(Place, i32),
    /// A `long` literal.
    Long(Place, i64),
    /// `true` or `false`
    Bool(Place, bool),
    /// `null`
    Null(Place),
    /// `this`
    This(Place),
    /// A simple name.
    Name(Place, Spelled),
    /// A call by a simple name: `m(e, ..)`, at the name.
    Call {
        place: Place,
        name: Spelled,
        args: Vec<Expr>,
    },
    /// `Ti.thisProc()`, at `Ti`.
    ThisProc(Place),
    /// `Ti.numProcs()`, at `Ti`.
    NumProcs(Place),
    /// A point literal `[e, ..]` with one to three coordinates, at its `[`.
    Point(Place, Vec<Expr>),
    /// A rectangular domain literal `[a:b:s, ..]` with one to three ranges, at its `[`.
    Rect(Place, Vec<Range>),
    /// A unary operation, at its operator.
    Unary {
        place: Place,
        operator: UnaryOperator,
        operand: Box<Expr>,
    },
    /// A binary operation, at its operator.
    Binary {
        place: Place,
        operator: BinaryOperator,
        left: Box<Expr>,
        right: Box<Expr>,
    },
    /// `(T) e`, at its `(`.
    Cast {
        place: Place,
        to: Box<TypeName>,
        operand: Box<Expr>,
    },
    /// A member selection `e.f`, at the name.
    Select {
        place: Place,
        receiver: Box<Expr>,
        name: Spelled,
    },
    /// A method call `e.f(..)`, at the name.
    Member {
        place: Place,
        receiver: Box<Expr>,
        name: Spelled,
        args: Vec<Expr>,
    },
    /// `e[i, ..]` with one to three indices, at its `[`.
    Index {
        place: Place,
        receiver: Box<Expr>,
        indices: Vec<Expr>,
    },
}

/// One range of a domain literal: bounds, and a step if one is written. The operands are integers or points.
#[derive(Drop)]
#[cycle(expr)]
pub enum Range {
    /// `a:b`
    Plain { low: Expr, high: Expr },
    /// `a:b:s`
    Stepped { low: Expr, high: Expr, step: Expr },
}

impl Expr {
    ghost use Rattle.std.specs.Prelude.{◌≡◌};
    ghost use Rattle.ti_syntax.specs.Trees.Expressions.{place_of_exp};
    ghost use Rattle.ti_syntax.specs.Trees.Views.{exp_of};

    /// The source position of the expression's root node.
    pub fn place(&self) -> Place
        ensures { result ≡ place_of_exp (exp_of self.now) }
    {
        match self {
            Expr::Int(place, _) => *place,
            Expr::Long(place, _) => *place,
            Expr::Bool(place, _) => *place,
            Expr::Null(place) => *place,
            Expr::This(place) => *place,
            Expr::Name(place, _) => *place,
            Expr::Call { place, .. } => *place,
            Expr::ThisProc(place) => *place,
            Expr::NumProcs(place) => *place,
            Expr::Point(place, _) => *place,
            Expr::Rect(place, _) => *place,
            Expr::Unary { place, .. } => *place,
            Expr::Binary { place, .. } => *place,
            Expr::Cast { place, .. } => *place,
            Expr::Select { place, .. } => *place,
            Expr::Member { place, .. } => *place,
            Expr::Index { place, .. } => *place,
        }
    }
}
