// Statements, as parsed.

use super::exprs::{BinaryOperator, Expr, Range};
use super::types::TypeName;
use crate::Spelled;
use ti_base::Place;

/// The domain of a new grid.
#[derive(Drop)]
pub enum Dims {
    /// An expression for the whole domain.
    Domain(Expr),
    /// One to three ranges, as in a domain literal.
    Ranges(Vec<Range>),
}

/// An initializer: the right-hand side of a declaration or an assignment.
#[derive(Drop)]
pub enum Init {
    Value(Expr),
    /// `new SharedRegion()`, at `new`.
    NewRegion(Place),
    /// `new (r) C()`, at `new`. `region` is `r`, if given; `name_place` is the position of `C`.
    NewObject {
        place: Place,
        region: Option<Expr>,
        name_place: Place,
        name: Spelled,
    },
    /// `new (r) T [D]`, at `new`. `region` is `r`, if given; `element` is `T`, the element type; `bracket` is the position of `[`.
    NewGrid {
        place: Place,
        region: Option<Expr>,
        element: TypeName,
        bracket: Place,
        dims: Dims,
    },
    /// `broadcast e from p`, at `broadcast`.
    Broadcast {
        place: Place,
        value: Expr,
        root: Expr,
    },
}

/// The operator of a step statement: `++` or `--`.
#[derive(Clone, Copy, Debug, PartialEq, Eq)]
pub enum StepOperator {
    Increment,
    Decrement,
}

/// The argument of a print.
#[derive(Drop)]
pub enum PrintArgument {
    Nothing,
    /// A string literal.
    Text(Spelled),
    Value(Expr),
    /// `"s" + e`
    TextAndValue(Spelled, Expr),
}

/// A statement, with its source position. Large parts are boxed to keep the enum small.
#[derive(Drop)]
pub enum Stmt {
    /// `;`
    Empty,
    /// `T x = ..`, at the declared name.
    Declare {
        place: Place,
        ty: TypeName,
        name: Spelled,
        value: Box<Init>,
    },
    /// `t = ..`, at `=`.
    Assign {
        place: Place,
        target: Expr,
        value: Box<Init>,
    },
    /// The compound assignment `t op= e`, at its operator.
    Update {
        place: Place,
        operator: BinaryOperator,
        target: Expr,
        value: Expr,
    },
    /// `t++` or `t--`, at its operator.
    Step {
        place: Place,
        operator: StepOperator,
        target: Expr,
    },
    /// A call as a statement.
    Call(Expr),
    /// A print, at `println`.
    Print(Place, PrintArgument),
    /// `Ti.barrier()`, at `barrier`.
    Barrier(Place),
    /// `break`, at its keyword.
    Break(Place),
    /// `continue`, at its keyword.
    Continue(Place),
    /// `return` or `return e`, at the keyword.
    Return(Place, Option<Expr>),
    /// `{ .. }`
    Block(Vec<Stmt>),
    /// `if (c) s` or `if (c) s else t`, at `if`.
    If {
        place: Place,
        condition: Expr,
        then: Box<Stmt>,
        otherwise: Option<Box<Stmt>>,
    },
    /// `while (c) s`, at `while`.
    While {
        place: Place,
        condition: Expr,
        body: Box<Stmt>,
    },
    /// `for (first; condition; update) body`, at `for`. `first` is a declaration or an assignment, `update` an assignment.
    For {
        place: Place,
        first: Option<Box<Stmt>>,
        condition: Option<Expr>,
        update: Option<Box<Stmt>>,
        body: Box<Stmt>,
    },
    /// `foreach (p in D) body`, at `foreach`; `name_place` is the position of the variable.
    Foreach {
        place: Place,
        name_place: Place,
        name: Spelled,
        domain: Expr,
        body: Box<Stmt>,
    },
}
