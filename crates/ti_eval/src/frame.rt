// The position of a call in its method: which statements it has entered, and which work of each is pending.

ghost use Rattle.ti_base.specs.Points.{IsPoint};

use crate::var_value::VarValue;
use ti_base::{Id, Point};
use ti_lang::program::Variable;

/// A variable in scope, with its value.
#[derive(Drop)]
pub struct Slot {
    pub variable: Variable,
    pub held: VarValue,
}

/// A canonical point.
#[derive(Clone, Copy)]
pub struct CanonicalPoint {
    pub point: Point,
    pub ghost formed: { IsPoint point },
}

/// A copy of one grid into another at the points of a domain.
#[derive(Drop)]
pub struct Copy {
    pub to: Id,
    pub from: Id,
    pub domain: VarValue,
}

/// The pending work of a statement.
#[derive(Drop)]
pub enum Resume {
    /// All of it.
    Here,
    /// None of its own: something inside it is pending, or a value on its way to it.
    Inside,
    /// The statements of a list from this number on; after those of a block its end.
    From(usize),
    /// The end of a `for`.
    Ending,
    /// The next iteration of a `while` or a `for`.
    Before,
    /// The end of an iteration of a `while` or a `for`.
    Behind,
    /// The next iteration of a `foreach` with this variable and domain, at the first point after the last one.
    Each {
        variable: u32,
        domain: Box<VarValue>,
        last: Option<Point>,
    },
    /// The end of an iteration of a `foreach` at a point.
    Turn {
        variable: u32,
        domain: Box<VarValue>,
        at: CanonicalPoint,
    },
    /// A copy at the points after the last one.
    Copying {
        copy: Box<Copy>,
        last: Option<Point>,
    },
    /// The values of an exchange are written into the grid, from that of process `next` on.
    Taking {
        grid: Id,
        next: u32,
    },
}

/// A part of a statement that is a statement.
#[derive(Clone, Copy)]
pub enum ChildIndex {
    /// The statement of this number in a block.
    Item(usize),
    /// The branch of an `if` that is taken if the condition holds.
    Then,
    /// The branch after `else`.
    Else,
    /// The body of a loop.
    Body,
    /// The first part of the head of a `for`.
    First,
    /// The update of a `for`, which ends each iteration.
    Update,
}

/// A statement that has been entered: its pending work after the part inside, and which part that is.
#[derive(Drop)]
pub struct StmtFrame {
    pub resume: Resume,
    pub inner: ChildIndex,
}
