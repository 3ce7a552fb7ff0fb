// The two operands of an operator, brought to one type.

use ti_base::{Id, Point, Rect};

/// Two operands of one type.
#[derive(Clone, Copy)]
pub enum Operands {
    Ints(i32, i32),
    Longs(i64, i64),
    Bools(bool, bool),
    Points(Point, Point),
    Rects(Rect, Rect),
    /// Domains that aren't both rectangular.
    Domains,
    Things(Option<Id>, Option<Id>),
    Regions(u32, u32),
    /// Other operands, which don't occur in a program that breaks no rule.
    Others,
}
