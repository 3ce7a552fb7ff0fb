// Kinds of operators, by which functions handle several operators alike.

/// A set operation on two domains.
#[derive(Clone, Copy)]
pub enum SetOp {
    Union,
    Difference,
    Intersection,
}

/// A comparison of two numbers.
#[derive(Clone, Copy)]
pub enum CmpOp {
    Less,
    LessEqual,
    Greater,
    GreaterEqual,
}

/// An operator on bits, or on booleans.
#[derive(Clone, Copy)]
pub enum BitOp {
    And,
    Or,
    Xor,
}

/// A shift: to the left, to the right with the sign, or to the right with zeros.
#[derive(Clone, Copy)]
pub enum ShiftOp {
    Left,
    Right,
    Unsigned,
}
