// The operators on integers of 32 and 64 bits.

use std::test::Fail;
use ti_base::{
    DivZero, int_add, int_div, int_mul, int_rem, int_shl, int_shr, int_sub, int_ushr, long_add,
    long_div, long_mul, long_rem, long_shl, long_shr, long_sub, long_ushr, to_int, to_long,
};

#[test]
fn widths(rt: HostRuntime) -> Result<(), Fail> {
    let cases: [(i64, i32); 6] = [
        (0, 0),
        (-1, -1),
        (2147483648, i32::MIN),
        (-2147483649, i32::MAX),
        (4294967295, -1),
        (i64::MIN, 0),
    ];
    for (long, int) in cases {
        assert_eq!(rt; to_int(long), int, "{long}");
        assert_eq!(rt; to_int(to_long(int)), int, "{int}");
    }
    Ok(())
}

/// 32 bits or 64.
#[derive(Clone, Copy)]
enum Width {
    Int,
    Long,
}

#[derive(Clone, Copy)]
enum Operator {
    Add,
    Sub,
    Mul,
    Div,
    Rem,
    Shl,
    Shr,
    Ushr,
}

/// The results of `a` with each of the operands.
struct OperatorRow {
    a: i64,
    sums: [i64; 7],
    differences: [i64; 7],
    products: [i64; 7],
    /// By the operands after 0.
    quotients: [i64; 6],
    /// By the operands after 0.
    remainders: [i64; 6],
}

/// `a` shifted by each of the counts.
struct Shifts {
    a: i64,
    left: [i64; 8],
    right: [i64; 8],
    unsigned: [i64; 8],
}

/// The expected results of all operators at one width.
struct OperatorTable {
    width: Width,
    /// The right operands of each row.
    operands: [i64; 7],
    rows: [OperatorRow; 7],
    shifts: [Shifts; 8],
}

/// The counts of each row of shifts.
const COUNTS: [i64; 8] = [-1, 0, 1, 31, 32, 33, 63, 64];

/// The right operands, including the bounds of the width and their neighbours.
macro_rules! operands {
    ($max:expr, $min:expr) => {
        [0, 1, -1, $max, $max - 1, $min, $min + 1]
    };
}

/// The rows of a width with these bounds. Expressed by them, they are equal at both widths.
macro_rules! rows {
    ($max:expr, $min:expr) => {
        [
            OperatorRow {
                a: 0,
                sums: [0, 1, -1, $max, $max - 1, $min, $min + 1],
                differences: [0, -1, 1, $min + 1, $min + 2, $min, $max],
                products: [0, 0, 0, 0, 0, 0, 0],
                quotients: [0, 0, 0, 0, 0, 0],
                remainders: [0, 0, 0, 0, 0, 0],
            },
            OperatorRow {
                a: 1,
                sums: [1, 2, 0, $min, $max, $min + 1, $min + 2],
                differences: [1, 0, 2, $min + 2, $min + 3, $min + 1, $min],
                products: [0, 1, -1, $max, $max - 1, $min, $min + 1],
                quotients: [1, -1, 0, 0, 0, 0],
                remainders: [0, 0, 1, 1, 1, 1],
            },
            OperatorRow {
                a: -1,
                sums: [-1, 0, -2, $max - 1, $max - 2, $max, $min],
                differences: [-1, -2, 0, $min, $min + 1, $max, $max - 1],
                products: [0, -1, 1, $min + 1, $min + 2, $min, $max],
                quotients: [-1, 1, 0, 0, 0, 0],
                remainders: [0, 0, -1, -1, -1, -1],
            },
            OperatorRow {
                a: $max,
                sums: [$max, $min, $max - 1, -2, -3, -1, 0],
                differences: [$max, $max - 1, $min, 0, 1, -1, -2],
                products: [0, $max, $min + 1, 1, $min + 2, $min, -1],
                quotients: [$max, $min + 1, 1, 1, 0, -1],
                remainders: [0, 0, 0, 1, $max, 0],
            },
            OperatorRow {
                a: $max - 1,
                sums: [$max - 1, $max, $max - 2, -3, -4, -2, -1],
                differences: [$max - 1, $max - 2, $max, -1, 0, -2, -3],
                products: [0, $max - 1, $min + 2, $min + 2, 4, 0, $max - 1],
                quotients: [$max - 1, $min + 2, 0, 1, 0, 0],
                remainders: [0, 0, $max - 1, 0, $max - 1, $max - 1],
            },
            OperatorRow {
                a: $min,
                sums: [$min, $min + 1, $max, -1, -2, 0, 1],
                differences: [$min, $max, $min + 1, 1, 2, 0, -1],
                products: [0, $min, $min, $min, 0, 0, $min],
                quotients: [$min, $min, -1, -1, 1, 1],
                remainders: [0, 0, -1, -2, 0, -1],
            },
            OperatorRow {
                a: $min + 1,
                sums: [$min + 1, $min + 2, $min, 0, -1, 1, 2],
                differences: [$min + 1, $min, $min + 2, 2, 3, 1, 0],
                products: [0, $min + 1, $max, -1, $max - 1, $min, 1],
                quotients: [$min + 1, $max, -1, -1, 0, 1],
                remainders: [0, 0, 0, -1, $min + 1, 0],
            },
        ]
    };
}

mod ints {
    use super::{OperatorRow, OperatorTable, Shifts, Width};

    const MAX: i64 = i32::MAX as i64;

    const MIN: i64 = i32::MIN as i64;

    const BIT30: i64 = 1 << 30;

    pub const TABLE: OperatorTable = OperatorTable {
        width: Width::Int,
        operands: operands!(MAX, MIN),
        rows: rows!(MAX, MIN),
        shifts: [
            Shifts {
                a: 0,
                left: [0, 0, 0, 0, 0, 0, 0, 0],
                right: [0, 0, 0, 0, 0, 0, 0, 0],
                unsigned: [0, 0, 0, 0, 0, 0, 0, 0],
            },
            Shifts {
                a: 1,
                left: [MIN, 1, 2, MIN, 1, 2, MIN, 1],
                right: [0, 1, 0, 0, 1, 0, 0, 1],
                unsigned: [0, 1, 0, 0, 1, 0, 0, 1],
            },
            Shifts {
                a: -1,
                left: [MIN, -1, -2, MIN, -1, -2, MIN, -1],
                right: [-1, -1, -1, -1, -1, -1, -1, -1],
                unsigned: [1, -1, MAX, 1, -1, MAX, 1, -1],
            },
            Shifts {
                a: MAX,
                left: [MIN, MAX, -2, MIN, MAX, -2, MIN, MAX],
                right: [0, MAX, BIT30 - 1, 0, MAX, BIT30 - 1, 0, MAX],
                unsigned: [0, MAX, BIT30 - 1, 0, MAX, BIT30 - 1, 0, MAX],
            },
            Shifts {
                a: MAX - 1,
                left: [0, MAX - 1, -4, 0, MAX - 1, -4, 0, MAX - 1],
                right: [0, MAX - 1, BIT30 - 1, 0, MAX - 1, BIT30 - 1, 0, MAX - 1],
                unsigned: [0, MAX - 1, BIT30 - 1, 0, MAX - 1, BIT30 - 1, 0, MAX - 1],
            },
            Shifts {
                a: MIN,
                left: [0, MIN, 0, 0, MIN, 0, 0, MIN],
                right: [-1, MIN, -BIT30, -1, MIN, -BIT30, -1, MIN],
                unsigned: [1, MIN, BIT30, 1, MIN, BIT30, 1, MIN],
            },
            Shifts {
                a: MIN + 1,
                left: [MIN, MIN + 1, 2, MIN, MIN + 1, 2, MIN, MIN + 1],
                right: [-1, MIN + 1, -BIT30, -1, MIN + 1, -BIT30, -1, MIN + 1],
                unsigned: [1, MIN + 1, BIT30, 1, MIN + 1, BIT30, 1, MIN + 1],
            },
            Shifts {
                a: -8,
                left: [0, -8, -16, 0, -8, -16, 0, -8],
                right: [-1, -8, -4, -1, -8, -4, -1, -8],
                unsigned: [1, -8, MAX - 3, 1, -8, MAX - 3, 1, -8],
            },
        ],
    };
}

mod longs {
    use super::{OperatorRow, OperatorTable, Shifts, Width};

    const MAX: i64 = i64::MAX;

    const MIN: i64 = i64::MIN;

    const BIT30: i64 = 1 << 30;

    const BIT31: i64 = 1 << 31;

    const BIT32: i64 = 1 << 32;

    const BIT33: i64 = 1 << 33;

    const BIT34: i64 = 1 << 34;

    const BIT35: i64 = 1 << 35;

    const BIT36: i64 = 1 << 36;

    const BIT62: i64 = 1 << 62;

    pub const TABLE: OperatorTable = OperatorTable {
        width: Width::Long,
        operands: operands!(MAX, MIN),
        rows: rows!(MAX, MIN),
        shifts: [
            Shifts {
                a: 0,
                left: [0, 0, 0, 0, 0, 0, 0, 0],
                right: [0, 0, 0, 0, 0, 0, 0, 0],
                unsigned: [0, 0, 0, 0, 0, 0, 0, 0],
            },
            Shifts {
                a: 1,
                left: [MIN, 1, 2, BIT31, BIT32, BIT33, MIN, 1],
                right: [0, 1, 0, 0, 0, 0, 0, 1],
                unsigned: [0, 1, 0, 0, 0, 0, 0, 1],
            },
            Shifts {
                a: -1,
                left: [MIN, -1, -2, -BIT31, -BIT32, -BIT33, MIN, -1],
                right: [-1, -1, -1, -1, -1, -1, -1, -1],
                unsigned: [1, -1, MAX, BIT33 - 1, BIT32 - 1, BIT31 - 1, 1, -1],
            },
            Shifts {
                a: MAX,
                left: [MIN, MAX, -2, -BIT31, -BIT32, -BIT33, MIN, MAX],
                right: [0, MAX, BIT62 - 1, BIT32 - 1, BIT31 - 1, BIT30 - 1, 0, MAX],
                unsigned: [0, MAX, BIT62 - 1, BIT32 - 1, BIT31 - 1, BIT30 - 1, 0, MAX],
            },
            Shifts {
                a: MAX - 1,
                left: [0, MAX - 1, -4, -BIT32, -BIT33, -BIT34, 0, MAX - 1],
                right: [
                    0,
                    MAX - 1,
                    BIT62 - 1,
                    BIT32 - 1,
                    BIT31 - 1,
                    BIT30 - 1,
                    0,
                    MAX - 1,
                ],
                unsigned: [
                    0,
                    MAX - 1,
                    BIT62 - 1,
                    BIT32 - 1,
                    BIT31 - 1,
                    BIT30 - 1,
                    0,
                    MAX - 1,
                ],
            },
            Shifts {
                a: MIN,
                left: [0, MIN, 0, 0, 0, 0, 0, MIN],
                right: [-1, MIN, -BIT62, -BIT32, -BIT31, -BIT30, -1, MIN],
                unsigned: [1, MIN, BIT62, BIT32, BIT31, BIT30, 1, MIN],
            },
            Shifts {
                a: MIN + 1,
                left: [MIN, MIN + 1, 2, BIT31, BIT32, BIT33, MIN, MIN + 1],
                right: [-1, MIN + 1, -BIT62, -BIT32, -BIT31, -BIT30, -1, MIN + 1],
                unsigned: [1, MIN + 1, BIT62, BIT32, BIT31, BIT30, 1, MIN + 1],
            },
            Shifts {
                a: -8,
                left: [0, -8, -16, -BIT34, -BIT35, -BIT36, 0, -8],
                right: [-1, -8, -4, -1, -1, -1, -1, -8],
                unsigned: [1, -8, MAX - 3, BIT33 - 1, BIT32 - 1, BIT31 - 1, 1, -8],
            },
        ],
    };
}

/// The result at 32 bits.
fn int_result(operator: Operator, a: i32, b: i32) -> Result<i32, DivZero> {
    match operator {
        Operator::Add => Ok(int_add(a, b)),
        Operator::Sub => Ok(int_sub(a, b)),
        Operator::Mul => Ok(int_mul(a, b)),
        Operator::Div => int_div(a, b),
        Operator::Rem => int_rem(a, b),
        Operator::Shl => Ok(int_shl(a, b)),
        Operator::Shr => Ok(int_shr(a, b)),
        Operator::Ushr => Ok(int_ushr(a, b)),
    }
}

/// The result at 64 bits.
fn long_result(operator: Operator, a: i64, b: i64) -> Result<i64, DivZero> {
    match operator {
        Operator::Add => Ok(long_add(a, b)),
        Operator::Sub => Ok(long_sub(a, b)),
        Operator::Mul => Ok(long_mul(a, b)),
        Operator::Div => long_div(a, b),
        Operator::Rem => long_rem(a, b),
        Operator::Shl => Ok(long_shl(a, b)),
        Operator::Shr => Ok(long_shr(a, b)),
        Operator::Ushr => Ok(long_ushr(a, b)),
    }
}

/// The result at the given width.
fn result(width: Width, operator: Operator, a: i64, b: i64) -> Result<i64, DivZero> {
    match width {
        Width::Int => Ok(to_long(int_result(operator, to_int(a), to_int(b))?)),
        Width::Long => long_result(operator, a, b),
    }
}

/// Whether the operator has the expected result with each of the operands.
fn agrees(width: Width, operator: Operator, a: i64, operands: &[i64], wanted: &[i64]) -> bool {
    for (b, want) in operands.iter().zip(wanted) {
        if result(width, operator, a, *b) != Ok(*want) {
            return false;
        }
    }
    operands.len() == wanted.len()
}

/// Whether division and remainder by 0 are errors.
fn refuses_zero(width: Width, a: i64) -> bool {
    result(width, Operator::Div, a, 0) == Err(DivZero)
        && result(width, Operator::Rem, a, 0) == Err(DivZero)
}

/// Whether sums, differences, products, quotients and remainders are as expected, in this order, and division by 0 fails. Quotients and
/// remainders are by the operands after 0.
fn row_agrees(table: &OperatorTable, row: &OperatorRow) -> [bool; 6] {
    let OperatorTable {
        width,
        operands,
        ..
    } = table;
    let divisors = &operands[1..];
    [
        agrees(*width, Operator::Add, row.a, operands, &row.sums),
        agrees(*width, Operator::Sub, row.a, operands, &row.differences),
        agrees(*width, Operator::Mul, row.a, operands, &row.products),
        agrees(*width, Operator::Div, row.a, divisors, &row.quotients),
        agrees(*width, Operator::Rem, row.a, divisors, &row.remainders),
        refuses_zero(*width, row.a),
    ]
}

/// Whether left shifts, arithmetic right shifts and logical right shifts are as expected, in this order.
fn shifts_agree(width: Width, row: &Shifts) -> [bool; 3] {
    [
        agrees(width, Operator::Shl, row.a, &COUNTS, &row.left),
        agrees(width, Operator::Shr, row.a, &COUNTS, &row.right),
        agrees(width, Operator::Ushr, row.a, &COUNTS, &row.unsigned),
    ]
}

#[test]
fn arithmetic(rt: HostRuntime) -> Result<(), Fail> {
    for table in [&ints::TABLE, &longs::TABLE] {
        for row in &table.rows {
            assert_eq!(rt; row_agrees(table, row), [true; 6], "{}", row.a);
        }
    }
    Ok(())
}

#[test]
fn each_shift(rt: HostRuntime) -> Result<(), Fail> {
    for table in [&ints::TABLE, &longs::TABLE] {
        for row in &table.shifts {
            assert_eq!(rt; shifts_agree(table.width, row), [true; 3], "{}", row.a);
        }
    }
    Ok(())
}
