// Functions on points.

ghost use Rattle.std.specs.Prelude.{◌≡◌};

use super::spans::point;
use std::test::Fail;
use ti_base::{Point, pt_add, pt_le, pt_lex_lt, pt_lt, pt_sub};

/// Two points, and the expected results of functions on them.
struct Pair {
    a: [i32; 3],
    b: [i32; 3],
    sum: [i32; 3],
    difference: [i32; 3],
    /// Whether the first is less in all coordinates, less or equal in all, and lexicographically before the second.
    orders: (bool, bool, bool),
}

const PAIRS: [Pair; 5] = [
    Pair {
        a: [1, 2, 3],
        b: [4, 5, 6],
        sum: [5, 7, 9],
        difference: [-3, -3, -3],
        orders: (true, true, true),
    },
    Pair {
        a: [1, 2, 3],
        b: [1, 2, 3],
        sum: [2, 4, 6],
        difference: [0, 0, 0],
        orders: (false, true, false),
    },
    Pair {
        a: [1, 9, 0],
        b: [2, 0, 0],
        sum: [3, 9, 0],
        difference: [-1, 9, 0],
        orders: (false, false, true),
    },
    Pair {
        a: [1, 2, 4],
        b: [1, 2, 3],
        sum: [2, 4, 7],
        difference: [0, 0, 1],
        orders: (false, false, false),
    },
    Pair {
        a: [i32::MAX, i32::MIN, 0],
        b: [1, 1, 1],
        sum: [i32::MIN, -2147483647, 1],
        difference: [2147483646, i32::MAX, -1],
        orders: (false, false, false),
    },
];

/// The coordinates of the sum and of the difference.
fn sums(a: &Point, b: &Point) -> ([i32; 3], [i32; 3])
    requires { b.now.dim ≡ a.now.dim }
{
    let sum = pt_add(a, b);
    let difference = pt_sub(a, b);
    (
        [sum.x1, sum.x2, sum.x3],
        [difference.x1, difference.x2, difference.x3],
    )
}

/// Whether the first is less in all coordinates, less or equal in all, and lexicographically before the second.
fn orders(a: &Point, b: &Point) -> (bool, bool, bool)
    requires { b.now.dim ≡ a.now.dim }
{
    (pt_lt(a, b), pt_le(a, b), pt_lex_lt(a, b))
}

#[test]
fn sums_and_orders(rt: HostRuntime) -> Result<(), Fail> {
    for pair in &PAIRS {
        let a = point(3, pair.a[0], pair.a[1], pair.a[2]);
        let b = point(3, pair.b[0], pair.b[1], pair.b[2]);
        assert_eq!(rt; sums(&a, &b), (pair.sum, pair.difference));
        assert_eq!(rt; orders(&a, &b), pair.orders);
    }
    Ok(())
}
