// Bits and shifts of integers.

ghost use Rattle.std.specs.Prelude.{◌≡◌, ◌-ℤ◌, neg_ℤ, pos};
ghost use Rattle.std.specs.Int.{w32, w64};
ghost use Rattle.ti_base.specs.WholeNumbers.{negation, shift_count};
ghost use Rattle.ti_lang.specs.Meaning.Operands.{on_bits};
ghost use Rattle.ti_eval.specs.Operators.{bits_by, bools_by, shift_by};

use crate::kinds::{BitOp, ShiftOp};
use ti_base::{
    int_shl, int_shr, int_sub, int_ushr, long_shl, long_shr, long_sub, long_ushr, to_int,
};

/// A bitwise operator on two ints.
pub fn int_bits(operator: BitOp, left: i32, right: i32) -> i32
    ensures { result ≡ on_bits (bits_by operator) w32 left right }
{
    match operator {
        BitOp::And => left & right,
        BitOp::Or => left | right,
        BitOp::Xor => left ^ right,
    }
}

/// A bitwise operator on two longs.
pub fn long_bits(operator: BitOp, left: i64, right: i64) -> i64
    ensures { result ≡ on_bits (bits_by operator) w64 left right }
{
    match operator {
        BitOp::And => left & right,
        BitOp::Or => left | right,
        BitOp::Xor => left ^ right,
    }
}

/// A logical operator on two booleans.
pub fn bools(operator: BitOp, left: bool, right: bool) -> bool
    ensures { result ≡ bools_by operator left right }
{
    match operator {
        BitOp::And => left && right,
        BitOp::Or => left || right,
        BitOp::Xor => if left { !right } else { right },
    }
}

// A long as the shift count of an int, of which only the low 5 bits matter.
fn count_of(number: i64) -> i32
    ensures { shift_count w32 result ≡ shift_count w32 number }
{
    to_int(number)
}

/// A shift of an int.
pub fn int_shift(operator: ShiftOp, left: i32, right: i64) -> i32
    ensures { result ≡ shift_by operator w32 left right }
{
    let count = count_of(right);
    match operator {
        ShiftOp::Left => int_shl(left, count),
        ShiftOp::Right => int_shr(left, count),
        ShiftOp::Unsigned => int_ushr(left, count),
    }
}

/// A shift of a long.
pub fn long_shift(operator: ShiftOp, left: i64, right: i64) -> i64
    ensures { result ≡ shift_by operator w64 left right }
{
    match operator {
        ShiftOp::Left => long_shl(left, right),
        ShiftOp::Right => long_shr(left, right),
        ShiftOp::Unsigned => long_ushr(left, right),
    }
}

/// The negation of an int.
pub fn int_negation(number: i32) -> i32
    ensures { result ≡ negation w32 number }
{
    int_sub(0, number)
}

/// The negation of a long.
pub fn long_negation(number: i64) -> i64
    ensures { result ≡ negation w64 number }
{
    long_sub(0, number)
}

/// The complement of an int's bits.
pub fn int_complement(number: i32) -> i32
    ensures { result ≡ neg_ℤ number -ℤ pos 1 }
{
    -1 - number
}

/// The complement of a long's bits.
pub fn long_complement(number: i64) -> i64
    ensures { result ≡ neg_ℤ number -ℤ pos 1 }
{
    -1 - number
}
