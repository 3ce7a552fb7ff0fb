// Arithmetic on `long`: 64-bit two's complement, wrapping; and the conversions between `int` and `long`.
ghost use Rattle.std.specs.Prelude.{◌≡◌, ◌↔◌, pos, IfOk, IsErr};
ghost use Rattle.std.specs.Int.{w64};
ghost use Rattle.ti_base.specs.WholeNumbers as whole;

use crate::whole::DivZero;

/// `left + right` on longs, wrapping.
pub fn long_add(left: i64, right: i64) -> i64
    ensures { result ≡ whole.sum w64 left right }
{
    left.wrapping_add(right)
}

/// `left - right` on longs, wrapping.
pub fn long_sub(left: i64, right: i64) -> i64
    ensures { result ≡ whole.difference w64 left right }
{
    left.wrapping_sub(right)
}

/// `left * right` on longs, wrapping.
pub fn long_mul(left: i64, right: i64) -> i64
    ensures { result ≡ whole.product w64 left right }
{
    left.wrapping_mul(right)
}

/// `left / right` on longs, rounded toward 0; the least long divided by -1 is the least long. Error: `right` is 0.
pub fn long_div(left: i64, right: i64) -> Result<i64, DivZero>
    ensures zero { IsErr result ↔ (right ≡ pos 0) }
    ensures value { IfOk result (λ q. q ≡ whole.wrap w64 (whole.quotient left right)) }
{
    if right == 0 {
        return Err(DivZero);
    }
    Ok(left.wrapping_div(right))
}

/// `left % right` on longs: 0 or of the sign of `left`. Error: `right` is 0.
pub fn long_rem(left: i64, right: i64) -> Result<i64, DivZero>
    ensures zero { IsErr result ↔ (right ≡ pos 0) }
    ensures value { IfOk result (λ r. r ≡ whole.remainder left right) }
{
    if right == 0 {
        return Err(DivZero);
    }
    Ok(left.wrapping_rem(right))
}

/// `left << right` on longs, by the low 6 bits of `right`.
pub fn long_shl(left: i64, right: i64) -> i64
    ensures { result ≡ whole.shift_left w64 left right }
{
    left.wrapping_shl((right.cast_unsigned() % 64) as u32)
}

/// `left >> right` on longs, by the low 6 bits of `right`; an arithmetic shift.
pub fn long_shr(left: i64, right: i64) -> i64
    ensures { result ≡ whole.shift_right w64 left right }
{
    left.wrapping_shr((right.cast_unsigned() % 64) as u32)
}

/// `left >>> right` on longs, by the low 6 bits of `right`; a logical shift.
pub fn long_ushr(left: i64, right: i64) -> i64
    ensures { result ≡ whole.shift_right_unsigned w64 left right }
{
    let bits = left.cast_unsigned();
    bits.wrapping_shr((right.cast_unsigned() % 64) as u32)
        .cast_signed()
}

/// Converts an int to a long.
pub fn to_long(number: i32) -> i64
    ensures { result ≡ whole.to_long number }
{
    i64::from(number)
}

/// Converts a long to an int: its low 32 bits.
pub fn to_int(number: i64) -> i32
    ensures { result ≡ whole.to_int number }
{
    ((number.cast_unsigned() % (1 << 32)) as u32).cast_signed()
}
