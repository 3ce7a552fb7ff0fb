// Arithmetic on `int`: 32-bit two's complement, wrapping.
ghost use Rattle.std.specs.Prelude.{◌≡◌, ◌↔◌, pos, IfOk, IsErr};
ghost use Rattle.std.specs.Int.{w32};
ghost use Rattle.ti_base.specs.WholeNumbers as whole;

use crate::whole::DivZero;

/// `left + right` on ints, wrapping.
pub fn int_add(left: i32, right: i32) -> i32
    ensures { result ≡ whole.sum w32 left right }
{
    left.wrapping_add(right)
}

/// `left - right` on ints, wrapping.
pub fn int_sub(left: i32, right: i32) -> i32
    ensures { result ≡ whole.difference w32 left right }
{
    left.wrapping_sub(right)
}

/// `left * right` on ints, wrapping.
pub fn int_mul(left: i32, right: i32) -> i32
    ensures { result ≡ whole.product w32 left right }
{
    left.wrapping_mul(right)
}

/// `left / right` on ints, rounded toward 0; the least int divided by -1 is the least int. Error: `right` is 0.
pub fn int_div(left: i32, right: i32) -> Result<i32, DivZero>
    ensures zero { IsErr result ↔ (right ≡ pos 0) }
    ensures value { IfOk result (λ q. q ≡ whole.wrap w32 (whole.quotient left right)) }
{
    if right == 0 {
        return Err(DivZero);
    }
    Ok(left.wrapping_div(right))
}

/// `left % right` on ints: 0 or of the sign of `left`. Error: `right` is 0.
pub fn int_rem(left: i32, right: i32) -> Result<i32, DivZero>
    ensures zero { IsErr result ↔ (right ≡ pos 0) }
    ensures value { IfOk result (λ r. r ≡ whole.remainder left right) }
{
    if right == 0 {
        return Err(DivZero);
    }
    Ok(left.wrapping_rem(right))
}

/// `left << right` on ints, by the low 5 bits of `right`.
pub fn int_shl(left: i32, right: i32) -> i32
    ensures { result ≡ whole.shift_left w32 left right }
{
    left.wrapping_shl(right.cast_unsigned())
}

/// `left >> right` on ints, by the low 5 bits of `right`; an arithmetic shift.
pub fn int_shr(left: i32, right: i32) -> i32
    ensures { result ≡ whole.shift_right w32 left right }
{
    left.wrapping_shr(right.cast_unsigned())
}

/// `left >>> right` on ints, by the low 5 bits of `right`; a logical shift.
pub fn int_ushr(left: i32, right: i32) -> i32
    ensures { result ≡ whole.shift_right_unsigned w32 left right }
{
    let bits = left.cast_unsigned();
    bits.wrapping_shr(right.cast_unsigned()).cast_signed()
}
