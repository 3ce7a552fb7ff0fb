// Theorems on integer arithmetic, and the error of a division.
ghost use Rattle.std.specs.Prelude.{◌≡◌, ◌≢◌, ◌<◌, ℕ, ℤ, pos};
ghost use Rattle.std.specs.Int.{Width};
ghost use Rattle.ti_base.specs.WholeNumbers as whole;

/// Division by 0.
#[derive(Clone, Copy, PartialEq, Eq)]
pub struct DivZero;

/// Theorem: each integer has exactly one value of a bit width that differs from it by a multiple of two to the width, and `wrap` is it.
pub fn wraps()
    ensures some { (w : Width) (n : ℤ) → whole.IsWrapped w n (whole.wrap w n) }
    ensures only { (w : Width) (n r : ℤ) → whole.IsWrapped w n r → r ≡ whole.wrap w n }
{}

/// Theorem: each integer has exactly one quotient and remainder by each nonzero integer.
pub fn divides()
    ensures some { (a b : ℤ) → b ≢ pos 0 → whole.IsDivided a b (whole.quotient a b) (whole.remainder a b) }
    ensures only { (a b q r : ℤ) → whole.IsDivided a b q r → (q ≡ whole.quotient a b) × (r ≡ whole.remainder a b) }
{}

/// Theorem: an integer is its quotient by a positive divisor, rounded down, times the divisor, plus its residue modulo the divisor.
pub fn rounds_down()
    ensures { (n : ℤ) (d : ℕ) → 0 < d → whole.IsRoundedDown n d (whole.rounded_down n d) (whole.modulo n d) }
{}
