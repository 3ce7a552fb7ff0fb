// The operators on the values of their operands.

ghost use Rattle.std.specs.Prelude.{◌≡◌, ℤ};
ghost use Rattle.std.specs.Int.{Width};
ghost use Rattle.ti_base.specs.WholeNumbers.{wrap, quotient, remainder};
ghost use Rattle.ti_syntax.specs.declared.tree.exprs.BinaryOperator.TheVariants.{OrElse, AndThen, Equal, NotEqual};
ghost use Rattle.ti_syntax.specs.declared.tree.exprs.UnaryOperator.TheVariants.{Plus};
ghost use Rattle.ti_lang.specs.Meaning.Operands as seen;
ghost use Rattle.ti_lang.specs.Meaning.Operators as ops;
ghost use Rattle.ti_eval.specs.Comes.{Comes};
ghost use Rattle.ti_eval.specs.Operators.{bits_by, bools_by, shift_by};

use crate::canonical_answer::{CanonicalAnswer, Evaluated};
use crate::comparisons::{compare, equal};
use crate::interrupt::Interrupt;
use crate::kinds::{BitOp, CmpOp, SetOp, ShiftOp};
use crate::numbers::{
    bools, int_bits, int_complement, int_negation, int_shift, long_bits, long_complement,
    long_negation, long_shift,
};
use crate::operand_pair::operands;
use crate::pairs::Operands;
use crate::sets::of_domains;
use crate::var_value::VarValue;
use std::alloc::Global;
use ti_base::{
    FaultKind, Place, Value, int_add, int_div, int_mul, int_rem, int_sub, long_add, long_div,
    long_mul, long_rem, long_sub, pt_add, pt_sub,
};
use ti_domain::Held;
use ti_lang::tree::{BinaryOperator, UnaryOperator};
use ti_rect::rect_meet;

/// The result of `&&` or `||` if the left operand determines it.
pub fn short_circuit(operator: BinaryOperator, left: &VarValue) -> Option<VarValue>
    ensures { result ≡ ops.short_circuit operator left.now }
{
    match operator {
        BinaryOperator::OrElse => if left.is_true() {
            Some(VarValue::boolean(true))
        } else {
            None
        },
        BinaryOperator::AndThen => if left.is_true() {
            None
        } else {
            Some(VarValue::boolean(false))
        },
        _ => None,
    }
}

// `left + right`: a sum, or a union.
#[tactic(auto, using(crate::proofs::Points::points))]
fn apply_add<'a>(
    alloc: Global,
    place: Place,
    left: &VarValue,
    right: &VarValue,
    answers: &'a [CanonicalAnswer],
) -> Evaluated<'a, VarValue>
    ensures { Comes result (ops.add_values place left.now right.now (seen.operands left.now right.now) answers.now) }
{
    match operands(left, right) {
        Operands::Ints(a, b) => Ok((VarValue::plain(Value::Int(int_add(a, b))), answers)),
        Operands::Longs(a, b) => Ok((VarValue::plain(Value::Long(long_add(a, b))), answers)),
        Operands::Points(p, q) => Ok((VarValue::plain(Value::Pt(pt_add(&p, &q))), answers)),
        Operands::Rects(_, _) => of_domains(alloc, place, SetOp::Union, left, right, answers),
        Operands::Domains => of_domains(alloc, place, SetOp::Union, left, right, answers),
        _ => Ok((VarValue::boolean(false), answers)),
    }
}

// `left - right`: a difference, of numbers, points or sets.
#[tactic(auto, using(crate::proofs::Points::points))]
fn apply_subtract<'a>(
    alloc: Global,
    place: Place,
    left: &VarValue,
    right: &VarValue,
    answers: &'a [CanonicalAnswer],
) -> Evaluated<'a, VarValue>
    ensures { Comes result (ops.subtract_values place left.now right.now (seen.operands left.now right.now) answers.now) }
{
    match operands(left, right) {
        Operands::Ints(a, b) => Ok((VarValue::plain(Value::Int(int_sub(a, b))), answers)),
        Operands::Longs(a, b) => Ok((VarValue::plain(Value::Long(long_sub(a, b))), answers)),
        Operands::Points(p, q) => Ok((VarValue::plain(Value::Pt(pt_sub(&p, &q))), answers)),
        Operands::Rects(_, _) => of_domains(alloc, place, SetOp::Difference, left, right, answers),
        Operands::Domains => of_domains(alloc, place, SetOp::Difference, left, right, answers),
        _ => Ok((VarValue::boolean(false), answers)),
    }
}

// `left * right`: a product, or an intersection.
fn apply_multiply<'a>(
    alloc: Global,
    place: Place,
    left: &VarValue,
    right: &VarValue,
    answers: &'a [CanonicalAnswer],
) -> Evaluated<'a, VarValue>
    ensures { Comes result (ops.multiply_values place left.now right.now (seen.operands left.now right.now) answers.now) }
{
    match operands(left, right) {
        Operands::Ints(a, b) => Ok((VarValue::plain(Value::Int(int_mul(a, b))), answers)),
        Operands::Longs(a, b) => Ok((VarValue::plain(Value::Long(long_mul(a, b))), answers)),
        Operands::Rects(r, s) => Ok((VarValue::plain(Value::Rc(rect_meet(&r, &s))), answers)),
        Operands::Domains => of_domains(alloc, place, SetOp::Intersection, left, right, answers),
        _ => Ok((VarValue::boolean(false), answers)),
    }
}

// `left / right`
fn apply_divide<'a>(
    place: Place,
    left: &VarValue,
    right: &VarValue,
    answers: &'a [CanonicalAnswer],
) -> Evaluated<'a, VarValue>
    ensures { Comes result (ops.divide_values (λ (w : Width) (a b : ℤ). wrap w (quotient a b)) place (seen.operands left.now right.now) answers.now) }
{
    match operands(left, right) {
        Operands::Ints(a, b) => match int_div(a, b) {
            Ok(q) => Ok((VarValue::plain(Value::Int(q)), answers)),
            Err(_) => Err(Interrupt::Fault(FaultKind::DivZero, place)),
        },
        Operands::Longs(a, b) => match long_div(a, b) {
            Ok(q) => Ok((VarValue::plain(Value::Long(q)), answers)),
            Err(_) => Err(Interrupt::Fault(FaultKind::DivZero, place)),
        },
        _ => Ok((VarValue::boolean(false), answers)),
    }
}

// `left % right`
fn apply_remainder<'a>(
    place: Place,
    left: &VarValue,
    right: &VarValue,
    answers: &'a [CanonicalAnswer],
) -> Evaluated<'a, VarValue>
    ensures { Comes result (ops.divide_values (λ (w : Width) (a b : ℤ). remainder a b) place (seen.operands left.now right.now) answers.now) }
{
    match operands(left, right) {
        Operands::Ints(a, b) => match int_rem(a, b) {
            Ok(r) => Ok((VarValue::plain(Value::Int(r)), answers)),
            Err(_) => Err(Interrupt::Fault(FaultKind::DivZero, place)),
        },
        Operands::Longs(a, b) => match long_rem(a, b) {
            Ok(r) => Ok((VarValue::plain(Value::Long(r)), answers)),
            Err(_) => Err(Interrupt::Fault(FaultKind::DivZero, place)),
        },
        _ => Ok((VarValue::boolean(false), answers)),
    }
}

// A bitwise operator on numbers, or a logical one on booleans.
fn apply_bits(operator: BitOp, left: &VarValue, right: &VarValue) -> VarValue
    ensures { result ≡ ops.bitwise_values (bits_by operator) (bools_by operator) (seen.operands left.now right.now) }
{
    match operands(left, right) {
        Operands::Ints(a, b) => VarValue::plain(Value::Int(int_bits(operator, a, b))),
        Operands::Longs(a, b) => VarValue::plain(Value::Long(long_bits(operator, a, b))),
        Operands::Bools(a, b) => VarValue::boolean(bools(operator, a, b)),
        _ => VarValue::boolean(false),
    }
}

// A shift, which has the type of its left operand.
fn apply_shift(operator: ShiftOp, left: &VarValue, right: &VarValue) -> VarValue
    ensures { result ≡ ops.shift_value (shift_by operator) left.now right.now }
{
    match &left.kept {
        Held::Plain(Value::Int(a)) => VarValue::plain(Value::Int(int_shift(
            operator,
            *a,
            right.integer(),
        ))),
        Held::Plain(Value::Long(a)) => VarValue::plain(Value::Long(long_shift(
            operator,
            *a,
            right.integer(),
        ))),
        _ => VarValue::plain(Value::Int(int_shift(operator, 0, right.integer()))),
    }
}

// A unary operator other than `+`.
fn apply_other_unary(operator: UnaryOperator, value: &VarValue) -> VarValue
    requires { operator ≡ Plus → ⊥ }
    ensures { result ≡ ops.operated_alone operator value.now }
{
    match operator {
        UnaryOperator::Plus => unreachable!(),
        UnaryOperator::Not => VarValue::boolean(!value.is_true()),
        UnaryOperator::Minus => match &value.kept {
            Held::Plain(Value::Int(n)) => VarValue::plain(Value::Int(int_negation(*n))),
            Held::Plain(Value::Long(n)) => VarValue::plain(Value::Long(long_negation(*n))),
            _ => VarValue::plain(Value::Int(int_negation(0))),
        },
        UnaryOperator::Complement => match &value.kept {
            Held::Plain(Value::Int(n)) => VarValue::plain(Value::Int(int_complement(*n))),
            Held::Plain(Value::Long(n)) => VarValue::plain(Value::Long(long_complement(*n))),
            _ => VarValue::plain(Value::Int(int_complement(0))),
        },
    }
}

/// A unary operator.
pub fn apply_unary(operator: UnaryOperator, value: VarValue) -> VarValue
    ensures { result ≡ ops.operated_alone operator value }
{
    match operator {
        UnaryOperator::Plus => value,
        _ => apply_other_unary(operator, &value),
    }
}

// `left == right`
#[tactic(auto, using(crate::proofs::Steps::steps))]
fn equality<'a>(
    alloc: Global,
    place: Place,
    left: &VarValue,
    right: &VarValue,
    answers: &'a [CanonicalAnswer],
) -> Evaluated<'a, VarValue>
    ensures { Comes result (ops.apply_binary place Equal left.now right.now answers.now) }
{
    let (same, answers) = equal(alloc, place, left, right, answers)?;
    Ok((VarValue::boolean(same), answers))
}

// `left != right`
#[tactic(auto, using(crate::proofs::Steps::steps))]
fn inequality<'a>(
    alloc: Global,
    place: Place,
    left: &VarValue,
    right: &VarValue,
    answers: &'a [CanonicalAnswer],
) -> Evaluated<'a, VarValue>
    ensures { Comes result (ops.apply_binary place NotEqual left.now right.now answers.now) }
{
    let (same, answers) = equal(alloc, place, left, right, answers)?;
    Ok((VarValue::boolean(!same), answers))
}

// A binary operator other than `&&` and `||`.
fn apply_strict<'a>(
    alloc: Global,
    place: Place,
    operator: BinaryOperator,
    left: &VarValue,
    right: &VarValue,
    answers: &'a [CanonicalAnswer],
) -> Evaluated<'a, VarValue>
    requires or_else { operator ≡ OrElse → ⊥ }
    requires and_then { operator ≡ AndThen → ⊥ }
    ensures { Comes result (ops.apply_binary place operator left.now right.now answers.now) }
{
    match operator {
        BinaryOperator::OrElse => unreachable!(),
        BinaryOperator::AndThen => unreachable!(),
        BinaryOperator::Or => Ok((apply_bits(BitOp::Or, left, right), answers)),
        BinaryOperator::Xor => Ok((apply_bits(BitOp::Xor, left, right), answers)),
        BinaryOperator::And => Ok((apply_bits(BitOp::And, left, right), answers)),
        BinaryOperator::Equal => equality(alloc, place, left, right, answers),
        BinaryOperator::NotEqual => inequality(alloc, place, left, right, answers),
        BinaryOperator::Less => Ok((compare(CmpOp::Less, left, right), answers)),
        BinaryOperator::LessEqual => Ok((compare(CmpOp::LessEqual, left, right), answers)),
        BinaryOperator::Greater => Ok((compare(CmpOp::Greater, left, right), answers)),
        BinaryOperator::GreaterEqual => Ok((compare(CmpOp::GreaterEqual, left, right), answers)),
        BinaryOperator::ShiftLeft => Ok((apply_shift(ShiftOp::Left, left, right), answers)),
        BinaryOperator::ShiftRight => Ok((apply_shift(ShiftOp::Right, left, right), answers)),
        BinaryOperator::UnsignedShiftRight => Ok((
            apply_shift(ShiftOp::Unsigned, left, right),
            answers,
        )),
        BinaryOperator::Add => apply_add(alloc, place, left, right, answers),
        BinaryOperator::Subtract => apply_subtract(alloc, place, left, right, answers),
        BinaryOperator::Multiply => apply_multiply(alloc, place, left, right, answers),
        BinaryOperator::Divide => apply_divide(place, left, right, answers),
        BinaryOperator::Remainder => apply_remainder(place, left, right, answers),
    }
}

/// A binary operator. The result of `&&` and `||`, if both operands are evaluated, is the right one.
pub fn apply_binary<'a>(
    alloc: Global,
    place: Place,
    operator: BinaryOperator,
    left: &VarValue,
    right: VarValue,
    answers: &'a [CanonicalAnswer],
) -> Evaluated<'a, VarValue>
    ensures { Comes result (ops.apply_binary place operator left.now right answers.now) }
{
    match operator {
        BinaryOperator::OrElse => Ok((right, answers)),
        BinaryOperator::AndThen => Ok((right, answers)),
        _ => apply_strict(alloc, place, operator, left, &right, answers),
    }
}
