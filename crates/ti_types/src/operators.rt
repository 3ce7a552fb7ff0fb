// The operand and result types of operators.
ghost use Rattle.std.specs.Prelude.{◌≡◌};
ghost use Rattle.std.specs.Option.{option_map, option_or};
ghost use Rattle.ti_lang.specs.Typing.Operators.{whole_type, truth_type, point_type, rect_type, domain_type, are_references, are_comparable, are_ordered, Sum, Product, Shift, Bits, row_type, binary_type, unary_type};
ghost use Rattle.ti_lang.specs.Typing.TyRef.{ty_view};

use crate::fitting::where_true;
use ti_lang::typing::TyRef;
use ti_syntax::tree::{BinaryOperator, UnaryOperator};

fn whole_type<'p>(left: TyRef<'p>, right: TyRef<'p>) -> Option<TyRef<'p>>
    ensures { option_map ty_view result ≡ whole_type (ty_view left.entry) (ty_view right.entry) }
{
    match (left, right) {
        (TyRef::Int, TyRef::Int) => Some(TyRef::Int),
        (TyRef::Int | TyRef::Long, TyRef::Int | TyRef::Long) => Some(TyRef::Long),
        _ => None,
    }
}

fn truth_type<'p>(left: TyRef<'p>, right: TyRef<'p>) -> Option<TyRef<'p>>
    ensures { option_map ty_view result ≡ truth_type (ty_view left.entry) (ty_view right.entry) }
{
    match (left, right) {
        (TyRef::Bool, TyRef::Bool) => Some(TyRef::Bool),
        _ => None,
    }
}

fn point_type<'p>(left: TyRef<'p>, right: TyRef<'p>) -> Option<TyRef<'p>>
    ensures { option_map ty_view result ≡ point_type (ty_view left.entry) (ty_view right.entry) }
{
    match (left, right) {
        (TyRef::Pt(n), TyRef::Pt(m)) if n == m => Some(TyRef::Pt(n)),
        _ => None,
    }
}

fn rect_type<'p>(left: TyRef<'p>, right: TyRef<'p>) -> Option<TyRef<'p>>
    ensures { option_map ty_view result ≡ rect_type (ty_view left.entry) (ty_view right.entry) }
{
    match (left, right) {
        (TyRef::Rc(n), TyRef::Rc(m)) if n == m => Some(TyRef::Rc(n)),
        _ => None,
    }
}

fn domain_type<'p>(left: TyRef<'p>, right: TyRef<'p>) -> Option<TyRef<'p>>
    ensures { option_map ty_view result ≡ domain_type (ty_view left.entry) (ty_view right.entry) }
{
    match (left.domain_dim(), right.domain_dim()) {
        (Some(n), Some(m)) if n == m => Some(TyRef::Dm(n)),
        _ => None,
    }
}

fn are_references<'p>(left: TyRef<'p>, right: TyRef<'p>) -> bool
    ensures { result ≡ are_references (ty_view left.entry) (ty_view right.entry) }
{
    (left.is_reference() || left.is_null())
        && (right.is_reference() || right.is_null())
        && (left.is_null()
            || right.is_null()
            || left.with_local(false).same(right.with_local(false)))
}

fn are_comparable<'p>(left: TyRef<'p>, right: TyRef<'p>) -> bool
    ensures { result ≡ are_comparable (ty_view left.entry) (ty_view right.entry) }
{
    match (left, right) {
        (TyRef::Bool, TyRef::Bool) | (TyRef::Region, TyRef::Region) => true,
        (TyRef::Pt(n), TyRef::Pt(m)) => n == m,
        (TyRef::Rc(n), TyRef::Rc(m)) => n == m,
        (TyRef::Rc(n), TyRef::Dm(m)) => n == m,
        (TyRef::Dm(n), TyRef::Rc(m)) => n == m,
        (TyRef::Dm(n), TyRef::Dm(m)) => n == m,
        _ => left.is_whole() && right.is_whole() || are_references(left, right),
    }
}

fn are_ordered(left: TyRef, right: TyRef) -> bool
    ensures { result ≡ are_ordered (ty_view left.entry) (ty_view right.entry) }
{
    match (left, right) {
        (TyRef::Pt(n), TyRef::Pt(m)) => n == m,
        _ => left.is_whole() && right.is_whole(),
    }
}

fn either_type<'p>(left: Option<TyRef<'p>>, right: Option<TyRef<'p>>) -> Option<TyRef<'p>>
    ensures { option_map ty_view result ≡ option_or (option_map ty_view left.entry) (option_map ty_view right.entry) }
{
    match left {
        Some(left) => Some(left),
        None => right,
    }
}

// The result type of `+` and `-`.
fn sum_type<'p>(left: TyRef<'p>, right: TyRef<'p>) -> Option<TyRef<'p>>
    ensures { option_map ty_view result ≡ row_type Sum (ty_view left.entry) (ty_view right.entry) }
{
    let others = either_type(point_type(left, right), domain_type(left, right));
    either_type(whole_type(left, right), others)
}

// The result type of `*`.
fn product_type<'p>(left: TyRef<'p>, right: TyRef<'p>) -> Option<TyRef<'p>>
    ensures { option_map ty_view result ≡ row_type Product (ty_view left.entry) (ty_view right.entry) }
{
    let others = either_type(rect_type(left, right), domain_type(left, right));
    either_type(whole_type(left, right), others)
}

// The result type of a shift.
fn shift_type<'p>(left: TyRef<'p>, right: TyRef<'p>) -> Option<TyRef<'p>>
    ensures { option_map ty_view result ≡ row_type Shift (ty_view left.entry) (ty_view right.entry) }
{
    where_true(left.is_whole() && right.is_whole(), left)
}

// The result type of `&`, `|` and `^`.
fn bits_type<'p>(left: TyRef<'p>, right: TyRef<'p>) -> Option<TyRef<'p>>
    ensures { option_map ty_view result ≡ row_type Bits (ty_view left.entry) (ty_view right.entry) }
{
    either_type(whole_type(left, right), truth_type(left, right))
}

/// The result type of a binary operator, if it accepts these operands.
pub fn binary_type<'p>(
    operator: BinaryOperator,
    left: TyRef<'p>,
    right: TyRef<'p>,
) -> Option<TyRef<'p>>
    ensures { option_map ty_view result ≡ binary_type operator (ty_view left.entry) (ty_view right.entry) }
{
    match operator {
        BinaryOperator::Add | BinaryOperator::Subtract => sum_type(left, right),
        BinaryOperator::Multiply => product_type(left, right),
        BinaryOperator::Divide | BinaryOperator::Remainder => whole_type(left, right),
        BinaryOperator::ShiftLeft
        | BinaryOperator::ShiftRight
        | BinaryOperator::UnsignedShiftRight => shift_type(left, right),
        BinaryOperator::Or | BinaryOperator::Xor | BinaryOperator::And => bits_type(left, right),
        BinaryOperator::OrElse | BinaryOperator::AndThen => truth_type(left, right),
        BinaryOperator::Less
        | BinaryOperator::LessEqual
        | BinaryOperator::Greater
        | BinaryOperator::GreaterEqual => where_true(are_ordered(left, right), TyRef::Bool),
        BinaryOperator::Equal | BinaryOperator::NotEqual => where_true(
            are_comparable(left, right),
            TyRef::Bool,
        ),
    }
}

/// The result type of a unary operator, if it accepts this operand.
pub fn unary_type<'p>(operator: UnaryOperator, operand: TyRef<'p>) -> Option<TyRef<'p>>
    ensures { option_map ty_view result ≡ unary_type operator (ty_view operand.entry) }
{
    match operator {
        UnaryOperator::Not => match operand {
            TyRef::Bool => Some(TyRef::Bool),
            _ => None,
        },
        UnaryOperator::Minus | UnaryOperator::Plus | UnaryOperator::Complement => {
            if operand.is_whole() {
                Some(operand)
            } else {
                None
            }
        }
    }
}
