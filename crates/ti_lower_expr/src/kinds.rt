// Which instruction an operator or a member becomes, and what is statically known of its result: a conversion that can't change the value
// is left out.

ghost use Rattle.std.specs.Prelude.{◌≡◌, option_map, Some};
ghost use Rattle.ti_syntax.specs.declared.tree.exprs.BinaryOperator.TheVariants as op;
ghost use Rattle.ti_lang.specs.Program.Views.{value_type_of, declared_of};
ghost use Rattle.ti_lang.specs.Typing.Kinds.{is_point_type as is_point_spec};
ghost use Rattle.ti_lang.specs.Typing.TyRef.{ty_view, built_in_of};
ghost use Rattle.ti_lower_expr.specs.Coding as coding;
ghost use Rattle.ti_lower_expr.specs.Knowing as knowing;

use ti_code::{Operation, ValueMember};
use ti_lang::program::{Declared, Ty};
use ti_lang::tree::{BinaryOperator, UnaryOperator};
use ti_lang::typing::{BuiltIn, TyRef};

/// The kind of a type, as far as the names of operators depend on it.
#[derive(Clone, Copy)]
pub enum OperandClass {
    Numbers,
    Points,
    Rects,
    Domains,
}

/// What is statically known of a value: that it is already an int, a long, an object or a grid, so that a conversion to this is idle.
#[derive(Clone, Copy)]
pub enum StaticRepr {
    Int,
    Long,
    Object,
    Grid,
    Other,
}

/// Whether an operator is short-circuit, and for which value of the left operand the right one isn't evaluated.
#[derive(Clone, Copy)]
pub enum ShortCircuit {
    Never,
    Where(bool),
}

/// Whether an operator is short-circuit: `||` and `&&` are.
pub fn short_circuit_of(operator: BinaryOperator) -> ShortCircuit
    ensures { result ≡ coding.short_circuit_of operator }
{
    match operator {
        BinaryOperator::OrElse => ShortCircuit::Where(true),
        BinaryOperator::AndThen => ShortCircuit::Where(false),
        BinaryOperator::Add
        | BinaryOperator::Subtract
        | BinaryOperator::Multiply
        | BinaryOperator::Divide
        | BinaryOperator::Remainder
        | BinaryOperator::ShiftLeft
        | BinaryOperator::ShiftRight
        | BinaryOperator::UnsignedShiftRight
        | BinaryOperator::And
        | BinaryOperator::Or
        | BinaryOperator::Xor
        | BinaryOperator::Equal
        | BinaryOperator::NotEqual
        | BinaryOperator::Less
        | BinaryOperator::LessEqual
        | BinaryOperator::Greater
        | BinaryOperator::GreaterEqual => ShortCircuit::Never,
    }
}

/// The kind of a type.
pub fn kind_of_seen(ty: TyRef) -> OperandClass
    ensures { result ≡ coding.kind_of_type (ty_view ty.entry) }
{
    match ty {
        TyRef::Pt(_) => OperandClass::Points,
        TyRef::Rc(_) => OperandClass::Rects,
        TyRef::Dm(_) => OperandClass::Domains,
        _ => OperandClass::Numbers,
    }
}

// The name of `+`.
fn sum_name(left: OperandClass) -> Operation
    ensures { (right : OperandClass) → result ≡ coding.operation op.Add left right }
{
    match left {
        OperandClass::Numbers => Operation::Add,
        OperandClass::Points => Operation::PtAdd,
        OperandClass::Rects => Operation::DomUnion,
        OperandClass::Domains => Operation::DomUnion,
    }
}

// The name of `-`.
fn difference_name(left: OperandClass) -> Operation
    ensures { (right : OperandClass) → result ≡ coding.operation op.Subtract left right }
{
    match left {
        OperandClass::Numbers => Operation::Sub,
        OperandClass::Points => Operation::PtSub,
        OperandClass::Rects => Operation::DomMinus,
        OperandClass::Domains => Operation::DomMinus,
    }
}

// The name of `*`.
fn product_name(left: OperandClass, right: OperandClass) -> Operation
    ensures { result ≡ coding.operation op.Multiply left right }
{
    match left {
        OperandClass::Numbers => Operation::Mul,
        OperandClass::Points => Operation::Mul,
        OperandClass::Rects => match right {
            OperandClass::Numbers => Operation::DomMeet,
            OperandClass::Points => Operation::DomMeet,
            OperandClass::Rects => Operation::RectMeet,
            OperandClass::Domains => Operation::DomMeet,
        },
        OperandClass::Domains => Operation::DomMeet,
    }
}

/// The name of an operator for operands of these kinds.
pub fn operation_of(operator: BinaryOperator, left: OperandClass, right: OperandClass) -> Operation
    ensures { result ≡ coding.operation operator left right }
{
    match operator {
        BinaryOperator::Add => sum_name(left),
        BinaryOperator::Subtract => difference_name(left),
        BinaryOperator::Multiply => product_name(left, right),
        BinaryOperator::Divide => Operation::Div,
        BinaryOperator::Remainder => Operation::Rem,
        BinaryOperator::ShiftLeft => Operation::Shl,
        BinaryOperator::ShiftRight => Operation::Shr,
        BinaryOperator::UnsignedShiftRight => Operation::Ushr,
        BinaryOperator::And => Operation::And,
        BinaryOperator::Or => Operation::Or,
        BinaryOperator::Xor => Operation::Xor,
        BinaryOperator::Equal => Operation::Eq,
        BinaryOperator::NotEqual => Operation::Ne,
        BinaryOperator::Less => Operation::Lt,
        BinaryOperator::LessEqual => Operation::Le,
        BinaryOperator::Greater => Operation::Gt,
        BinaryOperator::GreaterEqual => Operation::Ge,
        BinaryOperator::AndThen => Operation::AndThen,
        BinaryOperator::OrElse => Operation::OrElse,
    }
}

// The built-in member as an instruction knows it, if it has a value.
fn member_instr(member: BuiltIn) -> Option<ValueMember>
    ensures { result ≡ coding.member_kind (built_in_of member) }
{
    match member {
        BuiltIn::Size => Some(ValueMember::Size),
        BuiltIn::Min => Some(ValueMember::Min),
        BuiltIn::Max => Some(ValueMember::Max),
        BuiltIn::Contains => Some(ValueMember::Contains),
        BuiltIn::Domain => Some(ValueMember::DomainOf),
        BuiltIn::Restrict => Some(ValueMember::Restrict),
        BuiltIn::Translate => Some(ValueMember::Translate),
        BuiltIn::Slice => Some(ValueMember::Slice),
        BuiltIn::Copy => None,
        BuiltIn::Exchange => None,
        BuiltIn::Delete => None,
    }
}

/// The called member as an instruction knows it, if there is one and it has a value.
pub fn shown_member(called: Option<BuiltIn>) -> Option<ValueMember>
    ensures { result ≡ coding.shown_member (option_map built_in_of called) }
{
    match called {
        Some(b) => member_instr(b),
        None => None,
    }
}

// ---- what is statically known of values

/// What is known of each value that has been converted to a type.
pub fn known_of_type(ty: &Ty) -> StaticRepr
    ensures { result ≡ knowing.known_of_type (value_type_of ty.now) }
{
    match ty {
        Ty::Int => StaticRepr::Int,
        Ty::Long => StaticRepr::Long,
        Ty::Class { class: _, local: _ } => StaticRepr::Object,
        Ty::Grid {
            elem: _,
            dim: _,
            local: _,
        } => StaticRepr::Grid,
        Ty::Bool => StaticRepr::Other,
        Ty::Pt(_) => StaticRepr::Other,
        Ty::Rc(_) => StaticRepr::Other,
        Ty::Dm(_) => StaticRepr::Other,
        Ty::Region => StaticRepr::Other,
        Ty::Null => StaticRepr::Other,
        Ty::Void => StaticRepr::Other,
    }
}

/// What is known of each value of a variable with this declaration.
pub fn known_declared(declared: &Declared) -> StaticRepr
    ensures { result ≡ knowing.known_declared (declared_of declared.now) }
{
    match declared {
        Declared::Typed { single: _, ty } => known_of_type(ty),
        Declared::Foreach => StaticRepr::Other,
    }
}

// The result of an operator that yields a long only if its operand is one.
fn narrow(known: StaticRepr) -> StaticRepr
    ensures { result ≡ knowing.narrow_known known }
{
    match known {
        StaticRepr::Int => StaticRepr::Int,
        StaticRepr::Long | StaticRepr::Object | StaticRepr::Grid | StaticRepr::Other =>
            StaticRepr::Other,
    }
}

// The result of an operator that yields a long if an operand is one.
fn joined_repr(left: StaticRepr, right: StaticRepr) -> StaticRepr
    ensures { result ≡ knowing.joined_known left right }
{
    match left {
        StaticRepr::Long => StaticRepr::Long,
        StaticRepr::Int => match right {
            StaticRepr::Int => StaticRepr::Int,
            StaticRepr::Long => StaticRepr::Long,
            StaticRepr::Object | StaticRepr::Grid | StaticRepr::Other => StaticRepr::Other,
        },
        StaticRepr::Object | StaticRepr::Grid | StaticRepr::Other => match right {
            StaticRepr::Long => StaticRepr::Long,
            StaticRepr::Int | StaticRepr::Object | StaticRepr::Grid | StaticRepr::Other =>
                StaticRepr::Other,
        },
    }
}

/// What is known of the result of a binary operator.
pub fn known_of_binary(operator: BinaryOperator, left: StaticRepr, right: StaticRepr) -> StaticRepr
    ensures { result ≡ knowing.operated_known operator left right }
{
    match operator {
        BinaryOperator::Add
        | BinaryOperator::Subtract
        | BinaryOperator::Multiply
        | BinaryOperator::Divide
        | BinaryOperator::Remainder
        | BinaryOperator::And
        | BinaryOperator::Or
        | BinaryOperator::Xor => joined_repr(left, right),
        BinaryOperator::ShiftLeft
        | BinaryOperator::ShiftRight
        | BinaryOperator::UnsignedShiftRight => narrow(left),
        BinaryOperator::Equal
        | BinaryOperator::NotEqual
        | BinaryOperator::Less
        | BinaryOperator::LessEqual
        | BinaryOperator::Greater
        | BinaryOperator::GreaterEqual
        | BinaryOperator::AndThen
        | BinaryOperator::OrElse => StaticRepr::Other,
    }
}

/// What is known of the result of a unary operator.
pub fn known_of_unary(operator: UnaryOperator, known: StaticRepr) -> StaticRepr
    ensures { result ≡ knowing.unary_known operator known }
{
    match operator {
        UnaryOperator::Minus | UnaryOperator::Complement => narrow(known),
        UnaryOperator::Plus => known,
        UnaryOperator::Not => StaticRepr::Other,
    }
}

// What is known of the value of a built-in member.
fn known_built_in(member: BuiltIn) -> StaticRepr
    ensures { result ≡ knowing.member_known (Some (built_in_of member)) }
{
    match member {
        BuiltIn::Size => StaticRepr::Int,
        BuiltIn::Min
        | BuiltIn::Max
        | BuiltIn::Contains
        | BuiltIn::Domain
        | BuiltIn::Restrict
        | BuiltIn::Translate
        | BuiltIn::Slice
        | BuiltIn::Copy
        | BuiltIn::Exchange
        | BuiltIn::Delete => StaticRepr::Other,
    }
}

/// What is known of the value of a called member, if there is one.
pub fn known_member(called: Option<BuiltIn>) -> StaticRepr
    ensures { result ≡ knowing.member_known (option_map built_in_of called) }
{
    match called {
        Some(b) => known_built_in(b),
        None => StaticRepr::Other,
    }
}

/// What is known of an indexed value: a coordinate of a point, or an element of a grid.
pub fn known_indexed(is_point: bool) -> StaticRepr
    ensures { result ≡ knowing.index_known is_point }
{
    if is_point {
        StaticRepr::Int
    } else {
        StaticRepr::Other
    }
}

/// Whether the type is that of a point.
pub fn is_point(ty: TyRef) -> bool
    ensures { result ≡ is_point_spec (ty_view ty.entry) }
{
    match ty {
        TyRef::Pt(_) => true,
        _ => false,
    }
}
