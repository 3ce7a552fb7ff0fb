// Static types of expressions without checking: meaningful only in a program that breaks no typing rule.
ghost use Rattle.std.specs.Prelude.{◌≡◌, map, reverse};
ghost use Rattle.std.specs.Option.{option_map, option_map_or, unwrap_or};
ghost use Rattle.ti_lang.specs.Program.Types.{Void};
ghost use Rattle.ti_lang.specs.Program.Expressions.{numbered_exps, numbered_ranges};
ghost use Rattle.ti_lang.specs.Program.Views.{program_of, expression_of, bound_of, variable_of, numbered_method_of};
ghost use Rattle.ti_lang.specs.Typing.Kinds.{dim_of_type};
ghost use Rattle.ti_lang.specs.Typing.Declared.{result_type};
ghost use Rattle.ti_lang.specs.Typing.TyRef.{ty_view, built_in_of};
ghost use Rattle.ti_lang.specs.Mirrors.ListedDims.{dims_in};
ghost use Rattle.ti_lang.specs.Typing.TextTypes.{used_type, joined_type, product_type, operator_type, static_field_type, static_element_type, slice_type, how_many, built_in_type, static_member_type, dims_of_range, dims_of_ranges, type_at, syntactic_type};
ghost use Rattle.ti_lang.specs.Typing.Called.{called_method, member_called};

use super::lookup::{
    instance_method, method, method_behind, named_field_type, own_field_type, this_type,
};
use super::members::{BuiltIn, built_in};
use super::ty_ref::TyRef;
use crate::program::{Declared, Expr, Method, ProgramData, Range, ResultType, Variable};
use ti_syntax::tree::BinaryOperator;

// ---- names

/// The number of dimensions of a foreach variable.
#[derive(Clone, Copy)]
pub struct ForeachDims {
    pub variable: u32,
    pub dims: usize,
}

// The number of dimensions of a foreach variable, by its last entry in the list; 1 if it has none.
fn dims_among(dims: &[ForeachDims], variable: u32) -> usize
    ensures { result ≡ dims_in (reverse dims.now) variable }
{
    let mut found = 1;
    for d in dims {
        if d.variable == variable {
            found = d.dims;
        }
    }
    found
}

// The type of a variable: the declared one; that of a foreach variable is a point.
fn used_type<'p>(variable: &'p Variable, dims: &[ForeachDims]) -> TyRef<'p>
    ensures { ty_view result ≡ used_type (dims_in (reverse dims.now)) (variable_of variable.now).number (variable_of variable.now).declared }
{
    match &variable.declared {
        Declared::Typed { single: _, ty } => TyRef::of(ty, false),
        Declared::Foreach => TyRef::Pt(dims_among(dims, variable.number)),
    }
}

// The type, or `Void` if there is none.
fn or_void<'p>(ty: Option<TyRef<'p>>) -> TyRef<'p>
    ensures { ty_view result ≡ unwrap_or (option_map ty_view ty.entry) Void }
{
    match ty {
        Some(ty) => ty,
        None => TyRef::Void,
    }
}

// The result type of a method; `Void` if there is none.
fn result_of<'p>(callee: Option<&'p Method>) -> TyRef<'p>
    ensures { ty_view result ≡ option_map_or result_type (option_map (λ callee. numbered_method_of callee.now) callee.entry) Void }
{
    match callee {
        Some(callee) => match &callee.result {
            ResultType::Void => TyRef::Void,
            ResultType::Typed(t) => TyRef::of(&t.ty, false),
        },
        None => TyRef::Void,
    }
}

// ---- operators

// The common type of two operands: an int with a long is a long, a rectangular domain with any domain is a domain.
fn common_type<'p>(left: TyRef<'p>, right: TyRef<'p>) -> TyRef<'p>
    ensures { ty_view result ≡ joined_type (ty_view left.entry) (ty_view right.entry) }
{
    match (left, right) {
        (TyRef::Int, TyRef::Long) => TyRef::Long,
        (TyRef::Rc(n), _) => TyRef::Dm(n),
        _ => left,
    }
}

// The type of a product: the intersection of two rectangular domains is rectangular.
fn product<'p>(left: TyRef<'p>, right: TyRef<'p>) -> TyRef<'p>
    ensures { ty_view result ≡ product_type (ty_view left.entry) (ty_view right.entry) }
{
    match (left, right) {
        (TyRef::Rc(n), TyRef::Rc(_)) => TyRef::Rc(n),
        _ => common_type(left, right),
    }
}

/// The result type of an operator on operands of these types, without checking them: of a shift, the type of its left operand; of a
/// comparison, boolean.
pub fn operator_type<'p>(operator: BinaryOperator, left: TyRef<'p>, right: TyRef<'p>) -> TyRef<'p>
    ensures { ty_view result ≡ operator_type operator (ty_view left.entry) (ty_view right.entry) }
{
    match operator {
        BinaryOperator::Add
        | BinaryOperator::Subtract
        | BinaryOperator::Divide
        | BinaryOperator::Remainder
        | BinaryOperator::And
        | BinaryOperator::Or
        | BinaryOperator::Xor => common_type(left, right),
        BinaryOperator::Multiply => product(left, right),
        BinaryOperator::ShiftLeft
        | BinaryOperator::ShiftRight
        | BinaryOperator::UnsignedShiftRight => left,
        _ => TyRef::Bool,
    }
}

// ---- parts and members

/// The type of `x.f`, from the type of `x`: that of the field of this name, global if the reference is; `Void` if there is no such field.
pub fn static_field_type<'p>(program: &'p ProgramData, name: u32, receiver: TyRef<'p>) -> TyRef<'p>
    ensures { ty_view result ≡ static_field_type (program_of program.now) name (ty_view receiver.entry) }
{
    match receiver {
        TyRef::Class { class, local } => match named_field_type(program, class, name) {
            Some(ty) => ty.read_through(local),
            None => TyRef::Void,
        },
        _ => TyRef::Void,
    }
}

/// The type of `x[..]`, from the type of `x`: a coordinate of a point, or an element of a grid, global if the reference is.
pub fn static_element_type<'p>(ty: TyRef<'p>) -> TyRef<'p>
    ensures { ty_view result ≡ static_element_type (ty_view ty.entry) }
{
    match ty {
        TyRef::Pt(_) => TyRef::Int,
        TyRef::Grid {
            elem,
            any_dim,
            dim: _,
            local,
        } => TyRef::of(elem, any_dim).read_through(local),
        _ => TyRef::Void,
    }
}

// The type of a slice of a grid, which has one dimension less.
fn slice_type<'p>(ty: TyRef<'p>) -> TyRef<'p>
    ensures { ty_view result ≡ slice_type (ty_view ty.entry) }
{
    match ty {
        TyRef::Grid {
            elem,
            any_dim,
            dim,
            local,
        } => TyRef::Grid {
            elem,
            any_dim,
            dim: dim.saturating_sub(1),
            local,
        },
        _ => ty,
    }
}

/// The number of dimensions of a type; 1 if it has none.
pub fn dims_of(ty: TyRef) -> usize
    ensures { result ≡ dim_of_type (ty_view ty.entry) }
{
    match ty {
        TyRef::Pt(n) | TyRef::Rc(n) | TyRef::Dm(n) => n,
        TyRef::Grid { dim, .. } => dim,
        _ => 1,
    }
}

// The type of a built-in member, from the type of its receiver.
fn member_gives<'p>(member: BuiltIn, receiver: TyRef<'p>) -> TyRef<'p>
    ensures { ty_view result ≡ built_in_type (Some (built_in_of member)) (ty_view receiver.entry) }
{
    match member {
        BuiltIn::Size => TyRef::Int,
        BuiltIn::Min | BuiltIn::Max => TyRef::Pt(dims_of(receiver)),
        BuiltIn::Contains => TyRef::Bool,
        BuiltIn::Domain => TyRef::Rc(dims_of(receiver)),
        BuiltIn::Restrict | BuiltIn::Translate => receiver,
        BuiltIn::Slice => slice_type(receiver),
        BuiltIn::Copy | BuiltIn::Exchange | BuiltIn::Delete => TyRef::Void,
    }
}

// The type of a built-in member, from the type of its receiver; `Void` if there is no member.
fn built_in_type<'p>(member: Option<BuiltIn>, receiver: TyRef<'p>) -> TyRef<'p>
    ensures { ty_view result ≡ built_in_type (option_map built_in_of member) (ty_view receiver.entry) }
{
    match member {
        Some(member) => member_gives(member, receiver),
        None => TyRef::Void,
    }
}

/// The type of `x.f(..)`, from the type of `x`: on an object of a method, on any other value of a built-in member; `Void` if there is
/// none.
pub fn static_member_type<'p>(program: &'p ProgramData, name: u32, receiver: TyRef<'p>) -> TyRef<'p>
    ensures { ty_view result ≡ static_member_type (program_of program.now) name (ty_view receiver.entry) }
{
    match receiver {
        TyRef::Class { class, local: _ } => result_of(instance_method(program, class, name)),
        _ => built_in_type(built_in(program, name), receiver),
    }
}

// ---- expressions

// The number of expressions.
#[tactic(auto, using(crate::proofs::RangeDims::many_arguments))]
fn how_many(exprs: &[Expr]) -> usize
    ensures { result ≡ how_many (numbered_exps (map expression_of exprs.now)) }
{
    exprs.len()
}

// The dimensions of a range: one for a range of numbers, those of the points for a range of points.
#[cycle(text)]
fn dims_of_range(
    program: &ProgramData,
    this: Option<u32>,
    dims: &[ForeachDims],
    range: &Range,
) -> usize
    ensures { result ≡ dims_of_range (program_of program.now) this (dims_in (reverse dims.now)) (bound_of range.now) }
{
    match range {
        Range::Plain { low, .. } => dims_of(syntactic_type_with(program, this, dims, low)),
        Range::Stepped { low, .. } => dims_of(syntactic_type_with(program, this, dims, low)),
    }
}

// The dimensions of a literal with these ranges: a single range determines them; of several, each counts one.
#[cycle(text)]
#[tactic(auto, using(crate::proofs::RangeDims::range_dims))]
fn dims_of_ranges(
    program: &ProgramData,
    this: Option<u32>,
    dims: &[ForeachDims],
    ranges: &[Range],
) -> usize
    ensures { result ≡ dims_of_ranges (program_of program.now) this (dims_in (reverse dims.now))
        (numbered_ranges (map bound_of ranges.now)) }
{
    if ranges.len() == 1 {
        dims_of_range(program, this, dims, &ranges[0])
    } else {
        ranges.len()
    }
}

/// The static type of an expression in a method with `this` of a class, or with none, without checking its operands. The number of
/// dimensions of a foreach variable is that of its last entry in `dims`, and 1 if it has none. The type is meaningful only if no typing
/// rule is broken.
#[cycle(text)]
#[tactic(auto, using(crate::proofs::ProgramBridges::program_bridges))]
pub fn syntactic_type_with<'p>(
    program: &'p ProgramData,
    this: Option<u32>,
    dims: &[ForeachDims],
    expr: &'p Expr,
) -> TyRef<'p>
    ensures { ty_view result ≡ type_at (program_of program.now) this (dims_in (reverse dims.now)) (expression_of expr.now) }
{
    match expr {
        Expr::Int(_, _) => TyRef::Int,
        Expr::Long(_, _) => TyRef::Long,
        Expr::Bool(_, _) => TyRef::Bool,
        Expr::Null(_) => TyRef::Null,
        Expr::This(_) => or_void(this_type(this)),
        Expr::Variable(_, variable) => used_type(variable, dims),
        Expr::OwnField(_, field) => or_void(own_field_type(program, this, *field)),
        Expr::Call { method: number, .. } => result_of(method(program, *number)),
        Expr::OwnCall { method: number, .. } => result_of(method(program, *number)),
        Expr::ThisProc(_) => TyRef::Int,
        Expr::NumProcs(_) => TyRef::Int,
        Expr::Point(_, parts) => TyRef::Pt(how_many(parts)),
        Expr::Rect(_, ranges) => TyRef::Rc(dims_of_ranges(program, this, dims, ranges)),
        Expr::Unary { operand, .. } => syntactic_type_with(program, this, dims, operand),
        Expr::Binary {
            operator,
            left,
            right,
            ..
        } => {
            let first = syntactic_type_with(program, this, dims, left);
            let second = syntactic_type_with(program, this, dims, right);
            operator_type(*operator, first, second)
        }
        Expr::Cast { to, .. } => TyRef::of(&to.ty, false),
        Expr::Select { receiver, name, .. } => {
            static_field_type(
                program,
                *name,
                syntactic_type_with(program, this, dims, receiver),
            )
        }
        Expr::Member { receiver, name, .. } => {
            static_member_type(
                program,
                *name,
                syntactic_type_with(program, this, dims, receiver),
            )
        }
        Expr::Index { receiver, .. } => static_element_type(syntactic_type_with(
            program, this, dims, receiver,
        )),
    }
}

/// The static type of an expression, with foreach variables taken as points of one dimension: no class, field, element type or form of
/// a node depends on their dimensions.
pub fn syntactic_type<'p>(program: &'p ProgramData, this: Option<u32>, expr: &'p Expr) -> TyRef<'p>
    ensures { ty_view result ≡ syntactic_type (program_of program.now) this (expression_of expr.now) }
{
    syntactic_type_with(program, this, &[], expr)
}

// ---- calls

/// The declared method that an expression calls; None if it calls none. `x.f(..)` calls one only if `x` is an object.
#[tactic(auto, using(crate::proofs::ProgramBridges::program_bridges))]
pub fn called_method<'p>(
    program: &'p ProgramData,
    this: Option<u32>,
    expr: &'p Expr,
) -> Option<&'p Method>
    ensures { option_map (λ m. numbered_method_of m.now) result ≡ called_method (program_of program.now) this (expression_of expr.now) }
{
    match expr {
        Expr::Call { method: number, .. } => method(program, *number),
        Expr::OwnCall { method: number, .. } => method(program, *number),
        Expr::Member { receiver, name, .. } => {
            method_behind(program, syntactic_type(program, this, receiver), *name)
        }
        _ => None,
    }
}

/// The built-in member that a name denotes on a receiver; None on an object.
pub fn member_called(
    program: &ProgramData,
    this: Option<u32>,
    receiver: &Expr,
    name: u32,
) -> Option<BuiltIn>
    ensures { option_map built_in_of result ≡ member_called (program_of program.now) this (expression_of receiver.now) name }
{
    if syntactic_type(program, this, receiver).is_object() {
        None
    } else {
        built_in(program, name)
    }
}
