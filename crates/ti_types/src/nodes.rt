// Typing of points, indices, selections and members, given the typing results of their parts.
ghost use Rattle.std.specs.Prelude.{◌≡◌, map, is_some, length, false};
ghost use Rattle.std.specs.Option.{option_map, option_and_then};
ghost use Rattle.ti_lang.specs.Program.Types.{Pt};
ghost use Rattle.ti_lang.specs.Program.Expressions.{numbered_exps};
ghost use Rattle.ti_lang.specs.Program.Views.{program_of, expression_of, numbered_method_of};
ghost use Rattle.ti_lang.specs.Typing.Kinds.{where_true};
ghost use Rattle.ti_lang.specs.Typing.Expressions.{plain, and_then_both, select_type};
ghost use Rattle.ti_rules.specs.Mirrors.First.{earliest};
ghost use Rattle.ti_rules.specs.Broken.Refused.{judged, both_judged, operand_refusal as mistaken_at};
ghost use Rattle.ti_rules.specs.Broken.Expressions.{places_of};
ghost use Rattle.ti_types.specs.Results.{typed_of};
ghost use Rattle.ti_lang.specs.Typing.TyRef.{ty_view};
ghost use Rattle.ti_types.specs.Mirrors.Arguments.{OperandSummary, summary_of};
ghost use Rattle.ti_types.specs.Mirrors.Nodes.{are_indices, summary_index_type, is_index, summary_other_indices, summary_member, summary_member_refusal};

use crate::arguments::typed_call;
use crate::built_in::typed_built_in;
use crate::fitting::where_true;
use crate::operands::OperandTypes;
use crate::typed_expr::TypedExpr;
use ti_base::Place;
use ti_lang::program::{Expr, Method, ProgramData};
use ti_lang::typing::{TyRef, built_in, select_type};
use ti_rules::{Rule, refused_if};

/// The typing result of a point literal with `count` coordinates, by itself.
pub fn point<'a>(place: Place, count: usize, types: Option<OperandTypes<'a>>) -> TypedExpr<'a>
    ensures known { typed_of result
        ≡ plain (option_and_then (λ (t : OperandSummary). where_true t.ints (Pt count))
        (option_map summary_of types.entry)) }
    ensures first { result.first
        ≡ earliest
        (judged (option_map summary_of types.entry)
        (λ (t : OperandSummary). mistaken_at place t.ints false)) }
{
    match types {
        Some(told) => TypedExpr::accepted_if(place, told.ints, TyRef::Pt(count), false),
        None => TypedExpr::untyped(),
    }
}

fn are_indices<'a>(dim: usize, count: usize, first: Option<TyRef<'a>>, ints: bool) -> bool
    ensures { result ≡ are_indices dim count (option_map ty_view first.entry) ints }
{
    match first {
        Some(TyRef::Pt(m)) => count == 1 && dim == m,
        _ => ints && count == dim,
    }
}

fn index_type<'a>(count: usize, ty: TyRef<'a>, summary: OperandTypes<'a>) -> Option<TyRef<'a>>
    ensures { option_map ty_view result ≡ summary_index_type count (ty_view ty.entry) (summary_of summary.entry) }
{
    match ty {
        TyRef::Pt(_) => where_true(summary.ints && count == 1, TyRef::Int),
        TyRef::Grid {
            elem,
            any_dim,
            dim,
            local,
        } => where_true(
            are_indices(dim, count, summary.first, summary.ints),
            TyRef::of(elem, any_dim).read_through(local),
        ),
        _ => None,
    }
}

fn is_index(first: Option<TyRef>) -> bool
    ensures { result ≡ is_index (option_map ty_view first.entry) }
{
    matches!(first, Some(TyRef::Int | TyRef::Pt(_)))
}

fn other_indices<'a>(count: usize, ty: TyRef<'a>, summary: OperandTypes<'a>) -> bool
    ensures { result ≡ summary_other_indices count (ty_view ty.entry) (summary_of summary.entry) }
{
    match ty {
        TyRef::Pt(_) => count != 1,
        TyRef::Grid { dim, .. } => {
            if count == 1 {
                is_index(summary.first)
            } else {
                count != dim
            }
        }
        _ => false,
    }
}

/// The typing result of an index with `count` indices into a value of type `ty`, by itself.
pub fn index<'a>(
    place: Place,
    count: usize,
    ty: Option<TyRef<'a>>,
    types: Option<OperandTypes<'a>>,
) -> TypedExpr<'a>
    ensures known { typed_of result ≡ plain (and_then_both (option_map ty_view ty.entry) (option_map summary_of types.entry) (summary_index_type count)) }
    ensures first { result.first ≡ earliest (both_judged (option_map ty_view ty.entry) (option_map summary_of types.entry)
        (λ u summary. mistaken_at place (is_some (summary_index_type count u summary)) (summary_other_indices count u summary))) }
{
    match (ty, types) {
        (Some(ty), Some(told)) => TypedExpr::accepted(
            place,
            index_type(count, ty, told),
            other_indices(count, ty, told),
        ),
        _ => TypedExpr::untyped(),
    }
}

/// The typing result of a member call on a value of type `ty`, by itself; `method` is the method if `ty` is a class.
#[tactic(auto, unfolding(ti_rules::specs::Mirrors::First::earliest))]
pub fn member<'a>(
    program: &'a ProgramData,
    place: Place,
    ty: Option<TyRef<'a>>,
    name: u32,
    method: Option<&'a Method>,
    args: &'a [Expr],
    types: Option<OperandTypes<'a>>,
) -> TypedExpr<'a>
    ensures known { typed_of result ≡ summary_member (program_of program.now) (option_map ty_view ty.entry) name
        (option_map (λ method. numbered_method_of method.now) method.entry) (length args.now) (option_map summary_of types.entry) }
    ensures first { result.first ≡ summary_member_refusal (program_of program.now) place (places_of (numbered_exps (map expression_of args.now)))
        (option_map ty_view ty.entry) name (option_map (λ method. numbered_method_of method.now) method.entry) (length args.now)
        (option_map summary_of types.entry) }
{
    let Some(ty) = ty else {
        return TypedExpr::untyped();
    };
    if ty.is_object() {
        return typed_call(
            place,
            method,
            refused_if(true, Rule::Y1, place),
            args,
            types,
        );
    }
    match types {
        Some(summary) => typed_built_in(place, built_in(program, name), ty, args.len(), summary),
        None => TypedExpr::untyped(),
    }
}

/// The typing result of a field selection on a value of type `ty`, by itself.
pub fn select<'a>(
    program: &'a ProgramData,
    place: Place,
    ty: Option<TyRef<'a>>,
    name: u32,
) -> TypedExpr<'a>
    ensures known { typed_of result ≡ plain (option_and_then (λ ty. select_type (program_of program.now) ty name) (option_map ty_view ty.entry)) }
    ensures first { result.first ≡ earliest (judged (option_map ty_view ty.entry)
        (λ ty. mistaken_at place (is_some (select_type (program_of program.now) ty name)) false)) }
{
    match ty {
        Some(ty) => TypedExpr::accepted(place, select_type(program, ty, name), false),
        None => TypedExpr::untyped(),
    }
}
