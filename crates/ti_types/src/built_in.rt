// Typing of the built-in members of domains, grids and regions.
ghost use Rattle.std.specs.Prelude.{◌≡◌, [], ◌∷◌, None};
ghost use Rattle.std.specs.Option.{option_map, option_and_then};
ghost use Rattle.ti_lang.specs.Typing.BuiltIn.{same_grids, has_local_elements, can_copy, can_exchange, member_type, Contains, Restrict, Translate};
ghost use Rattle.ti_rules.specs.Mirrors.First.{earliest};
ghost use Rattle.ti_rules.specs.Broken.Calls.{has_member, argument_count, copy_refusals, exchange_refusals, slice_refusals, takes_local};
ghost use Rattle.ti_lang.specs.Typing.TyRef.{ty_view, built_in_of};
ghost use Rattle.ti_types.specs.Mirrors.Arguments.{summary_of};
ghost use Rattle.ti_types.specs.Mirrors.BuiltIn.{arguments_by, summary_member_type, other_refusals, one_refusals, summary_argument_refusals, summary_built_in_refusals};
ghost use Rattle.ti_types.specs.Results.{typed_of};
ghost use Rattle.ti_lang.specs.Typing.Expressions.{plain};
ghost use Rattle.ti_lang.specs.Typing.Kinds.{where_true};

use crate::fitting::{is_assignable, where_true};
use crate::operands::{OperandTypes, is_int};
use crate::refusals::operand_refusal;
use crate::typed_expr::TypedExpr;
use ti_base::Place;
use ti_lang::typing::{BuiltIn, TyRef, same_elements};
use ti_rules::{Refusal, Rule, earlier_of, refused_if};

fn has_member(member: BuiltIn, ty: TyRef) -> bool
    ensures { result ≡ has_member (built_in_of member) (ty_view ty.entry) }
{
    match (member, ty) {
        (BuiltIn::Size | BuiltIn::Contains, _) => ty.domain_dim().is_some(),
        (BuiltIn::Min | BuiltIn::Max, TyRef::Rc(_)) => true,
        (
            BuiltIn::Domain
            | BuiltIn::Restrict
            | BuiltIn::Translate
            | BuiltIn::Slice
            | BuiltIn::Copy
            | BuiltIn::Exchange,
            TyRef::Grid { .. },
        ) => true,
        (BuiltIn::Delete, TyRef::Region) => true,
        _ => false,
    }
}

fn arity(member: BuiltIn) -> usize
    ensures { result ≡ argument_count (built_in_of member) }
{
    match member {
        BuiltIn::Contains
        | BuiltIn::Restrict
        | BuiltIn::Translate
        | BuiltIn::Copy
        | BuiltIn::Exchange => 1,
        BuiltIn::Slice => 2,
        _ => 0,
    }
}

fn same_grids<'a>(ty: TyRef<'a>, arg: TyRef<'a>) -> bool
    ensures { result ≡ same_grids (ty_view ty.entry) (ty_view arg.entry) }
{
    match (ty, arg) {
        (
            TyRef::Grid {
                elem: ty,
                any_dim: t_any,
                dim: n,
                local: _,
            },
            TyRef::Grid {
                elem: arg,
                any_dim: u_any,
                dim: m,
                local: _,
            },
        ) => same_elements(ty, t_any, arg, u_any) && n == m,
        _ => false,
    }
}

fn has_local_elements(ty: TyRef) -> bool
    ensures { result ≡ has_local_elements (ty_view ty.entry) }
{
    match ty {
        TyRef::Grid { elem, any_dim, .. } => TyRef::of(elem, any_dim).is_local(),
        _ => false,
    }
}

fn can_copy<'a>(ty: TyRef<'a>, arg: TyRef<'a>) -> bool
    ensures { result ≡ can_copy (ty_view ty.entry) (ty_view arg.entry) }
{
    !has_local_elements(ty) || ty.is_local() && arg.is_local()
}

fn can_exchange<'a>(ty: TyRef<'a>, arg: TyRef<'a>) -> bool
    ensures { result ≡ can_exchange (ty_view ty.entry) (ty_view arg.entry) }
{
    match ty {
        TyRef::Grid {
            elem,
            any_dim,
            dim,
            ..
        } => dim == 1 && is_assignable(arg, TyRef::of(elem, any_dim)),
        _ => false,
    }
}

/// The result type of a built-in member without arguments, if `ty` has it.
fn type_without_arguments<'a>(member: BuiltIn, ty: TyRef<'a>) -> Option<TyRef<'a>>
    ensures { option_map ty_view result ≡ member_type (built_in_of member) (ty_view ty.entry) [] }
{
    match (member, ty) {
        (BuiltIn::Size, TyRef::Rc(_) | TyRef::Dm(_)) => Some(TyRef::Int),
        (BuiltIn::Min | BuiltIn::Max, TyRef::Rc(n)) => Some(TyRef::Pt(n)),
        (BuiltIn::Domain, TyRef::Grid { dim, .. }) => Some(TyRef::Rc(dim)),
        (BuiltIn::Delete, TyRef::Region) => Some(TyRef::Void),
        _ => None,
    }
}

fn contains_type<'a>(ty: TyRef<'a>, arg: TyRef<'a>) -> Option<TyRef<'a>>
    ensures { option_map ty_view result ≡ member_type Contains (ty_view ty.entry) (ty_view arg.entry ∷ []) }
{
    match (ty, arg) {
        (TyRef::Rc(n), TyRef::Pt(m)) => where_true(n == m, TyRef::Bool),
        (TyRef::Dm(n), TyRef::Pt(m)) => where_true(n == m, TyRef::Bool),
        _ => None,
    }
}

fn restrict_type<'a>(ty: TyRef<'a>, arg: TyRef<'a>) -> Option<TyRef<'a>>
    ensures { option_map ty_view result ≡ member_type Restrict (ty_view ty.entry) (ty_view arg.entry ∷ []) }
{
    match (ty, arg) {
        (TyRef::Grid { dim, .. }, TyRef::Rc(m)) => where_true(dim == m, ty),
        _ => None,
    }
}

fn translate_type<'a>(ty: TyRef<'a>, arg: TyRef<'a>) -> Option<TyRef<'a>>
    ensures { option_map ty_view result ≡ member_type Translate (ty_view ty.entry) (ty_view arg.entry ∷ []) }
{
    match (ty, arg) {
        (TyRef::Grid { dim, .. }, TyRef::Pt(m)) => where_true(dim == m, ty),
        _ => None,
    }
}

/// The result type of a built-in member with one argument, if `ty` has it and it accepts the argument.
fn type_with_one<'a>(member: BuiltIn, ty: TyRef<'a>, arg: TyRef<'a>) -> Option<TyRef<'a>>
    ensures { option_map ty_view result ≡ member_type (built_in_of member) (ty_view ty.entry) (ty_view arg.entry ∷ []) }
{
    match member {
        BuiltIn::Contains => contains_type(ty, arg),
        BuiltIn::Restrict => restrict_type(ty, arg),
        BuiltIn::Translate => translate_type(ty, arg),
        BuiltIn::Copy => where_true(same_grids(ty, arg) && can_copy(ty, arg), TyRef::Void),
        BuiltIn::Exchange => where_true(
            can_exchange(ty, arg) && !has_local_elements(ty),
            TyRef::Void,
        ),
        _ => None,
    }
}

/// The result type of a built-in member with two arguments, if `ty` has it and it accepts them.
fn type_with_two<'a>(
    member: BuiltIn,
    ty: TyRef<'a>,
    arg: TyRef<'a>,
    second: TyRef<'a>,
) -> Option<TyRef<'a>>
    ensures { option_map ty_view result ≡ member_type (built_in_of member) (ty_view ty.entry) (ty_view arg.entry ∷ ty_view second.entry ∷ []) }
{
    match (member, ty, arg, second) {
        (
            BuiltIn::Slice,
            TyRef::Grid {
                elem,
                any_dim,
                dim,
                local,
            },
            TyRef::Int,
            TyRef::Int,
        ) => {
            if dim > 1 {
                Some(TyRef::Grid {
                    elem,
                    any_dim,
                    dim: dim - 1,
                    local,
                })
            } else {
                None
            }
        }
        _ => None,
    }
}

/// The result type of a built-in member with `count` arguments, if `ty` has it and it accepts them.
pub fn built_in_type<'a>(
    member: BuiltIn,
    ty: TyRef<'a>,
    count: usize,
    summary: OperandTypes<'a>,
) -> Option<TyRef<'a>>
    ensures { option_map ty_view result ≡ summary_member_type (built_in_of member) (ty_view ty.entry) count (summary_of summary.entry) }
{
    match (summary.first, summary.second) {
        (None, _) => if count == 0 {
            type_without_arguments(member, ty)
        } else {
            None
        },
        (Some(arg), None) => if count == 1 {
            type_with_one(member, ty, arg)
        } else {
            None
        },
        (Some(arg), Some(second)) => if count == 2 {
            type_with_two(member, ty, arg, second)
        } else {
            None
        },
    }
}

#[tactic(auto, unfolding(ti_rules::specs::Mirrors::First::earliest))]
fn copy_refusal<'a>(place: Place, ty: TyRef<'a>, arg: TyRef<'a>) -> Option<Refusal>
    ensures { result ≡ earliest (copy_refusals place (ty_view ty.entry) (ty_view arg.entry ∷ [])) }
{
    if same_grids(ty, arg) {
        refused_if(!can_copy(ty, arg), Rule::Q2, place)
    } else {
        operand_refusal(place, false, same_grids(ty.erase_dims(), arg.erase_dims()))
    }
}

fn takes_local<'a>(ty: TyRef<'a>, arg: TyRef<'a>) -> bool
    ensures { result ≡ takes_local (ty_view ty.entry) (ty_view arg.entry) }
{
    match ty {
        TyRef::Grid {
            elem,
            any_dim,
            dim,
            ..
        } => dim == 1 && is_assignable(arg.with_local(true), TyRef::of(elem, any_dim)),
        _ => false,
    }
}

#[tactic(auto, using(ti_rules::proofs::Lemmas::firsts))]
fn exchange_refusal<'a>(place: Place, ty: TyRef<'a>, arg: TyRef<'a>) -> Option<Refusal>
    ensures { result ≡ earliest (exchange_refusals place (ty_view ty.entry) (ty_view arg.entry ∷ [])) }
{
    let taken = can_exchange(ty, arg) || takes_local(ty, arg);
    earlier_of(
        operand_refusal(
            place,
            taken,
            can_exchange(ty.erase_dims(), arg.erase_dims()),
        ),
        refused_if(has_local_elements(ty), Rule::Q3, place),
    )
}

#[tactic(auto, unfolding(ti_rules::specs::Mirrors::First::earliest))]
fn slice_refusal<'a>(
    place: Place,
    ty: TyRef<'a>,
    arg: TyRef<'a>,
    second: TyRef<'a>,
) -> Option<Refusal>
    ensures { result ≡ earliest (slice_refusals place (ty_view ty.entry) (ty_view arg.entry ∷ ty_view second.entry ∷ [])) }
{
    match ty {
        TyRef::Grid { dim, .. } => {
            if dim > 1 {
                operand_refusal(place, is_int(arg) && is_int(second), false)
            } else {
                refused_if(true, Rule::Y5, place)
            }
        }
        _ => None,
    }
}

#[tactic(auto, unfolding(ti_rules::specs::Mirrors::First::earliest))]
fn refusal_of_none<'a>(
    place: Place,
    member: BuiltIn,
    ty: TyRef<'a>,
    first: Option<TyRef<'a>>,
) -> Option<Refusal>
    ensures { result ≡ earliest (arguments_by place (built_in_of member) (ty_view ty.entry) 0 (option_map ty_view first.entry) None) }
{
    match first {
        None => {
            let taken = type_without_arguments(member, ty).is_some();
            operand_refusal(
                place,
                taken,
                type_without_arguments(member, ty.erase_dims()).is_some(),
            )
        }
        Some(_) => None,
    }
}

/// The error of an argument that a built-in member doesn't accept by its type: Y5 if only the number of dimensions is wrong, else Y1.
fn other_refusal<'a>(
    place: Place,
    member: BuiltIn,
    ty: TyRef<'a>,
    arg: TyRef<'a>,
) -> Option<Refusal>
    ensures { result ≡ earliest (other_refusals place (built_in_of member) (ty_view ty.entry) (ty_view arg.entry ∷ [])) }
{
    let taken = type_with_one(member, ty, arg).is_some();
    operand_refusal(
        place,
        taken,
        type_with_one(member, ty.erase_dims(), arg.erase_dims()).is_some(),
    )
}

fn refusal_of_one<'a>(
    place: Place,
    member: BuiltIn,
    ty: TyRef<'a>,
    arg: TyRef<'a>,
) -> Option<Refusal>
    ensures { result ≡ earliest (one_refusals place (built_in_of member) (ty_view ty.entry) (ty_view arg.entry)) }
{
    match member {
        BuiltIn::Copy => copy_refusal(place, ty, arg),
        BuiltIn::Exchange => exchange_refusal(place, ty, arg),
        BuiltIn::Size
        | BuiltIn::Min
        | BuiltIn::Max
        | BuiltIn::Contains
        | BuiltIn::Domain
        | BuiltIn::Restrict
        | BuiltIn::Translate
        | BuiltIn::Slice
        | BuiltIn::Delete => other_refusal(place, member, ty, arg),
    }
}

/// The first error of a built-in member's arguments, given that their number is right.
#[tactic(auto, unfolding(ti_rules::specs::Mirrors::First::earliest))]
fn argument_refusal<'a>(
    place: Place,
    member: BuiltIn,
    ty: TyRef<'a>,
    summary: OperandTypes<'a>,
) -> Option<Refusal>
    ensures { result ≡ earliest (summary_argument_refusals place (built_in_of member) (ty_view ty.entry) (summary_of summary.entry)) }
{
    match arity(member) {
        0 => refusal_of_none(place, member, ty, summary.first),
        1 => match (summary.first, summary.second) {
            (Some(arg), None) => refusal_of_one(place, member, ty, arg),
            _ => None,
        },
        _ => match (summary.first, summary.second) {
            (Some(arg), Some(second)) => slice_refusal(place, ty, arg, second),
            _ => None,
        },
    }
}

/// The typing result of a member of a value that isn't an object, by itself: error Y1 if it has no such member, Y4 if the number of
/// arguments is wrong, else that of the arguments.
#[tactic(auto, unfolding(ti_rules::specs::Mirrors::First::earliest))]
pub fn typed_built_in<'a>(
    place: Place,
    member: Option<BuiltIn>,
    ty: TyRef<'a>,
    count: usize,
    summary: OperandTypes<'a>,
) -> TypedExpr<'a>
    ensures known { typed_of result ≡ plain (option_and_then (λ member. summary_member_type member (ty_view ty.entry) count (summary_of summary.entry))
        (option_map built_in_of member)) }
    ensures first { result.first ≡ earliest (summary_built_in_refusals place (option_map built_in_of member) (ty_view ty.entry) count (summary_of summary.entry)) }
{
    let Some(member) = member else {
        return TypedExpr::plain(None, refused_if(true, Rule::Y1, place));
    };
    let given = built_in_type(member, ty, count, summary);
    if !has_member(member, ty) {
        TypedExpr::plain(given, refused_if(true, Rule::Y1, place))
    } else if count != arity(member) {
        TypedExpr::plain(given, refused_if(true, Rule::Y4, place))
    } else {
        TypedExpr::plain(given, argument_refusal(place, member, ty, summary))
    }
}
