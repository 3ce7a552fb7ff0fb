// Typing of lists of operands: arguments, coordinates, indices, and the bounds and steps of ranges.
ghost use Rattle.std.specs.Prelude.{◌≡◌, ◌&&◌, [], Some};
ghost use Rattle.std.specs.Option.{option_map};
ghost use Rattle.ti_lang.specs.Program.Types.{Rc};
ghost use Rattle.ti_lang.specs.Typing.Expressions.{operand, and_then_both, is_int};
ghost use Rattle.ti_lang.specs.Typing.Kinds.{is_point_type};
ghost use Rattle.ti_lang.specs.Typing.TyRef.{ty_view};
ghost use Rattle.ti_rules.specs.Mirrors.First.{earlier_of as sooner_of, earliest};
ghost use Rattle.ti_rules.specs.Broken.Misplaced.{misplaced_at};
ghost use Rattle.ti_types.specs.Results.{typed_of};
ghost use Rattle.ti_types.specs.Mirrors.Arguments.{summary_of, summary, range_before, prepend, parameter_refusal};

use crate::refusals::assign_refusal;
use crate::typed_expr::TypedExpr;
use ti_base::Place;
use ti_lang::typing::TyRef;
use ti_rules::{Refusal, earlier_of};

/// What the typing rules need to know of the types of operands. It is computed from the last operand to the first, without a list.
#[derive(Clone, Copy)]
pub struct OperandTypes<'a> {
    /// Whether all are of type int.
    pub ints: bool,
    /// The type of the first operand.
    pub first: Option<TyRef<'a>>,
    /// The type of the second operand.
    pub second: Option<TyRef<'a>>,
    /// Their dimension, if there are any and all are points of one dimension.
    pub common_dim: Option<usize>,
    /// Whether all are points, of whatever dimensions.
    pub points: bool,
    /// The first error of an argument that doesn't fit its parameter.
    pub misfit: Option<Refusal>,
}

/// The typing result of a list of operands.
#[derive(Clone, Copy)]
pub struct OperandsTyping<'a> {
    /// The first type error inside the operands.
    pub inner: Option<Refusal>,
    /// The first expression that can't be an operand (Y6): a call of a declared method or an expression without a value.
    pub misplaced: Option<Refusal>,
    /// The types of the operands; None if one of them has no type.
    pub types: Option<OperandTypes<'a>>,
}

#[tactic(auto, unfolding(ti_rules::specs::Mirrors::First::earliest))]
fn parameter_refusal<'a>(place: Place, ty: TyRef<'a>, wanted: Option<TyRef<'a>>) -> Option<Refusal>
    ensures { result ≡ parameter_refusal place (ty_view ty.entry)
        (option_map ty_view wanted.entry) }
{
    match wanted {
        Some(wanted) => assign_refusal(place, ty, wanted),
        None => None,
    }
}

/// Whether the type is int.
pub fn is_int(ty: TyRef) -> bool
    ensures { result ≡ is_int (ty_view ty.entry) }
{
    matches!(ty, TyRef::Int)
}

/// The dimension of points with one of type `ty` before them, if it is the same for all.
fn dim_before<'a>(ty: TyRef<'a>, rest: OperandTypes<'a>) -> Option<usize>
    ensures { option_map Rc result
        ≡ range_before (ty_view ty.entry) (option_map ty_view rest.entry.first)
        (option_map Rc rest.entry.common_dim) }
{
    match (ty, rest.first) {
        (TyRef::Pt(n), None) => Some(n),
        (TyRef::Pt(n), Some(_)) => match rest.common_dim {
            Some(m) => if n == m { Some(n) } else { None },
            None => None,
        },
        _ => None,
    }
}

/// Whether the type is that of a point, and others are (`others`).
fn are_points(ty: TyRef, others: bool) -> bool
    ensures { result ≡ is_point_type (ty_view ty.entry) && others }
{
    match ty {
        TyRef::Pt(_) => others,
        _ => false,
    }
}

impl<'a> OperandTypes<'a> {
    /// Prepends an operand of type `ty` at `place`; `wanted` is its parameter's type, if there is a parameter.
    fn prepend(self, place: Place, wanted: Option<TyRef<'a>>, ty: TyRef<'a>) -> OperandTypes<'a>
        ensures { summary_of result ≡ prepend place (option_map ty_view wanted.entry)
            (ty_view ty.entry) (summary_of self.entry) }
    {
        OperandTypes {
            ints: is_int(ty) && self.ints,
            first: Some(ty),
            second: self.first,
            common_dim: dim_before(ty, self),
            points: are_points(ty, self.points),
            misfit: earlier_of(parameter_refusal(place, ty, wanted), self.misfit),
        }
    }
}

fn maybe_prepend<'a>(
    place: Place,
    wanted: Option<TyRef<'a>>,
    ty: Option<TyRef<'a>>,
    rest: Option<OperandTypes<'a>>,
) -> Option<OperandTypes<'a>>
    ensures { option_map summary_of result ≡ and_then_both (option_map ty_view ty.entry)
        (option_map summary_of rest.entry)
        (λ u others. Some (prepend place (option_map ty_view wanted.entry) u others)) }
{
    match (ty, rest) {
        (Some(ty), Some(rest)) => Some(rest.prepend(place, wanted, ty)),
        _ => None,
    }
}

impl<'a> OperandsTyping<'a> {
    /// The result of an empty list.
    #[tactic(auto, unfolding(ti_rules::specs::Mirrors::First::earliest))]
    pub fn none() -> OperandsTyping<'a>
        ensures inner { result.inner ≡ earliest [] }
        ensures misplaced { result.misplaced ≡ earliest [] }
        ensures types { option_map summary_of result.types ≡ Some (summary [] [] []) }
    {
        OperandsTyping {
            inner: None,
            misplaced: None,
            types: Some(OperandTypes {
                ints: true,
                first: None,
                second: None,
                common_dim: None,
                points: true,
                misfit: None,
            }),
        }
    }

    /// Prepends an operand at `place`; `wanted` is its parameter's type, if there is a parameter.
    pub fn prepend(
        self,
        place: Place,
        typed: TypedExpr<'a>,
        wanted: Option<TyRef<'a>>,
    ) -> OperandsTyping<'a>
        ensures inner { result.inner ≡ sooner_of typed.entry.first self.entry.inner }
        ensures misplaced { result.misplaced
            ≡ sooner_of (earliest (misplaced_at place (typed_of typed.entry)))
            self.entry.misplaced }
        ensures types { option_map summary_of result.types
            ≡ and_then_both (operand (typed_of typed.entry))
            (option_map summary_of self.entry.types)
            (λ u others. Some (prepend place (option_map ty_view wanted.entry) u others)) }
    {
        OperandsTyping {
            inner: earlier_of(typed.first, self.inner),
            misplaced: earlier_of(typed.misplaced_refusal(place), self.misplaced),
            types: maybe_prepend(place, wanted, typed.operand(), self.types),
        }
    }

    /// Adds the errors of these operands to `own`, the result of the enclosing form by itself.
    pub fn add_to(self, own: TypedExpr<'a>) -> TypedExpr<'a>
        ensures known { typed_of result ≡ typed_of own.entry }
        ensures first { result.first
            ≡ sooner_of self.entry.inner (sooner_of self.entry.misplaced own.entry.first) }
    {
        own.with_part_refusal(self.misplaced)
            .with_part_refusal(self.inner)
    }
}

impl<'a> TypedExpr<'a> {
    /// Adds the errors of this receiver, at `inner`, to `own`, the result of the enclosing form by itself.
    pub(crate) fn add_to(self, inner: Place, own: TypedExpr<'a>) -> TypedExpr<'a>
        ensures known { typed_of result ≡ typed_of own.entry }
        ensures first { result.first ≡ sooner_of self.entry.first (sooner_of
            (earliest (misplaced_at inner (typed_of self.entry))) own.entry.first) }
    {
        own.with_part_refusal(self.misplaced_refusal(inner))
            .with_part_refusal(self.first)
    }

    /// Adds the errors of this receiver, at `inner`, and of these operands to `own`, the result of the enclosing form by itself.
    pub(crate) fn with(
        self,
        inner: Place,
        found: OperandsTyping<'a>,
        own: TypedExpr<'a>,
    ) -> TypedExpr<'a>
        ensures known { typed_of result ≡ typed_of own.entry }
        ensures first { result.first ≡ sooner_of (sooner_of self.entry.first found.entry.inner)
            (sooner_of
            (sooner_of (earliest (misplaced_at inner (typed_of self.entry))) found.entry.misplaced)
            own.entry.first) }
    {
        let misplaced = earlier_of(self.misplaced_refusal(inner), found.misplaced);
        own.with_part_refusal(misplaced)
            .with_part_refusal(earlier_of(self.first, found.inner))
    }
}
