// Typing results of expressions, and how operators combine them.
ghost use Rattle.std.specs.Prelude.{◌≡◌, [], ◌++◌, is_some, true, false, Some, None, IsTrue};
ghost use Rattle.std.specs.Option.{option_map, option_and_then};
ghost use Rattle.ti_lang.specs.Program.Types.{Int};
ghost use Rattle.ti_lang.specs.Program.Views.{value_type_of, type_use_of};
ghost use Rattle.ti_lang.specs.Typing.Kinds.{where_true};
ghost use Rattle.ti_lang.specs.Typing.Fits.{casts as casts_to};
ghost use Rattle.ti_lang.specs.Typing.Operators.{unary_type, binary_type};
ghost use Rattle.ti_lang.specs.Typing.Expressions.{plain, operand, and_then_both};
ghost use Rattle.ti_rules.specs.Mirrors.First.{earlier_of as sooner_of, earliest};
ghost use Rattle.ti_lang.specs.Typing.Alike.{erase_dims};
ghost use Rattle.ti_rules.specs.Broken.Refused.{judged, both_judged, operand_refusal as mistaken_at};
ghost use Rattle.ti_rules.specs.Broken.Misplaced.{misplaced_at};
ghost use Rattle.ti_rules.specs.Broken.Words.{type_word_refusals};
ghost use Rattle.ti_lang.specs.Typing.TyRef.{ty_view};
ghost use Rattle.ti_types.specs.Results.{typed_of};

use crate::fitting::{is_castable, where_true};
use crate::operators::{binary_type, unary_type};
use crate::refusals::operand_refusal;
use crate::words::type_words;
use ti_base::Place;
use ti_lang::program::{Ty, TypeUse};
use ti_lang::typing::TyRef;
use ti_rules::{Refusal, Rule, earlier_of, refused_if};
use ti_syntax::tree::{BinaryOperator, UnaryOperator};

/// The typing result of an expression.
#[derive(Clone, Copy)]
pub struct TypedExpr<'a> {
    /// The type, if the expression has one.
    pub ty: Option<TyRef<'a>>,
    /// Whether it is a call of a declared method all of whose operands have types.
    pub is_call: bool,
    /// The first type error in it.
    pub first: Option<Refusal>,
}

/// The typing result of an expression as the target of an assignment.
#[derive(Clone, Copy)]
pub struct TypedTarget<'a> {
    /// The typing result of the expression.
    pub whole: TypedExpr<'a>,
    /// The type of its receiver, if it is a field of an object or an element and the receiver has a type.
    pub receiver: Option<TyRef<'a>>,
}

// Whether both operands are ints without type errors, and neither is a method call.
fn are_sound_ints(left: &TypedExpr, right: &TypedExpr) -> bool
    ensures left { IsTrue result → typed_of left.now ≡ plain (Some Int) }
    ensures right { IsTrue result → typed_of right.now ≡ plain (Some Int) }
    ensures left_first { IsTrue result → left.now.first ≡ None }
    ensures right_first { IsTrue result → right.now.first ≡ None }
{
    left.is_sound_int() && right.is_sound_int()
}

impl<'a> TypedExpr<'a> {
    /// The result of an expression that isn't a method call.
    pub(crate) fn plain(ty: Option<TyRef<'a>>, first: Option<Refusal>) -> TypedExpr<'a>
        ensures known { typed_of result ≡ plain (option_map ty_view ty.entry) }
        ensures first { result.first ≡ first }
    {
        TypedExpr {
            ty,
            is_call: false,
            first,
        }
    }

    /// The result of an expression that isn't a method call and has no type error.
    #[tactic(auto, unfolding(ti_rules::specs::Mirrors::First::earliest))]
    pub(crate) fn sound(ty: Option<TyRef<'a>>) -> TypedExpr<'a>
        ensures known { typed_of result ≡ plain (option_map ty_view ty.entry) }
        ensures first { result.first ≡ earliest [] }
    {
        TypedExpr::plain(ty, None)
    }

    /// The result of a call of a declared method.
    pub(crate) fn call(ty: Option<TyRef<'a>>, first: Option<Refusal>) -> TypedExpr<'a>
        ensures known { typed_of result
            ≡ record { type = option_map ty_view ty.entry; is_call = true } }
        ensures first { result.first ≡ first }
    {
        TypedExpr {
            ty,
            is_call: true,
            first,
        }
    }

    /// The result if an operand has no type: no type, and no further error.
    pub(crate) fn untyped() -> TypedExpr<'a>
        ensures known { typed_of result ≡ plain None }
        ensures first { result.first ≡ earliest [] }
    {
        TypedExpr::sound(None)
    }

    /// The result of a form by itself, given its type if it accepts its operands. Otherwise its error is Y5 if it would accept them with
    /// dimensions ignored (`otherwise`), else Y1.
    pub(crate) fn accepted(place: Place, ty: Option<TyRef<'a>>, otherwise: bool) -> TypedExpr<'a>
        ensures known { typed_of result ≡ plain (option_map ty_view ty.entry) }
        ensures first { result.first
            ≡ earliest (mistaken_at place (is_some (option_map ty_view ty.entry)) otherwise) }
    {
        TypedExpr::plain(ty, operand_refusal(place, ty.is_some(), otherwise))
    }

    /// The result of a form by itself, which has this type if it accepts its operands (`taken`). Otherwise its error is Y5 if it would
    /// accept them with dimensions ignored (`otherwise`), else Y1.
    pub(crate) fn accepted_if(
        place: Place,
        taken: bool,
        ty: TyRef<'a>,
        otherwise: bool,
    ) -> TypedExpr<'a>
        ensures known { typed_of result ≡ plain (where_true taken (ty_view ty.entry)) }
        ensures first { result.first ≡ earliest (mistaken_at place taken otherwise) }
    {
        TypedExpr::plain(
            where_true(taken, ty),
            operand_refusal(place, taken, otherwise),
        )
    }

    /// Adds the error of a part, which takes precedence at the same position.
    pub(crate) fn with_part_refusal(self, inner: Option<Refusal>) -> TypedExpr<'a>
        ensures known { typed_of result ≡ typed_of self.entry }
        ensures first { result.first ≡ sooner_of inner self.entry.first }
    {
        TypedExpr {
            ty: self.ty,
            is_call: self.is_call,
            first: earlier_of(inner, self.first),
        }
    }

    /// The type that it has as an operand. A call of a declared method and an expression without a value have none.
    pub fn operand(self) -> Option<TyRef<'a>>
        ensures { option_map ty_view result ≡ operand (typed_of self.entry) }
    {
        if self.is_call {
            return None;
        }
        match self.ty {
            Some(ty) => { if ty.is_void() { None } else { Some(ty) } }
            None => None,
        }
    }

    /// Error Y6 at `place` if it can't be an operand: a call of a declared method, or an expression without a value.
    pub fn misplaced_refusal(self, place: Place) -> Option<Refusal>
        ensures { result ≡ earliest (misplaced_at place (typed_of self.entry)) }
    {
        let nothing = match self.ty {
            Some(ty) => ty.is_void(),
            None => false,
        };
        refused_if(self.is_call || nothing, Rule::Y6, place)
    }

    /// The result of a unary operator at `place` with this operand, at `inner`.
    #[tactic(auto, using(ti_rules::proofs::Lemmas::firsts))]
    pub(crate) fn unary(self, inner: Place, place: Place, operator: UnaryOperator) -> TypedExpr<'a>
        ensures known { typed_of result ≡ plain (option_and_then (unary_type operator) (operand (typed_of self.entry))) }
        ensures first { result.first ≡ sooner_of self.entry.first (earliest (misplaced_at inner (typed_of self.entry)
            ++ judged (operand (typed_of self.entry)) (λ t. mistaken_at place (is_some (unary_type operator t)) false))) }
    {
        self.add_to(inner, unary(place, operator, self.operand()))
    }

    // Whether it is an int without type errors and not a method call.
    fn is_sound_int(&self) -> bool
        ensures known { IsTrue result → typed_of self.now ≡ plain (Some Int) }
        ensures first { IsTrue result → self.now.first ≡ None }
    {
        match self.ty {
            Some(TyRef::Int) => !self.is_call && self.first.is_none(),
            _ => false,
        }
    }

    /// The result of a binary operator at `place` with these operands, at their positions. Ints, the most frequent case, have a fast path.
    pub(crate) fn binary(
        self,
        inner: Place,
        other: TypedExpr<'a>,
        other_inner: Place,
        place: Place,
        operator: BinaryOperator,
    ) -> TypedExpr<'a>
        ensures known { typed_of result ≡ plain (and_then_both (operand (typed_of self.entry)) (operand (typed_of other.entry)) (binary_type operator)) }
        ensures first { result.first ≡ sooner_of (sooner_of self.entry.first other.entry.first)
            (earliest ((misplaced_at inner (typed_of self.entry) ++ misplaced_at other_inner (typed_of other.entry))
            ++ both_judged (operand (typed_of self.entry)) (operand (typed_of other.entry))
            (λ t u. mistaken_at place (is_some (binary_type operator t u)) (is_some (binary_type operator (erase_dims t) (erase_dims u)))))) }
    {
        if are_sound_ints(&self, &other) {
            typed_binary(place, operator, Some(TyRef::Int), Some(TyRef::Int))
        } else {
            self.general_binary(inner, other, other_inner, place, operator)
        }
    }

    /// The result of a binary operator with operands of any types.
    #[inline(never)]
    #[tactic(auto, using(ti_rules::proofs::Lemmas::firsts))]
    fn general_binary(
        self,
        inner: Place,
        other: TypedExpr<'a>,
        other_inner: Place,
        place: Place,
        operator: BinaryOperator,
    ) -> TypedExpr<'a>
        ensures known { typed_of result ≡ plain (and_then_both (operand (typed_of self.entry)) (operand (typed_of other.entry)) (binary_type operator)) }
        ensures first { result.first ≡ sooner_of (sooner_of self.entry.first other.entry.first)
            (earliest ((misplaced_at inner (typed_of self.entry) ++ misplaced_at other_inner (typed_of other.entry))
            ++ both_judged (operand (typed_of self.entry)) (operand (typed_of other.entry))
            (λ t u. mistaken_at place (is_some (binary_type operator t u)) (is_some (binary_type operator (erase_dims t) (erase_dims u)))))) }
    {
        let t = self.operand();
        let u = other.operand();
        let misplaced = earlier_of(
            self.misplaced_refusal(inner),
            other.misplaced_refusal(other_inner),
        );
        let own = typed_binary(place, operator, t, u).with_part_refusal(misplaced);
        own.with_part_refusal(earlier_of(self.first, other.first))
    }

    /// The result of a cast at `place` with this operand, at `inner`.
    #[tactic(auto, using(ti_rules::proofs::Lemmas::firsts))]
    pub(crate) fn cast(self, inner: Place, place: Place, to: &'a TypeUse) -> TypedExpr<'a>
        ensures known { typed_of result
            ≡ plain (option_and_then (λ t. where_true (casts_to (type_use_of to.now).type t) (type_use_of to.now).type)
            (operand (typed_of self.entry))) }
        ensures first { result.first ≡ sooner_of self.entry.first (earliest
            ((type_word_refusals false (type_use_of to.now) ++ misplaced_at inner (typed_of self.entry))
            ++ judged (operand (typed_of self.entry)) (λ t. mistaken_at place (casts_to (type_use_of to.now).type t)
            (casts_to (erase_dims (type_use_of to.now).type) (erase_dims t))))) }
    {
        let words = earlier_of(type_words(false, to), self.misplaced_refusal(inner));
        let own = cast(place, &to.ty, self.operand()).with_part_refusal(words);
        own.with_part_refusal(self.first)
    }
}

/// The result of a unary operator by itself, given the type of its operand; if this has none, there is no type and no error.
fn unary<'a>(place: Place, operator: UnaryOperator, ty: Option<TyRef<'a>>) -> TypedExpr<'a>
    ensures known { typed_of result
        ≡ plain (option_and_then (unary_type operator) (option_map ty_view ty.entry)) }
    ensures first { result.first ≡ earliest (judged (option_map ty_view ty.entry)
        (λ ty. mistaken_at place (is_some (unary_type operator ty)) false)) }
{
    match ty {
        Some(ty) => TypedExpr::accepted(place, unary_type(operator, ty), false),
        None => TypedExpr::untyped(),
    }
}

/// The result of a binary operator by itself, given the types of its operands; if one has no type, there is no type and no error.
#[tactic(auto, unfolding(ti_rules::specs::Mirrors::First::earliest))]
fn typed_binary<'a>(
    place: Place,
    operator: BinaryOperator,
    left: Option<TyRef<'a>>,
    right: Option<TyRef<'a>>,
) -> TypedExpr<'a>
    ensures known { typed_of result ≡ plain (and_then_both (option_map ty_view left.entry) (option_map ty_view right.entry) (binary_type operator)) }
    ensures first { result.first ≡ earliest (both_judged (option_map ty_view left.entry) (option_map ty_view right.entry)
        (λ left right. mistaken_at place (is_some (binary_type operator left right)) (is_some (binary_type operator (erase_dims left) (erase_dims right))))) }
{
    match (left, right) {
        (Some(left), Some(right)) => match binary_type(operator, left, right) {
            Some(ty) => TypedExpr::plain(Some(ty), None),
            None => {
                let otherwise = binary_type(
                    operator,
                    left.erase_dims(),
                    right.erase_dims(),
                ).is_some();
                TypedExpr::plain(None, operand_refusal(place, false, otherwise))
            }
        },
        _ => TypedExpr::plain(None, None),
    }
}

/// The result of a cast by itself, given the type of its operand; if this has none, there is no type and no error.
fn cast<'a>(place: Place, to: &'a Ty, ty: Option<TyRef<'a>>) -> TypedExpr<'a>
    ensures known { typed_of result ≡ plain (option_and_then
        (λ ty. where_true (casts_to (value_type_of to.now) ty) (value_type_of to.now))
        (option_map ty_view ty.entry)) }
    ensures first { result.first
        ≡ earliest (judged (option_map ty_view ty.entry) (λ ty. mistaken_at place
        (casts_to (value_type_of to.now) ty) (casts_to (erase_dims (value_type_of to.now))
        (erase_dims ty)))) }
{
    match ty {
        Some(ty) => {
            let to = TyRef::of(to, false);
            TypedExpr::accepted_if(
                place,
                is_castable(to, ty),
                to,
                is_castable(to.erase_dims(), ty.erase_dims()),
            )
        }
        None => TypedExpr::untyped(),
    }
}
