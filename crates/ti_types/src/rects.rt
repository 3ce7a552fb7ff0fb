// Typing of domain literals, given the typing results of the bounds and steps of their ranges.
ghost use Rattle.std.specs.Prelude.{◌≡◌, is_some};
ghost use Rattle.std.specs.Option.{option_map, option_and_then};
ghost use Rattle.ti_lang.specs.Typing.Expressions.{plain};
ghost use Rattle.ti_lang.specs.Typing.TyRef.{ty_view};
ghost use Rattle.ti_rules.specs.Mirrors.First.{earliest};
ghost use Rattle.ti_rules.specs.Broken.Refused.{judged, operand_refusal as mistaken_at};
ghost use Rattle.ti_types.specs.Results.{typed_of, literal_of};
ghost use Rattle.ti_types.specs.Mirrors.Arguments.{OperandSummary, summary_of};
ghost use Rattle.ti_types.specs.Mirrors.Nodes.{summary_rect_type, summary_fits_other_dims, summary_literal};

use crate::operands::OperandTypes;
use crate::typed_expr::TypedExpr;
use ti_base::Place;
use ti_lang::typing::TyRef;
use ti_rules::Refusal;

/// The type of ranges as a domain literal.
#[derive(Clone, Copy)]
pub struct Literal<'a> {
    /// The rectangular domain, if the types of the bounds and steps are accepted.
    pub ty: Option<TyRef<'a>>,
    /// Whether they would be accepted if dimensions were ignored.
    pub fits_other_dims: bool,
}

/// The typing result of ranges as in a domain literal.
#[derive(Clone, Copy)]
pub struct Ranges<'a> {
    /// The first type error in them, including operands that can't be there (Y6).
    pub first: Option<Refusal>,
    /// The type of the literal; None if a bound or step has no type.
    pub types: Option<Literal<'a>>,
}

fn rect_type<'a>(count: usize, types: OperandTypes<'a>) -> Option<TyRef<'a>>
    ensures { option_map ty_view result ≡ summary_rect_type count (summary_of types.entry) }
{
    if types.ints {
        Some(TyRef::Rc(count))
    } else if count == 1 {
        match types.common_dim {
            Some(dim) => Some(TyRef::Rc(dim)),
            None => None,
        }
    } else {
        None
    }
}

fn fits_other_dims(count: usize, types: OperandTypes) -> bool
    ensures { result ≡ summary_fits_other_dims count (summary_of types.entry) }
{
    types.ints || count == 1 && types.points
}

/// The type of `count` ranges as a domain literal, given the types of their bounds and steps.
pub fn literal_types<'a>(count: usize, types: Option<OperandTypes<'a>>) -> Option<Literal<'a>>
    ensures { option_map literal_of result ≡ option_map (summary_literal count)
        (option_map summary_of types.entry) }
{
    match types {
        Some(types) => Some(Literal {
            ty: rect_type(count, types),
            fits_other_dims: fits_other_dims(count, types),
        }),
        None => None,
    }
}

/// The typing result of a domain literal with `count` ranges, by itself.
pub fn rect<'a>(place: Place, count: usize, types: Option<OperandTypes<'a>>) -> TypedExpr<'a>
    ensures known { typed_of result
        ≡ plain (option_and_then (summary_rect_type count) (option_map summary_of types.entry)) }
    ensures first { result.first ≡ earliest (judged (option_map summary_of types.entry)
        (λ (told : OperandSummary). mistaken_at place (is_some (summary_rect_type count told))
        (summary_fits_other_dims count told))) }
{
    match types {
        Some(types) => TypedExpr::accepted(
            place,
            rect_type(count, types),
            fits_other_dims(count, types),
        ),
        None => TypedExpr::untyped(),
    }
}
