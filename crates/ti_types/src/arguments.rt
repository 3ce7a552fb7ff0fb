// Typing of the arguments of calls of declared methods.
ghost use Rattle.std.specs.Prelude.{◌≡◌, map, length, slice_get};
ghost use Rattle.std.specs.Option.{option_map};
ghost use Rattle.ti_lang.specs.Program.Expressions.{numbered_exps};
ghost use Rattle.ti_lang.specs.Program.Views.{expression_of, numbered_method_of, numbered_params_of, numbered_param_of};
ghost use Rattle.ti_lang.specs.Typing.Declared.{result_type, types_of};
ghost use Rattle.ti_lang.specs.Typing.TyRef.{ty_view};
ghost use Rattle.ti_rules.specs.Mirrors.First.{earliest};
ghost use Rattle.ti_rules.specs.Broken.Expressions.{places_of};
ghost use Rattle.ti_rules.specs.Broken.Calls.{first_misfit};
ghost use Rattle.ti_types.specs.Results.{typed_of};
ghost use Rattle.ti_types.specs.Mirrors.Arguments.{summary_of, types_in, parameter_types, method_call_typing, summary_params_refusal, summary_call_refusal, summary_call};

use crate::fitting::where_true;
use crate::operands::OperandTypes;
use crate::typed_expr::TypedExpr;
use ti_base::Place;
use ti_lang::program::{Expr, Method, Param, Params, ResultType};
use ti_lang::typing::TyRef;
use ti_rules::{Refusal, Rule, refused_if};

#[tactic(auto, using(crate::proofs::Parameters::lookups))]
fn type_at<'a>(params: &'a [Param], index: usize) -> Option<TyRef<'a>>
    ensures { option_map ty_view result ≡ slice_get (types_of (map numbered_param_of params.now)) index }
{
    if index < params.len() {
        Some(TyRef::of(&params[index].ty.ty, false))
    } else {
        None
    }
}

fn type_in<'a>(params: &'a Params, index: usize) -> Option<TyRef<'a>>
    ensures { option_map ty_view result ≡ slice_get (types_in (numbered_params_of params.now)) index }
{
    match params {
        Params::MainArgs => None,
        Params::Typed(params) => type_at(params, index),
    }
}

/// The type of parameter `index` of a method; None if there is no method or no such parameter.
pub fn parameter_type<'a>(method: Option<&'a Method>, index: usize) -> Option<TyRef<'a>>
    ensures { option_map ty_view result ≡ slice_get (parameter_types (option_map (λ method. numbered_method_of method.now) method.entry)) index }
{
    match method {
        Some(method) => type_in(&method.params, index),
        None => None,
    }
}

/// The result type of a method.
pub fn result_type(method: &Method) -> TyRef<'_>
    ensures { ty_view result ≡ result_type (numbered_method_of method.now) }
{
    match &method.result {
        ResultType::Void => TyRef::Void,
        ResultType::Typed(ty) => TyRef::of(&ty.ty, false),
    }
}

#[tactic(auto, unfolding(ti_rules::specs::Mirrors::First::earliest, ti_rules::specs::Mirrors::First::earlier_of))]
fn first_refused(args: &[Expr]) -> Option<Refusal>
    ensures { result ≡ earliest (first_misfit (places_of (numbered_exps (map expression_of args.now)))) }
{
    match args.first() {
        Some(arg) => refused_if(true, Rule::Y2, arg.place()),
        None => None,
    }
}

/// The typing result of a call of a method by itself, given the first argument that doesn't fit its parameter.
#[tactic(auto, using(crate::proofs::Parameters::counts))]
fn typed_method_call<'a>(
    place: Place,
    method: &'a Method,
    args: &[Expr],
    misfit: Option<Refusal>,
) -> TypedExpr<'a>
    ensures known { typed_of result ≡ method_call_typing (numbered_method_of method.now)
        (length args.now) misfit }
    ensures first { result.first
        ≡ summary_params_refusal place (places_of (numbered_exps (map expression_of args.now)))
        (numbered_params_of method.now.params) (length args.now) misfit }
{
    match &method.params {
        Params::MainArgs => {
            if args.len() == 1 {
                TypedExpr::call(None, first_refused(args))
            } else {
                TypedExpr::call(None, refused_if(true, Rule::Y4, place))
            }
        }
        Params::Typed(params) => {
            if args.len() == params.len() {
                TypedExpr::call(where_true(misfit.is_none(), result_type(method)), misfit)
            } else {
                TypedExpr::call(None, refused_if(true, Rule::Y4, place))
            }
        }
    }
}

/// The typing result of a call by itself; `otherwise` is the error if there is no such method.
pub fn typed_call<'a>(
    place: Place,
    method: Option<&'a Method>,
    otherwise: Option<Refusal>,
    args: &[Expr],
    types: Option<OperandTypes<'a>>,
) -> TypedExpr<'a>
    ensures known { typed_of result ≡ summary_call (option_map (λ method. numbered_method_of method.now) method.entry) (length args.now)
        (option_map summary_of types.entry) }
    ensures first { result.first ≡ summary_call_refusal place (places_of (numbered_exps (map expression_of args.now)))
        (option_map (λ method. numbered_method_of method.now) method.entry) otherwise (length args.now) (option_map summary_of types.entry) }
{
    match (types, method) {
        (Some(told), Some(method)) => typed_method_call(place, method, args, told.misfit),
        (Some(_), None) => TypedExpr::plain(None, otherwise),
        (None, _) => TypedExpr::plain(None, None),
    }
}
