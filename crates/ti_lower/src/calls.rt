// Calls of declared methods: the object, the arguments, and the call instruction.

ghost use Rattle.std.specs.Prelude.{◌≡◌, ◌==◌, ◌&&◌, Some, OnOk, IfOk, length, map};
ghost use Rattle.std.specs.List.{position_or_len};
ghost use Rattle.std.specs.Option.{option_map};
ghost use Rattle.ti_lang.specs.Program.Classes.{NumberedMethod};
ghost use Rattle.ti_lang.specs.Program.Expressions.{numbered_exps};
ghost use Rattle.ti_lang.specs.Program.Views.{program_of, expression_of, numbered_method_of, numbered_param_of, numbered_params_of};
ghost use Rattle.ti_lang.specs.Meaning.Calls.{call_by, parameters_of, parameters_from};
ghost use Rattle.ti_lang.specs.Typing.Called.{called_method as called_method_spec};
ghost use Rattle.ti_lower.specs.Calling.{number_called as number_spec};
ghost use Rattle.ti_lower.specs.Mirrors.Positions.{where_of, object_of, call_site_of};
ghost use Rattle.ti_lower.specs.Mirrors.Values.{arg_on, args_on, object_on, call_on};

use crate::emit_context::EmitContext;
use crate::values::{known_value, value};
use ti_base::{Memory, Place};
use ti_code::Instr;
use ti_lang::program::{Expr, Method, Param, Params, ProgramData};
use ti_lang::typing::{TyRef, called_method, syntactic_type};
use ti_lower_expr::{add_conversion, emit, load_this, to_u32};

/// The object of a call: none, `this`, or an expression.
#[derive(Clone, Copy)]
pub enum CallObject<'a> {
    None,
    This,
    Of(&'a Expr),
}

/// A call of a declared method.
#[derive(Clone, Copy)]
pub struct CallSite<'a> {
    pub place: Place,
    pub method: &'a Method,
    pub object: CallObject<'a>,
    pub args: &'a [Expr],
}

// ---- which call

/// The call that an expression is, given the method that it calls; `None` if it isn't a call.
#[tactic(auto, using(ti_lang::proofs::Lemmas::program_bridges))]
fn call_site_in<'a>(expr: &'a Expr, method: &'a Method) -> Option<CallSite<'a>>
    ensures { option_map call_site_of result ≡ call_by (expression_of expr.now) (Some (numbered_method_of method.now)) }
{
    match expr {
        Expr::Call {
            place,
            method: _,
            args,
        } => Some(CallSite {
            place: *place,
            method,
            object: CallObject::None,
            args,
        }),
        Expr::OwnCall {
            place,
            method: _,
            args,
        } => Some(CallSite {
            place: *place,
            method,
            object: CallObject::This,
            args,
        }),
        Expr::Member {
            place,
            receiver,
            name: _,
            args,
        } => Some(CallSite {
            place: *place,
            method,
            object: CallObject::Of(receiver),
            args,
        }),
        _ => None,
    }
}

/// The call that an expression is, if it calls a declared method.
pub fn call_site<'a>(
    program: &'a ProgramData,
    this: Option<u32>,
    expr: &'a Expr,
) -> Option<CallSite<'a>>
    ensures { option_map call_site_of result ≡ call_by (expression_of expr.now)
        (called_method_spec (program_of program.now) this (expression_of expr.now)) }
{
    match called_method(program, this, expr) {
        Some(method) => call_site_in(expr, method),
        None => None,
    }
}

// For the prover: the number of methods.
fn how_many(methods: &[Method]) -> usize
    ensures { result ≡ length methods.now }
{
    methods.len()
}

// The number of the first method of a class and a name, or the number of methods if no method has them.
fn position_of(program: &ProgramData, class: u32, name: u32) -> usize
    ensures { result ≡ position_or_len (λ (m : NumberedMethod). (m.class == class) && (m.name == name)) (program_of program.now).methods }
{
    match program.first_method(class, name) {
        Some(number) => number,
        None => how_many(&program.methods),
    }
}

/// The number of the method that an expression calls; of no meaning if it isn't a call.
pub fn number_called(program: &ProgramData, this: Option<u32>, expr: &Expr) -> Result<u32, Memory>
    ensures { IfOk result (λ n. n ≡ number_spec (program_of program.now) this (expression_of expr.now)) }
{
    match expr {
        Expr::Call {
            place: _,
            method,
            args: _,
        } => Ok(*method),
        Expr::OwnCall {
            place: _,
            method,
            args: _,
        } => Ok(*method),
        Expr::Member {
            place: _,
            receiver,
            name,
            args: _,
        } => match syntactic_type(program, this, receiver) {
            TyRef::Class { class, local: _ } => to_u32(position_of(program, class, *name)),
            _ => Ok(0),
        },
        _ => Ok(0),
    }
}

// ---- its code

// Generates an argument, converted to its parameter's type.
fn arg(
    context: &EmitContext,
    param: &Param,
    expr: &Expr,
    out: &mut Vec<Instr>,
) -> Result<(), Memory>
    ensures { OnOk result (out.new.items ≡ arg_on (where_of context.now) (numbered_param_of param.now).ty.type
        (expression_of expr.now) out.old.items) }
{
    let value = known_value(context, expr, out)?;
    let ty = TyRef::of(&param.ty.ty, false);
    add_conversion(expr.place(), ty, value.known, out)
}

// Generates arguments for parameters, in order.
fn args_for(
    context: &EmitContext,
    params: &[Param],
    exprs: &[Expr],
    out: &mut Vec<Instr>,
) -> Result<(), Memory>
    ensures { OnOk result (out.new.items ≡ args_on (where_of context.now) (parameters_from 0 (map numbered_param_of params.now))
        (numbered_exps (map expression_of exprs.now)) out.old.items) }
{
    let mut i = 0;
    while i < params.len() && i < exprs.len() {
        arg(context, &params[i], &exprs[i], out)?;
        i += 1;
    }
    Ok(())
}

// Generates the arguments of a call.
fn args(context: &EmitContext, call: &CallSite, out: &mut Vec<Instr>) -> Result<(), Memory>
    ensures { OnOk result (out.new.items ≡ args_on (where_of context.now) (parameters_of (call_site_of call.now).method.params)
        (call_site_of call.now).args out.old.items) }
{
    match &call.method.params {
        Params::MainArgs => Ok(()),
        Params::Typed(params) => args_for(context, params, call.args, out),
    }
}

// Generates the object of a call, if it has one.
#[tactic(auto, using(crate::proofs::Hiding::hidden_slots))]
fn add_object(
    context: &EmitContext,
    object: CallObject,
    place: Place,
    out: &mut Vec<Instr>,
) -> Result<(), Memory>
    ensures { OnOk result (out.new.items ≡ object_on (where_of context.now) (object_of place object.entry) out.old.items) }
{
    match object {
        CallObject::None => Ok(()),
        CallObject::This => emit(load_this(context.site.slots), out),
        CallObject::Of(x) => value(context, x, out),
    }
}

/// Generates the object, the arguments, and the call of method `number`.
pub fn call(
    context: &EmitContext,
    number: u32,
    site: &CallSite,
    out: &mut Vec<Instr>,
) -> Result<(), Memory>
    ensures { OnOk result (out.new.items ≡ call_on (where_of context.now) number (call_site_of site.now) out.old.items) }
{
    add_object(context, site.object, site.place, out)?;
    args(context, site, out)?;
    emit(Instr::Call(number, site.place), out)
}
