// The right sides of declarations and assignments, each with the store of its value.

ghost use Rattle.std.specs.Prelude.{◌≡◌, OnOk, IfOk, map};
ghost use Rattle.ti_syntax.specs.Trees.Views.{maybe_of};
ghost use Rattle.ti_lang.specs.Program.Views.{expression_of, extent_of, initial_of};
ghost use Rattle.ti_lang.specs.Typing.Called.{called_method};
ghost use Rattle.ti_lang.specs.Meaning.Calls.{call_by};
ghost use Rattle.ti_lower_expr.specs.Coding.{kind_in};
ghost use Rattle.ti_lower.specs.Mirrors.Positions.{where_of, dest_of};
ghost use Rattle.ti_lower.specs.Mirrors.Values.{valued_on, region_on, spread_on, root_on, init_on};

use crate::calls::{call, call_site, number_called};
use crate::emit_context::EmitContext;
use crate::receivers::{Receiver, evaluate_into, store_result};
use crate::values::{StoreSource, known_value, rect, value};
use ti_base::{CollKind, Memory, Place, Value};
use ti_code::{Instr, Operation};
use ti_lang::program::{Dims, Expr, Init};
use ti_lang::typing::{syntactic_type, zero_of_type};
use ti_lower_expr::{OperandClass, StaticRepr, emit, kind_of_seen, u32_sum};

/// Generates an expression and the store of its value. A call comes before its target is evaluated, another expression after it.
pub fn value_and_store(
    context: &EmitContext,
    receiver: Receiver,
    expr: &Expr,
    out: &mut Vec<Instr>,
) -> Result<(), Memory>
    ensures { OnOk result (out.new.items ≡ valued_on (where_of context.now) (dest_of receiver.entry) (expression_of expr.now)
        (call_by (expression_of expr.now) (called_method (where_of context.now).program (where_of context.now).this (expression_of expr.now)))
        out.old.items) }
{
    match call_site(context.site.program, context.site.this, expr) {
        Some(c) => {
            call(
                context,
                number_called(context.site.program, context.site.this, expr)?,
                &c,
                out,
            )?;
            let ty = syntactic_type(context.site.program, context.site.this, expr);
            store_result(context, receiver, kind_of_seen(ty), StaticRepr::Other, out)
        }
        None => evaluate_into(context, receiver, StoreSource::Value(expr), out),
    }
}

// Pushes the region in which an object or a grid is placed; 0 if none is given.
fn region(context: &EmitContext, region: &Option<Expr>, out: &mut Vec<Instr>) -> Result<(), Memory>
    ensures { OnOk result (out.new.items ≡ region_on (where_of context.now) (maybe_of expression_of region.now) out.old.items) }
{
    match region {
        None => emit(Instr::Const(Value::Region(0)), out),
        Some(x) => value(context, x, out),
    }
}

// Pushes the domain of a new grid.
fn extent(
    context: &EmitContext,
    bracket: Place,
    dims: &Dims,
    out: &mut Vec<Instr>,
) -> Result<(), Memory>
    ensures { OnOk result (out.new.items ≡ spread_on (where_of context.now) bracket (extent_of dims.now) out.old.items) }
{
    match dims {
        Dims::Domain(x) => value(context, x, out),
        Dims::Ranges(ranges) => rect(context, bracket, ranges, out),
    }
}

// Generates a broadcast after the root's number: the root evaluates its contribution, the other processes push `false`; all arrive and
// leave. Returns the kind of the contribution's type.
fn root(
    context: &EmitContext,
    place: Place,
    expr: &Expr,
    out: &mut Vec<Instr>,
) -> Result<OperandClass, Memory>
    ensures code { OnOk result (out.new.items
        ≡ root_on (where_of context.now) place (expression_of expr.now) out.old.items) }
    ensures kind { IfOk result (λ k. k
        ≡ kind_in (where_of context.now).program (where_of context.now).this
        (expression_of expr.now)) }
{
    out.extend_from_slice(&[
        Instr::RootTest(place),
        Instr::Dup,
        Instr::ThisProc,
        Instr::Operate(Operation::Eq, place),
    ])?;
    let jump = out.len();
    emit(Instr::JumpIfNot(0), out)?;
    let value = known_value(context, expr, out)?;
    let other = u32_sum(out.len(), 1)?;
    let end = u32_sum(out.len(), 2)?;
    if jump < out.len() {
        out[jump] = Instr::JumpIfNot(other);
    }
    out.extend_from_slice(&[
        Instr::Jump(end),
        Instr::Const(Value::Bool(false)),
        Instr::Arrive(CollKind::Broadcast, place),
        Instr::Depart(place),
    ])?;
    Ok(value.kind)
}

/// Generates a right side and the store of its value.
pub fn init(
    context: &EmitContext,
    receiver: Receiver,
    init: &Init,
    out: &mut Vec<Instr>,
) -> Result<(), Memory>
    ensures { OnOk result (out.new.items ≡ init_on (where_of context.now) (dest_of receiver.entry) (initial_of init.now) out.old.items) }
{
    match init {
        Init::Value(x) => value_and_store(context, receiver, x, out),
        Init::NewRegion(place) => {
            out.extend_from_slice(&[
                Instr::Arrive(CollKind::MakeRegion, *place),
                Instr::Depart(*place),
            ])?;
            store_result(
                context,
                receiver,
                OperandClass::Numbers,
                StaticRepr::Other,
                out,
            )
        }
        Init::NewObject {
            place,
            region: r,
            class,
        } => {
            region(context, r, out)?;
            emit(Instr::NewObj(*class, *place), out)?;
            store_result(
                context,
                receiver,
                OperandClass::Numbers,
                StaticRepr::Other,
                out,
            )
        }
        Init::NewGrid {
            place,
            region: r,
            element,
            bracket,
            dims,
        } => {
            region(context, r, out)?;
            extent(context, *bracket, dims, out)?;
            emit(Instr::NewGrid(zero_of_type(&element.ty), *place), out)?;
            store_result(
                context,
                receiver,
                OperandClass::Numbers,
                StaticRepr::Other,
                out,
            )
        }
        Init::Broadcast {
            place,
            value: x,
            root: r,
        } => {
            value(context, r, out)?;
            let kind = root(context, *place, x, out)?;
            store_result(context, receiver, kind, StaticRepr::Other, out)
        }
    }
}
