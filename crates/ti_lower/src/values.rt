// The code of expressions in statements, by `lower_value`.

ghost use Rattle.std.specs.Prelude.{◌≡◌, OnOk, IfOk, map};
ghost use Rattle.ti_lang.specs.Program.Expressions.{numbered_exps};
ghost use Rattle.ti_lang.specs.Program.Expressions as x;
ghost use Rattle.ti_lang.specs.Program.Views.{expression_of, bound_of};
ghost use Rattle.ti_lower_expr.specs.Coding.{kind_in};
ghost use Rattle.ti_lower_expr.specs.Knowing.{known_of};
ghost use Rattle.ti_lower.specs.Mirrors.Positions.{where_of, source_of, source_kind, source_known};
ghost use Rattle.ti_lower.specs.Mirrors.Values.{value_on, values_on, source_on};

use crate::emit_context::EmitContext;
use ti_base::{Memory, Place};
use ti_code::Instr;
use ti_lang::program::{Expr, Range};
use ti_lower_expr::{
    OperandClass, StaticRepr, emit, kind_of_seen, lower_expr, lower_rect, lower_value,
};

/// A right side: an expression, or a value in a temporary slot, of which this is known.
#[derive(Clone, Copy)]
pub enum StoreSource<'a> {
    Value(&'a Expr),
    Temporary {
        slot: u32,
        kind: OperandClass,
        known: StaticRepr,
    },
}

/// What is statically known of a value: the kind of its type, and which conversions are idle.
#[derive(Clone, Copy)]
pub struct KnownValue {
    pub kind: OperandClass,
    pub known: StaticRepr,
}

/// Generates an expression, and returns what is statically known of its value.
#[tactic(auto, using(crate::proofs::Hiding::hidden_slots))]
pub fn known_value(
    context: &EmitContext,
    expr: &Expr,
    out: &mut Vec<Instr>,
) -> Result<KnownValue, Memory>
    ensures code { OnOk result (out.new.items
        ≡ value_on (where_of context.now) (expression_of expr.now) out.old.items) }
    ensures kind { IfOk result (λ t. t.kind
        ≡ kind_in (where_of context.now).program (where_of context.now).this
        (expression_of expr.now)) }
    ensures known { IfOk result (λ t. t.known
        ≡ known_of (where_of context.now).program (where_of context.now).this
        (expression_of expr.now)) }
{
    let value = lower_value(&context.site, expr, out)?;
    Ok(KnownValue {
        kind: kind_of_seen(value.ty),
        known: value.known,
    })
}

/// Generates an expression.
#[tactic(auto, using(crate::proofs::Hiding::hidden_slots))]
pub fn value(context: &EmitContext, expr: &Expr, out: &mut Vec<Instr>) -> Result<(), Memory>
    ensures { OnOk result (out.new.items ≡ value_on (where_of context.now) (expression_of expr.now) out.old.items) }
{
    lower_expr(&context.site, expr, out)
}

/// Generates the rectangular domain of ranges.
#[tactic(auto, using(crate::proofs::Hiding::hidden_slots))]
pub fn rect(
    context: &EmitContext,
    place: Place,
    ranges: &[Range],
    out: &mut Vec<Instr>,
) -> Result<(), Memory>
    ensures { OnOk result (out.new.items ≡ value_on (where_of context.now) (x.rect place (map bound_of ranges.now)) out.old.items) }
{
    lower_rect(&context.site, place, ranges, out)
}

/// Generates expressions, in order.
pub fn values(context: &EmitContext, exprs: &[Expr], out: &mut Vec<Instr>) -> Result<(), Memory>
    ensures { OnOk result (out.new.items ≡ values_on (where_of context.now) (numbered_exps (map expression_of exprs.now)) out.old.items) }
{
    for x in exprs {
        value(context, x, out)?;
    }
    Ok(())
}

/// Generates a right side, and returns what is statically known of its value.
pub fn source(
    context: &EmitContext,
    right: StoreSource,
    out: &mut Vec<Instr>,
) -> Result<KnownValue, Memory>
    ensures code { OnOk result (out.new.items
        ≡ source_on (where_of context.now) (source_of right.entry) out.old.items) }
    ensures kind { IfOk result (λ t. t.kind
        ≡ source_kind (where_of context.now).program (where_of context.now).this right.entry) }
    ensures known { IfOk result (λ t. t.known
        ≡ source_known (where_of context.now).program (where_of context.now).this right.entry) }
{
    match right {
        StoreSource::Value(x) => known_value(context, x, out),
        StoreSource::Temporary { slot, kind, known } => {
            emit(Instr::Load(slot), out)?;
            Ok(KnownValue { kind, known })
        }
    }
}
