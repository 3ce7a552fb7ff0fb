// The targets of assignments: the code of their references and indices, and of the store.

ghost use Rattle.std.specs.Prelude.{◌≡◌, ◌∷◌, ◌++◌, [], OnOk, IfOk, map};
ghost use Rattle.ti_lang.specs.Program.Views.{program_of, expression_of, variable_of};
ghost use Rattle.ti_lang.specs.Typing.TyRef.{ty_view};
ghost use Rattle.ti_code.specs.declared.instr.Instr.TheVariants as i;
ghost use Rattle.ti_lower_expr.specs.Coding.{load_variable as loaded_spec};
ghost use Rattle.ti_lower.specs.Receivers.{written_slot, keep_code as kept_spec, held_known as held_spec, store_code, kind_of_target};
ghost use Rattle.ti_lower.specs.Mirrors.Positions.{where_of, target_kind};
ghost use Rattle.ti_lower.specs.Mirrors.Values.{place_on, stored_on};

use crate::emit_context::EmitContext;
use crate::values::{value, values};
use ti_base::{Memory, Place, Value};
use ti_code::Instr;
use ti_lang::program::{Declared, Expr, Variable};
use ti_lang::typing::{TyRef, syntactic_type};
use ti_lower_expr::{
    StaticRepr, add_conversion, add_point, declared_zero, emit, known_declared, load_this,
    resolve_field, to_u32,
};

/// The target of an assignment: the slot of a variable, a field by its number, or an element.
#[derive(Clone, Copy)]
pub enum StoreTarget<'a> {
    Slot(&'a Variable),
    Field(u32),
    Element,
}

// The slot of a variable that is written; `None` for the variable of a foreach or one without a slot.
#[tactic(auto, using(crate::proofs::Hiding::hidden_slots))]
fn slot_to_write(context: &EmitContext, variable: &Variable) -> Result<Option<u32>, Memory>
    ensures { IfOk result (λ k. k ≡ written_slot (variable_of variable.now) (where_of context.now).names) }
{
    match &variable.declared {
        Declared::Typed { single: _, ty: _ } => match context.site.slots.find(variable) {
            Some(k) => Ok(Some(to_u32(k)?)),
            None => Ok(None),
        },
        Declared::Foreach => Ok(None),
    }
}

/// Pushes the value of a variable that is written.
pub fn load_variable(context: &EmitContext, variable: &Variable) -> Result<Instr, Memory>
    ensures { IfOk result (λ i. i ≡ loaded_spec (written_slot (variable_of variable.now) (where_of context.now).names) (variable_of variable.now)) }
{
    match slot_to_write(context, variable)? {
        Some(k) => Ok(Instr::Load(k)),
        None => Ok(declared_zero(&variable.declared)),
    }
}

/// Pops the top operand into the slot of a variable; drops it if there is no slot.
pub fn keep(context: &EmitContext, variable: &Variable, out: &mut Vec<Instr>) -> Result<(), Memory>
    ensures { OnOk result (out.new.items ≡ out.old.items ++ kept_spec (written_slot (variable_of variable.now) (where_of context.now).names) ∷ []) }
{
    match slot_to_write(context, variable)? {
        Some(k) => emit(Instr::Keep(k), out),
        None => emit(Instr::Pop, out),
    }
}

/// What is known of the value in a target.
pub fn held_known(target: StoreTarget) -> StaticRepr
    ensures { result ≡ held_spec (target_kind target.entry) }
{
    match target {
        StoreTarget::Slot(v) => known_declared(&v.declared),
        StoreTarget::Field(_) => StaticRepr::Other,
        StoreTarget::Element => StaticRepr::Other,
    }
}

/// The target that an expression denotes.
pub fn target_of<'a>(context: &EmitContext, target: &'a Expr) -> Result<StoreTarget<'a>, Memory>
    ensures { IfOk result (λ t. target_kind t ≡ kind_of_target (where_of context.now).program (where_of context.now).this (expression_of target.now)) }
{
    match target {
        Expr::Variable(_, v) => Ok(StoreTarget::Slot(v)),
        Expr::OwnField(_, field) => Ok(StoreTarget::Field(*field)),
        Expr::Select {
            place: _,
            receiver,
            name,
        } => {
            let ty = syntactic_type(context.site.program, context.site.this, receiver);
            Ok(StoreTarget::Field(resolve_field(context.site.program, ty, *name)?))
        }
        Expr::Index {
            place: _,
            receiver: _,
            indices: _,
        } => Ok(StoreTarget::Element),
        _ => Ok(StoreTarget::Field(0)),
    }
}

/// Generates the reference and the index of a target.
#[tactic(auto, using(crate::proofs::Hiding::hidden_slots, ti_lang::proofs::Lemmas::program_bridges))]
pub fn place(context: &EmitContext, target: &Expr, out: &mut Vec<Instr>) -> Result<(), Memory>
    ensures { OnOk result (out.new.items ≡ place_on (where_of context.now) (expression_of target.now) out.old.items) }
{
    match target {
        Expr::Variable(_, _) => Ok(()),
        Expr::OwnField(_, _) => emit(load_this(context.site.slots), out),
        Expr::Select {
            place: _,
            receiver,
            name: _,
        } => value(context, receiver, out),
        Expr::Index {
            place: _,
            receiver,
            indices,
        } => {
            value(context, receiver, out)?;
            values(context, indices, out)?;
            add_point(indices, out)
        }
        _ => emit(Instr::Const(Value::Bool(false)), out),
    }
}

// Stores the top operand; the reference and the index of the target are below it.
fn add_store(
    context: &EmitContext,
    place: Place,
    target: StoreTarget,
    out: &mut Vec<Instr>,
) -> Result<(), Memory>
    ensures { OnOk result (out.new.items ≡ out.old.items ++ store_code (where_of context.now).names place (target_kind target.entry)) }
{
    match target {
        StoreTarget::Slot(v) => keep(context, v, out),
        StoreTarget::Field(field) => emit(Instr::PutField(field, place), out),
        StoreTarget::Element => emit(Instr::PutElem(place), out),
    }
}

/// Converts the top operand to the target's type and stores it.
pub fn store(
    context: &EmitContext,
    place: Place,
    ty: TyRef,
    known: StaticRepr,
    target: StoreTarget,
    out: &mut Vec<Instr>,
) -> Result<(), Memory>
    ensures { OnOk result (out.new.items ≡ stored_on (where_of context.now) place (ty_view ty.entry) known
        (target_kind target.entry) out.old.items) }
{
    add_conversion(place, ty, known, out)?;
    add_store(context, place, target, out)
}
