// Stores: the code that takes a value to where it is needed. The target's reference and index are evaluated before the value, as the
// language says, except for a value of a call, a `new` or a collective, which comes first.

ghost use Rattle.std.specs.Prelude.{◌≡◌, OnOk, IfOk};
ghost use Rattle.ti_lang.specs.Program.Views.{variable_of, type_use_of};
ghost use Rattle.ti_lang.specs.Typing.TyRef.{ty_view};
ghost use Rattle.ti_lower_expr.specs.Coding.{operation};
ghost use Rattle.ti_lower_expr.specs.Knowing.{operated_known};
ghost use Rattle.ti_lang.specs.Meaning.Processes.{Assigned, Updated};
ghost use Rattle.ti_lang.specs.Program.Views.{expression_of};
ghost use Rattle.ti_lower.specs.Receivers.{InSlot, InField, InElement};
ghost use Rattle.ti_lower.specs.Mirrors.Positions.{where_of, target_kind, dest_of};
ghost use Rattle.ti_lower.specs.Mirrors.Positions.{source_of, source_kind, source_known};
ghost use Rattle.ti_lower.specs.Mirrors.Values.{operated_on, update_from, declared_on};
ghost use Rattle.ti_lower.specs.Mirrors.Values.{assigned_on, into_from, spill_on, store_result_on};

use crate::emit_context::{EmitContext, slot_after, with_temporary};
use crate::targets::{StoreTarget, held_known, keep, load_variable, place, store, target_of};
use crate::values::{StoreSource, source};
use ti_base::{Memory, Place};
use ti_code::Instr;
use ti_lang::program::{Expr, TypeUse, Variable};
use ti_lang::tree::BinaryOperator;
use ti_lang::typing::{TyRef, syntactic_type};
use ti_lower_expr::{
    OperandClass, StaticRepr, add_conversion, emit, kind_of_seen, known_of_binary, operation_of,
};

/// What becomes of a value: it is dropped, initializes a new variable, or is written to the target of an assignment, perhaps by an
/// operator.
#[derive(Clone, Copy)]
pub enum Receiver<'a> {
    Nowhere,
    Declared {
        place: Place,
        variable: u32,
        ty: &'a TypeUse,
    },
    Assigned {
        place: Place,
        target: &'a Expr,
    },
    Updated {
        place: Place,
        operator: BinaryOperator,
        target: &'a Expr,
    },
}

// ---- compound assignments

/// What is known of a compound assignment.
#[derive(Clone, Copy)]
struct Updating<'a> {
    /// The place of the assignment.
    place: Place,
    /// The place of the target, at which its old value is read.
    read: Place,
    operator: BinaryOperator,
    /// The kind of the target's type.
    left: OperandClass,
    /// What is known of the target's old value.
    held: StaticRepr,
    /// The type of the target.
    ty: TyRef<'a>,
}

// Generates a right side and the operator, and returns what is known of the operator's result.
fn apply_operator(
    context: &EmitContext,
    update: &Updating,
    right: StoreSource,
    out: &mut Vec<Instr>,
) -> Result<StaticRepr, Memory>
    ensures code { OnOk result (out.new.items
        ≡ operated_on (where_of context.now) update.now.place
        (operation update.now.operator update.now.left
        (source_kind (where_of context.now).program (where_of context.now).this right.entry))
        (source_of right.entry) out.old.items) }
    ensures known { IfOk result (λ k. k ≡ operated_known update.now.operator update.now.held
        (source_known (where_of context.now).program (where_of context.now).this right.entry)) }
{
    let value = source(context, right, out)?;
    let operation = operation_of(update.operator, update.left, value.kind);
    emit(Instr::Operate(operation, update.place), out)?;
    Ok(known_of_binary(update.operator, update.held, value.known))
}

// Generates the compound assignment of a variable.
fn update_slot(
    context: &EmitContext,
    update: &Updating,
    variable: &Variable,
    right: StoreSource,
    out: &mut Vec<Instr>,
) -> Result<(), Memory>
    ensures { OnOk result (out.new.items
        ≡ update_from (where_of context.now) update.now.place update.now.read update.now.operator
        update.now.left update.now.held (ty_view update.now.ty)
        (InSlot (variable_of variable.now)) right.entry out.old.items) }
{
    emit(load_variable(context, variable)?, out)?;
    let known = apply_operator(context, update, right, out)?;
    let target = StoreTarget::Slot(variable);
    store(context, update.place, update.ty, known, target, out)
}

// Generates the compound assignment of a field.
fn update_field(
    context: &EmitContext,
    update: &Updating,
    field: u32,
    right: StoreSource,
    out: &mut Vec<Instr>,
) -> Result<(), Memory>
    ensures { OnOk result (out.new.items
        ≡ update_from (where_of context.now) update.now.place update.now.read update.now.operator
        update.now.left update.now.held (ty_view update.now.ty)
        (InField field) right.entry out.old.items) }
{
    out.extend_from_slice(&[Instr::Dup, Instr::GetField(field, update.read)])?;
    let known = apply_operator(context, update, right, out)?;
    let target = StoreTarget::Field(field);
    store(context, update.place, update.ty, known, target, out)
}

// Generates the compound assignment of an element, whose index is kept in a temporary slot.
fn update_element(
    context: &EmitContext,
    update: &Updating,
    right: StoreSource,
    out: &mut Vec<Instr>,
) -> Result<(), Memory>
    ensures { OnOk result (out.new.items
        ≡ update_from (where_of context.now) update.now.place update.now.read update.now.operator
        update.now.left update.now.held (ty_view update.now.ty)
        InElement right.entry out.old.items) }
{
    let n = slot_after(context, 0)?;
    let m = slot_after(context, 1)?;
    out.extend_from_slice(&[
        Instr::Keep(n),
        Instr::Dup,
        Instr::Load(n),
        Instr::GetElem(update.read),
    ])?;
    let known = apply_operator(&with_temporary(context)?, update, right, out)?;
    add_conversion(update.place, update.ty, known, out)?;
    out.extend_from_slice(&[
        Instr::Keep(m),
        Instr::Load(n),
        Instr::Load(m),
        Instr::PutElem(update.place),
        Instr::Trim(n),
    ])?;
    Ok(())
}

// Generates the compound assignment of a target whose reference and index are on the stack.
fn update(
    context: &EmitContext,
    info: &Updating,
    target: StoreTarget,
    right: StoreSource,
    out: &mut Vec<Instr>,
) -> Result<(), Memory>
    ensures { OnOk result (out.new.items
        ≡ update_from (where_of context.now) info.now.place info.now.read info.now.operator
        info.now.left info.now.held (ty_view info.now.ty)
        (target_kind target.entry) right.entry out.old.items) }
{
    match target {
        StoreTarget::Slot(v) => update_slot(context, info, v, right, out),
        StoreTarget::Field(field) => update_field(context, info, field, right, out),
        StoreTarget::Element => update_element(context, info, right, out),
    }
}

// Generates a compound assignment, the target's reference and index included.
fn update_target(
    context: &EmitContext,
    place_of: Place,
    operator: BinaryOperator,
    target: &Expr,
    right: StoreSource,
    out: &mut Vec<Instr>,
) -> Result<(), Memory>
    ensures { OnOk result (out.new.items ≡ into_from (where_of context.now)
        (Updated place_of operator (expression_of target.now)) right.entry out.old.items) }
{
    let ty = syntactic_type(context.site.program, context.site.this, target);
    let written = target_of(context, target)?;
    let info = Updating {
        place: place_of,
        read: target.place(),
        operator,
        left: kind_of_seen(ty),
        held: held_known(written),
        ty,
    };
    place(context, target, out)?;
    update(context, &info, written, right, out)
}

// ---- stores

// Stores the top operand in a new variable.
fn init_variable(
    context: &EmitContext,
    place: Place,
    ty: &TypeUse,
    known: StaticRepr,
    out: &mut Vec<Instr>,
) -> Result<(), Memory>
    ensures { OnOk result (out.new.items ≡ declared_on (where_of context.now) place (type_use_of ty.now).type known out.old.items) }
{
    add_conversion(place, TyRef::of(&ty.ty, false), known, out)?;
    emit(Instr::Keep(slot_after(context, 0)?), out)
}

// Generates the target's reference and index and a right side, and stores its value.
fn assign_target(
    context: &EmitContext,
    place_of: Place,
    target: &Expr,
    right: StoreSource,
    out: &mut Vec<Instr>,
) -> Result<(), Memory>
    ensures { OnOk result (out.new.items
        ≡ assigned_on (where_of context.now) place_of (expression_of target.now)
        (source_known (where_of context.now).program (where_of context.now).this right.entry)
        (source_of right.entry) out.old.items) }
{
    place(context, target, out)?;
    let value = source(context, right, out)?;
    let ty = syntactic_type(context.site.program, context.site.this, target);
    let written = target_of(context, target)?;
    store(context, place_of, ty, value.known, written, out)
}

/// Generates a right side and the store of its value. The reference and the index of a target come first.
pub fn evaluate_into(
    context: &EmitContext,
    receiver: Receiver,
    right: StoreSource,
    out: &mut Vec<Instr>,
) -> Result<(), Memory>
    ensures { OnOk result (out.new.items
        ≡ into_from (where_of context.now) (dest_of receiver.entry) right.entry out.old.items) }
{
    match receiver {
        Receiver::Nowhere => {
            source(context, right, out)?;
            emit(Instr::Pop, out)
        }
        Receiver::Declared {
            place,
            variable: _,
            ty,
        } => {
            let value = source(context, right, out)?;
            init_variable(context, place, ty, value.known, out)
        }
        Receiver::Assigned { place, target } => assign_target(context, place, target, right, out),
        Receiver::Updated {
            place,
            operator,
            target,
        } => update_target(context, place, operator, target, right, out),
    }
}

// Spills a computed value to a temporary slot while the target's reference and index are evaluated.
fn spill_and_store(
    context: &EmitContext,
    receiver: Receiver,
    kind: OperandClass,
    known: StaticRepr,
    out: &mut Vec<Instr>,
) -> Result<(), Memory>
    ensures { OnOk result (out.new.items ≡ spill_on (where_of context.now) (dest_of receiver.entry) kind known out.old.items) }
{
    let slot = slot_after(context, 0)?;
    emit(Instr::Keep(slot), out)?;
    let right = StoreSource::Temporary { slot, kind, known };
    evaluate_into(&with_temporary(context)?, receiver, right, out)?;
    emit(Instr::Trim(slot), out)
}

// Stores a computed value in the target of an assignment; a variable needs no spill.
fn store_result_in(
    context: &EmitContext,
    place_of: Place,
    target: &Expr,
    kind: OperandClass,
    known: StaticRepr,
    out: &mut Vec<Instr>,
) -> Result<(), Memory>
    ensures { OnOk result (out.new.items ≡ store_result_on (where_of context.now)
        (Assigned place_of (expression_of target.now)) kind known out.old.items) }
{
    match target {
        Expr::Variable(_, v) => {
            let ty = syntactic_type(context.site.program, context.site.this, target);
            add_conversion(place_of, ty, known, out)?;
            keep(context, v, out)
        }
        _ => spill_and_store(
            context,
            Receiver::Assigned {
                place: place_of,
                target,
            },
            kind,
            known,
            out,
        ),
    }
}

/// Stores the value of a call, a `new` or a collective, which is on top before its target is evaluated.
pub fn store_result(
    context: &EmitContext,
    receiver: Receiver,
    kind: OperandClass,
    known: StaticRepr,
    out: &mut Vec<Instr>,
) -> Result<(), Memory>
    ensures { OnOk result (out.new.items ≡ store_result_on (where_of context.now) (dest_of receiver.entry) kind known out.old.items) }
{
    match receiver {
        Receiver::Nowhere => emit(Instr::Pop, out),
        Receiver::Declared {
            place,
            variable: _,
            ty,
        } => init_variable(context, place, ty, known, out),
        Receiver::Assigned { place, target } => store_result_in(
            context, place, target, kind, known, out,
        ),
        Receiver::Updated {
            place: _,
            operator: _,
            target: _,
        } => spill_and_store(context, receiver, kind, known, out),
    }
}
