// Expression statements: copies, exchanges, deletes, calls, and others whose value is dropped.

ghost use Rattle.std.specs.Prelude.{◌≡◌, ◌++◌, ◌∷◌, [], OnOk, map};
ghost use Rattle.ti_base.specs.declared.action.CollKind.TheVariants as coll;
ghost use Rattle.ti_code.specs.declared.instr.Instr.TheVariants as i;
ghost use Rattle.ti_lang.specs.Program.Expressions.{numbered_exps};
ghost use Rattle.ti_lang.specs.Program.Views.{expression_of, value_type_of};
ghost use Rattle.ti_lang.specs.Typing.Kinds.{element_of};
ghost use Rattle.std.specs.Option.{option_map};
ghost use Rattle.ti_lang.specs.Typing.TyRef.{ty_view, built_in_of};
ghost use Rattle.ti_lower.specs.StmtCode.{first_code, as_element, copied_code, taken_code, team_code};
ghost use Rattle.ti_lower.specs.Mirrors.Positions.{where_of, call_site_of};
ghost use Rattle.ti_lower.specs.Mirrors.Values.{nothing_in};
ghost use Rattle.ti_lower.specs.Mirrors.Values as on;

use crate::calls::{CallSite, call, call_site, number_called};
use crate::emit_context::{EmitContext, slot_count};
use crate::values::{value, values};
use ti_base::{CollKind, Memory, Place, Value};
use ti_code::{Instr, Operation, ValueMember};
use ti_lang::program::{Expr, ResultType, Ty};
use ti_lang::typing::{BuiltIn, TyRef, member_called, syntactic_type};
use ti_lower_expr::{add_pops, emit, u32_sum};

// ---- copies and exchanges

// Keeps the first of `count` operands only; without operands it pushes `false`.
fn add_first(count: usize, out: &mut Vec<Instr>) -> Result<(), Memory>
    ensures { OnOk result (out.new.items ≡ out.old.items ++ first_code count) }
{
    if count == 0 {
        emit(Instr::Const(Value::Bool(false)), out)
    } else {
        add_pops(count - 1, out)
    }
}

// Generates the receiver of a member call, and above it the first of its arguments.
#[tactic(auto, using(ti_lang::proofs::Lemmas::many_arguments))]
fn receiver_and_argument(
    context: &EmitContext,
    expr: &Expr,
    args: &[Expr],
    out: &mut Vec<Instr>,
) -> Result<(), Memory>
    ensures { OnOk result (out.new.items ≡ on.both_on (where_of context.now) (expression_of expr.now)
        (numbered_exps (map expression_of args.now)) out.old.items) }
{
    value(context, expr, out)?;
    values(context, args, out)?;
    add_first(args.len(), out)
}

// Keeps both grids of a copy in slots, since both are needed before the domain of either is requested; the one that is read is tested for
// null first. Pushes the intersection of their domains.
fn grids(place: Place, first: usize, out: &mut Vec<Instr>) -> Result<(), Memory>
    ensures { OnOk result (out.new.items ≡ on.grids_on place first out.old.items) }
{
    let read = u32_sum(first, 0)?;
    let written = u32_sum(first, 1)?;
    let there = u32_sum(out.len(), 10)?;
    out.extend_from_slice(&[
        Instr::AsGrid,
        Instr::Keep(read),
        Instr::AsGrid,
        Instr::Keep(written),
        Instr::Load(read),
        Instr::Const(Value::Grid(None)),
        Instr::Operate(Operation::Eq, place),
        Instr::JumpIfNot(there),
        Instr::Load(read),
        Instr::Member(ValueMember::DomainOf, 0, place),
        Instr::Load(written),
        Instr::Member(ValueMember::DomainOf, 0, place),
        Instr::Load(read),
        Instr::Member(ValueMember::DomainOf, 0, place),
        Instr::Common,
    ])?;
    Ok(())
}

// Generates the loop that copies the elements at the points of the domain on top.
fn copy_loop(place: Place, first: usize, out: &mut Vec<Instr>) -> Result<(), Memory>
    ensures { OnOk result (out.new.items ≡ on.elements_on place first (copied_code place first) out.old.items) }
{
    let read = u32_sum(first, 0)?;
    let written = u32_sum(first, 1)?;
    let point = u32_sum(first, 2)?;
    let at = out.len();
    out.extend_from_slice(&[
        Instr::Jump(u32_sum(at, 7)?),
        Instr::Load(written),
        Instr::Load(point),
        Instr::Load(read),
        Instr::Load(point),
        Instr::GetElem(place),
        Instr::PutElem(place),
        Instr::Next(point, u32_sum(at, 9)?),
        Instr::Jump(u32_sum(at, 1)?),
        Instr::Trim(read),
        Instr::Pop,
    ])?;
    Ok(())
}

// Generates the loop that takes, at the points of the domain on top, what each process contributed.
fn exchange_loop(place: Place, first: usize, out: &mut Vec<Instr>) -> Result<(), Memory>
    ensures { OnOk result (out.new.items ≡ on.elements_on place first (taken_code place first) out.old.items) }
{
    let value = u32_sum(first, 0)?;
    let written = u32_sum(first, 1)?;
    let point = u32_sum(first, 2)?;
    let at = out.len();
    out.extend_from_slice(&[
        Instr::Jump(u32_sum(at, 6)?),
        Instr::Load(written),
        Instr::Load(point),
        Instr::Load(point),
        Instr::Take(place),
        Instr::PutElem(place),
        Instr::Next(point, u32_sum(at, 8)?),
        Instr::Jump(u32_sum(at, 1)?),
        Instr::Trim(value),
        Instr::Pop,
    ])?;
    Ok(())
}

// `a.copy(b)`
fn copy(
    context: &EmitContext,
    place: Place,
    expr: &Expr,
    args: &[Expr],
    out: &mut Vec<Instr>,
) -> Result<(), Memory>
    ensures { OnOk result (out.new.items ≡ on.copy_on (where_of context.now) place (expression_of expr.now)
        (numbered_exps (map expression_of args.now)) out.old.items) }
{
    let n = slot_count(context)?;
    receiver_and_argument(context, expr, args, out)?;
    grids(place, n, out)?;
    copy_loop(place, n, out)
}

// Converts the top operand to this element type.
fn add_as_element(ty: &Ty, out: &mut Vec<Instr>) -> Result<(), Memory>
    ensures { OnOk result (out.new.items ≡ out.old.items ++ as_element (value_type_of ty.now)) }
{
    match ty {
        Ty::Long => emit(Instr::Widen, out),
        Ty::Int => emit(Instr::Narrow, out),
        Ty::Class { class: _, local: _ } => emit(Instr::AsObj, out),
        Ty::Grid {
            elem: _,
            dim: _,
            local: _,
        } => emit(Instr::AsGrid, out),
        _ => Ok(()),
    }
}

// Converts the top operand to the element type of a grid.
fn as_element_in(grid: TyRef, out: &mut Vec<Instr>) -> Result<(), Memory>
    ensures { OnOk result (out.new.items ≡ out.old.items ++ as_element (element_of (ty_view grid.entry))) }
{
    match grid {
        TyRef::Grid {
            elem,
            any_dim: _,
            dim: _,
            local: _,
        } => add_as_element(elem, out),
        _ => Ok(()),
    }
}

// Keeps the value and the grid of an exchange in slots, checks that the grid's domain is that of the processes, and exchanges.
fn exchange_arrival(place: Place, first: usize, out: &mut Vec<Instr>) -> Result<(), Memory>
    ensures { OnOk result (out.new.items ≡ out.old.items ++ team_code place first) }
{
    let value = u32_sum(first, 0)?;
    let written = u32_sum(first, 1)?;
    out.extend_from_slice(&[
        Instr::Keep(value),
        Instr::Keep(written),
        Instr::Load(written),
        Instr::Member(ValueMember::DomainOf, 0, place),
        Instr::GridTest(place),
        Instr::Load(value),
        Instr::Arrive(CollKind::Exchange, place),
        Instr::Depart(place),
    ])?;
    Ok(())
}

// `a.exchange(e)`
fn exchange(
    context: &EmitContext,
    place: Place,
    expr: &Expr,
    args: &[Expr],
    out: &mut Vec<Instr>,
) -> Result<(), Memory>
    ensures { OnOk result (out.new.items ≡ on.exchange_on (where_of context.now) place (expression_of expr.now)
        (numbered_exps (map expression_of args.now)) out.old.items) }
{
    let n = slot_count(context)?;
    receiver_and_argument(context, expr, args, out)?;
    as_element_in(
        syntactic_type(context.site.program, context.site.this, expr),
        out,
    )?;
    exchange_arrival(place, n, out)?;
    exchange_loop(place, n, out)
}

// ---- statements that are expressions

// `r.delete()`
fn delete(
    context: &EmitContext,
    place: Place,
    expr: &Expr,
    out: &mut Vec<Instr>,
) -> Result<(), Memory>
    ensures { OnOk result (out.new.items ≡ on.value_on (where_of context.now) (expression_of expr.now) out.old.items
        ++ i.Arrive coll.DeleteRegion place ∷ i.Depart place ∷ []) }
{
    value(context, expr, out)?;
    out.extend_from_slice(&[
        Instr::Arrive(CollKind::DeleteRegion, place),
        Instr::Depart(place),
    ])?;
    Ok(())
}

// Generates an expression whose value is dropped.
fn drop_value(context: &EmitContext, expr: &Expr, out: &mut Vec<Instr>) -> Result<(), Memory>
    ensures { OnOk result (out.new.items ≡ on.value_on (where_of context.now) (expression_of expr.now) out.old.items ++ i.Pop ∷ []) }
{
    value(context, expr, out)?;
    emit(Instr::Pop, out)
}

// Generates a member call; copy, exchange and delete have code of their own.
fn member_stmt(
    context: &EmitContext,
    member: Option<BuiltIn>,
    place: Place,
    receiver: &Expr,
    args: &[Expr],
    whole: &Expr,
    out: &mut Vec<Instr>,
) -> Result<(), Memory>
    ensures { OnOk result (out.new.items ≡ on.form_on (where_of context.now) (option_map built_in_of member) place (expression_of receiver.now)
        (numbered_exps (map expression_of args.now)) (expression_of whole.now) out.old.items) }
{
    match member {
        Some(BuiltIn::Copy) => copy(context, place, receiver, args, out),
        Some(BuiltIn::Exchange) => exchange(context, place, receiver, args, out),
        Some(BuiltIn::Delete) => delete(context, place, receiver, out),
        _ => drop_value(context, whole, out),
    }
}

// Generates an expression statement that calls no declared method.
#[tactic(auto, using(ti_lang::proofs::Lemmas::program_bridges))]
fn other_expr_stmt(context: &EmitContext, expr: &Expr, out: &mut Vec<Instr>) -> Result<(), Memory>
    ensures { OnOk result (out.new.items ≡ on.other_on (where_of context.now) (expression_of expr.now) out.old.items) }
{
    match expr {
        Expr::Member {
            place,
            receiver,
            name,
            args,
        } => {
            let member = member_called(context.site.program, context.site.this, receiver, *name);
            member_stmt(context, member, *place, receiver, args, expr, out)
        }
        _ => drop_value(context, expr, out),
    }
}

// Whether the method returns no value.
fn gives_nothing(site: &CallSite) -> bool
    ensures { result ≡ nothing_in (call_site_of site.now) }
{
    match &site.method.result {
        ResultType::Void => true,
        ResultType::Typed(t) => match &t.ty {
            Ty::Void => true,
            _ => false,
        },
    }
}

/// Generates an expression statement. The value of a call is dropped, if there is one.
pub fn expr_stmt(context: &EmitContext, expr: &Expr, out: &mut Vec<Instr>) -> Result<(), Memory>
    ensures { OnOk result (out.new.items ≡ on.stands_on (where_of context.now) (expression_of expr.now) out.old.items) }
{
    match call_site(context.site.program, context.site.this, expr) {
        Some(c) => {
            call(
                context,
                number_called(context.site.program, context.site.this, expr)?,
                &c,
                out,
            )?;
            if gives_nothing(&c) {
                Ok(())
            } else {
                emit(Instr::Pop, out)
            }
        }
        None => other_expr_stmt(context, expr, out),
    }
}
