// The code of statements, by recursion over them. The target of a forward jump is reserved, and set when the code after it is reached.

ghost use Rattle.std.specs.Prelude.{◌≡◌, ◌∷◌, ◌++◌, ◌+◌, [], OnOk, IfOk, None, Some};
ghost use Rattle.std.specs.Prelude.{length, map, pos};
ghost use Rattle.std.specs.Option.{option_map};
ghost use Rattle.ti_base.specs.declared.action.CollKind.TheVariants as coll;
ghost use Rattle.ti_syntax.specs.Trees.Views.{maybe_of};
ghost use Rattle.ti_lang.specs.Program.Statements.{numbered_stms};
ghost use Rattle.ti_lang.specs.Program.Statements as s;
ghost use Rattle.ti_lang.specs.Program.Expressions as e;
ghost use Rattle.ti_lang.specs.Meaning.Processes.{Updated};
ghost use Rattle.ti_lang.specs.Program.Views.{expression_of, initial_of, printed_of};
ghost use Rattle.ti_lang.specs.Program.Views.{statement_of, type_use_of};
ghost use Rattle.ti_lang.specs.Meaning.Statements.{one_more as one_more_spec};
ghost use Rattle.ti_lower.specs.StmtCode.{break_code, continue_code};
ghost use Rattle.ti_lower.specs.Mirrors.Bodies as on;
ghost use Rattle.ti_lower.specs.Mirrors.Bodies.{builder_of, labels_of, maybe_stm_of};
ghost use Rattle.ti_lower.specs.Mirrors.Statements.{with_code, close_branch, trim_slots};
ghost use Rattle.ti_lower.specs.Mirrors.Positions.{where_of};
ghost use Rattle.ti_lower.specs.Mirrors.Values.{init_on, print_on, returned_on};
ghost use Rattle.ti_lang.specs.Typing.TyRef.{ty_view};
ghost use Rattle.ti_code.specs.declared.instr.Instr.TheVariants as i;
ghost use Rattle.ti_lower_expr.specs.Contents.{names_in};

use crate::body::{CodeBuilder, LoopTargets, MethodEmitContext, context_of, target, usize_sum};
use crate::builtins::expr_stmt;
use crate::emit_context::EmitContext;
use crate::inits::{init, value_and_store};
use crate::receivers::Receiver;
use crate::values::{known_value, value};
use ti_base::{CollKind, Memory, Place, Value};
use ti_code::Instr;
use ti_lang::program::{Expr, Init, Printed, Stmt, TypeUse};
use ti_lang::tree::{BinaryOperator, StepOperator};
use ti_lang::typing::TyRef;
use ti_lower_expr::{SlotName, Slots, add_conversion, emit, to_u32, u32_sum};

// ---- simple statements

// The operator that `++` or `--` applies to the target and 1.
fn one_more(operator: StepOperator) -> BinaryOperator
    ensures { result ≡ one_more_spec operator }
{
    match operator {
        StepOperator::Increment => BinaryOperator::Add,
        StepOperator::Decrement => BinaryOperator::Subtract,
    }
}

// `t++` and `t--`.
fn step(
    context: &EmitContext,
    place: Place,
    operator: StepOperator,
    target: &Expr,
    out: &mut Vec<Instr>,
) -> Result<(), Memory>
    ensures { OnOk result (out.new.items ≡ init_on (where_of context.now) (Updated place (one_more_spec operator) (expression_of target.now))
        (s.Value (e.Int place (pos 1))) out.old.items) }
{
    let receiver = Receiver::Updated {
        place,
        operator: one_more(operator),
        target,
    };
    value_and_store(context, receiver, &Expr::Int(place, 1), out)
}

// Generates a print. It prints a string literal and a value, each if there is one.
fn print(
    context: &EmitContext,
    place: Place,
    what: &Printed,
    out: &mut Vec<Instr>,
) -> Result<(), Memory>
    ensures { OnOk result (out.new.items ≡ print_on (where_of context.now) place (printed_of what.now) out.old.items) }
{
    match what {
        Printed::Nothing => emit(Instr::Print(None, false, place), out),
        Printed::Text(literal) => emit(Instr::Print(Some(*literal), false, place), out),
        Printed::Value(x) => {
            value(context, x, out)?;
            emit(Instr::Print(None, true, place), out)
        }
        Printed::TextAndValue(literal, x) => {
            value(context, x, out)?;
            emit(Instr::Print(Some(*literal), true, place), out)
        }
    }
}

// Generates a barrier: an arrival and a departure.
fn barrier(place: Place, out: &mut Vec<Instr>) -> Result<(), Memory>
    ensures { OnOk result (out.new.items ≡ out.old.items ++ i.Arrive coll.Barrier place ∷ i.Depart place ∷ []) }
{
    emit(Instr::Arrive(CollKind::Barrier, place), out)?;
    emit(Instr::Depart(place), out)
}

// A break or continue outside loops leads to the next instruction.
fn leave(slots: &Slots, out: &mut Vec<Instr>) -> Result<(), Memory>
    ensures { OnOk result (out.new.items ≡ out.old.items ++ i.Trim (length (names_in slots.now)) ∷ i.Jump (length out.old.items + 1 + 1)
        ∷ []) }
{
    let next = u32_sum(out.len(), 2)?;
    emit(Instr::Trim(to_u32(slots.len())?), out)?;
    emit(Instr::Jump(next), out)
}

// Generates a break.
fn break_out(labels: Option<LoopTargets>, slots: &Slots, out: &mut Vec<Instr>) -> Result<(), Memory>
    ensures { OnOk result (out.new.items ≡ out.old.items ++ break_code (option_map labels_of labels) (names_in slots.now)
        (length out.old.items)) }
{
    match labels {
        None => leave(slots, out),
        Some(labels) => {
            emit(Instr::Trim(labels.break_slots), out)?;
            if labels.over_points {
                emit(Instr::Pop, out)?;
            }
            emit(Instr::Jump(labels.break_to), out)
        }
    }
}

// Generates a continue.
fn continue_loop(
    labels: Option<LoopTargets>,
    slots: &Slots,
    out: &mut Vec<Instr>,
) -> Result<(), Memory>
    ensures { OnOk result (out.new.items ≡ out.old.items ++ continue_code (option_map labels_of labels) (names_in slots.now)
        (length out.old.items)) }
{
    match labels {
        None => leave(slots, out),
        Some(labels) => {
            emit(Instr::Trim(labels.continue_slots), out)?;
            emit(Instr::Jump(labels.continue_to), out)
        }
    }
}

// Generates a return. Its value, if there is one, is converted to the method's result type.
fn return_stmt(
    context: &EmitContext,
    place: Place,
    result_type: TyRef,
    x: &Option<Expr>,
    out: &mut Vec<Instr>,
) -> Result<(), Memory>
    ensures { OnOk result (out.new.items ≡ returned_on (where_of context.now) place (ty_view result_type.entry)
        (maybe_of expression_of x.now) out.old.items) }
{
    match x {
        None => emit(Instr::Return, out),
        Some(x) => {
            let value = known_value(context, x, out)?;
            add_conversion(place, result_type, value.known, out)?;
            emit(Instr::ReturnValue, out)
        }
    }
}

// Generates a declaration.
fn declaration<'p>(
    method: &MethodEmitContext<'p>,
    place: Place,
    ty: &'p TypeUse,
    variable: u32,
    value: &'p Init,
    builder: &mut CodeBuilder<'p>,
) -> Result<(), Memory>
    ensures { OnOk result (builder_of builder.new ≡ on.stm_in method.now
        (s.Declare place (type_use_of ty.now) variable (initial_of value.now)) None
        (builder_of builder.old)) }
{
    let receiver = Receiver::Declared {
        place,
        variable,
        ty,
    };
    let context = context_of(method, &builder.slots);
    init(&context, receiver, value, &mut builder.code)?;
    builder.slots.push(SlotName::Of {
        number: variable,
        single: ty.single,
        ty: &ty.ty,
    })
}

// Generates an assignment.
fn assignment<'p>(
    method: &MethodEmitContext<'p>,
    place: Place,
    target: &'p Expr,
    value: &'p Init,
    builder: &mut CodeBuilder<'p>,
) -> Result<(), Memory>
    ensures { OnOk result (builder_of builder.new ≡ on.stm_in method.now
        (s.Assign place (expression_of target.now) (initial_of value.now)) None
        (builder_of builder.old)) }
{
    let receiver = Receiver::Assigned { place, target };
    let context = context_of(method, &builder.slots);
    init(&context, receiver, value, &mut builder.code)
}

// Generates a compound assignment.
fn update<'p>(
    method: &MethodEmitContext<'p>,
    place: Place,
    operator: BinaryOperator,
    target: &'p Expr,
    value: &'p Expr,
    builder: &mut CodeBuilder<'p>,
) -> Result<(), Memory>
    ensures { OnOk result (builder_of builder.new ≡ on.stm_in method.now
        (s.Update place operator (expression_of target.now) (expression_of value.now)) None
        (builder_of builder.old)) }
{
    let receiver = Receiver::Updated {
        place,
        operator,
        target,
    };
    let context = context_of(method, &builder.slots);
    value_and_store(&context, receiver, value, &mut builder.code)
}

// ---- branches

// Generates the condition of an `if`, and the jump if it doesn't hold.
fn test<'p>(
    method: &MethodEmitContext<'p>,
    expr: &'p Expr,
    builder: &mut CodeBuilder<'p>,
) -> Result<(), Memory>
    ensures { OnOk result (builder_of builder.new ≡ on.branch_test method.now (expression_of expr.now) (builder_of builder.old)) }
{
    value(&context_of(method, &builder.slots), expr, &mut builder.code)?;
    let otherwise = target(method, builder.targets.len());
    emit(Instr::JumpIfNot(otherwise), &mut builder.code)?;
    builder.new_label()
}

// Between two branches: the first one jumps over the second, and target `label` is here.
fn between_branches(
    method: &MethodEmitContext,
    label: usize,
    count: usize,
    builder: &mut CodeBuilder,
) -> Result<(), Memory>
    ensures { OnOk result (builder_of builder.new ≡ on.otherwise method.now label count (builder_of builder.old)) }
{
    builder.cut(count);
    let end = target(method, usize_sum(label, 1)?);
    emit(Instr::Jump(end), &mut builder.code)?;
    builder.bind_label(label)
}

// ---- loops

// The labels of a loop with `count` slots whose targets are numbered from `label` on.
fn loop_labels(
    method: &MethodEmitContext,
    label: usize,
    count: usize,
) -> Result<LoopTargets, Memory>
    ensures { IfOk result (λ l. Some (labels_of l) ≡ on.loop_labels method.now label count) }
{
    let slots = to_u32(count)?;
    Ok(LoopTargets {
        continue_to: target(method, label),
        continue_slots: slots,
        break_to: target(method, usize_sum(label, 2)?),
        break_slots: slots,
        over_points: false,
    })
}

// The labels of a foreach with `count` slots whose target is `label`.
fn walk_labels(
    method: &MethodEmitContext,
    label: usize,
    count: usize,
) -> Result<LoopTargets, Memory>
    ensures { IfOk result (λ l. Some (labels_of l) ≡ on.walk_labels method.now label count) }
{
    let continue_to = target(method, label);
    Ok(LoopTargets {
        continue_to,
        continue_slots: u32_sum(count, 1)?,
        break_to: u32_sum(continue_to as usize, 4)?,
        break_slots: to_u32(count)?,
        over_points: true,
    })
}

// Generates what comes before the body of a loop: the jump to the condition, and the tick of an iteration.
fn begin_loop(
    method: &MethodEmitContext,
    place: Place,
    builder: &mut CodeBuilder,
) -> Result<(), Memory>
    ensures { OnOk result (builder_of builder.new ≡ on.loop_begun method.now place (builder_of builder.old)) }
{
    let test = target(method, usize_sum(builder.targets.len(), 1)?);
    emit(Instr::Jump(test), &mut builder.code)?;
    emit(Instr::Tick(place), &mut builder.code)?;
    builder.new_label()?;
    builder.new_label()?;
    builder.new_label()
}

// Generates what comes before the body of a foreach: the jump to the next point, and the tick of an iteration.
fn begin_walk(
    method: &MethodEmitContext,
    place: Place,
    variable: u32,
    builder: &mut CodeBuilder,
) -> Result<(), Memory>
    ensures { OnOk result (builder_of builder.new ≡ on.walk_begun method.now place variable (builder_of builder.old)) }
{
    let again = target(method, builder.targets.len());
    emit(Instr::Jump(u32_sum(again as usize, 1)?), &mut builder.code)?;
    emit(Instr::Tick(place), &mut builder.code)?;
    builder.slots.push(SlotName::Point(variable))?;
    builder.new_label()
}

// Generates the condition of a loop; a missing one is true.
fn condition<'p>(
    method: &MethodEmitContext<'p>,
    expr: Option<&'p Expr>,
    builder: &mut CodeBuilder<'p>,
) -> Result<(), Memory>
    ensures { OnOk result (builder_of builder.new ≡ with_code (builder_of builder.old)
        (on.condition_in method.now (option_map (λ x. expression_of x.now) expr.entry) (builder_of builder.old))) }
{
    match expr {
        None => emit(Instr::Const(Value::Bool(true)), &mut builder.code),
        Some(expr) => value(&context_of(method, &builder.slots), expr, &mut builder.code),
    }
}

// Generates what comes after the body and the update of a loop: the condition, and the jump back.
fn end_loop<'p>(
    method: &MethodEmitContext<'p>,
    label: usize,
    pc: usize,
    expr: Option<&'p Expr>,
    builder: &mut CodeBuilder<'p>,
) -> Result<(), Memory>
    ensures { OnOk result (builder_of builder.new ≡ on.loop_ended method.now label pc (option_map (λ x. expression_of x.now) expr.entry) (builder_of builder.old)) }
{
    condition(method, expr, builder)?;
    emit(Instr::JumpIf(u32_sum(pc, 1)?), &mut builder.code)?;
    builder.bind_label(usize_sum(label, 2)?)
}

// Generates what comes after the body of a foreach: the next point, the jump back, and the pop of the domain.
fn end_walk(
    method: &MethodEmitContext,
    count: usize,
    pc: usize,
    builder: &mut CodeBuilder,
) -> Result<(), Memory>
    ensures { OnOk result (builder_of builder.new ≡ on.walk_ended method.now count pc (builder_of builder.old)) }
{
    let slots = to_u32(count)?;
    let end = u32_sum(builder.code.len(), 3)?;
    let turn = u32_sum(pc, 1)?;
    builder.code.extend_from_slice(&[
        Instr::Trim(slots),
        Instr::Next(slots, end),
        Instr::Jump(turn),
        Instr::Pop,
    ])?;
    Ok(())
}

// The expression in an option, by reference.
fn expr_in(x: &Option<Expr>) -> Option<&Expr>
    ensures { option_map (λ x. expression_of x.now) result ≡ maybe_of expression_of x.now }
{
    match x {
        None => None,
        Some(x) => Some(x),
    }
}

// The state of the generator at the beginning of a loop.
#[derive(Clone, Copy)]
struct LoopStart {
    /// The number of the first target of the loop.
    target: usize,
    /// How many slots there are.
    slots: usize,
    /// The position of the loop's first instruction.
    at: usize,
}

// Generates a loop up to its update.
#[cycle(statement)]
fn turn<'p>(
    method: &MethodEmitContext<'p>,
    place: Place,
    body: &'p Stmt,
    builder: &mut CodeBuilder<'p>,
) -> Result<LoopStart, Memory>
    ensures written { OnOk result (builder_of builder.new ≡ on.turn_in method.now place (on.stm_in method.now (statement_of body.now)) (builder_of builder.old)) }
    ensures target { IfOk result (λ start. start.target ≡ length (builder_of builder.old).targets) }
    ensures slots { IfOk result (λ start. start.slots ≡ length (builder_of builder.old).names) }
    ensures at { IfOk result (λ start. start.at ≡ length (builder_of builder.old).code) }
{
    let start = LoopStart {
        target: builder.targets.len(),
        slots: builder.slots.len(),
        at: builder.code.len(),
    };
    let labels = loop_labels(method, start.target, start.slots)?;
    begin_loop(method, place, builder)?;
    statement(method, body, Some(labels), builder)?;
    builder.close(start.target, start.slots)?;
    Ok(start)
}

// Generates the rest of a loop after its update.
fn close_loop<'p>(
    method: &MethodEmitContext<'p>,
    start: &LoopStart,
    expr: Option<&'p Expr>,
    builder: &mut CodeBuilder<'p>,
) -> Result<(), Memory>
    ensures { OnOk result (builder_of builder.new ≡ on.loop_ended method.now start.now.target start.now.at (option_map (λ x. expression_of x.now) expr.entry)
        (close_branch (start.now.target + 1) start.now.slots (builder_of builder.old))) }
{
    builder.close(usize_sum(start.target, 1)?, start.slots)?;
    end_loop(method, start.target, start.at, expr, builder)
}

// Generates the rest of a `for` after its update; the scope of its variable ends there.
fn close_for<'p>(
    method: &MethodEmitContext<'p>,
    start: &LoopStart,
    expr: &'p Option<Expr>,
    slots: usize,
    builder: &mut CodeBuilder<'p>,
) -> Result<(), Memory>
    ensures { OnOk result (builder_of builder.new ≡ trim_slots slots (on.loop_ended method.now start.now.target start.now.at (maybe_of expression_of expr.now)
        (close_branch (start.now.target + 1) start.now.slots (builder_of builder.old)))) }
{
    close_loop(method, start, expr_in(expr), builder)?;
    builder.trim(slots)
}

// Generates a foreach after its domain.
#[cycle(statement)]
fn foreach<'p>(
    method: &MethodEmitContext<'p>,
    place: Place,
    variable: u32,
    body: &'p Stmt,
    builder: &mut CodeBuilder<'p>,
) -> Result<(), Memory>
    ensures { OnOk result (builder_of builder.new ≡ on.walked_in method.now place variable (on.stm_in method.now (statement_of body.now))
        (builder_of builder.old)) }
{
    let k = builder.targets.len();
    let n = builder.slots.len();
    let at = builder.code.len();
    let labels = walk_labels(method, k, n)?;
    begin_walk(method, place, variable, builder)?;
    statement(method, body, Some(labels), builder)?;
    builder.close(k, n)?;
    end_walk(method, n, at, builder)
}

// ---- all statements

/// Generates statements, in order.
#[cycle(statement)]
pub fn statements<'p>(
    method: &MethodEmitContext<'p>,
    stmts: &'p [Stmt],
    labels: Option<LoopTargets>,
    builder: &mut CodeBuilder<'p>,
) -> Result<(), Memory>
    ensures { OnOk result (builder_of builder.new ≡ on.stms_in method.now (numbered_stms (map statement_of stmts.now)) (option_map labels_of labels)
        (builder_of builder.old)) }
{
    for x in stmts {
        statement(method, x, labels, builder)?;
    }
    Ok(())
}

// Generates a block. Its variables' slots are dropped at its end.
#[cycle(statement)]
fn block<'p>(
    method: &MethodEmitContext<'p>,
    stmts: &'p [Stmt],
    labels: Option<LoopTargets>,
    builder: &mut CodeBuilder<'p>,
) -> Result<(), Memory>
    ensures { OnOk result (builder_of builder.new ≡ trim_slots (length (builder_of builder.old).names)
        (on.stms_in method.now (numbered_stms (map statement_of stmts.now)) (option_map labels_of labels) (builder_of builder.old))) }
{
    let n = builder.slots.len();
    statements(method, stmts, labels, builder)?;
    builder.trim(n)
}

// Generates the head or the update of a `for`, if there is one.
#[cycle(statement)]
fn maybe<'p>(
    method: &MethodEmitContext<'p>,
    stmt: &'p Option<Box<Stmt>>,
    labels: Option<LoopTargets>,
    builder: &mut CodeBuilder<'p>,
) -> Result<(), Memory>
    ensures { OnOk result (builder_of builder.new
        ≡ on.maybe_in method.now (maybe_stm_of stmt.now) (option_map labels_of labels)
        (builder_of builder.old)) }
{
    match stmt {
        Some(stmt) => statement(method, stmt, labels, builder),
        None => Ok(()),
    }
}

// Generates a statement.
#[cycle(statement)]
#[tactic(auto, using(ti_lang::proofs::Lemmas::program_bridges))]
fn statement<'p>(
    method: &MethodEmitContext<'p>,
    stmt: &'p Stmt,
    labels: Option<LoopTargets>,
    builder: &mut CodeBuilder<'p>,
) -> Result<(), Memory>
    ensures { OnOk result (builder_of builder.new ≡ on.stm_in method.now (statement_of stmt.now) (option_map labels_of labels) (builder_of builder.old)) }
{
    match stmt {
        Stmt::Empty => Ok(()),
        Stmt::Declare {
            place,
            ty,
            variable,
            value,
        } => declaration(method, *place, ty, *variable, value, builder),
        Stmt::Assign {
            place,
            target,
            value,
        } => assignment(method, *place, target, value, builder),
        Stmt::Update {
            place,
            operator,
            target,
            value,
        } => update(method, *place, *operator, target, value, builder),
        Stmt::Step {
            place,
            operator,
            target,
        } => {
            let context = context_of(method, &builder.slots);
            step(&context, *place, *operator, target, &mut builder.code)
        }
        Stmt::Call(e) => expr_stmt(&context_of(method, &builder.slots), e, &mut builder.code),
        Stmt::Print(place, what) => {
            let context = context_of(method, &builder.slots);
            print(&context, *place, what, &mut builder.code)
        }
        Stmt::Barrier(place) => barrier(*place, &mut builder.code),
        Stmt::Break(_) => break_out(labels, &builder.slots, &mut builder.code),
        Stmt::Continue(_) => continue_loop(labels, &builder.slots, &mut builder.code),
        Stmt::Return(place, value) => {
            let context = context_of(method, &builder.slots);
            return_stmt(&context, *place, method.result, value, &mut builder.code)
        }
        Stmt::Block(xs) => block(method, xs, labels, builder),
        Stmt::If {
            place: _,
            condition,
            then,
            otherwise,
        } => {
            let label = builder.targets.len();
            let slots = builder.slots.len();
            test(method, condition, builder)?;
            match otherwise {
                None => {
                    statement(method, then, labels, builder)?;
                    builder.close(label, slots)
                }
                Some(otherwise) => {
                    builder.new_label()?;
                    statement(method, then, labels, builder)?;
                    between_branches(method, label, slots, builder)?;
                    statement(method, otherwise, labels, builder)?;
                    builder.close(usize_sum(label, 1)?, slots)
                }
            }
        }
        Stmt::While {
            place,
            condition,
            body,
        } => {
            let start = turn(method, *place, body, builder)?;
            close_loop(method, &start, Some(condition), builder)
        }
        Stmt::For {
            place,
            first,
            condition,
            update,
            body,
        } => {
            let slots = builder.slots.len();
            maybe(method, first, labels, builder)?;
            let start = turn(method, *place, body, builder)?;
            maybe(method, update, labels, builder)?;
            close_for(method, &start, condition, slots, builder)
        }
        Stmt::Foreach {
            place,
            variable,
            domain,
            body,
        } => {
            let context = context_of(method, &builder.slots);
            value(&context, domain, &mut builder.code)?;
            foreach(method, *place, *variable, body, builder)
        }
    }
}
