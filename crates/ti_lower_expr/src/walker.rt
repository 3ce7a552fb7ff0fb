// Generates the code of an expression by recursion over it. What is statically known of its value is returned, so that each part is visited
// once.

ghost use Rattle.std.specs.Prelude.{◌≡◌, ◌∷◌, ◌++◌, [], OnOk, OnErr, IfOk, take, map, option_map, option_and_then, unwrap_or};
ghost use Rattle.ti_base.specs.declared.value.Value.TheVariants as v;
ghost use Rattle.ti_code.specs.declared.instr.Instr.TheVariants as i;
ghost use Rattle.ti_lang.specs.Program.Expressions.{numbered_exps, numbered_ranges};
ghost use Rattle.ti_lang.specs.Program.Expressions as x;
ghost use Rattle.ti_lang.specs.Program.Types.{Int as IntType};
ghost use Rattle.ti_lang.specs.Typing.TextTypes.{how_many, used_type as used_spec, static_field_type as field_spec, static_member_type as member_spec, static_element_type as element_spec};
ghost use Rattle.ti_lang.specs.Program.Views.{program_of, expression_of, bound_of, variable_of};
ghost use Rattle.ti_lang.specs.Program.Views.{type_use_of};
ghost use Rattle.ti_lang.specs.Typing.TyRef.{ty_view, built_in_of};
ghost use Rattle.ti_lang.specs.Typing.Declared.{field_numbered};
ghost use Rattle.ti_lang.specs.Typing.Kinds.{is_point_type as is_point_spec, class_of_type};
ghost use Rattle.ti_lower_expr.specs.declared.kinds.StaticRepr.TheVariants as known;
ghost use Rattle.ti_lower_expr.specs.Knowing as knowing;
ghost use Rattle.ti_lower_expr.specs.Coding as coding;
ghost use Rattle.ti_lower_expr.specs.Contents.{names_in, BeginsWith};
ghost use Rattle.ti_lower_expr.specs.Slots.{find_slot};
ghost use Rattle.ti_lower_expr.specs.Mirrors.Walking.{around, append_operator};
ghost use Rattle.ti_lower_expr.specs.Mirrors.Sites.{type_in, known_in, called_behind, walked_in, all_in, range_in, ranges_in};

use crate::context::{LoweringContext, StaticValue};
use crate::emission::{
    add_cast, add_index, add_member, add_point, add_unary, add_variable, emit, jump_where,
    load_this, rect_instr, u32_sum,
};
use crate::fields::resolve_field;
use crate::kinds::{
    OperandClass, ShortCircuit, StaticRepr, is_point, kind_of_seen, known_declared, known_indexed,
    known_member, known_of_binary, known_of_type, known_of_unary, operation_of, short_circuit_of,
    shown_member,
};
use ti_base::{Memory, Place, Value};
use ti_code::Instr;
use ti_lang::program::{Declared, Expr, Range, TypeUse, Variable};
use ti_lang::tree::BinaryOperator;
use ti_lang::typing::{
    BuiltIn, TyRef, built_in, operator_type, static_element_type, static_field_type,
    static_member_type, syntactic_type,
};

// ---- static types

// The type of a variable as an operand. The dimensions of a foreach's point aren't known here; it counts as one-dimensional.
fn used_type<'a>(variable: &'a Variable) -> TyRef<'a>
    ensures { ty_view result ≡ used_spec (λ _. 1) (variable_of variable.now).number (variable_of variable.now).declared }
{
    match &variable.declared {
        Declared::Typed { single: _, ty } => TyRef::of(ty, false),
        Declared::Foreach => TyRef::Pt(1),
    }
}

// What is statically known of the value of an expression: its type, and which conversions are idle.
fn static_value<'context, 'a>(
    context: &LoweringContext<'context, 'a>,
    expr: &'a Expr,
    known: StaticRepr,
) -> StaticValue<'a>
    ensures ty { ty_view result.ty ≡ type_in context.now (expression_of expr.now) }
    ensures known { result.known ≡ known }
{
    StaticValue {
        ty: syntactic_type(context.program, context.this, expr),
        known,
    }
}

// The built-in member that a name denotes after a value of the type.
fn called_member(context: &LoweringContext, ty: TyRef, name: u32) -> Option<BuiltIn>
    ensures { option_map built_in_of result ≡ called_behind context.now (ty_view ty.entry) name }
{
    if ty.is_object() {
        None
    } else {
        built_in(context.program, name)
    }
}

// The kind of the low bound of the first range; numbers if there is no range.
fn kind_of_ranges(context: &LoweringContext, ranges: &[Range]) -> OperandClass
    ensures { result ≡ coding.kind_of_ranges (program_of context.now.program.now) context.now.this (numbered_ranges (map bound_of ranges.now)) }
{
    if ranges.len() == 0 {
        return OperandClass::Numbers;
    }
    match &ranges[0] {
        Range::Plain { low, .. } | Range::Stepped { low, .. } => {
            kind_of_seen(syntactic_type(context.program, context.this, low))
        }
    }
}

// ---- parts

// Generates an expression of one instruction.
#[inline(never)]
fn leaf<'context, 'a>(
    context: &LoweringContext<'context, 'a>,
    expr: &'a Expr,
    known: StaticRepr,
    instr: Instr,
    out: &mut Vec<Instr>,
) -> Result<StaticValue<'a>, Memory>
    ensures code { OnOk result (out.new.items ≡ out.old.items ++ instr ∷ []) }
    ensures ty { IfOk result (λ t. ty_view t.ty ≡ type_in context.now (expression_of expr.now)) }
    ensures known { IfOk result (λ t. t.known ≡ known) }
    ensures err { OnErr result (BeginsWith out.new.items out.old.items) }
{
    emit(instr, out)?;
    Ok(static_value(context, expr, known))
}

// Appends the instruction that makes the rectangular domain of its ranges.
#[tactic(auto, using(crate::proofs::Growing::counts))]
fn add_rect(
    context: &LoweringContext,
    place: Place,
    ranges: &[Range],
    out: &mut Vec<Instr>,
) -> Result<(), Memory>
    ensures code { OnOk result (out.new.items ≡ out.old.items ++ coding.rect_instr
        (coding.kind_of_ranges (program_of context.now.program.now) context.now.this (numbered_ranges (map bound_of ranges.now)))
        (coding.how_many_ranges (numbered_ranges (map bound_of ranges.now))) place ∷ []) }
    ensures err { OnErr result (BeginsWith out.new.items out.old.items) }
{
    let kind = kind_of_ranges(context, ranges);
    emit(rect_instr(kind, ranges.len(), place)?, out)
}

// Completes the jumps around a right operand that may be skipped; `jump` is the position of the first of them.
fn close_short_circuit(left: bool, jump: usize, out: &mut Vec<Instr>) -> Result<(), Memory>
    ensures code { OnOk result (out.new.items ≡ around left jump out.old.items) }
    ensures err { OnErr result (BeginsWith out.new.items (take jump out.old.items)) }
{
    let pushed = u32_sum(out.len(), 1)?;
    let end = u32_sum(out.len(), 2)?;
    if jump < out.len() {
        out[jump] = jump_where(left, pushed);
    }
    emit(Instr::Jump(end), out)?;
    emit(Instr::Const(Value::Bool(left)), out)
}

// Generates the right operand of an operator, and the operator after it.
#[cycle(walk)]
fn append_operator<'context, 'a>(
    context: &LoweringContext<'context, 'a>,
    operator: BinaryOperator,
    place: Place,
    left: TyRef<'a>,
    right: &'a Expr,
    out: &mut Vec<Instr>,
) -> Result<StaticValue<'a>, Memory>
    ensures code { OnOk result (out.new.items ≡ append_operator (coding.short_circuit_of operator)
        (coding.operation operator (coding.kind_of_type (ty_view left.entry))
        (coding.kind_of_type (type_in context.now (expression_of right.now)))) place
        (walked_in context.now (expression_of right.now)) out.old.items) }
    ensures ty { IfOk result (λ t. ty_view t.ty ≡ type_in context.now (expression_of right.now)) }
    ensures known { IfOk result (λ t. t.known ≡ known_in context.now (expression_of right.now)) }
    ensures err { OnErr result (BeginsWith out.new.items out.old.items) }
{
    match short_circuit_of(operator) {
        ShortCircuit::Never => {
            let t = walk(context, right, out)?;
            let name = operation_of(operator, kind_of_seen(left), kind_of_seen(t.ty));
            emit(Instr::Operate(name, place), out)?;
            Ok(t)
        }
        ShortCircuit::Where(skips) => {
            let jump = out.len();
            emit(jump_where(skips, 0), out)?;
            let t = walk(context, right, out)?;
            close_short_circuit(skips, jump, out)?;
            Ok(t)
        }
    }
}

// Generates a field of `this`.
fn own_field(
    context: &LoweringContext,
    place: Place,
    field: u32,
    out: &mut Vec<Instr>,
) -> Result<(), Memory>
    ensures code { OnOk result (out.new.items ≡ walked_in context.now (x.OwnField place field) out.old.items) }
    ensures err { OnErr result (BeginsWith out.new.items out.old.items) }
{
    emit(load_this(context.slots), out)?;
    emit(Instr::GetField(field, place), out)
}

// ---- lists

/// Generates expressions, in order.
#[cycle(walk)]
fn walk_all<'context, 'a>(
    context: &LoweringContext<'context, 'a>,
    exprs: &'a [Expr],
    out: &mut Vec<Instr>,
) -> Result<(), Memory>
    ensures code { OnOk result (out.new.items ≡ all_in context.now (numbered_exps (map expression_of exprs.now)) out.old.items) }
    ensures err { OnErr result (BeginsWith out.new.items out.old.items) }
{
    for x in exprs {
        walk(context, x, out)?;
    }
    Ok(())
}

// Generates the bounds of a range and its step.
#[cycle(walk)]
fn walk_range<'context, 'a>(
    context: &LoweringContext<'context, 'a>,
    range: &'a Range,
    out: &mut Vec<Instr>,
) -> Result<(), Memory>
    ensures code { OnOk result (out.new.items ≡ range_in context.now (bound_of range.now) out.old.items) }
    ensures err { OnErr result (BeginsWith out.new.items out.old.items) }
{
    match range {
        Range::Plain { low, high } => {
            walk(context, low, out)?;
            walk(context, high, out)?;
            emit(Instr::Step, out)
        }
        Range::Stepped { low, high, step } => {
            walk(context, low, out)?;
            walk(context, high, out)?;
            walk(context, step, out)?;
            Ok(())
        }
    }
}

// Generates ranges, in order.
#[cycle(walk)]
fn walk_ranges<'context, 'a>(
    context: &LoweringContext<'context, 'a>,
    ranges: &'a [Range],
    out: &mut Vec<Instr>,
) -> Result<(), Memory>
    ensures code { OnOk result (out.new.items ≡ ranges_in context.now (numbered_ranges (map bound_of ranges.now)) out.old.items) }
    ensures err { OnErr result (BeginsWith out.new.items out.old.items) }
{
    for r in ranges {
        walk_range(context, r, out)?;
    }
    Ok(())
}

// ---- expressions

// Generates a variable.
fn load<'context, 'a>(
    context: &LoweringContext<'context, 'a>,
    variable: &'a Variable,
    out: &mut Vec<Instr>,
) -> Result<StaticValue<'a>, Memory>
    ensures code { OnOk result (out.new.items ≡ out.old.items ++ coding.load_variable (find_slot (variable_of variable.now) (names_in context.now.slots.now))
        (variable_of variable.now) ∷ []) }
    ensures ty { IfOk result (λ t. ty_view t.ty ≡ used_spec (λ _. 1) (variable_of variable.now).number (variable_of variable.now).declared) }
    ensures known { IfOk result (λ t. t.known ≡ knowing.known_declared (variable_of variable.now).declared) }
    ensures err { OnErr result (BeginsWith out.new.items out.old.items) }
{
    add_variable(context.slots, variable, out)?;
    Ok(StaticValue {
        ty: used_type(variable),
        known: known_declared(&variable.declared),
    })
}

// Generates a cast.
#[cycle(walk)]
#[inline(never)]
fn cast<'context, 'a>(
    context: &LoweringContext<'context, 'a>,
    place: Place,
    to: &'a TypeUse,
    operand: &'a Expr,
    out: &mut Vec<Instr>,
) -> Result<StaticValue<'a>, Memory>
    ensures code { OnOk result (out.new.items ≡ walked_in context.now
        (x.Cast place (type_use_of to.now) (expression_of operand.now)) out.old.items) }
    ensures ty { IfOk result (λ t. ty_view t.ty ≡ type_in context.now
        (x.Cast place (type_use_of to.now) (expression_of operand.now))) }
    ensures known { IfOk result (λ t. t.known ≡ known_in context.now
        (x.Cast place (type_use_of to.now) (expression_of operand.now))) }
    ensures err { OnErr result (BeginsWith out.new.items out.old.items) }
{
    let t = walk(context, operand, out)?;
    add_cast(place, &to.ty, t.known, out)?;
    Ok(StaticValue {
        ty: TyRef::of(&to.ty, false),
        known: known_of_type(&to.ty),
    })
}

// Generates the access to a field of an object.
#[cycle(walk)]
#[inline(never)]
fn select<'context, 'a>(
    context: &LoweringContext<'context, 'a>,
    place: Place,
    receiver: &'a Expr,
    name: u32,
    out: &mut Vec<Instr>,
) -> Result<StaticValue<'a>, Memory>
    ensures code { OnOk result (out.new.items ≡ walked_in context.now
        (x.Select place (expression_of receiver.now) name) out.old.items) }
    ensures ty { IfOk result (λ t. ty_view t.ty ≡ type_in context.now
        (x.Select place (expression_of receiver.now) name)) }
    ensures known { IfOk result (λ t. t.known ≡ known_in context.now
        (x.Select place (expression_of receiver.now) name)) }
    ensures err { OnErr result (BeginsWith out.new.items out.old.items) }
{
    let t = walk(context, receiver, out)?;
    let field = resolve_field(context.program, t.ty, name)?;
    emit(Instr::GetField(field, place), out)?;
    Ok(StaticValue {
        ty: static_field_type(context.program, name, t.ty),
        known: StaticRepr::Other,
    })
}

// Generates the call of a built-in member, after its receiver.
#[cycle(walk)]
#[inline(never)]
#[tactic(auto, using(ti_lang::proofs::Lemmas::many_arguments))]
fn member<'context, 'a>(
    context: &LoweringContext<'context, 'a>,
    place: Place,
    receiver: TyRef<'a>,
    name: u32,
    args: &'a [Expr],
    out: &mut Vec<Instr>,
) -> Result<StaticValue<'a>, Memory>
    ensures code { OnOk result (out.new.items
        ≡ all_in context.now (numbered_exps (map expression_of args.now)) out.old.items
        ++ coding.member_code (called_behind context.now (ty_view receiver.entry) name)
        (how_many (numbered_exps (map expression_of args.now))) place) }
    ensures ty { IfOk result (λ t. ty_view t.ty
        ≡ member_spec (program_of context.now.program.now) name (ty_view receiver.entry)) }
    ensures known { IfOk result (λ t. t.known
        ≡ knowing.member_known (called_behind context.now (ty_view receiver.entry) name)) }
    ensures err { OnErr result (BeginsWith out.new.items out.old.items) }
{
    walk_all(context, args, out)?;
    let called = called_member(context, receiver, name);
    add_member(shown_member(called), args.len(), place, out)?;
    Ok(StaticValue {
        ty: static_member_type(context.program, name, receiver),
        known: known_member(called),
    })
}

// Generates an indexing, after the point or the grid.
#[cycle(walk)]
#[inline(never)]
#[tactic(auto, using(ti_lang::proofs::Lemmas::many_arguments))]
fn index<'context, 'a>(
    context: &LoweringContext<'context, 'a>,
    place: Place,
    receiver: TyRef<'a>,
    indices: &'a [Expr],
    out: &mut Vec<Instr>,
) -> Result<StaticValue<'a>, Memory>
    ensures code { OnOk result (out.new.items
        ≡ all_in context.now (numbered_exps (map expression_of indices.now)) out.old.items
        ++ coding.index_code (is_point_spec (ty_view receiver.entry))
        (how_many (numbered_exps (map expression_of indices.now))) place) }
    ensures ty { IfOk result (λ t. ty_view t.ty ≡ element_spec (ty_view receiver.entry)) }
    ensures known { IfOk result (λ t. t.known ≡ knowing.index_known (is_point_spec (ty_view receiver.entry))) }
    ensures err { OnErr result (BeginsWith out.new.items out.old.items) }
{
    walk_all(context, indices, out)?;
    let coordinate = is_point(receiver);
    add_index(coordinate, indices.len(), place, out)?;
    Ok(StaticValue {
        ty: static_element_type(receiver),
        known: known_indexed(coordinate),
    })
}

/// Generates the rectangular domain of ranges.
#[cycle(walk)]
#[inline(never)]
pub fn walk_rect<'context, 'a>(
    context: &LoweringContext<'context, 'a>,
    place: Place,
    ranges: &'a [Range],
    out: &mut Vec<Instr>,
) -> Result<(), Memory>
    ensures code { OnOk result (out.new.items ≡ walked_in context.now
        (x.rect place (map bound_of ranges.now)) out.old.items) }
    ensures err { OnErr result (BeginsWith out.new.items out.old.items) }
{
    walk_ranges(context, ranges, out)?;
    add_rect(context, place, ranges, out)
}

/// Generates an expression and returns what is statically known of its value. The rarer forms are
/// functions of their own, so that a chain of operators doesn't pay for their stack frames.
#[cycle(walk)]
#[tactic(auto, using(ti_lang::proofs::Lemmas::program_bridges))]
pub fn walk<'context, 'a>(
    context: &LoweringContext<'context, 'a>,
    expr: &'a Expr,
    out: &mut Vec<Instr>,
) -> Result<StaticValue<'a>, Memory>
    ensures code { OnOk result (out.new.items ≡ walked_in context.now (expression_of expr.now) out.old.items) }
    ensures ty { IfOk result (λ t. ty_view t.ty ≡ type_in context.now (expression_of expr.now)) }
    ensures known { IfOk result (λ t. t.known ≡ known_in context.now (expression_of expr.now)) }
    ensures err { OnErr result (BeginsWith out.new.items out.old.items) }
{
    match expr {
        Expr::Variable(_, v) => load(context, v, out),
        Expr::Int(_, n) => leaf(
            context,
            expr,
            StaticRepr::Int,
            Instr::Const(Value::Int(*n)),
            out,
        ),
        Expr::Long(_, n) => leaf(
            context,
            expr,
            StaticRepr::Long,
            Instr::Const(Value::Long(*n)),
            out,
        ),
        Expr::Bool(_, b) => leaf(
            context,
            expr,
            StaticRepr::Other,
            Instr::Const(Value::Bool(*b)),
            out,
        ),
        Expr::Null(_) => leaf(
            context,
            expr,
            StaticRepr::Object,
            Instr::Const(Value::Obj(None)),
            out,
        ),
        Expr::This(_) => leaf(
            context,
            expr,
            StaticRepr::Object,
            load_this(context.slots),
            out,
        ),
        Expr::ThisProc(_) => leaf(context, expr, StaticRepr::Int, Instr::ThisProc, out),
        Expr::NumProcs(_) => leaf(context, expr, StaticRepr::Int, Instr::NumProcs, out),
        Expr::OwnField(place, field) => {
            own_field(context, *place, *field, out)?;
            Ok(static_value(context, expr, StaticRepr::Other))
        }
        Expr::Point(_, parts) => {
            walk_all(context, parts, out)?;
            add_point(parts, out)?;
            Ok(static_value(context, expr, StaticRepr::Other))
        }
        Expr::Rect(place, ranges) => {
            walk_rect(context, *place, ranges, out)?;
            Ok(static_value(context, expr, StaticRepr::Other))
        }
        Expr::Unary {
            place: _,
            operator,
            operand,
        } => {
            let t = walk(context, operand, out)?;
            add_unary(*operator, out)?;
            Ok(StaticValue {
                ty: t.ty,
                known: known_of_unary(*operator, t.known),
            })
        }
        Expr::Binary {
            place,
            operator,
            left,
            right,
        } => {
            let first = walk(context, left, out)?;
            let second = append_operator(context, *operator, *place, first.ty, right, out)?;
            Ok(StaticValue {
                ty: operator_type(*operator, first.ty, second.ty),
                known: known_of_binary(*operator, first.known, second.known),
            })
        }
        Expr::Cast { place, to, operand } => cast(context, *place, to, operand, out),
        Expr::Select {
            place,
            receiver,
            name,
        } => select(context, *place, receiver, *name, out),
        Expr::Member {
            place,
            receiver,
            name,
            args,
        } => {
            let t = walk(context, receiver, out)?;
            member(context, *place, t.ty, *name, args, out)
        }
        Expr::Index {
            place,
            receiver,
            indices,
        } => {
            let t = walk(context, receiver, out)?;
            index(context, *place, t.ty, indices, out)
        }
        Expr::Call { .. } | Expr::OwnCall { .. } => leaf(
            context,
            expr,
            StaticRepr::Other,
            Instr::Const(Value::Bool(false)),
            out,
        ),
    }
}
