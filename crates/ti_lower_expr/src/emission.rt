// The instructions of an expression besides those of its subexpressions: literals, variables, operators, conversions and members.

ghost use Rattle.std.specs.Prelude.{◌≡◌, ◌∷◌, ◌++◌, ◌+◌, ◌^◌, ◌≤◌, [], IfOk, IfErr, OnOk, OnErr, false, map};
ghost use Rattle.ti_base.specs.declared.value.Value.TheVariants as v;
ghost use Rattle.ti_base.specs.Forms.{is_dim};
ghost use Rattle.ti_base.specs.Points.{IsDim};
ghost use Rattle.ti_base.specs.Rects.{empty_rect as empty_spec};
ghost use Rattle.ti_code.specs.declared.instr.Instr.TheVariants as i;
ghost use Rattle.ti_lang.specs.Program.Expressions.{numbered_exps};
ghost use Rattle.ti_lang.specs.Program.Views.{value_type_of, declared_of, variable_of, expression_of};
ghost use Rattle.ti_lang.specs.Typing.Kinds.{is_local};
ghost use Rattle.ti_lang.specs.Typing.TyRef.{ty_view};
ghost use Rattle.ti_lang.specs.Typing.TextTypes.{how_many};
ghost use Rattle.ti_lang.specs.Meaning.Held.{zero_of};
ghost use Rattle.ti_lang.specs.Meaning.Scoping.{zero_declared};
ghost use Rattle.ti_lower_expr.specs.Coding as coding;
ghost use Rattle.ti_lower_expr.specs.Slots.{find_slot, has_this};
ghost use Rattle.ti_lower_expr.specs.Contents.{names_in, BeginsWith};

use crate::kinds::{OperandClass, StaticRepr};
use crate::slots::Slots;
use ti_base::{Memory, Place, Point, Rect, Value};
use ti_code::{Instr, OneOperand, ValueMember};
use ti_lang::program::{Declared, Expr, Ty, Variable};
use ti_lang::tree::UnaryOperator;
use ti_lang::typing::TyRef;

/// Appends an instruction. After out of memory, each function here that appends to `out` leaves its old value followed by some instructions
/// or none.
pub fn emit(instr: Instr, out: &mut Vec<Instr>) -> Result<(), Memory>
    ensures code { OnOk result (out.new.items ≡ out.old.items ++ instr ∷ []) }
    ensures err { OnErr result (BeginsWith out.new.items out.old.items) }
{
    out.push(instr)?;
    Ok(())
}

/// A count as an operand of an instruction; out of memory iff it doesn't fit into 32 bits.
pub fn to_u32(count: usize) -> Result<u32, Memory>
    ensures value { IfOk result (λ m. m ≡ count) }
    ensures large { IfErr result (λ _. 2 ^ 32 ≤ count) }
{
    match u32::try_from(count) {
        Ok(count) => Ok(count),
        Err(_) => Err(Memory),
    }
}

/// The sum as an operand of an instruction; out of memory iff it doesn't fit into 32 bits.
pub fn u32_sum(count: usize, more: usize) -> Result<u32, Memory>
    ensures value { IfOk result (λ m. m ≡ count + more) }
    ensures large { IfErr result (λ _. 2 ^ 32 ≤ count + more) }
{
    match count.checked_add(more) {
        Some(m) => to_u32(m),
        None => Err(Memory),
    }
}

// ---- variables

fn has_dim(dim: u8) -> bool
    ensures { result ≡ is_dim dim }
{
    1 <= dim && dim <= 3
}

// The empty rectangular domain of the given number of dimensions.
fn empty_rect(dim: u8) -> Rect
    requires { IsDim dim }
    ensures { result ≡ empty_spec dim }
{
    Rect {
        dim,
        lo: Point {
            dim,
            x1: 1,
            x2: if dim >= 2 { 1 } else { 0 },
            x3: if dim >= 3 { 1 } else { 0 },
        },
        hi: Point {
            dim,
            x1: 0,
            x2: 0,
            x3: 0,
        },
        step: [1, 1, 1],
    }
}

// Pushes the zero of points of the given number of dimensions.
fn zero_point(dim: u8) -> Instr
    ensures { result ≡ coding.constant (zero_of (value_type_of (Ty.Pt dim))) }
{
    if !has_dim(dim) {
        return Instr::Const(Value::Bool(false));
    }
    Instr::Const(Value::Pt(Point {
        dim,
        x1: 0,
        x2: 0,
        x3: 0,
    }))
}

fn zero_rect(dim: u8) -> Instr
    ensures { result ≡ coding.constant (zero_of (value_type_of (Ty.Rc dim))) }
{
    if !has_dim(dim) {
        return Instr::Const(Value::Bool(false));
    }
    Instr::Const(Value::Rc(empty_rect(dim)))
}

fn zero_domain(dim: u8) -> Instr
    ensures { result ≡ coding.constant (zero_of (value_type_of (Ty.Dm dim))) }
{
    if !has_dim(dim) {
        return Instr::Const(Value::Bool(false));
    }
    Instr::EmptyDom(dim)
}

// Pushes the zero of a type.
fn zero(ty: &Ty) -> Instr
    ensures { result ≡ coding.constant (zero_of (value_type_of ty.now)) }
{
    match ty {
        Ty::Int => Instr::Const(Value::Int(0)),
        Ty::Long => Instr::Const(Value::Long(0)),
        Ty::Bool => Instr::Const(Value::Bool(false)),
        Ty::Pt(dim) => zero_point(*dim),
        Ty::Rc(dim) => zero_rect(*dim),
        Ty::Dm(dim) => zero_domain(*dim),
        Ty::Region => Instr::Const(Value::Region(0)),
        Ty::Class { class: _, local: _ } => Instr::Const(Value::Obj(None)),
        Ty::Grid {
            elem: _,
            dim: _,
            local: _,
        } => Instr::Const(Value::Grid(None)),
        Ty::Null => Instr::Const(Value::Obj(None)),
        Ty::Void => Instr::Const(Value::Bool(false)),
    }
}

/// Pushes the initial value of a variable with this declaration.
pub fn declared_zero(declared: &Declared) -> Instr
    ensures { result ≡ coding.constant (zero_declared (declared_of declared.now)) }
{
    match declared {
        Declared::Typed { single: _, ty } => zero(ty),
        Declared::Foreach => Instr::Const(Value::Bool(false)),
    }
}

/// Appends the push of a variable's value.
pub fn add_variable(slots: &Slots, variable: &Variable, out: &mut Vec<Instr>) -> Result<(), Memory>
    ensures code { OnOk result (out.new.items ≡ out.old.items ++ coding.load_variable (find_slot (variable_of variable.now) (names_in slots.now))
        (variable_of variable.now) ∷ []) }
    ensures err { OnErr result (BeginsWith out.new.items out.old.items) }
{
    match slots.find(variable) {
        Some(k) => {
            let k = to_u32(k)?;
            emit(Instr::Load(k), out)
        }
        None => emit(declared_zero(&variable.declared), out),
    }
}

/// Pushes `this`.
pub fn load_this(slots: &Slots) -> Instr
    ensures { result ≡ coding.load_this (has_this (names_in slots.now)) }
{
    if slots.has_this() {
        Instr::Load(0)
    } else {
        Instr::Const(Value::Obj(None))
    }
}

// ---- literals

/// Appends the instruction that makes a point of as many coordinates as there are parts.
pub fn add_point(parts: &[Expr], out: &mut Vec<Instr>) -> Result<(), Memory>
    ensures code { OnOk result (out.new.items ≡ out.old.items ++ i.MakePt (how_many (numbered_exps (map expression_of parts.now))) ∷ []) }
    ensures err { OnErr result (BeginsWith out.new.items out.old.items) }
{
    let count = to_u32(parts.len())?;
    emit(Instr::MakePt(count), out)
}

/// The instruction that makes the rectangular domain of `count` ranges; out of memory iff `count` doesn't fit into 32 bits.
pub fn rect_instr(kind: OperandClass, count: usize, place: Place) -> Result<Instr, Memory>
    ensures value { IfOk result (λ i. i ≡ coding.rect_instr kind count place) }
    ensures large { IfErr result (λ _. 2 ^ 32 ≤ count) }
{
    match kind {
        OperandClass::Points => if count == 1 {
            Ok(Instr::RectOfPts(place))
        } else {
            Ok(Instr::MakeRect(to_u32(count)?, place))
        },
        OperandClass::Numbers => Ok(Instr::MakeRect(to_u32(count)?, place)),
        OperandClass::Rects => Ok(Instr::MakeRect(to_u32(count)?, place)),
        OperandClass::Domains => Ok(Instr::MakeRect(to_u32(count)?, place)),
    }
}

// ---- operators and casts

/// Appends a unary operator.
pub fn add_unary(operator: UnaryOperator, out: &mut Vec<Instr>) -> Result<(), Memory>
    ensures code { OnOk result (out.new.items ≡ out.old.items ++ coding.unary_code operator) }
    ensures err { OnErr result (BeginsWith out.new.items out.old.items) }
{
    match operator {
        UnaryOperator::Minus => emit(Instr::Alone(OneOperand::Neg), out),
        UnaryOperator::Plus => Ok(()),
        UnaryOperator::Not => emit(Instr::Alone(OneOperand::Not), out),
        UnaryOperator::Complement => emit(Instr::Alone(OneOperand::Com), out),
    }
}

/// Jumps if the operand is `left`.
pub fn jump_where(left: bool, target: u32) -> Instr
    ensures { result ≡ coding.jump_where left target }
{
    if left {
        Instr::JumpIf(target)
    } else {
        Instr::JumpIfNot(target)
    }
}

// Appends a conversion to int, unless it is known to be idle.
fn add_narrow(known: StaticRepr, out: &mut Vec<Instr>) -> Result<(), Memory>
    ensures code { OnOk result (out.new.items ≡ out.old.items ++ coding.into_int known) }
    ensures err { OnErr result (BeginsWith out.new.items out.old.items) }
{
    match known {
        StaticRepr::Int => Ok(()),
        StaticRepr::Long | StaticRepr::Object | StaticRepr::Grid | StaticRepr::Other => emit(
            Instr::Narrow,
            out,
        ),
    }
}

fn add_widen(known: StaticRepr, out: &mut Vec<Instr>) -> Result<(), Memory>
    ensures code { OnOk result (out.new.items ≡ out.old.items ++ coding.into_long known) }
    ensures err { OnErr result (BeginsWith out.new.items out.old.items) }
{
    match known {
        StaticRepr::Long => Ok(()),
        StaticRepr::Int | StaticRepr::Object | StaticRepr::Grid | StaticRepr::Other => emit(
            Instr::Widen,
            out,
        ),
    }
}

fn add_as_object(known: StaticRepr, out: &mut Vec<Instr>) -> Result<(), Memory>
    ensures code { OnOk result (out.new.items ≡ out.old.items ++ coding.into_object known) }
    ensures err { OnErr result (BeginsWith out.new.items out.old.items) }
{
    match known {
        StaticRepr::Object => Ok(()),
        StaticRepr::Int | StaticRepr::Long | StaticRepr::Grid | StaticRepr::Other => emit(
            Instr::AsObj,
            out,
        ),
    }
}

fn add_as_grid(known: StaticRepr, out: &mut Vec<Instr>) -> Result<(), Memory>
    ensures code { OnOk result (out.new.items ≡ out.old.items ++ coding.into_grid known) }
    ensures err { OnErr result (BeginsWith out.new.items out.old.items) }
{
    match known {
        StaticRepr::Grid => Ok(()),
        StaticRepr::Int | StaticRepr::Long | StaticRepr::Object | StaticRepr::Other => emit(
            Instr::AsGrid,
            out,
        ),
    }
}

/// Appends the conversion of the top operand, of which this is known, to a type.
pub fn add_conversion(
    place: Place,
    ty: TyRef,
    known: StaticRepr,
    out: &mut Vec<Instr>,
) -> Result<(), Memory>
    ensures code { OnOk result (out.new.items ≡ out.old.items ++ coding.conversion place (ty_view ty.entry) known) }
    ensures err { OnErr result (BeginsWith out.new.items out.old.items) }
{
    match ty {
        TyRef::Dm(_) => emit(Instr::ToDom(place), out),
        TyRef::Long => add_widen(known, out),
        TyRef::Int => add_narrow(known, out),
        TyRef::Class { class: _, local: _ } => add_as_object(known, out),
        TyRef::Grid {
            elem: _,
            any_dim: _,
            dim: _,
            local: _,
        } => add_as_grid(known, out),
        TyRef::Bool | TyRef::Pt(_) | TyRef::Rc(_) | TyRef::Region | TyRef::Null | TyRef::Void => Ok(
            (),
        ),
    }
}

// Whether the type is that of a local reference.
fn is_local(ty: &Ty) -> bool
    ensures { result ≡ is_local (value_type_of ty.now) }
{
    match ty {
        Ty::Class { class: _, local } => *local,
        Ty::Grid {
            elem: _,
            dim: _,
            local,
        } => *local,
        _ => false,
    }
}

// Appends the check of a reference of local type.
fn add_local_test(place: Place, is_local: bool, out: &mut Vec<Instr>) -> Result<(), Memory>
    ensures code { OnOk result (out.new.items ≡ out.old.items ++ coding.local_test place is_local) }
    ensures err { OnErr result (BeginsWith out.new.items out.old.items) }
{
    if is_local {
        emit(Instr::CastLocal(place), out)
    } else {
        Ok(())
    }
}

/// Appends the cast of the top operand, of which this is known, to a type.
pub fn add_cast(
    place: Place,
    ty: &Ty,
    known: StaticRepr,
    out: &mut Vec<Instr>,
) -> Result<(), Memory>
    ensures code { OnOk result (out.new.items ≡ out.old.items ++ coding.conversion place (value_type_of ty.now) known
        ++ coding.local_test place (is_local (value_type_of ty.now))) }
    ensures err { OnErr result (BeginsWith out.new.items out.old.items) }
{
    add_conversion(place, TyRef::of(ty, false), known, out)?;
    add_local_test(place, is_local(ty), out)
}

// ---- members

/// Appends `count` pops.
pub fn add_pops(count: usize, out: &mut Vec<Instr>) -> Result<(), Memory>
    ensures code { OnOk result (out.new.items ≡ out.old.items ++ coding.pops count) }
    ensures err { OnErr result (BeginsWith out.new.items out.old.items) }
{
    let mut left = count;
    while left > 0 {
        left -= 1;
        out.push(Instr::Pop)?;
    }
    Ok(())
}

// Appends the code for a call of no member that has a value: it drops the `count` arguments and the receiver, and pushes `false`.
fn add_no_member(count: usize, out: &mut Vec<Instr>) -> Result<(), Memory>
    ensures code { OnOk result (out.new.items ≡ out.old.items ++ (i.Pop ∷ coding.pops count ++ i.Const (v.Bool false) ∷ [])) }
    ensures err { OnErr result (BeginsWith out.new.items out.old.items) }
{
    emit(Instr::Pop, out)?;
    add_pops(count, out)?;
    emit(Instr::Const(Value::Bool(false)), out)
}

/// Appends a member after its receiver and `count` arguments.
pub fn add_member(
    member: Option<ValueMember>,
    count: usize,
    place: Place,
    out: &mut Vec<Instr>,
) -> Result<(), Memory>
    ensures code { OnOk result (out.new.items ≡ out.old.items ++ coding.kind_code member count place) }
    ensures err { OnErr result (BeginsWith out.new.items out.old.items) }
{
    match member {
        Some(member) => {
            let count = to_u32(count)?;
            emit(Instr::Member(member, count, place), out)
        }
        None => add_no_member(count, out),
    }
}

/// Appends an indexing after a point or a grid and `count` indices.
pub fn add_index(
    is_point: bool,
    count: usize,
    place: Place,
    out: &mut Vec<Instr>,
) -> Result<(), Memory>
    ensures code { OnOk result (out.new.items ≡ out.old.items ++ coding.index_code is_point count place) }
    ensures err { OnErr result (BeginsWith out.new.items out.old.items) }
{
    let count = to_u32(count)?;
    if is_point {
        return emit(Instr::Coord(count, place), out);
    }
    emit(Instr::MakePt(count), out)?;
    emit(Instr::GetElem(place), out)
}
