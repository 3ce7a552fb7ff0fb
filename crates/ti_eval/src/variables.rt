// The variables in scope: search, assignment, and the zeros of types.

ghost use Rattle.std.specs.Prelude.{◌≡◌, [], IfOk};
ghost use Rattle.ti_base.specs.Points.{IsDim};
ghost use Rattle.ti_base.specs.Rects.{IsRect, empty_rect as empty_spec};
ghost use Rattle.ti_lang.specs.Program.Views.{value_type_of, declared_of, variable_of};
ghost use Rattle.ti_base.specs.Forms.{is_dim};
ghost use Rattle.ti_lang.specs.Meaning.Held.{zero_of};
ghost use Rattle.ti_lang.specs.Meaning.Scoping.{same_declaration, same_variable, find_variable, with_changed, zero_declared};
ghost use Rattle.ti_eval.specs.Frames.{slots_of};

use crate::frame::Slot;
use crate::var_value::VarValue;
use std::alloc::Global;
use ti_base::{Memory, Point, Rect, Value};
use ti_domain::{Dom, DomErr, dom_of};
use ti_lang::program::{Declared, Ty, Variable};
use ti_lang::typing::same_elements;

fn same_declared(left: &Declared, right: &Declared) -> bool
    ensures { result ≡ same_declaration (declared_of left.now) (declared_of right.now) }
{
    match (left, right) {
        (
            Declared::Typed { single, ty },
            Declared::Typed {
                single: other,
                ty: u,
            },
        ) => *single == *other && same_elements(ty, false, u, false),
        (Declared::Foreach, Declared::Foreach) => true,
        _ => false,
    }
}

/// Whether two variables are the same.
pub fn is_same_variable(left: &Variable, right: &Variable) -> bool
    ensures { result ≡ same_variable (variable_of left.now) (variable_of right.now) }
{
    left.number == right.number && same_declared(&left.declared, &right.declared)
}

// ---- zeros

fn has_dim(dim: u8) -> bool
    ensures { result ≡ is_dim dim }
{
    1 <= dim && dim <= 3
}

/// The empty rectangular domain of the given number of dimensions.
pub fn empty_rect(dim: u8) -> Rect
    requires { IsDim dim }
    ensures value { result ≡ empty_spec dim }
    ensures form { IsRect result }
{
    Rect {
        dim,
        lo: Point {
            dim,
            x1: 1,
            x2: if dim >= 2 { 1 } else { 0 },
            x3: if dim >= 3 { 1 } else { 0 },
        },
        hi: Point {
            dim,
            x1: 0,
            x2: 0,
            x3: 0,
        },
        step: [1, 1, 1],
    }
}

// The empty domain of the given number of dimensions.
fn no_points(alloc: Global, dim: u8) -> Result<Dom, Memory>
    requires { IsDim dim }
    ensures dim { IfOk result (λ d. d.dim ≡ dim) }
    ensures points { IfOk result (λ d. d.points ≡ []) }
{
    match dom_of(alloc, &empty_rect(dim)) {
        Ok(d) => Ok(d),
        Err(DomErr::TooLarge) => unreachable!(),
        Err(DomErr::Memory) => Err(Memory),
    }
}

// The zero of points of the given number of dimensions.
fn zero_point(dim: u8) -> VarValue
    ensures { result ≡ zero_of (value_type_of (Ty.Pt dim)) }
{
    if !has_dim(dim) {
        return VarValue::boolean(false);
    }
    VarValue::plain(Value::Pt(Point {
        dim,
        x1: 0,
        x2: 0,
        x3: 0,
    }))
}

fn zero_rect(dim: u8) -> VarValue
    ensures { result ≡ zero_of (value_type_of (Ty.Rc dim)) }
{
    if !has_dim(dim) {
        return VarValue::boolean(false);
    }
    VarValue::plain(Value::Rc(empty_rect(dim)))
}

fn zero_domain(alloc: Global, dim: u8) -> Result<VarValue, Memory>
    ensures { IfOk result (λ h. h ≡ zero_of (value_type_of (Ty.Dm dim))) }
{
    if !has_dim(dim) {
        return Ok(VarValue::boolean(false));
    }
    Ok(VarValue::domain(no_points(alloc, dim)?))
}

// The zero of a type.
fn zero(alloc: Global, ty: &Ty) -> Result<VarValue, Memory>
    ensures { IfOk result (λ h. h ≡ zero_of (value_type_of ty.now)) }
{
    match ty {
        Ty::Int => Ok(VarValue::plain(Value::Int(0))),
        Ty::Long => Ok(VarValue::plain(Value::Long(0))),
        Ty::Bool => Ok(VarValue::boolean(false)),
        Ty::Pt(dim) => Ok(zero_point(*dim)),
        Ty::Rc(dim) => Ok(zero_rect(*dim)),
        Ty::Dm(dim) => zero_domain(alloc, *dim),
        Ty::Region => Ok(VarValue::plain(Value::Region(0))),
        Ty::Class { class: _, local: _ } => Ok(VarValue::plain(Value::Obj(None))),
        Ty::Grid {
            elem: _,
            dim: _,
            local: _,
        } => Ok(VarValue::plain(Value::Grid(None))),
        Ty::Null => Ok(VarValue::plain(Value::Obj(None))),
        Ty::Void => Ok(VarValue::boolean(false)),
    }
}

// The initial value of a variable with this declaration.
fn zero_declared(alloc: Global, declared: &Declared) -> Result<VarValue, Memory>
    ensures { IfOk result (λ h. h ≡ zero_declared (declared_of declared.now)) }
{
    match declared {
        Declared::Typed { single: _, ty } => zero(alloc, ty),
        Declared::Foreach => Ok(VarValue::boolean(false)),
    }
}

// ---- values

/// The value of a variable; the zero of its type if it isn't in scope.
pub fn find(alloc: Global, variable: &Variable, slots: &[Slot]) -> Result<VarValue, Memory>
    ensures { IfOk result (λ h. h ≡ find_variable (variable_of variable.now) (slots_of slots.now)) }
{
    let mut n = slots.len();
    while n > 0 {
        n -= 1;
        if is_same_variable(variable, &slots[n].variable) {
            return slots[n].held.copy(alloc);
        }
    }
    zero_declared(alloc, &variable.declared)
}

/// Assigns to the newest of these variables that is the same; does nothing if it isn't in scope.
pub fn change(slots: &mut Vec<Slot>, variable: &Variable, held: VarValue)
    ensures { slots_of slots.new.items ≡ with_changed (variable_of variable.now) held (slots_of slots.old.items) }
{
    let mut n = slots.len();
    while n > 0 {
        n -= 1;
        if is_same_variable(variable, &slots[n].variable) {
            slots[n].held = held;
            return;
        }
    }
}
