// Whether values have the forms of types, and whether points and rectangular domains are canonical.

ghost use Rattle.std.specs.Prelude.{◌≡◌, ◌↔◌, IsTrue};
ghost use Rattle.ti_base.specs.Points.{IsDim, IsPoint};
ghost use Rattle.ti_base.specs.Ranges.{IsRange};
ghost use Rattle.ti_base.specs.Rects.{empty_rect, first_range, second_range, third_range};
ghost use Rattle.ti_lang.specs.Meaning.Answers.{HasForm, IsPointOf, IsRectOf};
ghost use Rattle.ti_lang.specs.Typing.TyRef.{ty_view};
ghost use Rattle.ti_rect.specs.Axes.{range};

use ti_base::{Point, Rect, Value};
use ti_lang::typing::TyRef;
use ti_rect::axis::{Axis, NONE, UNUSED, distance};
use ti_rect::rect::{first, of_axes, second, third};

// Whether a point has one to three dimensions and its unused coordinates are 0.
fn is_point(point: Point) -> bool
    ensures { IsTrue result ↔ IsPoint point }
{
    match point.dim {
        1 => point.x2 == 0 && point.x3 == 0,
        2 => point.x3 == 0,
        3 => true,
        _ => false,
    }
}

// Whether it is a canonical point of a dimension.
fn is_point_of(dim: usize, point: Point) -> bool
    ensures { IsTrue result ↔ IsPointOf dim point }
{
    usize::from(point.dim) == dim && is_point(point)
}

// Whether a range is canonical: it isn't empty, its high bound is one of its numbers, and its step is 1 if it has only one number.
fn is_range(axis: Axis) -> bool
    ensures { IsTrue result ↔ IsRange (range axis) }
{
    if axis.high < axis.low || axis.step == 0 {
        return false;
    }
    let far = distance(axis.low, i64::from(axis.high));
    if far == 0 {
        axis.step == 1
    } else {
        far % u64::from(axis.step) == 0
    }
}

// Whether it is the canonical empty rectangle of its dimension.
fn is_empty_form(rect: &Rect) -> bool
    requires { IsDim rect.now.dim }
    ensures { IsTrue result ↔ (rect.now ≡ empty_rect rect.now.dim) }
{
    *rect == of_axes(rect.dim, NONE, UNUSED, UNUSED)
}

// Whether each coordinate of a rectangle has a canonical range.
fn has_ranges(rect: &Rect) -> bool
    ensures { IsTrue result ↔ (IsRange (first_range rect.now) × IsRange (second_range rect.now) × IsRange (third_range rect.now)) }
{
    is_range(first(rect)) && is_range(second(rect)) && is_range(third(rect))
}

// Whether it is a canonical rectangular domain of a dimension.
fn is_rect_of(dim: usize, rect: &Rect) -> bool
    ensures { IsTrue result ↔ IsRectOf dim rect.now }
{
    usize::from(rect.dim) == dim
        && is_point_of(dim, rect.lo)
        && is_point_of(dim, rect.hi)
        && (is_empty_form(rect) || has_ranges(rect))
}

/// Whether a value has the form of a type.
pub fn has_form(ty: TyRef, value: Value) -> bool
    ensures { IsTrue result ↔ HasForm (ty_view ty.entry) value }
{
    match (ty, value) {
        (TyRef::Int, Value::Int(_)) => true,
        (TyRef::Long, Value::Long(_)) => true,
        (TyRef::Bool, Value::Bool(_)) => true,
        (TyRef::Pt(dim), Value::Pt(p)) => is_point_of(dim, p),
        (TyRef::Rc(dim), Value::Rc(r)) => is_rect_of(dim, &r),
        (TyRef::Region, Value::Region(_)) => true,
        (TyRef::Class { .. }, Value::Obj(_)) => true,
        (TyRef::Grid { .. }, Value::Grid(_)) => true,
        _ => false,
    }
}
