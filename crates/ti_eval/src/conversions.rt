// Conversions of values to types, and of rectangular domains to general ones.

ghost use Rattle.std.specs.Prelude.{◌≡◌, Some, IfOk, ℕ};
ghost use Rattle.ti_lang.specs.Program.Types as types;
ghost use Rattle.ti_lang.specs.Program.Views.{value_type_of};
ghost use Rattle.ti_lang.specs.Meaning.Held.{Plain, Dm, as_type};
ghost use Rattle.ti_base.specs.declared.value.Value.TheVariants.{Rc};
ghost use Rattle.ti_base.specs.Rects.{IsRect};
ghost use Rattle.ti_lang.specs.Typing.Kinds.{is_local as is_local_spec};
ghost use Rattle.ti_lang.specs.Meaning.Operands.{held_dim};
ghost use Rattle.ti_lang.specs.Meaning.Conversions as conversions;
ghost use Rattle.ti_lang.specs.Meaning.Evaluation.{kept_local as kept_local_spec, is_own as is_own_spec};
ghost use Rattle.ti_domain.specs.Domains.{Domain};
ghost use Rattle.ti_eval.specs.Comes.{Comes, ComesAs};

use crate::canonical_answer::{CanonicalAnswer, Evaluated};
use crate::interrupt::Interrupt;
use crate::var_value::VarValue;
use std::alloc::Global;
use ti_base::{FaultKind, Id, Place, Rect, Value, to_int, to_long};
use ti_domain::{Dom, DomErr, Held, dom_copy, dom_of};
use ti_lang::program::Ty;
use ti_lang::typing::TyRef;

// The domain of the points of a rectangular one; a fault if there are too many.
fn widen<'a>(
    alloc: Global,
    place: Place,
    rect: &Rect,
    answers: &'a [CanonicalAnswer],
) -> Evaluated<'a, Dom>
    requires { IsRect rect.now }
    ensures came { ComesAs (λ (d : Domain). Dm d.dim d.points) result (conversions.to_domain place (Plain (Rc rect.now)) answers.now) }
    ensures dim { IfOk result (λ p. p.0.dim ≡ rect.now.dim) }
{
    match dom_of(alloc, rect) {
        Ok(d) => Ok((d, answers)),
        Err(DomErr::TooLarge) => Err(Interrupt::Fault(FaultKind::DomainSize, place)),
        Err(DomErr::Memory) => Err(Interrupt::Memory),
    }
}

/// Converts a rectangular domain to a general one; a fault if it has too many points. Any other value is unchanged.
pub fn to_domain<'a>(
    alloc: Global,
    place: Place,
    value: VarValue,
    answers: &'a [CanonicalAnswer],
) -> Evaluated<'a, VarValue>
    ensures { Comes result (conversions.to_domain place value answers.now) }
{
    match &value.kept {
        Held::Plain(Value::Rc(r)) => {
            let (d, answers) = widen(alloc, place, r, answers)?;
            Ok((VarValue::domain(d), answers))
        }
        _ => Ok((value, answers)),
    }
}

/// A copy of a domain, rectangular or not, as a general one; a fault if it has too many points.
pub fn as_domain<'a>(
    alloc: Global,
    place: Place,
    value: &VarValue,
    answers: &'a [CanonicalAnswer],
) -> Evaluated<'a, Dom>
    requires { (n : ℕ) × (held_dim value.now ≡ Some n) }
    ensures came { ComesAs (λ (d : Domain). Dm d.dim d.points) result (conversions.to_domain place value.now answers.now) }
    ensures dim { IfOk result (λ p. held_dim value.now ≡ Some p.0.dim) }
{
    match &value.kept {
        Held::Plain(Value::Rc(r)) => widen(alloc, place, r, answers),
        Held::Plain(_) => unreachable!(),
        Held::Dm(d) => Ok((dom_copy(alloc, d)?, answers)),
    }
}

/// Converts an int to a long; any other value is unchanged.
pub fn as_long(value: VarValue) -> VarValue
    ensures { result ≡ as_type types.Long value }
{
    match &value.kept {
        Held::Plain(Value::Int(n)) => VarValue::plain(Value::Long(to_long(*n))),
        _ => value,
    }
}

/// Converts a long to an int, keeping its low 32 bits; any other value is unchanged.
pub fn as_int(value: VarValue) -> VarValue
    ensures { result ≡ as_type types.Int value }
{
    match &value.kept {
        Held::Plain(Value::Long(n)) => VarValue::plain(Value::Int(to_int(*n))),
        _ => value,
    }
}

/// Converts a value to a type that isn't a domain's.
pub fn as_type(ty: &Ty, value: VarValue) -> VarValue
    ensures { result ≡ as_type (value_type_of ty.now) value }
{
    match ty {
        Ty::Long => as_long(value),
        Ty::Int => as_int(value),
        Ty::Class { class: _, local: _ } => VarValue::plain(Value::Obj(value.thing())),
        Ty::Grid {
            elem: _,
            dim: _,
            local: _,
        } => VarValue::plain(Value::Grid(value.thing())),
        _ => value,
    }
}

/// Converts a value to a type. A domain with too many points is a fault.
pub fn coerce<'a>(
    alloc: Global,
    place: Place,
    ty: &Ty,
    value: VarValue,
    answers: &'a [CanonicalAnswer],
) -> Evaluated<'a, VarValue>
    ensures { Comes result (conversions.converted place (value_type_of ty.now) value answers.now) }
{
    match ty {
        Ty::Dm(_) => to_domain(alloc, place, value, answers),
        _ => Ok((as_type(ty, value), answers)),
    }
}

fn is_own(number: u32, id: Option<Id>) -> bool
    ensures { result ≡ is_own_spec number id }
{
    match id {
        Some(id) => id.owner == number,
        None => true,
    }
}

fn is_local(ty: &Ty) -> bool
    ensures { result ≡ is_local_spec (value_type_of ty.now) }
{
    TyRef::of(ty, false).is_local()
}

/// Checks a reference of local type: a fault unless it is null or refers to an object or array of the process itself.
pub fn check_local<'a>(
    number: u32,
    place: Place,
    ty: &Ty,
    value: VarValue,
    answers: &'a [CanonicalAnswer],
) -> Evaluated<'a, VarValue>
    ensures { Comes result (kept_local_spec number place (value_type_of ty.now) value answers.now) }
{
    if !is_local(ty) || is_own(number, value.thing()) {
        Ok((value, answers))
    } else {
        Err(Interrupt::Fault(FaultKind::NotLocal, place))
    }
}
