// The built-in members that have a value, and indexing.

ghost use Rattle.std.specs.Prelude.{◌≡◌, option_map, slice_index_or};
ghost use Rattle.ti_base.specs.Points.{IsPoint};
ghost use Rattle.ti_base.specs.Rects as rects;
ghost use Rattle.ti_base.specs.declared.value.Value.TheVariants.{Rc};
ghost use Rattle.ti_base.specs.PointSets.{is_among};
ghost use Rattle.ti_base.specs.declared.action.ViewHow.TheVariants.{Slice};
ghost use Rattle.ti_lang.specs.Program.Types.{ValueType};
ghost use Rattle.ti_lang.specs.Typing.TyRef.{built_in_of};
ghost use Rattle.ti_lang.specs.Meaning.Held as held;
ghost use Rattle.ti_lang.specs.Meaning.MemberForms as forms;
ghost use Rattle.ti_lang.specs.Meaning.CellRefs as parts;
ghost use Rattle.ti_eval.specs.Comes.{Comes};

use crate::canonical_answer::{CanonicalAnswer, Evaluated};
use crate::heap_reads::{fetch_domain, fetch_element, fetch_view};
use crate::interrupt::Interrupt;
use crate::literals::point_of_numbers;
use crate::var_value::VarValue;
use crate::variables::empty_rect;
use ti_base::{FaultKind, Place, Point, Rect, Value, ViewHow};
use ti_domain::{Dom, Held, dim_of, dom_contains, dom_pieces, dom_size};
use ti_lang::typing::BuiltIn;
use ti_rect::{rect_contains, rect_size};

// How many points a rectangular domain has; a fault if the number isn't an int.
#[tactic(auto, using(crate::proofs::MemberLaws::sizes))]
fn rect_size_value<'a>(
    place: Place,
    rect: &Rect,
    answers: &'a [CanonicalAnswer],
) -> Evaluated<'a, VarValue>
    requires { rects.IsRect rect.now }
    ensures { Comes result (forms.domain_size place (held.Plain (Rc rect.now)) answers.now) }
{
    match rect_size(rect) {
        Ok(n) => Ok((VarValue::plain(Value::Int(n)), answers)),
        Err(_) => Err(Interrupt::Fault(FaultKind::DomainSize, place)),
    }
}

// How many points a domain has.
fn domain_size<'a>(
    place: Place,
    value: &VarValue,
    answers: &'a [CanonicalAnswer],
) -> Evaluated<'a, VarValue>
    ensures { Comes result (forms.domain_size place value.now answers.now) }
{
    match &value.kept {
        Held::Plain(Value::Rc(r)) => rect_size_value(place, r, answers),
        Held::Plain(_) => Ok((VarValue::boolean(false), answers)),
        Held::Dm(d) => Ok((VarValue::plain(Value::Int(dom_size(d))), answers)),
    }
}

fn is_empty(rect: &Rect) -> bool
    ensures { result ≡ rects.is_empty rect.now }
{
    rect.hi.x1 < rect.lo.x1 || rect.hi.x2 < rect.lo.x2 || rect.hi.x3 < rect.lo.x3
}

// The least point of a rectangular domain; a fault if it is empty.
#[tactic(auto, using(crate::proofs::MemberLaws::ends))]
fn least<'a>(
    place: Place,
    value: &VarValue,
    answers: &'a [CanonicalAnswer],
) -> Evaluated<'a, VarValue>
    ensures { Comes result (forms.extreme place value.now (held.rect_of value.now).lo answers.now) }
{
    let r = value.rect();
    if is_empty(&r) {
        return Err(Interrupt::Fault(FaultKind::EmptyDomain, place));
    }
    Ok((VarValue::plain(Value::Pt(r.lo)), answers))
}

// The greatest point of a rectangular domain; a fault if it is empty.
#[tactic(auto, using(crate::proofs::MemberLaws::ends))]
fn greatest<'a>(
    place: Place,
    value: &VarValue,
    answers: &'a [CanonicalAnswer],
) -> Evaluated<'a, VarValue>
    ensures { Comes result (forms.extreme place value.now (held.rect_of value.now).hi answers.now) }
{
    let r = value.rect();
    if is_empty(&r) {
        return Err(Interrupt::Fault(FaultKind::EmptyDomain, place));
    }
    Ok((VarValue::plain(Value::Pt(r.hi)), answers))
}

// Whether a rectangular domain contains a point.
fn rect_has(rect: &Rect, point: &Point) -> bool
    requires { rects.IsRect rect.now }
    ensures { result ≡ rects.is_in rect.now point.now }
{
    if point.dim != rect.dim {
        return false;
    }
    rect_contains(rect, point)
}

// Whether a domain contains a point.
fn domain_has(domain: &Dom, point: &Point) -> bool
    ensures { result ≡ is_among domain.now.points point.now }
{
    // For the prover: brings the form of the domain into scope.
    let pieces = dom_pieces(domain);
    let _ = pieces;
    if point.dim != dim_of(domain) {
        return false;
    }
    dom_contains(domain, point)
}

fn domain_contains(value: &VarValue, point: &Point) -> bool
    ensures { result ≡ forms.domain_has value.now point.now }
{
    match &value.kept {
        Held::Plain(Value::Rc(r)) => rect_has(r, point),
        Held::Plain(_) => false,
        Held::Dm(d) => domain_has(d, point),
    }
}

// ---- arguments

fn int_argument(args: &[VarValue], index: usize) -> i32
    ensures { result ≡ held.int_of (slice_index_or args.now index held.no_value) }
{
    if index < args.len() {
        args[index].int()
    } else {
        0
    }
}

fn point_argument(args: &[VarValue]) -> Point
    ensures value { result ≡ held.point_of (slice_index_or args.now 0 held.no_value) }
    ensures form { IsPoint result }
{
    if !args.is_empty() {
        return args[0].point();
    }
    Point {
        dim: 1,
        x1: 0,
        x2: 0,
        x3: 0,
    }
}

fn rect_argument(args: &[VarValue]) -> Rect
    ensures value { result ≡ held.rect_of (slice_index_or args.now 0 held.no_value) }
    ensures form { rects.IsRect result }
{
    if !args.is_empty() {
        return args[0].rect();
    }
    empty_rect(1)
}

fn slice_argument(args: &[VarValue]) -> ViewHow
    ensures { result ≡ Slice (held.int_of (slice_index_or args.now 0 held.no_value)) (held.int_of (slice_index_or args.now 1 held.no_value)) }
{
    ViewHow::Slice(int_argument(args, 0), int_argument(args, 1))
}

// A slice of a grid.
fn slice_grid<'a>(
    place: Place,
    value: &VarValue,
    args: &[VarValue],
    answers: &'a [CanonicalAnswer],
) -> Evaluated<'a, VarValue>
    ensures { (type through : ValueType) → Comes result (parts.viewed place type
        (Slice (held.int_of (slice_index_or args.now 0 held.no_value)) (held.int_of (slice_index_or args.now 1 held.no_value))) through
        value.now answers.now) }
{
    fetch_view(place, slice_argument(args), value, answers)
}

// ---- members

/// The value of a built-in member; `false` for `copy`, `exchange` and `delete`, which have no value.
pub fn member<'a>(
    place: Place,
    built_in: Option<BuiltIn>,
    value: &VarValue,
    args: &[VarValue],
    answers: &'a [CanonicalAnswer],
) -> Evaluated<'a, VarValue>
    ensures { (type through : ValueType) → Comes result (forms.member_value place type
        (option_map built_in_of built_in) through value.now args.now answers.now) }
{
    let Some(built_in) = built_in else {
        return Ok((VarValue::boolean(false), answers));
    };
    match built_in {
        BuiltIn::Size => domain_size(place, value, answers),
        BuiltIn::Min => least(place, value, answers),
        BuiltIn::Max => greatest(place, value, answers),
        BuiltIn::Contains => Ok((
            VarValue::boolean(domain_contains(value, &point_argument(args))),
            answers,
        )),
        BuiltIn::Domain => fetch_domain(place, value, answers),
        BuiltIn::Restrict => fetch_view(
            place,
            ViewHow::Restrict(rect_argument(args)),
            value,
            answers,
        ),
        BuiltIn::Translate => {
            fetch_view(
                place,
                ViewHow::Translate(point_argument(args)),
                value,
                answers,
            )
        }
        BuiltIn::Slice => slice_grid(place, value, args, answers),
        BuiltIn::Copy => Ok((VarValue::boolean(false), answers)),
        BuiltIn::Exchange => Ok((VarValue::boolean(false), answers)),
        BuiltIn::Delete => Ok((VarValue::boolean(false), answers)),
    }
}

// ---- indices

// A coordinate of a point, counted from 1; a fault if the point doesn't have it.
fn coordinate<'a>(
    place: Place,
    point: &Point,
    index: i32,
    answers: &'a [CanonicalAnswer],
) -> Evaluated<'a, VarValue>
    requires { IsPoint point.now }
    ensures { Comes result (parts.coordinate place point.now index answers.now) }
{
    if index == 1 {
        return Ok((VarValue::plain(Value::Int(point.x1)), answers));
    }
    if index == 2 && point.dim >= 2 {
        return Ok((VarValue::plain(Value::Int(point.x2)), answers));
    }
    if index == 3 && point.dim >= 3 {
        return Ok((VarValue::plain(Value::Int(point.x3)), answers));
    }
    Err(Interrupt::Fault(FaultKind::Bounds, place))
}

/// A coordinate of a point, or an element of a grid.
pub fn index_value<'a>(
    is_point: bool,
    place: Place,
    value: &VarValue,
    indices: &[i32],
    answers: &'a [CanonicalAnswer],
) -> Evaluated<'a, VarValue>
    ensures { (type through : ValueType) → Comes result (parts.indexed is_point place type through value.now indices.now answers.now) }
{
    if !is_point {
        return fetch_element(place, value, point_of_numbers(indices), answers);
    }
    let k = if indices.is_empty() { 0 } else { indices[0] };
    coordinate(place, &value.point(), k, answers)
}
