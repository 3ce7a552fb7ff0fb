// Binary numeric promotion, and the classification of two operands.

ghost use Rattle.std.specs.Prelude.{◌≡◌, if◌then◌else◌};
ghost use Rattle.ti_base.specs.Points.{IsPoint};
ghost use Rattle.ti_base.specs.Rects.{IsRect};
ghost use Rattle.ti_base.specs.declared.value.Value.TheVariants.{Pt, Rc, Obj, Grid};
ghost use Rattle.ti_lang.specs.Meaning.Held.{Held as Seen, Plain};
ghost use Rattle.ti_lang.specs.Meaning.Operands as seen;
ghost use Rattle.ti_eval.specs.Forms.{IsFormedValue};
ghost use Rattle.ti_eval.specs.Operators.{operands_of, AreFormedOperands, AreDomains};

use crate::pairs::Operands;
use crate::var_value::VarValue;
use ti_base::{Id, Point, Rect, Value};
use ti_domain::Held;

fn points(point: Point, other: Point) -> Operands
    requires first { IsPoint point }
    requires second { IsPoint other }
    ensures value { operands_of result ≡ seen.plain_operands (Pt point) (Pt other) }
    ensures form { AreFormedOperands result }
    ensures domains { (x y : Seen) → AreDomains result x y }
{
    if point.dim == other.dim {
        Operands::Points(point, other)
    } else {
        Operands::Others
    }
}

fn rects(rect: Rect, other: Rect) -> Operands
    requires first { IsRect rect }
    requires second { IsRect other }
    ensures value { operands_of result ≡ seen.plain_operands (Rc rect) (Rc other) }
    ensures form { AreFormedOperands result }
    ensures domains { AreDomains result (Plain (Rc rect)) (Plain (Rc other)) }
{
    if rect.dim == other.dim {
        Operands::Rects(rect, other)
    } else {
        Operands::Others
    }
}

// An object or a grid with another value.
fn things(id: Option<Id>, other: Value) -> Operands
    ensures value { operands_of result ≡ seen.plain_operands (Obj id) other }
    ensures grid { operands_of result ≡ seen.plain_operands (Grid id) other }
    ensures form { AreFormedOperands result }
    ensures domains { (x z : Seen) → AreDomains result x z }
{
    match other {
        Value::Obj(b) => Operands::Things(id, b),
        Value::Grid(b) => Operands::Things(id, b),
        _ => Operands::Others,
    }
}

// Two values; if one is an int and the other a long, the int is converted to a long.
fn values(left: Value, right: Value) -> Operands
    requires first { IsFormedValue left }
    requires second { IsFormedValue right }
    ensures value { operands_of result ≡ seen.plain_operands left right }
    ensures form { AreFormedOperands result }
    ensures domains { AreDomains result (Plain left) (Plain right) }
{
    match left {
        Value::Int(a) => match right {
            Value::Int(b) => Operands::Ints(a, b),
            Value::Long(b) => Operands::Longs(i64::from(a), b),
            _ => Operands::Others,
        },
        Value::Long(a) => match right {
            Value::Int(b) => Operands::Longs(a, i64::from(b)),
            Value::Long(b) => Operands::Longs(a, b),
            _ => Operands::Others,
        },
        Value::Bool(a) => match right {
            Value::Bool(b) => Operands::Bools(a, b),
            _ => Operands::Others,
        },
        Value::Pt(p) => match right {
            Value::Pt(q) => points(p, q),
            _ => Operands::Others,
        },
        Value::Rc(r) => match right {
            Value::Rc(s) => rects(r, s),
            _ => Operands::Others,
        },
        Value::Obj(a) => things(a, right),
        Value::Grid(a) => things(a, right),
        Value::Region(a) => match right {
            Value::Region(b) => Operands::Regions(a, b),
            _ => Operands::Others,
        },
    }
}

// The dimension of a domain, rectangular or not; `None` for another value.
fn held_dim(value: &VarValue) -> Option<u8>
    ensures { result ≡ seen.held_dim value.now }
{
    match &value.kept {
        Held::Plain(Value::Rc(r)) => Some(r.dim),
        Held::Plain(_) => None,
        Held::Dm(_) => Some(value.dim()),
    }
}

// Two operands of which at least one is a general domain.
fn domains(left: &VarValue, right: &VarValue) -> Operands
    ensures value { operands_of result ≡ (if seen.same_dim (seen.held_dim left.now) (seen.held_dim right.now) then seen.Domains else seen.Others) }
    ensures form { AreFormedOperands result }
    ensures domains { AreDomains result left.now right.now }
{
    match (held_dim(left), held_dim(right)) {
        (Some(n), Some(m)) => if n == m {
            Operands::Domains
        } else {
            Operands::Others
        },
        _ => Operands::Others,
    }
}

/// Two operands, brought to one type.
pub fn operands(left: &VarValue, right: &VarValue) -> Operands
    ensures value { operands_of result ≡ seen.operands left.now right.now }
    ensures form { AreFormedOperands result }
    ensures domains { AreDomains result left.now right.now }
{
    match (&left.kept, &right.kept) {
        (Held::Plain(v), Held::Plain(w)) => values(*v, *w),
        _ => domains(left, right),
    }
}
