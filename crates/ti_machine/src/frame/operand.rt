// Operands. The domain of a foreach is consumed lazily: what is left of it is kept as the domain and the last point taken.

ghost use Rattle.std.specs.Prelude.{◌≡◌, List, IfOk, IfSome};
ghost use Rattle.ti_base.specs.Points.{IsPoint};
ghost use Rattle.ti_base.specs.declared.entry.Answer.{Answer};
ghost use Rattle.ti_base.specs.declared.value.Value.TheVariants.{Int, Pt};
ghost use Rattle.ti_lang.specs.Meaning.Held.{no_value, plain_of, point_of, referent_of, Plain};
ghost use Rattle.ti_lang.specs.Meaning.Comp.{Gives};
ghost use Rattle.ti_lang.specs.Meaning.CellRefs.{coordinate};
ghost use Rattle.ti_eval.specs.Scalars.{held_of_scalar};
ghost use Rattle.ti_code.specs.Effects.{one_step as one_step_of, unit_point as ones_of};
ghost use Rattle.ti_machine.specs.Mirrors.Operands.{SplitsFirst};

use crate::fast::fold_int::{Number, int_in};
use crate::fast::fold_scalar::{coordinate_in, scalar_in};
use std::alloc::Global;
use std::marker::Model;
use ti_base::{Id, Memory, Place, Point, Value};
use ti_eval::{Scalar, VarValue, next_point};

/// The representation of an operand: a value or a domain as a whole, or the points of a domain after the given one.
#[derive(Drop)]
pub enum OperandRepr {
    Value(VarValue),
    DomainTail(VarValue, Point),
}

/// An operand. Contracts see the value or the domain that it denotes. What is left of a domain whose first points were taken is kept as the
/// domain and the last point taken, since as rectangles it might need more than a domain can have.
#[derive(Drop)]
pub struct StackOperand {
    repr: OperandRepr,
}

impl Model for StackOperand {
    ghost use Rattle.ti_lang.specs.Meaning.Held.{Held};

    ghost Value = { Held };

    ghost use Rattle.ti_machine.specs.Mirrors.Operands.{value_of_repr};

    ghost view = { λ o. value_of_repr o.repr };
}

// The point of the same number of dimensions whose coordinates are all 1.
fn unit_point(point: &Point) -> Point
    requires { IsPoint point.now }
    ensures value { result ≡ ones_of point.now }
    ensures form { IsPoint result }
{
    Point {
        dim: point.dim,
        x1: 1,
        x2: if point.dim >= 2 { 1 } else { 0 },
        x3: if point.dim >= 3 { 1 } else { 0 },
    }
}

impl StackOperand {
    /// A value or a domain.
    pub(crate) fn of(held: VarValue) -> StackOperand
        ensures { result ≡ held }
    {
        StackOperand {
            repr: OperandRepr::Value(held),
        }
    }

    /// The operand as a value. Out of memory for a partly consumed domain, which isn't rebuilt.
    pub(crate) fn into_held(self) -> Result<VarValue, Memory>
        ensures { IfOk result (λ h. h ≡ self) }
    {
        match self.repr {
            OperandRepr::Value(h) => Ok(h),
            OperandRepr::DomainTail(_, _) => Err(Memory),
        }
    }

    /// The number or the boolean that it is, if that can be seen cheaply.
    pub(crate) fn scalar(&self) -> Option<Scalar>
        ensures { IfSome result (λ s. held_of_scalar s ≡ self.now) }
    {
        match &self.repr {
            OperandRepr::Value(h) => scalar_in(h),
            OperandRepr::DomainTail(_, _) => None,
        }
    }

    /// The int that it is, if it is one.
    #[inline(always)]
    pub(crate) fn int(&self) -> Option<Number>
        ensures { IfSome result (λ n. Plain (Int n.n) ≡ self.now) }
    {
        match &self.repr {
            OperandRepr::Value(h) => int_in(h),
            OperandRepr::DomainTail(_, _) => None,
        }
    }

    /// The object or the grid that it refers to, if there is one.
    pub(crate) fn thing(&self) -> Option<Id>
        ensures { result ≡ referent_of self.now }
    {
        match &self.repr {
            OperandRepr::Value(h) => h.thing(),
            OperandRepr::DomainTail(_, _) => None,
        }
    }

    /// The value for a cell or an action; `false` for a partly consumed domain.
    pub(crate) fn value(&self) -> Value
        ensures { result ≡ plain_of self.now }
    {
        match &self.repr {
            OperandRepr::Value(h) => h.value(),
            OperandRepr::DomainTail(_, _) => Value::Bool(false),
        }
    }

    /// The point that it is; the one-dimensional point 0 for another operand.
    pub(crate) fn point(&self) -> Point
        ensures { result ≡ point_of self.now }
    {
        match &self.repr {
            OperandRepr::Value(h) => h.point(),
            OperandRepr::DomainTail(_, _) => Point {
                dim: 1,
                x1: 0,
                x2: 0,
                x3: 0,
            },
        }
    }

    /// The point that it is, if it is one.
    #[tactic(auto, using(crate::proofs::Striding::points))]
    pub(crate) fn as_point(&self) -> Option<Point>
        ensures value { IfSome result (λ p. Plain (Pt p) ≡ self.now) }
        ensures form { IfSome result IsPoint }
    {
        match &self.repr {
            OperandRepr::Value(h) => match h.value() {
                Value::Pt(_) => Some(h.point()),
                _ => None,
            },
            OperandRepr::DomainTail(_, _) => None,
        }
    }

    /// A coordinate of the point that it is, if it is a point with this coordinate.
    pub(crate) fn coordinate(&self, place: Place, index: Number) -> Option<Scalar>
        ensures { IfSome result (λ x. (rest : List Answer) → coordinate place (point_of self.now) index.n rest ≡ Gives (held_of_scalar x) rest) }
    {
        match &self.repr {
            OperandRepr::Value(h) => coordinate_in(h, place, index),
            OperandRepr::DomainTail(_, _) => None,
        }
    }

    /// A copy.
    pub(crate) fn copy(&self, alloc: Global) -> Result<StackOperand, Memory>
        ensures { IfOk result (λ o. o ≡ self.now) }
    {
        match &self.repr {
            OperandRepr::Value(h) => {
                let h = h.copy(alloc)?;
                Ok(StackOperand {
                    repr: OperandRepr::Value(h),
                })
            }
            OperandRepr::DomainTail(h, p) => {
                let h = h.copy(alloc)?;
                Ok(StackOperand {
                    repr: OperandRepr::DomainTail(h, *p),
                })
            }
        }
    }

    /// The default step of a range with this low bound: 1, or the point whose coordinates are all 1.
    pub(crate) fn one_step(&self) -> VarValue
        ensures { result ≡ one_step_of self.now }
    {
        match &self.repr {
            OperandRepr::Value(h) => match h.value() {
                Value::Pt(_) => VarValue::plain(Value::Pt(unit_point(&h.point()))),
                _ => VarValue::plain(Value::Int(1)),
            },
            OperandRepr::DomainTail(_, _) => VarValue::plain(Value::Int(1)),
        }
    }

    /// Splits a domain into its first point, if it has one, and the other points.
    pub(crate) fn step(self) -> (StackOperand, Option<Point>)
        ensures took { SplitsFirst self result.0 result.1 }
        ensures form { IfSome result.1 IsPoint }
    {
        let (domain, last) = match self.repr {
            OperandRepr::Value(h) => (h, None),
            OperandRepr::DomainTail(h, p) => (h, Some(p)),
        };
        match next_point(&domain, last) {
            Some(p) => (
                StackOperand {
                    repr: OperandRepr::DomainTail(domain, p),
                },
                Some(p),
            ),
            None => {
                let repr = match last {
                    None => OperandRepr::Value(domain),
                    Some(p) => OperandRepr::DomainTail(domain, p),
                };
                (StackOperand { repr }, None)
            }
        }
    }
}
