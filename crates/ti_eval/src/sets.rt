// Set operations on domains.

ghost use Rattle.std.specs.Prelude.{◌≡◌};
ghost use Rattle.ti_lang.specs.Meaning.Conversions as conversions;
ghost use Rattle.ti_eval.specs.Comes.{Comes};
ghost use Rattle.ti_eval.specs.Operators.{HaveOneDim, set_of};

use crate::canonical_answer::{CanonicalAnswer, Evaluated};
use crate::conversions::as_domain;
use crate::interrupt::Interrupt;
use crate::kinds::SetOp;
use crate::var_value::VarValue;
use std::alloc::Global;
use ti_base::{FaultKind, Place};
use ti_domain::{Dom, DomErr, dom_meet, dom_minus, dom_union};

// A set operation on two domains; a fault if the result has too many points.
#[tactic(auto, using(crate::proofs::Sizes::sizes))]
fn apply_set_op<'a>(
    alloc: Global,
    place: Place,
    operator: SetOp,
    domain: &Dom,
    other: &Dom,
    answers: &'a [CanonicalAnswer],
) -> Evaluated<'a, VarValue>
    requires { other.now.dim ≡ domain.now.dim }
    ensures { Comes result (conversions.domain_within place domain.now.dim (set_of operator domain.now.points other.now.points) answers.now) }
{
    match operator {
        SetOp::Union => match dom_union(alloc, domain, other) {
            Ok(u) => Ok((VarValue::domain(u), answers)),
            Err(DomErr::TooLarge) => Err(Interrupt::Fault(FaultKind::DomainSize, place)),
            Err(DomErr::Memory) => Err(Interrupt::Memory),
        },
        SetOp::Difference => Ok((VarValue::domain(dom_minus(alloc, domain, other)?), answers)),
        SetOp::Intersection => Ok((VarValue::domain(dom_meet(alloc, domain, other)?), answers)),
    }
}

/// A set operation on two domains of one dimension, each rectangular or not.
#[tactic(auto, using(crate::proofs::Steps::steps))]
pub fn of_domains<'a>(
    alloc: Global,
    place: Place,
    operator: SetOp,
    left: &VarValue,
    right: &VarValue,
    answers: &'a [CanonicalAnswer],
) -> Evaluated<'a, VarValue>
    requires { HaveOneDim left.now right.now }
    ensures { Comes result (conversions.of_domains (set_of operator) place left.now right.now answers.now) }
{
    let (d, answers) = as_domain(alloc, place, left, answers)?;
    let (e, answers) = as_domain(alloc, place, right, answers)?;
    apply_set_op(alloc, place, operator, &d, &e, answers)
}
