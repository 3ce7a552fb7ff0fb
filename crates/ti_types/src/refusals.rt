// Errors of operands and values by their types.
ghost use Rattle.std.specs.Prelude.{◌≡◌};
ghost use Rattle.ti_rules.specs.Mirrors.First.{earliest};
ghost use Rattle.ti_rules.specs.Broken.Refused.{operand_refusal, misfit};
ghost use Rattle.ti_lang.specs.Typing.TyRef.{ty_view};

use crate::fitting::is_assignable;
use ti_base::Place;
use ti_lang::typing::TyRef;
use ti_rules::{Refusal, Rule};

/// The error of operands that aren't accepted: Y5 if they would be with dimensions ignored (`otherwise`), else Y1.
#[tactic(auto, unfolding(ti_rules::specs::Mirrors::First::earliest, ti_rules::specs::Mirrors::First::earlier_of))]
pub fn operand_refusal(place: Place, taken: bool, otherwise: bool) -> Option<Refusal>
    ensures { result ≡ earliest (operand_refusal place taken otherwise) }
{
    if taken {
        None
    } else if otherwise {
        Some(Refusal {
            rule: Rule::Y5,
            place,
        })
    } else {
        Some(Refusal {
            rule: Rule::Y1,
            place,
        })
    }
}

/// The error of a value of type `ty` for a target of type `target`: Y5 if only the dimension is wrong, Q1 if only `local` is missing, else Y2.
#[tactic(auto, unfolding(ti_rules::specs::Mirrors::First::earliest, ti_rules::specs::Mirrors::First::earlier_of))]
pub fn assign_refusal<'p>(place: Place, ty: TyRef<'p>, target: TyRef<'p>) -> Option<Refusal>
    ensures { result ≡ earliest (misfit place (ty_view ty.entry) (ty_view target.entry)) }
{
    if is_assignable(ty, target) {
        None
    } else if is_assignable(ty.erase_dims(), target.erase_dims()) {
        Some(Refusal {
            rule: Rule::Y5,
            place,
        })
    } else if is_assignable(ty.with_local(true), target) {
        Some(Refusal {
            rule: Rule::Q1,
            place,
        })
    } else {
        Some(Refusal {
            rule: Rule::Y2,
            place,
        })
    }
}
