// The order in which errors are reported: by position, then by rule.

ghost use Rattle.std.specs.Prelude.{◌≡◌, List, ◌++◌, [], Contains, Some, None};
ghost use Rattle.ti_rules.specs.declared.refusal.Refusal.{Refusal as RefusalSeen};
ghost use Rattle.ti_rules.specs.Refusals.{refused_if, IsFirstRefusal};
ghost use Rattle.ti_rules.specs.Mirrors.First.{earlier_of, earliest};

use crate::{Refusal, Rule};
use ti_base::Place;

/// The earlier of two errors; the first argument on a tie.
#[tactic(auto, unfolding(crate::specs::Mirrors::First::earlier_of))]
pub fn earlier_of(first: Option<Refusal>, second: Option<Refusal>) -> Option<Refusal>
    ensures { result ≡ earlier_of first second }
{
    match (first, second) {
        (Some(one), Some(other)) => {
            if other.is_before(one) {
                Some(other)
            } else {
                Some(one)
            }
        }
        (Some(one), None) => Some(one),
        (None, other) => other,
    }
}

/// The error of a rule at a position, if the rule is broken.
#[tactic(auto, unfolding(crate::specs::Mirrors::First::earliest, crate::specs::Mirrors::First::earlier_of))]
pub fn refused_if(broken: bool, rule: Rule, place: Place) -> Option<Refusal>
    ensures { result ≡ earliest (refused_if broken rule place) }
{
    if broken {
        Some(Refusal { rule, place })
    } else {
        None
    }
}

/// The earliest error of a list, as `earliest` computes it, is one that no other precedes; there is none exactly if the list is empty;
/// and that of a concatenation is the earlier of those of its parts.
pub fn first_counts()
    ensures some { (list : List RefusalSeen) (r : RefusalSeen) → earliest list ≡ Some r → IsFirstRefusal (Contains list) r }
    ensures none { (list : List RefusalSeen) → earliest list ≡ None → list ≡ [] }
    ensures joined { (list others : List RefusalSeen) → earliest (list ++ others) ≡ earlier_of (earliest list) (earliest others) }
{}
