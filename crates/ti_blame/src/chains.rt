// Chains: how a collective comes to be ruled out, one constraint after the other.
ghost use Rattle.std.specs.Prelude.{◌≡◌, ◌&&◌, List, IfOk};
ghost use Rattle.ti_blame.specs.Chains.{IsChain, CanHold, GivesChain};

use crate::implication::Implication;
use crate::mark::Mark;
use crate::reason::Reason;
use crate::search::{begin, find_chain};
use std::alloc::Global;
use ti_base::{Memory, Place};

/// A step of a chain: a constraint, and a reason that it rules out.
#[derive(Clone, Copy)]
pub struct ChainStep {
    pub implication: Implication,
    pub ruled_out: Reason,
}

/// A law: a chain to a collective excludes each marking of the names that satisfies all constraints while the collective is considered.
pub fn chains_rule_out()
    ensures { (names : List Mark) (items : List Reason) (edges : List Implication) (at : Place) (steps : List ChainStep)
        → IsChain names items edges at steps → CanHold names items edges at → ⊥ }
{}

/// A chain of constraints that rules out the collective at this place, whichever of these annotations a marking has: a shortest one. None if
/// there isn't any, since then some marking satisfies all constraints with the collective. Errors only if it runs out of memory.
pub fn blame_chain(
    alloc: Global,
    names: &[Mark],
    items: &[Reason],
    implications: &[Implication],
    place: Place,
) -> Result<Option<Vec<ChainStep>>, Memory>
    ensures { IfOk result (GivesChain names.now items.now implications.now place) }
{
    let mut state = begin(alloc, names, place)?;
    find_chain(alloc, &mut state, items, implications)
}
