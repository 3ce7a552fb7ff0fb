// The entry point: solves constraints and returns the solution as a list.
ghost use Rattle.std.specs.Prelude.{◌≡◌, ℕ, [], map, get_or, IfOk, None};
ghost use Rattle.std.specs.List.{list_any};
ghost use Rattle.std.specs.BTreeMap.{is_at};
ghost use Rattle.std.specs.BTreeSet.{contains, IsOrdered};
ghost use Rattle.ti_blame.specs.declared.mark.MarkKey.{MarkKey as TheMarkKey};
ghost use Rattle.ti_blame.specs.Keys.{key_of, mark_at, key_cmp};
ghost use Rattle.ti_blame.specs.Solutions.{IsSolution};
ghost use Rattle.ti_blame.specs.Mirrors.Starts.{has_key, IsStart};

use crate::done::none_done;
use crate::implication::Implication;
use crate::mark::{Mark, MarkKey};
use crate::propagation::Propagation;
use crate::reason::Reason;
use crate::worklist::{add_implications, run};
use std::alloc::Global;
use std::collections::{BTreeMap, BTreeSet};
use ti_base::{Memory, Place};

/// The solution: the remaining annotations, sorted by place and then by kind, and the place of the first collective that is ruled out, if
/// one is.
#[derive(Debug, Drop)]
pub struct Solution {
    pub marks: Vec<Mark>,
    pub blamed: Option<Place>,
}

/// The set of the keys of these annotations.
pub fn key_set(alloc: Global, names: &[Mark]) -> Result<BTreeSet<MarkKey>, Memory>
    ensures { IfOk result (λ s. (n : TheMarkKey) → contains key_cmp s n ≡ has_key names.now n) }
{
    let mut found = BTreeSet::new(alloc);
    for m in names {
        found.insert(MarkKey::of(*m))?;
    }
    Ok(found)
}

// The initial state for `count` reasons: all annotations are assumed, and nothing is ruled out.
fn start(alloc: Global, names: &[Mark], count: usize) -> Result<Propagation, Memory>
    ensures { IfOk result (IsStart names.now) }
{
    Ok(Propagation {
        assumed: key_set(alloc, names)?,
        worklist: Vec::new(alloc),
        blamed: None,
        done: none_done(alloc, count)?,
    })
}

// The remaining annotations, sorted by place and then by kind.
fn marks_left(alloc: Global, assumed: BTreeSet<MarkKey>) -> Result<Vec<Mark>, Memory>
    ensures items { IfOk result (λ v. v.items ≡ map mark_at assumed.keys) }
    ensures ordered { IsOrdered key_cmp assumed }
{
    let mut marks = Vec::with_capacity(alloc, assumed.len())?;
    for name in assumed {
        marks.push(name.mark())?;
    }
    Ok(marks)
}

/// The greatest subset of `names` that satisfies all constraints, and the first collective that these then rule out. Constraints refer to
/// `items` by index. Each annotation is propagated at most once. Errors only if it runs out of memory.
pub fn solve(
    alloc: Global,
    names: &[Mark],
    items: &[Reason],
    implications: &[Implication],
) -> Result<Solution, Memory>
    ensures { IfOk result (λ state. IsSolution names.now items.now implications.now state.marks.items state.blamed) }
{
    let mut state = start(alloc, names, items.len())?;
    let mut waiting = BTreeMap::new(alloc);
    add_implications(alloc, &mut state, items, &mut waiting, implications)?;
    run(&mut state, items, &waiting)?;
    let blamed = state.blamed;
    let marks = marks_left(alloc, state.assumed)?;
    Ok(Solution { marks, blamed })
}
