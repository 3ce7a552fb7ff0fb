// Constraints that are registered with their premise, to be applied once it is removed.
ghost use Rattle.std.specs.Prelude.{◌≡◌, ◌++◌, ◌∷◌, [], cond, OnOk, IfOk, None};
ghost use Rattle.std.specs.BTreeMap.{is_at, get};
ghost use Rattle.ti_blame.specs.Keys.{key_of, key_cmp};
ghost use Rattle.ti_blame.specs.declared.mark.MarkKey.{MarkKey as TheMarkKey};
ghost use Rattle.ti_blame.specs.Mirrors.Propagation.{conclusions};

use crate::implication::Conclusion;
use crate::mark::{Mark, MarkKey};
use std::alloc::Global;
use std::collections::BTreeMap;
use ti_base::Memory;

// Takes out the conclusions that are registered with a premise.
fn take_conclusions(
    alloc: Global,
    waiting: &mut BTreeMap<MarkKey, Vec<Conclusion>>,
    name: MarkKey,
) -> Vec<Conclusion>
    ensures items { result.items ≡ conclusions waiting.old name }
    ensures rest { (q : TheMarkKey) → get key_cmp waiting.new q ≡ cond (is_at (key_cmp name) q) None (get key_cmp waiting.old q) }
{
    match waiting.remove(&name) {
        Some(found) => found,
        None => Vec::new(alloc),
    }
}

/// Registers a conclusion with its premise. Errors only if it runs out of memory.
pub fn register(
    alloc: Global,
    waiting: &mut BTreeMap<MarkKey, Vec<Conclusion>>,
    mark: Mark,
    what: Conclusion,
) -> Result<(), Memory>
    ensures { OnOk result ((q : TheMarkKey) → conclusions waiting.new q ≡ cond (is_at (key_cmp (key_of mark)) q) (conclusions waiting.old q ++ what ∷ [])
        (conclusions waiting.old q)) }
{
    let name = MarkKey::of(mark);
    let mut found = take_conclusions(alloc, waiting, name);
    found.push(what)?;
    waiting.insert(name, found)?;
    Ok(())
}
