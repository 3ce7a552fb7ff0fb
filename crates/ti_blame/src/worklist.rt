// The worklist algorithm: propagates removed annotations until none is left to propagate.
ghost use Rattle.std.specs.Prelude.{◌≡◌, OnOk, Bool, true, false, ◌⊎◌, Some, None, IfSome};
ghost use Rattle.std.specs.List.{list_any};
ghost use Rattle.std.specs.BTreeSet.{contains};
ghost use Rattle.ti_blame.specs.declared.reason.Reason.{Reason as TheReason};
ghost use Rattle.ti_blame.specs.declared.implication.Conclusion.{Conclusion as TheConclusion};
ghost use Rattle.ti_blame.specs.declared.implication.Implication.{Implication as TheImplication};
ghost use Rattle.ti_blame.specs.declared.mark.MarkKey.{MarkKey as TheMarkKey};
ghost use Rattle.ti_blame.specs.Keys.{key_of, key_cmp};
ghost use Rattle.ti_blame.specs.Implications.{is_triggered, is_violated, Satisfies};
ghost use Rattle.ti_blame.specs.Mirrors.Propagation.{has, left, IsUpperBound, Apart, PropagatesTo, AreDone, conclusions, any_left, IsAdded, IsTracked, IsFair};

use crate::implication::{Conclusion, Implication};
use crate::mark::{Mark, MarkKey};
use crate::propagation::{Propagation, rule_out_conclusion};
use crate::reason::Reason;
use crate::waiting::register;
use std::alloc::Global;
use std::collections::BTreeMap;
use ti_base::Memory;

// ---- constraints of one premise

// Rules out each of these conclusions.
fn rule_out_conclusions(
    state: &mut Propagation,
    items: &[Reason],
    found: &[Conclusion],
) -> Result<(), Memory>
    requires { AreDone items.now state.old }
    ensures step { OnOk result (PropagatesTo state.old state.new) }
    ensures gone { OnOk result (any_left (left state.new) items.now found.now ≡ false) }
    ensures covered { OnOk result ((held : TheReason → Bool) → any_left held items.now found.now ≡ false → IsUpperBound held state.old
        → IsUpperBound held state.new) }
    ensures done { OnOk result (AreDone items.now state.new) }
{
    for what in found {
        rule_out_conclusion(state, items, *what)?;
    }
    Ok(())
}

// Applies the constraints that are registered with an annotation.
fn propagate(
    state: &mut Propagation,
    items: &[Reason],
    waiting: &BTreeMap<MarkKey, Vec<Conclusion>>,
    mark: Mark,
) -> Result<(), Memory>
    requires { AreDone items.now state.old }
    ensures step { OnOk result (PropagatesTo state.old state.new) }
    ensures gone { OnOk result (any_left (left state.new) items.now (conclusions waiting.now (key_of mark)) ≡ false) }
    ensures covered { OnOk result ((held : TheReason → Bool) → any_left held items.now (conclusions waiting.now (key_of mark)) ≡ false
        → IsUpperBound held state.old → IsUpperBound held state.new) }
    ensures done { OnOk result (AreDone items.now state.new) }
{
    let name = MarkKey::of(mark);
    match waiting.get(&name) {
        Some(found) => rule_out_conclusions(state, items, found),
        None => Ok(()),
    }
}

// ---- one constraint

// The premise of a constraint, if it is still assumed; otherwise the constraint applies now.
fn assumed_premise(state: &Propagation, from: Option<Mark>) -> Option<Mark>
    ensures some { IfSome result (λ m. (from ≡ Some m) × (has state.now m ≡ true)) }
    ensures none { result ≡ None → (held : TheReason → Bool) → IsUpperBound held state.now → is_triggered held from ≡ true }
{
    let m = from?;
    if state.assumed.contains(&MarkKey::of(m)) {
        Some(m)
    } else {
        None
    }
}

/// Applies a constraint if its premise isn't assumed; otherwise registers it with its premise. Errors only if it runs out of memory.
pub fn add_implication(
    alloc: Global,
    state: &mut Propagation,
    items: &[Reason],
    waiting: &mut BTreeMap<MarkKey, Vec<Conclusion>>,
    implication: Implication,
) -> Result<(), Memory>
    requires { AreDone items.now state.old }
    ensures step { OnOk result (PropagatesTo state.old state.new) }
    ensures kept { OnOk result (IsAdded items.now state.new waiting.new implication) }
    ensures wider { OnOk result ((n : TheMarkKey) (test : TheConclusion → Bool) → list_any test (conclusions waiting.old n) ≡ true
        → list_any test (conclusions waiting.new n) ≡ true) }
    ensures opened { OnOk result ((n : TheMarkKey) → IsTracked items.now state.old waiting.old n → IsTracked items.now state.new waiting.new n) }
    ensures fair { OnOk result ((held : TheReason → Bool) → is_violated held items.now implication ≡ false → IsFair items.now held waiting.old
        → IsFair items.now held waiting.new) }
    ensures covered { OnOk result ((held : TheReason → Bool) → is_violated held items.now implication ≡ false → IsUpperBound held state.old → IsUpperBound held state.new) }
    ensures done { OnOk result (AreDone items.now state.new) }
{
    match assumed_premise(state, implication.from) {
        Some(m) => register(alloc, waiting, m, implication.then),
        None => rule_out_conclusion(state, items, implication.then),
    }
}

/// Applies or registers each of these constraints. Errors only if it runs out of memory.
pub fn add_implications(
    alloc: Global,
    state: &mut Propagation,
    items: &[Reason],
    waiting: &mut BTreeMap<MarkKey, Vec<Conclusion>>,
    implications: &[Implication],
) -> Result<(), Memory>
    requires opened { (n : TheMarkKey) → IsTracked items.now state.old waiting.old n }
    requires done { AreDone items.now state.old }
    ensures step { OnOk result (PropagatesTo state.old state.new) }
    ensures kept { OnOk result ((test : TheImplication → Bool) → ((e : TheImplication) → IsAdded items.now state.new waiting.new e → test e ≡ false)
        → list_any test implications.now ≡ false) }
    ensures opened { OnOk result ((n : TheMarkKey) → IsTracked items.now state.new waiting.new n) }
    ensures fair { OnOk result ((held : TheReason → Bool) → Satisfies held items.now implications.now → IsFair items.now held waiting.old
        → IsFair items.now held waiting.new) }
    ensures covered { OnOk result ((held : TheReason → Bool) → Satisfies held items.now implications.now → IsUpperBound held state.old → IsUpperBound held state.new) }
    ensures done { OnOk result (AreDone items.now state.new) }
{
    for e in implications {
        add_implication(alloc, state, items, waiting, *e)?;
    }
    Ok(())
}

/// Applies the constraints registered with each annotation on the worklist, until it is empty. Errors only if it runs out of memory.
/// Terminates, since an annotation is put on the worklist only when it is removed from those assumed.
pub fn run(
    state: &mut Propagation,
    items: &[Reason],
    waiting: &BTreeMap<MarkKey, Vec<Conclusion>>,
) -> Result<(), Memory>
    requires opened { (n : TheMarkKey) → IsTracked items.now state.old waiting.now n }
    requires apart { Apart state.old }
    requires done { AreDone items.now state.old }
    ensures followed { OnOk result ((n : TheMarkKey) → (contains key_cmp state.new.assumed n ≡ true)
        ⊎ (any_left (left state.new) items.now (conclusions waiting.now n) ≡ false)) }
    ensures stays { OnOk result ((b : TheReason) → left state.new b ≡ true → left state.old b ≡ true) }
    ensures fewer { OnOk result ((n : TheMarkKey) → contains key_cmp state.new.assumed n ≡ true → contains key_cmp state.old.assumed n ≡ true) }
    ensures covered { OnOk result ((held : TheReason → Bool) → IsFair items.now held waiting.now → IsUpperBound held state.old → IsUpperBound held state.new) }
{
    'worklist: while let Some(m) = state.worklist.pop() {
        propagate(state, items, waiting, m)?;
    }
    Ok(())
}
