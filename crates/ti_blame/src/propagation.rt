// The state of the worklist algorithm, and how it rules out reasons.
ghost use Rattle.std.specs.Prelude.{◌≡◌, OnOk, Bool, true, false, ◌⊎◌, Some};
ghost use Rattle.std.specs.List.{list_any};
ghost use Rattle.ti_blame.specs.Keys.{key_of, reason_of};
ghost use Rattle.ti_blame.specs.Implications.{before, meaning};
ghost use Rattle.ti_blame.specs.Mirrors.Propagation.{has, left, IsUpperBound, PropagatesTo, AreDone};

use crate::done::{is_done, now_done};
use crate::implication::Conclusion;
use crate::mark::{Mark, MarkKey, mark_of};
use crate::reason::Reason;
use std::collections::BTreeSet;
use ti_base::{Memory, Place};

/// The state: the annotations still assumed (`standing`), those removed but not yet propagated (`worklist`), the place of the first
/// collective that was ruled out (`blamed`), and for each index of the list of reasons up to which index the range from there has been
/// ruled out (`done`).
#[derive(Drop)]
pub struct Propagation {
    pub assumed: BTreeSet<MarkKey>,
    pub worklist: Vec<Mark>,
    pub blamed: Option<Place>,
    pub done: Vec<usize>,
}

// ---- one reason

// Removes an annotation from those assumed and puts it on the worklist, unless it was removed before.
fn remove_mark(state: &mut Propagation, mark: Mark) -> Result<(), Memory>
    ensures step { OnOk result (PropagatesTo state.old state.new) }
    ensures gone { OnOk result (has state.new mark ≡ false) }
    ensures covered { OnOk result ((held : Reason → Bool) → held (reason_of mark) ≡ false → IsUpperBound held state.old → IsUpperBound held state.new) }
    ensures done { state.new.done ≡ state.old.done }
{
    if state.assumed.remove(&MarkKey::of(mark)) {
        state.worklist.push(mark)?;
    }
    Ok(())
}

// The earlier of the two places; the second one if there is no first.
fn earlier(first: Option<Place>, second: Place) -> Option<Place>
    ensures gone { before result second ≡ false }
    ensures stays { (place : Place) → before result place ≡ true → before first place ≡ true }
    ensures one { (result ≡ first) ⊎ (result ≡ Some second) }
{
    match first {
        Some(place) => {
            if second.is_before(place) {
                Some(second)
            } else {
                first
            }
        }
        None => Some(second),
    }
}

// Rules out a collective: keeps its place if it is the first one so far.
fn rule_out_collective(state: &mut Propagation, place: Place)
    ensures step { PropagatesTo state.old state.new }
    ensures gone { before state.new.blamed place ≡ false }
    ensures covered { (held : Reason → Bool) → held (Reason.OfCollective place) ≡ false → IsUpperBound held state.old → IsUpperBound held state.new }
    ensures done { state.new.done ≡ state.old.done }
{
    state.blamed = earlier(state.blamed, place);
}

// Rules out one reason. Does nothing for `Always`.
fn rule_out_reason(state: &mut Propagation, reason: Reason) -> Result<(), Memory>
    ensures step { OnOk result (PropagatesTo state.old state.new) }
    ensures gone { OnOk result (left state.new reason ≡ false) }
    ensures covered { OnOk result ((held : Reason → Bool) → held reason ≡ false → IsUpperBound held state.old → IsUpperBound held state.new) }
    ensures done { state.new.done ≡ state.old.done }
{
    match reason {
        Reason::OfMethod(_) | Reason::OfResult(_) | Reason::OfVariable(_) => match mark_of(reason) {
            Some(m) => remove_mark(state, m),
            None => Ok(()),
        },
        Reason::OfCollective(at) => {
            rule_out_collective(state, at);
            Ok(())
        }
        Reason::Always => Ok(()),
    }
}

// ---- several reasons

// Rules out each of these reasons.
fn rule_out_reasons(state: &mut Propagation, found: &[Reason]) -> Result<(), Memory>
    ensures step { OnOk result (PropagatesTo state.old state.new) }
    ensures gone { OnOk result (list_any (left state.new) found.now ≡ false) }
    ensures covered { OnOk result ((held : Reason → Bool) → list_any held found.now ≡ false → IsUpperBound held state.old → IsUpperBound held state.new) }
    ensures done { state.new.done ≡ state.old.done }
{
    for b in found {
        rule_out_reason(state, *b)?;
    }
    Ok(())
}

// Rules out the reasons from one index of the list to another (exclusive), unless this range was ruled out before.
fn rule_out_range(
    state: &mut Propagation,
    items: &[Reason],
    from: usize,
    to: usize,
) -> Result<(), Memory>
    requires { AreDone items.now state.old }
    ensures step { OnOk result (PropagatesTo state.old state.new) }
    ensures gone { OnOk result (list_any (left state.new) (meaning items.now (Conclusion.Between from to)) ≡ false) }
    ensures covered { OnOk result ((held : Reason → Bool) → list_any held (meaning items.now (Conclusion.Between from to)) ≡ false
        → IsUpperBound held state.old → IsUpperBound held state.new) }
    ensures done { OnOk result (AreDone items.now state.new) }
{
    if is_done(&state.done, from, to) {
        return Ok(());
    }
    rule_out_reasons(state, part(items, from, to))?;
    now_done(&mut state.done, from, to);
    Ok(())
}

/// The reasons from one index of the list to another (exclusive), as far as the list has them.
pub fn part(items: &[Reason], from: usize, to: usize) -> &[Reason]
    ensures { result.now ≡ meaning items.now (Conclusion.Between from to) }
{
    let end = to.min(items.len());
    if from < end { &items[from..end] } else { &[] }
}

/// Rules out what a constraint concludes: annotations are removed from those assumed and put on the worklist, of collectives the first is
/// kept. Errors only if it runs out of memory.
pub fn rule_out_conclusion(
    state: &mut Propagation,
    items: &[Reason],
    conclusion: Conclusion,
) -> Result<(), Memory>
    requires { AreDone items.now state.old }
    ensures step { OnOk result (PropagatesTo state.old state.new) }
    ensures gone { OnOk result (list_any (left state.new) (meaning items.now conclusion) ≡ false) }
    ensures covered { OnOk result ((held : Reason → Bool) → list_any held (meaning items.now conclusion) ≡ false → IsUpperBound held state.old
        → IsUpperBound held state.new) }
    ensures done { OnOk result (AreDone items.now state.new) }
{
    match conclusion {
        Conclusion::One(b) => rule_out_reason(state, b),
        Conclusion::Between(from, to) => rule_out_range(state, items, from, to),
    }
}
