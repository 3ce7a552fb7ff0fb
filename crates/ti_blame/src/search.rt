// The search for a chain: backward from a collective, through the premises of constraints, until a premise can't hold.
ghost use Rattle.std.specs.Prelude.{◌≡◌, ℕ, ◌<◌, ◌++◌, [], ◌∷◌, List, length, get_or, find, false, true, not, ◌&&◌, Contains, IfOk, OnOk};
ghost use Rattle.std.specs.List.{list_any};
ghost use Rattle.std.specs.BTreeSet.{contains};
ghost use Rattle.ti_base.specs.Places.{same_place};
ghost use Rattle.ti_blame.specs.Keys.{key_cmp, key_of, reason_of};
ghost use Rattle.ti_blame.specs.Implications.{meaning};
ghost use Rattle.ti_blame.specs.Chains.{IsPremise, IsStep};
ghost use Rattle.ti_blame.specs.Mirrors.Search.{reason_number, reason_place, same_reason, rules_out, never_among, can_start, is_open, AreLinks, IsJoined, IsSoundSearch, Extends, WalksFrom, Turns, Finds, IsFirstSearch};

use crate::chains::ChainStep;
use crate::implication::{Conclusion, Implication};
use crate::mark::{Mark, MarkKey, reason_of};
use crate::propagation::part;
use crate::reason::Reason;
use crate::solution::key_set;
use std::alloc::Global;
use std::collections::BTreeSet;
use ti_base::{Memory, Place};

/// A reason from which the collective is ruled out, once it is ruled out itself: it is the premise of `step`, which rules out the reason of
/// link number `next`. Link number 0 is the collective, and its step means nothing.
#[derive(Clone, Copy)]
pub struct Link {
    pub reason: Reason,
    pub step: ChainStep,
    pub next: usize,
}

/// The state: the annotations that a marking could have (`named`), those of them that haven't been reached (`unseen`), and a link for each
/// that has been.
#[derive(Drop)]
pub struct Search {
    pub named: BTreeSet<MarkKey>,
    pub unseen: BTreeSet<MarkKey>,
    pub links: Vec<Link>,
}

// ---- reasons

fn same_place(left: Place, right: Place) -> bool
    ensures { result ≡ same_place left right }
{
    left.line == right.line && left.col == right.col
}

// A number for each kind of reason.
fn reason_number(reason: Reason) -> u8
    ensures { result ≡ reason_number reason }
{
    match reason {
        Reason::OfMethod(_) => 0,
        Reason::OfResult(_) => 1,
        Reason::OfVariable(_) => 2,
        Reason::OfCollective(_) => 3,
        Reason::Always => 4,
    }
}

// The place of a reason; line and column 0 for one without a place.
fn reason_place(reason: Reason) -> Place
    ensures { result ≡ reason_place reason }
{
    match reason {
        Reason::OfMethod(at) => at,
        Reason::OfResult(at) => at,
        Reason::OfVariable(at) => at,
        Reason::OfCollective(at) => at,
        Reason::Always => Place { line: 0, col: 0 },
    }
}

fn same_reason(left: Reason, right: Reason) -> bool
    ensures { result ≡ same_reason left right }
{
    reason_number(left) == reason_number(right)
        && same_place(reason_place(left), reason_place(right))
}

fn has_reason(found: &[Reason], reason: Reason) -> bool
    ensures { result ≡ list_any (same_reason reason) found.now }
{
    for b in found {
        if same_reason(reason, *b) {
            return true;
        }
    }
    false
}

// ---- constraints

// Whether a conclusion has the reason among what it rules out.
fn rules_out(items: &[Reason], conclusion: Conclusion, reason: Reason) -> bool
    ensures { result ≡ list_any (same_reason reason) (meaning items.now conclusion) }
{
    match conclusion {
        Conclusion::One(b) => same_reason(reason, b),
        Conclusion::Between(from, to) => has_reason(part(items, from, to), reason),
    }
}

// Whether no marking has this premise.
fn never_among(named: &BTreeSet<MarkKey>, from: Option<Mark>) -> bool
    ensures { result ≡ never_among (contains key_cmp named.now) from }
{
    match from {
        Some(m) => !named.contains(&MarkKey::of(m)),
        None => true,
    }
}

// The first constraint that rules out a reason under every marking.
fn first_start(
    named: &BTreeSet<MarkKey>,
    items: &[Reason],
    implications: &[Implication],
    reason: Reason,
) -> Option<Implication>
    ensures { result ≡ find (can_start (contains key_cmp named.now) items.now reason) implications.now }
{
    for e in implications {
        if never_among(named, e.from) && rules_out(items, e.then, reason) {
            return Some(*e);
        }
    }
    None
}

// ---- links

// Adds a link for an annotation that is the premise of a step, unless it has one.
fn reach(state: &mut Search, mark: Mark, step: ChainStep, next: usize) -> Result<(), Memory>
    ensures extends { OnOk result (Extends state.old state.new) }
    ensures sound { OnOk result (IsSoundSearch state.old → IsSoundSearch state.new) }
    ensures links { OnOk result ((items : List Reason) (edges : List Implication) → IsPremise (reason_of mark) step.implication.from
        → IsStep items edges step → IsJoined state.old.links.items next step.ruled_out → AreLinks items edges state.old.links.items
        → AreLinks items edges state.new.links.items) }
    ensures gone { OnOk result (contains key_cmp state.new.unseen (key_of mark) ≡ false) }
{
    if state.unseen.remove(&MarkKey::of(mark)) {
        state.links.push(Link {
            reason: reason_of(mark),
            step,
            next,
        })?;
    }
    Ok(())
}

// Adds a link for the premise of a constraint, if it rules out the reason of link number `k`.
fn add_premise(
    state: &mut Search,
    items: &[Reason],
    implication: Implication,
    reason: Reason,
    k: usize,
) -> Result<(), Memory>
    requires { IsJoined state.old.links.items k reason }
    ensures extends { OnOk result (Extends state.old state.new) }
    ensures sound { OnOk result (IsSoundSearch state.old → IsSoundSearch state.new) }
    ensures links { OnOk result ((edges : List Implication) → Contains edges implication → AreLinks items.now edges state.old.links.items
        → AreLinks items.now edges state.new.links.items) }
    ensures closed { OnOk result (can_start (contains key_cmp state.old.named) items.now reason implication ≡ false
        → is_open (contains key_cmp state.new.named) (contains key_cmp state.new.unseen) items.now reason implication ≡ false) }
{
    if !rules_out(items, implication.then, reason) {
        return Ok(());
    }
    match implication.from {
        Some(m) => reach(
            state,
            m,
            ChainStep {
                implication,
                ruled_out: reason,
            },
            k,
        ),
        None => Ok(()),
    }
}

// Adds a link for the premise of each constraint that rules out the reason of link number `k`.
fn add_premises(
    state: &mut Search,
    items: &[Reason],
    implications: &[Implication],
    reason: Reason,
    k: usize,
) -> Result<(), Memory>
    requires joined { IsJoined state.old.links.items k reason }
    requires sound { IsSoundSearch state.old }
    requires links { AreLinks items.now implications.now state.old.links.items }
    ensures extends { OnOk result (Extends state.old state.new) }
    ensures sound { OnOk result (IsSoundSearch state.new) }
    ensures links { OnOk result (AreLinks items.now implications.now state.new.links.items) }
    ensures closed { OnOk result (list_any (can_start (contains key_cmp state.old.named) items.now reason) implications.now ≡ false
        → list_any (is_open (contains key_cmp state.new.named) (contains key_cmp state.new.unseen) items.now reason) implications.now ≡ false) }
{
    for e in implications {
        add_premise(state, items, *e, reason, k)?;
    }
    Ok(())
}

fn one_step(alloc: Global, step: ChainStep) -> Result<Vec<ChainStep>, Memory>
    ensures { IfOk result (λ steps. steps.items ≡ step ∷ []) }
{
    let mut steps = Vec::new(alloc);
    steps.push(step)?;
    Ok(steps)
}

// The step and those after it, by the links from number `first` on.
fn walk(
    alloc: Global,
    links: &[Link],
    first: usize,
    start: ChainStep,
) -> Result<Vec<ChainStep>, Memory>
    requires within { first < length links.now }
    requires earlier { (k : ℕ) (d : Link) → 0 < k → k < length links.now → (get_or links.now k d).next < k }
    ensures { IfOk result (λ steps. WalksFrom links.now start first steps.items) }
{
    let mut steps = one_step(alloc, start)?;
    let mut k = first;
    'walk: while k > 0 {
        let link = links[k];
        steps.push(link.step)?;
        k = link.next;
    }
    Ok(steps)
}

// ---- the search

// Looks at link number `k`: a chain if one can begin there; otherwise the links of what its reason depends on are added.
fn turn(
    alloc: Global,
    state: &mut Search,
    items: &[Reason],
    implications: &[Implication],
    k: usize,
) -> Result<Option<Vec<ChainStep>>, Memory>
    requires within { k < length state.old.links.items }
    requires sound { IsSoundSearch state.old }
    requires links { AreLinks items.now implications.now state.old.links.items }
    ensures { IfOk result (Turns items.now implications.now k state.old state.new) }
{
    let reason = state.links[k].reason;
    match first_start(&state.named, items, implications, reason) {
        Some(implication) => {
            let start = ChainStep {
                implication,
                ruled_out: reason,
            };
            let steps = walk(alloc, &state.links, k, start)?;
            Ok(Some(steps))
        }
        None => {
            add_premises(state, items, implications, reason, k)?;
            Ok(None)
        }
    }
}

/// Looks at one link after the other, until a chain is found. None if all have been looked at. Errors only if it runs out of memory.
/// Terminates, since each annotation is reached once.
pub fn find_chain(
    alloc: Global,
    state: &mut Search,
    items: &[Reason],
    implications: &[Implication],
) -> Result<Option<Vec<ChainStep>>, Memory>
    requires begun { 0 < length state.old.links.items }
    requires sound { IsSoundSearch state.old }
    requires links { AreLinks items.now implications.now state.old.links.items }
    ensures { IfOk result (Finds items.now implications.now state.old state.new) }
{
    let mut k = 0;
    'links: while k < state.links.len() {
        match turn(alloc, state, items, implications, k)? {
            Some(steps) => return Ok(Some(steps)),
            None => k += 1,
        }
    }
    Ok(None)
}

// The link of the collective.
fn first_link(place: Place) -> Link
    ensures { result.reason ≡ Reason.OfCollective place }
{
    let reason = Reason::OfCollective(place);
    Link {
        reason,
        step: ChainStep {
            implication: Implication {
                from: None,
                then: Conclusion::One(reason),
            },
            ruled_out: reason,
        },
        next: 0,
    }
}

/// The initial state: only the collective has been reached. Errors only if it runs out of memory.
pub fn begin(alloc: Global, names: &[Mark], place: Place) -> Result<Search, Memory>
    ensures { IfOk result (IsFirstSearch names.now place) }
{
    let mut links = Vec::new(alloc);
    links.push(first_link(place))?;
    Ok(Search {
        named: key_set(alloc, names)?,
        unseen: key_set(alloc, names)?,
        links,
    })
}
