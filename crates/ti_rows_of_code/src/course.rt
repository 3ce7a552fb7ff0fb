// What a history states about one process, and the result of executing the process along it.

ghost use Rattle.std.specs.Prelude.{IfSome};
ghost use Rattle.ti_eval.specs.Forms.{IsFormedAnswer};

use crate::forms::canonical_answer;
use ti_base::{Action, Answer, Entry, Next};

/// The number of processes of a run, and the tick budget of each (`fuel`).
#[derive(Clone, Copy)]
pub(crate) struct Limits {
    pub procs: u32,
    pub fuel: u32,
}

/// The result of executing a process along a history that it agrees with: the number of its events, and what it does next after them,
/// or no next if memory runs out.
#[derive(Clone, Copy)]
pub(crate) struct Course {
    pub entries: usize,
    pub next: Option<Next>,
}

/// The first event with which a process disagrees, by its index in the history, and what the process does next instead, or no next if
/// memory runs out.
#[derive(Clone, Copy)]
pub(crate) struct Stray {
    pub entry: usize,
    pub next: Option<Next>,
}

/// The result that the process of an event receives; none for an end or a fault, or if the result isn't in canonical form.
pub(crate) fn answer_of(entry: &Entry) -> Option<Answer>
    ensures { IfSome result IsFormedAnswer }
{
    match entry.act {
        Action::End | Action::Fault { .. } => None,
        _ => canonical_answer(entry.answer),
    }
}

/// What an event states that its process did next.
pub(crate) fn next_in(entry: &Entry) -> Next {
    let place = entry.place;
    match entry.act {
        Action::End => Next::End(place),
        Action::Fault { kind } => Next::Fault(kind, place),
        action => Next::Act(place, action),
    }
}

/// Whether two processes do the same next, at the same source location.
pub(crate) fn is_same(one: Next, other: Next) -> bool {
    match (one, other) {
        (Next::Act(place, action), Next::Act(at, act)) => place == at && action == act,
        (Next::End(place), Next::End(at)) => place == at,
        (Next::Fault(kind, place), Next::Fault(why, at)) => kind == why && place == at,
        _ => false,
    }
}

/// Whether an event is one that a process with this next can cause. If an operation faults, the event has only its source location; the
/// operation itself is compared after the history.
pub(crate) fn fits(next: Next, entry: &Entry) -> bool {
    match (next, entry.act) {
        (Next::Act(place, _), Action::Fault { .. }) => place == entry.place,
        _ => is_same(next, next_in(entry)),
    }
}
