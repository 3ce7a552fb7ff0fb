// A process that runs on a worker, with its pass of the turnstile.
//
// The pass is how a process knows, without looking, what the history holds of its own entries: on entry the log begins with what the pass has
// seen, and has nothing more of its number. So the process's next action is the one that the program has next, and the store accepts it.
ghost use Rattle.std.specs.Prelude.{◌≡◌, ◌<◌, [], IfOk, IfErr};
ghost use Rattle.ti_lang.specs.Meaning.Histories.{entries_of};
ghost use Rattle.ti_lang.specs.Meaning.Runs.{IsRun};
ghost use Rattle.ti_eval.specs.Forms.{IsFormedAnswer};
ghost use Rattle.ti_store.specs.Conditions.{HasNextAfter};
ghost use Rattle.ti_store.specs.Stores.{config_of, log_of, next_of, IsDone, IsRefused};
ghost use Rattle.ti_turnstile.specs.Passes.{GrownBy};
ghost use Rattle.ti_turnstile.specs.Turnstiles.{identity_of, turnstile_of, number_of, seen_by, turnstile_around, number_inside, found_inside, value_inside};
ghost use Rattle.ti_pending.specs.UpToDate.{IsUpToDate};
ghost use Rattle.ti_pending.specs.Acting.{next_place, next_action};
ghost use Rattle.ti_runtime.specs.Mirrors.Processes.{RunPremises};
ghost use Rattle.ti_runtime.specs.Mirrors.Tasks.{entries_in};

use crate::code_of::CodeOf;
use std::alloc::Global;
use std::marker::Model;
use std::sync::Wait;
use ti_base::{Action, Answer, Entry, Memory, Next};
use ti_code::Code;
use ti_io::Gate;
use ti_machine::next_is_unique;
use ti_pending::{PendingProc, as_action};
use ti_store::{ActErr, RunConfigOf, Store};
use ti_turnstile::{Inside, Kept, Pass, Turnstile};

/// The outcome of one attempt to let a process perform its next action.
#[derive(Clone, Copy, PartialEq, Eq)]
pub enum TryOutcome {
    /// It performed its next action, or reached its end.
    Progressed,
    /// It had reached its end before.
    Finished,
    /// It waits at a collective for other processes.
    Blocked,
    /// The run has stopped, by a fault or out of memory.
    Halted,
}

/// A process with its pass, up to date with the answers to all entries that the pass has seen. What it computes before its first action is
/// computed by the worker that tries it first.
///
/// Contracts see which turnstile its pass belongs to, and its number.
#[derive(Drop)]
pub struct Task<J: RunConfigOf + CodeOf>
where
    Store<J>: Kept<Item = Entry>,
{
    number: u32,
    pending: PendingProc,
    pass: Pass<Store<J>>,
}

impl<J: RunConfigOf + CodeOf> Model for Task<J>
where
    Store<J>: Kept<Item = Entry>,
{
    ghost use Rattle.ti_runtime.specs.Mirrors.Tasks.{TaskView, task_code};

    ghost Value = { TaskView };

    ghost coded = { task_code };

    ghost use Rattle.std.specs.Prelude.{◌≡◌, ◌<◌};
    ghost use Rattle.ti_turnstile.specs.Turnstiles.{turnstile_of, number_of, seen_by};
    ghost use Rattle.ti_pending.specs.UpToDate.{IsUpToDate};
    ghost use Rattle.ti_runtime.specs.Mirrors.Tasks.{entries_in};

    ghost view = { λ m. record { turnstile = turnstile_of m.pass; number = m.number } };

    ghost invariant = { λ m. (m.number < J.config.procs) × (number_of m.pass ≡ m.number) × IsUpToDate J.code J.config (entries_in (seen_by m.pass)) m.number m.pending };
}

// Performs the next action of a process in the store.
fn act<J: RunConfigOf + CodeOf>(
    alloc: Global,
    next: Next,
    number: u32,
    store: &mut Store<J>,
) -> Result<Answer, ActErr>
    requires number { number < J.config.procs }
    requires next { HasNextAfter J.config number (entries_of number store.old.entries) (next_of (next_place next) (next_action next)) }
    ensures terms { config_of store.old ≡ J.config }
    ensures run { IsRun (config_of store.old) store.old.entries }
    ensures done { IfOk result (λ answer. IsDone store.old number (next_place next) (next_action next) answer store.new) }
    ensures refused { IfErr result (λ why. IsRefused store.old number (next_place next) (next_action next) why store.new) }
    ensures form { IfOk result IsFormedAnswer }
    ensures grown { GrownBy number (log_of store.old.entries) (log_of store.new.entries) }
{
    store.has_its_config();
    let _run = store.history();
    let (place, action) = as_action(next);
    store.act(alloc, number, place, action)
}

// How a worker leaves the turnstile. Only speed depends on it.
#[derive(Clone, Copy)]
enum LeaveMode {
    // Waking nobody: this worker is likely to go in again at once.
    NoWake,
    // Letting in one of those who wait to go in: this process may have to wait for them.
    WakeOne,
    // And waking those who wait for other processes, or for the end of the run.
    WakeAll,
}

// How to leave after this action of a process. `continues` says that the process performed its last action on the same visit of its worker.
//
// Who arrives last departs at once, so a departure on the same visit tells the others that all have arrived. One that had to wait was told.
fn leave_mode_after(next: Next, continues: bool) -> LeaveMode {
    match next {
        Next::Act(_, Action::Depart) if continues => LeaveMode::WakeAll,
        Next::Act(_, Action::Depart) => LeaveMode::WakeOne,
        _ => LeaveMode::NoWake,
    }
}

// How to leave after an action that the store didn't perform.
fn leave_mode_refused(why: ActErr) -> LeaveMode {
    match why {
        ActErr::Faulted(_) => LeaveMode::WakeAll,
        ActErr::NotYet => LeaveMode::WakeOne,
        ActErr::Halted | ActErr::Memory => LeaveMode::NoWake,
    }
}

// Leaves the turnstile.
fn leave<J: RunConfigOf + CodeOf>(
    turnstile: &Turnstile<Store<J>>,
    inside: Inside<Store<J>>,
    leaving: LeaveMode,
) -> Pass<Store<J>>
    requires turnstile { turnstile_around inside ≡ identity_of turnstile.now }
    requires grown { GrownBy (number_inside inside) (found_inside inside) (log_of (value_inside inside).entries) }
    ensures turnstile { turnstile_of result ≡ turnstile_around inside }
    ensures number { number_of result ≡ number_inside inside }
    ensures seen { seen_by result ≡ log_of (value_inside inside).entries }
{
    match leaving {
        LeaveMode::NoWake => turnstile.leave(inside),
        LeaveMode::WakeOne => turnstile.leave_and_wake_one(inside),
        LeaveMode::WakeAll => turnstile.leave_and_wake_all(inside),
    }
}

impl<J: RunConfigOf + CodeOf> Task<J> {
    /// A process that has performed nothing yet, with a pass that has seen nothing.
    pub fn new(number: u32, pending: PendingProc, pass: Pass<Store<J>>) -> Task<J>
        requires number { number < J.config.procs }
        requires same { number_of pass ≡ number }
        requires seen { seen_by pass ≡ [] }
        requires seated { IsUpToDate J.code J.config [] number pending }
        ensures { result ≡ record { turnstile = turnstile_of pass; number = number } }
    {
        Task {
            number,
            pending,
            pass,
        }
    }

    /// Its number, its state, and its pass.
    pub fn into_parts(self) -> (u32, PendingProc, Pass<Store<J>>)
        ensures number { (result.0 ≡ self.number) × (result.0 < J.config.procs) × (number_of result.2 ≡ result.0) }
        ensures turnstile { turnstile_of result.2 ≡ self.turnstile }
        ensures seated { IsUpToDate J.code J.config (entries_in (seen_by result.2)) result.0 result.1 }
    {
        let Task {
            number,
            pending,
            pass,
        } = self;
        (number, pending, pass)
    }

    // Halts the store, so that no process performs anything more, and wakes the threads that sleep.
    fn halt<R: Wait>(self, rt: &R, turnstile: &Turnstile<Store<J>>) -> Task<J>
        requires turnstile { self.turnstile ≡ identity_of turnstile.now }
        ensures { result.turnstile ≡ identity_of turnstile.now }
    {
        let Task {
            number,
            pending,
            pass,
        } = self;
        let mut inside = turnstile.enter(rt, pass);
        inside.value().halt_for_memory();
        let pass = turnstile.leave_and_wake_all(inside);
        Task {
            number,
            pending,
            pass,
        }
    }

    /// Runs the process to its next action, passes the gate, and performs that action unless it has to wait. `continues` says that this worker
    /// let it perform its last action just before; only speed depends on it.
    pub fn try_turn<R: Wait, G: Gate>(
        self,
        rt: &R,
        alloc: Global,
        code: &Code,
        gate: &G,
        turnstile: &Turnstile<Store<J>>,
        continues: bool,
    ) -> (Task<J>, TryOutcome)
        requires code { code.now ≡ J.code }
        requires may { RunPremises J.code J.config }
        requires turnstile { self.turnstile ≡ identity_of turnstile.now }
        ensures { result.0.turnstile ≡ identity_of turnstile.now }
    {
        if self.pending.ended {
            return (self, TryOutcome::Finished);
        }
        next_is_unique();
        let Task {
            number,
            mut pending,
            pass,
        } = self;
        let Ok(next) = pending.advance(alloc, code) else {
            let task = Task {
                number,
                pending,
                pass,
            };
            return (task.halt(rt, turnstile), TryOutcome::Halted);
        };
        gate.pass(number);
        let mut inside = turnstile.enter(rt, pass);
        let acted = act(alloc, next, number, inside.value());
        match acted {
            Ok(answer) => {
                let pass = leave(turnstile, inside, leave_mode_after(next, continues));
                pending.resume_with(next, answer);
                (
                    Task {
                        number,
                        pending,
                        pass,
                    },
                    TryOutcome::Progressed,
                )
            }
            Err(why) => {
                let pass = leave(turnstile, inside, leave_mode_refused(why));
                Task {
                    number,
                    pending,
                    pass,
                }
                .handle_refusal(rt, turnstile, why)
            }
        }
    }

    // The outcome of an action that the store didn't perform.
    fn handle_refusal<R: Wait>(
        self,
        rt: &R,
        turnstile: &Turnstile<Store<J>>,
        why: ActErr,
    ) -> (Task<J>, TryOutcome)
        requires turnstile { self.turnstile ≡ identity_of turnstile.now }
        ensures { result.0.turnstile ≡ identity_of turnstile.now }
    {
        match why {
            ActErr::NotYet => (self, TryOutcome::Blocked),
            ActErr::Faulted(_) | ActErr::Halted => (self, TryOutcome::Halted),
            ActErr::Memory => (self.halt(rt, turnstile), TryOutcome::Halted),
        }
    }
}
