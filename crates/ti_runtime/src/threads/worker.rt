// The loop of one worker over its processes.
//
// A worker stays with a process until it has to wait, and then takes the next one, so that it seldom takes the turnstile in vain. At the end of
// its list it waits until the hint changes, which it does when all have arrived at a collective and when the run stops; it looks for a while and
// then sleeps. Only speed depends on that: no contract speaks of the hint, and each sleep ends by itself.
ghost use Rattle.std.specs.Prelude.{◌≡◌, ◌<◌, ◌≤◌, length, All, vec_capacity};
ghost use Rattle.ti_turnstile.specs.Turnstiles.{identity_of};
ghost use Rattle.ti_runtime.specs.Mirrors.Processes.{RunPremises};
ghost use Rattle.ti_runtime.specs.Mirrors.Tasks.{BelongsTo};

use crate::code_of::CodeOf;
use crate::threads::task::{Task, TryOutcome};
use std::alloc::Global;
use std::sync::Wait;
use std::{hint, thread};
use ti_code::Code;
use ti_io::Gate;
use ti_store::{RunConfigOf, Store};
use ti_turnstile::Turnstile;

// How often a worker whose processes all wait looks at the hint before it sleeps between looks.
const LOOKS: u32 = 250;

// After how many of these looks it only pauses. After each later one it lets another thread run.
const PAUSES: u32 = 200;

// How often it sleeps before it tries its processes again.
const SLEEPS: u32 = 64;

// Runs a process until it has to wait, ends or stops.
fn go_on<J: RunConfigOf + CodeOf, R: Wait, G: Gate>(
    rt: &R,
    alloc: Global,
    code: &Code,
    gate: &G,
    turnstile: &Turnstile<Store<J>>,
    mut task: Task<J>,
) -> (Task<J>, TryOutcome)
    requires code { code.now ≡ J.code }
    requires may { RunPremises J.code J.config }
    requires task { BelongsTo (identity_of turnstile.now) task }
    ensures { BelongsTo (identity_of turnstile.now) result.0 }
{
    let mut went = false;
    for _ in rt.forever() {
        let (after, tried) = task.try_turn(rt, alloc, code, gate, turnstile, went);
        task = after;
        if tried != TryOutcome::Progressed {
            return (task, tried);
        }
        went = true;
    }
    unreachable!()
}

// Runs the process at an index of the list until it has to wait, ends or stops. It is at the same index again.
fn turn<J: RunConfigOf + CodeOf, R: Wait, G: Gate>(
    rt: &R,
    alloc: Global,
    code: &Code,
    gate: &G,
    turnstile: &Turnstile<Store<J>>,
    tasks: &mut Vec<Task<J>>,
    index: usize,
) -> TryOutcome
    requires code { code.now ≡ J.code }
    requires may { RunPremises J.code J.config }
    requires at { index < length tasks.old.items }
    requires tasks { All (BelongsTo (identity_of turnstile.now)) tasks.old.items }
    ensures tasks { All (BelongsTo (identity_of turnstile.now)) tasks.new.items }
    ensures count { length tasks.new.items ≡ length tasks.old.items }
    ensures room { vec_capacity tasks.old ≤ vec_capacity tasks.new }
{
    let task = tasks.remove(index);
    let (task, tried) = go_on(rt, alloc, code, gate, turnstile, task);
    match tasks.insert(index, task) {
        Ok(()) => tried,
        Err(_) => unreachable!(),
    }
}

// Waits for the hint to change, for a while: it looks again and again, and then sleeps between looks.
fn wait_for_news<J: RunConfigOf + CodeOf, R: Wait>(
    rt: &R,
    turnstile: &Turnstile<Store<J>>,
    seen: u64,
) {
    for look in 0..LOOKS + SLEEPS {
        if turnstile.hint() != seen {
            return;
        }
        if look < PAUSES {
            hint::spin_loop();
        } else if look < LOOKS {
            thread::yield_now();
        } else {
            turnstile.park_briefly(rt, seen);
        }
    }
}

/// Runs the processes until each has ended, or the run stops.
pub fn run_worker<J: RunConfigOf + CodeOf, R: Wait, G: Gate>(
    rt: &R,
    alloc: Global,
    code: &Code,
    gate: &G,
    turnstile: &Turnstile<Store<J>>,
    mut tasks: Vec<Task<J>>,
) -> Vec<Task<J>>
    requires code { code.now ≡ J.code }
    requires may { RunPremises J.code J.config }
    requires tasks { All (BelongsTo (identity_of turnstile.now)) tasks.items }
    ensures tasks { All (BelongsTo (identity_of turnstile.now)) result.items }
    ensures count { length result.items ≡ length tasks.items }
    ensures room { vec_capacity tasks ≤ vec_capacity result }
{
    let mut index = 0;
    let mut ended = 0;
    let mut seen = turnstile.hint();
    for _ in rt.forever() {
        if index >= tasks.len() {
            if ended >= tasks.len() {
                break;
            }
            wait_for_news(rt, turnstile, seen);
            seen = turnstile.hint();
            index = 0;
            ended = 0;
        }
        let tried = turn(rt, alloc, code, gate, turnstile, &mut tasks, index);
        match tried {
            TryOutcome::Progressed => {}
            TryOutcome::Finished => {
                index += 1;
                ended += 1;
            }
            TryOutcome::Blocked => index += 1,
            TryOutcome::Halted => break,
        }
    }
    tasks
}
