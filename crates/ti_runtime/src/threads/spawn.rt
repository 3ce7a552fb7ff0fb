// Starting workers on threads, and joining them.
//
// A worker promises to hand back its processes with passes of the same turnstile. If a thread can't be started, its closure comes back and is
// called on the caller's thread with the worker's flag set: it hands its processes back at once, and the caller runs them.
ghost use Rattle.std.specs.Prelude.{◌≡◌, ◌<◌, ◌≤◌, ◌+◌, length, All, sum_by, IfOk, IfErr, vec_len, vec_capacity};
ghost use Rattle.ti_turnstile.specs.Turnstiles.{identity_of};
ghost use Rattle.ti_runtime.specs.Mirrors.Processes.{RunPremises};
ghost use Rattle.ti_runtime.specs.Mirrors.Tasks.{BelongsTo};

use crate::code_of::CodeOf;
use crate::threads::task::Task;
use crate::threads::worker::run_worker;
use std::alloc::Global;
use std::sync::Wait;
use std::sync::atomic::{AtomicBool, Ordering};
use std::thread::{Promise, PromisedHandle, Scope, Threads};
use ti_base::Entry;
use ti_code::Code;
use ti_io::Gate;
use ti_store::{RunConfigOf, Store};
use ti_turnstile::{Kept, Turnstile};

/// What a worker promises: it hands back all its processes, each with its pass of the turnstile.
#[derive(Clone, Copy)]
pub struct WorkerPromise<'a, J: RunConfigOf + CodeOf>
where
    Store<J>: Kept<Item = Entry>,
{
    turnstile: &'a Turnstile<Store<J>>,
    count: usize,
}

impl<'a, J: RunConfigOf + CodeOf> Promise<Vec<Task<J>>> for WorkerPromise<'a, J> {
    ghost use Rattle.std.specs.Prelude.{◌≡◌, length, All};
    ghost use Rattle.ti_turnstile.specs.Turnstiles.{identity_of};
    ghost use Rattle.ti_runtime.specs.Mirrors.Tasks.{BelongsTo};

    ghost kept_by = { λ p r. All (BelongsTo (identity_of p.turnstile.now)) r.items × (length r.items ≡ p.count) };
}

// Runs the processes, unless the flag is set.
fn run_worker_unless<J: RunConfigOf + CodeOf, R: Wait, G: Gate>(
    rt: &R,
    alloc: Global,
    code: &Code,
    gate: &G,
    turnstile: &Turnstile<Store<J>>,
    flag: &AtomicBool,
    tasks: Vec<Task<J>>,
) -> Vec<Task<J>>
    requires code { code.now ≡ J.code }
    requires may { RunPremises J.code J.config }
    requires tasks { All (BelongsTo (identity_of turnstile.now)) tasks.items }
    ensures tasks { All (BelongsTo (identity_of turnstile.now)) result.items }
    ensures count { length result.items ≡ length tasks.items }
{
    if flag.load(Ordering::SeqCst) {
        return tasks;
    }
    run_worker(rt, alloc, code, gate, turnstile, tasks)
}

// Starts a worker on a thread. If none can be started, its processes come back.
fn start<'s, E, J: RunConfigOf + CodeOf + Send + Sync, R: Threads + Wait + Sync, G: Gate + Sync>(
    scope: &'s Scope<'s, E>,
    rt: &'s R,
    alloc: Global,
    code: &'s Code,
    gate: &'s G,
    turnstile: &'s Turnstile<Store<J>>,
    flag: &'s AtomicBool,
    group: Vec<Task<J>>,
) -> Result<PromisedHandle<Vec<Task<J>>, WorkerPromise<'s, J>>, Vec<Task<J>>>
    requires code { code.now ≡ J.code }
    requires may { RunPremises J.code J.config }
    requires group { All (BelongsTo (identity_of turnstile.now)) group.items }
    ensures ok { IfOk result (λ h. (identity_of h.promise.turnstile.now ≡ identity_of turnstile.now)
        × (h.promise.count ≡ length group.items)) }
    ensures err { IfErr result (λ ms. All (BelongsTo (identity_of turnstile.now)) ms.items × (length ms.items ≡ length group.items)) }
{
    let count = group.len();
    let job = move || -> Vec<Task<J>>
        requires { All (BelongsTo (identity_of turnstile.now)) group.items × (code.now ≡ J.code) × RunPremises J.code J.config }
        ensures { All (BelongsTo (identity_of turnstile.entry.now)) result.items × (length result.items ≡ length group.items) }
    { run_worker_unless(rt, alloc, code, gate, turnstile, flag, group) };
    match scope.spawn_with(WorkerPromise { turnstile, count }, job) {
        Ok(handle) => Ok(handle),
        Err(refused) => {
            flag.store(true, Ordering::SeqCst);
            Err((refused.value)())
        }
    }
}

// Moves processes that came back to those of a worker that has room for them.
fn give<J: RunConfigOf + CodeOf>(
    turnstile: &Turnstile<Store<J>>,
    mine: &mut Vec<Task<J>>,
    mut back: Vec<Task<J>>,
)
    requires mine { All (BelongsTo (identity_of turnstile.now)) mine.old.items }
    requires back { All (BelongsTo (identity_of turnstile.now)) back.items }
    requires room { vec_len mine.old + vec_len back ≤ vec_capacity mine.old }
    ensures tasks { All (BelongsTo (identity_of turnstile.now)) mine.new.items }
    ensures count { length mine.new.items ≡ length mine.old.items + length back.items }
    ensures room { vec_capacity mine.old ≤ vec_capacity mine.new }
{
    match mine.append(&mut back) {
        Ok(()) => {}
        Err(_) => unreachable!(),
    }
}

/// Starts a worker for a group, or adds the group to the caller's own processes.
pub fn start_one<
    's,
    E,
    J: RunConfigOf + CodeOf + Send + Sync,
    R: Threads + Wait + Sync,
    G: Gate + Sync,
>(
    scope: &'s Scope<'s, E>,
    rt: &'s R,
    alloc: Global,
    code: &'s Code,
    gate: &'s G,
    turnstile: &'s Turnstile<Store<J>>,
    flag: &'s AtomicBool,
    group: Vec<Task<J>>,
    mine: &mut Vec<Task<J>>,
    handles: &mut Vec<PromisedHandle<Vec<Task<J>>, WorkerPromise<'s, J>>>,
)
    requires code { code.now ≡ J.code }
    requires may { RunPremises J.code J.config }
    requires group { All (BelongsTo (identity_of turnstile.now)) group.items }
    requires mine { All (BelongsTo (identity_of turnstile.now)) mine.old.items }
    requires handles { All (λ h. identity_of h.promise.turnstile.now ≡ identity_of turnstile.now) handles.old.items }
    requires room { vec_len mine.old + vec_len group ≤ vec_capacity mine.old }
    requires place { vec_len handles.old < vec_capacity handles.old }
    ensures mine { All (BelongsTo (identity_of turnstile.now)) mine.new.items }
    ensures handles { All (λ h. identity_of h.promise.turnstile.now ≡ identity_of turnstile.now) handles.new.items }
    ensures count { length mine.new.items + sum_by (λ h. h.promise.count) handles.new.items
        ≡ length mine.old.items + sum_by (λ h. h.promise.count) handles.old.items + length group.items }
    ensures more { length handles.new.items ≤ length handles.old.items + 1 }
    ensures place { vec_capacity handles.new ≡ vec_capacity handles.old }
    ensures room { vec_capacity mine.old ≤ vec_capacity mine.new }
{
    match start(scope, rt, alloc, code, gate, turnstile, flag, group) {
        Ok(handle) => handles.push_reserved(handle),
        Err(back) => give(turnstile, mine, back),
    }
}

/// Joins each worker, and adds its processes to the caller's.
pub fn collect<'s, J: RunConfigOf + CodeOf, R: Threads>(
    rt: &R,
    turnstile: &Turnstile<Store<J>>,
    mut handles: Vec<PromisedHandle<Vec<Task<J>>, WorkerPromise<'s, J>>>,
    mut all: Vec<Task<J>>,
) -> Vec<Task<J>>
    requires all { All (BelongsTo (identity_of turnstile.now)) all.items }
    requires handles { All (λ h. identity_of h.promise.turnstile.now ≡ identity_of turnstile.now) handles.items }
    requires room { vec_len all + sum_by (λ h. h.promise.count) handles.items ≤ vec_capacity all }
    ensures tasks { All (BelongsTo (identity_of turnstile.now)) result.items }
    ensures count { length result.items ≡ length all.items + sum_by (λ h. h.promise.count) handles.entry.items }
{
    while let Some(handle) = handles.pop() {
        let back = handle.join(rt);
        give(turnstile, &mut all, back);
    }
    all
}
