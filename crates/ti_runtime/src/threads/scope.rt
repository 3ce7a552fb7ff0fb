// All workers of a run, from the first start to the last join.
ghost use Rattle.std.specs.Prelude.{◌≡◌, ◌≤◌, ◌<◌, length, All, sum_by, IfOk};
ghost use Rattle.ti_turnstile.specs.Turnstiles.{identity_of};
ghost use Rattle.ti_runtime.specs.Mirrors.Processes.{RunPremises};
ghost use Rattle.ti_runtime.specs.Mirrors.Tasks.{BelongsTo};

use crate::code_of::CodeOf;
use crate::threads::spawn::{WorkerPromise, collect, start_one};
use crate::threads::task::Task;
use crate::threads::worker::run_worker;
use std::alloc::Global;
use std::sync::Wait;
use std::sync::atomic::AtomicBool;
use std::thread;
use std::thread::{PromisedHandle, Scope, Threads};
use ti_base::Memory;
use ti_code::Code;
use ti_io::Gate;
use ti_store::{RunConfigOf, Store};
use ti_turnstile::Turnstile;

// Starts a worker for each group but the last, runs the last group on the caller's thread, and joins the workers.
fn in_scope<'s, E, J: RunConfigOf + CodeOf + Send + Sync, R: Threads + Wait + Sync, G: Gate + Sync>(
    scope: &'s Scope<'s, E>,
    rt: &'s R,
    alloc: Global,
    code: &'s Code,
    gate: &'s G,
    turnstile: &'s Turnstile<Store<J>>,
    flags: &'s [AtomicBool],
    mut groups: Vec<Vec<Task<J>>>,
    procs: u32,
) -> Result<Vec<Task<J>>, Memory>
    requires code { code.now ≡ J.code }
    requires may { RunPremises J.code J.config }
    requires groups { All (λ v. All (BelongsTo (identity_of turnstile.now)) v.items) groups.items }
    requires all { sum_by (λ v. length v.items) groups.items ≡ procs }
    requires flags { length groups.items ≤ length flags.now }
    ensures tasks { IfOk result (λ ms. All (BelongsTo (identity_of turnstile.now)) ms.items) }
    ensures count { IfOk result (λ ms. length ms.items ≡ procs) }
{
    let Some(mut mine) = groups.pop() else {
        return Ok(Vec::new(alloc));
    };
    let mut handles: Vec<PromisedHandle<Vec<Task<J>>, WorkerPromise<'s, J>>> = Vec::with_capacity(
        alloc,
        groups.len(),
    )?;
    mine.reserve(procs as usize)?;
    while let Some(group) = groups.pop() {
        let flag = &flags[groups.len()];
        start_one(
            scope,
            rt,
            alloc,
            code,
            gate,
            turnstile,
            flag,
            group,
            &mut mine,
            &mut handles,
        );
    }
    let mine = run_worker(rt, alloc, code, gate, turnstile, mine);
    Ok(collect(rt, turnstile, handles, mine))
}

/// Runs all groups, each on a thread of its own, but the last, which runs on the caller's thread. All processes come back.
pub fn run_groups<J: RunConfigOf + CodeOf + Send + Sync, R: Threads + Wait + Sync, G: Gate + Sync>(
    rt: &R,
    alloc: Global,
    code: &Code,
    gate: &G,
    turnstile: &Turnstile<Store<J>>,
    flags: &[AtomicBool],
    groups: Vec<Vec<Task<J>>>,
    procs: u32,
) -> Result<Vec<Task<J>>, Memory>
    requires code { code.now ≡ J.code }
    requires may { RunPremises J.code J.config }
    requires groups { All (λ v. All (BelongsTo (identity_of turnstile.now)) v.items) groups.items }
    requires all { sum_by (λ v. length v.items) groups.items ≡ procs }
    requires flags { length groups.items ≤ length flags.now }
    ensures tasks { IfOk result (λ ms. All (BelongsTo (identity_of turnstile.now)) ms.items) }
    ensures count { IfOk result (λ ms. length ms.items ≡ procs) }
{
    thread::scope(
        thread::scope_env(),
        rt,
        |scope| -> Result<Vec<Task<J>>, Memory>
            requires { (code.now ≡ J.code) × RunPremises J.code J.config × All
                (λ v. All (BelongsTo (identity_of turnstile.now)) v.items) groups.items × (sum_by (λ v. length v.items) groups.items ≡ procs)
                × (length groups.items ≤ length flags.now) }
            ensures { IfOk result (λ ms. All (BelongsTo (identity_of turnstile.entry.now)) ms.items × (length ms.items ≡ procs)) }
        {
            in_scope(
                scope, rt, alloc, code, gate, turnstile, flags, groups, procs,
            )
        },
    )
}
