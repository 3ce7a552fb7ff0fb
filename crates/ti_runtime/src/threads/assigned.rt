// Which worker runs which process: process p is run by worker p modulo the number of workers.
ghost use Rattle.std.specs.Prelude.{◌≡◌, ◌<◌, ◌+◌, length, All, sum_by, IfOk, OnOk};
ghost use Rattle.ti_turnstile.specs.Turnstiles.{identity_of, AreNew};
ghost use Rattle.ti_runtime.specs.Mirrors.Processes.{RunPremises};
ghost use Rattle.ti_runtime.specs.Mirrors.Tasks.{BelongsTo};

use crate::code_of::CodeOf;
use crate::threads::task::Task;
use std::alloc::Global;
use ti_base::Memory;
use ti_code::Code;
use ti_pending::PendingProc;
use ti_store::{RunConfigOf, Store};
use ti_turnstile::{Pass, Turnstile};

// Adds a process at the front of a group.
fn put<J: RunConfigOf + CodeOf>(
    turnstile: &Turnstile<Store<J>>,
    groups: &mut Vec<Vec<Task<J>>>,
    group: usize,
    task: Task<J>,
) -> Result<(), Memory>
    requires group { group < length groups.old.items }
    requires groups { All (λ v. All (BelongsTo (identity_of turnstile.now)) v.items) groups.old.items }
    requires task { BelongsTo (identity_of turnstile.now) task }
    ensures groups { OnOk result (All (λ v. All (BelongsTo (identity_of turnstile.now)) v.items) groups.new.items) }
    ensures length { OnOk result (length groups.new.items ≡ length groups.old.items) }
    ensures count { OnOk result (sum_by (λ v. length v.items) groups.new.items ≡ sum_by (λ v. length v.items) groups.old.items + 1) }
{
    groups[group].insert(0, task)?;
    Ok(())
}

/// Makes a process for each pass, in the group of its worker. None of them has computed anything.
pub fn assign_to_workers<J: RunConfigOf + CodeOf>(
    alloc: Global,
    code: &Code,
    turnstile: &Turnstile<Store<J>>,
    mut passes: Vec<Pass<Store<J>>>,
    procs: u32,
    workers: u32,
    fuel: u32,
) -> Result<Vec<Vec<Task<J>>>, Memory>
    requires workers { 0 < workers }
    requires code { code.now ≡ J.code }
    requires may { RunPremises J.code J.config }
    requires procs { procs ≡ J.config.procs }
    requires fuel { fuel ≡ J.config.fuel }
    requires count { length passes.items ≡ procs }
    requires passes { AreNew (identity_of turnstile.now) passes.items }
    ensures groups { IfOk result (λ gs. All (λ v. All (BelongsTo (identity_of turnstile.now)) v.items) gs.items) }
    ensures length { IfOk result (λ gs. length gs.items ≡ workers) }
    ensures count { IfOk result (λ gs. sum_by (λ v. length v.items) gs.items ≡ procs) }
{
    let mut groups = Vec::with_capacity(alloc, workers as usize)?;
    for _w in 0..workers {
        groups.push(Vec::new(alloc))?;
    }
    while let Some(pass) = passes.pop() {
        let number = passes.len() as u32;
        let pending = PendingProc::take(alloc, code, number, procs, fuel)?;
        let task = Task::new(number, pending, pass);
        put(turnstile, &mut groups, (number % workers) as usize, task)?;
    }
    Ok(groups)
}
