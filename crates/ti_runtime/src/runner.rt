// The public call: picks the type-level configuration of a run, runs the workers, and finishes on the caller's thread.

ghost use Rattle.std.specs.Prelude.{◌≡◌, ℕ, ◌≤◌, [], length, IfOk};
ghost use Rattle.std.specs.List.{list_all};
ghost use Rattle.ti_lang.specs.Program.Views.{program_of};
ghost use Rattle.ti_lang.specs.Meaning.Histories.{is_fault, has_fault};
ghost use Rattle.ti_lang.specs.Meaning.Processes.{RunConfig};
ghost use Rattle.ti_lang.specs.Meaning.Runs.{IsRun};
ghost use Rattle.ti_code.specs.Programs.{Code as Methods};
ghost use Rattle.ti_code.specs.Follows.{Follows};
ghost use Rattle.ti_store.specs.Conditions.{IsWithinRunLimits};
ghost use Rattle.ti_store.specs.Stores.{config_of};
ghost use Rattle.ti_pending.specs.declared.pending.PendingProc.{PendingProc as OneProc};
ghost use Rattle.ti_runtime.specs.Ran.{Ran};
ghost use Rattle.ti_pending.specs.UpToDate.{AllUpToDate};
ghost use Rattle.ti_runtime.specs.Mirrors.Processes.{RunPremises, IsOpen, IsSoloState, SoloOutcome};

use crate::code_of::CodeOf;
use crate::solo::cursor::SoloCursor;
use crate::solo::scheduler::SoloScheduler;
use crate::solo::step::RunStop;
use crate::threads::assigned::assign_to_workers;
use crate::threads::joined::{Joined, join_workers, room_for};
use crate::threads::scope::run_groups;
use std::alloc::Global;
use std::marker::Brand;
use std::sync::Wait;
use std::sync::atomic::AtomicBool;
use std::thread::Threads;
use ti_align::{aligned, answers_fit, rounds_balance};
use ti_base::{Action, Memory};
use ti_code::Code;
use ti_history::PackedHistory;
use ti_io::Gate;
use ti_pending::PendingProc;
use ti_rules::Checked;
use ti_store::{RunConfigOf, Store};
use ti_turnstile::Turnstile;

/// How a run ended.
#[derive(Clone, Copy, Debug, PartialEq, Eq)]
pub enum How {
    /// All processes have ended.
    Ended,
    /// By a fault, which is the last entry.
    Faulted,
    /// Out of memory, before the run was complete.
    Memory,
}

/// The result of a run: how it ended, its entries in order, and for each process how many instructions it has finished, given the answers to
/// its entries. Out of memory, these counts mean nothing, and there may be none.
#[derive(Drop)]
pub struct RunEnd {
    pub how: How,
    pub history: PackedHistory,
    pub done: Vec<u64>,
}

// The result of a run that was out of memory before its first entry.
fn out_of_memory_end(alloc: Global) -> RunEnd
    ensures { (code : Methods) (s : RunConfig) (workers : ℕ) → 1 ≤ s.procs → Ran code s workers result }
{
    RunEnd {
        how: How::Memory,
        history: PackedHistory::new(alloc),
        done: Vec::new(alloc),
    }
}

// Runs all processes on this thread, until all have ended or the run stops.
fn run_solo<J: RunConfigOf, G: Gate>(
    alloc: Global,
    code: &Code,
    gate: &G,
    scheduler: &mut SoloScheduler,
    store: &mut Store<J>,
) -> How
    requires open { IsOpen code.now store.old }
    requires stands { IsSoloState code.now (config_of store.old) store.old.entries scheduler.old.processes.items scheduler.old.cursor }
    ensures { SoloOutcome code.now (config_of store.old) store.old.entries store.new.entries scheduler.new.processes.items result }
{
    'turns: while (scheduler.cursor.next_proc as usize) < scheduler.processes.len() {
        match scheduler.step(alloc, code, gate, store) {
            Ok(()) => {}
            Err(RunStop::Faulted) => return How::Faulted,
            Err(RunStop::Memory) => return How::Memory,
        }
    }
    How::Ended
}

// Whether an action is a fault.
fn faults(action: Action) -> bool
    ensures { result ≡ is_fault action }
{
    matches!(action, Action::Fault { .. })
}

// Whether the last entry of a run is a fault.
fn ends_with_fault(entries: &PackedHistory) -> bool
    ensures { (s : RunConfig) → IsRun s entries.now.items → result ≡ has_fault entries.now.items }
{
    match entries.last() {
        Some(entry) => faults(entry.act),
        None => false,
    }
}

// Whether all processes have ended.
fn have_ended(processes: &[PendingProc]) -> bool
    ensures { result ≡ list_all (λ (pending : OneProc). pending.ended) processes.now }
{
    processes.iter().all(|pending| pending.ended)
}

// Continues all processes on this thread after the workers, unless the run is over. If the workers ran out of memory, the store is halted and
// refuses the first action.
fn go_on<J: RunConfigOf + CodeOf, G: Gate>(
    alloc: Global,
    code: &Code,
    gate: &G,
    scheduler: &mut SoloScheduler,
    store: &mut Store<J>,
) -> How
    requires code { code.now ≡ J.code }
    requires may { RunPremises J.code J.config }
    requires count { length scheduler.old.processes.items ≡ J.config.procs }
    requires cursor { scheduler.old.cursor ≡ record { next_proc = 0; blocked_below = 0 } }
    requires seated { AllUpToDate J.code J.config store.old.entries scheduler.old.processes.items }
    ensures { SoloOutcome J.code J.config store.old.entries store.new.entries scheduler.new.processes.items result }
{
    store.has_its_config();
    if ends_with_fault(store.history()) {
        return How::Faulted;
    }
    if have_ended(&scheduler.processes) {
        return How::Ended;
    }
    run_solo(alloc, code, gate, scheduler, store)
}

// The result of the run, once the workers have handed back the store and the processes.
fn finish<J: RunConfigOf + CodeOf, G: Gate>(
    alloc: Global,
    code: &Code,
    gate: &G,
    joined: Joined<J>,
    done: Vec<u64>,
) -> RunEnd
    requires code { code.now ≡ J.code }
    requires may { RunPremises J.code J.config }
    requires count { length joined.processes.items ≡ J.config.procs }
    requires seated { AllUpToDate J.code J.config joined.store.entries joined.processes.items }
    requires done { length done.items ≡ J.config.procs }
    ensures { (workers : ℕ) → (workers ≡ 1 → joined.store.entries ≡ []) → Ran J.code J.config workers result }
{
    let Joined {
        mut store,
        processes,
    } = joined;
    let mut scheduler = SoloScheduler {
        processes,
        cursor: SoloCursor {
            next_proc: 0,
            blocked_below: 0,
        },
    };
    let how = go_on(alloc, code, gate, &mut scheduler, &mut store);
    RunEnd {
        how,
        history: store.into_history(),
        done: scheduler.finished_counts(done),
    }
}

// A flag for each worker, all clear.
fn clear_flags(alloc: Global, count: u32) -> Result<Vec<AtomicBool>, Memory>
    ensures { IfOk result (λ v. length v.items ≡ count) }
{
    let mut flags = Vec::with_capacity(alloc, count as usize)?;
    for _w in 0..count {
        flags.push(AtomicBool::new(false))?;
    }
    Ok(flags)
}

// Runs several workers on threads, and returns the store and the processes as they left them.
fn run_threaded<J: RunConfigOf + CodeOf + Send + Sync, R: Threads + Wait + Sync, G: Gate + Sync>(
    rt: &R,
    alloc: Global,
    code: &Code,
    procs: u32,
    workers: u32,
    fuel: u32,
    gate: &G,
    store: Store<J>,
) -> Result<Joined<J>, Memory>
    requires workers { 1 ≤ workers }
    requires code { code.now ≡ J.code }
    requires may { RunPremises J.code J.config }
    requires procs { procs ≡ J.config.procs }
    requires fuel { fuel ≡ J.config.fuel }
    requires empty { store.entries ≡ [] }
    ensures count { IfOk result (λ r. length r.processes.items ≡ J.config.procs) }
    ensures seated { IfOk result (λ r. AllUpToDate J.code J.config r.store.entries r.processes.items) }
{
    let room = room_for(alloc, procs)?;
    let flags = clear_flags(alloc, workers)?;
    let (turnstile, passes) = Turnstile::new(alloc, procs, store)?;
    let groups = assign_to_workers(alloc, code, &turnstile, passes, procs, workers, fuel)?;
    let tasks = run_groups(rt, alloc, code, gate, &turnstile, &flags, groups, procs)?;
    Ok(join_workers(turnstile, tasks, room))
}

// The store and the processes as the workers leave them. With one worker nothing has been run yet.
fn begin<J: RunConfigOf + CodeOf + Send + Sync, R: Threads + Wait + Sync, G: Gate + Sync>(
    rt: &R,
    alloc: Global,
    checked: &Checked,
    code: &Code,
    procs: u32,
    workers: u32,
    fuel: u32,
    gate: &G,
) -> Result<Joined<J>, Memory>
    requires workers { 1 ≤ workers }
    requires code { code.now ≡ J.code }
    requires may { RunPremises J.code J.config }
    requires terms { record { program = program_of checked.now.program.parts; procs = procs; fuel = fuel } ≡ J.config }
    ensures count { IfOk result (λ r. length r.processes.items ≡ J.config.procs) }
    ensures seated { IfOk result (λ r. AllUpToDate J.code J.config r.store.entries r.processes.items) }
    ensures alone { workers ≡ 1 → IfOk result (λ r. r.store.entries ≡ []) }
{
    let store = Store::<J>::new(alloc, checked, procs, fuel)?;
    if workers != 1 {
        return run_threaded(rt, alloc, code, procs, workers, fuel, gate, store);
    }
    let SoloScheduler {
        processes,
        cursor: _,
    } = SoloScheduler::begin(alloc, code, procs, fuel)?;
    Ok(Joined { store, processes })
}

// The run under the type-level configuration that the caller has picked.
fn run_by<J: RunConfigOf + CodeOf + Send + Sync, R: Threads + Wait + Sync, G: Gate + Sync>(
    rt: &R,
    alloc: Global,
    checked: &Checked,
    code: &Code,
    procs: u32,
    workers: u32,
    fuel: u32,
    gate: &G,
) -> RunEnd
    requires within { IsWithinRunLimits procs fuel }
    requires workers { 1 ≤ workers }
    requires terms { record { program = program_of checked.now.program.parts; procs = procs; fuel = fuel } ≡ J.config }
    requires code { code.now ≡ J.code }
    requires follows { Follows code.now (program_of checked.now.program.parts) }
    ensures { Ran code.now (record { program = program_of checked.now.program.parts; procs = procs; fuel = fuel }) workers result }
{
    aligned(checked);
    answers_fit(checked);
    rounds_balance(checked);
    let Ok(done) = vec![in alloc; 0; procs as usize] else {
        return out_of_memory_end(alloc);
    };
    match begin::<J, R, G>(rt, alloc, checked, code, procs, workers, fuel, gate) {
        Ok(joined) => finish(alloc, code, gate, joined, done),
        Err(Memory) => out_of_memory_end(alloc),
    }
}

/// Runs a checked program by its code, as `procs` processes with `fuel` ticks each, on `workers` workers.
///
/// The history is a run of the program, whatever the schedule. It ends with a fault, or when all processes have ended, or out of memory.
/// With one worker it is the solo run: each entry is that of the lowest-numbered process that can take one. It may wait, since workers do.
pub fn run<R: Threads + Wait + Sync, G: Gate + Sync>(
    rt: &R,
    alloc: Global,
    checked: &Checked,
    code: &Code,
    procs: u32,
    workers: u32,
    fuel: u32,
    gate: &G,
) -> RunEnd
    requires within { IsWithinRunLimits procs fuel }
    requires workers { 1 ≤ workers }
    requires follows { Follows code.now (program_of checked.now.program.parts) }
    ensures { Ran code.now (record { program = program_of checked.now.program.parts; procs = procs; fuel = fuel }) workers result }
{
    run_by::<Brand, R, G>(rt, alloc, checked, code, procs, workers, fuel, gate)
}
