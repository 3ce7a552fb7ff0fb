// One step of a process on the store.
ghost use Rattle.std.specs.Prelude.{◌≡◌, ◌<◌, if◌then◌else◌};
ghost use Rattle.ti_lang.specs.Meaning.Histories.{is_arrival};
ghost use Rattle.ti_lang.specs.Meaning.Runs.{IsRun};
ghost use Rattle.ti_store.specs.Stores.{config_of};
ghost use Rattle.ti_pending.specs.UpToDate.{IsUpToDate};
ghost use Rattle.ti_pending.specs.Acting.{next_action};
ghost use Rattle.ti_runtime.specs.Mirrors.Processes.{IsOpen, TurnLeaves};

use crate::solo::cursor::TurnOutcome;
use std::alloc::Global;
use ti_base::{Action, Next};
use ti_code::Code;
use ti_io::Gate;
use ti_pending::PendingProc;
use ti_store::{ActErr, RunConfigOf, Store};

/// Why a run stops before all processes have ended.
#[derive(Clone, Copy)]
pub enum RunStop {
    /// The last entry is a fault.
    Faulted,
    /// Out of memory.
    Memory,
}

// The outcome of an action that was performed.
fn turn_of(next: Next) -> TurnOutcome
    ensures { result ≡ (if is_arrival (next_action next) then TurnOutcome.Arrived else TurnOutcome.Progressed) }
{
    if matches!(next, Next::Act(_, Action::Arrive { .. })) {
        TurnOutcome::Arrived
    } else {
        TurnOutcome::Progressed
    }
}

/// One step: runs the process to its next action, passes the gate, and performs that action unless the process has to wait.
pub fn step_in<J: RunConfigOf, G: Gate>(
    pending: &mut PendingProc,
    alloc: Global,
    code: &Code,
    gate: &G,
    store: &mut Store<J>,
    number: u32,
) -> Result<TurnOutcome, RunStop>
    requires open { IsOpen code.now store.old }
    requires number { number < store.old.procs }
    requires run { IsRun (config_of store.old) store.old.entries }
    requires seated { IsUpToDate code.now (config_of store.old) store.old.entries number pending.old }
    ensures leaves { TurnLeaves code.now (config_of store.old) store.old.entries number pending.old store.new.entries pending.new result }
    ensures store { store.new ≡ record store.old { entries = store.new.entries } }
{
    if pending.ended {
        return Ok(TurnOutcome::Finished);
    }
    let Ok(next) = pending.advance(alloc, code) else {
        return Err(RunStop::Memory);
    };
    gate.pass(number);
    match pending.act_in(alloc, next, store, number) {
        Ok(()) => Ok(turn_of(next)),
        Err(ActErr::NotYet) => Ok(TurnOutcome::Blocked),
        Err(ActErr::Faulted(_)) => Err(RunStop::Faulted),
        Err(ActErr::Halted) => Err(RunStop::Memory),
        Err(ActErr::Memory) => Err(RunStop::Memory),
    }
}
