// The scheduler of one worker: all processes of a run on one thread, in the order of the solo run.
ghost use Rattle.std.specs.Prelude.{◌≡◌, ◌<◌, ℕ, [], length, slice_index_or, IfOk};
ghost use Rattle.ti_lang.specs.Program.Classes.{ProgramView};
ghost use Rattle.ti_code.specs.Follows.{Follows};
ghost use Rattle.ti_machine.specs.ProcView.{HasFinished};
ghost use Rattle.ti_store.specs.Conditions.{IsWithinRunLimits};
ghost use Rattle.ti_store.specs.Stores.{config_of};
ghost use Rattle.ti_pending.specs.declared.pending.PendingProc.{PendingProc as OneProc};
ghost use Rattle.ti_runtime.specs.Mirrors.Processes.{IsOpen, IsSoloState, StepLeaves};

use crate::solo::cursor::SoloCursor;
use crate::solo::step::{RunStop, step_in};
use std::alloc::Global;
use ti_base::Memory;
use ti_code::Code;
use ti_io::Gate;
use ti_pending::PendingProc;
use ti_store::{RunConfigOf, Store};

/// All processes in the order of their numbers, and which is tried next.
#[derive(Drop)]
pub struct SoloScheduler {
    pub processes: Vec<PendingProc>,
    pub cursor: SoloCursor,
}

impl SoloScheduler {
    /// `procs` processes with `fuel` ticks each, before their first instructions.
    pub fn begin(alloc: Global, code: &Code, procs: u32, fuel: u32) -> Result<SoloScheduler, Memory>
        requires within { IsWithinRunLimits procs fuel }
        requires follows { (program : ProgramView) × Follows code.now program }
        ensures { IfOk result (λ scheduler. (program : ProgramView) → Follows code.now program
            → IsSoloState code.now (record { program = program; procs = procs; fuel = fuel }) [] scheduler.processes.items scheduler.cursor) }
    {
        let mut processes = Vec::with_capacity(alloc, procs as usize)?;
        for number in 0..procs {
            let pending = PendingProc::take(alloc, code, number, procs, fuel)?;
            processes.push(pending)?;
        }
        let cursor = SoloCursor {
            next_proc: 0,
            blocked_below: 0,
        };
        Ok(SoloScheduler { processes, cursor })
    }

    /// Lets the next process try one step, which may end in waiting, and moves the cursor.
    pub fn step<J: RunConfigOf, G: Gate>(
        &mut self,
        alloc: Global,
        code: &Code,
        gate: &G,
        store: &mut Store<J>,
    ) -> Result<(), RunStop>
        requires open { IsOpen code.now store.old }
        requires some_left { self.old.cursor.next_proc < store.old.procs }
        requires stands { IsSoloState code.now (config_of store.old) store.old.entries self.old.processes.items self.old.cursor }
        ensures leaves { StepLeaves code.now (config_of store.old) store.old.entries self.old store.new.entries self.new result }
        ensures store { store.new ≡ record store.old { entries = store.new.entries } }
    {
        let number = self.cursor.next_proc;
        match step_in(
            &mut self.processes[number as usize],
            alloc,
            code,
            gate,
            store,
            number,
        ) {
            Ok(turn) => {
                self.cursor = self.cursor.next_after(turn);
                Ok(())
            }
            Err(stop) => Err(stop),
        }
    }

    /// How many instructions each process has finished; the vector is overwritten.
    pub fn finished_counts(&self, mut done: Vec<u64>) -> Vec<u64>
        requires { length done.items ≡ length self.now.processes.items }
        ensures count { length result.items ≡ length self.now.processes.items }
        ensures each { (d : OneProc) (i : ℕ) → i < length self.now.processes.items
            → HasFinished (slice_index_or self.now.processes.items i d).process (slice_index_or result.items i 0) }
    {
        for n in 0..self.processes.len() {
            done[n] = self.processes[n].process.finished();
        }
        done
    }
}
