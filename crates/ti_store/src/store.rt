// The store of a run: its history and all that results from it. Its invariant states that the entries are a run of the program.

ghost use Rattle.std.specs.Prelude.{◌≡◌, ◌<◌, [], false, true, IfOk, IfErr};
ghost use Rattle.ti_lang.specs.Program.Views.{program_of};
ghost use Rattle.ti_lang.specs.Meaning.Runs.{IsRun};
ghost use Rattle.ti_eval.specs.Forms.{IsFormedAnswer};
ghost use Rattle.ti_store.specs.Conditions.{IsWithinRunLimits};
ghost use Rattle.ti_store.specs.Stores.{config_of, IsNextOf, IsDone, IsRefused};

use crate::act_err::ActErr;
use crate::region_rounds::RegionRounds;
use crate::run_config::RunConfigOf;
use crate::run_state::{ActOutcome, RunState};
use std::alloc::Global;
use std::marker::{Model, PhantomData};
use ti_align::{
    actions_formed, arrivals_agree, fields_fit, fields_storable, none_impossible, nothing_dangles,
    rounds_balance, run_typed,
};
use ti_base::{Action, Answer, Entry, Memory, Place};
use ti_heap::Heap;
use ti_history::PackedHistory;
use ti_region::Regions;
use ti_rounds::Rounds;
use ti_rules::Checked;
use ti_turnstile::Kept;

/// The history of a run, with the heap, the collectives and the regions that result from it.
///
/// Contracts see the program, the number of processes, the fuel of each, the entries so far, and whether the store was halted because
/// memory ran out. The entries are always a run of the program, and program, number of processes and fuel are those of `J`,
/// wherever the store was obtained from.
#[derive(Drop)]
pub struct Store<J: RunConfigOf> {
    run_state: RunState,
    // The fuel of each process, in ticks; only contracts speak of it.
    fuel: u32,
    // The history ends with a fault.
    faulted: bool,
    // Memory ran out elsewhere: see `halt_for_memory`.
    halted: bool,
    of: PhantomData<J>,
}

impl<J: RunConfigOf> Model for Store<J> {
    ghost use Rattle.ti_base.specs.contracts.entry.Entry as entry;
    ghost use Rattle.ti_lang.specs.contracts.program.classes.ProgramData as parts;
    ghost use Rattle.ti_store.specs.Stores.{StoreState};
    ghost use Rattle.ti_store.specs.Mirrors.State.{state_code};

    ghost Value = { StoreState };

    ghost coded = { state_code parts.the_row.coded entry.the_row.coded };

    ghost use Rattle.ti_store.specs.Mirrors.Store.{state_of, IsStore};

    ghost view = { λ s. state_of s.run_state s.fuel s.halted };

    ghost invariant = { λ s. IsStore s.run_state s.fuel s.faulted J.config };
}

impl<J: RunConfigOf> Kept for Store<J> {
    ghost use Rattle.ti_store.specs.Stores.{log_of};

    type Item = Entry;

    ghost log = { λ s. log_of s.entries };

    fn len(&self) -> usize {
        self.run_state.entries.len()
    }

    fn number_at(&self, index: usize) -> u32 {
        self.run_state.entries.proc_at(index)
    }
}

impl<J: RunConfigOf> Store<J> {
    /// The store of a program, before the first entry, for the given number of processes and ticks of fuel for each.
    ///
    /// It keeps a copy of the program.
    pub fn new(alloc: Global, checked: &Checked, procs: u32, fuel: u32) -> Result<Self, Memory>
        requires within { IsWithinRunLimits procs fuel }
        requires terms { record { program = program_of checked.now.program.parts; procs = procs; fuel = fuel } ≡ J.config }
        ensures setting { IfOk result (λ s. config_of s ≡ record {
          program = program_of checked.now.program.parts;
          procs = procs;
          fuel = fuel;
        }) }
        ensures entries { IfOk result (λ s. s.entries ≡ []) }
        ensures halted { IfOk result (λ s. s.halted ≡ false) }
    {
        none_impossible(checked);
        rounds_balance(checked);
        arrivals_agree(checked);
        run_typed(checked);
        actions_formed(checked);
        fields_fit(checked);
        fields_storable(checked);
        nothing_dangles(checked);
        let program = checked.program.copy(alloc)?;
        let heap = Heap::new(alloc, procs)?;
        let rounds = Rounds::new(alloc, procs)?;
        let region_rounds = RegionRounds::new(alloc, procs)?;
        let regions = Regions::new(alloc);
        let run_state = RunState {
            program,
            procs,
            entries: PackedHistory::new(alloc),
            heap,
            rounds,
            region_rounds,
            regions,
        };
        Ok(Store {
            run_state,
            fuel,
            faulted: false,
            halted: false,
            of: PhantomData,
        })
    }

    /// Performs what process `proc` does next: an action, its end or a fault of its own.
    ///
    /// Its entry is appended, with its answer or as the fault that it results in. The result is `Halted` exactly if the history ends with
    /// a fault or the store was halted; otherwise `NotYet` exactly if this is a departure from a collective at which not all have
    /// arrived; otherwise `Faulted` exactly if it faults, and the fault is then the last entry. `Memory` may replace an answer or a
    /// fault. On errors other than `Faulted` nothing changes.
    pub fn act(
        &mut self,
        alloc: Global,
        proc: u32,
        place: Place,
        action: Action,
    ) -> Result<Answer, ActErr>
        requires process { proc < self.old.procs }
        requires next { IsNextOf self.old proc place action }
        ensures ok { IfOk result (λ answer. IsDone self.old proc place action answer self.new) }
        ensures form { IfOk result IsFormedAnswer }
        ensures err { IfErr result (λ why. IsRefused self.old proc place action why self.new) }
    {
        if self.halted || self.faulted {
            return Err(ActErr::Halted);
        }
        if !self.run_state.is_enabled(proc, action) {
            return Err(ActErr::NotYet);
        }
        match self.run_state.step(alloc, proc, place, action) {
            Ok(ActOutcome::Answered(answer)) => Ok(answer),
            Ok(ActOutcome::Faulted(kind)) => {
                self.faulted = true;
                Err(ActErr::Faulted(kind))
            }
            Err(_) => Err(ActErr::Memory),
        }
    }

    /// Halts the store because memory ran out elsewhere: no further action is performed.
    pub fn halt_for_memory(&mut self)
        ensures { self.new ≡ record self.old { halted = true } }
    {
        self.halted = true;
    }

    /// Theorem: program, number of processes and fuel are those of the store's type.
    pub fn has_its_config(&self)
        ensures { config_of self.now ≡ J.config }
    {
        let _fuel = self.fuel;
    }

    /// The entries so far, which are a run.
    pub fn history(&self) -> &PackedHistory
        ensures entries { result.now.items ≡ self.now.entries }
        ensures run { IsRun (config_of self.now) self.now.entries }
    {
        &self.run_state.entries
    }

    /// Takes the store apart and returns the entries, which are a run.
    pub fn into_history(self) -> PackedHistory
        ensures entries { result.items ≡ self.entries }
        ensures run { IsRun (config_of self) self.entries }
    {
        let Store {
            run_state,
            fuel: _,
            faulted: _,
            halted: _,
            of: _,
        } = self;
        let RunState {
            program: _,
            procs: _,
            entries,
            heap: _,
            rounds: _,
            region_rounds: _,
            regions: _,
        } = run_state;
        entries
    }
}
