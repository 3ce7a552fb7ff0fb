// Applies the outcome of a statement to the process.

ghost use Rattle.std.specs.Prelude.{◌≡◌, ℕ, ◌<◌, ◌∷◌, [], ◌++◌, length, List, IfOk, OnOk, Option};
ghost use Rattle.ti_base.specs.declared.value.Id.{Id as Thing};
ghost use Rattle.ti_lang.specs.Program.Classes.{ProgramView};
ghost use Rattle.ti_lang.specs.Program.Views.{program_of};
ghost use Rattle.ti_lang.specs.Meaning.Moves as move;
ghost use Rattle.ti_lang.specs.Meaning.Processes.{ContItem};
ghost use Rattle.ti_lang.specs.Meaning.Steps as steps;
ghost use Rattle.ti_eval.specs.Frames.{slots_of};
ghost use Rattle.ti_moves.specs.Outcomes.{method_at, update_variables, move_after, works_of};
ghost use Rattle.ti_moves.specs.Receiving.{receiver_of};
ghost use Rattle.ti_exec.specs.States.{IsStep, IsApplied, process_of, process_in_mode, top_of, below_of, context_of_call, innermost_stmt, rest, env_in};

use crate::process::{CallFrame, ControlMode, StepOutcome, TreeMachine, Variables};
use std::alloc::Global;
use std::mem;
use ti_base::{CollKind, Deposit, FaultKind, Id, Memory, Place};
use ti_eval::{Resume, Slot, VarValue};
use ti_lang::program::ProgramData;
use ti_moves::{CollectiveCall, Continuation, StmtOutcome, VarUpdate};

// The most frames of a process.
const MOST_FRAMES: usize = 200;

impl TreeMachine {
    /// Completes the current work, and continues in this mode.
    pub fn proceeds(&mut self, mode: ControlMode)
        ensures { (c : ProgramView) → process_of c self.new ≡ process_in_mode c self.old mode [] }
    {
        self.answers.clear();
        self.mode.set(mode);
    }

    /// Continues in this mode with the current work, which isn't complete.
    pub(crate) fn stays(&mut self, mode: ControlMode)
        ensures { self.new ≡ record self.old { mode = mode } }
    {
        self.mode.set(mode);
    }

    // Completes the current work; this work of the innermost statement is pending.
    #[tactic(auto, using(crate::proofs::Works::lefts))]
    fn continue_with(&mut self, left: Continuation) -> Result<(), Memory>
        requires { 0 < length self.old.top.levels.items }
        ensures { OnOk result ((c : ProgramView) (ws : List ContItem) → process_of c self.new
            ≡ steps.with_continuation (process_of c self.old) (top_of c self.old ws) (below_of c self.old)
            (slots_of self.old.top.variables.slots.items) (works_of (context_of_call c self.old.rank.procs self.old.top)
            (innermost_stmt c self.old.top) left ++ rest c self.old.rank.procs self.old.top)) }
    {
        match left {
            Continuation::Own(resume) => {
                self.complete_with(resume);
                Ok(())
            }
            Continuation::Child(inner, resume) => self.enter(inner, resume),
        }
    }

    // Changes the variables; this work of the innermost statement is pending.
    fn change_variables(
        &mut self,
        change: VarUpdate,
        left: Continuation,
    ) -> Result<StepOutcome, Memory>
        requires { 0 < length self.old.top.levels.items }
        ensures { (c : ProgramView) → IfOk result (λ t. IsApplied c self.old
            (move.Goes (update_variables change.entry (slots_of self.old.top.variables.slots.items))
            (works_of (context_of_call c self.old.rank.procs self.old.top) (innermost_stmt c self.old.top) left)) t self.new) }
    {
        self.top.variables.vary(change)?;
        self.continue_with(left)?;
        Ok(StepOutcome::Continue)
    }

    // Enters a method with its parameters. Faults if no tick is left or the calls are too deep.
    #[tactic(auto, using(crate::proofs::Works::lefts))]
    fn begin_call(
        &mut self,
        alloc: Global,
        place: Place,
        method: usize,
        this: Option<Id>,
        parameters: Vec<Slot>,
    ) -> Result<StepOutcome, Memory>
        ensures { (c : ProgramView) → IfOk result (λ t. IsApplied c self.old
            (move.Calls place (method_at c method) this (slots_of parameters.items) (receiver_of (innermost_stmt c self.old.top))) t self.new) }
    {
        if self.spent >= self.fuel {
            return Ok(StepOutcome::Fault(FaultKind::Fuel, place));
        }
        if self.callers.calls.len() + 1 >= MOST_FRAMES {
            return Ok(StepOutcome::Fault(FaultKind::Depth, place));
        }
        let call = CallFrame {
            method,
            this,
            variables: Variables::of(parameters)?,
            levels: Vec::new(alloc),
        };
        let caller = mem::replace(&mut self.top, call);
        self.callers.push(caller)?;
        self.spent += 1;
        self.proceeds(ControlMode::Walks(Resume::From(0)));
        Ok(StepOutcome::Continue)
    }

    /// Returns from the innermost call, with a value, if it has one. Without a caller the process ends.
    #[tactic(auto, using(crate::proofs::Works::lefts))]
    pub fn returns(&mut self, value: Option<VarValue>) -> StepOutcome
        ensures { (c : ProgramView) (ws left : List ContItem) → IsStep c (process_of c self.old)
            (steps.moves (process_of c self.old) (top_of c self.old ws) (below_of c self.old) left (move.Returns value)) result self.new }
    {
        match self.callers.pop() {
            None => self.proceeds(ControlMode::Ended),
            Some(call) => {
                self.top = call;
                match value {
                    Some(h) => self.proceeds(ControlMode::Receives(h)),
                    None => self.proceeds(ControlMode::Walks(Resume::Inside)),
                }
            }
        }
        StepOutcome::Continue
    }

    // How many variables of all calls refer to something in a region.
    fn count_in_region(&self, region: u32) -> u32
        ensures { (c : ProgramView) (ws : List ContItem) → result ≡ steps.named_in region (top_of c self.now ws ∷ below_of c self.now) }
    {
        self.top.count_in_region(region) + self.callers.count_in_region(region)
    }

    // The arrival at the deletion of a region, with the number of variables that refer to something in it.
    #[tactic(auto, using(crate::proofs::Works::lefts))]
    fn deletes(&self, alloc: Global, place: Place, region: u32) -> Result<StepOutcome, Memory>
        ensures { IfOk result (λ t. (c : ProgramView) → IsApplied c self.now (move.Deletes place region) t self.now) }
    {
        let collective = CollectiveCall {
            place,
            kind: CollKind::DeleteRegion,
            arg: Some(region),
        };
        let deposit = Deposit::Count(self.count_in_region(region));
        self.arrives(
            alloc,
            collective,
            deposit,
            ControlMode::Waits(collective, Resume::Inside),
        )
    }

    /// Applies the outcome of the innermost statement.
    #[tactic(auto, using(crate::proofs::Works::lefts))]
    pub fn apply_outcome(
        &mut self,
        alloc: Global,
        program: &ProgramData,
        outcome: StmtOutcome,
    ) -> Result<StepOutcome, Memory>
        requires { 0 < length self.old.top.levels.items }
        ensures { IfOk result (λ t. IsApplied (program_of program.now) self.old
            (move_after (env_in (program_of program.now) self.old) (innermost_stmt (program_of program.now) self.old.top) outcome.entry) t self.new) }
    {
        match outcome {
            StmtOutcome::Goes(change, left) => self.change_variables(change, left),
            StmtOutcome::Breaks => {
                self.breaks(program);
                Ok(StepOutcome::Continue)
            }
            StmtOutcome::Continues => {
                self.continues(program);
                Ok(StepOutcome::Continue)
            }
            StmtOutcome::Calls {
                place,
                method,
                this,
                parameters,
            } => self.begin_call(alloc, place, method, this, parameters),
            StmtOutcome::Returns(value) => Ok(self.returns(value)),
            StmtOutcome::Meets {
                collective,
                deposit,
                resume,
            } => self.arrives(
                alloc,
                collective,
                deposit,
                ControlMode::Waits(collective, resume),
            ),
            StmtOutcome::Expects {
                collective,
                deposit,
            } => { self.arrives(alloc, collective, deposit, ControlMode::Expects(collective)) }
            StmtOutcome::Deletes { place, region } => self.deletes(alloc, place, region),
        }
    }
}
