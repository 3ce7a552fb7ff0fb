// How a process begins, runs silent steps up to what it has next, and uses the answer.

ghost use Rattle.std.specs.Prelude.{◌≡◌, ◌+◌, ◌<◌, [], ◌∷◌, None, IfOk, vec_len, vec_capacity};
ghost use Rattle.ti_eval.specs.declared.frame.Resume.TheVariants.{From};
ghost use Rattle.ti_lang.specs.Program.Classes.{ProgramView};
ghost use Rattle.ti_lang.specs.Program.Views.{program_of};
ghost use Rattle.ti_lang.specs.Meaning.Processes as process;
ghost use Rattle.ti_lang.specs.Meaning.Steps.{spends};
ghost use Rattle.ti_moves.specs.Outcomes.{method_at};
ghost use Rattle.ti_exec.specs.declared.process.ControlMode.TheVariants.{Walks, Ended};
ghost use Rattle.ti_exec.specs.declared.process.OnAnswer.TheVariants.{Append};
ghost use Rattle.ti_exec.specs.States.{process_of, process_in_mode, mode_after_answer, after_answer};
ghost use Rattle.ti_exec.specs.Mirrors.RunLoop.{fresh_process, poisoned_in, RunsToNext};

use crate::process::{
    CallFrame, CallStack, ControlMode, OnAnswer, PendingRequest, StepOutcome, TreeMachine,
    Variables,
};
use std::alloc::Global;
use std::mem;
use ti_base::{Memory, Next};
use ti_eval::{CanonicalAnswer, Rank, Resume, answer_value};
use ti_lang::program::ProgramData;

/// The control state of a process.
#[derive(Drop)]
pub enum TreeProcState {
    /// Runnable: it is after its last answer.
    Running,
    /// Suspended: it waits for the answer to this action.
    Suspended(Box<PendingRequest>),
    /// Unusable, after out of memory.
    Poisoned,
}

impl TreeProcState {
    /// Whether the process ran out of memory.
    pub fn is_poisoned(&self) -> bool
        ensures { result ≡ poisoned_in self.now }
    {
        match self {
            TreeProcState::Running => false,
            TreeProcState::Suspended(_) => false,
            TreeProcState::Poisoned => true,
        }
    }

    /// For the prover: assigns the state.
    pub fn set(&mut self, state: TreeProcState)
        ensures { self.new ≡ state }
    {
        *self = state;
    }
}

// For the prover: the successor of a number below a limit, which can't overflow.
fn one_more(number: u32, limit: u32) -> u32
    requires { number < limit }
    ensures { result ≡ number + 1 }
{
    number + 1
}

// The mode after a departure with this answer.
fn mode_after(mode: ControlMode, answer: CanonicalAnswer) -> ControlMode
    ensures { result ≡ mode_after_answer mode answer }
{
    match mode {
        ControlMode::Walks(resume) => ControlMode::Walks(resume),
        ControlMode::Receives(held) => ControlMode::Receives(held),
        ControlMode::Waits(_, resume) => ControlMode::Walks(resume),
        ControlMode::Expects(_) => ControlMode::Receives(answer_value(answer)),
        ControlMode::Ended => ControlMode::Ended,
    }
}

impl TreeMachine {
    // A process in a mode, whose innermost call is before the first statement of a method.
    #[tactic(auto, using(crate::proofs::Beginnings::beginnings))]
    fn fresh(alloc: Global, rank: Rank, fuel: u32, method: usize, mode: ControlMode) -> TreeMachine
        ensures walks { (c : ProgramView) → mode ≡ Walks (From 0) → process_of c result
            ≡ fresh_process c rank fuel (process.frame_of (method_at c method) None [] process.Nowhere ∷ []) }
        ensures ended { (c : ProgramView) → mode ≡ Ended → process_of c result ≡ fresh_process c rank fuel [] }
    {
        TreeMachine {
            rank,
            fuel,
            spent: 0,
            callers: CallStack::none(alloc),
            top: CallFrame {
                method,
                this: None,
                variables: Variables::none(alloc),
                levels: Vec::new(alloc),
            },
            mode,
            answers: Vec::new(alloc),
        }
    }

    /// A process before its first step.
    #[tactic(auto, using(crate::proofs::Beginnings::beginnings))]
    pub fn begin(alloc: Global, program: &ProgramData, rank: Rank, fuel: u32) -> TreeMachine
        ensures { process_of (program_of program.now) result ≡ process.begin
            (record { program = program_of program.now; procs = rank.procs; fuel = fuel }) rank.number }
    {
        let main = program.main as usize;
        match program.methods.get(main) {
            Some(_) => TreeMachine::fresh(
                alloc,
                rank,
                fuel,
                main,
                ControlMode::Walks(Resume::From(0)),
            ),
            None => TreeMachine::fresh(alloc, rank, fuel, main, ControlMode::Ended),
        }
    }

    /// Runs silent steps up to what the process has next.
    pub fn run_to_suspension(
        &mut self,
        alloc: Global,
        program: &ProgramData,
    ) -> Result<(Next, TreeProcState), Memory>
        ensures { IfOk result (λ r. RunsToNext (program_of program.now) self.old r.0 r.1 self.new) }
    {
        'steps: loop {
            match self.step(alloc, program)? {
                StepOutcome::Continue => {}
                StepOutcome::Request(asking) => {
                    let next = Next::Act(asking.place, asking.action);
                    return Ok((next, TreeProcState::Suspended(asking)));
                }
                StepOutcome::End(at) => return Ok((Next::End(at), TreeProcState::Running)),
                StepOutcome::Fault(kind, at) => return Ok((
                    Next::Fault(kind, at),
                    TreeProcState::Running,
                )),
            }
        }
    }

    // Completes the current work for a tick, and continues in this mode.
    fn complete_with_tick(&mut self, mode: ControlMode)
        requires { self.old.spent < self.old.fuel }
        ensures { (c : ProgramView) → process_of c self.new ≡ spends (process_in_mode c self.old mode []) }
    {
        self.spent = one_more(self.spent, self.fuel);
        self.answers.clear();
        self.mode.set(mode);
    }

    // Adds an answer to the current work, for a tick.
    fn add_answer(&mut self, answer: CanonicalAnswer)
        requires room { vec_len self.old.answers < vec_capacity self.old.answers }
        requires tick { self.old.spent < self.old.fuel }
        ensures { (c : ProgramView) → process_of c self.new ≡ after_answer c self.old Append answer }
    {
        self.spent = one_more(self.spent, self.fuel);
        let _ = self.answers.push(answer);
    }

    /// Applies the answer to the action that the process had next; this spends a tick.
    pub fn resume_with(&mut self, on_answer: OnAnswer, answer: CanonicalAnswer)
        requires room { vec_len self.old.answers < vec_capacity self.old.answers }
        requires tick { self.old.spent < self.old.fuel }
        ensures { (c : ProgramView) → process_of c self.new ≡ after_answer c self.old on_answer answer }
    {
        match on_answer {
            OnAnswer::Append => self.add_answer(answer),
            OnAnswer::Arrive(mode) => self.complete_with_tick(mode),
            OnAnswer::Depart => {
                let mode = mem::replace(&mut self.mode, ControlMode::Ended);
                self.complete_with_tick(mode_after(mode, answer));
            }
        }
    }
}
