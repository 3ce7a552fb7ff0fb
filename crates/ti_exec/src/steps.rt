// The steps of a process: the dispatch on its mode.

ghost use Rattle.std.specs.Prelude.{◌≡◌, ◌<◌, length, IfOk};
ghost use Rattle.ti_lang.specs.Program.Classes.{ProgramView};
ghost use Rattle.ti_lang.specs.Program.Views.{program_of};
ghost use Rattle.ti_lang.specs.Meaning.Comp.{gives};
ghost use Rattle.ti_lang.specs.Meaning.Moves.{receives};
ghost use Rattle.ti_lang.specs.Meaning.Statements.{statement as statement_spec};
ghost use Rattle.ti_lang.specs.Meaning.Steps.{end_of};
ghost use Rattle.ti_eval.specs.declared.frame.Resume.{Resume as Left};
ghost use Rattle.ti_eval.specs.declared.frame.Resume.TheVariants.{Here};
ghost use Rattle.ti_eval.specs.Comes.{ComesAs};
ghost use Rattle.ti_moves.specs.Outcomes.{move_after};
ghost use Rattle.ti_moves.specs.Receiving.{receiver_of};
ghost use Rattle.ti_moves.specs.declared.outcomes.CollectiveCall.{CollectiveCall as Met};
ghost use Rattle.ti_exec.specs.declared.process.ControlMode.TheVariants.{Walks, Waits, Expects};
ghost use Rattle.ti_exec.specs.States.{IsStepOutcome, IsNormalized, IsWalking, IsReceiving, env_in, innermost_stmt};

use crate::process::{ControlMode, OnAnswer, StepOutcome, TreeMachine};
use std::alloc::Global;
use ti_base::{Action, Memory, Place};
use ti_eval::{CanonicalAnswer, Interrupt, Resume, VarValue};
use ti_lang::program::ProgramData;
use ti_moves::{StmtOutcome, method, statement, store_received};

/// The place of the brace that closes `main`.
pub fn end_place(program: &ProgramData) -> Place
    ensures { result ≡ end_of (program_of program.now) }
{
    match method(program, program.main as usize) {
        Some(main) => main.end,
        None => Place { line: 0, col: 0 },
    }
}

impl TreeMachine {
    // The outcome of the innermost statement.
    fn stmt_outcome<'a, 'c>(
        &'a self,
        alloc: Global,
        program: &'c ProgramData,
    ) -> Result<(StmtOutcome<'c>, &'a [CanonicalAnswer]), Interrupt>
        requires { 0 < length self.now.top.levels.items }
        ensures { ComesAs (move_after (env_in (program_of program.now) self.now) (innermost_stmt (program_of program.now) self.now.top)) result
            (statement_spec (env_in (program_of program.now) self.now) (innermost_stmt (program_of program.now) self.now.top) self.now.answers.items) }
    {
        statement(
            alloc,
            &self.env(program),
            self.top.current_stmt(program),
            &self.answers,
        )
    }

    // The outcome of the innermost statement after it has received a value.
    fn store_outcome<'a, 'c>(
        &'a self,
        alloc: Global,
        program: &'c ProgramData,
        value: &VarValue,
    ) -> Result<(StmtOutcome<'c>, &'a [CanonicalAnswer]), Interrupt>
        requires { 0 < length self.now.top.levels.items }
        ensures { ComesAs (move_after (env_in (program_of program.now) self.now) (innermost_stmt (program_of program.now) self.now.top)) result
            (receives (env_in (program_of program.now) self.now) (receiver_of (innermost_stmt (program_of program.now) self.now.top))
            (gives value.now) self.now.answers.items) }
    {
        store_received(
            alloc,
            &self.env(program),
            self.top.current_stmt(program),
            value,
            &self.answers,
        )
    }

    // The step at the beginning of the innermost statement.
    fn at_statement(&mut self, alloc: Global, program: &ProgramData) -> Result<StepOutcome, Memory>
        requires inner { 0 < length self.old.top.levels.items }
        requires mode { self.old.mode ≡ Walks Here }
        ensures { IfOk result (λ t. IsStepOutcome (program_of program.now) self.old t self.new) }
    {
        match self.stmt_outcome(alloc, program) {
            Ok((m, _)) => self.apply_outcome(alloc, program, m),
            Err(stop) => self.stops(alloc, stop),
        }
    }

    // The step of a process that executes pending work.
    fn walks(&mut self, alloc: Global, program: &ProgramData) -> Result<StepOutcome, Memory>
        requires settled { IsNormalized (program_of program.now) self.old }
        requires mode { IsWalking self.old.mode }
        ensures { IfOk result (λ t. IsStepOutcome (program_of program.now) self.old t self.new) }
    {
        if self.top.levels.is_empty() {
            return Ok(self.returns(None));
        }
        match &self.mode {
            ControlMode::Walks(Resume::Here) => self.at_statement(alloc, program),
            _ => self.resume_stmt(alloc, program),
        }
    }

    /// The step of a process with a value on its way. In the body of a method the value is dropped.
    pub fn receive(&mut self, alloc: Global, program: &ProgramData) -> Result<StepOutcome, Memory>
        requires { IsReceiving self.old.mode }
        ensures { IfOk result (λ t. IsStepOutcome (program_of program.now) self.old t self.new) }
    {
        if self.top.levels.is_empty() {
            self.proceeds(ControlMode::Walks(Resume::Inside));
            return Ok(StepOutcome::Continue);
        }
        match &self.mode {
            ControlMode::Receives(h) => match self.store_outcome(alloc, program, h) {
                Ok((m, _)) => self.apply_outcome(alloc, program, m),
                Err(stop) => self.stops(alloc, stop),
            },
            _ => unreachable!(),
        }
    }

    /// The step of a process that waits at a collective: it requests the departure.
    pub fn leaves(&self, alloc: Global, place: Place) -> Result<StepOutcome, Memory>
        ensures waits { IfOk result (λ r. (c : ProgramView) (m : Met) (t : Left) → self.now.mode ≡ Waits m t → m.place ≡ place
            → IsStepOutcome c self.now r self.now) }
        ensures expects { IfOk result (λ r. (c : ProgramView) (m : Met) → self.now.mode ≡ Expects m → m.place ≡ place
            → IsStepOutcome c self.now r self.now) }
    {
        self.asks(alloc, place, Action::Depart, OnAnswer::Depart)
    }

    // The step at the work at hand.
    fn act(&mut self, alloc: Global, program: &ProgramData) -> Result<StepOutcome, Memory>
        requires { IsNormalized (program_of program.now) self.old }
        ensures { IfOk result (λ t. IsStepOutcome (program_of program.now) self.old t self.new) }
    {
        match &self.mode {
            ControlMode::Walks(_) => self.walks(alloc, program),
            ControlMode::Receives(_) => self.receive(alloc, program),
            ControlMode::Waits(collective, _) => self.leaves(alloc, collective.place),
            ControlMode::Expects(collective) => self.leaves(alloc, collective.place),
            ControlMode::Ended => Ok(StepOutcome::End(end_place(program))),
        }
    }

    /// One step.
    pub fn step(&mut self, alloc: Global, program: &ProgramData) -> Result<StepOutcome, Memory>
        ensures { IfOk result (λ t. IsStepOutcome (program_of program.now) self.old t self.new) }
    {
        self.normalize(program)?;
        self.act(alloc, program)
    }
}
