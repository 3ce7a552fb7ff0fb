// The execution of the pending work of a statement that has begun: loops, copies, exchanges, and the ends of blocks.

ghost use Rattle.std.specs.Prelude.{◌≡◌, ◌<◌, IfOk, OnOk, length, [], ◌∷◌};
ghost use Rattle.ti_lang.specs.Program.Classes.{ProgramView};
ghost use Rattle.ti_lang.specs.Program.Views.{program_of};
ghost use Rattle.ti_lang.specs.Meaning.Processes.{End};
ghost use Rattle.ti_lang.specs.Meaning.Performing.{condition as condition_spec};
ghost use Rattle.ti_eval.specs.declared.frame.Resume.{Resume as What};
ghost use Rattle.ti_eval.specs.declared.frame.Resume.TheVariants as left;
ghost use Rattle.ti_eval.specs.Frames.{MethodContext, condition_in, work_of, end_of_for, member_place as member_place_spec};
ghost use Rattle.ti_moves.specs.Receiving.{stm_seen};
ghost use Rattle.ti_exec.specs.declared.process.ControlMode.TheVariants.{Walks};
ghost use Rattle.ti_exec.specs.declared.process.StepOutcome.TheVariants.{Continue};
ghost use Rattle.ti_exec.specs.States.{context_of_call, innermost_stmt, env_in, IsStep, IsStepOutcome, IsNormalized, IsBegun, IsAtHand};
ghost use Rattle.ti_exec.specs.Pending.{process_at, step_if, Decides, IsStepOutcomeAt};

use crate::process::{ControlMode, StepOutcome, TreeMachine};
use std::alloc::Global;
use ti_base::{FaultKind, Id, Memory, Place, Point};
use ti_eval::{CanonicalPoint, ChildIndex, Copy, Interrupt, Resume, VarValue, next_point};
use ti_lang::program::{Expr, ProgramData, Stmt};
use ti_moves::{condition, copy_element, has_update, is_for, loop_place, take_element};

// The place of the member call that a statement is.
fn member_place(stmt: Option<&Stmt>) -> Place
    ensures { result ≡ member_place_spec (stm_seen stmt.entry) }
{
    match stmt {
        Some(s) => match s {
            Stmt::Call(e) => match e {
                Expr::Member { place, .. } => *place,
                _ => Place { line: 0, col: 0 },
            },
            _ => Place { line: 0, col: 0 },
        },
        None => Place { line: 0, col: 0 },
    }
}

/// The pending work of a statement after the last iteration of a loop.
pub fn after_loop(stmt: Option<&Stmt>) -> Resume
    ensures { (site : MethodContext) → work_of site (stm_seen stmt.entry) result ≡ end_of_for (stm_seen stmt.entry) }
{
    if is_for(stmt) {
        Resume::Ending
    } else {
        Resume::Inside
    }
}

impl TreeMachine {
    // The end of a block or a `for`: its variables leave.
    #[tactic(auto, using(crate::proofs::Begun::begun))]
    fn end(&mut self, program: &ProgramData)
        requires { 0 < length self.old.top.levels.items }
        ensures { (t : What) → work_of (context_of_call (program_of program.now) self.old.rank.procs self.old.top)
            (innermost_stmt (program_of program.now) self.old.top) t ≡ End (innermost_stmt (program_of program.now) self.old.top) ∷ []
            → IsStepOutcomeAt (program_of program.now) self.old t Continue self.new }
    {
        let x = self.top.current_stmt(program);
        self.top.variables.leave(x);
        self.complete_with(Resume::Inside);
    }

    // Begins an iteration of a `while` or a `for`, for a tick, or continues after the last one.
    fn iterate_or_leave(
        &mut self,
        program: &ProgramData,
        again: bool,
    ) -> Result<StepOutcome, Memory>
        requires { 0 < length self.old.top.levels.items }
        ensures { IfOk result (λ r. IsStep (program_of program.now) (process_at (program_of program.now) self.old left.Before)
            (step_if (program_of program.now) self.old again) r self.new) }
    {
        let x = self.top.current_stmt(program);
        if !again {
            self.complete_with(after_loop(x));
            return Ok(StepOutcome::Continue);
        }
        if self.spent >= self.fuel {
            self.stays(ControlMode::Walks(Resume::Before));
            return Ok(StepOutcome::Fault(FaultKind::Fuel, loop_place(x)));
        }
        self.spent += 1;
        self.enter(ChildIndex::Body, Resume::Behind)?;
        Ok(StepOutcome::Continue)
    }

    // Evaluates the condition of a `while` or a `for`.
    #[tactic(auto, using(crate::proofs::Begun::begun))]
    fn evaluate_condition(&self, alloc: Global, program: &ProgramData) -> Result<bool, Interrupt>
        requires { 0 < length self.now.top.levels.items }
        ensures { Decides result (condition_spec (env_in (program_of program.now) self.now)
            (condition_in (innermost_stmt (program_of program.now) self.now.top)) self.now.answers.items) }
    {
        let x = self.top.current_stmt(program);
        let env = self.env(program);
        match condition(alloc, &env, x, &self.answers) {
            Ok((h, _)) => Ok(h.is_true()),
            Err(stop) => Err(stop),
        }
    }

    // Evaluates the condition and begins the next iteration of a `while` or a `for`, if it is true.
    #[tactic(auto, using(crate::proofs::Begun::begun))]
    fn begin_iteration(
        &mut self,
        alloc: Global,
        program: &ProgramData,
    ) -> Result<StepOutcome, Memory>
        requires { 0 < length self.old.top.levels.items }
        ensures { IfOk result (λ r. IsStepOutcomeAt (program_of program.now) self.old left.Before r self.new) }
    {
        match self.evaluate_condition(alloc, program) {
            Ok(again) => self.iterate_or_leave(program, again),
            Err(stop) => {
                self.mode = ControlMode::Walks(Resume::Before);
                self.stops(alloc, stop)
            }
        }
    }

    // Ends an iteration of a `while` or a `for`; its update comes next, if there is one.
    #[tactic(auto, using(crate::proofs::Begun::begun))]
    fn end_iteration(&mut self, program: &ProgramData) -> Result<(), Memory>
        requires { 0 < length self.old.top.levels.items }
        ensures { OnOk result (IsStepOutcomeAt (program_of program.now) self.old left.Behind Continue self.new) }
    {
        if has_update(self.top.current_stmt(program)) {
            self.enter(ChildIndex::Update, Resume::Before)?;
        } else {
            self.complete_with(Resume::Before);
        }
        Ok(())
    }

    // Begins the next iteration of a `foreach`, for a tick, if a point is left.
    #[tactic(auto, using(crate::proofs::Begun::begun))]
    fn begin_foreach_iteration(
        &mut self,
        program: &ProgramData,
        variable: u32,
        domain: Box<VarValue>,
        last: Option<Point>,
    ) -> Result<StepOutcome, Memory>
        requires { 0 < length self.old.top.levels.items }
        ensures { IfOk result (λ r. IsStepOutcomeAt (program_of program.now) self.old (left.Each variable domain last) r self.new) }
    {
        match next_point(&domain, last) {
            Some(p) => {
                if self.spent >= self.fuel {
                    let at = loop_place(self.top.current_stmt(program));
                    self.stays(ControlMode::Walks(Resume::Each {
                        variable,
                        domain,
                        last,
                    }));
                    return Ok(StepOutcome::Fault(FaultKind::Fuel, at));
                }
                self.spent += 1;
                let at = CanonicalPoint { point: p };
                self.enter(
                    ChildIndex::Body,
                    Resume::Turn {
                        variable,
                        domain,
                        at,
                    },
                )?;
                Ok(StepOutcome::Continue)
            }
            None => {
                self.complete_with(Resume::Inside);
                Ok(StepOutcome::Continue)
            }
        }
    }

    // Ends an iteration of a `foreach`.
    #[tactic(auto, using(crate::proofs::Begun::begun))]
    fn end_foreach_iteration(&mut self, variable: u32, domain: Box<VarValue>, point: CanonicalPoint)
        requires { 0 < length self.old.top.levels.items }
        ensures { (c : ProgramView) → IsStepOutcomeAt c self.old (left.Turn variable domain point) Continue self.new }
    {
        let last = Some(point.point);
        self.complete_with(Resume::Each {
            variable,
            domain,
            last,
        });
    }

    // Copies the element at the next point of a copy, if one is left.
    #[tactic(auto, using(crate::proofs::Begun::begun))]
    fn copy_next(
        &mut self,
        alloc: Global,
        program: &ProgramData,
        copy: Box<Copy>,
        last: Option<Point>,
    ) -> Result<StepOutcome, Memory>
        requires { 0 < length self.old.top.levels.items }
        ensures { IfOk result (λ r. IsStepOutcomeAt (program_of program.now) self.old (left.Copying copy last) r self.new) }
    {
        let Copy { to, from, domain } = &*copy;
        match next_point(domain, last) {
            Some(p) => {
                let at = member_place(self.top.current_stmt(program));
                match copy_element(at, *to, *from, p, &self.answers) {
                    Ok(_) => {
                        self.complete_with(Resume::Copying {
                            copy,
                            last: Some(p),
                        });
                        Ok(StepOutcome::Continue)
                    }
                    Err(stop) => {
                        self.mode = ControlMode::Walks(Resume::Copying { copy, last });
                        self.stops(alloc, stop)
                    }
                }
            }
            None => {
                self.complete_with(Resume::Inside);
                Ok(StepOutcome::Continue)
            }
        }
    }

    // Takes the value of the next process of an exchange, if one is left.
    #[tactic(auto, using(crate::proofs::Begun::begun))]
    fn take_next(
        &mut self,
        alloc: Global,
        program: &ProgramData,
        grid: Id,
        next: u32,
    ) -> Result<StepOutcome, Memory>
        requires { 0 < length self.old.top.levels.items }
        ensures { IfOk result (λ r. IsStepOutcomeAt (program_of program.now) self.old (left.Taking grid next) r self.new) }
    {
        if next >= self.rank.procs {
            self.complete_with(Resume::Inside);
            return Ok(StepOutcome::Continue);
        }
        let at = member_place(self.top.current_stmt(program));
        match take_element(at, grid, next, &self.answers) {
            Ok(_) => {
                self.complete_with(Resume::Taking {
                    grid,
                    next: next + 1,
                });
                Ok(StepOutcome::Continue)
            }
            Err(stop) => {
                self.mode = ControlMode::Walks(Resume::Taking { grid, next });
                self.stops(alloc, stop)
            }
        }
    }

    // Executes the pending work of a statement that has begun.
    #[tactic(auto, using(crate::proofs::Begun::begun))]
    fn run_pending(
        &mut self,
        alloc: Global,
        program: &ProgramData,
        resume: Resume,
    ) -> Result<StepOutcome, Memory>
        requires inner { 0 < length self.old.top.levels.items }
        requires settled { IsAtHand (innermost_stmt (program_of program.now) self.old.top) (length self.old.top.levels.items) resume }
        requires begun { IsBegun (Walks resume) }
        ensures { IfOk result (λ r. IsStepOutcomeAt (program_of program.now) self.old resume r self.new) }
    {
        match resume {
            Resume::Here => unreachable!(),
            Resume::Inside => unreachable!(),
            Resume::From(_) => {
                self.end(program);
                Ok(StepOutcome::Continue)
            }
            Resume::Ending => {
                self.end(program);
                Ok(StepOutcome::Continue)
            }
            Resume::Before => self.begin_iteration(alloc, program),
            Resume::Behind => {
                self.end_iteration(program)?;
                Ok(StepOutcome::Continue)
            }
            Resume::Each {
                variable,
                domain,
                last,
            } => self.begin_foreach_iteration(program, variable, domain, last),
            Resume::Turn {
                variable,
                domain,
                at,
            } => {
                self.end_foreach_iteration(variable, domain, at);
                Ok(StepOutcome::Continue)
            }
            Resume::Copying { copy, last } => self.copy_next(alloc, program, copy, last),
            Resume::Taking { grid, next } => self.take_next(alloc, program, grid, next),
        }
    }

    /// Executes one step of the pending work of a statement that has begun.
    #[tactic(auto, using(crate::proofs::Begun::begun))]
    pub fn resume_stmt(
        &mut self,
        alloc: Global,
        program: &ProgramData,
    ) -> Result<StepOutcome, Memory>
        requires inner { 0 < length self.old.top.levels.items }
        requires settled { IsNormalized (program_of program.now) self.old }
        requires begun { IsBegun self.old.mode }
        ensures { IfOk result (λ r. IsStepOutcome (program_of program.now) self.old r self.new) }
    {
        // A placeholder is left, so that the pending work can be moved out; unless out of memory, each case sets the mode again.
        match std::mem::replace(&mut self.mode, ControlMode::Walks(Resume::Inside)) {
            ControlMode::Walks(resume) => Ok(self.run_pending(alloc, program, resume)?),
            ControlMode::Receives(_) => unreachable!(),
            ControlMode::Waits(_, _) => unreachable!(),
            ControlMode::Expects(_) => unreachable!(),
            ControlMode::Ended => unreachable!(),
        }
    }
}
