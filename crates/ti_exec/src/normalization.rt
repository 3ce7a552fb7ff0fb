// How a process gets to the work at hand: statements that are done are left, and the next one of a list is entered. No step of the
// semantics corresponds to that.

ghost use Rattle.std.specs.Prelude.{◌≡◌, ◌<◌, ℕ, IsTrue, IfSome, OnOk, None, length, map, ◌∷◌};
ghost use Rattle.ti_lang.specs.Program.Classes.{ProgramView};
ghost use Rattle.ti_lang.specs.Program.Views.{program_of};
ghost use Rattle.ti_lang.specs.Meaning.Processes.{Do};
ghost use Rattle.ti_eval.specs.declared.frame.Resume.TheVariants.{Inside, From};
ghost use Rattle.ti_eval.specs.Frames.{slots_of, list_in};
ghost use Rattle.ti_eval.specs.Places.{child_of};
ghost use Rattle.ti_moves.specs.Receiving.{stm_seen};
ghost use Rattle.ti_exec.specs.declared.process.ControlMode.TheVariants.{Walks};
ghost use Rattle.ti_exec.specs.States.{innermost_stmt, left_in, process_of, IsNormalized};
ghost use Rattle.ti_exec.specs.Pending.{done_with};

use crate::process::{CallFrame, ControlMode, TreeMachine};
use ti_base::Memory;
use ti_eval::{ChildIndex, Resume, StmtFrame};
use ti_lang::program::{ProgramData, Stmt};
use ti_moves::{body_of, count, method, statement_at};

impl CallFrame {
    /// The innermost statement of the call.
    pub fn current_stmt<'c>(&self, program: &'c ProgramData) -> Option<&'c Stmt>
        requires { 0 < length self.now.levels.items }
        ensures { stm_seen result ≡ innermost_stmt (program_of program.now) self.now }
    {
        statement_at(body_of(method(program, self.method)), &self.levels)
    }

    // How many statements the list of the innermost block has.
    fn list_len(&self, program: &ProgramData) -> usize
        ensures { result ≡ length (list_in (innermost_stmt (program_of program.now) self.now)) }
    {
        count(body_of(method(program, self.method)), &self.levels)
    }
}

// Whether nothing of the innermost statement is pending.
fn is_done(mode: &ControlMode) -> bool
    ensures yes { IsTrue result → mode.now ≡ Walks Inside }
    ensures no { mode.now ≡ Walks Inside → IsTrue result }
{
    match mode {
        ControlMode::Walks(resume) => match resume {
            Resume::Inside => true,
            _ => false,
        },
        _ => false,
    }
}

// The number of the first pending statement of a list, if the work is that of a list.
fn item_next(mode: &ControlMode) -> Option<usize>
    ensures some { IfSome result (λ n. mode.now ≡ Walks (From n)) }
    ensures none { (n : ℕ) → mode.now ≡ Walks (From n) → result ≡ None → ⊥ }
{
    match mode {
        ControlMode::Walks(resume) => match resume {
            Resume::From(n) => Some(*n),
            _ => None,
        },
        _ => None,
    }
}

impl TreeMachine {
    /// Completes the current work; this work of the innermost statement is pending.
    pub fn complete_with(&mut self, resume: Resume)
        ensures { (c : ProgramView) → process_of c self.new ≡ done_with c self.old (slots_of self.old.top.variables.slots.items)
            (left_in c self.old.rank.procs self.old.top resume) }
    {
        self.proceeds(ControlMode::Walks(resume));
    }

    /// Completes the current work and enters a part of the innermost statement, after which this work is pending.
    #[tactic(auto, using(crate::proofs::Works::lefts))]
    pub fn enter(&mut self, inner: ChildIndex, resume: Resume) -> Result<(), Memory>
        ensures { OnOk result ((c : ProgramView) → process_of c self.new
            ≡ done_with c self.old (slots_of self.old.top.variables.slots.items)
            (Do (child_of (innermost_stmt c self.old.top) inner) ∷ left_in c self.old.rank.procs self.old.top resume)) }
    {
        self.top.levels.push(StmtFrame { resume, inner })?;
        self.proceeds(ControlMode::Walks(Resume::Here));
        Ok(())
    }

    // Leaves the statements that are done.
    #[tactic(auto, using(crate::proofs::Works::lefts))]
    fn pop_done(&mut self)
        ensures same { (c : ProgramView) → process_of c self.new ≡ process_of c self.old }
        ensures settled { self.new.mode ≡ Walks Inside → length self.new.top.levels.items ≡ 0 }
    {
        'pop: while is_done(&self.mode) {
            match self.top.levels.pop() {
                Some(level) => {
                    let StmtFrame { resume, inner: _ } = level;
                    self.mode.set(ControlMode::Walks(resume));
                }
                None => return,
            }
        }
    }

    // Enters the next statement of a list, if one is left.
    #[tactic(auto, using(crate::proofs::Settling::settling))]
    fn enter_item(&mut self, program: &ProgramData) -> Result<(), Memory>
        requires { self.old.mode ≡ Walks Inside → length self.old.top.levels.items ≡ 0 }
        ensures same { OnOk result (process_of (program_of program.now) self.new ≡ process_of (program_of program.now) self.old) }
        ensures settled { OnOk result (IsNormalized (program_of program.now) self.new) }
    {
        match item_next(&self.mode) {
            Some(n) => {
                if n < self.top.list_len(program) {
                    self.top.levels.push(StmtFrame {
                        resume: Resume::From(n + 1),
                        inner: ChildIndex::Item(n),
                    })?;
                    self.mode.set(ControlMode::Walks(Resume::Here));
                }
                Ok(())
            }
            None => Ok(()),
        }
    }

    /// Gets to the work at hand. This doesn't change which process of the semantics the state represents.
    pub fn normalize(&mut self, program: &ProgramData) -> Result<(), Memory>
        ensures same { OnOk result (process_of (program_of program.now) self.new ≡ process_of (program_of program.now) self.old) }
        ensures settled { OnOk result (IsNormalized (program_of program.now) self.new) }
    {
        self.pop_done();
        self.enter_item(program)
    }
}
