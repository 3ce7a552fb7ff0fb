// Break and continue: jumps to the mark of the innermost loop in progress, which is the end of its iteration.

ghost use Rattle.std.specs.Prelude.{◌≡◌, ◌<◌, ℕ, ◌++◌, true, false, if◌then◌else◌, length, List};
ghost use Rattle.ti_lang.specs.Program.Classes.{ProgramView};
ghost use Rattle.ti_lang.specs.Program.Views.{program_of};
ghost use Rattle.ti_lang.specs.Meaning.Moves.{Breaks, Continues};
ghost use Rattle.ti_lang.specs.Meaning.Jumps.{has_mark, from_mark, past_mark, variables_at_mark};
ghost use Rattle.ti_lang.specs.Meaning.Performing.{declared_in};
ghost use Rattle.ti_lang.specs.Meaning.Processes.{Variable, ContItem};
ghost use Rattle.ti_lang.specs.Meaning.Scoping.{without_variables};
ghost use Rattle.ti_eval.specs.Frames.{MethodContext, slots_of, work_of};
ghost use Rattle.ti_moves.specs.Receiving.{stm_seen};
ghost use Rattle.ti_exec.specs.declared.process.StepOutcome.TheVariants.{Continue};
ghost use Rattle.ti_exec.specs.States.{left_in, rest, IsApplied};
ghost use Rattle.ti_exec.specs.Pending.{done_with};
ghost use Rattle.ti_exec.specs.Marks.{is_mark as is_mark_spec, is_inside_loop as in_loop_spec};

use crate::loops::after_loop;
use crate::process::{CallFrame, TreeMachine};
use ti_eval::{Resume, StmtFrame};
use ti_lang::program::{ProgramData, Stmt};
use ti_moves::is_for;

/// Whether the pending work of a statement begins with the mark of a loop.
pub fn is_mark(resume: &Resume) -> bool
    ensures { result ≡ is_mark_spec resume.now }
{
    match resume {
        Resume::Behind => true,
        Resume::Turn { .. } => true,
        _ => false,
    }
}

// Whether a loop is in progress around the innermost statement.
fn is_inside_loop(levels: &[StmtFrame]) -> bool
    ensures { result ≡ in_loop_spec levels.now }
{
    levels.iter().skip(1).any(|l| is_mark(&l.resume))
}

// Whether a jump over the pending work of a statement ends the scope of what it declared.
#[tactic(auto, using(crate::proofs::Marks::marks))]
fn ends_scope(resume: &Resume, stmt: Option<&Stmt>) -> bool
    requires { is_mark_spec resume.now ≡ false }
    ensures { (site : MethodContext) (ws : List ContItem) (vs : List Variable) → variables_at_mark (work_of site (stm_seen stmt.entry) resume.now ++ ws) vs
        ≡ variables_at_mark ws (if result then without_variables (declared_in (stm_seen stmt.entry)) vs else vs) }
{
    match resume {
        Resume::Here => false,
        Resume::Inside => false,
        Resume::From(_) => true,
        Resume::Ending => true,
        Resume::Before => is_for(stmt),
        Resume::Behind => unreachable!(),
        Resume::Each { .. } => false,
        Resume::Turn { .. } => unreachable!(),
        Resume::Copying { .. } => false,
        Resume::Taking { .. } => false,
    }
}

// The pending work of a loop after its mark.
#[tactic(auto, using(crate::proofs::Marks::marks))]
fn after_mark(resume: &Resume, stmt: Option<&Stmt>) -> Resume
    requires { is_mark_spec resume.now ≡ true }
    ensures { (site : MethodContext) (ws : List ContItem) → work_of site (stm_seen stmt.entry) result ++ ws
        ≡ past_mark (work_of site (stm_seen stmt.entry) resume.now ++ ws) }
{
    match resume {
        Resume::Behind => after_loop(stmt),
        Resume::Turn { .. } => Resume::Inside,
        _ => unreachable!(),
    }
}

impl CallFrame {
    // Leaves the innermost statement, whose pending work is skipped, and returns that of the statement around it.
    #[tactic(auto, using(crate::proofs::Marks::marks))]
    fn passes(&mut self, program: &ProgramData, skipped: &Resume) -> Resume
        requires inner { 0 < length self.old.levels.items }
        requires passed { is_mark_spec skipped.now ≡ false }
        ensures method { self.new.method ≡ self.old.method }
        ensures this { self.new.this ≡ self.old.this }
        ensures shorter { length self.new.levels.items < length self.old.levels.items }
        ensures left { (procs : ℕ) → from_mark (left_in (program_of program.now) procs self.new result)
            ≡ from_mark (left_in (program_of program.now) procs self.old skipped.now) }
        ensures variables { (procs : ℕ) → variables_at_mark (left_in (program_of program.now) procs self.new result)
            (slots_of self.new.variables.slots.items) ≡ variables_at_mark (left_in (program_of program.now) procs self.old skipped.now)
            (slots_of self.old.variables.slots.items) }
    {
        let x = self.current_stmt(program);
        if ends_scope(skipped, x) {
            self.variables.leave(x);
        }
        match self.levels.pop() {
            Some(level) => {
                let StmtFrame { resume, inner: _ } = level;
                resume
            }
            None => unreachable!(),
        }
    }

    // Leaves the statements inside the innermost loop in progress, and returns its pending work from the mark on.
    #[tactic(auto, using(crate::proofs::Marks::marks))]
    fn to_mark(&mut self, program: &ProgramData) -> Resume
        requires { in_loop_spec self.old.levels.items ≡ true }
        ensures method { self.new.method ≡ self.old.method }
        ensures this { self.new.this ≡ self.old.this }
        ensures inner { 0 < length self.new.levels.items }
        ensures mark { is_mark_spec result ≡ true }
        ensures left { (procs : ℕ) → left_in (program_of program.now) procs self.new result ≡ from_mark (rest (program_of program.now) procs self.old) }
        ensures variables { (procs : ℕ) → slots_of self.new.variables.slots.items
            ≡ variables_at_mark (rest (program_of program.now) procs self.old) (slots_of self.old.variables.slots.items) }
    {
        let mut left = Resume::Inside;
        'up: while !is_mark(&left) {
            left = self.passes(program, &left);
        }
        left
    }
}

impl TreeMachine {
    /// Leaves the innermost loop. Outside loops it only completes the statement.
    #[tactic(auto, using(crate::proofs::Marks::marks))]
    pub fn breaks(&mut self, program: &ProgramData)
        requires { 0 < length self.old.top.levels.items }
        ensures { IsApplied (program_of program.now) self.old Breaks Continue self.new }
    {
        if is_inside_loop(&self.top.levels) {
            let mark = self.top.to_mark(program);
            let left = after_mark(&mark, self.top.current_stmt(program));
            self.complete_with(left);
        } else {
            self.complete_with(Resume::Inside);
        }
    }

    /// Continues with the next iteration of the innermost loop. Outside loops it only completes the statement.
    #[tactic(auto, using(crate::proofs::Marks::marks))]
    pub fn continues(&mut self, program: &ProgramData)
        requires { 0 < length self.old.top.levels.items }
        ensures { IsApplied (program_of program.now) self.old Continues Continue self.new }
    {
        if is_inside_loop(&self.top.levels) {
            let mark = self.top.to_mark(program);
            self.complete_with(mark);
        } else {
            self.complete_with(Resume::Inside);
        }
    }
}
