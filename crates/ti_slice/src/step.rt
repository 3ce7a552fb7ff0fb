// The steps of the program slice: those of the tree interpreter, except that work without effects is skipped and that only the single
// operands of a statement with effects are evaluated.

ghost use Rattle.std.specs.Prelude.{◌≡◌, ◌<◌, [], length, IfOk};
ghost use Rattle.ti_lang.specs.Program.Views.{program_of};
ghost use Rattle.ti_align.specs.Slice.{single_statement as single_statement_spec};
ghost use Rattle.ti_eval.specs.declared.frame.Resume.TheVariants.{Here};
ghost use Rattle.ti_eval.specs.Comes.{ComesAs};
ghost use Rattle.ti_moves.specs.Outcomes.{move_after};
ghost use Rattle.ti_exec.specs.declared.process.ControlMode.TheVariants.{Walks};
ghost use Rattle.ti_exec.specs.States.{IsNormalized, IsWalking, IsReceiving, env_in, innermost_stmt};
ghost use Rattle.ti_slice.specs.Mirrors.Step.{IsSliceTurn, ActsIn};

use crate::acts::{receives_single, work_acts, work_after_first};
use crate::single_stmt::single_statement;
use std::alloc::Global;
use ti_base::Memory;
use ti_eval::{CanonicalAnswer, Interrupt, Resume};
use ti_exec::{ControlMode, StepOutcome, TreeMachine, end_place};
use ti_lang::program::ProgramData;
use ti_moves::StmtOutcome;
use ti_rules::Checked;

// The outcome of the innermost statement, which has effects.
fn statement_outcome<'a, 'c>(
    machine: &'a TreeMachine,
    alloc: Global,
    parts: &'c ProgramData,
) -> Result<(StmtOutcome<'c>, &'a [CanonicalAnswer]), Interrupt>
    requires { 0 < length machine.now.top.levels.items }
    ensures { ComesAs (move_after (env_in (program_of parts.now) machine.now) (innermost_stmt (program_of parts.now) machine.now.top)) result
        (single_statement_spec (env_in (program_of parts.now) machine.now) (innermost_stmt (program_of parts.now) machine.now.top) machine.now.answers.items) }
{
    single_statement(
        alloc,
        &machine.env(parts),
        machine.top.current_stmt(parts),
        &machine.answers,
    )
}

// The step at the beginning of the innermost statement, which has effects.
fn at_statement(
    machine: &mut TreeMachine,
    alloc: Global,
    parts: &ProgramData,
) -> Result<StepOutcome, Memory>
    requires inner { 0 < length machine.old.top.levels.items }
    requires mode { machine.old.mode ≡ Walks Here }
    requires acts { ActsIn (program_of parts.now) machine.old machine.old.mode }
    requires new { machine.old.answers.items ≡ [] }
    ensures { IfOk result (λ t. IsSliceTurn (program_of parts.now) machine.old t machine.new) }
{
    match statement_outcome(machine, alloc, parts) {
        Ok((m, _)) => machine.apply_outcome(alloc, parts, m),
        Err(stop) => machine.stops(alloc, stop),
    }
}

// The step at work with effects.
fn acts(
    machine: &mut TreeMachine,
    alloc: Global,
    parts: &ProgramData,
) -> Result<StepOutcome, Memory>
    requires inner { 0 < length machine.old.top.levels.items }
    requires mode { IsWalking machine.old.mode }
    requires settled { IsNormalized (program_of parts.now) machine.old }
    requires acts { ActsIn (program_of parts.now) machine.old machine.old.mode }
    requires new { machine.old.answers.items ≡ [] }
    ensures { IfOk result (λ t. IsSliceTurn (program_of parts.now) machine.old t machine.new) }
{
    match &machine.mode {
        ControlMode::Walks(resume) => match resume {
            Resume::Here => at_statement(machine, alloc, parts),
            _ => machine.resume_stmt(alloc, parts),
        },
        _ => unreachable!(),
    }
}

// The step of a slice that executes pending work; work without effects is skipped.
fn walks(machine: &mut TreeMachine, alloc: Global, checked: &Checked) -> Result<StepOutcome, Memory>
    requires mode { IsWalking machine.old.mode }
    requires settled { IsNormalized (program_of checked.now.program.parts) machine.old }
    requires new { machine.old.answers.items ≡ [] }
    ensures { IfOk result (λ t. IsSliceTurn (program_of checked.now.program.parts) machine.old t machine.new) }
{
    if machine.top.levels.is_empty() {
        return Ok(machine.returns(None));
    }
    let parts = &checked.program.parts;
    match &machine.mode {
        ControlMode::Walks(resume) => {
            if work_acts(checked, &machine.top, resume) {
                return acts(machine, alloc, parts);
            }
            let left = work_after_first(machine.top.current_stmt(parts), resume);
            machine.complete_with(left);
            Ok(StepOutcome::Continue)
        }
        _ => unreachable!(),
    }
}

// The step with a value on its way; it is dropped unless it goes into a single variable.
fn receives(
    machine: &mut TreeMachine,
    alloc: Global,
    checked: &Checked,
) -> Result<StepOutcome, Memory>
    requires mode { IsReceiving machine.old.mode }
    requires new { machine.old.answers.items ≡ [] }
    ensures { IfOk result (λ t. IsSliceTurn (program_of checked.now.program.parts) machine.old t machine.new) }
{
    if receives_single(checked, &machine.top) {
        return machine.receive(alloc, &checked.program.parts);
    }
    machine.complete_with(Resume::Inside);
    Ok(StepOutcome::Continue)
}

// The step at the work at hand.
fn act(machine: &mut TreeMachine, alloc: Global, checked: &Checked) -> Result<StepOutcome, Memory>
    requires settled { IsNormalized (program_of checked.now.program.parts) machine.old }
    requires new { machine.old.answers.items ≡ [] }
    ensures { IfOk result (λ t. IsSliceTurn (program_of checked.now.program.parts) machine.old t machine.new) }
{
    match &machine.mode {
        ControlMode::Walks(_) => walks(machine, alloc, checked),
        ControlMode::Receives(_) => receives(machine, alloc, checked),
        ControlMode::Waits(collective, _) => machine.leaves(alloc, collective.place),
        ControlMode::Expects(collective) => machine.leaves(alloc, collective.place),
        ControlMode::Ended => Ok(StepOutcome::End(end_place(&checked.program.parts))),
    }
}

/// One step of the program slice.
pub fn slice_step(
    machine: &mut TreeMachine,
    alloc: Global,
    checked: &Checked,
) -> Result<StepOutcome, Memory>
    requires { machine.old.answers.items ≡ [] }
    ensures { IfOk result (λ t. IsSliceTurn (program_of checked.now.program.parts) machine.old t machine.new) }
{
    machine.normalize(&checked.program.parts)?;
    act(machine, alloc, checked)
}
