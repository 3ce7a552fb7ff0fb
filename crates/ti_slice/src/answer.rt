// What the program slice has next after the outcomes of its departures so far.

ghost use Rattle.std.specs.Prelude.{◌≡◌, ℕ, ◌<◌, ◌^◌, [], ◌++◌, IfOk, OnOk};
ghost use Rattle.ti_base.specs.declared.entry.Answer.TheVariants.{Done};
ghost use Rattle.ti_lang.specs.Program.Classes.{ProgramView};
ghost use Rattle.ti_lang.specs.Program.Views.{program_of};
ghost use Rattle.ti_lang.specs.Meaning.Processes.{begin};
ghost use Rattle.ti_lang.specs.Meaning.Scoping.{Env as Where};
ghost use Rattle.ti_align.specs.Slice as slice;
ghost use Rattle.ti_align.specs.Slice.{SliceAnswers, SliceComes, deleted_by};
ghost use Rattle.ti_eval.specs.Forms.{IsFormedAnswer};
ghost use Rattle.ti_moves.specs.Outcomes.{type_received};
ghost use Rattle.ti_moves.specs.Receiving.{stm_seen};
ghost use Rattle.ti_exec.specs.declared.process.OnAnswer.TheVariants.{Depart};
ghost use Rattle.ti_exec.specs.States.{process_of, wait_in, after_answer, innermost_stmt};
ghost use Rattle.ti_slice.specs.Mirrors.Answer.{IsFree, IsWaiting, wanted_of, OutcomeFits, region_list, Departs, SliceMeets};

use crate::fits::{fits_departure, is_done};
use crate::slice_stop::{SliceStop, run_to_stop};
use std::alloc::Global;
use ti_align::SliceStep;
use ti_base::{Answer, CollKind, FaultKind, Memory, Place};
use ti_eval::{CanonicalAnswer, Rank};
use ti_exec::{ControlMode, OnAnswer, TreeMachine};
use ti_lang::program::{ProgramData, Stmt};
use ti_moves::CollectiveCall;
use ti_rules::Checked;

/// The state of the program slice between its collectives.
#[derive(Drop)]
pub struct Slice {
    pub machine: TreeMachine,
    /// The numbers of the regions that have been deleted, the last one first.
    pub gone: Vec<u32>,
}

// What the slice has next at a fault: `NoFuel` if it is out of fuel, and the fault otherwise.
fn at_fault(kind: FaultKind, place: Place) -> SliceStep
    ensures { result ≡ slice.at_fault kind place }
{
    match kind {
        FaultKind::Fuel => SliceStep::NoFuel,
        _ => SliceStep::Faults(kind, place),
    }
}

// The region that a collective deletes, if it deletes one.
fn deleted_at(collective: &CollectiveCall) -> Option<u32>
    ensures { region_list result ≡ slice.deleted_at collective.now.kind collective.now.arg }
{
    match collective.kind {
        CollKind::DeleteRegion => collective.arg,
        _ => None,
    }
}

// The region that is deleted by the collective at which the slice waits, if there is one.
fn deleted_region(mode: &ControlMode) -> Option<u32>
    ensures { (c : ProgramView) (w : TreeMachine) → region_list result ≡ deleted_by (wait_in c w mode.now) }
{
    match mode {
        ControlMode::Waits(collective, _) => deleted_at(collective),
        ControlMode::Expects(collective) => deleted_at(collective),
        _ => None,
    }
}

// The statement that waits for the collective's value.
fn waiting_statement<'c>(machine: &TreeMachine, parts: &'c ProgramData) -> Option<&'c Stmt>
    ensures { (env : Where) → type_received env (stm_seen result) ≡ type_received env (innermost_stmt (program_of parts.now) machine.now.top) }
{
    if machine.top.levels.is_empty() {
        return None;
    }
    machine.top.current_stmt(parts)
}

// Whether an outcome fits the departure from the collective at which the slice waits.
fn fits(
    machine: &TreeMachine,
    alloc: Global,
    parts: &ProgramData,
    outcome: &Answer,
) -> Result<bool, Memory>
    requires { IsWaiting machine.now.mode }
    ensures { IfOk result (λ b. OutcomeFits (wanted_of (wait_in (program_of parts.now) machine.now machine.now.mode)) outcome.now b) }
{
    match &machine.mode {
        ControlMode::Waits(_, _) => Ok(is_done(outcome)),
        ControlMode::Expects(_) => fits_departure(
            alloc,
            &machine.env(parts),
            waiting_statement(machine, parts),
            outcome,
        ),
        _ => unreachable!(),
    }
}

// Applies the answer to the action that the slice had next.
fn apply_answer(
    machine: &mut TreeMachine,
    on_answer: OnAnswer,
    answer: Answer,
) -> Result<(), Memory>
    requires form { IsFormedAnswer answer }
    requires tick { machine.old.spent < machine.old.fuel }
    ensures { OnOk result ((c : ProgramView) → process_of c machine.new ≡ after_answer c machine.old on_answer answer) }
{
    machine.answers.reserve(1)?;
    machine.resume_with(on_answer, CanonicalAnswer::of(answer));
    Ok(())
}

impl Slice {
    // The slice before its first step. It runs as process 0.
    fn begin(alloc: Global, checked: &Checked, procs: u32, fuel: u32) -> Slice
        requires { procs < 2 ^ 31 }
        ensures process { process_of (program_of checked.now.program.parts) result.machine
            ≡ begin (record { program = program_of checked.now.program.parts; procs = procs; fuel = fuel }) 0 }
        ensures gone { result.gone.items ≡ [] }
    {
        let rank = Rank { number: 0, procs };
        Slice {
            machine: TreeMachine::begin(alloc, &checked.program.parts, rank, fuel),
            gone: Vec::new(alloc),
        }
    }

    // Leaves the collective at which the slice waits.
    fn leaves(&mut self, outcome: &Answer) -> Result<(), Memory>
        requires form { IsFormedAnswer outcome.now }
        requires tick { self.old.machine.spent < self.old.machine.fuel }
        ensures told { OnOk result ((c : ProgramView) → process_of c self.new.machine ≡ after_answer c self.old.machine Depart outcome.now) }
        ensures gone { OnOk result ((c : ProgramView) → self.new.gone.items
            ≡ deleted_by (wait_in c self.old.machine self.old.machine.mode) ++ self.old.gone.items) }
    {
        match deleted_region(&self.machine.mode) {
            Some(region) => self.gone.insert(0, region)?,
            None => {}
        }
        apply_answer(&mut self.machine, OnAnswer::Depart, *outcome)
    }

    // Leaves the collective at which the slice waits, if a tick is left and the outcome fits. Says whether it did.
    fn departs(
        &mut self,
        alloc: Global,
        checked: &Checked,
        outcome: &Answer,
    ) -> Result<bool, Memory>
        requires { IsWaiting self.old.machine.mode }
        ensures { IfOk result (λ b. Departs (program_of checked.now.program.parts) self.old outcome.now self.new b) }
    {
        if self.machine.spent >= self.machine.fuel {
            return Ok(false);
        }
        let fitting = fits(&self.machine, alloc, &checked.program.parts, outcome)?;
        if fitting {
            self.leaves(outcome)?;
            return Ok(true);
        }
        Ok(false)
    }

    // Runs to the next collective and leaves it, if there is one and the outcome fits. Says whether it did.
    fn meets(&mut self, alloc: Global, checked: &Checked, outcome: &Answer) -> Result<bool, Memory>
        requires { IsFree (program_of checked.now.program.parts) (process_of (program_of checked.now.program.parts) self.old.machine) }
        ensures { IfOk result (λ b. SliceMeets (program_of checked.now.program.parts) self.old outcome.now self.new b) }
    {
        match run_to_stop(&mut self.machine, alloc, checked, &self.gone)? {
            SliceStop::Arrives(_, _, _, on_answer) => {
                apply_answer(&mut self.machine, on_answer, Answer::Done)?;
                self.departs(alloc, checked, outcome)
            }
            SliceStop::Ends => Ok(false),
            SliceStop::Fails(_, _) => Ok(false),
        }
    }

    // What the slice has next without further outcomes.
    fn comes_to(&mut self, alloc: Global, checked: &Checked) -> Result<SliceStep, Memory>
        requires { IsFree (program_of checked.now.program.parts) (process_of (program_of checked.now.program.parts) self.old.machine) }
        ensures { IfOk result (λ x. (k : ℕ) → SliceComes (process_of (program_of checked.now.program.parts) self.old.machine) self.old.gone.items k []
            x) }
    {
        match run_to_stop(&mut self.machine, alloc, checked, &self.gone)? {
            SliceStop::Arrives(kind, arg, place, _) => Ok(SliceStep::At(kind, place, arg)),
            SliceStop::Ends => Ok(SliceStep::Ended),
            SliceStop::Fails(kind, place) => Ok(at_fault(kind, place)),
        }
    }
}

/// What the program slice of a checked program has next after the outcomes of its departures so far.
///
/// The slice is what all processes do alike, run by itself: it has only the single variables, skips each statement without global effects,
/// and evaluates only the single operands of the others. An outcome is the answer to a departure: the value of a broadcast, the new region,
/// or that the collective is done.
///
/// - `At`: it arrives at this collective, at this place and with this argument;
/// - `Ended`: it ends;
/// - `Faults`: a single expression, a root, the depth of its calls or the deletion of a deleted region is at fault;
/// - `NoFuel`: it needs more than `fuel` ticks, one for each iteration of a loop with effects, each call of a single method, each arrival
/// and each departure;
/// - `Unfit`: the outcome of this number, counted from 0, is the first one that doesn't fit its departure or has none.
///
/// It depends on no run; `procs` is the number of processes. The only error is out of memory.
pub fn slice_next(
    alloc: Global,
    checked: &Checked,
    procs: u32,
    fuel: u32,
    outcomes: &[Answer],
) -> Result<SliceStep, Memory>
    requires procs { procs < 2 ^ 31 }
    ensures { IfOk result (λ x. SliceAnswers (record { program = program_of checked.now.program.parts; procs = procs; fuel = fuel }) outcomes.now
        x) }
{
    let mut slice = Slice::begin(alloc, checked, procs, fuel);
    for (k, outcome) in outcomes.iter().enumerate() {
        let met = slice.meets(alloc, checked, outcome)?;
        if !met {
            return Ok(SliceStep::Unfit(k as u64));
        }
    }
    slice.comes_to(alloc, checked)
}
