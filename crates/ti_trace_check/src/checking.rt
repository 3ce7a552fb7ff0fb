// The public call: starts the processes, replays the trace, and gives the verdict.
ghost use Rattle.std.specs.Prelude.{◌≡◌, ◌<◌, ◌≤◌, ◌||◌, [], true, length, IfOk, IfErr};
ghost use Rattle.std.specs.List.{list_all};
ghost use Rattle.ti_code.specs.Follows.{Follows};
ghost use Rattle.ti_io.specs.Faults.{Rose};
ghost use Rattle.ti_io.specs.Source.{SameFiles};
ghost use Rattle.ti_lang.specs.Meaning.Histories.{has_fault as fault_in};
ghost use Rattle.ti_lang.specs.Program.Classes.{ProgramView};
ghost use Rattle.ti_lang.specs.Program.Views.{program_of};
ghost use Rattle.ti_store.specs.Conditions.{IsWithinRunLimits};
ghost use Rattle.ti_trace_check.specs.declared.error.TraceErr.TheVariants.{Read};
ghost use Rattle.ti_trace_check.specs.Mirrors.Replaying.{IsReplayState, Gives};
ghost use Rattle.ti_trace_check.specs.Verdicts.{HasRun, Judges};

use crate::error::TraceErr;
use crate::replay::{ReplayEnd, replay_lines};
use crate::verdict::Verdict;
use std::alloc::Global;
use std::marker::Brand;
use ti_align::answers_fit;
use ti_base::{Action, Memory};
use ti_code::Code;
use ti_history::PackedHistory;
use ti_io::Source;
use ti_lower::lower;
use ti_pending::PendingProc;
use ti_rules::Checked;
use ti_store::{RunConfigOf, Store};

// The processes of a run before the first entry.
fn start_processes(
    alloc: Global,
    code: &Code,
    procs: u32,
    fuel: u32,
) -> Result<Vec<PendingProc>, Memory>
    requires within { IsWithinRunLimits procs fuel }
    requires follows { (program : ProgramView) × Follows code.now program }
    ensures { IfOk result (λ processes. (program : ProgramView) → Follows code.now program
        → IsReplayState code.now (record { program = program; procs = procs; fuel = fuel }) [] processes.items) }
{
    let mut processes = Vec::with_capacity(alloc, procs as usize)?;
    for number in 0..procs {
        let pending = PendingProc::take(alloc, code, number, procs, fuel)?;
        processes.push(pending)?;
    }
    Ok(processes)
}

// Whether any entry is a fault.
fn has_fault(history: &PackedHistory) -> bool
    ensures { result ≡ fault_in history.now.items }
{
    'entries: for entry in history.iter() {
        if let Action::Fault { .. } = entry.act {
            return true;
        }
    }
    false
}

// Whether all processes have ended.
fn have_ended(processes: &[PendingProc]) -> bool
    ensures { result ≡ list_all (λ pending. pending.ended) processes.now }
{
    processes.iter().all(|pending| pending.ended)
}

// Whether at least one of the two holds. A function of its own for the prover: the caller's goals don't split.
fn one_of_two(one: bool, other: bool) -> bool
    ensures { result ≡ (one || other) }
{
    one || other
}

// The verdict on a trace that was replayed so far.
fn verdict_of(end: ReplayEnd, is_complete: bool, mut history: PackedHistory) -> Verdict
    requires { end.taken ≤ length history.items }
    ensures { Gives end is_complete history.items result }
{
    history.truncate(end.taken);
    if end.is_end && is_complete {
        Verdict::Run(history)
    } else {
        let first_wrong = history.len() as u64 + 1;
        Verdict::NoRun(first_wrong, history)
    }
}

// The verdict, under type-level terms that the caller has picked.
fn check_by<J: RunConfigOf, S: Source>(
    alloc: Global,
    checked: &Checked,
    procs: u32,
    fuel: u32,
    source: &mut S,
) -> Result<Verdict, TraceErr>
    requires within { IsWithinRunLimits procs fuel }
    requires terms { record { program = program_of checked.now.program.parts; procs = procs; fuel = fuel } ≡ J.config }
    ensures never_falls { (S.state source.old).faults ≤ (S.state source.new).faults }
    ensures same { SameFiles (S.state source.old) (S.state source.new) }
    ensures keeps { IfOk result (λ v. HasRun (record { program = program_of checked.now.program.parts; procs = procs; fuel = fuel }) v) }
    ensures judges { IfOk result (λ v. (S.state source.old).tells ≡ true
        → Judges (record { program = program_of checked.now.program.parts; procs = procs; fuel = fuel }) (S.state source.old).left v) }
    ensures read { IfErr result (λ e. e ≡ Read → Rose (S.state source.old).faults (S.state source.new).faults) }
    ensures failed { (S.state source.old).faults < (S.state source.new).faults → result ≡ Err Read }
{
    answers_fit(checked);
    let code = lower(alloc, checked)?;
    let mut processes = start_processes(alloc, &code, procs, fuel)?;
    let mut store = Store::<J>::new(alloc, checked, procs, fuel)?;
    let end = replay_lines(alloc, &code, &mut processes, &mut store, source)?;
    let is_complete = one_of_two(have_ended(&processes), has_fault(store.history()));
    Ok(verdict_of(end, is_complete, store.into_history()))
}

/// Checks whether the rest of a source is the trace of a complete run of a checked program, with `procs` processes and `fuel` ticks for
/// each.
///
/// Each line names the process whose next entry it has to be. The source is read in blocks, and one line is held at a time. `Err(Read)`
/// comes exactly if the source's count of faults is greater after the call than before, `Err(Memory)` when out of memory.
pub fn check_trace<S: Source>(
    alloc: Global,
    checked: &Checked,
    procs: u32,
    fuel: u32,
    source: &mut S,
) -> Result<Verdict, TraceErr>
    requires within { IsWithinRunLimits procs fuel }
    ensures never_falls { (S.state source.old).faults ≤ (S.state source.new).faults }
    ensures same { SameFiles (S.state source.old) (S.state source.new) }
    ensures keeps { IfOk result (λ v. HasRun (record { program = program_of checked.now.program.parts; procs = procs; fuel = fuel }) v) }
    ensures judges { IfOk result (λ v. (S.state source.old).tells ≡ true
        → Judges (record { program = program_of checked.now.program.parts; procs = procs; fuel = fuel }) (S.state source.old).left v) }
    ensures read { IfErr result (λ e. e ≡ Read → Rose (S.state source.old).faults (S.state source.new).faults) }
    ensures failed { (S.state source.old).faults < (S.state source.new).faults → result ≡ Err Read }
{
    check_by::<Brand, S>(alloc, checked, procs, fuel, source)
}
