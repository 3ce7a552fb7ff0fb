// Differential test of the two executions of a program: runs its code on worker threads, executes each process by the syntax trees along
// the resulting history, and replays the history on one thread.

ghost use Rattle.std.specs.Prelude.{◌≤◌, ◌<◌, IfSome};
ghost use Rattle.ti_code.specs.Follows.{Follows};
ghost use Rattle.ti_lang.specs.Program.Views.{program_of};
ghost use Rattle.ti_store.specs.Conditions.{IsWithinRunLimits};

use crate::by_code::next_by_code;
use crate::by_trees::follow;
use crate::course::{Course, Limits, Stray, is_same, next_in};
use crate::phases::checked_of;
use crate::replay::is_replayed;
use std::alloc::Global;
use std::sync::Wait;
use std::thread::Threads;
use ti_base::Next;
use ti_code::Code;
use ti_history::PackedHistory;
use ti_io::OpenGate;
use ti_lower::lower;
use ti_rules::Checked;
use ti_runtime::{How, RunEnd, run};

/// The first difference between the two executions of a process.
#[derive(Clone, Copy)]
pub(crate) struct Parting {
    /// The process.
    pub number: u32,
    /// The index of the event in the history, or the history's length if the difference is after its last event.
    pub entry: usize,
    /// What the code does next there; none if that isn't known.
    pub expected: Option<Next>,
    /// What the trees do next there; none if that isn't known.
    pub found: Option<Next>,
}

/// The result of comparing the two executions of a program.
#[derive(Clone, Copy)]
pub(crate) enum Comparison {
    /// The trees agree with all events, of which this is the number, and the replay yields the same history.
    Agrees(usize),
    /// The trees of a process differ from its code.
    Parts(Parting),
    /// The source is rejected, or memory runs out while it is compiled.
    Refused,
    /// The run is out of memory.
    Memory,
    /// An event in the history belongs to no process of the run.
    Stranger,
    /// The replay on one thread, in the order of the history, yields other events.
    Other,
}

/// A checked program, its code, and the result of running the code.
#[derive(Drop)]
struct Ran {
    checked: Checked,
    code: Code,
    end: RunEnd,
}

/// Compiles a checked program to code; none if memory runs out.
fn code_of(alloc: Global, checked: &Checked) -> Option<Code>
    ensures { IfSome result (λ code. Follows code (program_of checked.now.program.parts)) }
{
    match lower(alloc, checked) {
        Ok(code) => Some(code),
        Err(_) => None,
    }
}

/// Compiles a source and runs its code with `workers` workers; none if the source is rejected or memory runs out while it is compiled.
fn ran_of<R: AllocGlobal + Threads + Wait + Sync>(
    rt: &R,
    text: &[u8],
    limits: Limits,
    workers: u32,
) -> Option<Ran>
    requires limits { IsWithinRunLimits limits.procs limits.fuel }
    requires workers { 1 ≤ workers }
{
    let alloc = rt.alloc();
    let checked = checked_of(alloc, text)?;
    let code = code_of(alloc, &checked)?;
    let Limits { procs, fuel } = limits;
    let end = run(rt, alloc, &checked, &code, procs, workers, fuel, &OpenGate);
    Some(Ran { checked, code, end })
}

/// Whether a process may have this next when a run is over: if all processes have terminated, its end only.
fn may_stand(how: How, next: Next) -> bool {
    match how {
        How::Ended => matches!(next, Next::End(_)),
        How::Faulted | How::Memory => true,
    }
}

/// Whether both executions know what is next after the history, and agree, and the run may be over there.
fn is_agreed(how: How, expected: Option<Next>, found: Option<Next>) -> bool {
    match (expected, found) {
        (Some(expected), Some(found)) => is_same(expected, found) && may_stand(how, found),
        _ => false,
    }
}

/// What the event with this index says that its process did next; none if there is no such event.
fn expected_at(history: &PackedHistory, n: usize) -> Option<Next> {
    match history.iter().nth(n) {
        Some(entry) => Some(next_in(&entry)),
        None => None,
    }
}

/// The number of events of process `number`, if its trees agree with them and, after them, with its code. Error: the first difference.
fn compare_process(alloc: Global, ran: &Ran, limits: Limits, number: u32) -> Result<usize, Parting>
    requires few { limits.procs ≤ 32 }
    requires number { number < limits.procs }
{
    let history = &ran.end.history;
    match follow(alloc, &ran.checked, limits, number, history) {
        Err(Stray { entry, next }) => Err(Parting {
            number,
            entry,
            expected: expected_at(history, entry),
            found: next,
        }),
        Ok(Course { entries, next }) => {
            let expected = next_by_code(alloc, &ran.code, limits, number, history);
            if is_agreed(ran.end.how, expected, next) {
                Ok(entries)
            } else {
                Err(Parting {
                    number,
                    entry: history.len(),
                    expected,
                    found: next,
                })
            }
        }
    }
}

/// The number of events of all processes, if their trees agree. Error: the first difference in the first process that has one.
fn all_compared(alloc: Global, ran: &Ran, limits: Limits) -> Result<usize, Parting>
    requires { limits.procs ≤ 32 }
{
    let mut entries = 0usize;
    for number in 0..limits.procs {
        entries = entries.wrapping_add(compare_process(alloc, ran, limits, number)?);
    }
    Ok(entries)
}

/// The result for a run whose trees agree with this number of events: checks that these are all events, and replays the history.
fn judged_whole(alloc: Global, ran: &Ran, limits: Limits, entries: usize) -> Comparison
    requires { IsWithinRunLimits limits.procs limits.fuel }
{
    let history = &ran.end.history;
    if entries != history.len() {
        return Comparison::Stranger;
    }
    if is_replayed(alloc, &ran.checked, limits, history) {
        Comparison::Agrees(entries)
    } else {
        Comparison::Other
    }
}

/// The result for a run: compares all processes, and then the history as a whole.
fn judged_run(alloc: Global, ran: &Ran, limits: Limits) -> Comparison
    requires { IsWithinRunLimits limits.procs limits.fuel }
{
    if matches!(ran.end.how, How::Memory) {
        return Comparison::Memory;
    }
    match all_compared(alloc, ran, limits) {
        Ok(entries) => judged_whole(alloc, ran, limits, entries),
        Err(parting) => Comparison::Parts(parting),
    }
}

/// Compiles a source, runs it within these limits with `workers` workers, and compares the two executions.
pub(crate) fn compare_source<R: AllocGlobal + Threads + Wait + Sync>(
    rt: &R,
    text: &[u8],
    limits: Limits,
    workers: u32,
) -> Comparison
    requires limits { IsWithinRunLimits limits.procs limits.fuel }
    requires workers { 1 ≤ workers }
{
    match ran_of(rt, text, limits, workers) {
        Some(ran) => judged_run(rt.alloc(), &ran, limits),
        None => Comparison::Refused,
    }
}
