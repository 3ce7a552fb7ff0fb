// Replaying a trace: for each line the process that it names takes its next entry, and the entry's line is compared.
ghost use Rattle.std.specs.Prelude.{◌≡◌, ◌<◌, ◌≤◌, [], true, IfOk, IfErr};
ghost use Rattle.ti_io.specs.Faults.{Rose};
ghost use Rattle.ti_io.specs.Source.{SameFiles};
ghost use Rattle.ti_lang.specs.Meaning.Runs.{IsRun};
ghost use Rattle.ti_store.specs.Stores.{config_of};
ghost use Rattle.ti_pending.specs.UpToDate.{IsUpToDate};
ghost use Rattle.ti_trace_check.specs.declared.error.TraceErr.TheVariants.{Read};
ghost use Rattle.ti_trace_check.specs.Mirrors.Replaying.{AcceptsActions, IsReplayState, TurnLeaves, ReplaysLine, ReplayOutcome, LeavesText};

use crate::error::TraceErr;
use crate::line::entry_line;
use crate::line_reader::LineReader;
use crate::naming::process_in;
use std::alloc::Global;
use ti_base::Memory;
use ti_code::Code;
use ti_io::Source;
use ti_pending::PendingProc;
use ti_store::{ActErr, RunConfigOf, Store};

/// How far a trace was replayed: how many lines were right, and whether the trace ended after them.
#[derive(Clone, Copy)]
pub struct ReplayEnd {
    pub taken: usize,
    pub is_end: bool,
}

// Lets a process perform its next action. False if there is none that it can perform now: it has ended or waits, or the run has.
fn step_in<J: RunConfigOf>(
    pending: &mut PendingProc,
    alloc: Global,
    code: &Code,
    store: &mut Store<J>,
    number: u32,
) -> Result<bool, Memory>
    requires open { AcceptsActions code.now store.old }
    requires number { number < store.old.procs }
    requires run { IsRun (config_of store.old) store.old.entries }
    requires seated { IsUpToDate code.now (config_of store.old) store.old.entries number pending.old }
    ensures leaves { IfOk result (λ took. TurnLeaves code.now (config_of store.old) store.old.entries number pending.old store.new.entries
        pending.new took) }
    ensures store { store.new ≡ record store.old { entries = store.new.entries } }
{
    if pending.ended {
        return Ok(false);
    }
    let next = pending.advance(alloc, code)?;
    match pending.act_in(alloc, next, store, number) {
        Ok(()) => Ok(true),
        Err(ActErr::Faulted(_)) => Ok(true),
        Err(ActErr::NotYet) => Ok(false),
        Err(ActErr::Halted) => Ok(false),
        Err(ActErr::Memory) => Err(Memory),
    }
}

// Lets the process that a line names take its next entry. False if it can't take one, or the line isn't that of the entry.
fn replay_line<J: RunConfigOf>(
    alloc: Global,
    code: &Code,
    processes: &mut Vec<PendingProc>,
    store: &mut Store<J>,
    line: &[u8],
) -> Result<bool, Memory>
    requires open { AcceptsActions code.now store.old }
    requires stands { IsReplayState code.now (config_of store.old) store.old.entries processes.old.items }
    ensures meets { IfOk result (λ met. ReplaysLine code.now (config_of store.old) store.old.entries processes.old.items store.new.entries
        processes.new.items line.now met) }
    ensures store { store.new ≡ record store.old { entries = store.new.entries } }
{
    let number = store.history().len();
    let Some(p) = process_in(number, line) else {
        return Ok(false);
    };
    if p as usize >= processes.len() {
        return Ok(false);
    }
    if !step_in(&mut processes[p as usize], alloc, code, store, p)? {
        return Ok(false);
    }
    let Some(entry) = store.history().last() else {
        unreachable!()
    };
    Ok(entry_line(number, &entry).as_slice() == line)
}

/// Replays the lines of a trace, up to its end or its first wrong line.
pub fn replay_lines<J: RunConfigOf, S: Source>(
    alloc: Global,
    code: &Code,
    processes: &mut Vec<PendingProc>,
    store: &mut Store<J>,
    source: &mut S,
) -> Result<ReplayEnd, TraceErr>
    requires open { AcceptsActions code.now store.old }
    requires none { store.old.entries ≡ [] }
    requires stands { IsReplayState code.now (config_of store.old) store.old.entries processes.old.items }
    ensures never_falls { (S.state source.old).faults ≤ (S.state source.new).faults }
    ensures same { SameFiles (S.state source.old) (S.state source.new) }
    ensures came { IfOk result (λ end. ReplayOutcome code.now (config_of store.old) store.new.entries processes.new.items end) }
    ensures leaves { IfOk result (λ end. (S.state source.old).tells ≡ true
        → LeavesText (config_of store.old) (S.state source.old).left store.new.entries end) }
    ensures read { IfErr result (λ e. e ≡ Read → Rose (S.state source.old).faults (S.state source.new).faults) }
    ensures failed { (S.state source.old).faults < (S.state source.new).faults → result ≡ Err Read }
    ensures store { store.new ≡ record store.old { entries = store.new.entries } }
{
    let mut line_reader = LineReader::new();
    let mut line = line_reader.next_line(source)?;
    let mut taken = 0;
    'lines: while !line.as_slice().is_empty() {
        if !replay_line(alloc, code, processes, store, line.as_slice())? {
            return Ok(ReplayEnd {
                taken,
                is_end: false,
            });
        }
        taken = store.history().len();
        line = line_reader.next_line(source)?;
    }
    Ok(ReplayEnd {
        taken,
        is_end: true,
    })
}
