// Each mode's work, up to the line on standard error.
ghost use Rattle.std.specs.Prelude.{◌≡◌, ℕ, [], None, Ok, map};
ghost use Rattle.ti_align.specs.Alignment.{IsAligned};
ghost use Rattle.ti_code.specs.Follows.{Follows};
ghost use Rattle.ti_lang.specs.Meaning.Determinacy.{Determines};
ghost use Rattle.ti_lang.specs.Meaning.Processes.{RunConfig};
ghost use Rattle.ti_io.specs.Sink.{SinkState};
ghost use Rattle.ti_lang.specs.Meaning.Races.{races};
ghost use Rattle.ti_lang.specs.Meaning.Spots.{races_told};
ghost use Rattle.ti_lang.specs.Program.Views.{program_of};
ghost use Rattle.ti_lower.specs.Programs.{program_code};
ghost use Rattle.ti_runtime.specs.Ran.{Ran};
ghost use Rattle.ti_top.specs.Mirrors.Leaving.{LeavesOut};
ghost use Rattle.ti_top.specs.Mirrors.Line.{HasLineRoom};
ghost use Rattle.ti_top.specs.Mirrors.RunEnds.{RunEnds};
ghost use Rattle.ti_top.specs.Mirrors.Verifying.{VerifyResult};
ghost use Rattle.ti_top.specs.Mirrors.JobView.{IsInRanges, artifacts_of, ending_of, ending_after as after_spec, ReportsAfter, RunSays, RunTextSays, CheckTextSays, CodeTextSays, InferTextSays, TextSays, SeedSays, FileDone, JobSays};
ghost use Rattle.ti_top.specs.Reports.{Watcher, wanted_watchers};
ghost use Rattle.ti_top.specs.Run.{RunsProgram, run_of};

use crate::coding::write_code;
use crate::compiling::compile;
use crate::exit::Exit;
use crate::fault::Fault;
use crate::inferring::{infer_marks, write_marks};
use crate::job_result::JobResult;
use crate::printing::write_head;
use crate::reading::{ReadEnd, read_whole};
use crate::reports::{ReportEnd, keep_wanted, write_reports};
use crate::run_line::RunLine;
use crate::verifying::verify_file;
use std::alloc::Global;
use std::sync::Wait;
use std::thread::Threads;
use ti_align::actions_formed;
use ti_code::Code;
use ti_gen::gen_source;
use ti_history::PackedHistory;
use ti_io::{Gate, Sink, Source};
use ti_lower::lower;
use ti_race::{determinate, races_are_told};
use ti_rules::Checked;
use ti_runtime::{How, RunEnd, run};
use ti_watch::Watch;
use ti_words::{Job, Mode};

// The ending of a run whose output was written completely.
fn ending_of_run(end: &RunEnd, code: &Code) -> Exit
    requires { (s : RunConfig) × (workers : ℕ) × Ran code.now s workers end.now }
    ensures { (s : RunConfig) (workers : ℕ) → Ran code.now s workers end.now → RunEnds s end.now.history.items result }
{
    match end.how {
        How::Ended => Exit::Done,
        How::Faulted => match Fault::at_end(&end.history) {
            Some(fault) => Exit::Faulted(fault),
            None => unreachable!(),
        },
        How::Memory => Exit::NoMemory,
    }
}

// The ending after the reports.
fn ending_after(reports: ReportEnd, ending: Exit) -> Exit
    ensures { result ≡ after_spec reports ending }
{
    match reports {
        ReportEnd::Written => ending,
        ReportEnd::CantWrite => Exit::CantWrite,
        ReportEnd::NoMemory => Exit::NoMemory,
    }
}

// Writes the reports on a run, unless the run was cut short.
fn report_after<K: Sink>(
    alloc: Global,
    ended: Exit,
    history: &PackedHistory,
    watchers: Vec<Box<dyn Watch>>,
    out: &mut K,
) -> Exit
    ensures reports { ReportsAfter ended (map {B = Watcher} (λ w. record { kind = kind_of w; told = told w }) watchers.items) history.now.items
        (K.state out.old) (K.state out.new) result }
    ensures leaves { LeavesOut result (K.state out.old) (K.state out.new) }
{
    match ended {
        Exit::NoMemory => ended,
        _ => ending_after(write_reports(alloc, watchers, history, out), ended),
    }
}

// Runs a program by its code. If no entry of the run is part of a race, the run determines every other one (a law that is called here).
fn run_by_code<R: Threads + Wait + Sync, G: Gate + Sync>(
    rt: &R,
    alloc: Global,
    job: &Job,
    checked: &Checked,
    code: &Code,
    gate: &G,
) -> RunEnd
    requires ranges { IsInRanges job.now }
    requires aligned { IsAligned (program_of checked.now.program.parts) }
    requires follows { Follows code.now (program_of checked.now.program.parts) }
    ensures ran { Ran code.now (run_of (program_of checked.now.program.parts) job.now) job.now.workers result }
    ensures determines { Determines (run_of (program_of checked.now.program.parts) job.now) result.history.items }
    ensures told { races_told result.history.items ≡ races result.history.items }
{
    actions_formed(checked);
    races_are_told();
    let end = run(
        rt,
        alloc,
        checked,
        code,
        job.procs,
        job.workers,
        job.fuel,
        gate,
    );
    determinate(&checked.program, job.procs, job.fuel, &end.history);
    end
}

// Runs a program by its code, and writes its lines or its summary, and the reports on it. If the run is out of memory, the lines of the entries
// so far are written.
fn run_program<R: Threads + Wait + Sync, K: Sink, G: Gate + Sync>(
    rt: &R,
    alloc: Global,
    job: &Job,
    checked: &Checked,
    code: Code,
    line: &mut RunLine,
    gate: &G,
    watchers: Vec<Box<dyn Watch>>,
    out: &mut K,
) -> JobResult
    requires ranges { IsInRanges job.now }
    requires mode { RunsProgram job.now.mode }
    requires aligned { IsAligned (program_of checked.now.program.parts) }
    requires room { HasLineRoom checked.now.program.parts.literals.items line.old }
    requires code { code ≡ program_code (program_of checked.now.program.parts) }
    requires follows { Follows code (program_of checked.now.program.parts) }
    ensures says { RunSays (program_of checked.now.program.parts) job.now
        (map {B = Watcher} (λ w. record { kind = kind_of w; told = told w }) watchers.items) (K.state out.old) (K.state out.new)
        (artifacts_of (Ok result)) result.ending }
    ensures leaves { LeavesOut result.ending (K.state out.old) (K.state out.new) }
{
    let end = run_by_code(rt, alloc, job, checked, &code, gate);
    let ended = ending_of_run(&end, &code);
    match write_head(out, line, job.mode, ended, &checked.program, &end.history) {
        Ok(()) => {
            let ending = report_after(alloc, ended, &end.history, watchers, out);
            JobResult::of_run(ending, code, end)
        }
        Err(_) => JobResult::of_run(Exit::CantWrite, code, end),
    }
}

// Mode run and gen: compiles a whole text and runs its program. All that its output needs is allocated before the run.
fn run_text<R: Threads + Wait + Sync, K: Sink, G: Gate + Sync>(
    rt: &R,
    alloc: Global,
    job: &Job,
    text: &[u8],
    gate: &G,
    watchers: Vec<Box<dyn Watch>>,
    out: &mut K,
) -> Result<JobResult, Exit>
    requires ranges { IsInRanges job.now }
    requires mode { RunsProgram job.now.mode }
    ensures says { RunTextSays (ending_of result) job.now
        (map {B = Watcher} (λ w. record { kind = kind_of w; told = told w }) watchers.items)
        text.now (K.state out.old) (K.state out.new) (artifacts_of result) }
    ensures leaves { LeavesOut (ending_of result) (K.state out.old) (K.state out.new) }
{
    let checked = compile(alloc, text)?;
    let code = lower(alloc, &checked)?;
    let mut line = RunLine::with_room(alloc, &checked.program.parts.literals)?;
    Ok(run_program(
        rt, alloc, job, &checked, code, &mut line, gate, watchers, out,
    ))
}

// Mode check: compiles a whole text.
fn check_text(alloc: Global, text: &[u8]) -> Result<JobResult, Exit>
    ensures says { (out : SinkState) → CheckTextSays (ending_of result) text.now out out
        (artifacts_of result) }
    ensures leaves { (out : SinkState) → LeavesOut (ending_of result) out out }
{
    compile(alloc, text)?;
    Ok(JobResult::nothing(alloc, Exit::Done))
}

// Mode code: compiles a whole text and writes its code.
fn code_text<K: Sink>(alloc: Global, text: &[u8], out: &mut K) -> Result<JobResult, Exit>
    ensures says { CodeTextSays (ending_of result) text.now (K.state out.old) (K.state out.new)
        (artifacts_of result) }
    ensures leaves { LeavesOut (ending_of result) (K.state out.old) (K.state out.new) }
{
    let checked = compile(alloc, text)?;
    write_code(alloc, &checked, out)
}

// Mode infer: infers the marks of a whole text, and writes them.
fn infer_text<K: Sink>(alloc: Global, text: &[u8], out: &mut K) -> Result<JobResult, Exit>
    ensures says { InferTextSays (ending_of result) text.now (K.state out.old) (K.state out.new)
        (artifacts_of result) }
    ensures leaves { LeavesOut (ending_of result) (K.state out.old) (K.state out.new) }
{
    let marking = infer_marks(alloc, text)?;
    write_marks(alloc, &marking, out)?;
    Ok(JobResult::nothing(alloc, Exit::Done))
}

// What the mode of a job does with a whole text.
fn do_text<R: Threads + Wait + Sync, K: Sink, G: Gate + Sync>(
    rt: &R,
    alloc: Global,
    job: &Job,
    text: &[u8],
    gate: &G,
    watchers: Vec<Box<dyn Watch>>,
    out: &mut K,
) -> Result<JobResult, Exit>
    requires { IsInRanges job.now }
    ensures says { TextSays job.now.mode (ending_of result) job.now
        (map {B = Watcher} (λ w. record { kind = kind_of w; told = told w }) watchers.items)
        text.now (K.state out.old) (K.state out.new) (artifacts_of result) }
    ensures leaves { LeavesOut (ending_of result) (K.state out.old) (K.state out.new) }
{
    match job.mode {
        Mode::Run | Mode::Gen => run_text(rt, alloc, job, text, gate, watchers, out),
        Mode::Check | Mode::Verify => check_text(alloc, text),
        Mode::Code => code_text(alloc, text, out),
        Mode::Infer => infer_text(alloc, text, out),
    }
}

// Reads the file of a job, and does with it what the mode does.
fn run_file_job<R: Threads + Wait + Sync, S: Source, K: Sink, G: Gate + Sync>(
    rt: &R,
    alloc: Global,
    job: &Job,
    source: &mut S,
    out: &mut K,
    gate: &G,
    watchers: Vec<Box<dyn Watch>>,
    text: &mut Vec<u8>,
) -> Result<JobResult, Exit>
    requires ranges { IsInRanges job.now }
    requires none { text.old.items ≡ [] }
    ensures done { FileDone job.now (ending_of result) (record {
      watchers = map {B = Watcher} (λ w. record { kind = kind_of w; told = told w }) watchers.items;
      source = S.state source.old;
      source_after = S.state source.new;
      out = K.state out.old;
      out_after = K.state out.new;
      text = text.new.items;
      artifacts = artifacts_of result;
    }) }
    ensures leaves { LeavesOut (ending_of result) (K.state out.old) (K.state out.new) }
{
    match read_whole(source, job.file.as_str(), text) {
        ReadEnd::Whole => do_text(rt, alloc, job, text, gate, watchers, out),
        ReadEnd::CantRead => Err(Exit::CantRead),
        ReadEnd::NoMemory => Err(Exit::NoMemory),
    }
}

// Generates the text of a job's seed, and runs it.
fn run_seed_job<R: Threads + Wait + Sync, K: Sink, G: Gate + Sync>(
    rt: &R,
    alloc: Global,
    job: &Job,
    out: &mut K,
    gate: &G,
    watchers: Vec<Box<dyn Watch>>,
    text: &mut Vec<u8>,
) -> Result<JobResult, Exit>
    requires ranges { IsInRanges job.now }
    requires none { text.old.items ≡ [] }
    ensures says { SeedSays (ending_of result) job.now
        (map {B = Watcher} (λ w. record { kind = kind_of w; told = told w }) watchers.items)
        text.new.items (K.state out.old) (K.state out.new) (artifacts_of result) }
    ensures leaves { LeavesOut (ending_of result) (K.state out.old) (K.state out.new) }
{
    *text = gen_source(alloc, job.seed)?;
    do_text(rt, alloc, job, text, gate, watchers, out)
}

// Mode verify.
fn run_trace_job<S: Source>(
    alloc: Global,
    job: &Job,
    source: &mut S,
    text: &mut Vec<u8>,
) -> Result<JobResult, Exit>
    requires ranges { IsInRanges job.now }
    requires none { text.old.items ≡ [] }
    ensures verified { VerifyResult job.now (ending_of result) (S.state source.old)
        (S.state source.new) text.new.items (artifacts_of result).history }
    ensures no_code { (artifacts_of result).code ≡ None }
    ensures no_count { (artifacts_of result).done ≡ [] }
    ensures leaves { (out : SinkState) → LeavesOut (ending_of result) out out }
{
    let verdict = verify_file(alloc, job, source, text)?;
    Ok(JobResult::by_verdict(alloc, verdict))
}

/// Does the work of a job, up to the line on standard error: reads its file, or in mode gen generates the text of its seed, and then does what
/// the mode does. Watchers whose option isn't given are dropped first. Whatever the result, `text` has the text that was read or generated.
pub fn run_job<R: Threads + Wait + Sync, S: Source, K: Sink, G: Gate + Sync>(
    rt: &R,
    alloc: Global,
    job: &Job,
    source: &mut S,
    out: &mut K,
    gate: &G,
    watchers: Vec<Box<dyn Watch>>,
    text: &mut Vec<u8>,
) -> Result<JobResult, Exit>
    requires ranges { IsInRanges job.now }
    requires none { text.old.items ≡ [] }
    ensures says { JobSays job.now.mode job.now (ending_of result) (record {
      watchers = wanted_watchers job.now (map {B = Watcher} (λ w. record { kind = kind_of w; told = told w }) watchers.items);
      source = S.state source.old;
      source_after = S.state source.new;
      out = K.state out.old;
      out_after = K.state out.new;
      text = text.new.items;
      artifacts = artifacts_of result;
    }) }
    ensures leaves { LeavesOut (ending_of result) (K.state out.old) (K.state out.new) }
{
    let mut watchers = watchers;
    keep_wanted(&mut watchers, job);
    match job.mode {
        Mode::Run | Mode::Check | Mode::Code | Mode::Infer => run_file_job(
            rt, alloc, job, source, out, gate, watchers, text,
        ),
        Mode::Gen => run_seed_job(rt, alloc, job, out, gate, watchers, text),
        Mode::Verify => run_trace_job(alloc, job, source, text),
    }
}
