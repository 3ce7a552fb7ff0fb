// The watchers of a run, and their reports.
ghost use Rattle.std.specs.Prelude.{◌≡◌, ◌++◌, ◌∷◌, [], map, OnOk, OnErr};
ghost use Rattle.ti_io.specs.Sink.{Writes};
ghost use Rattle.ti_watch.specs.Reports.{watch_text};
ghost use Rattle.ti_top.specs.Reports.{Watcher, is_kind_wanted, wanted_watchers};
ghost use Rattle.ti_top.specs.Mirrors.Leaving.{HasNoFailure, ReportsLeave};
ghost use Rattle.ti_top.specs.Mirrors.Reporting.{WritesReports};

use std::alloc::Global;
use ti_base::{Entry, Memory};
use ti_history::PackedHistory;
use ti_io::{Failed, Sink, write_piece};
use ti_watch::Watch;
use ti_words::Job;

/// How writing the reports ended.
#[derive(Clone, Copy)]
pub enum ReportEnd {
    /// All are written.
    Written,
    /// A write or a flush failed.
    CantWrite,
    /// Out of memory.
    NoMemory,
}

// Whether a watcher's option is given.
fn is_asked_for(watcher: &Box<dyn Watch>, trace: bool, stats: bool, races: bool) -> bool
    ensures { result ≡ is_kind_wanted trace stats races (kind_of watcher.now) }
{
    match watcher.kind() {
        0 => trace,
        1 => stats,
        2 => races,
        _ => false,
    }
}

/// Keeps the watchers whose option is given, and drops the others.
pub fn keep_wanted(watchers: &mut Vec<Box<dyn Watch>>, job: &Job)
    ensures { map {B = Watcher} (λ w. record { kind = kind_of w; told = told w }) watchers.new.items
        ≡ wanted_watchers job.now (map {B = Watcher} (λ w. record { kind = kind_of w; told = told w }) watchers.old.items) }
{
    let trace = job.trace;
    let stats = job.stats;
    let races = job.races;
    watchers.retain(
        |w: &Box<dyn Watch>| -> bool
            ensures { result ≡ is_kind_wanted trace stats races (kind_of w.now) }
        { is_asked_for(w, trace, stats, races) },
    );
}

// Shows a watcher one entry. A function of its own for the prover: the contract of the call through `dyn` is stated once.
fn see_one(watcher: &mut Box<dyn Watch>, entry: &Entry) -> Result<(), Memory>
    ensures kind { kind_of watcher.new ≡ kind_of watcher.old }
    ensures told { OnOk result (told watcher.new ≡ told watcher.old ++ entry.now ∷ []) }
{
    watcher.see(entry)
}

// Appends a watcher's report. A function of its own for the prover: the contract of the call through `dyn` is stated once.
fn report_one(watcher: &Box<dyn Watch>, out: &mut Vec<u8>) -> Result<(), Memory>
    ensures { OnOk result (out.new.items ≡ out.old.items ++ watch_text (kind_of watcher.now) (told watcher.now)) }
{
    watcher.report(out)
}

// Shows a watcher the entries of a history in order.
fn tell(watcher: &mut Box<dyn Watch>, history: &PackedHistory) -> Result<(), Memory>
    ensures kind { kind_of watcher.new ≡ kind_of watcher.old }
    ensures told { OnOk result (told watcher.new ≡ told watcher.old ++ history.now.items) }
{
    'entries: for entry in history.iter() {
        see_one(watcher, &entry)?;
    }
    Ok(())
}

/// Writes a text in one write, and flushes standard output.
pub fn write_text<K: Sink>(out: &mut K, text: &[u8]) -> Result<(), Failed>
    ensures written { Writes text.now (K.state out.old) (K.state out.new) result }
    ensures unfailed { OnOk result (HasNoFailure (K.state out.old) (K.state out.new)) }
{
    write_piece(out, text)?;
    out.flush()
}

// Shows a watcher the history, writes its report, and drops it.
fn write_report<K: Sink>(
    alloc: Global,
    watcher: Box<dyn Watch>,
    history: &PackedHistory,
    out: &mut K,
) -> ReportEnd
    ensures reported { WritesReports (record { kind = kind_of watcher; told = told watcher } ∷ []) history.now.items (K.state out.old)
        (K.state out.new) result }
    ensures leaves { ReportsLeave result (K.state out.old) (K.state out.new) }
{
    let mut watcher = watcher;
    if tell(&mut watcher, history).is_err() {
        return ReportEnd::NoMemory;
    }
    let mut text = Vec::new(alloc);
    if report_one(&watcher, &mut text).is_err() {
        return ReportEnd::NoMemory;
    }
    match write_text(out, &text) {
        Ok(()) => ReportEnd::Written,
        Err(_) => ReportEnd::CantWrite,
    }
}

/// Shows each watcher the history and writes its report, one watcher after the other.
pub fn write_reports<K: Sink>(
    alloc: Global,
    watchers: Vec<Box<dyn Watch>>,
    history: &PackedHistory,
    out: &mut K,
) -> ReportEnd
    ensures reported { WritesReports (map {B = Watcher} (λ w. record { kind = kind_of w; told = told w }) watchers.items) history.now.items
        (K.state out.old) (K.state out.new) result }
    ensures leaves { ReportsLeave result (K.state out.old) (K.state out.new) }
{
    'watchers: for watcher in watchers {
        match write_report(alloc, watcher, history, out) {
            ReportEnd::Written => {}
            stopped => return stopped,
        }
    }
    ReportEnd::Written
}
