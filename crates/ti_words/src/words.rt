// The entry point: reads the command line, and checks the values of options.
ghost use Rattle.std.specs.Prelude.{◌≡◌, map, option_map, string_bytes, None, Some, IfErr, IfOk, MatchOption};
ghost use Rattle.ti_words.specs.Job.{against_of, file_of, job_by, job_of, mode_of, seed_of};
ghost use Rattle.ti_words.specs.Mirrors.Seen.{job_asked, values_seen};
ghost use Rattle.ti_words.specs.declared.error.WordsErr.TheVariants.{Usage};

use crate::arguments::{RawArgs, find_arguments};
use crate::error::WordsErr;
use crate::job::{FileName, Job, Mode};
use crate::numbers::number_within;
use std::alloc::Global;

// The maximum number of processes of a run.
const MOST_PROCS: u32 = 32;

// The maximum fuel of all processes of a run together.
const MOST_FUEL: u32 = 4_000_000;

// The default fuel of each process.
const DEFAULT_FUEL: u32 = 100_000;

// The default seed of a generated program.
const DEFAULT_SEED: u32 = 1;

/// A job that borrows its file names.
#[derive(Clone, Copy)]
pub struct JobRef<'a> {
    mode: Mode,
    procs: u32,
    workers: u32,
    fuel: u32,
    seed: u32,
    trace: bool,
    stats: bool,
    races: bool,
    file: &'a str,
    against: &'a str,
}

// The mode with this name; without one, `Run`. `None` if there is no such mode.
fn mode_of(word: Option<&str>) -> Option<Mode>
    ensures { result ≡ mode_of (option_map (λ s. s.now) word.entry) }
{
    match word {
        None => Some(Mode::Run),
        Some("run") => Some(Mode::Run),
        Some("check") => Some(Mode::Check),
        Some("code") => Some(Mode::Code),
        Some("gen") => Some(Mode::Gen),
        Some("verify") => Some(Mode::Verify),
        Some("infer") => Some(Mode::Infer),
        Some(_) => None,
    }
}

// The seed in this mode. `None` if it isn't a number from 0 to 2^32 - 1, or is given in a mode other than `Gen`.
fn seed_of(mode: Mode, word: Option<&str>) -> Option<u32>
    ensures { result ≡ seed_of mode (option_map (λ s. s.now) word.entry) }
{
    match (mode, word) {
        (Mode::Gen, _) => number_within(0, u32::MAX, DEFAULT_SEED, word),
        (_, None) => Some(DEFAULT_SEED),
        (_, Some(_)) => None,
    }
}

// The name of the source file in this mode, which is empty in mode `Gen`. `None` if it is missing in another mode, or given in that mode.
fn file_of<'a>(mode: Mode, word: Option<&'a str>) -> Option<&'a str>
    ensures { option_map (λ s. s.now) result ≡ file_of mode (option_map (λ s. s.now) word.entry) }
{
    match (mode, word) {
        (Mode::Gen, None) => Some(""),
        (Mode::Gen, Some(_)) => None,
        (_, word) => word,
    }
}

// The name of the trace in this mode, which is empty in all modes but `Verify`. `None` if it is missing in that mode, or given in another
// one.
fn against_of<'a>(mode: Mode, word: Option<&'a str>) -> Option<&'a str>
    ensures { option_map (λ s. s.now) result ≡ against_of mode (option_map (λ s. s.now) word.entry) }
{
    match (mode, word) {
        (Mode::Verify, word) => word,
        (_, None) => Some(""),
        (_, Some(_)) => None,
    }
}

// The job of these values; `None` if one of them isn't valid, or the fuel of all processes together is too much.
fn job_by<'a>(given: RawArgs<'a>) -> Option<JobRef<'a>>
    ensures { MatchOption result (job_by (values_seen given.entry) ≡ None) (λ a. job_by (values_seen given.entry) ≡ Some (job_asked a)) }
{
    let mode = mode_of(given.mode)?;
    let file = file_of(mode, given.file)?;
    let against = against_of(mode, given.against)?;
    let seed = seed_of(mode, given.seed)?;
    let procs = number_within(1, MOST_PROCS, 1, given.procs)?;
    let workers = number_within(1, procs, procs, given.workers)?;
    let fuel = number_within(1, MOST_FUEL, DEFAULT_FUEL, given.fuel)?;
    if procs * fuel > MOST_FUEL {
        return None;
    }
    Some(JobRef {
        mode,
        procs,
        workers,
        fuel,
        seed,
        trace: given.trace,
        stats: given.stats,
        races: given.races,
        file,
        against,
    })
}

/// Parses the command-line arguments after the program's name. The error is `Usage` if they aren't a valid command, and `Memory` if it
/// runs out of memory.
pub fn read_words(alloc: Global, words: &[String]) -> Result<Job, WordsErr>
    ensures job { IfOk result (λ job. job_of (map string_bytes words.now) ≡ Some job) }
    ensures usage { IfErr result (λ e. e ≡ Usage → job_of (map string_bytes words.now) ≡ None) }
{
    let given = find_arguments(alloc, words)?;
    let Some(asked) = job_by(given) else {
        return Err(WordsErr::Usage);
    };
    let file = FileName::copy_of(alloc, asked.file)?;
    let against = FileName::copy_of(alloc, asked.against)?;
    Ok(Job {
        mode: asked.mode,
        procs: asked.procs,
        workers: asked.workers,
        fuel: asked.fuel,
        seed: asked.seed,
        trace: asked.trace,
        stats: asked.stats,
        races: asked.races,
        file,
        against,
    })
}
