// The call that is the command: reads the arguments, does the job, and writes the line on standard error.
ghost use Rattle.std.specs.Prelude.{◌≡◌, [], None, map, string_bytes};
ghost use Rattle.ti_top.specs.Clauses.{KeepsContract};
ghost use Rattle.ti_top.specs.Reports.{Watcher};

use crate::exit::{Exit, end_with};
use crate::job_result::JobResult;
use crate::run_job::run_job;
use std::alloc::{AllocGlobal, Global};
use std::sync::Wait;
use std::thread::Threads;
use ti_code::Code;
use ti_history::PackedHistory;
use ti_io::{Gate, Sink, Source};
use ti_watch::Watch;
use ti_words::{WordsErr, read_words};

/// The outcome of the command.
#[derive(Drop)]
pub struct Outcome {
    /// The status: 0 success, 1 the text is refused, 2 the run ended with a fault, 3 the arguments are no
    /// command, 4 the file or the trace can't be read, 5 a write failed, 6 out of memory, 7 the trace is
    /// that of no complete run.
    pub status: u8,
    /// The text that was read, or in mode gen the text that was generated.
    pub text: Vec<u8>,
    /// The code of the program. In the modes run, code and gen it is there with status 0 and 2, and may
    /// be there with status 5; in the modes run and gen it may also be there with status 6. Otherwise
    /// there is none.
    pub code: Option<Code>,
    /// The entries of the run, in order. In mode verify those of the trace: of its complete run, or of the lines before the wrong one.
    pub history: PackedHistory,
    /// For each process, in the order of their numbers, how many instructions of the code it has finished, given the answers to its entries, if
    /// the program was run and the history is complete. If nothing was run it is empty.
    pub done: Vec<u64>,
}

impl Outcome {
    // Nothing was read and nothing was run.
    fn nothing(alloc: Global, status: u8) -> Self
        ensures status { result.status ≡ status }
        ensures text { result.text.items ≡ [] }
        ensures code { result.code ≡ None }
        ensures history { result.history.items ≡ [] }
        ensures done { result.done.items ≡ [] }
    {
        Outcome {
            status,
            text: Vec::new(alloc),
            code: None,
            history: PackedHistory::new(alloc),
            done: Vec::new(alloc),
        }
    }
}

/// Does what the command line `titan WORDS` does, and returns the outcome; `words` are the arguments after the program's name.
///
/// It reads the file that the arguments name and compiles it, or refuses it with a line on `err`. Then, by mode:
///
/// - `run` runs the program, and writes its output and then the reports of the watchers whose option is given to `out`;
/// - `check` writes nothing;
/// - `code` writes the listing of the program's code;
/// - `gen` names no file: it generates a program from a seed, runs it, and writes a summary in place of its output;
/// - `verify` checks whether a trace is that of a complete run of the program, and names the first wrong line on `err` if not;
/// - `infer` ignores the marks of single values in the program, and writes the greatest set of marks with which it is accepted.
///
/// The arguments are `--mode MODE`, `--procs N`, `--workers N`, `--fuel N`, `--trace`, `--stats` and `--races`, each at most once, and a
/// file's name; in mode gen `--seed N` in its place, and in mode verify `--against TRACE` as well. docs/COMMAND.md has their ranges. The
/// contract is `KeepsContract`, with one record of `specs/Clauses.antt` for each clause.
pub fn titan_top<R: AllocGlobal + Threads + Wait + Sync, S: Source, K: Sink, G: Gate + Sync>(
    rt: &R,
    words: &[String],
    source: &mut S,
    out: &mut K,
    err: &mut K,
    gate: &G,
    watchers: Vec<Box<dyn Watch>>,
) -> Outcome
    ensures { KeepsContract (record {
      words = map string_bytes words.now;
      watchers = map {B = Watcher} (λ w. record { kind = kind_of w; told = told w }) watchers.items;
      source = S.state source.old;
      source_after = S.state source.new;
      out = K.state out.old;
      out_after = K.state out.new;
      err = K.state err.old;
      err_after = K.state err.new;
      status = result.status;
      text = result.text.items;
      code = result.code;
      history = result.history.items;
      done = result.done.items;
    }) }
{
    let alloc = rt.alloc();
    let job = match read_words(alloc, words) {
        Ok(job) => job,
        Err(WordsErr::Usage) => {
            return Outcome::nothing(alloc, end_with(err, Exit::NoCommand, ""));
        }
        Err(WordsErr::Memory) => {
            return Outcome::nothing(alloc, end_with(err, Exit::NoMemory, ""));
        }
    };
    let mut text = Vec::new(alloc);
    let job_result = run_job(rt, alloc, &job, source, out, gate, watchers, &mut text);
    let result = JobResult::of(alloc, job_result);
    let status = end_with(err, result.ending, job.file.as_str());
    Outcome {
        status,
        text,
        code: result.code,
        history: result.history,
        done: result.done,
    }
}
