// The result of a job: how it ends, and what it leaves.
ghost use Rattle.std.specs.Prelude.{◌≡◌, [], None, Some, Ok};
ghost use Rattle.ti_top.specs.Mirrors.JobView.{artifacts_of, ending_of};
ghost use Rattle.ti_top.specs.Mirrors.Verifying.{ending_by, run_by};

use crate::exit::Exit;
use std::alloc::Global;
use ti_code::Code;
use ti_history::PackedHistory;
use ti_runtime::RunEnd;
use ti_trace_check::Verdict;

/// The result of a job: its ending, the code of the program, the entries of the run or of the trace, and for each process how many
/// instructions it has finished.
#[derive(Drop)]
pub struct JobResult {
    pub ending: Exit,
    pub code: Option<Code>,
    pub history: PackedHistory,
    pub done: Vec<u64>,
}

impl JobResult {
    /// The result of a job. A job that ended with no result leaves no code and no run.
    pub fn of(alloc: Global, job: Result<JobResult, Exit>) -> Self
        ensures ending { result.ending ≡ ending_of job }
        ensures artifacts { artifacts_of (Ok result) ≡ artifacts_of job }
    {
        match job {
            Ok(result) => result,
            Err(ending) => JobResult::nothing(alloc, ending),
        }
    }

    /// The job ends so, with no code and no run.
    pub fn nothing(alloc: Global, ending: Exit) -> Self
        ensures ending { result.ending ≡ ending }
        ensures artifacts { artifacts_of (Ok result)
            ≡ record { code = None; history = []; done = [] } }
    {
        JobResult {
            ending,
            code: None,
            history: PackedHistory::new(alloc),
            done: Vec::new(alloc),
        }
    }

    /// The job ends so after a run by this code.
    pub fn of_run(ending: Exit, code: Code, end: RunEnd) -> Self
        ensures ending { result.ending ≡ ending }
        ensures artifacts { artifacts_of (Ok result)
            ≡ record { code = Some code; history = end.history.items; done = end.done.items } }
    {
        JobResult {
            ending,
            code: Some(code),
            history: end.history,
            done: end.done,
        }
    }

    /// The job ends with the verdict on a trace.
    pub fn by_verdict(alloc: Global, verdict: Verdict) -> Self
        ensures ending { result.ending ≡ ending_by (Ok verdict) }
        ensures artifacts { artifacts_of (Ok result)
            ≡ record { code = None; history = run_by (Ok verdict); done = [] } }
    {
        let (ending, history) = match verdict {
            Verdict::Run(history) => (Exit::Done, history),
            Verdict::NoRun(line, history) => (Exit::NoRun(line), history),
        };
        JobResult {
            ending,
            code: None,
            history,
            done: Vec::new(alloc),
        }
    }
}
