// Mode verify: a trace is checked against a program.
ghost use Rattle.std.specs.Prelude.{◌≡◌, ◌<◌, [], true, Some};
ghost use Rattle.ti_io.specs.Source.{content_of};
ghost use Rattle.ti_lang.specs.Program.Views.{program_of};
ghost use Rattle.ti_store.specs.Conditions.{IsWithinRunLimits};
ghost use Rattle.ti_top.specs.declared.exit.Exit.TheVariants.{CantRead};
ghost use Rattle.ti_top.specs.Mirrors.Verifying.{ending_by, run_by, HeldTrace, HeldSays, WasRead, VerifyResult};
ghost use Rattle.ti_top.specs.Run.{run_of};

use crate::compiling::compile;
use crate::exit::Exit;
use crate::reading::{ReadEnd, read_whole};
use std::alloc::Global;
use ti_align::actions_formed;
use ti_io::Source;
use ti_race::races_are_told;
use ti_rules::Checked;
use ti_trace_check::{TraceErr, Verdict, check_trace, one_verdict};
use ti_words::Job;

impl From<TraceErr> for Exit {
    ghost use Rattle.std.specs.Prelude.{◌≡◌};
    ghost use Rattle.ti_top.specs.Mirrors.Verifying.{of_trace};

    ghost from_gives = { λ e found. found ≡ of_trace e };

    fn from(error: TraceErr) -> Exit {
        match error {
            TraceErr::Read => Exit::CantRead,
            TraceErr::Memory => Exit::NoMemory,
        }
    }
}

// Checks the trace that the source is at against a program. That a trace has one verdict is a law, called here for the caller's contract.
fn verify_found<S: Source>(
    alloc: Global,
    job: &Job,
    checked: &Checked,
    source: &mut S,
) -> Result<Verdict, Exit>
    requires within { IsWithinRunLimits job.now.procs job.now.fuel }
    requires found { (S.state source.old).tells ≡ true → content_of (S.state source.old).files job.now.against
        ≡ Some (S.state source.old).left }
    ensures { HeldTrace (ending_by result) (run_of (program_of checked.now.program.parts) job.now)
        job.now.against (S.state source.old) (S.state source.new) (run_by result) }
{
    actions_formed(checked);
    races_are_told();
    one_verdict();
    let verdict = check_trace(alloc, checked, job.procs, job.fuel, source)?;
    Ok(verdict)
}

// Opens the trace that a job names, and checks it against a program.
fn verify_named<S: Source>(
    alloc: Global,
    job: &Job,
    checked: &Checked,
    source: &mut S,
) -> Result<Verdict, Exit>
    requires { IsWithinRunLimits job.now.procs job.now.fuel }
    ensures { HeldTrace (ending_by result) (run_of (program_of checked.now.program.parts) job.now)
        job.now.against (S.state source.old) (S.state source.new) (run_by result) }
{
    match source.find(job.against.as_str()) {
        Ok(true) => verify_found(alloc, job, checked, source),
        Ok(false) => Err(Exit::CantRead),
        Err(_) => Err(Exit::CantRead),
    }
}

// Compiles a whole text, and checks the trace that a job names against its program.
fn verify_text<S: Source>(
    alloc: Global,
    job: &Job,
    text: &[u8],
    source: &mut S,
) -> Result<Verdict, Exit>
    requires { IsWithinRunLimits job.now.procs job.now.fuel }
    ensures read { WasRead (S.state source.old) (S.state source.new) }
    ensures failed { (S.state source.old).faults < (S.state source.new).faults
        → ending_by result ≡ CantRead }
    ensures says { HeldSays (ending_by result) job.now text.now (S.state source.old)
        (S.state source.new) (run_by result) }
{
    let checked = compile(alloc, text)?;
    verify_named(alloc, job, &checked, source)
}

/// Reads the file of a job, compiles it, and checks the trace that the job names against its program. Whatever the result, `text` has what
/// was read of the file.
pub fn verify_file<S: Source>(
    alloc: Global,
    job: &Job,
    source: &mut S,
    text: &mut Vec<u8>,
) -> Result<Verdict, Exit>
    requires within { IsWithinRunLimits job.now.procs job.now.fuel }
    requires none { text.old.items ≡ [] }
    ensures { VerifyResult job.now (ending_by result) (S.state source.old) (S.state source.new)
        text.new.items (run_by result) }
{
    match read_whole(source, job.file.as_str(), text) {
        ReadEnd::Whole => verify_text(alloc, job, text, source),
        ReadEnd::CantRead => Err(Exit::CantRead),
        ReadEnd::NoMemory => Err(Exit::NoMemory),
    }
}
