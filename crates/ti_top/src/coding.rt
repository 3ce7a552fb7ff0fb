// Mode code: the listing of a program's code.
ghost use Rattle.std.specs.Prelude.{◌≡◌, []};
ghost use Rattle.ti_lang.specs.Program.Views.{program_of};
ghost use Rattle.ti_top.specs.Mirrors.Coding.{CodeSays};
ghost use Rattle.ti_top.specs.Mirrors.JobView.{artifacts_of, ending_of};
ghost use Rattle.ti_top.specs.Mirrors.Leaving.{LeavesOut};

use crate::exit::Exit;
use crate::job_result::JobResult;
use crate::reports::write_text;
use std::alloc::Global;
use ti_code::code_text;
use ti_history::PackedHistory;
use ti_io::Sink;
use ti_lower::lower;
use ti_rules::Checked;

/// Writes the listing of a program's code, in one write. Out of memory, nothing is written.
pub fn write_code<K: Sink>(alloc: Global, checked: &Checked, out: &mut K) -> Result<JobResult, Exit>
    ensures says { CodeSays (ending_of result) (program_of checked.now.program.parts)
        (K.state out.old) (K.state out.new) (artifacts_of result).code }
    ensures no_entry { (artifacts_of result).history ≡ [] }
    ensures no_count { (artifacts_of result).done ≡ [] }
    ensures leaves { LeavesOut (ending_of result) (K.state out.old) (K.state out.new) }
{
    let code = lower(alloc, checked)?;
    let text = code_text(alloc, &code)?;
    let ending = match write_text(out, &text) {
        Ok(()) => Exit::Done,
        Err(_) => Exit::CantWrite,
    };
    Ok(JobResult {
        ending,
        code: Some(code),
        history: PackedHistory::new(alloc),
        done: Vec::new(alloc),
    })
}
