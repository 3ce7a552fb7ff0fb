// Executes one process by its program's syntax trees along a history, and stops at the first event that the trees don't predict.

ghost use Rattle.std.specs.Prelude.{◌≡◌, ◌<◌, ◌^◌, IfOk};
ghost use Rattle.ti_lang.specs.Program.Views.{program_of};

use crate::course::{Course, Limits, Stray, answer_of, fits};
use std::alloc::Global;
use ti_base::{Entry, Next};
use ti_exec::TreeProc;
use ti_history::PackedHistory;
use ti_rules::Checked;

/// Executes a process past an event of its own. Error: what the process does next instead, or none if memory runs out.
fn take(
    alloc: Global,
    c: &Checked,
    process: &mut TreeProc,
    entry: &Entry,
) -> Result<(), Option<Next>>
    requires { program_of c.now.program.parts ≡ program_of process.old.program }
    ensures { IfOk result (λ _. program_of c.now.program.parts ≡ program_of process.new.program) }
{
    let Ok(next) = process.advance(alloc, c) else {
        return Err(None);
    };
    if !fits(next, entry) {
        return Err(Some(next));
    }
    if let Next::Act(_, _) = next {
        if let Some(answer) = answer_of(entry) {
            process.answer(answer);
        }
    }
    Ok(())
}

/// Executes process `number` by the trees along its events in a history. Error: the first event that differs, or at which memory runs out.
pub(crate) fn follow(
    alloc: Global,
    c: &Checked,
    limits: Limits,
    number: u32,
    history: &PackedHistory,
) -> Result<Course, Stray>
    requires number { number < 2 ^ 31 }
    requires procs { limits.procs < 2 ^ 31 }
{
    let Ok(mut process) = TreeProc::start(alloc, c, number, limits.procs, limits.fuel) else {
        return Err(Stray {
            entry: 0,
            next: None,
        });
    };
    let mut entries = 0usize;
    let mut index = 0usize;
    for entry in history.iter() {
        if entry.proc == number {
            match take(alloc, c, &mut process, &entry) {
                Ok(()) => entries = entries.wrapping_add(1),
                Err(next) => return Err(Stray { entry: index, next }),
            }
        }
        index = index.wrapping_add(1);
    }
    let next = process.advance(alloc, c).ok();
    Ok(Course { entries, next })
}
