// Executes one process by its code along a history, to find what it does next after the history's last event.

ghost use Rattle.std.specs.Prelude.{◌≡◌, ◌<◌, ◌^◌, IfSome};

use crate::course::{Limits, answer_of};
use std::alloc::Global;
use ti_base::{Entry, Next};
use ti_code::Code;
use ti_history::PackedHistory;
use ti_machine::Proc;

/// The most instructions that a process may execute up to its next operation, end or fault.
const TURNS: u32 = 1_000_000;

/// Executes a process past an event of its own; none if memory runs out, or `TURNS` instructions reach no operation, end or fault.
fn go_on(alloc: Global, code: &Code, process: &mut Proc, entry: &Entry) -> Option<()>
    requires { code.now ≡ process.old.code }
    ensures { IfSome result (λ _. code.now ≡ process.new.code) }
{
    let Ok(Some(next)) = process.advance_bounded(alloc, code, TURNS) else {
        return None;
    };
    if let Next::Act(_, _) = next {
        if let Some(answer) = answer_of(entry) {
            process.answer(answer);
        }
    }
    Some(())
}

/// What process `number` does next after its events in a history; none if memory runs out, the code has no entry point, or `TURNS`
/// instructions reach no operation, end or fault.
pub(crate) fn next_by_code(
    alloc: Global,
    code: &Code,
    limits: Limits,
    number: u32,
    history: &PackedHistory,
) -> Option<Next>
    requires number { number < 2 ^ 31 }
    requires procs { limits.procs < 2 ^ 31 }
{
    let mut process = Proc::try_start(alloc, code, number, limits.procs, limits.fuel)?;
    for entry in history.iter() {
        if entry.proc == number {
            go_on(alloc, code, &mut process, &entry)?;
        }
    }
    match process.advance_bounded(alloc, code, TURNS) {
        Ok(next) => next,
        Err(_) => None,
    }
}
