// Theorems on every process that executes code; their functions do nothing.

ghost use Rattle.std.specs.Prelude.{◌≡◌, ◌<◌, ◌≤◌};
ghost use Rattle.ti_base.specs.declared.entry.Next.{Next};
ghost use Rattle.ti_lang.specs.Program.Classes.{ProgramView};
ghost use Rattle.ti_lang.specs.Meaning.Processes.{Process, begin};
ghost use Rattle.ti_lang.specs.Meaning.NextStep.{After, IsNext};
ghost use Rattle.ti_code.specs.Follows.{Fit, Follows};
ghost use Rattle.ti_machine.specs.ProcView.{ProcView, HasNext};

use crate::proc::Proc;

/// What a process has next is unique: it is determined by its initial configuration and the answers that it has received.
pub fn next_is_unique()
    ensures { (s : ProcView) (m n : Next) → HasNext s m → HasNext s n → m ≡ n }
{}

/// If the code follows a program, a process has next what that of the program has after the same answers, as long as each of these fits.
pub fn following_code_goes_on()
    ensures { (s : ProcView) (program : ProgramView) → Follows s.code program
        → 1 ≤ s.procs → s.procs ≤ 32 → 1 ≤ s.fuel → s.fuel ≤ 4000000 → s.number < s.procs
        → (q : Process) (n : Next) → Fit (begin (record { program = program; procs = s.procs; fuel = s.fuel }) s.number) s.answers
        → After (begin (record { program = program; procs = s.procs; fuel = s.fuel }) s.number) s.answers q → IsNext q n → HasNext s n }
{}

fn require_send<T: Send>() {}

/// A process can be sent to another thread. Nothing calls this: the claim is that it compiles, since `sent` has the bound `Send`.
pub fn process_is_sent() {
    require_send::<Proc>();
}
