// Theorems on every process of a checked program; their functions do nothing.

ghost use Rattle.std.specs.Prelude.{◌≡◌};
ghost use Rattle.ti_base.specs.declared.entry.Answer.{Answer};
ghost use Rattle.ti_base.specs.declared.entry.Next.{Next};
ghost use Rattle.ti_lang.specs.Meaning.Answers.{FitsAction};
ghost use Rattle.ti_lang.specs.Meaning.Processes.{Process};
ghost use Rattle.ti_eval.specs.Forms.{IsFormedAnswer};
ghost use Rattle.ti_exec.specs.Standing.{TreeProcView, HasNext};

use crate::tree_proc::TreeProc;

/// What a process has next is unique: it is determined by its initial configuration and the answers that it has received.
pub fn next_is_unique()
    ensures { (s : TreeProcView) (m n : Next) → HasNext s m → HasNext s n → m ≡ n }
{}

/// An answer that fits the action that a process has next is canonical, as `TreeProc::answer` requires.
pub fn fitting_is_formed()
    ensures { (p : Process) (r : Answer) → FitsAction p r → IsFormedAnswer r }
{}

fn require_send<T: Send>() {}

/// A process can be sent to another thread. Nothing calls this: the claim is that it compiles, since `sent` has the bound `Send`.
pub fn process_is_sent() {
    require_send::<TreeProc>();
}
