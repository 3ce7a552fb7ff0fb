// The calls below the innermost one, of which there are fewer than 200.

ghost use Rattle.std.specs.Prelude.{◌≡◌, ℕ, ◌<◌, ◌≤◌, ◌+◌, ◌*◌, ◌^◌, [], ◌∷◌, ◌++◌, length, reverse, MatchOption, OnOk};
ghost use Rattle.ti_lang.specs.Program.Classes.{ProgramView};
ghost use Rattle.ti_lang.specs.Meaning.Steps.{named_in};
ghost use Rattle.ti_exec.specs.States.{frames_below};

use crate::process::{CallFrame, CallStack};
use std::alloc::Global;
use ti_base::Memory;

impl CallStack {
    /// No calls.
    pub fn none(alloc: Global) -> CallStack
        ensures { result.calls.items ≡ [] }
    {
        CallStack {
            calls: Vec::new(alloc),
        }
    }

    /// Pushes the caller of a new innermost call.
    pub fn push(&mut self, call: CallFrame) -> Result<(), Memory>
        requires { length self.old.calls.items + 1 < 200 }
        ensures { OnOk result (self.new.calls.items ≡ self.old.calls.items ++ call ∷ []) }
    {
        self.calls.push(call)?;
        Ok(())
    }

    /// Pops the caller of the innermost call, if there is one.
    pub fn pop(&mut self) -> Option<CallFrame>
        ensures { MatchOption result (self.old.calls.items ≡ []) (λ call. self.old.calls.items ≡ self.new.calls.items ++ call ∷ []) }
    {
        self.calls.pop()
    }

    /// How many variables of these calls refer to something in a region.
    #[tactic(auto, using(crate::proofs::Few::few))]
    pub fn count_in_region(&self, region: u32) -> u32
        ensures value { (c : ProgramView) (procs : ℕ) → result ≡ named_in region (frames_below c procs (reverse self.now.calls.items)) }
        ensures small { result ≤ 199 * 2 ^ 24 }
    {
        let mut count = 0;
        for call in &self.calls {
            count += call.count_in_region(region);
        }
        count
    }
}
