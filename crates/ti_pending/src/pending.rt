// A process of a run, and one action of it on the store.
//
// A process has at any time at most one action that it was asked for and hasn't been answered; it keeps that itself. So an action can be tried
// again and again while the process waits, and nothing has to be undone.
ghost use Rattle.std.specs.Prelude.{◌≡◌, ◌<◌, ◌^◌, [], true, false, IfOk, IfErr};
ghost use Rattle.ti_lang.specs.Meaning.Runs.{IsRun};
ghost use Rattle.ti_eval.specs.Forms.{IsFormedAnswer};
ghost use Rattle.ti_machine.specs.ProcView.{CanAdvance, HasNext, is_act};
ghost use Rattle.ti_store.specs.Stores.{config_of};
ghost use Rattle.ti_pending.specs.UpToDate.{with_awaits, IsUpToDate};
ghost use Rattle.ti_pending.specs.Acting.{action_for, next_action, ReceivesAnswer, CodePremises, Progresses, RefusalLeaves};

use std::alloc::Global;
use ti_base::{Action, Answer, Memory, Next, Place};
use ti_code::Code;
use ti_machine::{Proc, next_is_unique};
use ti_store::{ActErr, RunConfigOf, Store};

/// A process of a run, and whether it has ended.
#[derive(Drop)]
pub struct PendingProc {
    pub process: Proc,
    pub ended: bool,
}

/// The next action of a process with its place; an end and a fault count as actions, as in the history.
pub fn as_action(next: Next) -> (Place, Action)
    ensures { result ≡ action_for next }
{
    match next {
        Next::Act(place, action) => (place, action),
        Next::End(place) => (place, Action::End),
        Next::Fault(kind, place) => (place, Action::Fault { kind }),
    }
}

impl PendingProc {
    /// The process with this number before its first instruction.
    pub fn take(
        alloc: Global,
        code: &Code,
        number: u32,
        procs: u32,
        fuel: u32,
    ) -> Result<PendingProc, Memory>
        requires number { number < 2 ^ 31 }
        requires procs { procs < 2 ^ 31 }
        requires goes { CanAdvance (record { code = code.now; procs = procs; fuel = fuel; number = number; answers = []; asks = false }) }
        ensures { IfOk result (λ pending. pending ≡ record {
          process = record { code = code.now; procs = procs; fuel = fuel; number = number; answers = []; asks = false };
          ended = false;
        }) }
    {
        let process = Proc::start(alloc, code, number, procs, fuel)?;
        Ok(PendingProc {
            process,
            ended: false,
        })
    }

    /// Runs the process to its next action, and returns that. A process that is there already computes nothing.
    pub fn advance(&mut self, alloc: Global, code: &Code) -> Result<Next, Memory>
        requires code { code.now ≡ self.old.process.code }
        requires goes { CanAdvance self.old.process }
        ensures next { IfOk result (λ n. HasNext self.old.process n) }
        ensures asks { IfOk result (λ n. self.new ≡ with_awaits (is_act n) self.old) }
        ensures memory { IfErr result (λ _. self.new ≡ with_awaits false self.old) }
    {
        self.process.advance(alloc, code)
    }

    /// Hands the process the answer to its action, or ends it.
    pub fn resume_with(&mut self, next: Next, answer: Answer)
        requires asks { is_act next ≡ true → self.old.process.asks ≡ true }
        requires form { IsFormedAnswer answer }
        ensures { ReceivesAnswer self.old next answer self.new }
    {
        let Next::Act(_, _) = next else {
            self.ended = true;
            return;
        };
        self.process.answer(answer);
    }

    /// Performs the action that `advance` returned, and hands the process the answer, or ends it. After an error the process is as it was;
    /// after a fault the store has one more entry.
    pub fn act_in<J: RunConfigOf>(
        &mut self,
        alloc: Global,
        next: Next,
        store: &mut Store<J>,
        number: u32,
    ) -> Result<(), ActErr>
        requires runs { CodePremises self.old.process.code (config_of store.old) }
        requires number { number < store.old.procs }
        requires run { IsRun (config_of store.old) store.old.entries }
        requires seated { IsUpToDate self.old.process.code (config_of store.old) store.old.entries number self.old }
        requires unended { self.old.ended ≡ false }
        requires next { HasNext self.old.process next }
        requires asks { is_act next ≡ true → self.old.process.asks ≡ true }
        ensures went { IfOk result (λ _. (g : Progresses self.old.process.code (config_of store.old) store.old.entries number self.old
            store.new.entries self.new) × (g.takes.entry.act ≡ next_action next)) }
        ensures refused { IfErr result (λ why. RefusalLeaves self.old.process.code store.old number self.old store.new.entries why) }
        ensures same { IfErr result (λ _. self.new ≡ self.old) }
        ensures store { store.new ≡ record store.old { entries = store.new.entries } }
    {
        next_is_unique();
        let (place, action) = as_action(next);
        match store.act(alloc, number, place, action) {
            Ok(answer) => {
                self.resume_with(next, answer);
                Ok(())
            }
            Err(why) => Err(why),
        }
    }
}
