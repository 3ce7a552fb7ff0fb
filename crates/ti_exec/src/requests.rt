// The actions that a process requests. Each costs a tick. A computation that needs one more answer is repeated from its beginning with it.

ghost use Rattle.std.specs.Prelude.{◌≡◌, Some, IfOk, List};
ghost use Rattle.ti_base.specs.declared.entry.Answer.{Answer};
ghost use Rattle.ti_lang.specs.Program.Classes.{ProgramView};
ghost use Rattle.ti_lang.specs.Meaning.Comp.{Request, CompResult, Wanted};
ghost use Rattle.ti_lang.specs.Meaning.Moves.{Move};
ghost use Rattle.ti_lang.specs.Meaning.Processes.{Process, Frame, Receiver};
ghost use Rattle.ti_lang.specs.Meaning.Steps.{Step, spends, step_of_result, arrives, asks as asks_spec};
ghost use Rattle.ti_eval.specs.Comes.{Stops};
ghost use Rattle.ti_moves.specs.Outcomes.{wait_of};
ghost use Rattle.ti_exec.specs.States.{IsStep, process_of, after_answer, frames_in, wait_in};

use crate::process::{ControlMode, OnAnswer, PendingRequest, StepOutcome, TreeMachine};
use std::alloc::Global;
use ti_base::{Action, Deposit, FaultKind, Memory, Place};
use ti_eval::Interrupt;
use ti_moves::CollectiveCall;

impl TreeMachine {
    /// Requests an action if a tick is left; otherwise the fault is out of fuel.
    #[tactic(auto, using(crate::proofs::Asked::asked))]
    pub fn asks(
        &self,
        alloc: Global,
        place: Place,
        action: Action,
        on_answer: OnAnswer,
    ) -> Result<StepOutcome, Memory>
        ensures { IfOk result (λ t. (c : ProgramView) (q : Request) (go : Answer → Process) → q.place ≡ place → q.action ≡ action
            → ((r : Answer) → spends (go r) ≡ after_answer c self.now on_answer r)
            → IsStep c (process_of c self.now) (asks_spec (process_of c self.now) q go) t self.now) }
    {
        if self.spent >= self.fuel {
            return Ok(StepOutcome::Fault(FaultKind::Fuel, place));
        }
        let asking = PendingRequest {
            place,
            action,
            on_answer,
        };
        Ok(StepOutcome::Request(Box::new(alloc, asking)?))
    }

    /// Turns an interrupted computation into a request, a fault or out of memory.
    pub fn stops(&self, alloc: Global, interrupt: Interrupt) -> Result<StepOutcome, Memory>
        ensures { IfOk result (λ t. (c : ProgramView) (got : CompResult Move) (go : Move → Step) → Stops interrupt got
            → IsStep c (process_of c self.now) (step_of_result (process_of c self.now) got go) t self.now) }
    {
        match interrupt {
            Interrupt::Request(place, action) => self.asks(alloc, place, action, OnAnswer::Append),
            Interrupt::Fault(kind, place) => Ok(StepOutcome::Fault(kind, place)),
            Interrupt::Memory => Err(Memory),
        }
    }

    /// Requests the arrival at a collective, after which the process continues in this mode.
    pub fn arrives(
        &self,
        alloc: Global,
        collective: CollectiveCall,
        deposit: Deposit,
        mode: ControlMode,
    ) -> Result<StepOutcome, Memory>
        ensures { IfOk result (λ t. (c : ProgramView) (frames : List Frame) (wanted : Wanted) (receiver : Receiver) → frames
            ≡ frames_in c self.now mode → Some (wait_of collective wanted receiver) ≡ wait_in c self.now mode
            → IsStep c (process_of c self.now) (arrives (process_of c self.now) frames (wait_of collective wanted receiver) deposit) t
            self.now) }
    {
        let action = Action::Arrive {
            kind: collective.kind,
            arg: collective.arg,
            deposit,
        };
        self.asks(alloc, collective.place, action, OnAnswer::Arrive(mode))
    }
}
