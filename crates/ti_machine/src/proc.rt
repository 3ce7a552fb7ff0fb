// A process that executes code, as other crates use it.

ghost use Rattle.std.specs.Prelude.{◌≡◌, ◌↔◌, ◌<◌, ◌^◌, [], ◌∷◌, ◌++◌, length, true, false, IfOk, IfErr, IsOk, IfSome, IfNone, IsSome};
ghost use Rattle.std.specs.Option.{option_map_or};
ghost use Rattle.ti_eval.specs.Forms.{IsFormedAnswer};
ghost use Rattle.ti_machine.specs.ProcView.{is_act, HasNext, CanAdvance, IsFar, HasFinished};

use crate::frame::state::AnswerUse;
use crate::history::ProcHistory;
use crate::machine::Machine;
use std::alloc::Global;
use std::marker::Model;
use ti_base::{Answer, Memory, Next};
use ti_code::Code;
use ti_eval::Rank;

/// The control state of a process.
#[derive(Clone, Copy)]
pub enum ProcState {
    /// Runnable: it is after its last answer.
    Running,
    /// Suspended with this next. If that is an action, its answer is used as `AnswerUse` says.
    Suspended(Next, AnswerUse),
    /// Unusable, after out of memory or after `advance_bounded` gave up.
    Poisoned,
}

/// A process that executes code.
///
/// Contracts see the code, the number of processes, the fuel of each, the number of this process, the answers that it has received so far,
/// and whether it waits for the answer to an action. It doesn't keep the code, which is passed at each call.
#[derive(Drop)]
pub struct Proc {
    machine: Machine,
    state: ProcState,
    /// How many instructions it has finished so far; saturates.
    steps: u64,
    /// `steps` at the last answer.
    finished: u64,
    history: ProcHistory,
}

impl Model for Proc {
    ghost use Rattle.ti_base.specs.contracts.entry.Answer as one_answer;
    ghost use Rattle.ti_code.specs.contracts.code.Code as all_code;
    ghost use Rattle.ti_machine.specs.ProcView.{ProcView};
    ghost use Rattle.ti_machine.specs.Mirrors.ProcView.{proc_view_code};

    ghost Value = { ProcView };

    ghost coded = { proc_view_code all_code.the_row.coded one_answer.the_row.coded };

    ghost use Rattle.ti_machine.specs.Mirrors.Proc.{proc_view_of, IsSound};

    ghost view = { proc_view_of };

    ghost invariant = { IsSound };
}

impl Proc {
    /// `process` of `procs` before its first instruction.
    pub fn start(
        alloc: Global,
        code: &Code,
        process: u32,
        procs: u32,
        fuel: u32,
    ) -> Result<Proc, Memory>
        requires number { process < 2 ^ 31 }
        requires procs { procs < 2 ^ 31 }
        requires goes { CanAdvance (record { code = code.now; procs = procs; fuel = fuel; number = process; answers = []; asks = false }) }
        ensures ok { IsOk result }
        ensures value { IfOk result (λ s. s ≡ record { code = code.now; procs = procs; fuel = fuel; number = process; answers = []; asks = false }) }
    {
        let team = Rank {
            number: process,
            procs,
        };
        Ok(Proc {
            machine: Machine::begin(alloc, code, team, fuel),
            state: ProcState::Running,
            steps: 0,
            finished: 0,
            history: ProcHistory::of(code, &team, &fuel),
        })
    }

    /// `process` of `procs` before its first instruction, if nothing is known of what it has next. Returns `None` iff the code has no
    /// method with the number of `main`.
    pub fn try_start(
        alloc: Global,
        code: &Code,
        process: u32,
        procs: u32,
        fuel: u32,
    ) -> Option<Proc>
        requires number { process < 2 ^ 31 }
        requires procs { procs < 2 ^ 31 }
        ensures some { IsSome result ↔ (code.now.main < length code.now.methods) }
        ensures value { IfSome result (λ s. s ≡ record { code = code.now; procs = procs; fuel = fuel; number = process; answers = []; asks = false }) }
    {
        let team = Rank {
            number: process,
            procs,
        };
        let machine = Machine::try_begin(alloc, code, team, fuel)?;
        Some(Proc {
            machine,
            state: ProcState::Running,
            steps: 0,
            finished: 0,
            history: ProcHistory::of(code, &team, &fuel),
        })
    }

    /// Runs the process up to what it has next: an action, its end or a fault of its own. Until it is answered, later calls return the
    /// same.
    ///
    /// After out of memory the process is unusable: each later call is out of memory, too.
    pub fn advance(&mut self, alloc: Global, code: &Code) -> Result<Next, Memory>
        requires code { code.now ≡ self.old.code }
        requires goes { CanAdvance self.old }
        ensures next { IfOk result (λ n. HasNext self.old n) }
        ensures standing { IfOk result (λ n. self.new ≡ record self.old { asks = is_act n }) }
        ensures memory { IfErr result (λ _. self.new ≡ record self.old { asks = false }) }
        ensures again { self.old.asks ≡ true → IsOk result }
    {
        match self.state {
            ProcState::Suspended(next, _) => return Ok(next),
            ProcState::Poisoned => return Err(Memory),
            ProcState::Running => {}
        }
        self.state = ProcState::Poisoned;
        let suspension = self.machine.run_to_suspension(alloc, code)?;
        self.machine.make_room()?;
        self.steps = self.steps.saturating_add(suspension.count);
        self.state = ProcState::Suspended(suspension.next, suspension.answer_use);
        Ok(suspension.next)
    }

    /// Like `advance`, without its precondition. Returns `None` only if the process never has anything next or at least `turns` silent
    /// steps come before that; the process is then unusable, as after out of memory.
    pub fn advance_bounded(
        &mut self,
        alloc: Global,
        code: &Code,
        turns: u32,
    ) -> Result<Option<Next>, Memory>
        requires code { code.now ≡ self.old.code }
        ensures next { IfOk result (λ o. IfSome o (λ n. HasNext self.old n)) }
        ensures far { IfOk result (λ o. IfNone o (IsFar self.old turns)) }
        ensures standing { IfOk result (λ o. self.new ≡ record self.old { asks = option_map_or is_act o false }) }
        ensures memory { IfErr result (λ _. self.new ≡ record self.old { asks = false }) }
        ensures again { self.old.asks ≡ true → IsOk result }
    {
        match self.state {
            ProcState::Suspended(next, _) => return Ok(Some(next)),
            ProcState::Poisoned => return Err(Memory),
            ProcState::Running => {}
        }
        self.state = ProcState::Poisoned;
        let went = self.machine.run_bounded(alloc, code, turns)?;
        let Some(suspension) = went else {
            return Ok(None);
        };
        self.machine.make_room()?;
        self.steps = self.steps.saturating_add(suspension.count);
        self.state = ProcState::Suspended(suspension.next, suspension.answer_use);
        Ok(Some(suspension.next))
    }

    /// Passes the answer to the action for which the process waits.
    pub fn answer(&mut self, answer: Answer)
        requires asks { self.old.asks ≡ true }
        requires form { IsFormedAnswer answer }
        ensures { self.new ≡ record self.old { answers = self.old.answers ++ answer ∷ []; asks = false } }
    {
        let ProcState::Suspended(_, answer_use) = self.state else {
            unreachable!()
        };
        self.machine.resume_with(answer_use, answer);
        self.steps = self.steps.saturating_add(1);
        self.finished = self.steps;
        self.state = ProcState::Running;
        self.history = self.history.and(&answer);
    }

    /// How many instructions the process has finished with the last answer, that of the action included; 0 before the first answer.
    /// Saturates at 2^64 - 1.
    pub fn finished(&self) -> u64
        ensures { HasFinished self.now result }
    {
        self.finished
    }
}
