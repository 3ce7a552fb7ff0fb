// How a process begins, and how it runs silent steps up to the next action, end or fault.

ghost use Rattle.std.specs.Prelude.{◌≡◌, ◌↔◌, ◌<◌, [], length, IfOk, IfSome, IfNone, IsSome, OnOk, vec_len, vec_capacity};
ghost use Rattle.ti_base.specs.declared.entry.Next.{Next as Shown};
ghost use Rattle.ti_code.specs.Follows.{HasNext};
ghost use Rattle.ti_code.specs.Programs.{Code as Methods};
ghost use Rattle.ti_code.specs.Machine.{first};
ghost use Rattle.ti_machine.specs.Mirrors.Machines.{machine_of};
ghost use Rattle.ti_machine.specs.Mirrors.RunLoop.{IsSuspension, LiesFar};

use crate::frame::state::{AnswerUse, FrameState};
use crate::machine::{Frame, Machine, StepResult};
use std::alloc::Global;
use ti_base::{Memory, Next};
use ti_code::Code;
use ti_eval::Rank;

/// The result of a run of silent steps: what the process has next, how it uses the answer if that is an action, and how many instructions
/// it has finished on the way.
#[derive(Clone, Copy)]
pub struct Suspension {
    pub next: Next,
    pub answer_use: AnswerUse,
    pub count: u64,
}

impl Machine {
    /// A process before its first instruction.
    pub(crate) fn begin(alloc: Global, code: &Code, team: Rank, fuel: u32) -> Machine
        requires { (n : Shown) × HasNext code.now (first code.now team.procs fuel team.number) [] n }
        ensures { machine_of code.now result ≡ first code.now team.procs fuel team.number }
    {
        let method = code.main() as usize;
        let methods = code.methods();
        if method >= methods.len() {
            unreachable!()
        }
        let state = FrameState {
            at: 0,
            slots: Vec::new(alloc),
            stack: Vec::new(alloc),
        };
        Machine {
            team,
            fuel,
            spent: 0,
            top: Frame { method, state },
            below: Vec::new(alloc),
            frame_pool: Vec::new(alloc),
        }
    }

    /// A process before its first instruction, without a precondition. Returns `None` iff the code has no method with the number of `main`.
    pub(crate) fn try_begin(alloc: Global, code: &Code, team: Rank, fuel: u32) -> Option<Machine>
        ensures some { IsSome result ↔ (code.now.main < length code.now.methods) }
        ensures value { IfSome result (λ m. machine_of code.now m ≡ first code.now team.procs fuel team.number) }
    {
        let method = code.main() as usize;
        let methods = code.methods();
        if method >= methods.len() {
            return None;
        }
        let state = FrameState {
            at: 0,
            slots: Vec::new(alloc),
            stack: Vec::new(alloc),
        };
        Some(Machine {
            team,
            fuel,
            spent: 0,
            top: Frame { method, state },
            below: Vec::new(alloc),
            frame_pool: Vec::new(alloc),
        })
    }

    /// Runs silent steps up to what the process has next.
    pub(crate) fn run_to_suspension(
        &mut self,
        alloc: Global,
        code: &Code,
    ) -> Result<Suspension, Memory>
        requires goes { (n : Shown) × HasNext code.now (machine_of code.now self.old) [] n }
        ensures { IfOk result (λ w. IsSuspension code.now (machine_of code.now self.old) w (machine_of code.now self.new)) }
    {
        // For the prover: brings the rule on jumps into scope.
        let _rule = code.methods();
        let mut count: u64 = 0;
        'steps: loop {
            let more = self.run_fast_path(alloc, code);
            count = count.saturating_add(more);
            match self.step(alloc, code)? {
                StepResult::Continue => count = count.saturating_add(1),
                StepResult::Suspend(next, answer_use) => return Ok(Suspension {
                    next,
                    answer_use,
                    count,
                }),
                StepResult::Stuck => unreachable!(),
            }
        }
    }

    /// Like `go_on`, without its precondition: gives up once it has executed at least `turns` silent steps. So it returns `None` only if
    /// the process never has anything next or at least `turns` silent steps come before that.
    pub(crate) fn run_bounded(
        &mut self,
        alloc: Global,
        code: &Code,
        turns: u32,
    ) -> Result<Option<Suspension>, Memory>
        ensures way { IfOk result (λ o. IfSome o (λ w. IsSuspension code.now (machine_of code.now self.old) w (machine_of code.now self.new))) }
        ensures far { IfOk result (λ o. IfNone o (LiesFar code.now (machine_of code.now self.old) turns)) }
    {
        let mut count: u64 = 0;
        for _next_step in 0..turns {
            let more = self.run_fast_path(alloc, code);
            count = count.saturating_add(more);
            if count >= u64::from(turns) {
                return Ok(None);
            }
            match self.step(alloc, code)? {
                StepResult::Continue => count = count.saturating_add(1),
                StepResult::Suspend(next, answer_use) => return Ok(Some(Suspension {
                    next,
                    answer_use,
                    count,
                })),
                StepResult::Stuck => return Ok(None),
            }
        }
        Ok(None)
    }

    /// Reserves capacity for one more operand, so that an answer can be pushed without allocating.
    pub(crate) fn make_room(&mut self) -> Result<(), Memory>
        ensures same { OnOk result ((c : Methods) → machine_of c self.new ≡ machine_of c self.old) }
        ensures tick { self.new.spent ≡ self.old.spent }
        ensures room { OnOk result (vec_len self.new.top.state.stack < vec_capacity self.new.top.state.stack) }
    {
        self.top.state.stack.reserve(1)?;
        Ok(())
    }
}
