// The state of a process, and the execution of a single instruction.

ghost use Rattle.std.specs.Prelude.{◌≡◌, ℕ, ◌+◌, ◌<◌, true, false, [], ◌++◌, ◌∷◌, reverse, List, Some, Err, IfOk, MatchOption, slice_get, vec_len, vec_capacity};
ghost use Rattle.ti_lang.specs.Meaning.Comp.{Comp};
ghost use Rattle.ti_lang.specs.Meaning.Held.{Held as Seen};
ghost use Rattle.ti_eval.specs.Forms.{IsFormedAnswer};
ghost use Rattle.ti_code.specs.Programs.{Code as Methods};
ghost use Rattle.ti_code.specs.declared.code.MethodCode.{MethodCode as Method};
ghost use Rattle.ti_code.specs.declared.instr.Instr.TheVariants as i;
ghost use Rattle.ti_code.specs.Effects.{LocalState};
ghost use Rattle.ti_code.specs.Forms.{IsFormedInstr};
ghost use Rattle.ti_code.specs.Machine as seen;
ghost use Rattle.ti_machine.specs.Mirrors.FrameStates.{local_state_of, apply_answer, FrameOutcome, answer_use_of};
ghost use Rattle.ti_machine.specs.Mirrors.Instrs.{stays, instrs_at};
ghost use Rattle.ti_machine.specs.Mirrors.Machines.{machine_of, after_answer, RequestsAt, IsStepResult, IsInstrResult, IsLocalResult, IsCallResult};

use crate::frame::operand::StackOperand;
use crate::frame::state::{AnswerUse, FrameState};
use std::alloc::Global;
use std::mem;
use ti_base::{Action, Answer, FaultKind, Memory, Next, Place, Value};
use ti_code::{Code, Instr};
use ti_eval::{Interrupt, Rank, VarValue};

/// A call in progress: the number of its method, and the state of its frame.
#[derive(Drop)]
pub struct Frame {
    pub method: usize,
    pub state: FrameState,
}

/// A process: its number and that of processes, its fuel in ticks and the ticks spent, its innermost frame, and the frames below, the
/// outermost first. `frame_pool` holds empty frames of calls that have returned, whose memory later calls reuse.
#[derive(Drop)]
pub struct Machine {
    pub team: Rank,
    pub fuel: u32,
    pub spent: u32,
    pub top: Frame,
    pub below: Vec<Frame>,
    pub frame_pool: Vec<FrameState>,
}

/// The result of executing one instruction.
#[derive(Clone, Copy)]
pub enum StepResult {
    /// A silent step: the process continues.
    Continue,
    /// The process is suspended with this next. If that is an action, its answer is used as `AnswerUse` says.
    Suspend(Next, AnswerUse),
    /// The process never has anything next.
    Stuck,
}

// The most frames that can be below the innermost one.
const MAX_FRAMES_BELOW: usize = 199;

// The value that an instruction pushes when it gets the answer, if it pushes one.
fn answer_operand(answer_use: AnswerUse, answer: Answer) -> Option<VarValue>
    requires { IsFormedAnswer answer }
    ensures { (s : LocalState) → MatchOption result (apply_answer answer_use answer s ≡ s) (λ h. apply_answer answer_use answer s ≡ record s { stack = h ∷ s.stack }) }
{
    match answer {
        Answer::Val(value) => match answer_use {
            AnswerUse::Ignore => None,
            AnswerUse::Push => Some(VarValue::plain(value)),
            AnswerUse::PushIfValue => Some(VarValue::plain(value)),
        },
        Answer::Done => match answer_use {
            AnswerUse::Ignore => None,
            AnswerUse::Push => Some(VarValue::boolean(false)),
            AnswerUse::PushIfValue => None,
        },
    }
}

// How an instruction uses the answer to its action.
fn answer_use(instr: &Instr) -> AnswerUse
    ensures { result ≡ answer_use_of instr.now }
{
    match instr {
        Instr::PutField(_, _) => AnswerUse::Ignore,
        Instr::PutElem(_) => AnswerUse::Ignore,
        Instr::Print(_, _, _) => AnswerUse::Ignore,
        Instr::Arrive(_, _) => AnswerUse::Ignore,
        Instr::Depart(_) => AnswerUse::PushIfValue,
        _ => AnswerUse::Push,
    }
}

// An empty frame; it reuses the memory of a spare one, if there is one.
fn frame_from_pool(alloc: Global, frame_pool: Option<FrameState>) -> FrameState
    ensures slots { result.slots.items ≡ [] }
    ensures stack { result.stack.items ≡ [] }
    ensures at { result.at ≡ 0 }
{
    match frame_pool {
        Some(state) => state.into_empty(),
        None => FrameState {
            at: 0,
            slots: Vec::new(alloc),
            stack: Vec::new(alloc),
        },
    }
}

impl Machine {
    // Requests an action if a tick is left; otherwise the fault is out of fuel.
    pub(crate) fn request(&self, place: Place, action: Action, answer_use: AnswerUse) -> StepResult
        ensures { (c : Methods) (e : Comp seen.StepResult)
            → RequestsAt e place action answer_use (machine_of c self.now) → IsStepResult c e result (machine_of c self.now) }
    {
        if self.spent < self.fuel {
            StepResult::Suspend(Next::Act(place, action), answer_use)
        } else {
            StepResult::Suspend(Next::Fault(FaultKind::Fuel, place), answer_use)
        }
    }

    // Turns an interrupted instruction into a suspension, a fault or out of memory.
    fn suspend_or_fault(&self, stop: Interrupt, answer_use: AnswerUse) -> Result<StepResult, Memory>
        ensures { IfOk result (λ t. (c : Methods) (s : LocalState) (e : Comp LocalState)
            → FrameOutcome {A = Unit {0}} (Err stop) answer_use e (local_state_of self.now.top.state) → IsLocalResult c self.now s e t) }
    {
        match stop {
            Interrupt::Request(at, action) => Ok(self.request(at, action, answer_use)),
            Interrupt::Fault(kind, at) => Ok(StepResult::Suspend(
                Next::Fault(kind, at),
                answer_use,
            )),
            Interrupt::Memory => Err(Memory),
        }
    }

    // Executes an instruction that stays in its frame.
    fn exec_local(
        &mut self,
        alloc: Global,
        instr: &Instr,
        next: usize,
    ) -> Result<StepResult, Memory>
        requires next { next ≡ self.old.top.state.at + 1 }
        requires form { IsFormedInstr instr.now }
        requires stays { stays instr.now ≡ true }
        ensures { IfOk result (λ t. (c : Methods) → IsInstrResult c self.old instr.now t self.new) }
    {
        let team = self.team;
        match self.top.state.perform(alloc, team, instr, next) {
            Ok(()) => Ok(StepResult::Continue),
            Err(stop) => self.suspend_or_fault(stop, answer_use(instr)),
        }
    }

    // Spends a tick, or faults if none is left.
    fn tick(&mut self, place: Place, next: usize) -> StepResult
        requires { next ≡ self.old.top.state.at + 1 }
        ensures { (c : Methods) → IsInstrResult c self.old (i.Tick place) result self.new }
    {
        if self.spent >= self.fuel {
            return StepResult::Suspend(Next::Fault(FaultKind::Fuel, place), AnswerUse::Ignore);
        }
        self.spent += 1;
        self.top.state.at = next;
        StepResult::Continue
    }

    // Returns from a call without a value.
    fn exec_return(&mut self) -> StepResult
        ensures { (c : Methods) → IsInstrResult c self.old i.Return result self.new }
    {
        match self.below.pop() {
            Some(f) => {
                let done = mem::replace(&mut self.top, f);
                let _ = self.frame_pool.push(done.state.into_empty());
                StepResult::Continue
            }
            None => StepResult::Stuck,
        }
    }

    // Returns from a call with the top operand as its value.
    fn exec_return_value(&mut self) -> Result<StepResult, Memory>
        ensures { IfOk result (λ t. (c : Methods) → IsInstrResult c self.old i.ReturnValue t self.new) }
    {
        let h = self.top.state.pop()?;
        match self.below.pop() {
            Some(f) => {
                let done = mem::replace(&mut self.top, f);
                let _ = self.frame_pool.push(done.state.into_empty());
                self.top.state.push(h)?;
                Ok(StepResult::Continue)
            }
            None => Ok(StepResult::Stuck),
        }
    }

    // Enters a method with these slots and this empty operand stack. Faults if no tick is left or the calls are too deep.
    fn enter(
        &mut self,
        method: usize,
        slots: Vec<VarValue>,
        stack: Vec<StackOperand>,
        at: Place,
        next: usize,
    ) -> Result<StepResult, Memory>
        requires { stack.items ≡ [] }
        ensures { IfOk result (λ t. (c : Methods) (callee : Method) (s : LocalState) (own args stack : List Seen)
            → callee.instrs ≡ instrs_at c method → reverse slots.items ≡ reverse args ++ own
            → local_state_of self.old.top.state ≡ record s { stack = stack } → next ≡ s.at + 1
            → IsCallResult c self.old at callee s own args stack t self.new) }
    {
        if self.spent >= self.fuel {
            return Ok(StepResult::Suspend(Next::Fault(FaultKind::Fuel, at), AnswerUse::Ignore));
        }
        if self.below.len() >= MAX_FRAMES_BELOW {
            return Ok(StepResult::Suspend(Next::Fault(FaultKind::Depth, at), AnswerUse::Ignore));
        }
        self.spent += 1;
        self.top.state.at = next;
        let state = FrameState {
            at: 0,
            slots,
            stack,
        };
        let caller = mem::replace(&mut self.top, Frame { method, state });
        self.below.push(caller)?;
        Ok(StepResult::Continue)
    }

    // Executes a call: pops the arguments and the receiver, if the method has a `this`, and enters the method.
    fn call(
        &mut self,
        alloc: Global,
        code: &Code,
        number: u32,
        place: Place,
        next: usize,
    ) -> Result<StepResult, Memory>
        requires next { next ≡ self.old.top.state.at + 1 }
        requires here { slice_get (instrs_at code.now self.old.top.method) self.old.top.state.at ≡ Some (i.Call number place) }
        ensures { IfOk result (λ t. IsInstrResult code.now self.old (i.Call number place) t self.new) }
    {
        let method = number as usize;
        let methods = code.methods();
        if method >= methods.len() {
            return Ok(StepResult::Stuck);
        }
        let callee = &methods[method];
        let room = frame_from_pool(alloc, self.frame_pool.pop());
        let stack = room.stack;
        let mut slots = self
            .top
            .state
            .take_args_into(u64::from(callee.params), room.slots)?;
        if callee.instance {
            let receiver = self.top.state.pop()?;
            let Some(this) = receiver.thing() else {
                return Ok(StepResult::Suspend(
                    Next::Fault(FaultKind::NullRef, place),
                    AnswerUse::Ignore,
                ));
            };
            slots.insert(0, VarValue::plain(Value::Obj(Some(this))))?;
            return self.enter(method, slots, stack, place, next);
        }
        self.enter(method, slots, stack, place, next)
    }

    // Executes one instruction.
    fn act(
        &mut self,
        alloc: Global,
        code: &Code,
        instr: &Instr,
        next: usize,
    ) -> Result<StepResult, Memory>
        requires next { next ≡ self.old.top.state.at + 1 }
        requires here { slice_get (instrs_at code.now self.old.top.method) self.old.top.state.at ≡ Some instr.now }
        requires form { IsFormedInstr instr.now }
        ensures { IfOk result (λ t. IsInstrResult code.now self.old instr.now t self.new) }
    {
        match instr {
            Instr::Tick(at) => Ok(self.tick(*at, next)),
            Instr::Call(k, at) => self.call(alloc, code, *k, *at, next),
            Instr::Return => Ok(self.exec_return()),
            Instr::ReturnValue => self.exec_return_value(),
            Instr::Stop(at) => Ok(StepResult::Suspend(Next::End(*at), AnswerUse::Ignore)),
            Instr::Arrive(kind, at) => self.arrive(*kind, *at, next),
            Instr::Depart(at) => Ok(self.depart(*at, next)),
            _ => self.exec_local(alloc, instr, next),
        }
    }

    /// Executes the next instruction. The only error is out of memory.
    pub(crate) fn step(&mut self, alloc: Global, code: &Code) -> Result<StepResult, Memory>
        ensures { IfOk result (λ t. IsStepResult code.now (seen.next_step code.now (machine_of code.now self.old)) t (machine_of code.now self.new)) }
    {
        let methods = code.methods();
        let method = self.top.method;
        if method >= methods.len() {
            return Ok(StepResult::Stuck);
        }
        let instrs = methods[method].instrs.as_slice();
        let at = self.top.state.at;
        if at >= instrs.len() {
            return Ok(StepResult::Stuck);
        }
        self.act(alloc, code, &instrs[at], at + 1)
    }

    /// Applies the answer to the action that the process had next; this spends a tick.
    pub(crate) fn resume_with(&mut self, answer_use: AnswerUse, answer: Answer)
        requires form { IsFormedAnswer answer }
        requires room { vec_len self.old.top.state.stack < vec_capacity self.old.top.state.stack }
        requires tick { self.old.spent < self.old.fuel }
        ensures { (c : Methods) → machine_of c self.new ≡ after_answer (machine_of c self.old) answer_use answer }
    {
        self.spent += 1;
        match answer_operand(answer_use, answer) {
            Some(h) => self.top.state.push_within(h),
            None => {}
        }
    }
}
