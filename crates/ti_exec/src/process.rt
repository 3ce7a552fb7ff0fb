// The state of a process: its calls with their positions, and its mode.

ghost use Rattle.std.specs.Prelude.{◌≡◌, ◌<◌, ◌^◌, length};

use ti_base::{Action, FaultKind, Id, Place};
use ti_eval::{CanonicalAnswer, Rank, Resume, Slot, StmtFrame, VarValue};
use ti_moves::CollectiveCall;

/// The variables in scope of a call, the oldest first. Their number is bounded, so that those of all calls can be counted in 32 bits.
#[derive(Drop)]
pub struct Variables {
    pub slots: Vec<Slot>,
    pub ghost few: { length slots.items < 2 ^ 24 },
}

/// A call in progress, at a statement of its method.
#[derive(Drop)]
pub struct CallFrame {
    /// The number of the method.
    pub method: usize,
    pub this: Option<Id>,
    pub variables: Variables,
    /// The statements entered, the outermost first.
    pub levels: Vec<StmtFrame>,
}

/// The calls that wait in their statements for the result of the call above, the outermost first.
#[derive(Drop)]
pub struct CallStack {
    pub calls: Vec<CallFrame>,
    pub ghost few: { length calls.items < 200 },
}

/// The mode of the interpreter.
#[derive(Drop)]
pub enum ControlMode {
    /// It executes: this work of the innermost statement is pending.
    Walks(Resume),
    /// A value is on its way to the receiver of the innermost statement.
    Receives(VarValue),
    /// It waits at a collective, after which this work is pending.
    Waits(CollectiveCall, Resume),
    /// It waits at a collective for whose value the innermost statement waits.
    Expects(CollectiveCall),
    /// No call is in progress.
    Ended,
}

impl ControlMode {
    /// For the prover: assigns the mode.
    pub(crate) fn set(&mut self, mode: ControlMode)
        ensures { self.new ≡ mode }
    {
        *self = mode;
    }
}

/// A process: its innermost call, the calls below, and its mode.
#[derive(Drop)]
pub struct TreeMachine {
    pub rank: Rank,
    /// The fuel of the process in ticks.
    pub fuel: u32,
    /// The ticks that it has spent.
    pub spent: u32,
    pub callers: CallStack,
    pub top: CallFrame,
    pub mode: ControlMode,
    /// The answers that its current work has received so far.
    pub answers: Vec<CanonicalAnswer>,
}

/// The effect of an action's answer on a process.
#[derive(Drop)]
pub enum OnAnswer {
    /// It is added to the answers of the current work.
    Append,
    /// The process has arrived at a collective, and continues in this mode.
    Arrive(ControlMode),
    /// The process has left the collective.
    Depart,
}

/// A requested action, and the effect of its answer.
#[derive(Drop)]
pub struct PendingRequest {
    pub place: Place,
    pub action: Action,
    pub on_answer: OnAnswer,
}

/// The result of a step.
#[derive(Drop)]
pub enum StepOutcome {
    /// A silent step: the process continues.
    Continue,
    Request(Box<PendingRequest>),
    End(Place),
    Fault(FaultKind, Place),
}
