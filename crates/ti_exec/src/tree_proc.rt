// A process of a checked program, as other crates use it.

ghost use Rattle.std.specs.Prelude.{◌≡◌, ◌<◌, ◌^◌, [], ◌∷◌, ◌++◌, true, false, IfOk, IfErr, IsOk};
ghost use Rattle.ti_lang.specs.Program.Views.{program_of};
ghost use Rattle.ti_eval.specs.Forms.{IsFormedAnswer};
ghost use Rattle.ti_exec.specs.Standing.{is_act, HasNext, IsAfterAnswer};

use crate::ghost_history::GhostTreeHistory;
use crate::process::{PendingRequest, TreeMachine};
use crate::run_loop::TreeProcState;
use std::alloc::Global;
use std::marker::Model;
use std::mem;
use ti_base::{Answer, Memory, Next};
use ti_eval::{CanonicalAnswer, Rank};
use ti_rules::Checked;

/// A process of a checked program.
///
/// Contracts see the program, the number of processes, the fuel of each, the number of this process, the answers that it has received so
/// far, and whether it waits for the answer to an action. Of the program it keeps only the types of the variables in scope, and of the
/// answers only those to its current work.
#[derive(Drop)]
pub struct TreeProc {
    machine: TreeMachine,
    state: TreeProcState,
    history: GhostTreeHistory,
}

impl Model for TreeProc {
    ghost use Rattle.ti_base.specs.contracts.entry.Answer as one_answer;
    ghost use Rattle.ti_lang.specs.contracts.program.classes.ProgramData as parts;
    ghost use Rattle.ti_exec.specs.Standing.{TreeProcView};
    ghost use Rattle.ti_exec.specs.Mirrors.Standing.{view_code};

    ghost Value = { TreeProcView };

    ghost coded = { view_code parts.the_row.coded one_answer.the_row.coded };

    ghost use Rattle.ti_exec.specs.Mirrors.TreeProc.{view_in, IsSound};

    ghost view = { view_in };

    ghost invariant = { IsSound };
}

impl TreeProc {
    /// Process `number` of `procs` before its first step.
    pub fn start(
        alloc: Global,
        checked: &Checked,
        number: u32,
        procs: u32,
        fuel: u32,
    ) -> Result<TreeProc, Memory>
        requires number { number < 2 ^ 31 }
        requires procs { procs < 2 ^ 31 }
        ensures ok { IsOk result }
        ensures value { IfOk result (λ t. t ≡ record {
          program = checked.now.program.parts;
          procs = procs;
          fuel = fuel;
          number = number;
          told = [];
          asks = false;
        }) }
    {
        let parts = &checked.program().parts;
        let rank = Rank { number, procs };
        Ok(TreeProc {
            machine: TreeMachine::begin(alloc, parts, rank, fuel),
            state: TreeProcState::Running,
            history: GhostTreeHistory::of(parts, &rank, &fuel),
        })
    }

    /// Runs the process up to what it has next: an action, its end or a fault of its own. Until it is answered, later calls return the
    /// same, unless they are out of memory.
    ///
    /// After out of memory the process is unusable: each later call is out of memory, too.
    pub fn advance(&mut self, alloc: Global, checked: &Checked) -> Result<Next, Memory>
        requires { program_of checked.now.program.parts ≡ program_of self.old.program }
        ensures next { IfOk result (λ n. HasNext self.old n) }
        ensures standing { IfOk result (λ n. self.new ≡ record self.old { asks = is_act n }) }
        ensures memory { IfErr result (λ _. self.new ≡ record self.old { asks = false }) }
    {
        if self.state.is_poisoned() {
            return Err(Memory);
        }
        self.state.set(TreeProcState::Poisoned);
        let (next, state) = self
            .machine
            .run_to_suspension(alloc, &checked.program().parts)?;
        self.machine.answers.reserve(1)?;
        self.state.set(state);
        Ok(next)
    }

    /// Passes the answer to the action for which the process waits.
    pub fn answer(&mut self, answer: Answer)
        requires asks { self.old.asks ≡ true }
        requires form { IsFormedAnswer answer }
        ensures standing { self.new ≡ record self.old { told = self.old.told ++ answer ∷ []; asks = false } }
        ensures answered { IsAfterAnswer self.old answer self.new }
    {
        let TreeProcState::Suspended(asking) = mem::replace(&mut self.state, TreeProcState::Running)
        else {
            unreachable!()
        };
        let PendingRequest { on_answer, .. } = Box::into_inner(asking);
        self.machine
            .resume_with(on_answer, CanonicalAnswer::of(answer));
        self.history = self.history.and(&answer);
    }
}
