// The ghost history of a process, by which contracts refer to its beginning and to the answers it has received. It has no effect at run
// time.

ghost use Rattle.std.specs.Prelude.{◌≡◌, [], ◌∷◌, ◌++◌, false};
ghost use Rattle.std.specs.Borrow.{ftrue};
ghost use Rattle.ti_base.specs.contracts.entry.Answer as one_answer;
ghost use Rattle.ti_code.specs.contracts.code.Code as all_code;
ghost use Rattle.ti_machine.specs.ProcView.{ProcView};
ghost use Rattle.ti_machine.specs.Mirrors.ProcView.{proc_view_code};

use std::marker::Model;
use ti_base::Answer;
use ti_code::Code;
use ti_eval::Rank;

/// Ghost history: the initial configuration of a process and the answers that it has received. It is zero-sized and exists only for
/// contracts.
#[derive(Drop)]
pub struct ProcHistory {
    pub ghost standing: { ProcView } by { proc_view_code all_code.the_row.coded one_answer.the_row.coded },
}

impl Model for ProcHistory {
    ghost also_owns = { λ _. ftrue };
}

// SAFETY: it owns nothing.
unsafe impl Send for ProcHistory {}

impl ProcHistory {
    /// The history of a process that has received no answer.
    pub(crate) fn of(_code: &Code, _team: &Rank, _fuel: &u32) -> ProcHistory
        ensures { result.standing ≡ record {
          code = _code.now;
          procs = _team.now.procs;
          fuel = _fuel.now;
          number = _team.now.number;
          answers = [];
          asks = false;
        } }
    {
        ProcHistory {}
    }

    /// The history with one more answer.
    pub(crate) fn and(&self, _answer: &Answer) -> ProcHistory
        ensures { result.standing ≡ record self.now.standing { answers = self.now.standing.answers ++ _answer.now ∷ [] } }
    {
        ProcHistory {}
    }
}
