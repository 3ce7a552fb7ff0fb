// The ghost history of a process, by which contracts refer to its beginning and to the answers it has received. It has no effect at run
// time.

ghost use Rattle.std.specs.Prelude.{◌≡◌, [], ◌∷◌, ◌++◌, false};
ghost use Rattle.std.specs.Borrow.{ftrue};
ghost use Rattle.ti_base.specs.contracts.entry.Answer as one_answer;
ghost use Rattle.ti_lang.specs.contracts.program.classes.ProgramData as parts;
ghost use Rattle.ti_exec.specs.Standing.{TreeProcView};
ghost use Rattle.ti_exec.specs.Mirrors.Standing.{view_code};

use std::marker::Model;
use ti_base::Answer;
use ti_eval::Rank;
use ti_lang::program::ProgramData;

/// Ghost history: the initial configuration of a process and the answers that it has received. It is zero-sized and exists only for
/// contracts.
#[derive(Drop)]
pub struct GhostTreeHistory {
    pub ghost standing: { TreeProcView } by { view_code parts.the_row.coded one_answer.the_row.coded },
}

impl Model for GhostTreeHistory {
    ghost also_owns = { λ _. ftrue };
}

// SAFETY: it owns nothing.
unsafe impl Send for GhostTreeHistory {}

impl GhostTreeHistory {
    /// The history of a process that has received no answer.
    pub(crate) fn of(_c: &ProgramData, _team: &Rank, _fuel: &u32) -> GhostTreeHistory
        ensures { result.standing ≡ record {
          program = _c.now;
          procs = _team.now.procs;
          fuel = _fuel.now;
          number = _team.now.number;
          told = [];
          asks = false;
        } }
    {
        GhostTreeHistory {}
    }

    /// The history with one more answer.
    pub(crate) fn and(&self, _answer: &Answer) -> GhostTreeHistory
        ensures { result.standing ≡ record self.now.standing { told = self.now.standing.told ++ _answer.now ∷ [] } }
    {
        GhostTreeHistory {}
    }
}
