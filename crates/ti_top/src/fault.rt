// The fault that ended a run.
ghost use Rattle.std.specs.Prelude.{◌≡◌, Some};
ghost use Rattle.ti_top.specs.Run.{EndsWithFault};

use ti_base::{Action, FaultKind, Place};
use ti_history::PackedHistory;

/// The fault that ended a run: which one, in which process, and where.
#[derive(Clone, Copy, Debug, PartialEq, Eq)]
pub struct Fault {
    pub kind: FaultKind,
    pub proc: u32,
    pub place: Place,
}

impl Fault {
    ghost use Rattle.ti_top.specs.declared.fault.Fault.{Fault};

    /// The fault at the end of a history, if the last entry is one.
    pub fn at_end(history: &PackedHistory) -> Option<Fault>
        ensures { (fault : Fault) → EndsWithFault history.now.items fault → result ≡ Some fault }
    {
        let entry = history.last()?;
        match entry.act {
            Action::Fault { kind } => Some(Fault {
                kind,
                proc: entry.proc,
                place: entry.place,
            }),
            _ => None,
        }
    }
}
