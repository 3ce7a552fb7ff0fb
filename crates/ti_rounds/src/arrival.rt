// Arrivals at collectives.
ghost use Rattle.std.specs.Prelude.{◌≡◌};

use ti_base::{CollKind, Deposit, Place};

/// What a process states when it arrives at a collective.
#[derive(Clone, Copy)]
pub struct Arrival {
    /// Which collective it is.
    pub kind: CollKind,
    /// Its position in the source.
    pub place: Place,
    /// The root of a broadcast or the region that is deleted, if it is one of these.
    pub arg: Option<u32>,
    /// What the process contributes.
    pub deposit: Deposit,
}

impl Arrival {
    ghost use Rattle.ti_rounds.specs.Seats.{collective_of};

    /// Kind, place and argument, which are equal for all processes that arrive at one collective.
    pub fn collective(&self) -> (CollKind, Place, Option<u32>)
        ensures { result ≡ collective_of self.now }
    {
        (self.kind, self.place, self.arg)
    }
}
