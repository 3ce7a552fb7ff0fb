// The stored state of one process.
ghost use Rattle.std.specs.Prelude.{◌≡◌, ◌+◌, ◌^◌, ◌<◌, ◌≤◌, ◌↔◌, IsTrue};
ghost use Rattle.ti_rounds.specs.Seats.{IsReached, IsUnleft};

use crate::arrival::Arrival;
use ti_base::Deposit;

/// How many rounds a process has reached and left, and its arrivals at the two latest rounds.
#[derive(Clone, Copy)]
pub struct ProcRounds {
    /// How many rounds it has reached.
    pub arrivals: u64,
    /// How many rounds it has left.
    pub departures: u64,
    /// Its arrival at the round that it reached last.
    pub latest: Option<Arrival>,
    /// Its arrival at the round before that.
    pub before: Option<Arrival>,
}

impl ProcRounds {
    ghost use Rattle.ti_rounds.specs.Seats.{new_seat};
    ghost use Rattle.ti_rounds.specs.Courses.{deposit_of};
    ghost use Rattle.ti_rounds.specs.Mirrors.{after_arrival, after_departure, kept_at};

    /// The state of a process that has reached no round.
    pub fn new() -> Self
        ensures { result ≡ new_seat }
    {
        ProcRounds {
            arrivals: 0,
            departures: 0,
            latest: None,
            before: None,
        }
    }

    /// The state after an arrival.
    pub fn after_arrival(self, arrival: Arrival) -> Self
        requires { self.arrivals + 1 < 2 ^ 64 }
        ensures { result ≡ after_arrival self arrival }
    {
        ProcRounds {
            arrivals: self.arrivals + 1,
            departures: self.departures,
            latest: Some(arrival),
            before: self.latest,
        }
    }

    /// The state after a departure.
    pub fn after_departure(self) -> Self
        requires { self.departures + 1 < 2 ^ 64 }
        ensures { result ≡ after_departure self }
    {
        ProcRounds {
            arrivals: self.arrivals,
            departures: self.departures + 1,
            latest: self.latest,
            before: self.before,
        }
    }

    /// What the process contributed at a round, which must be the one that it reached last, or the one before that.
    pub fn given_at(&self, round: u64) -> Deposit
        requires reached { round ≤ self.now.arrivals }
        requires kept { self.now.arrivals ≤ round + 1 }
        ensures { result ≡ deposit_of (kept_at round self.now) }
    {
        let arrival = if self.arrivals == round {
            self.latest
        } else {
            self.before
        };
        match arrival {
            Some(arrival) => arrival.deposit,
            None => Deposit::Nothing,
        }
    }
}

/// Whether all processes have arrived at the round with this number, counted from 1.
pub fn all_reach(seats: &[ProcRounds], round: u64) -> bool
    ensures { IsTrue result ↔ IsReached seats.now round }
{
    for seat in seats {
        if seat.arrivals < round {
            return false;
        }
    }
    true
}

/// Whether no process has left the round with this number, counted from 1.
pub fn none_left(seats: &[ProcRounds], round: u64) -> bool
    ensures { IsTrue result ↔ IsUnleft seats.now round }
{
    for seat in seats {
        if seat.departures >= round {
            return false;
        }
    }
    true
}
