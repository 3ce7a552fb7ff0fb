// The state of all collectives of a run. Contracts speak of all arrivals; stored are the latest two of each process.

use crate::arrival::Arrival;
use crate::proc_rounds::{ProcRounds, all_reach, none_left};
use std::alloc::Global;
use std::marker::Model;
use ti_base::{CollKind, Deposit, Memory, Place};

/// The collectives that all processes pass together: the nth round is the nth arrival of each process.
///
/// Contracts speak of the complete courses of all processes: all arrivals so far, with what each contributed, and how many rounds each
/// process has left. Of a course only the numbers of arrivals and departures and the latest two arrivals are stored, since no process can
/// be more than one round ahead of another.
#[derive(Drop)]
pub struct Rounds {
    seats: Vec<ProcRounds>,
}

impl Model for Rounds {
    ghost use Rattle.std.specs.Prelude.{List};
    ghost use Rattle.ti_rounds.specs.declared.proc_rounds.ProcRounds.{ProcRounds};
    ghost use Rattle.ti_rounds.specs.Mirrors.{AreInStep};

    ghost Value = { List ProcRounds };

    ghost view = { λ r. r.seats.items };

    ghost invariant = { λ r. AreInStep r.seats.items };
}

impl Rounds {
    ghost use Rattle.std.specs.Prelude.{◌≡◌, ℕ, ◌+◌, ◌-◌, ◌^◌, ◌<◌, ◌≤◌, ◌↔◌, List, length, replicate, slice_set, Some, IsTrue, IfOk};
    ghost use Rattle.ti_base.specs.declared.action.Deposit.TheVariants.{Nothing};
    ghost use Rattle.ti_rounds.specs.declared.arrival.Arrival.{Arrival as ArrivalRecord};
    ghost use Rattle.ti_rounds.specs.Seats.{seat_at, round_at, left_by, HasLeft, Waits, IsReached, IsUnleft, collective_of};
    ghost use Rattle.ti_rounds.specs.Courses.{Course, no_course, Keeps, AllSay, said_at, given_at, departure_of, with_arrival, with_departure};
    ghost use Rattle.ti_rounds.specs.Mirrors.{AreInStep};

    /// The rounds of the given number of processes, none of which has arrived at one.
    pub fn new(alloc: Global, procs: u32) -> Result<Self, Memory>
        ensures { IfOk result (λ rounds. Keeps rounds (replicate procs no_course)) }
    {
        let mut seats = Vec::new(alloc);
        seats.resize(procs as usize, ProcRounds::new())?;
        Ok(Rounds { seats })
    }

    // The stored state of `process`; its contract also states that all processes are in step.
    fn seat(&self, process: u32) -> ProcRounds
        requires { process < length self.now }
        ensures value { result ≡ seat_at self.now process }
        ensures in_step { AreInStep self.now }
    {
        self.seats[process as usize]
    }

    // Replaces the stored state of `process`.
    fn keep(&mut self, process: u32, seat: ProcRounds)
        requires process { process < length self.old }
        requires in_step { AreInStep (slice_set self.old process seat) }
        ensures { self.new ≡ slice_set self.old process seat }
    {
        self.seats[process as usize] = seat;
    }

    // What process `who` contributed at a round that all have reached, and beyond which nobody is by more than one.
    fn given_in(&self, who: u32, round: u64) -> Deposit
        requires reached { IsReached self.now round }
        requires kept { (q : ℕ) → q < length self.now → round_at self.now q ≤ round + 1 }
        ensures { (courses : List Course) → Keeps self.now courses → result ≡ given_at courses who round }
    {
        match self.seats.get(who as usize) {
            Some(seat) => seat.given_at(round),
            None => Deposit::Nothing,
        }
    }

    /// `process` arrives at its next round.
    ///
    /// It must not be waiting, processes that have already arrived at this round must have stated the same kind, place and argument, and
    /// it must have arrived fewer than 2^64 - 1 times.
    pub fn arrive(
        &mut self,
        process: u32,
        kind: CollKind,
        place: Place,
        arg: Option<u32>,
        contribution: Deposit,
    )
        requires process { process < length self.old }
        requires goes { HasLeft self.old process }
        requires agrees { (courses : List Course) × Keeps self.old courses × AllSay courses (round_at self.old process + 1) (kind, place, arg) }
        requires countable { round_at self.old process < 2 ^ 64 - 1 }
        ensures { (courses : List Course) → Keeps self.old courses → Keeps self.new (with_arrival courses process (record {
          kind = kind;
          place = place;
          arg = arg;
          deposit = contribution;
        })) }
    {
        let seat = self.seat(process);
        self.keep(
            process,
            seat.after_arrival(Arrival {
                kind,
                place,
                arg,
                deposit: contribution,
            }),
        );
    }

    /// Whether all processes have arrived at the round in which `process` waits.
    pub fn complete(&self, process: u32) -> bool
        requires process { process < length self.now }
        requires waits { Waits self.now process }
        ensures { IsTrue result ↔ IsReached self.now (round_at self.now process) }
    {
        let seat = self.seat(process);
        all_reach(&self.seats, seat.arrivals)
    }

    /// Whether no process has left the round in which `process` waits.
    pub fn first_out(&self, process: u32) -> bool
        requires process { process < length self.now }
        requires waits { Waits self.now process }
        ensures { IsTrue result ↔ IsUnleft self.now (round_at self.now process) }
    {
        let seat = self.seat(process);
        none_left(&self.seats, seat.arrivals)
    }

    // What `process` will receive at its departure from the round in which it waits.
    fn handed_out(&self, process: u32) -> Deposit
        requires process { process < length self.now }
        requires waits { Waits self.now process }
        requires complete { IsReached self.now (round_at self.now process) }
        ensures { (courses : List Course) → Keeps self.now courses → result ≡ departure_of courses process }
    {
        let seat = self.seat(process);
        let Some(arrival) = seat.latest else {
            return Deposit::Nothing;
        };
        let CollKind::Broadcast = arrival.kind else {
            return Deposit::Nothing;
        };
        match arrival.arg {
            Some(root) => self.given_in(root, seat.arrivals),
            None => Deposit::Nothing,
        }
    }

    /// `process` leaves the round in which it waits, which all must have reached. It receives what the root contributed if this is a
    /// broadcast, and `Nothing` otherwise.
    pub fn depart(&mut self, process: u32) -> Deposit
        requires process { process < length self.old }
        requires waits { Waits self.old process }
        requires complete { IsReached self.old (round_at self.old process) }
        ensures left { (courses : List Course) → Keeps self.old courses → Keeps self.new (with_departure courses process) }
        ensures value { (courses : List Course) → Keeps self.old courses → result ≡ departure_of courses process }
    {
        let deposit = self.handed_out(process);
        let seat = self.seat(process);
        self.keep(process, seat.after_departure());
        deposit
    }

    /// What process `who` contributed in the round that `process` left last. `process` must not be waiting.
    pub fn take(&self, process: u32, who: u32) -> Deposit
        requires process { process < length self.now }
        requires giver { who < length self.now }
        requires goes { HasLeft self.now process }
        requires left { 0 < left_by self.now process }
        ensures { (courses : List Course) → Keeps self.now courses → result ≡ given_at courses who (left_by self.now process) }
    {
        let seat = self.seat(process);
        self.given_in(who, seat.departures)
    }

    /// Kind, place and argument of the round in which `process` waits. All processes that have arrived there stated the same.
    pub fn round_of(&self, process: u32) -> (CollKind, Place, Option<u32>)
        requires process { process < length self.now }
        requires waits { Waits self.now process }
        ensures own { (courses : List Course) → Keeps self.now courses → said_at courses process (round_at self.now process) ≡ Some result }
        ensures all { (courses : List Course) → Keeps self.now courses → AllSay courses (round_at self.now process) result }
    {
        match self.seat(process).latest {
            Some(arrival) => arrival.collective(),
            None => unreachable!(),
        }
    }

    /// What process `who` contributed in the round in which `process` waits, which all must have reached.
    pub fn given(&self, process: u32, who: u32) -> Deposit
        requires process { process < length self.now }
        requires giver { who < length self.now }
        requires waits { Waits self.now process }
        requires complete { IsReached self.now (round_at self.now process) }
        ensures { (courses : List Course) → Keeps self.now courses → result ≡ given_at courses who (round_at self.now process) }
    {
        let seat = self.seat(process);
        self.given_in(who, seat.arrivals)
    }
}
