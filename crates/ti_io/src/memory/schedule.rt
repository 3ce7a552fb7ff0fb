// Which calls of a source or a sink in memory fail.
ghost use Rattle.std.specs.Prelude.{◌≡◌, ◌||◌};
ghost use Rattle.ti_io.specs.Faults.{HasCause};
ghost use Rattle.ti_io.specs.InMemory.{new_schedule, is_due, TakesTurn};

use crate::Failed;
use crate::faults::FaultCount;
use std::marker::Model;

// The numbers of the calls that fail, the number of calls so far, and how many of them failed. The count of calls saturates at 2^64 - 1,
// which is above all numbers of calls that can be made to fail.
#[derive(Drop)]
pub struct Schedule {
    // The numbers of the calls that fail, counted from 0.
    fails: Vec<u32>,
    calls: u64,
    faults: FaultCount,
}

impl Model for Schedule {
    ghost use Rattle.ti_io.specs.InMemory.{FaultSchedule};

    ghost Value = { FaultSchedule };

    ghost view = { λ s. record { fails = s.fails.items; calls = s.calls; faults = s.faults } };
}

impl Schedule {
    // The state before the first call; calls with these numbers, counted from 0, will fail.
    pub fn new(fails: Vec<u32>) -> Self
        ensures { result ≡ new_schedule fails.items }
    {
        Schedule {
            fails,
            calls: 0,
            faults: FaultCount::new(),
        }
    }

    // Counts a call, which fails if its number is in the list or if it is blocked.
    pub fn next(&mut self, is_blocked: bool) -> Result<(), Failed>
        ensures turn { TakesTurn (is_due self.old || is_blocked) self.old self.new result }
        ensures cause { HasCause self.old.faults self.new.faults result }
    {
        let is_failing = self.is_due() || is_blocked;
        self.calls = self.calls.saturating_add(1);
        if is_failing {
            return Err(self.faults.raise());
        }
        Ok(())
    }

    // Whether the next call is one that fails.
    fn is_due(&self) -> bool
        ensures { result ≡ is_due self.now }
    {
        self.fails
            .iter()
            .any(|number| u64::from(*number) == self.calls)
    }
}
