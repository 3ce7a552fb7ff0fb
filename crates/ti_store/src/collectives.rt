// The actions at collectives: arrival, departure, and the taking of another process's contribution after an exchange.

ghost use Rattle.std.specs.Prelude.{◌≡◌, ◌+◌, ◌<◌, ◌↔◌, true, length, Some, IsTrue, IfOk, OnErr};
ghost use Rattle.ti_base.specs.declared.action.Action.TheVariants as act;
ghost use Rattle.ti_base.specs.declared.action.CollKind.TheVariants as coll;
ghost use Rattle.ti_base.specs.declared.entry.Answer.TheVariants.{Done};
ghost use Rattle.ti_lang.specs.Meaning.Histories.{arrivals, departures};
ghost use Rattle.ti_lang.specs.Meaning.RoundsOf.{Arrival, last_arrival, makes_region, rounds_making};
ghost use Rattle.ti_lang.specs.Meaning.HeapAnswers.{Answers, heap_answer};
ghost use Rattle.ti_store.specs.Mirrors.Rounds.{KeepsRounds};
ghost use Rattle.ti_store.specs.Mirrors.RunState.{AllArrived, answer_given};
ghost use Rattle.ti_store.specs.Mirrors.Parts.{program_in, history_in, IsReadyFor, HasEffect};

use crate::run_state::{ActOutcome, RunState};
use ti_base::{Answer, CollKind, Deposit, FaultKind, Memory, Place, Value};

/// The answer that passes on a contribution: its value, if it is one.
fn answer_given(given: Deposit) -> Answer
    ensures { result ≡ answer_given given }
{
    match given {
        Deposit::One(value) => Answer::Val(value),
        _ => Answer::Done,
    }
}

impl RunState {
    /// Whether all processes have arrived at the collective at which process `proc` waits.
    pub fn all_arrived(&self, proc: u32) -> bool
        requires process { proc < self.now.procs }
        requires kept { KeepsRounds self.now.procs (history_in self.now) self.now.rounds }
        requires waits { arrivals proc self.now.entries.items ≡ departures proc self.now.entries.items + 1 }
        ensures { IsTrue result ↔ AllArrived self.now.procs proc self.now.entries.items }
    {
        self.rounds.complete(proc)
    }

    // Records the arrival of process `proc` at a collective. It isn't the delete of a deleted region; if it makes a region, that region
    // exists already.
    fn reach(
        &mut self,
        proc: u32,
        place: Place,
        kind: CollKind,
        arg: Option<u32>,
        given: Deposit,
    ) -> ActOutcome
        requires ready { IsReadyFor self.old proc place (act.Arrive kind arg given) }
        requires answered { heap_answer (program_in self.old) (history_in self.old) proc (act.Arrive kind arg given) ≡ Answers Done }
        requires there { makes_region (act.Arrive kind arg given) ≡ true → rounds_making proc (history_in self.old) < length self.old.regions }
        ensures { HasEffect self.old proc place (act.Arrive kind arg given) result self.new }
    {
        // For the prover: the bound of the number of entries shows that the arrivals can be counted without overflow.
        let _bound = self.entries.len();
        self.region_rounds.count(proc, kind);
        self.rounds.arrive(proc, kind, place, arg, given);
        ActOutcome::Answered(Answer::Done)
    }

    // Records the arrival of process `proc` at the delete of a region. Faults with `RegionGone` if the region is deleted.
    fn reach_delete(
        &mut self,
        proc: u32,
        place: Place,
        arg: Option<u32>,
        given: Deposit,
    ) -> ActOutcome
        requires { IsReadyFor self.old proc place (act.Arrive coll.DeleteRegion arg given) }
        ensures { HasEffect self.old proc place (act.Arrive coll.DeleteRegion arg given) result self.new }
    {
        let Some(region) = arg else { unreachable!() };
        if self.is_gone(region) {
            return ActOutcome::Faulted(FaultKind::RegionGone);
        }
        self.reach(proc, place, CollKind::DeleteRegion, arg, given)
    }

    /// Records the arrival of process `proc` at a collective. Faults with `RegionGone` at the delete of a deleted region. If memory runs
    /// out, nothing changes.
    pub fn arrive(
        &mut self,
        proc: u32,
        place: Place,
        kind: CollKind,
        arg: Option<u32>,
        given: Deposit,
    ) -> Result<ActOutcome, Memory>
        requires { IsReadyFor self.old proc place (act.Arrive kind arg given) }
        ensures ok { IfOk result (λ reply. HasEffect self.old proc place (act.Arrive kind arg given) reply self.new) }
        ensures err { OnErr result (self.new ≡ self.old) }
    {
        match kind {
            CollKind::DeleteRegion => Ok(self.reach_delete(proc, place, arg, given)),
            CollKind::MakeRegion => {
                self.make_region(proc)?;
                Ok(self.reach(proc, place, kind, arg, given))
            }
            _ => Ok(self.reach(proc, place, kind, arg, given)),
        }
    }

    // Process `proc` leaves the delete of a region, at which all have arrived. The first process to leave faults with `RegionInUse` if the
    // region is in use, and deletes it otherwise.
    fn leave_delete(&mut self, proc: u32, place: Place, arg: Option<u32>) -> ActOutcome
        requires ready { IsReadyFor self.old proc place act.Depart }
        requires last { (a : Arrival) × (last_arrival proc (history_in self.old) ≡ Some a) × (a.kind ≡ coll.DeleteRegion) × (a.arg ≡ arg) }
        ensures { HasEffect self.old proc place act.Depart result self.new }
    {
        let Some(region) = arg else { unreachable!() };
        if !self.is_first(proc) {
            self.rounds.depart(proc);
            return ActOutcome::Answered(Answer::Done);
        }
        // 0 is no region and can't be deleted.
        if region == 0 {
            return ActOutcome::Faulted(FaultKind::RegionInUse);
        }
        if self.is_in_use(proc, region) {
            return ActOutcome::Faulted(FaultKind::RegionInUse);
        }
        self.drop_region(region);
        self.rounds.depart(proc);
        ActOutcome::Answered(Answer::Done)
    }

    /// Process `proc` leaves the collective at which it waits and at which all have arrived. The answer is the new region, the value that
    /// was broadcast, or no value; at a delete see `leave_delete`.
    pub fn depart(&mut self, proc: u32, place: Place) -> ActOutcome
        requires { IsReadyFor self.old proc place act.Depart }
        ensures { HasEffect self.old proc place act.Depart result self.new }
    {
        let (kind, _, arg) = self.rounds.round_of(proc);
        match kind {
            CollKind::DeleteRegion => self.leave_delete(proc, place, arg),
            CollKind::MakeRegion => {
                self.rounds.depart(proc);
                let region = self.region_rounds.of(proc);
                ActOutcome::Answered(Answer::Val(Value::Region(region)))
            }
            _ => {
                let given = self.rounds.depart(proc);
                ActOutcome::Answered(answer_given(given))
            }
        }
    }

    /// What process `who` contributed to the collective that process `proc` left last.
    pub fn take(&self, proc: u32, place: Place, who: u32) -> ActOutcome
        requires { IsReadyFor self.now proc place (act.Take who) }
        ensures { HasEffect self.now proc place (act.Take who) result self.now }
    {
        ActOutcome::Answered(answer_given(self.rounds.take(proc, who)))
    }
}
