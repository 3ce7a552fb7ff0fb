// A sink in memory.
ghost use Rattle.std.specs.Prelude.{◌≡◌, ◌-◌, ◌≤◌, [], true, ◌||◌, min, length, OnOk, OnErr, IfOk};
ghost use Rattle.ti_io.specs.Faults.{HasCause};
ghost use Rattle.ti_io.specs.Sink.{IsFlushed, WriteAnswers};
ghost use Rattle.ti_io.specs.InMemory.{new_schedule, is_due, finds_no_room, TakesTurn};

use crate::memory::schedule::Schedule;
use crate::{Failed, Sink};
use std::alloc::Global;
use std::marker::Model;
use ti_base::Memory;

/// Writes bytes into memory, up to a capacity. A call fails exactly if its number, counted from 0 over both methods, is in a list, or if
/// it is a write of at least one byte and the capacity is used up.
///
/// Contracts see the bytes written, how many of them are flushed, the maximum for one write, the capacity for all writes, and which calls
/// fail.
#[derive(Drop)]
pub struct MemSink {
    taken: Vec<u8>,
    // How many bytes had been written at the last successful flush.
    flushed: usize,
    // The maximal number of bytes of one write.
    piece: usize,
    // The maximal number of bytes of all writes.
    room: usize,
    schedule: Schedule,
}

impl Model for MemSink {
    ghost use Rattle.std.specs.Prelude.{◌≤◌, vec_len, vec_capacity};
    ghost use Rattle.ti_io.specs.InMemory.{SinkInMemory};

    ghost Value = { SinkInMemory };

    ghost view = { λ s. record { taken = s.taken.items; flushed = s.flushed; piece = s.piece; room = s.room; turns = s.schedule } };

    ghost invariant = { λ s. (1 ≤ s.piece) × (vec_len s.taken ≤ s.room) × (s.room ≤ vec_capacity s.taken) };
}

impl MemSink {
    /// A sink that accepts at most `piece` bytes in one write, and `room` bytes in all. It allocates its capacity at once.
    pub fn new(alloc: Global, piece: usize, room: usize, fails: Vec<u32>) -> Result<Self, Memory>
        requires { 1 ≤ piece }
        ensures { IfOk result (λ sink. sink ≡ record {
          taken = [];
          flushed = 0;
          piece = piece;
          room = room;
          turns = new_schedule fails.items;
        }) }
    {
        match Vec::with_capacity(alloc, room) {
            Ok(taken) => Ok(MemSink {
                taken,
                flushed: 0,
                piece,
                room,
                schedule: Schedule::new(fails),
            }),
            Err(_) => Err(Memory),
        }
    }

    /// The bytes written so far.
    pub fn bytes(&self) -> &[u8]
        ensures { result.now ≡ self.now.taken }
    {
        self.taken.as_slice()
    }

    /// How many bytes had been written at the last successful flush.
    pub fn flushed(&self) -> usize
        ensures { result ≡ self.now.flushed }
    {
        self.flushed
    }
}

impl Sink for MemSink {
    ghost state = { λ s. record { tells = true; taken = s.taken; flushed = s.flushed; faults = s.turns.faults } };

    fn write(&mut self, piece: &[u8]) -> Result<usize, Failed>
        ensures cause { HasCause (⟦<MemSink as Sink>⟧.state self.old).faults (⟦<MemSink as Sink>⟧.state self.new).faults result }
        ensures still { OnOk result ((⟦<MemSink as Sink>⟧.state self.new).faults ≡ (⟦<MemSink as Sink>⟧.state self.old).faults) }
        ensures tells { (⟦<MemSink as Sink>⟧.state self.new).tells ≡ (⟦<MemSink as Sink>⟧.state self.old).tells }
        ensures kept { OnErr result ((⟦<MemSink as Sink>⟧.state self.new).taken ≡ (⟦<MemSink as Sink>⟧.state self.old).taken) }
        ensures unflushed { (⟦<MemSink as Sink>⟧.state self.new).flushed ≡ (⟦<MemSink as Sink>⟧.state self.old).flushed }
        ensures answer { IfOk result (WriteAnswers piece.now (⟦<MemSink as Sink>⟧.state self.old) (⟦<MemSink as Sink>⟧.state self.new)) }
        ensures turn { TakesTurn (is_due self.old.turns || finds_no_room self.old piece.now) self.old.turns self.new.turns result }
        ensures piece { self.new.piece ≡ self.old.piece }
        ensures room { self.new.room ≡ self.old.room }
        ensures amount { IfOk result (λ count. count ≡ min (min (length piece.now) self.old.piece)
            (self.old.room - length self.old.taken)) }
    {
        let is_full = !piece.is_empty() && self.taken.len() >= self.room;
        self.schedule.next(is_full)?;
        let count = piece
            .len()
            .min(self.piece)
            .min(self.room - self.taken.len());
        self.taken.extend_from_slice(&piece[..count]).unwrap();
        Ok(count)
    }

    fn flush(&mut self) -> Result<(), Failed>
        ensures cause { HasCause (⟦<MemSink as Sink>⟧.state self.old).faults (⟦<MemSink as Sink>⟧.state self.new).faults result }
        ensures still { OnOk result ((⟦<MemSink as Sink>⟧.state self.new).faults ≡ (⟦<MemSink as Sink>⟧.state self.old).faults) }
        ensures tells { (⟦<MemSink as Sink>⟧.state self.new).tells ≡ (⟦<MemSink as Sink>⟧.state self.old).tells }
        ensures kept { (⟦<MemSink as Sink>⟧.state self.new).taken ≡ (⟦<MemSink as Sink>⟧.state self.old).taken }
        ensures flushed { OnOk result (IsFlushed (⟦<MemSink as Sink>⟧.state self.new)) }
        ensures unflushed { OnErr result ((⟦<MemSink as Sink>⟧.state self.new).flushed ≡ (⟦<MemSink as Sink>⟧.state self.old).flushed) }
        ensures turn { TakesTurn (is_due self.old.turns) self.old.turns self.new.turns result }
        ensures piece { self.new.piece ≡ self.old.piece }
        ensures room { self.new.room ≡ self.old.room }
    {
        self.schedule.next(false)?;
        self.flushed = self.taken.len();
        Ok(())
    }
}
