// A source in memory.
ghost use Rattle.std.specs.Prelude.{◌≡◌, ◌+◌, ◌<◌, ◌≤◌, ◌^◌, [], true, false, ◌||◌, min, length, take, OnOk, OnErr, IfOk, IfNone, IfSome};
ghost use Rattle.ti_io.specs.Faults.{HasCause};
ghost use Rattle.ti_io.specs.Source.{content_of, SameFiles, FindAnswers, ReadAnswers};
ghost use Rattle.ti_io.specs.InMemory.{new_schedule, is_due, TakesTurn, plain_files, held_at, left_of_file};

use crate::memory::schedule::Schedule;
use crate::{Failed, Source};
use std::marker::Model;

/// Files in memory. A call fails exactly if its number, counted from 0 over both methods, is in a list.
///
/// Contracts see the names with their contents, what is left to read of the file found last, the maximum for one read, and which calls
/// fail.
#[derive(Drop)]
pub struct MemSource {
    files: Vec<(String, Vec<u8>)>,
    // The maximal number of bytes of one read.
    piece: usize,
    schedule: Schedule,
    // The index of the file that was found last.
    found: Option<usize>,
    // How many bytes of that file have been read.
    offset: usize,
}

impl Model for MemSource {
    ghost use Rattle.std.specs.Prelude.{◌≤◌};
    ghost use Rattle.ti_io.specs.InMemory.{SourceInMemory, plain_files, left_of_file};

    ghost Value = { SourceInMemory };

    ghost view = { λ s. record {
      files = plain_files s.files.items;
      left = left_of_file (plain_files s.files.items) s.found s.offset;
      piece = s.piece;
      turns = s.schedule;
    } };

    ghost invariant = { λ s. 1 ≤ s.piece };
}

impl MemSource {
    /// A source of these files; if two have one name, the first is used. One read returns at most `piece` bytes.
    pub fn new(files: Vec<(String, Vec<u8>)>, piece: usize, fails: Vec<u32>) -> Self
        requires { 1 ≤ piece }
        ensures { result ≡ record {
          files = plain_files files.items;
          left = [];
          piece = piece;
          turns = new_schedule fails.items;
        } }
    {
        MemSource {
            files,
            piece,
            schedule: Schedule::new(fails),
            found: None,
            offset: 0,
        }
    }
}

impl Source for MemSource {
    ghost state = { λ s. record { tells = true; files = s.files; left = s.left; faults = s.turns.faults } };

    fn find(&mut self, name: &str) -> Result<bool, Failed>
        ensures cause { HasCause (⟦<MemSource as Source>⟧.state self.old).faults (⟦<MemSource as Source>⟧.state self.new).faults result }
        ensures still { OnOk result ((⟦<MemSource as Source>⟧.state self.new).faults ≡ (⟦<MemSource as Source>⟧.state self.old).faults) }
        ensures same { SameFiles (⟦<MemSource as Source>⟧.state self.old) (⟦<MemSource as Source>⟧.state self.new) }
        ensures kept { OnErr result ((⟦<MemSource as Source>⟧.state self.new).left ≡ (⟦<MemSource as Source>⟧.state self.old).left) }
        ensures answer { IfOk result (FindAnswers name.now (⟦<MemSource as Source>⟧.state self.old)
            (⟦<MemSource as Source>⟧.state self.new)) }
        ensures turn { TakesTurn (is_due self.old.turns) self.old.turns self.new.turns result }
        ensures piece { self.new.piece ≡ self.old.piece }
    {
        self.schedule.next(false)?;
        match index_of(&self.files, name) {
            Some(index) => {
                self.found = Some(index);
                self.offset = 0;
                Ok(true)
            }
            None => Ok(false),
        }
    }

    fn read(&mut self, buf: &mut [u8]) -> Result<usize, Failed>
        ensures cause { HasCause (⟦<MemSource as Source>⟧.state self.old).faults (⟦<MemSource as Source>⟧.state self.new).faults result }
        ensures still { OnOk result ((⟦<MemSource as Source>⟧.state self.new).faults ≡ (⟦<MemSource as Source>⟧.state self.old).faults) }
        ensures same { SameFiles (⟦<MemSource as Source>⟧.state self.old) (⟦<MemSource as Source>⟧.state self.new) }
        ensures kept { OnErr result ((⟦<MemSource as Source>⟧.state self.new).left ≡ (⟦<MemSource as Source>⟧.state self.old).left) }
        ensures answer { IfOk result (ReadAnswers buf.new (⟦<MemSource as Source>⟧.state self.old)
            (⟦<MemSource as Source>⟧.state self.new)) }
        ensures turn { TakesTurn (is_due self.old.turns) self.old.turns self.new.turns result }
        ensures piece { self.new.piece ≡ self.old.piece }
        ensures amount { IfOk result (λ count. count ≡ min (min self.old.piece (length buf.old)) (length self.old.left)) }
    {
        self.schedule.next(false)?;
        let left = left_of(&self.files, self.found, self.offset);
        let count = copy_front(left, self.piece, buf);
        self.offset = self.offset.saturating_add(count);
        Ok(count)
    }
}

// The index of the first file with this name.
fn index_of(files: &[(String, Vec<u8>)], name: &str) -> Option<usize>
    ensures missing { IfNone result (content_of (plain_files files.now) name.now ≡ None) }
    ensures found { IfSome result (λ index. content_of (plain_files files.now) name.now ≡ Some (held_at (plain_files files.now) index)) }
{
    for (index, file) in files.iter().enumerate() {
        if name == file.0.as_str() {
            return Some(index);
        }
    }
    None
}

// What is left to read of the file with index `found`, after `offset` bytes. The contract lets `offset` increase by all of it without
// overflow.
#[tactic(auto, using(crate::proofs::HeldAt::held))]
fn left_of(files: &[(String, Vec<u8>)], found: Option<usize>, offset: usize) -> &[u8]
    ensures value { result.now ≡ left_of_file (plain_files files.now) found offset }
    ensures fits { offset + length result.now < 2 ^ 64 }
{
    let Some(index) = found else {
        return &[];
    };
    if index >= files.len() {
        return &[];
    }
    let held = files[index].1.as_slice();
    if offset >= held.len() {
        return &[];
    }
    &held[offset..]
}

// Copies at most `piece` bytes to the start of the buffer, as many as fit and as there are.
fn copy_front(from: &[u8], piece: usize, buf: &mut [u8]) -> usize
    ensures count { result ≡ min (min piece (length buf.old)) (length from.now) }
    ensures bytes { take result buf.new ≡ take result from.now }
{
    let count = piece.min(buf.len()).min(from.len());
    buf[..count].copy_from_slice(&from[..count]);
    count
}
