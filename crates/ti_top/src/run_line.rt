// The line of a print. Its buffer is allocated before the run, so that writing the output of a run can't be out of memory.
ghost use Rattle.std.specs.Prelude.{◌≡◌, ℕ, ◌+◌, ◌^◌, ◌<◌, ◌≤◌, [], ◌++◌, length, slice_index_or, IfOk};
ghost use Rattle.ti_top.specs.Mirrors.Line.{HasLineRoom};

use std::alloc::Global;
use std::marker::Model;
use ti_base::Memory;
use ti_syntax::Spelled;

/// The most bytes of a value and a line end: a point of three coordinates has 37.
const VALUE_ROOM: usize = 38;

/// The buffer of a line. Contracts see its bytes, and its capacity.
#[derive(Drop)]
pub struct RunLine {
    bytes: Vec<u8>,
}

impl Model for RunLine {
    ghost use Rattle.std.specs.Prelude.{vec_capacity};
    ghost use Rattle.ti_top.specs.Mirrors.Line.{RoomyLine};

    ghost Value = { RoomyLine };

    ghost view = { λ line. record { taken = line.bytes.items; room = vec_capacity line.bytes } };
}

// The length of the longest literal.
fn longest(literals: &[Spelled]) -> usize
    ensures each { (n : ℕ) → length (slice_index_or literals.now n []) ≤ result }
    ensures bound { result < 2 ^ 63 }
{
    let mut longest = 0;
    'literals: for literal in literals {
        longest = longest.max(literal.as_bytes().len());
    }
    longest
}

impl RunLine {
    /// An empty line with room for any of these literals, a value and a line end.
    pub fn with_room(alloc: Global, literals: &[Spelled]) -> Result<Self, Memory>
        ensures { IfOk result (λ line. HasLineRoom literals.now line) }
    {
        let bytes = Vec::with_capacity(alloc, longest(literals) + VALUE_ROOM)?;
        Ok(RunLine { bytes })
    }

    /// The bytes of the line.
    pub fn as_slice(&self) -> &[u8]
        ensures { result.now ≡ self.now.taken }
    {
        &self.bytes
    }

    /// Empties the line.
    pub fn clear(&mut self)
        ensures taken { self.new.taken ≡ [] }
        ensures room { self.new.room ≡ self.old.room }
    {
        self.bytes.clear();
    }

    /// Appends bytes, for which there must be room.
    pub fn text(&mut self, piece: &[u8])
        requires { length self.old.taken + length piece.now ≤ self.old.room }
        ensures taken { self.new.taken ≡ self.old.taken ++ piece.now }
        ensures room { self.old.room ≤ self.new.room }
    {
        match self.bytes.extend_from_slice(piece) {
            Ok(()) => {}
            Err(_) => unreachable!(),
        }
    }
}
