// A buffer for one line, which doesn't allocate.
ghost use Rattle.std.specs.Prelude.{◌≡◌, ◌+◌, ◌≤◌, [], ◌++◌, length};
ghost use Rattle.ti_watch.specs.Lines.{line_room};

use arrayvec::ArrayVec;
use itoa::{Buffer, Integer};
use std::marker::Model;

/// A line of up to 512 bytes in a fixed buffer, so that writing it can't run out of memory. Contracts see it as the list of its bytes.
#[derive(Drop)]
pub struct Line {
    bytes: ArrayVec<u8, 512>,
}

impl Model for Line {
    ghost use Rattle.std.specs.Prelude.{List, ℕ};

    ghost Value = { List ℕ };

    ghost view = { λ line. line.bytes.items };
}

impl Line {
    /// An empty line.
    pub fn new() -> Self
        ensures { result ≡ [] }
    {
        Line {
            bytes: ArrayVec::new(),
        }
    }

    /// The bytes of the line.
    pub fn as_slice(&self) -> &[u8]
        ensures { result.now ≡ self.now }
    {
        self.bytes.as_slice()
    }

    /// Appends some bytes, for which there has to be space.
    pub fn text(&mut self, piece: &[u8])
        requires { length self.old + length piece.now ≤ line_room }
        ensures text { self.new ≡ self.old ++ piece.now }
        ensures size { length self.new ≡ length self.old + length piece.now }
    {
        self.bytes.try_extend_from_slice(piece).unwrap();
    }

    /// Appends an integer in decimal digits, after `-` if it is negative. There has to be space for the longest number of its type.
    pub fn number<I: Integer>(&mut self, number: I)
        requires { length self.old + I.MAX_STR_LEN ≤ line_room }
        ensures text { self.new ≡ self.old ++ I.text number }
        ensures bound { length self.new ≤ length self.old + I.MAX_STR_LEN }
    {
        let mut buffer = Buffer::new();
        self.text(buffer.format(number).as_bytes());
    }

    /// Appends a label and, directly after it, an integer in decimal digits.
    pub fn labelled_number<I: Integer>(&mut self, label: &[u8], integer: I)
        requires { length self.old + length label.now + I.MAX_STR_LEN ≤ line_room }
        ensures text { self.new ≡ self.old ++ label.now ++ I.text integer }
        ensures bound { length self.new ≤ length self.old + length label.now + I.MAX_STR_LEN }
    {
        self.text(label);
        self.number(integer);
    }
}
