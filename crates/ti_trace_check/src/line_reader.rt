// Lines of a source that is read in blocks.
ghost use Rattle.std.specs.Prelude.{◌≡◌, ◌+◌, ◌≤◌, ◌++◌, not, true, [], length, take, IfOk, OnOk};
ghost use Rattle.ti_io.specs.Faults.{HasCause};
ghost use Rattle.ti_io.specs.Source.{SameFiles};
ghost use Rattle.ti_trace_check.specs.Lines.{first_line, has_no_end};
ghost use Rattle.ti_trace_check.specs.Mirrors.LineReader.{held, IsRoom, Fills, TakesLine};

use ti_io::{Failed, Source};
use ti_watch::Line;

// The size of a block, in bytes.
const PIECE: usize = 4096;

// The most bytes of a line that are held. No line of an entry is longer.
const MOST_HELD: usize = 512;

/// A reader that holds one block of a source, of which the first bytes are consumed.
#[derive(Drop)]
pub struct LineReader {
    pub bytes: [u8; PIECE],
    pub at: usize,
    pub end: usize,
}

// The length of the first line of these bytes, and whether it has a line end.
fn line_length(bytes: &[u8]) -> (usize, bool)
    ensures within { result.0 ≤ length bytes.now }
    ensures line { take result.0 bytes.now ≡ first_line bytes.now }
    ensures ended { has_no_end (first_line bytes.now) ≡ not result.1 }
{
    for (at, byte) in bytes.iter().enumerate() {
        if *byte == b'\n' {
            return (at + 1, true);
        }
    }
    (bytes.len(), false)
}

impl LineReader {
    /// A reader that holds nothing.
    pub fn new() -> LineReader
        ensures room { IsRoom result }
        ensures nothing { held result ≡ [] }
    {
        LineReader {
            bytes: [0u8; PIECE],
            at: 0,
            end: 0,
        }
    }

    // Reads the next block if nothing is left of the last one.
    fn fill<S: Source>(&mut self, source: &mut S) -> Result<(), Failed>
        requires { IsRoom self.old }
        ensures cause { HasCause (S.state source.old).faults (S.state source.new).faults result }
        ensures still { OnOk result ((S.state source.new).faults ≡ (S.state source.old).faults) }
        ensures same { SameFiles (S.state source.old) (S.state source.new) }
        ensures room { IsRoom self.new }
        ensures fills { IfOk result (λ _. (S.state source.old).tells ≡ true
            → Fills (held self.old) (S.state source.old).left (held self.new) (S.state source.new).left) }
    {
        if self.at >= self.end {
            self.at = 0;
            self.end = 0;
            self.end = source.read(&mut self.bytes)?;
        }
        Ok(())
    }

    // The first line within the first `most` bytes that are left of the block, and whether it has a line end.
    fn front(&self, most: usize) -> (&[u8], bool)
        requires { IsRoom self.now }
        ensures line { result.0.now ≡ first_line (take most (held self.now)) }
        ensures within { self.now.at + length result.0.now ≤ self.now.end }
        ensures ended { has_no_end result.0.now ≡ not result.1 }
    {
        let whole = &self.bytes[self.at..self.end];
        let some = &whole[..most.min(whole.len())];
        let (count, is_ended) = line_length(some);
        (&some[..count], is_ended)
    }

    /// Consumes the next line with its line end, or the first 512 bytes of a longer one. At the end of the source it is empty.
    pub fn next_line<S: Source>(&mut self, source: &mut S) -> Result<Line, Failed>
        requires { IsRoom self.old }
        ensures cause { HasCause (S.state source.old).faults (S.state source.new).faults result }
        ensures still { OnOk result ((S.state source.new).faults ≡ (S.state source.old).faults) }
        ensures same { SameFiles (S.state source.old) (S.state source.new) }
        ensures room { IsRoom self.new }
        ensures line { IfOk result (λ line. (S.state source.old).tells ≡ true
            → TakesLine (held self.old ++ (S.state source.old).left) line (held self.new ++ (S.state source.new).left)) }
    {
        let mut line = Line::new();
        'line_reader: while line.as_slice().len() < MOST_HELD {
            self.fill(source)?;
            let (front, is_ended) = self.front(MOST_HELD - line.as_slice().len());
            if front.is_empty() {
                return Ok(line);
            }
            line.text(front);
            let count = front.len();
            self.at += count;
            if is_ended {
                return Ok(line);
            }
        }
        Ok(line)
    }
}
