// Reading a whole file.
ghost use Rattle.std.specs.Prelude.{◌≡◌, [], true, Some};
ghost use Rattle.ti_io.specs.Source.{content_of};
ghost use Rattle.ti_top.specs.Mirrors.Reading.{ReadsWhole};

use ti_io::Source;

/// The most bytes that are read: one more than a program may have, so that a longer file is seen to be too long.
pub const MOST_READ: usize = 1_048_577;

// The size of one read, in bytes.
const PIECE: usize = 4096;

/// How reading a file ended.
#[derive(Clone, Copy, PartialEq, Eq)]
pub enum ReadEnd {
    /// At the end of the file, or after the most bytes that are read.
    Whole,
    /// The file is missing, or a read failed.
    CantRead,
    /// Out of memory.
    NoMemory,
}

/// Reads a file to its end, or up to the most bytes that are read. Whatever the result, `text` has what was read.
pub fn read_whole<S: Source>(source: &mut S, name: &str, text: &mut Vec<u8>) -> ReadEnd
    requires { text.old.items ≡ [] }
    ensures { ReadsWhole name.now (S.state source.old) (S.state source.new) text.new.items result }
{
    match source.find(name) {
        Ok(true) => read_rest(source, name, text),
        Ok(false) => ReadEnd::CantRead,
        Err(_) => ReadEnd::CantRead,
    }
}

// Reads the rest of the file that the source is at.
fn read_rest<S: Source>(source: &mut S, name: &str, text: &mut Vec<u8>) -> ReadEnd
    requires none { text.old.items ≡ [] }
    requires found { (S.state source.old).tells ≡ true → content_of (S.state source.old).files name.now ≡ Some (S.state source.old).left }
    ensures { ReadsWhole name.now (S.state source.old) (S.state source.new) text.new.items result }
{
    let mut buf = [0u8; PIECE];
    'pieces: while text.len() < MOST_READ {
        let room = PIECE.min(MOST_READ - text.len());
        match source.read(&mut buf[..room]) {
            Ok(0) => return ReadEnd::Whole,
            Ok(count) => {
                if text.extend_from_slice(&buf[..count]).is_err() {
                    return ReadEnd::NoMemory;
                }
            }
            Err(_) => return ReadEnd::CantRead,
        }
    }
    ReadEnd::Whole
}
