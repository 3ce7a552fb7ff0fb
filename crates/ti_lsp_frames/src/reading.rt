// Bytes and lines of a reader. Lines are read byte by byte, since the reader's own line reading has no limit; so callers hand in a buffered
// reader.
ghost use Rattle.std.specs.Prelude.{◌≡◌, [], ◌∷◌, ◌++◌, None, Ok, IfErr, IfOk, IfSome};
ghost use Rattle.ti_lsp_frames.specs.Reading.{AtEnd, FailsLine, IsOutside, TakesByte, TakesHeaderLine};
ghost use Rattle.ti_lsp_frames.specs.Messages.{IsUnended};

use crate::FrameErr;
use std::alloc::Global;
use std::io::{ErrorKind, Read};

// The maximum number of bytes in a line of a header, with the CR before its LF.
const MAX_LINE: usize = 1_001;

// How often a read is repeated that is interrupted.
const MAX_RETRIES: usize = 1_000;

/// The next byte of a reader, or none at its end. An interrupted read is repeated.
pub fn next_byte<R: Read>(reader: &mut R) -> Result<Option<u8>, FrameErr>
    ensures byte { IfOk result (TakesByte (R.remaining reader.old) (R.remaining reader.new)) }
    ensures error { IfErr result IsOutside }
{
    let mut buf = [0u8; 1];
    for _ in 0..MAX_RETRIES {
        match reader.read(&mut buf) {
            Ok(0) => return Ok(None),
            Ok(_) => return Ok(Some(buf[0])),
            Err(e) => {
                if e.kind() != ErrorKind::Interrupted {
                    return Err(FrameErr::Read(e));
                }
            }
        }
    }
    Err(FrameErr::Interrupted)
}

// A line without its last byte, if that is a CR. Otherwise the line is lost.
#[tactic(auto, using(crate::proofs::Lines::unended_empty, crate::proofs::Lines::unended_other))]
fn without_return(line: Vec<u8>) -> Option<Vec<u8>>
    ensures some { IfSome result (λ front. line.items ≡ front.items ++ 13 ∷ []) }
    ensures none { result ≡ None → IsUnended line.items }
{
    let mut line = line;
    let byte = line.pop()?;
    if byte == b'\r' { Some(line) } else { None }
}

/// The next line of a header without its end (CR LF), or none at the reader's end.
#[tactic(auto, using(crate::proofs::Lines::line_taken, crate::proofs::Lines::line_malformed, crate::proofs::Lines::line_long, crate::proofs::Lines::line_cut, crate::proofs::Lines::end_at_once, crate::proofs::Lines::outside_line, crate::proofs::Lines::one_more))]
pub fn read_line<R: Read>(alloc: Global, reader: &mut R) -> Result<Option<Vec<u8>>, FrameErr>
    ensures line { IfOk result (λ o. IfSome o (λ line.
        TakesHeaderLine (R.remaining reader.old) (R.remaining reader.new) line.items)) }
    ensures end { result ≡ Ok None → AtEnd (R.remaining reader.old) (R.remaining reader.new) }
    ensures error { IfErr result (FailsLine (R.remaining reader.old) (R.remaining reader.new)) }
{
    let mut line = Vec::new(alloc);
    'bytes: while line.len() <= MAX_LINE {
        let Some(byte) = next_byte(reader)? else {
            if line.is_empty() {
                return Ok(None);
            }
            return Err(FrameErr::UnexpectedEnd);
        };
        if byte == b'\n' {
            return match without_return(line) {
                Some(line) => Ok(Some(line)),
                None => Err(FrameErr::MalformedField),
            };
        }
        line.push(byte)?;
    }
    Err(FrameErr::LineTooLong)
}
