// Messages of a reader: a header, and the content whose length the header gives. The limits keep a client from filling the memory: content
// is stored as it arrives, and never before.
ghost use Rattle.std.specs.Prelude.{◌≡◌, ◌++◌, ◌≤◌, ℕ, List, None, Some, Ok, IfErr, IfOk, IfSome, vec_len};
ghost use Rattle.std.specs.Prelude.{IsSomeAnd, MatchResult};
ghost use Rattle.std.specs.Io.KnownBytes.{Consumes};
ghost use Rattle.ti_lsp_frames.specs.Messages.{IsMessage};
ghost use Rattle.ti_lsp_frames.specs.Reading.{AtEnd, FailsToRead, FailsContent, IsOutside, TakesHeader};
ghost use Rattle.ti_lsp_frames.specs.Reading.{TakesMessage};

use crate::FrameErr;
use crate::header_field::{HeaderField, MAX_CONTENT, parse_field};
use crate::reading::{next_byte, read_line};
use std::alloc::Global;
use std::io::Read;

// The maximum number of lines in a header, the empty one included.
const MAX_LINES: usize = 32;

// The content length that a header gives, or none at the reader's end.
#[tactic(auto, using(crate::proofs::Headers::nothing_read, crate::proofs::Headers::length_read, crate::proofs::Headers::other_read, crate::proofs::Headers::header_read, crate::proofs::Headers::end_at_once, crate::proofs::Headers::fails_line, crate::proofs::Headers::fails_no_next, crate::proofs::Headers::fails_malformed, crate::proofs::Headers::fails_second, crate::proofs::Headers::fails_no_length, crate::proofs::Headers::fails_many))]
fn read_header<R: Read>(alloc: Global, reader: &mut R) -> Result<Option<usize>, FrameErr>
    ensures header { IfOk result (λ o. IfSome o
        (TakesHeader (R.remaining reader.old) (R.remaining reader.new))) }
    ensures end { result ≡ Ok None → AtEnd (R.remaining reader.old) (R.remaining reader.new) }
    ensures error { IfErr result (FailsToRead (R.remaining reader.old) (R.remaining reader.new)) }
{
    let mut length = None;
    for count in 0..MAX_LINES {
        let Some(line) = read_line(alloc, reader)? else {
            if count == 0 {
                return Ok(None);
            }
            return Err(FrameErr::UnexpectedEnd);
        };
        if line.is_empty() {
            let Some(length) = length else {
                return Err(FrameErr::NoContentLength);
            };
            return Ok(Some(length));
        }
        match parse_field(&line) {
            HeaderField::ContentLength(given) => {
                if length.is_some() {
                    return Err(FrameErr::DuplicateContentLength);
                }
                length = Some(given);
            }
            HeaderField::Other => {}
            HeaderField::Malformed => return Err(FrameErr::MalformedField),
        }
    }
    Err(FrameErr::TooManyFields)
}

// This many bytes of a reader.
#[tactic(auto, using(crate::proofs::Lines::outside_content, crate::proofs::Lines::content_cut))]
fn read_content<R: Read>(alloc: Global, reader: &mut R, length: usize) -> Result<Vec<u8>, FrameErr>
    ensures length { IfOk result (λ content. vec_len content ≡ length) }
    ensures taken { IfOk result (λ content.
        Consumes (R.remaining reader.old) (R.remaining reader.new) content.items) }
    ensures error { IfErr result
        (FailsContent (R.remaining reader.old) (R.remaining reader.new) length) }
{
    let mut content = Vec::new(alloc);
    'bytes: while content.len() < length {
        match next_byte(reader)? {
            Some(byte) => content.push(byte)?,
            None => return Err(FrameErr::UnexpectedEnd),
        }
    }
    Ok(content)
}

// The next message, without the clause on whole messages.
#[tactic(auto, using(crate::proofs::Headers::message_read, crate::proofs::Headers::fails_long, crate::proofs::Headers::fails_content))]
fn read_next<R: Read>(alloc: Global, reader: &mut R) -> Result<Option<Vec<u8>>, FrameErr>
    ensures message { IfOk result (λ o. IfSome o (λ content.
        TakesMessage (R.remaining reader.old) (R.remaining reader.new) content.items)) }
    ensures end { result ≡ Ok None → AtEnd (R.remaining reader.old) (R.remaining reader.new) }
    ensures error { IfErr result (FailsToRead (R.remaining reader.old) (R.remaining reader.new)) }
{
    let Some(length) = read_header(alloc, reader)? else {
        return Ok(None);
    };
    if length > MAX_CONTENT {
        return Err(FrameErr::ContentTooLong);
    }
    Ok(Some(read_content(alloc, reader, length)?))
}

/// The content of the next message of a reader, or none if the reader is at its end.
///
/// A header is at most 31 lines that each end with CR LF, and then an empty one. Each line is a field: a name of any case, a colon and a
/// value, at most 1,000 bytes. Exactly one field is `Content-Length`, the number of bytes in the content, at most 16,777,216. Any other
/// input is an error, which names what is wrong with the bytes read; besides, a read can fail or be interrupted too often, and memory can
/// run out. All of this is said of readers whose remaining bytes are known.
pub fn read_message<R: Read>(alloc: Global, reader: &mut R) -> Result<Option<Vec<u8>>, FrameErr>
    ensures message { IfOk result (λ o. IfSome o (λ content.
        TakesMessage (R.remaining reader.old) (R.remaining reader.new) content.items)) }
    ensures end { result ≡ Ok None → AtEnd (R.remaining reader.old) (R.remaining reader.new) }
    ensures error { IfErr result (FailsToRead (R.remaining reader.old) (R.remaining reader.new)) }
    ensures whole { (message content rest : List ℕ) → IsMessage message content
        → R.remaining reader.old ≡ Some (message ++ rest)
        → MatchResult result (λ o. IsSomeAnd o (λ v. v.items ≡ content)) IsOutside }
{
    read_next(alloc, reader)
}
