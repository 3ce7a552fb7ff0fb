// Parses the parts of a line of a report. Only the notation of titan is accepted, so that each line can be restored from what was parsed.
ghost use Rattle.std.specs.Prelude.{◌≡◌, ◌↔◌, IsTrue, All, decimal, IfSome};
ghost use Rattle.timeline.specs.Lines.{source_place_text, IsShown};

use crate::entry::SourcePlace;
use itoa::Buffer;

/// Parses a decimal number without leading zeros or sign.
pub(crate) fn number(text: &str) -> Option<u32>
    ensures { IfSome result (λ n. text.now ≡ decimal n) }
{
    let n = text.parse::<u32>().ok()?;
    let mut buffer = Buffer::new();
    if buffer.format(n) == text {
        Some(n)
    } else {
        None
    }
}

/// Parses a source location, `LINE:COLUMN`.
pub(crate) fn place(text: &str) -> Option<SourcePlace>
    ensures { IfSome result (λ p. text.now ≡ source_place_text p) }
{
    let (line, column) = text.split_once(':')?;
    Some(SourcePlace {
        line: number(line)?,
        column: number(column)?,
    })
}

/// Whether each byte is printable: neither a control character nor above 126.
pub(crate) fn is_shown(text: &str) -> bool
    ensures { IsTrue result ↔ All IsShown text.now }
{
    text.as_bytes().iter().all(|&b| b' ' <= b && b <= b'~')
}
