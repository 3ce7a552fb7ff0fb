// Fields of a header: one line each, a name, a colon and a value. Only `Content-Length` matters here; others are accepted and ignored, as
// the protocol asks.
ghost use Rattle.std.specs.Prelude.{◌≡◌, ◌<◌, ◌==◌, IfSome, length, position, take};
ghost use Rattle.ti_lsp_frames.specs.HeaderFields.{header_field_of, is_length_name, decimal_of};
ghost use Rattle.ti_lsp_frames.specs.HeaderFields.{without_spaces};

/// The maximum number of bytes in the content of a message.
pub const MAX_CONTENT: usize = 16_777_216;

// One more: the value at which longer lengths stop.
const TOO_LONG: usize = 16_777_217;

/// What a line of a header says.
#[derive(Clone, Copy, Debug, PartialEq, Eq)]
pub enum HeaderField {
    /// The length of the content in bytes; a length of more than `MAX_CONTENT` is given as `MAX_CONTENT + 1`.
    ContentLength(usize),
    /// A field with another name.
    Other,
    /// No field, or a length that is no number.
    Malformed,
}

// The value of a field without the spaces before it.
fn without_spaces(value: &[u8]) -> &[u8]
    ensures { result.now ≡ without_spaces value.now }
{
    match value {
        [b' ', rest @ ..] => without_spaces(rest),
        _ => value,
    }
}

// The decimal number with these digits; it stops at `TOO_LONG`. None if there is no digit, or another byte.
fn parse_number(digits: &[u8]) -> Option<usize>
    ensures { result ≡ decimal_of digits.now }
{
    if digits.is_empty() {
        return None;
    }
    let mut number = 0;
    for digit in digits {
        if !digit.is_ascii_digit() {
            return None;
        }
        number = (number * 10 + usize::from(*digit - b'0')).min(TOO_LONG);
    }
    Some(number)
}

// The index of the first colon.
fn find_colon(line: &[u8]) -> Option<usize>
    ensures index { result ≡ position (λ b. b == 58) line.now }
    ensures within { IfSome result (λ colon. colon < length line.now) }
{
    line.iter().position(|byte| *byte == b':')
}

// Whether the name before this colon is `Content-Length`, in any case.
#[tactic(auto, using(crate::proofs::Names::is_test))]
fn is_length(line: &[u8], colon: usize) -> bool
    requires { colon < length line.now }
    ensures { result ≡ is_length_name (take colon line.now) }
{
    line[..colon].eq_ignore_ascii_case(b"content-length")
}

/// What a line of a header says. The line is given without its end.
pub fn parse_field(line: &[u8]) -> HeaderField
    ensures { result ≡ header_field_of line.now }
{
    let Some(colon) = find_colon(line) else {
        return HeaderField::Malformed;
    };
    if !is_length(line, colon) {
        return HeaderField::Other;
    }
    match parse_number(without_spaces(&line[colon + 1..])) {
        Some(length) => HeaderField::ContentLength(length),
        None => HeaderField::Malformed,
    }
}
