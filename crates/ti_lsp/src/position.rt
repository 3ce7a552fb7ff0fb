// Positions as the protocol has them: lines, and code units of a line in an encoding that client and server agree on. Texts are UTF-8 here,
// so each is counted from the bytes. A line ends with LF alone; a CR before it is part of the line.
ghost use Rattle.std.specs.Prelude.{◌≡◌, ◌≤◌, ℕ, List, take, length, count_by};
ghost use Rattle.std.specs.Char.Escape.{encode_utf16};
ghost use Rattle.std.specs.List.{flat_map};
ghost use Rattle.std.specs.Str.{encode_utf8_all};
ghost use Rattle.ti_lsp.specs.Positions.{cost, ends_line, is_lead, is_long, line_prefix, line_prefix_len};
ghost use Rattle.ti_lsp.specs.Positions.{lines_len, intersects, offset_of, position_before, position_of, exceeds_units};
ghost use Rattle.ti_lsp.specs.Positions.{touches, units_len, units_of, width_of};
ghost use Rattle.ti_lsp.specs.Responses.{encoding_name};

/// The code units that the `character` of a position counts.
#[derive(Clone, Copy, Debug, PartialEq, Eq)]
pub enum PositionEncoding {
    /// Bytes.
    Utf8,
    /// Code units of UTF-16.
    Utf16,
    /// Characters (Unicode scalar values).
    Utf32,
}

/// A position between two characters of a text: a line, and the code units before it in that line, both from 0.
#[derive(Clone, Copy, Debug, PartialEq, Eq)]
pub struct Position {
    pub line: u64,
    pub character: u64,
}

/// A range of a text, from one position up to another.
#[derive(Clone, Copy, Debug, PartialEq, Eq)]
pub struct TextRange {
    pub start: Position,
    pub end: Position,
}

impl Position {
    /// Whether this position is before the other one.
    pub fn is_before(self, other: Self) -> bool
        ensures { result ≡ position_before self other }
    {
        self.line < other.line || self.line == other.line && self.character < other.character
    }
}

impl TextRange {
    /// Whether two ranges have a position in common, be it at their ends.
    pub fn intersects(self, other: Self) -> bool
        ensures { result ≡ intersects self other }
    {
        !other.end.is_before(self.start) && !self.end.is_before(other.start)
    }

    /// Whether a position is in the range or at one of its ends.
    pub fn touches(self, at: Position) -> bool
        ensures { result ≡ touches self at }
    {
        !at.is_before(self.start) && !self.end.is_before(at)
    }
}

impl PositionEncoding {
    /// Its name in the protocol.
    pub fn name(self) -> &'static str
        ensures { result.now ≡ encoding_name self }
    {
        match self {
            PositionEncoding::Utf8 => "utf-8",
            PositionEncoding::Utf16 => "utf-16",
            PositionEncoding::Utf32 => "utf-32",
        }
    }
}

// How many bytes begin a character.
fn count_leads(bytes: &[u8]) -> usize
    ensures { result ≡ count_by is_lead bytes.now }
{
    bytes
        .iter()
        .filter(|byte| **byte < 128 || **byte >= 192)
        .count()
}

// How many bytes begin a character of two code units of UTF-16.
fn count_longs(bytes: &[u8]) -> usize
    ensures { result ≡ count_by is_long bytes.now }
{
    bytes.iter().filter(|byte| **byte >= 240).count()
}

// How many lines end in these bytes.
fn count_line_ends(bytes: &[u8]) -> usize
    ensures { result ≡ count_by ends_line bytes.now }
{
    bytes.iter().filter(|byte| **byte == b'\n').count()
}

// How many code units these bytes of a line have.
fn count_units(encoding: PositionEncoding, bytes: &[u8]) -> u64
    ensures { result ≡ units_of encoding bytes.now }
{
    match encoding {
        PositionEncoding::Utf8 => bytes.len() as u64,
        PositionEncoding::Utf16 => count_leads(bytes) as u64 + count_longs(bytes) as u64,
        PositionEncoding::Utf32 => count_leads(bytes) as u64,
    }
}

// How many bytes are after the last line end.
fn line_prefix_len(bytes: &[u8]) -> usize
    ensures length { result ≡ line_prefix_len bytes.now }
    ensures within { result ≤ length bytes.now }
{
    bytes
        .iter()
        .rev()
        .take_while(|byte| **byte != b'\n')
        .count()
}

// The bytes after the last line end.
fn line_prefix(bytes: &[u8]) -> &[u8]
    ensures { result.now ≡ line_prefix bytes.now }
{
    &bytes[bytes.len() - line_prefix_len(bytes)..]
}

/// The position of a byte of a text, or of its end.
///
/// Requires that the offset is at most the length of the text.
pub fn position_at(encoding: PositionEncoding, text: &[u8], offset: usize) -> Position
    requires { offset ≤ length text.now }
    ensures { result ≡ position_of encoding (take offset text.now) }
{
    let front = &text[..offset];
    Position {
        line: count_line_ends(front) as u64,
        character: count_units(encoding, line_prefix(front)),
    }
}

// The length in bytes of the first lines, or of the whole text if it has fewer.
#[tactic(auto, using(crate::proofs::Offsets::no_lines))]
fn lines_len(text: &[u8], lines: u64) -> usize
    ensures length { result ≡ lines_len lines text.now }
    ensures within { result ≤ length text.now }
{
    let mut left = lines;
    let mut len = 0;
    for byte in text {
        if left == 0 {
            return len;
        }
        if *byte == b'\n' {
            left -= 1;
        }
        len += 1;
    }
    len
}

// How many code units the character has that this byte begins.
fn width(encoding: PositionEncoding, byte: u8) -> u64
    ensures { result ≡ width_of encoding byte }
{
    match encoding {
        PositionEncoding::Utf8 if byte < 128 => 1,
        PositionEncoding::Utf8 if byte < 224 => 2,
        PositionEncoding::Utf8 if byte < 240 => 3,
        PositionEncoding::Utf8 => 4,
        PositionEncoding::Utf16 if byte < 240 => 1,
        PositionEncoding::Utf16 => 2,
        PositionEncoding::Utf32 => 1,
    }
}

// How many code units a byte adds to those before it: all of a character's at its first byte.
fn unit_cost(encoding: PositionEncoding, byte: u8) -> u64
    ensures { result ≡ cost encoding byte }
{
    if byte < 128 || byte >= 192 {
        width(encoding, byte)
    } else {
        0
    }
}

// The length in bytes of the whole characters of a line within this many code units.
fn units_len(encoding: PositionEncoding, line: &[u8], units: u64) -> usize
    ensures length { result ≡ units_len encoding units line.now }
    ensures within { result ≤ length line.now }
{
    let mut left = units;
    let mut len = 0;
    for byte in line {
        let cost = unit_cost(encoding, *byte);
        if *byte == b'\n' || left < cost {
            return len;
        }
        left -= cost;
        len += 1;
    }
    len
}

/// The offset in bytes of a position of a text.
///
/// A position after the end of its line is at that end, one after the last line at the end of the text, and one within a character before
/// that character.
pub fn offset_at(encoding: PositionEncoding, text: &[u8], at: Position) -> usize
    ensures offset { result ≡ offset_of encoding at text.now }
    ensures within { result ≤ length text.now }
{
    let start = lines_len(text, at.line);
    start + units_len(encoding, &text[start..], at.character)
}

/// A law: the code units that are counted on the bytes of UTF-8 are those of UTF-16.
#[tactic(auto, using(crate::proofs::Units::of_chars))]
pub fn columns_are_units()
    ensures { (cs : List ℕ) → units_of PositionEncoding.Utf16 (encode_utf8_all cs)
        ≡ length (flat_map encode_utf16 cs) }
{}
