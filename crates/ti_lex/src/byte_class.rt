// Byte classes: which lexical elements a byte can begin, and which it can be part of.
ghost use Rattle.std.specs.Prelude.{◌≡◌};
ghost use Rattle.ti_syntax.specs.Tokenizing.{is_blank, is_name_byte, is_long_letter, is_unescaped, escaped};
ghost use Rattle.ti_lex.specs.Mirrors.Reading.{class_of_byte};

/// The class of a byte, by which the lexer dispatches.
#[derive(Clone, Copy, Debug)]
pub enum ByteClass {
    /// A space, a tab, a line feed, a carriage return or a form feed.
    Blank,
    /// An ASCII letter, an underscore or a dollar sign.
    Letter,
    Digit,
    Quote,
    Slash,
    Other,
}
/// The class of a byte.

pub fn class_of_byte(byte: u8) -> ByteClass
    ensures { result ≡ class_of_byte byte }
{
    match byte {
        b' ' | b'\t' | b'\n' | b'\r' | 12 => ByteClass::Blank,
        b'A'..=b'Z' | b'a'..=b'z' | b'_' | b'$' => ByteClass::Letter,
        b'0'..=b'9' => ByteClass::Digit,
        b'"' => ByteClass::Quote,
        b'/' => ByteClass::Slash,
        _ => ByteClass::Other,
    }
}
/// Whether the byte can continue a name.

pub fn is_name_byte(byte: u8) -> bool
    ensures { result ≡ is_name_byte byte }
{
    byte.is_ascii_alphanumeric() || byte == b'_' || byte == b'$'
}

/// Whether the byte is the suffix of a long literal.
pub fn is_long_letter(byte: u8) -> bool
    ensures { result ≡ is_long_letter byte }
{
    byte == b'L' || byte == b'l'
}

/// Whether the byte represents itself in a string literal.
pub fn is_unescaped(byte: u8) -> bool
    ensures { result ≡ is_unescaped byte }
{
    match byte {
        b'"' | b'\\' => false,
        b'\t' | 32..=126 | 128.. => true,
        _ => false,
    }
}

/// The value of the escape that a backslash and this byte make, or None if they make none.
pub fn escape_value(byte: u8) -> Option<u8>
    ensures { result ≡ escaped byte }
{
    match byte {
        b'n' => Some(b'\n'),
        b't' => Some(b'\t'),
        b'"' | b'\\' => Some(byte),
        _ => None,
    }
}
