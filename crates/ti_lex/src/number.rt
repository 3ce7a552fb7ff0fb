// Number literals and dimensions. Values saturate at TOO_LARGE while digits are read, so that a literal of any length is handled.
ghost use Rattle.std.specs.Prelude.{◌≡◌, ◌+◌, ◌≤◌, length};
ghost use Rattle.std.specs.List.{prefix_len};
ghost use Rattle.std.specs.Char.{is_ascii_digit};
ghost use Rattle.ti_lex.specs.Mirrors.Answers.{Scans};
ghost use Rattle.ti_lex.specs.Mirrors.Cursor.{unread_bytes, skip_bytes};
ghost use Rattle.ti_syntax.specs.Tokenizing.{first_passes, is_long_letter};
ghost use Rattle.ti_lex.specs.Mirrors.Reading.{dimension, digits, number_lexeme, value_from, too_large, most_of, kind_of_number, letters};

use crate::byte_class::{is_long_letter, is_name_byte};
use crate::cursor::Cursor;
use crate::error::{LexErr, lex_error};
use crate::input_element::InputElement;
use ti_rules::Rule;
use ti_syntax::TokenKind;

/// The largest value of an int literal.
const MOST_INT: u64 = 2147483647;

/// The largest value of a long literal.
const MOST_LONG: u64 = 9223372036854775807;

/// One more than the largest value of a long literal.
const TOO_LARGE: u128 = 9223372036854775808;

/// The number of dimensions, if `rest` begins with a dimension.
fn dimension(rest: &[u8]) -> Option<u8>
    ensures { result ≡ dimension rest.now }
{
    match rest {
        [b'1'..=b'3', b'd', next, ..] if is_name_byte(*next) => None,
        [digit @ b'1'..=b'3', b'd', ..] => Some(*digit - b'0'),
        _ => None,
    }
}

/// The largest value of a literal, with (`long`) or without the suffix.
fn most_of(long: bool) -> u64
    ensures { result ≡ most_of long }
{
    if long { MOST_LONG } else { MOST_INT }
}

/// The token kind of a literal whose value is within its limit.
fn kind_of_number(long: bool, value: u64) -> TokenKind
    requires { value ≤ most_of long }
    ensures { result ≡ kind_of_number long value }
{
    if long {
        TokenKind::LongInt(value as i64)
    } else {
        TokenKind::Int(value as i32)
    }
}

impl Cursor<'_> {
    /// Reads the digits here and returns their value, at most `TOO_LARGE`.
    fn value(&mut self) -> u64
        ensures value { result ≡ value_from 0 (unread_bytes self.old) }
        ensures fits { result ≤ too_large }
        ensures moves { self.new ≡ skip_bytes (prefix_len is_ascii_digit (unread_bytes self.old)) self.old }
    {
        let mut value: u128 = 0;
        while let Some(byte) = self.peek() {
            if !byte.is_ascii_digit() {
                break;
            }
            value = (value * 10 + u128::from(byte - b'0')).min(TOO_LARGE);
            self.advance();
        }
        value as u64
    }

    /// Reads the suffix of a long literal, if it is next, and returns whether it was.
    fn letter(&mut self) -> bool
        ensures letter { result ≡ first_passes is_long_letter (unread_bytes self.old) }
        ensures moves { self.new ≡ skip_bytes (letters result) self.old }
    {
        match self.peek() {
            Some(byte) => {
                if !is_long_letter(byte) {
                    return false;
                }
                self.advance();
                true
            }
            None => false,
        }
    }

    /// Reads a number literal. Error: X4 at its first digit if it has a leading 0 or is too large.
    fn digits(&mut self) -> Result<InputElement, LexErr>
        ensures { Scans (digits self.old.at (unread_bytes self.old)) self.old self.new result }
    {
        let place = self.place();
        let leads_with_zero = self.peek() == Some(b'0');
        let before = self.unread().len();
        let value = self.value();
        let size = before - self.unread().len();
        let long = self.letter();
        if leads_with_zero && size != 1 || value > most_of(long) {
            return Err(lex_error(Rule::X4, place));
        }
        Ok(InputElement::Token(kind_of_number(long, value)))
    }

    /// Reads a dimension or a number literal.
    pub fn number(&mut self) -> Result<InputElement, LexErr>
        ensures { Scans (number_lexeme self.old.at (unread_bytes self.old)) self.old self.new result }
    {
        match dimension(self.unread()) {
            Some(number) => {
                self.advance();
                self.advance();
                Ok(InputElement::Token(TokenKind::Dim(number)))
            }
            None => self.digits(),
        }
    }
}
