// String literals.
ghost use Rattle.std.specs.Prelude.{◌≡◌, ◌+◌, [], ◌<◌, length, drop};
ghost use Rattle.ti_lex.specs.Mirrors.Answers.{Scans, ReadsItem};
ghost use Rattle.ti_lex.specs.Mirrors.Cursor.{unread_bytes};
ghost use Rattle.ti_lex.specs.Mirrors.Reading.{item, string_from};

use crate::byte_class::{escape_value, is_unescaped};
use crate::cursor::Cursor;
use crate::error::{LexErr, lex_error};
use crate::input_element::InputElement;
use std::alloc::Global;
use ti_base::Place;
use ti_rules::Rule;
use ti_syntax::{Spelled, TokenKind};

impl Cursor<'_> {
    /// Reads the next item of a string and returns its value, or reads the closing quote and returns None.
    ///
    /// Errors: X3 at the opening quote if the line or the source ends, X1 at any other byte that isn't allowed.
    fn item(&mut self, quote: Place) -> Result<Option<u8>, LexErr>
        ensures { ReadsItem (item (unread_bytes self.old)) quote self.old self.new result }
    {
        let place = self.place();
        match self.unread() {
            [b'"', ..] => {
                self.advance();
                Ok(None)
            }
            [b'\\', next, ..] => match escape_value(*next) {
                Some(byte) => {
                    self.advance();
                    self.advance();
                    Ok(Some(byte))
                }
                None => Err(lex_error(Rule::X1, place)),
            },
            [byte, ..] if is_unescaped(*byte) => {
                let byte = *byte;
                self.advance();
                Ok(Some(byte))
            }
            [] | [b'\n' | b'\r', ..] => Err(lex_error(Rule::X3, quote)),
            _ => Err(lex_error(Rule::X1, place)),
        }
    }

    /// Reads the string literal here, from its opening quote.
    pub fn string(&mut self, alloc: Global) -> Result<InputElement, LexErr>
        requires { 0 < length (unread_bytes self.old) }
        ensures { Scans (string_from self.old.at [] (self.old.at + 1) (drop 1 (unread_bytes self.old))) self.old self.new result }
    {
        let quote = self.place();
        self.advance();
        let mut bytes = Vec::new(alloc);
        while let Some(byte) = self.item(quote)? {
            bytes.push(byte)?;
        }
        Ok(InputElement::Token(TokenKind::Str(Spelled::new(bytes))))
    }
}
