// Comments and operators that begin with a slash.
ghost use Rattle.std.specs.Prelude.{◌≡◌, ◌+◌, ◌≤◌, ◌<◌, ◌++◌, List, ℕ, codes, length, drop, false};
ghost use Rattle.ti_syntax.specs.Tokenizing.{Space};
ghost use Rattle.ti_lex.specs.Mirrors.Answers.{Scans};
ghost use Rattle.ti_lex.specs.Mirrors.Cursor.{unread_bytes};
ghost use Rattle.ti_lex.specs.Mirrors.Reading.{Matches, comment_from, line_left, slash};

use crate::cursor::Cursor;
use crate::error::{LexErr, lex_error};
use crate::input_element::InputElement;
use ti_rules::Rule;

impl Cursor<'_> {
    /// Skips the rest of the line, up to its line feed.
    fn line(&mut self) -> Result<InputElement, LexErr>
        ensures { Scans (Matches Space (self.old.at + line_left (unread_bytes self.old))) self.old self.new result }
    {
        while let Some(byte) = self.peek() {
            if byte == b'\n' {
                break;
            }
            self.advance();
        }
        Ok(InputElement::Space)
    }

    /// Skips a comment from its `/*` to its `*/`. Error: X2 at the `/*` if it isn't closed.
    fn block_comment(&mut self) -> Result<InputElement, LexErr>
        requires { 2 ≤ length (unread_bytes self.old) }
        ensures { Scans (comment_from self.old.at false (self.old.at + 2) (drop 1 (drop 1 (unread_bytes self.old)))) self.old self.new result }
    {
        let slash = self.place();
        self.advance();
        self.advance();
        let mut star = false;
        while let Some(byte) = self.peek() {
            self.advance();
            if star && byte == b'/' {
                return Ok(InputElement::Space);
            }
            star = byte == b'*';
        }
        Err(lex_error(Rule::X2, slash))
    }

    /// Reads the comment or the operator that begins with a slash.
    pub fn slash(&mut self) -> Result<InputElement, LexErr>
        requires { 0 < length (unread_bytes self.old) }
        ensures { Scans (slash self.old.at (unread_bytes self.old)) self.old self.new result }
    {
        match self.unread() {
            [_, b'/', ..] => self.line(),
            [_, b'*', ..] => self.block_comment(),
            _ => self.operator(),
        }
    }
}
