// Operators and punctuation marks, by longest match.
ghost use Rattle.std.specs.Prelude.{◌≡◌, ◌<◌, length};
ghost use Rattle.ti_lex.specs.Mirrors.Cursor.{unread_bytes};
ghost use Rattle.ti_lex.specs.Mirrors.Reading.{first_sign, longer_sign, sign};
ghost use Rattle.ti_lex.specs.Mirrors.Answers.{Scans};

use crate::cursor::Cursor;
use crate::error::{LexErr, lex_error};
use crate::input_element::InputElement;
use ti_rules::Rule;
use ti_syntax::TokenKind;

/// The operator or punctuation mark of one byte.
fn first_sign(byte: u8) -> Option<TokenKind>
    ensures { result ≡ first_sign byte }
{
    match byte {
        b'+' => Some(TokenKind::Plus),
        b'-' => Some(TokenKind::Minus),
        b'*' => Some(TokenKind::Star),
        b'/' => Some(TokenKind::Slash),
        b'%' => Some(TokenKind::Percent),
        b'<' => Some(TokenKind::Less),
        b'>' => Some(TokenKind::Greater),
        b'&' => Some(TokenKind::Ampersand),
        b'|' => Some(TokenKind::Bar),
        b'^' => Some(TokenKind::Caret),
        b'~' => Some(TokenKind::Tilde),
        b'!' => Some(TokenKind::Exclamation),
        b'=' => Some(TokenKind::Assign),
        b'(' => Some(TokenKind::LeftParen),
        b')' => Some(TokenKind::RightParen),
        b'[' => Some(TokenKind::LeftBracket),
        b']' => Some(TokenKind::RightBracket),
        b'{' => Some(TokenKind::LeftBrace),
        b'}' => Some(TokenKind::RightBrace),
        b';' => Some(TokenKind::Semicolon),
        b',' => Some(TokenKind::Comma),
        b'.' => Some(TokenKind::Dot),
        b':' => Some(TokenKind::Colon),
        _ => None,
    }
}

/// The operator that extends `kind` by one byte, if there is one.
fn longer_sign(kind: &TokenKind, byte: u8) -> Option<TokenKind>
    ensures { result ≡ longer_sign kind.now byte }
{
    match (kind, byte) {
        (TokenKind::Plus, b'=') => Some(TokenKind::PlusAssign),
        (TokenKind::Plus, b'+') => Some(TokenKind::PlusPlus),
        (TokenKind::Minus, b'=') => Some(TokenKind::MinusAssign),
        (TokenKind::Minus, b'-') => Some(TokenKind::MinusMinus),
        (TokenKind::Star, b'=') => Some(TokenKind::StarAssign),
        (TokenKind::Slash, b'=') => Some(TokenKind::SlashAssign),
        (TokenKind::Percent, b'=') => Some(TokenKind::PercentAssign),
        (TokenKind::ShiftLeft, b'=') => Some(TokenKind::ShiftLeftAssign),
        (TokenKind::ShiftRight, b'>') => Some(TokenKind::UnsignedShiftRight),
        (TokenKind::ShiftRight, b'=') => Some(TokenKind::ShiftRightAssign),
        (TokenKind::UnsignedShiftRight, b'=') => Some(TokenKind::UnsignedShiftRightAssign),
        (TokenKind::Less, b'<') => Some(TokenKind::ShiftLeft),
        (TokenKind::Less, b'=') => Some(TokenKind::LessEqual),
        (TokenKind::Greater, b'>') => Some(TokenKind::ShiftRight),
        (TokenKind::Greater, b'=') => Some(TokenKind::GreaterEqual),
        (TokenKind::Ampersand, b'&') => Some(TokenKind::AndAnd),
        (TokenKind::Ampersand, b'=') => Some(TokenKind::AmpersandAssign),
        (TokenKind::Bar, b'|') => Some(TokenKind::OrOr),
        (TokenKind::Bar, b'=') => Some(TokenKind::BarAssign),
        (TokenKind::Caret, b'=') => Some(TokenKind::CaretAssign),
        (TokenKind::Exclamation, b'=') => Some(TokenKind::NotEqual),
        (TokenKind::Assign, b'=') => Some(TokenKind::Equal),
        _ => None,
    }
}

impl Cursor<'_> {
    /// Reads the longest operator or punctuation mark here. Error: X1 if the byte begins none.
    pub fn operator(&mut self) -> Result<InputElement, LexErr>
        requires { 0 < length (unread_bytes self.old) }
        ensures { Scans (sign self.old.at (unread_bytes self.old)) self.old self.new result }
    {
        let place = self.place();
        let Some(mut kind) = self.peek().and_then(first_sign) else {
            return Err(lex_error(Rule::X1, place));
        };
        self.advance();
        while let Some(byte) = self.peek() {
            let Some(longer) = longer_sign(&kind, byte) else {
                break;
            };
            kind = longer;
            self.advance();
        }
        Ok(InputElement::Token(kind))
    }
}
