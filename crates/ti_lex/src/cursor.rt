// The lexer's input.
ghost use Rattle.std.specs.Prelude.{◌≡◌, ◌≤◌, ◌<◌, ◌∷◌, [], length, drop, MatchOption};
ghost use Rattle.ti_base.specs.Places.{place_of};
ghost use Rattle.ti_rules.specs.LexicalRefusals.{most_bytes};
ghost use Rattle.ti_lex.specs.Mirrors.Cursor.{unread_bytes, skip_bytes};

use std::marker::Model;
use ti_base::Place;

/// A forward-only cursor over the bytes of a source. It tracks the line and column of the next byte.
#[derive(Debug, Drop)]
pub struct Cursor<'a> {
    /// The source.
    text: &'a [u8],
    /// The offset of the next byte.
    at: usize,
    /// The position of the next byte.
    place: Place,
}

impl<'a> Model for Cursor<'a> {
    ghost use Rattle.std.specs.Prelude.{◌≡◌, ◌≤◌, length};
    ghost use Rattle.ti_base.specs.Places.{place_of};
    ghost use Rattle.ti_rules.specs.LexicalRefusals.{most_bytes};
    ghost use Rattle.ti_lex.specs.Mirrors.Cursor.{CursorView};

    ghost Value = { CursorView };

    ghost view = { λ c. record { text = c.text.now; at = c.at } };

    ghost invariant = { λ c. (c.at ≤ length c.text.now) × (length c.text.now ≤ most_bytes) × (c.place ≡ place_of c.text.now c.at) };
}

impl<'a> Cursor<'a> {
    /// A cursor at the first byte of a source.
    pub fn new(text: &'a [u8]) -> Self
        requires { length text.now ≤ most_bytes }
        ensures { result ≡ record { text = text.now; at = 0 } }
    {
        Cursor {
            text,
            at: 0,
            place: Place::first(),
        }
    }

    /// The position of the next byte; at the end of the source, the position just after the last byte.
    pub fn place(&self) -> Place
        ensures { result ≡ place_of self.now.text self.now.at }
    {
        self.place
    }

    /// The offset of the next byte.
    pub fn offset(&self) -> usize
        ensures at { result ≡ self.now.at }
        ensures within { result ≤ length self.now.text }
    {
        self.at
    }

    /// The bytes that aren't read yet.
    pub fn unread(&self) -> &'a [u8]
        ensures { result.now ≡ unread_bytes self.now }
    {
        &self.text[self.at..]
    }

    /// The next byte, or None at the end of the source.
    pub fn peek(&self) -> Option<u8>
        ensures { MatchOption result (unread_bytes self.now ≡ []) (λ byte. unread_bytes self.now ≡ byte ∷ drop 1 (unread_bytes self.now)) }
    {
        self.unread().first().copied()
    }

    /// Skips the next byte.
    pub fn advance(&mut self)
        requires { 0 < length (unread_bytes self.old) }
        ensures moves { self.new ≡ skip_bytes 1 self.old }
        ensures left { unread_bytes self.new ≡ drop 1 (unread_bytes self.old) }
    {
        self.place = self.place.after(self.text[self.at]);
        self.at += 1;
    }
}
