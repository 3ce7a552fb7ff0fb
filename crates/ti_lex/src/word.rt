// Names and reserved words. The table of reserved words is in alphabetical order, regardless of case, and is indexed by the first byte.
ghost use Rattle.std.specs.Prelude.{◌≡◌, ◌<◌, ◌≤◌, ℕ, List, ◌∷◌, drop, Some, None, slice_get, take};
ghost use Rattle.std.specs.List.{prefix_len};
ghost use Rattle.std.specs.Map.{lookup};
ghost use Rattle.std.specs.Str.{bytes_eq};
ghost use Rattle.ti_syntax.specs.Tokenizing.{is_name_byte};
ghost use Rattle.ti_lex.specs.Mirrors.Answers.{Scans};
ghost use Rattle.ti_lex.specs.Mirrors.Cursor.{unread_bytes, skip_bytes};
ghost use Rattle.ti_lex.specs.Mirrors.Reading.{reserved_words, word};

use crate::byte_class::is_name_byte;
use crate::cursor::Cursor;
use crate::error::LexErr;
use crate::input_element::InputElement;
use std::alloc::Global;
use ti_syntax::{Spelled, TokenKind};

/// The number of reserved words.
const RESERVED: usize = 34;

/// An entry of the table of reserved words: the spelling and the token kind.
#[tactic(auto, unfolding(crate::specs::Mirrors::Reading::reserved_words))]
fn reserved_at(number: usize) -> (&'static [u8], TokenKind)
    requires { number < RESERVED }
    ensures { slice_get reserved_words number ≡ Some (result.0.now, result.1) }
{
    match number {
        0 => (b"boolean", TokenKind::KeywordBoolean),
        1 => (b"break", TokenKind::KeywordBreak),
        2 => (b"broadcast", TokenKind::KeywordBroadcast),
        3 => (b"class", TokenKind::KeywordClass),
        4 => (b"continue", TokenKind::KeywordContinue),
        5 => (b"Domain", TokenKind::KeywordDomain),
        6 => (b"else", TokenKind::KeywordElse),
        7 => (b"false", TokenKind::KeywordFalse),
        8 => (b"final", TokenKind::KeywordFinal),
        9 => (b"for", TokenKind::KeywordFor),
        10 => (b"foreach", TokenKind::KeywordForeach),
        11 => (b"if", TokenKind::KeywordIf),
        12 => (b"int", TokenKind::KeywordInt),
        13 => (b"local", TokenKind::KeywordLocal),
        14 => (b"long", TokenKind::KeywordLong),
        15 => (b"new", TokenKind::KeywordNew),
        16 => (b"null", TokenKind::KeywordNull),
        17 => (b"Point", TokenKind::KeywordPoint),
        18 => (b"println", TokenKind::KeywordPrintln),
        19 => (b"private", TokenKind::KeywordPrivate),
        20 => (b"protected", TokenKind::KeywordProtected),
        21 => (b"public", TokenKind::KeywordPublic),
        22 => (b"RectDomain", TokenKind::KeywordRectDomain),
        23 => (b"return", TokenKind::KeywordReturn),
        24 => (b"SharedRegion", TokenKind::KeywordSharedRegion),
        25 => (b"single", TokenKind::KeywordSingle),
        26 => (b"static", TokenKind::KeywordStatic),
        27 => (b"String", TokenKind::KeywordString),
        28 => (b"System", TokenKind::KeywordSystem),
        29 => (b"this", TokenKind::KeywordThis),
        30 => (b"Ti", TokenKind::KeywordTi),
        31 => (b"true", TokenKind::KeywordTrue),
        32 => (b"void", TokenKind::KeywordVoid),
        _ => (b"while", TokenKind::KeywordWhile),
    }
}

/// The range of table indices, end exclusive, that has all reserved words that begin with `first`.
#[tactic(auto, unfolding(crate::specs::Mirrors::Reading::reserved_words))]
fn reserved_with(first: u8) -> (usize, usize)
    ensures order { result.0 ≤ result.1 }
    ensures within { result.1 ≤ 34 }
    ensures before { (rest : List ℕ) → lookup (bytes_eq (first ∷ rest)) (drop result.0 reserved_words)
        ≡ lookup (bytes_eq (first ∷ rest)) reserved_words }
    ensures behind { (rest : List ℕ) → lookup (bytes_eq (first ∷ rest)) (drop result.1 reserved_words) ≡ None }
{
    match first {
        b'b' => (0, 3),
        b'c' => (3, 5),
        b'D' => (5, 6),
        b'e' => (6, 7),
        b'f' => (7, 11),
        b'i' => (11, 13),
        b'l' => (13, 15),
        b'n' => (15, 17),
        b'P' => (17, 18),
        b'p' => (18, 22),
        b'R' => (22, 23),
        b'r' => (23, 24),
        b'S' => (24, 29),
        b's' => (25, 27),
        b't' => (29, 32),
        b'T' => (30, 31),
        b'v' => (32, 33),
        b'w' => (33, 34),
        _ => (34, 34),
    }
}

/// The token kind of a reserved word, or None if the word isn't reserved.
fn reserved_word(word: &[u8]) -> Option<TokenKind>
    ensures { result ≡ lookup (bytes_eq word.now) reserved_words }
{
    let [first, ..] = word else {
        return None;
    };
    let (start, end) = reserved_with(*first);
    for number in start..end {
        let (spelling, kind) = reserved_at(number);
        if word == spelling {
            return Some(kind);
        }
    }
    None
}

impl<'a> Cursor<'a> {
    /// Reads all bytes here that can continue a name.
    fn name(&mut self) -> &'a [u8]
        ensures bytes { result.now ≡ take (prefix_len is_name_byte (unread_bytes self.old)) (unread_bytes self.old) }
        ensures moves { self.new ≡ skip_bytes (prefix_len is_name_byte (unread_bytes self.old)) self.old }
    {
        let rest = self.unread();
        let mut size = 0;
        while let Some(byte) = self.peek() {
            if !is_name_byte(byte) {
                break;
            }
            self.advance();
            size += 1;
        }
        &rest[..size]
    }

    /// Reads a name or a reserved word.
    pub fn word(&mut self, alloc: Global) -> Result<InputElement, LexErr>
        ensures { Scans (word self.old.at (unread_bytes self.old)) self.old self.new result }
    {
        let word = self.name();
        if let Some(kind) = reserved_word(word) {
            return Ok(InputElement::Token(kind));
        }
        let word = Spelled::new(word.to_vec(alloc)?);
        Ok(InputElement::Token(TokenKind::Name(word)))
    }
}
