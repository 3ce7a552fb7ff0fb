// The lexer's main loop.
ghost use Rattle.std.specs.Prelude.{◌≡◌, ◌⊎◌, ◌≤◌, ◌<◌, ◌∷◌, ℕ, true, List, None, Some, Ok, IfOk, IfSome, length, drop, slice_get};
ghost use Rattle.ti_base.specs.Places.{place_of, place_before};
ghost use Rattle.ti_syntax.specs.declared.token.Token.{Token};
ghost use Rattle.ti_syntax.specs.Tokenizing.{BeginsNoPiece, IsTokenized};
ghost use Rattle.ti_rules.specs.declared.refusal.Refusal.{Refusal};
ghost use Rattle.ti_rules.specs.LexicalRefusals.{most_bytes, IsLexicalRefusal};
ghost use Rattle.ti_lex.specs.Answer.{BeginsElement, Lexes, GivesOnly, RefusesOnly};
ghost use Rattle.ti_lex.specs.Mirrors.Answers.{Scans};
ghost use Rattle.ti_lex.specs.Mirrors.Cursor.{unread_bytes};
ghost use Rattle.ti_lex.specs.Mirrors.Reading.{first_lexeme};

use crate::byte_class::{ByteClass, class_of_byte};
use crate::cursor::Cursor;
use crate::error::{LexErr, lex_error};
use crate::input_element::InputElement;
use std::alloc::Global;
use ti_base::{Memory, Place};
use ti_rules::Rule;
use ti_syntax::{Token, TokenKind};

/// The limit on the size of a source, in bytes.
pub const MOST_BYTES: usize = 1048576;

impl Cursor<'_> {
    /// Reads the lexical element that begins with `byte`, the next byte.
    #[tactic(auto, unfolding(crate::specs::Mirrors::Reading::first_lexeme))]
    fn input_element(&mut self, alloc: Global, byte: u8) -> Result<InputElement, LexErr>
        requires { unread_bytes self.old ≡ byte ∷ drop 1 (unread_bytes self.old) }
        ensures { Scans (first_lexeme self.old.at (unread_bytes self.old)) self.old self.new result }
    {
        match class_of_byte(byte) {
            ByteClass::Blank => {
                self.advance();
                Ok(InputElement::Space)
            }
            ByteClass::Letter => self.word(alloc),
            ByteClass::Digit => self.number(),
            ByteClass::Quote => self.string(alloc),
            ByteClass::Slash => self.slash(),
            ByteClass::Other => self.operator(),
        }
    }

    /// Reads all tokens of a source. The cursor is at its first byte.
    fn tokens(&mut self, alloc: Global) -> Result<Vec<Token>, LexErr>
        requires front { self.old.at ≡ 0 }
        requires short { length self.old.text ≤ most_bytes }
        ensures { Lexes self.old.text result }
    {
        let mut tokens = Vec::new(alloc);
        while let Some(byte) = self.peek() {
            let place = self.place();
            match self.input_element(alloc, byte)? {
                InputElement::Space => {}
                InputElement::Token(kind) => tokens.push(Token { kind, place })?,
            }
        }
        let place = self.place();
        tokens.push(Token {
            kind: TokenKind::End,
            place,
        })?;
        Ok(tokens)
    }
}

/// Splits a source into tokens with their positions; the last token is End.
///
/// Errors: the source's lexical error (X1 to X5), or Memory.
pub fn lex(alloc: Global, text: &[u8]) -> Result<Vec<Token>, LexErr>
    ensures answer { Lexes text.now result }
    // The result is unique: a source with a token list gets only this list, one with a lexical error only this error, up to Memory.
    ensures only_tokens { (tokens : List Token) → length text.now ≤ most_bytes → IsTokenized text.now tokens → GivesOnly result tokens }
    ensures only_refusal { (refusal : Refusal) → IsLexicalRefusal text.now refusal → RefusesOnly result refusal }
{
    if text.len() > MOST_BYTES {
        return Err(lex_error(Rule::X5, Place::first()));
    }
    Cursor::new(text).tokens(alloc)
}

/// The length in bytes of the lexical element at the start of these bytes: of a token, a comment or a whitespace byte. None if no lexical
/// element begins them, or if they are longer than a source may be. The only error is that memory ran out.
#[tactic(auto, using(crate::proofs::ElementLength::scanned_some, crate::proofs::ElementLength::scanned_none, crate::proofs::ElementLength::no_bytes))]
pub fn element_len(alloc: Global, bytes: &[u8]) -> Result<Option<usize>, Memory>
    ensures some { IfOk result (λ o. IfSome o (BeginsElement bytes.now)) }
    ensures none { result ≡ Ok None → length bytes.now ≤ most_bytes → BeginsNoPiece bytes.now }
{
    if bytes.len() > MOST_BYTES {
        return Ok(None);
    }
    let mut cursor = Cursor::new(bytes);
    let Some(byte) = cursor.peek() else {
        return Ok(None);
    };
    match cursor.input_element(alloc, byte) {
        Ok(_) => Ok(Some(cursor.offset())),
        Err(LexErr::Refused(_)) => Ok(None),
        Err(LexErr::Memory) => Err(Memory),
    }
}

/// Theorem: each source has one token list or one lexical error, and never both.
pub fn one_reading()
    ensures some { (text : List ℕ) → ((tokens : List Token) × (length text ≤ most_bytes) × IsTokenized text tokens)
        ⊎ ((refusal : Refusal) × IsLexicalRefusal text refusal) }
    ensures one_list { (text : List ℕ) (a b : List Token) → IsTokenized text a → IsTokenized text b → a ≡ b }
    ensures one_refusal { (text : List ℕ) (a b : Refusal) → IsLexicalRefusal text a → IsLexicalRefusal text b → a ≡ b }
    ensures never_both { (text : List ℕ) (tokens : List Token) (refusal : Refusal) → length text ≤ most_bytes → IsTokenized text tokens
        → IsLexicalRefusal text refusal → ⊥ }
{}

/// Theorem: each token of a source is at a position of the source, and the positions strictly increase.
pub fn tokens_in_order()
    ensures placed { (text : List ℕ) (tokens : List Token) → IsTokenized text tokens → (i : ℕ) (t : Token)
        → slice_get tokens i ≡ Some t → (k : ℕ) × (k ≤ length text) × (t.place ≡ place_of text k) }
    ensures rises { (text : List ℕ) (tokens : List Token) → IsTokenized text tokens → (i j : ℕ) (t u : Token) → i < j
        → slice_get tokens i ≡ Some t → slice_get tokens j ≡ Some u → place_before t.place u.place ≡ true }
{}
