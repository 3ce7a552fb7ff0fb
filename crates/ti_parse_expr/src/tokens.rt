// The parser's input.

ghost use Rattle.std.specs.Prelude.{◌≡◌, ◌≤◌, length, drop};
ghost use Rattle.ti_parse_expr.specs.Mirrors.Input as spec;
ghost use Rattle.ti_parse_expr.specs.Mirrors.Input.{Parses};
ghost use Rattle.ti_syntax.specs.declared.token.TokenKind.TheVariants.{End};

use crate::parse_stop::ParseStop;
use std::alloc::Global;
use std::marker::Model;
use ti_base::Place;
use ti_syntax::{Spelled, Token, TokenKind};

/// A cursor over a token list. Its model in contracts is the list of the tokens that are left.
///
/// After the last token, the next token is End; consuming it changes nothing.
#[derive(Drop)]
pub struct Tokens<'a> {
    /// The tokens that are left.
    list: &'a [Token],
    /// End, the kind of the token after them.
    end: &'a TokenKind,
}

impl<'a> Model for Tokens<'a> {
    ghost use Rattle.std.specs.Prelude.{List, ◌≡◌};
    ghost use Rattle.ti_syntax.specs.declared.token.Token.{Token};
    ghost use Rattle.ti_syntax.specs.declared.token.TokenKind.TheVariants.{End};

    ghost Value = { List Token };

    ghost view = { λ t. t.list.now };

    ghost invariant = { λ t. t.end.now ≡ End };
}

impl<'a> Tokens<'a> {
    /// A cursor at the first token of the list. `end` must be End; it is borrowed as the kind of the token past the list.
    pub fn new(list: &'a [Token], end: &'a TokenKind) -> Tokens<'a>
        requires { end.now ≡ End }
        ensures { result ≡ list.now }
    {
        Tokens { list, end }
    }

    /// End, borrowed as long as the list.
    pub fn end(&self) -> &'a TokenKind
        ensures { result.now ≡ End }
    {
        self.end
    }

    /// The kind of the next token.
    pub fn peek(&self) -> &'a TokenKind
        ensures { result.now ≡ spec.kind self.now }
    {
        match self.list {
            [first, ..] => &first.kind,
            [] => self.end,
        }
    }

    /// The position of the next token; line 0 and column 0 after the last one.
    pub fn place(&self) -> Place
        ensures { result ≡ spec.place self.now }
    {
        match self.list {
            [first, ..] => first.place,
            [] => Place { line: 0, col: 0 },
        }
    }

    /// Consumes the next token.
    pub fn bump(&mut self)
        ensures { self.new ≡ spec.after_next self.old }
    {
        match self.list {
            [_, rest @ ..] => self.list = rest,
            [] => {}
        }
    }

    /// Whether the next token is of this kind.
    pub fn next_is(&self, kind: TokenKind) -> bool
        ensures { result ≡ spec.next_is kind self.now }
    {
        self.peek().same_kind(&kind)
    }

    /// Consumes the next token, which must be of this kind.
    pub fn expect(&mut self, kind: TokenKind) -> Result<(), ParseStop>
        ensures { Parses (spec.expect kind self.old) result self.new }
    {
        if !self.next_is(kind) {
            return Err(ParseStop::Refused);
        }
        self.bump();
        Ok(())
    }

    /// Whether the next token is this name.
    pub fn next_is_name(&self, word: &[u8]) -> bool
        ensures { result ≡ spec.next_is_name word.now self.now }
    {
        match self.peek() {
            TokenKind::Name(name) => name.as_bytes() == word,
            _ => false,
        }
    }

    /// Consumes the next token, which must be this name.
    pub fn expect_word(&mut self, word: &[u8]) -> Result<(), ParseStop>
        ensures { Parses (spec.expect_word word.now self.old) result self.new }
    {
        if !self.next_is_name(word) {
            return Err(ParseStop::Refused);
        }
        self.bump();
        Ok(())
    }

    /// Consumes a name and returns a copy of it.
    pub fn name(&mut self, alloc: Global) -> Result<Spelled, ParseStop>
        ensures { Parses (spec.any_name self.old) result self.new }
    {
        match self.peek() {
            TokenKind::Name(name) => {
                let name = name.copy(alloc)?;
                self.bump();
                Ok(name)
            }
            _ => Err(ParseStop::Refused),
        }
    }

    /// The number of tokens left.
    pub fn remaining(&self) -> usize
        ensures { result ≡ length self.now }
    {
        self.list.len()
    }

    /// The tokens left.
    pub fn as_slice(&self) -> &'a [Token]
        ensures { result.now ≡ self.now }
    {
        self.list
    }

    /// Consumes `count` tokens.
    pub fn skip(&mut self, count: usize)
        requires { count ≤ length self.old }
        ensures { self.new ≡ drop count self.old }
    {
        self.list = &self.list[count..];
    }
}
