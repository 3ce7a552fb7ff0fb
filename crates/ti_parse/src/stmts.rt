// Parsing of statements. The grammar rules take the recursive parser as a parameter, so that each rule is proved by itself.

ghost use Rattle.std.specs.Prelude.{[], ◌≡◌};
ghost use Rattle.ti_syntax.specs.Trees.Views.{exp_of, maybe_of, stms_of};
ghost use Rattle.ti_parse.specs.Mirrors.Nests.{Nests};
ghost use Rattle.ti_parse.specs.Mirrors.Parts as parts;
ghost use Rattle.ti_parse.specs.Mirrors.Pieces as pieces;
ghost use Rattle.ti_parse.specs.Mirrors.Pieces.{for_head_of};
ghost use Rattle.ti_parse.specs.Mirrors.Seen.{name_start_of, boxed_stm, maybe_stm};
ghost use Rattle.ti_parse.specs.Mirrors.Statements as spec;
ghost use Rattle.ti_parse.specs.Mirrors.ParserParams.{language_params};
ghost use Rattle.ti_parse_expr.specs.Mirrors.Input.{ParsesAs};

use crate::parser::{TextParser, then_expect};
use crate::simple::NameStart;
use crate::words::{begins_declaration, is_compound, starts};
use ti_base::Place;
use ti_parse_expr::full::full_operand;
use ti_parse_expr::{ParseStop, Tokens};
use ti_syntax::TokenKind;
use ti_syntax::tree::{Expr, Stmt};

/// The limit on the nesting of compound statements.
pub const MOST_LEVELS: u32 = 64;

/// The head of a `for`.
#[derive(Drop)]
pub struct ForHead {
    pub first: Option<Box<Stmt>>,
    pub condition: Option<Expr>,
    pub update: Option<Box<Stmt>>,
}

/// The grammar rules of statements, over a parser of nested statements.
#[derive(Clone, Copy)]
pub struct Statements<F> {
    pub parser: TextParser,
    /// How many more levels of compound statements may be nested.
    pub levels: u32,
    /// The parser of nested statements: context, input, levels.
    pub stmt: F,
}

impl<F: Fn(TextParser, &mut Tokens<'_>, u32) -> Result<Box<Stmt>, ParseStop>> Statements<F> {
    fn stmt(&self, tokens: &mut Tokens<'_>) -> Result<Box<Stmt>, ParseStop>
        requires { Nests self.now.parser self.now.levels (F.pre self.now.stmt) (F.post self.now.stmt) }
        ensures { ParsesAs boxed_stm (spec.stmt language_params self.now.parser.fuel self.now.levels tokens.old) result tokens.new }
    {
        (self.stmt)(self.parser, tokens, self.levels)
    }

    // ---- items

    /// An item that begins with a name, after its start.
    fn named_item(&self, tokens: &mut Tokens<'_>, begun: NameStart) -> Result<Box<Stmt>, ParseStop>
        requires { Nests self.now.parser self.now.levels (F.pre self.now.stmt) (F.post self.now.stmt) }
        ensures { ParsesAs boxed_stm (spec.named_item language_params self.now.parser.fuel (spec.stmt language_params self.now.parser.fuel self.now.levels)
            (name_start_of begun) tokens.old) result tokens.new }
    {
        match begun {
            NameStart::DeclaredType(ty) => self.parser.declaration_stmt(tokens, ty),
            NameStart::PostfixStart(operand) => self.parser.expr_stmt(tokens, operand),
        }
    }

    /// An item: a declaration or a statement.
    #[tactic(auto, unfolding(crate::specs::Mirrors::Statements::item))]
    fn item(&self, tokens: &mut Tokens<'_>) -> Result<Box<Stmt>, ParseStop>
        requires { Nests self.now.parser self.now.levels (F.pre self.now.stmt) (F.post self.now.stmt) }
        ensures { ParsesAs boxed_stm (spec.item language_params self.now.parser.fuel
            (spec.stmt language_params self.now.parser.fuel self.now.levels) tokens.old) result tokens.new }
    {
        match tokens.peek() {
            TokenKind::Name(name) => {
                let place = tokens.place();
                let name = name.copy(self.parser.alloc)?;
                tokens.bump();
                let begun = self.parser.name_start(tokens, place, name)?;
                self.named_item(tokens, begun)
            }
            kind => {
                if !begins_declaration(kind) {
                    return self.stmt(tokens);
                }
                let ty = self.parser.any_type(tokens)?;
                self.parser.declaration_stmt(tokens, ty)
            }
        }
    }

    /// All items up to a `}`, which isn't consumed.
    #[tactic(auto, unfolding(crate::specs::Mirrors::Statements::items))]
    pub fn items(&self, tokens: &mut Tokens<'_>) -> Result<Vec<Stmt>, ParseStop>
        requires { Nests self.now.parser self.now.levels (F.pre self.now.stmt) (F.post self.now.stmt) }
        ensures { ParsesAs stms_of (spec.items language_params self.now.parser.fuel
            (spec.stmt language_params self.now.parser.fuel self.now.levels) self.now.parser.fuel [] tokens.old) result tokens.new }
    {
        let mut found = Vec::new(self.parser.alloc);
        for _turn in 0..self.parser.fuel {
            if tokens.next_is(TokenKind::RightBrace) {
                return Ok(found);
            }
            let item = self.item(tokens)?;
            if found.is_empty() {
                found.reserve_exact(1)?;
            }
            found.push(Box::into_inner(item))?;
        }
        Err(ParseStop::OutOfFuel)
    }

    // ---- compound statements

    /// A block, after its `{`.
    #[tactic(auto, unfolding(crate::specs::Mirrors::Statements::block), using(ti_syntax::proofs::Lemmas::bridges))]
    fn block(&self, tokens: &mut Tokens<'_>) -> Result<Box<Stmt>, ParseStop>
        requires { Nests self.now.parser self.now.levels (F.pre self.now.stmt) (F.post self.now.stmt) }
        ensures { ParsesAs boxed_stm (spec.block language_params self.now.parser.fuel
            (spec.stmt language_params self.now.parser.fuel self.now.levels) tokens.old) result tokens.new }
    {
        let body = self.items(tokens)?;
        tokens.expect(TokenKind::RightBrace)?;
        Ok(Box::new(self.parser.alloc, Stmt::Block(body))?)
    }

    /// An `if`, after its keyword.
    #[tactic(auto, unfolding(crate::specs::Mirrors::Statements::conditional))]
    fn conditional(&self, tokens: &mut Tokens<'_>, place: Place) -> Result<Box<Stmt>, ParseStop>
        requires { Nests self.now.parser self.now.levels (F.pre self.now.stmt) (F.post self.now.stmt) }
        ensures { ParsesAs boxed_stm (spec.conditional language_params self.now.parser.fuel
            (spec.stmt language_params self.now.parser.fuel self.now.levels) place tokens.old) result tokens.new }
    {
        let condition = self.parser.condition(tokens)?;
        let then = self.stmt(tokens)?;
        self.conditional_behind(tokens, place, condition, then)
    }

    /// An `if`, after its first branch.
    fn conditional_behind(
        &self,
        tokens: &mut Tokens<'_>,
        place: Place,
        condition: Expr,
        then: Box<Stmt>,
    ) -> Result<Box<Stmt>, ParseStop>
        requires { Nests self.now.parser self.now.levels (F.pre self.now.stmt) (F.post self.now.stmt) }
        ensures { ParsesAs boxed_stm (spec.conditional_behind language_params self.now.parser.fuel
            (spec.stmt language_params self.now.parser.fuel self.now.levels) place (exp_of condition) (boxed_stm then) tokens.old) result
            tokens.new }
    {
        if !tokens.next_is(TokenKind::KeywordElse) {
            let alone = Stmt::If {
                place,
                condition,
                then,
                otherwise: None,
            };
            return Ok(Box::new(self.parser.alloc, alone)?);
        }
        tokens.bump();
        let otherwise = Some(self.stmt(tokens)?);
        let choice = Stmt::If {
            place,
            condition,
            then,
            otherwise,
        };
        Ok(Box::new(self.parser.alloc, choice)?)
    }

    /// A `while`, after its keyword.
    #[tactic(auto, unfolding(crate::specs::Mirrors::Statements::while_loop))]
    fn while_loop(&self, tokens: &mut Tokens<'_>, place: Place) -> Result<Box<Stmt>, ParseStop>
        requires { Nests self.now.parser self.now.levels (F.pre self.now.stmt) (F.post self.now.stmt) }
        ensures { ParsesAs boxed_stm (spec.while_loop language_params self.now.parser.fuel
            (spec.stmt language_params self.now.parser.fuel self.now.levels) place tokens.old) result tokens.new }
    {
        let condition = self.parser.condition(tokens)?;
        let body = self.stmt(tokens)?;
        let whole = Stmt::While {
            place,
            condition,
            body,
        };
        Ok(Box::new(self.parser.alloc, whole)?)
    }

    /// A `for`, after its keyword.
    #[tactic(auto, unfolding(crate::specs::Mirrors::Statements::for_loop))]
    fn for_loop(&self, tokens: &mut Tokens<'_>, place: Place) -> Result<Box<Stmt>, ParseStop>
        requires { Nests self.now.parser self.now.levels (F.pre self.now.stmt) (F.post self.now.stmt) }
        ensures { ParsesAs boxed_stm (spec.for_loop language_params self.now.parser.fuel
            (spec.stmt language_params self.now.parser.fuel self.now.levels) place tokens.old) result tokens.new }
    {
        let head = self.parser.for_head(tokens)?;
        let body = self.stmt(tokens)?;
        let whole = Stmt::For {
            place,
            first: head.first,
            condition: head.condition,
            update: head.update,
            body,
        };
        Ok(Box::new(self.parser.alloc, whole)?)
    }

    /// A `foreach`, after its keyword.
    #[tactic(auto, unfolding(crate::specs::Mirrors::Statements::foreach_loop))]
    fn foreach_loop(&self, tokens: &mut Tokens<'_>, place: Place) -> Result<Box<Stmt>, ParseStop>
        requires { Nests self.now.parser self.now.levels (F.pre self.now.stmt) (F.post self.now.stmt) }
        ensures { ParsesAs boxed_stm (spec.foreach_loop language_params self.now.parser.fuel
            (spec.stmt language_params self.now.parser.fuel self.now.levels) place tokens.old) result tokens.new }
    {
        tokens.expect(TokenKind::LeftParen)?;
        let name_place = tokens.place();
        let name = tokens.name(self.parser.alloc)?;
        tokens.expect_word(b"in")?;
        let domain = self.parser.expr(tokens)?;
        let domain = then_expect(tokens, TokenKind::RightParen, domain)?;
        let body = self.stmt(tokens)?;
        let whole = Stmt::Foreach {
            place,
            name_place,
            name,
            domain,
            body,
        };
        Ok(Box::new(self.parser.alloc, whole)?)
    }

    /// A compound statement, after its first token, which is of this kind.
    fn compound(
        &self,
        tokens: &mut Tokens<'_>,
        place: Place,
        kind: &TokenKind,
    ) -> Result<Box<Stmt>, ParseStop>
        requires { Nests self.now.parser self.now.levels (F.pre self.now.stmt) (F.post self.now.stmt) }
        ensures { ParsesAs boxed_stm (spec.compound language_params self.now.parser.fuel
            (spec.stmt language_params self.now.parser.fuel self.now.levels) place kind.now tokens.old) result tokens.new }
    {
        match kind {
            TokenKind::LeftBrace => self.block(tokens),
            TokenKind::KeywordIf => self.conditional(tokens, place),
            TokenKind::KeywordWhile => self.while_loop(tokens, place),
            TokenKind::KeywordFor => self.for_loop(tokens, place),
            _ => self.foreach_loop(tokens, place),
        }
    }
}

impl TextParser {
    // ---- the heads of compound statements

    /// A condition with its parentheses.
    #[tactic(auto, unfolding(crate::specs::Mirrors::Parts::condition))]
    pub fn condition(self, tokens: &mut Tokens<'_>) -> Result<Expr, ParseStop>
        ensures { ParsesAs exp_of (parts.condition language_params self.fuel tokens.old) result tokens.new }
    {
        tokens.expect(TokenKind::LeftParen)?;
        let condition = self.expr(tokens)?;
        then_expect(tokens, TokenKind::RightParen, condition)
    }

    /// The first part of a `for` head that begins with a name, after its start.
    fn first_of(self, tokens: &mut Tokens<'_>, begun: NameStart) -> Result<Box<Stmt>, ParseStop>
        ensures { ParsesAs boxed_stm (parts.first_of language_params self.fuel (name_start_of begun) tokens.old) result tokens.new }
    {
        match begun {
            NameStart::DeclaredType(ty) => self.declaration(tokens, ty),
            NameStart::PostfixStart(operand) => self.change_of(tokens, operand),
        }
    }

    /// The first part of a `for` head: empty, a declaration or a change.
    #[tactic(auto, unfolding(crate::specs::Mirrors::Parts::first))]
    pub fn first(self, tokens: &mut Tokens<'_>) -> Result<Option<Box<Stmt>>, ParseStop>
        ensures { ParsesAs maybe_stm (parts.first language_params self.fuel tokens.old) result tokens.new }
    {
        let first = match tokens.peek() {
            TokenKind::Semicolon => return Ok(None),
            TokenKind::Name(name) => {
                let place = tokens.place();
                let name = name.copy(self.alloc)?;
                tokens.bump();
                let begun = self.name_start(tokens, place, name)?;
                self.first_of(tokens, begun)?
            }
            kind => {
                if begins_declaration(kind) {
                    let ty = self.any_type(tokens)?;
                    self.declaration(tokens, ty)?
                } else {
                    self.change(tokens)?
                }
            }
        };
        Ok(Some(first))
    }

    /// An expression, or None if a semicolon is next.
    #[tactic(auto, unfolding(crate::specs::Mirrors::Parts::optional_expr))]
    pub fn optional_expr(self, tokens: &mut Tokens<'_>) -> Result<Option<Expr>, ParseStop>
        ensures { ParsesAs (maybe_of exp_of) (parts.optional_expr language_params self.fuel tokens.old) result tokens.new }
    {
        if tokens.next_is(TokenKind::Semicolon) {
            return Ok(None);
        }
        Ok(Some(self.expr(tokens)?))
    }

    /// The update of a `for` head: empty or a change.
    #[tactic(auto, unfolding(crate::specs::Mirrors::Parts::update))]
    pub fn update(self, tokens: &mut Tokens<'_>) -> Result<Option<Box<Stmt>>, ParseStop>
        ensures { ParsesAs maybe_stm (parts.update language_params self.fuel tokens.old) result tokens.new }
    {
        if tokens.next_is(TokenKind::RightParen) {
            return Ok(None);
        }
        Ok(Some(self.change(tokens)?))
    }

    /// The head of a `for`, with its parentheses.
    #[tactic(auto, unfolding(crate::specs::Mirrors::Pieces::for_head))]
    fn for_head(self, tokens: &mut Tokens<'_>) -> Result<ForHead, ParseStop>
        ensures { ParsesAs for_head_of (pieces.for_head language_params self.fuel tokens.old) result tokens.new }
    {
        tokens.expect(TokenKind::LeftParen)?;
        let first = self.first(tokens)?;
        let first = then_expect(tokens, TokenKind::Semicolon, first)?;
        let condition = self.optional_expr(tokens)?;
        let condition = then_expect(tokens, TokenKind::Semicolon, condition)?;
        let update = self.update(tokens)?;
        let update = then_expect(tokens, TokenKind::RightParen, update)?;
        Ok(ForHead {
            first,
            condition,
            update,
        })
    }

    // ---- statements

    /// A statement that isn't compound.
    #[tactic(auto, unfolding(crate::specs::Mirrors::Statements::simple_stmt))]
    fn simple_stmt(self, tokens: &mut Tokens<'_>) -> Result<Box<Stmt>, ParseStop>
        ensures { ParsesAs boxed_stm (spec.simple_stmt language_params self.fuel tokens.old) result tokens.new }
    {
        match tokens.peek() {
            TokenKind::Semicolon => {
                tokens.bump();
                Ok(Box::new(self.alloc, Stmt::Empty)?)
            }
            TokenKind::KeywordPrintln | TokenKind::KeywordSystem => self.print(tokens),
            TokenKind::KeywordTi => {
                tokens.bump();
                self.barrier(tokens)
            }
            TokenKind::KeywordBreak => self.break_out(tokens),
            TokenKind::KeywordContinue => self.continue_on(tokens),
            TokenKind::KeywordReturn => self.return_from(tokens),
            kind => {
                if !starts(kind) {
                    return Err(ParseStop::Refused);
                }
                let operand = full_operand(self.alloc, tokens)?;
                self.expr_stmt(tokens, operand)
            }
        }
    }

    /// The items of a method body, without its braces.
    pub fn body(self, tokens: &mut Tokens<'_>) -> Result<Vec<Stmt>, ParseStop>
        ensures { ParsesAs stms_of (spec.body language_params self.fuel tokens.old) result tokens.new }
    {
        Statements {
            parser: self,
            levels: MOST_LEVELS,
            stmt,
        }
        .items(tokens)
    }
}

/// A statement. `levels` is how many more levels of compound statements may be nested; a compound one at 0 is an error (TooDeep).
#[tactic(auto, unfolding(crate::specs::Mirrors::Statements::stmt))]
pub fn stmt(
    parser: TextParser,
    tokens: &mut Tokens<'_>,
    levels: u32,
) -> Result<Box<Stmt>, ParseStop>
    ensures { ParsesAs boxed_stm (spec.stmt language_params parser.fuel levels tokens.old) result tokens.new }
{
    let kind = tokens.peek();
    if !is_compound(kind) {
        return parser.simple_stmt(tokens);
    }
    if levels == 0 {
        return Err(ParseStop::TooDeep);
    }
    let place = tokens.place();
    tokens.bump();
    Statements {
        parser,
        levels: levels - 1,
        stmt,
    }
    .compound(tokens, place, kind)
}
