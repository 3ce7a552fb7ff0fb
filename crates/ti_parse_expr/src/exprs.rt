// The expression parser: recursive descent with precedence climbing, and one token of lookahead. The grammar rules take the recursive
// parser as a parameter, so that each rule is proved by itself.

ghost use Rattle.std.specs.Prelude.{[], ◌∷◌, ◌++◌, ◌≡◌, ◌+◌, ◌<◌, ◌^◌, IfOk};
ghost use Rattle.ti_syntax.specs.Trees.Views.{exp_of, exps_of, range_of, ranges_of, type_tree_of};
ghost use Rattle.ti_parse_expr.specs.Mirrors.Input.{Parses, ParsesAs};
ghost use Rattle.ti_parse_expr.specs.Mirrors.Seen.{operand_of};
ghost use Rattle.ti_parse_expr.specs.Mirrors.Exprs as spec;
ghost use Rattle.ti_parse_expr.specs.Mirrors.Nests.{Nests};

use crate::operators::{infix_of, precedence, prefix_of, qualifier_of};
use crate::parse_stop::ParseStop;
use crate::postfix_expr::{PostfixExpr, PostfixKind};
use crate::tokens::Tokens;
use crate::types;
use std::alloc::Global;
use ti_base::Place;
use ti_syntax::tree::{Base, BinaryOperator, Expr, Range, TypeName, UnaryOperator};
use ti_syntax::{Spelled, TokenKind};

/// The grammar rules, over a parser of nested expressions.
#[derive(Clone, Copy)]
pub struct Grammar<F> {
    pub alloc: Global,
    /// Fuel: a bound on the iterations of a loop and on the depth of recursion.
    pub fuel: usize,
    /// The parser of nested expressions: allocator, input, fuel, lowest precedence level.
    pub expr: F,
}

impl<F: Fn(Global, &mut Tokens<'_>, usize, u8) -> Result<Expr, ParseStop>> Grammar<F> {
    fn expr(&self, tokens: &mut Tokens<'_>, least: u8) -> Result<Expr, ParseStop>
        requires { Nests self.now.fuel (F.pre self.now.expr) (F.post self.now.expr) }
        ensures { ParsesAs exp_of (spec.expr self.now.fuel least tokens.old) result tokens.new }
    {
        (self.expr)(self.alloc, tokens, self.fuel, least)
    }

    // ---- lists

    #[tactic(auto, unfolding(crate::specs::Mirrors::Exprs::more_args))]
    fn more_args(&self, tokens: &mut Tokens<'_>) -> Result<Vec<Expr>, ParseStop>
        requires { Nests self.now.fuel (F.pre self.now.expr) (F.post self.now.expr) }
        ensures { ParsesAs exps_of (spec.more_args self.now.fuel (spec.expr self.now.fuel) self.now.fuel [] tokens.old) result
            tokens.new }
    {
        let mut found = Vec::with_capacity(self.alloc, 1)?;
        for _turn in 0..self.fuel {
            found.push(self.expr(tokens, 1)?)?;
            if !tokens.next_is(TokenKind::Comma) {
                return Ok(found);
            }
            tokens.bump();
        }
        Err(ParseStop::OutOfFuel)
    }

    #[tactic(auto, unfolding(crate::specs::Mirrors::Exprs::args))]
    fn args(&self, tokens: &mut Tokens<'_>) -> Result<Vec<Expr>, ParseStop>
        requires { Nests self.now.fuel (F.pre self.now.expr) (F.post self.now.expr) }
        ensures { ParsesAs exps_of (spec.args self.now.fuel (spec.expr self.now.fuel) tokens.old) result tokens.new }
    {
        if tokens.next_is(TokenKind::RightParen) {
            tokens.bump();
            return Ok(Vec::new(self.alloc));
        }
        let found = self.more_args(tokens)?;
        tokens.expect(TokenKind::RightParen)?;
        Ok(found)
    }

    #[tactic(auto, unfolding(crate::specs::Mirrors::Exprs::more_parts))]
    fn more_parts(
        &self,
        tokens: &mut Tokens<'_>,
        room: usize,
        found: Vec<Expr>,
    ) -> Result<Vec<Expr>, ParseStop>
        requires { Nests self.now.fuel (F.pre self.now.expr) (F.post self.now.expr) }
        ensures { ParsesAs exps_of (spec.more_parts self.now.fuel (spec.expr self.now.fuel) room (exps_of found) tokens.old) result
            tokens.new }
    {
        let mut found = found;
        for _turn in 0..room {
            if !tokens.next_is(TokenKind::Comma) {
                return Ok(found);
            }
            tokens.bump();
            found.push(self.expr(tokens, 1)?)?;
        }
        Ok(found)
    }

    #[tactic(auto, unfolding(crate::specs::Mirrors::Exprs::parts_from))]
    fn parts_from(&self, tokens: &mut Tokens<'_>, first: Expr) -> Result<Vec<Expr>, ParseStop>
        requires { Nests self.now.fuel (F.pre self.now.expr) (F.post self.now.expr) }
        ensures { ParsesAs exps_of (spec.parts_from self.now.fuel (spec.expr self.now.fuel) (exp_of first) tokens.old) result tokens.new }
    {
        let mut found = Vec::with_capacity(self.alloc, 1)?;
        found.push(first)?;
        let found = self.more_parts(tokens, 2, found)?;
        tokens.expect(TokenKind::RightBracket)?;
        Ok(found)
    }

    #[tactic(auto, unfolding(crate::specs::Mirrors::Exprs::parts))]
    fn parts(&self, tokens: &mut Tokens<'_>) -> Result<Vec<Expr>, ParseStop>
        requires { Nests self.now.fuel (F.pre self.now.expr) (F.post self.now.expr) }
        ensures { ParsesAs exps_of (spec.parts self.now.fuel (spec.expr self.now.fuel) tokens.old) result tokens.new }
    {
        let first = self.expr(tokens, 1)?;
        self.parts_from(tokens, first)
    }

    #[tactic(auto, unfolding(crate::specs::Mirrors::Exprs::range_from))]
    fn range_from(&self, tokens: &mut Tokens<'_>, low: Expr) -> Result<Range, ParseStop>
        requires { Nests self.now.fuel (F.pre self.now.expr) (F.post self.now.expr) }
        ensures { ParsesAs range_of (spec.range_from self.now.fuel (spec.expr self.now.fuel) (exp_of low) tokens.old) result tokens.new }
    {
        tokens.expect(TokenKind::Colon)?;
        let high = self.expr(tokens, 1)?;
        if !tokens.next_is(TokenKind::Colon) {
            return Ok(Range::Plain { low, high });
        }
        tokens.bump();
        let step = self.expr(tokens, 1)?;
        Ok(Range::Stepped { low, high, step })
    }

    #[tactic(auto, unfolding(crate::specs::Mirrors::Exprs::more_ranges))]
    fn more_ranges(
        &self,
        tokens: &mut Tokens<'_>,
        room: usize,
        found: Vec<Range>,
    ) -> Result<Vec<Range>, ParseStop>
        requires { Nests self.now.fuel (F.pre self.now.expr) (F.post self.now.expr) }
        ensures { ParsesAs ranges_of (spec.more_ranges self.now.fuel (spec.expr self.now.fuel) room (ranges_of found) tokens.old) result
            tokens.new }
    {
        let mut found = found;
        for _turn in 0..room {
            if !tokens.next_is(TokenKind::Comma) {
                return Ok(found);
            }
            tokens.bump();
            let low = self.expr(tokens, 1)?;
            found.push(self.range_from(tokens, low)?)?;
        }
        Ok(found)
    }

    #[tactic(auto, unfolding(crate::specs::Mirrors::Exprs::ranges_from))]
    fn ranges_from(&self, tokens: &mut Tokens<'_>, low: Expr) -> Result<Vec<Range>, ParseStop>
        requires { Nests self.now.fuel (F.pre self.now.expr) (F.post self.now.expr) }
        ensures { ParsesAs ranges_of (spec.ranges_from self.now.fuel (spec.expr self.now.fuel) (exp_of low) tokens.old) result tokens.new }
    {
        let mut found = Vec::with_capacity(self.alloc, 1)?;
        found.push(self.range_from(tokens, low)?)?;
        let found = self.more_ranges(tokens, 2, found)?;
        tokens.expect(TokenKind::RightBracket)?;
        Ok(found)
    }

    // ---- a Postfix

    #[tactic(auto, unfolding(crate::specs::Mirrors::Exprs::bracket), using(ti_syntax::proofs::Lemmas::bridges))]
    fn bracket(&self, tokens: &mut Tokens<'_>, place: Place) -> Result<Expr, ParseStop>
        requires { Nests self.now.fuel (F.pre self.now.expr) (F.post self.now.expr) }
        ensures { ParsesAs exp_of (spec.bracket self.now.fuel (spec.expr self.now.fuel) place tokens.old) result tokens.new }
    {
        let first = self.expr(tokens, 1)?;
        if tokens.next_is(TokenKind::Colon) {
            Ok(Expr::Rect(place, self.ranges_from(tokens, first)?))
        } else {
            Ok(Expr::Point(place, self.parts_from(tokens, first)?))
        }
    }

    /// A name or a call, after the name.
    #[tactic(auto, unfolding(crate::specs::Mirrors::Exprs::name_or_call), using(ti_syntax::proofs::Lemmas::bridges))]
    pub fn name_or_call(
        &self,
        tokens: &mut Tokens<'_>,
        place: Place,
        name: Spelled,
    ) -> Result<PostfixExpr, ParseStop>
        requires { Nests self.now.fuel (F.pre self.now.expr) (F.post self.now.expr) }
        ensures { ParsesAs operand_of (spec.name_or_call self.now.fuel (spec.expr self.now.fuel) place name tokens.old) result tokens.new }
    {
        if !tokens.next_is(TokenKind::LeftParen) {
            return Ok(PostfixExpr {
                expr: Expr::Name(place, name),
                kind: PostfixKind::Target,
            });
        }
        tokens.bump();
        let args = self.args(tokens)?;
        Ok(PostfixExpr {
            expr: Expr::Call { place, name, args },
            kind: PostfixKind::Call,
        })
    }

    #[tactic(auto, unfolding(crate::specs::Mirrors::Exprs::member), using(ti_syntax::proofs::Lemmas::bridges))]
    fn member(&self, tokens: &mut Tokens<'_>, left: Expr) -> Result<PostfixExpr, ParseStop>
        requires { Nests self.now.fuel (F.pre self.now.expr) (F.post self.now.expr) }
        ensures { ParsesAs operand_of (spec.member self.now.fuel (spec.expr self.now.fuel) (exp_of left) tokens.old) result tokens.new }
    {
        let left = Box::new(self.alloc, left)?;
        let place = tokens.place();
        let name = tokens.name(self.alloc)?;
        if !tokens.next_is(TokenKind::LeftParen) {
            return Ok(PostfixExpr {
                expr: Expr::Select {
                    place,
                    receiver: left,
                    name,
                },
                kind: PostfixKind::Target,
            });
        }
        tokens.bump();
        let args = self.args(tokens)?;
        Ok(PostfixExpr {
            expr: Expr::Member {
                place,
                receiver: left,
                name,
                args,
            },
            kind: PostfixKind::Call,
        })
    }

    /// An index, after its `[`. `place` is the position of the `[`.
    #[tactic(auto, unfolding(crate::specs::Mirrors::Exprs::index), using(ti_syntax::proofs::Lemmas::bridges))]
    pub fn index(
        &self,
        tokens: &mut Tokens<'_>,
        place: Place,
        left: Expr,
    ) -> Result<PostfixExpr, ParseStop>
        requires { Nests self.now.fuel (F.pre self.now.expr) (F.post self.now.expr) }
        ensures { ParsesAs operand_of (spec.index self.now.fuel (spec.expr self.now.fuel) place (exp_of left) tokens.old) result
            tokens.new }
    {
        let left = Box::new(self.alloc, left)?;
        let indices = self.parts(tokens)?;
        Ok(PostfixExpr {
            expr: Expr::Index {
                place,
                receiver: left,
                indices,
            },
            kind: PostfixKind::Target,
        })
    }

    /// The postfix parts that follow an operand, at most `fuel` of them.
    #[tactic(auto, unfolding(crate::specs::Mirrors::Exprs::postfix))]
    pub fn postfix(
        &self,
        tokens: &mut Tokens<'_>,
        fuel: usize,
        first: PostfixExpr,
    ) -> Result<PostfixExpr, ParseStop>
        requires { Nests self.now.fuel (F.pre self.now.expr) (F.post self.now.expr) }
        ensures { ParsesAs operand_of (spec.postfix self.now.fuel (spec.expr self.now.fuel) fuel (operand_of first) tokens.old) result
            tokens.new }
    {
        let mut left = first;
        for _turn in 0..fuel {
            match tokens.peek() {
                TokenKind::Dot => {
                    tokens.bump();
                    left = self.member(tokens, left.expr)?;
                }
                TokenKind::LeftBracket => {
                    let place = tokens.place();
                    tokens.bump();
                    left = self.index(tokens, place, left.expr)?;
                }
                _ => return Ok(left),
            }
        }
        Err(ParseStop::OutOfFuel)
    }

    #[tactic(auto, unfolding(crate::specs::Mirrors::Exprs::group))]
    fn group(&self, tokens: &mut Tokens<'_>) -> Result<PostfixExpr, ParseStop>
        requires { Nests self.now.fuel (F.pre self.now.expr) (F.post self.now.expr) }
        ensures { ParsesAs operand_of (spec.group self.now.fuel (spec.expr self.now.fuel) tokens.old) result tokens.new }
    {
        let expr = self.expr(tokens, 1)?;
        tokens.expect(TokenKind::RightParen)?;
        self.postfix(
            tokens,
            self.fuel,
            PostfixExpr {
                expr,
                kind: PostfixKind::Other,
            },
        )
    }

    /// A Postfix: a primary expression with its postfix parts.
    #[tactic(auto, unfolding(crate::specs::Mirrors::Exprs::operand))]
    pub fn operand(&self, tokens: &mut Tokens<'_>) -> Result<PostfixExpr, ParseStop>
        requires { Nests self.now.fuel (F.pre self.now.expr) (F.post self.now.expr) }
        ensures { ParsesAs operand_of (spec.operand self.now.fuel (spec.expr self.now.fuel) tokens.old) result tokens.new }
    {
        let place = tokens.place();
        let expr = match tokens.peek() {
            TokenKind::Int(n) => {
                tokens.bump();
                Expr::Int(place, *n)
            }
            TokenKind::LongInt(n) => {
                tokens.bump();
                Expr::Long(place, *n)
            }
            TokenKind::KeywordTrue => {
                tokens.bump();
                Expr::Bool(place, true)
            }
            TokenKind::KeywordFalse => {
                tokens.bump();
                Expr::Bool(place, false)
            }
            TokenKind::KeywordNull => {
                tokens.bump();
                Expr::Null(place)
            }
            TokenKind::KeywordThis => {
                tokens.bump();
                Expr::This(place)
            }
            TokenKind::Name(name) => {
                let name = name.copy(self.alloc)?;
                tokens.bump();
                let first = self.name_or_call(tokens, place, name)?;
                return self.postfix(tokens, self.fuel, first);
            }
            TokenKind::LeftParen => {
                tokens.bump();
                return self.group(tokens);
            }
            TokenKind::LeftBracket => {
                tokens.bump();
                self.bracket(tokens, place)?
            }
            TokenKind::KeywordTi => {
                tokens.bump();
                process(tokens, place)?
            }
            _ => return Err(ParseStop::Refused),
        };
        self.postfix(
            tokens,
            self.fuel,
            PostfixExpr {
                expr,
                kind: PostfixKind::Other,
            },
        )
    }

    // ---- operators

    #[tactic(auto, unfolding(crate::specs::Mirrors::Exprs::operation))]
    fn operation(
        &self,
        tokens: &mut Tokens<'_>,
        left: Expr,
        op: BinaryOperator,
    ) -> Result<Expr, ParseStop>
        requires { Nests self.now.fuel (F.pre self.now.expr) (F.post self.now.expr) }
        ensures { ParsesAs exp_of (spec.operation self.now.fuel (spec.expr self.now.fuel) (exp_of left) op tokens.old) result tokens.new }
    {
        let left = Box::new(self.alloc, left)?;
        let place = tokens.place();
        tokens.bump();
        let right = Box::new(self.alloc, self.expr(tokens, precedence(op) + 1)?)?;
        Ok(Expr::Binary {
            place,
            operator: op,
            left,
            right,
        })
    }

    #[tactic(auto, unfolding(crate::specs::Mirrors::Exprs::climb))]
    fn climb(&self, tokens: &mut Tokens<'_>, least: u8, first: Expr) -> Result<Expr, ParseStop>
        requires { Nests self.now.fuel (F.pre self.now.expr) (F.post self.now.expr) }
        ensures { ParsesAs exp_of (spec.climb self.now.fuel (spec.expr self.now.fuel) least self.now.fuel (exp_of first) tokens.old)
            result tokens.new }
    {
        let mut left = first;
        for _turn in 0..self.fuel {
            let Some(op) = infix_of(tokens.peek()) else {
                return Ok(left);
            };
            if precedence(op) < least {
                return Ok(left);
            }
            left = self.operation(tokens, left, op)?;
        }
        Err(ParseStop::OutOfFuel)
    }

    #[tactic(auto, unfolding(crate::specs::Mirrors::Exprs::cast))]
    fn cast(&self, tokens: &mut Tokens<'_>, place: Place, ty: TypeName) -> Result<Expr, ParseStop>
        requires { Nests self.now.fuel (F.pre self.now.expr) (F.post self.now.expr) }
        ensures { ParsesAs exp_of (spec.cast self.now.fuel (spec.expr self.now.fuel) place (type_tree_of ty) tokens.old) result tokens.new }
    {
        tokens.expect(TokenKind::RightParen)?;
        let to = Box::new(self.alloc, ty)?;
        let operand = Box::new(self.alloc, self.expr(tokens, 11)?)?;
        Ok(Expr::Cast { place, to, operand })
    }

    #[tactic(auto, unfolding(crate::specs::Mirrors::Exprs::cast_from))]
    fn cast_from(
        &self,
        tokens: &mut Tokens<'_>,
        place: Place,
        base: Base,
    ) -> Result<Expr, ParseStop>
        requires { Nests self.now.fuel (F.pre self.now.expr) (F.post self.now.expr) }
        ensures { ParsesAs exp_of (spec.cast_from self.now.fuel (spec.expr self.now.fuel) place base tokens.old) result tokens.new }
    {
        let ty = types::field_type(self.alloc, tokens, self.fuel, base)?;
        self.cast(tokens, place, ty)
    }

    #[tactic(auto, unfolding(crate::specs::Mirrors::Exprs::cast_from_grid))]
    fn cast_from_grid(
        &self,
        tokens: &mut Tokens<'_>,
        place: Place,
        base: Base,
    ) -> Result<Expr, ParseStop>
        requires { Nests self.now.fuel (F.pre self.now.expr) (F.post self.now.expr) }
        ensures { ParsesAs exp_of (spec.cast_from_grid self.now.fuel (spec.expr self.now.fuel) place base tokens.old) result tokens.new }
    {
        let mut grids = Vec::new(self.alloc);
        grids.push(types::grid(self.alloc, tokens, self.fuel)?)?;
        let grids = types::grids(self.alloc, tokens, self.fuel, 2, grids)?;
        let ty = TypeName {
            base,
            qualifiers: Vec::new(self.alloc),
            grids,
        };
        self.cast(tokens, place, ty)
    }

    #[tactic(auto, unfolding(crate::specs::Mirrors::Exprs::group_from))]
    fn group_from(&self, tokens: &mut Tokens<'_>, first: PostfixExpr) -> Result<Expr, ParseStop>
        requires { Nests self.now.fuel (F.pre self.now.expr) (F.post self.now.expr) }
        ensures { ParsesAs exp_of (spec.group_from self.now.fuel (spec.expr self.now.fuel) (operand_of first) tokens.old) result
            tokens.new }
    {
        let left = self.postfix(tokens, self.fuel, first)?;
        let expr = self.climb(tokens, 1, left.expr)?;
        tokens.expect(TokenKind::RightParen)?;
        let inner = PostfixExpr {
            expr,
            kind: PostfixKind::Other,
        };
        Ok(self.postfix(tokens, self.fuel, inner)?.expr)
    }

    #[tactic(auto, unfolding(crate::specs::Mirrors::Exprs::paren_name))]
    fn paren_name(
        &self,
        tokens: &mut Tokens<'_>,
        place: Place,
        name_place: Place,
        name: Spelled,
    ) -> Result<Expr, ParseStop>
        requires { Nests self.now.fuel (F.pre self.now.expr) (F.post self.now.expr) }
        ensures { ParsesAs exp_of (spec.paren_name self.now.fuel (spec.expr self.now.fuel) place name_place name tokens.old) result
            tokens.new }
    {
        if tokens.next_is(TokenKind::LeftBracket) {
            return self.paren_name_bracket(tokens, place, name_place, name);
        }
        if qualifier_of(tokens.peek()).is_some() {
            return self.cast_from(tokens, place, Base::Named(name_place, name));
        }
        let first = self.name_or_call(tokens, name_place, name)?;
        self.group_from(tokens, first)
    }

    #[tactic(auto, unfolding(crate::specs::Mirrors::Exprs::paren_name_bracket))]
    fn paren_name_bracket(
        &self,
        tokens: &mut Tokens<'_>,
        place: Place,
        name_place: Place,
        name: Spelled,
    ) -> Result<Expr, ParseStop>
        requires { Nests self.now.fuel (F.pre self.now.expr) (F.post self.now.expr) }
        ensures { ParsesAs exp_of (spec.paren_name_bracket self.now.fuel (spec.expr self.now.fuel) place name_place name tokens.old) result
            tokens.new }
    {
        let bracket_place = tokens.place();
        tokens.bump();
        match tokens.peek() {
            TokenKind::Dim(_) => self.cast_from_grid(tokens, place, Base::Named(name_place, name)),
            _ => {
                let first = self.index(tokens, bracket_place, Expr::Name(name_place, name))?;
                self.group_from(tokens, first)
            }
        }
    }

    #[tactic(auto, unfolding(crate::specs::Mirrors::Exprs::paren))]
    fn paren(&self, tokens: &mut Tokens<'_>, place: Place) -> Result<Expr, ParseStop>
        requires { Nests self.now.fuel (F.pre self.now.expr) (F.post self.now.expr) }
        ensures { ParsesAs exp_of (spec.paren self.now.fuel (spec.expr self.now.fuel) place tokens.old) result tokens.new }
    {
        match tokens.peek() {
            TokenKind::Name(name) => {
                let name_place = tokens.place();
                let name = name.copy(self.alloc)?;
                tokens.bump();
                self.paren_name(tokens, place, name_place, name)
            }
            TokenKind::KeywordInt
            | TokenKind::KeywordLong
            | TokenKind::KeywordBoolean
            | TokenKind::KeywordPoint
            | TokenKind::KeywordRectDomain => {
                let base = types::base(self.alloc, tokens)?;
                self.cast_from(tokens, place, base)
            }
            _ => Ok(self.group(tokens)?.expr),
        }
    }

    #[tactic(auto, unfolding(crate::specs::Mirrors::Exprs::unary))]
    fn unary(&self, tokens: &mut Tokens<'_>, op: UnaryOperator) -> Result<Expr, ParseStop>
        requires { Nests self.now.fuel (F.pre self.now.expr) (F.post self.now.expr) }
        ensures { ParsesAs exp_of (spec.unary self.now.fuel (spec.expr self.now.fuel) op tokens.old) result tokens.new }
    {
        let place = tokens.place();
        tokens.bump();
        let operand = Box::new(self.alloc, self.expr(tokens, 11)?)?;
        Ok(Expr::Unary {
            place,
            operator: op,
            operand,
        })
    }

    #[tactic(auto, unfolding(crate::specs::Mirrors::Exprs::prefix))]
    fn prefix(&self, tokens: &mut Tokens<'_>) -> Result<Expr, ParseStop>
        requires { Nests self.now.fuel (F.pre self.now.expr) (F.post self.now.expr) }
        ensures { ParsesAs exp_of (spec.prefix self.now.fuel (spec.expr self.now.fuel) tokens.old) result tokens.new }
    {
        if tokens.next_is(TokenKind::LeftParen) {
            let place = tokens.place();
            tokens.bump();
            return self.paren(tokens, place);
        }
        match prefix_of(tokens.peek()) {
            Some(op) => self.unary(tokens, op),
            None => Ok(self.operand(tokens)?.expr),
        }
    }

    #[tactic(auto, unfolding(crate::specs::Mirrors::Exprs::level))]
    fn level(&self, tokens: &mut Tokens<'_>, least: u8) -> Result<Expr, ParseStop>
        requires { Nests self.now.fuel (F.pre self.now.expr) (F.post self.now.expr) }
        ensures { ParsesAs exp_of (spec.level self.now.fuel (spec.expr self.now.fuel) least tokens.old) result tokens.new }
    {
        let first = self.prefix(tokens)?;
        self.climb(tokens, least, first)
    }
}

/// The rest of `Ti.thisProc()` or `Ti.numProcs()`, after `Ti`.
#[tactic(auto, unfolding(crate::specs::Mirrors::Exprs::process))]
fn process(tokens: &mut Tokens<'_>, place: Place) -> Result<Expr, ParseStop>
    ensures { ParsesAs exp_of (spec.process place tokens.old) result tokens.new }
{
    tokens.expect(TokenKind::Dot)?;
    let is_this = process_name(tokens)?;
    tokens.expect(TokenKind::LeftParen)?;
    tokens.expect(TokenKind::RightParen)?;
    if is_this {
        Ok(Expr::ThisProc(place))
    } else {
        Ok(Expr::NumProcs(place))
    }
}

/// Reads `thisProc` (true) or `numProcs` (false).
#[tactic(auto, unfolding(crate::specs::Mirrors::Exprs::process_name))]
fn process_name(tokens: &mut Tokens<'_>) -> Result<bool, ParseStop>
    ensures { Parses (spec.process_name tokens.old) result tokens.new }
{
    if tokens.next_is_name(b"thisProc") {
        tokens.bump();
        return Ok(true);
    }
    if tokens.next_is_name(b"numProcs") {
        tokens.bump();
        return Ok(false);
    }
    Err(ParseStop::Refused)
}

/// An expression whose operators have at least precedence level `least`.
#[tactic(auto, unfolding(crate::specs::Mirrors::Exprs::expr))]
pub fn expr(
    alloc: Global,
    tokens: &mut Tokens<'_>,
    fuel: usize,
    least: u8,
) -> Result<Expr, ParseStop>
    ensures { ParsesAs exp_of (spec.expr fuel least tokens.old) result tokens.new }
{
    if fuel == 0 {
        return Err(ParseStop::OutOfFuel);
    }
    Grammar {
        alloc,
        fuel: fuel - 1,
        expr,
    }
    .level(tokens, least)
}

/// A Postfix, with its ending.
pub fn operand(
    alloc: Global,
    tokens: &mut Tokens<'_>,
    fuel: usize,
) -> Result<PostfixExpr, ParseStop>
    ensures { ParsesAs operand_of (spec.operand fuel (spec.expr fuel) tokens.old) result tokens.new }
{
    Grammar { alloc, fuel, expr }.operand(tokens)
}

/// A Postfix, after its first name.
#[tactic(auto, unfolding(crate::specs::Mirrors::Exprs::behind_name))]
pub fn behind_name(
    alloc: Global,
    tokens: &mut Tokens<'_>,
    fuel: usize,
    place: Place,
    name: Spelled,
) -> Result<PostfixExpr, ParseStop>
    ensures { ParsesAs operand_of (spec.behind_name fuel place name tokens.old) result tokens.new }
{
    let grammar = Grammar { alloc, fuel, expr };
    let first = grammar.name_or_call(tokens, place, name)?;
    grammar.postfix(tokens, fuel, first)
}

/// A Postfix, after its first name and `[`. `fuel` is the fuel for the postfix parts after the index.
#[tactic(auto, unfolding(crate::specs::Mirrors::Exprs::behind_bracket))]
pub fn behind_bracket(
    alloc: Global,
    tokens: &mut Tokens<'_>,
    fuel: usize,
    bracket: Place,
    place: Place,
    name: Spelled,
) -> Result<PostfixExpr, ParseStop>
    requires { fuel + 1 < 2 ^ 64 }
    ensures { ParsesAs operand_of (spec.behind_bracket fuel bracket place name tokens.old) result tokens.new }
{
    let grammar = Grammar {
        alloc,
        fuel: fuel + 1,
        expr,
    };
    let first = grammar.index(tokens, bracket, Expr::Name(place, name))?;
    grammar.postfix(tokens, fuel, first)
}
