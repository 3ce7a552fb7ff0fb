// Full expressions: those that aren't part of another one. Their weight is limited: only a prefix of the tokens is parsed, up to the
// first token that is above the limit or can't be in an expression, and the result is then extended to the whole list.

ghost use Rattle.std.specs.Prelude.{ℕ, ◌≡◌, ◌+◌, ◌<◌, ◌≤◌, ◌^◌, true};
ghost use Rattle.ti_syntax.specs.Trees.Views.{exp_of};
ghost use Rattle.ti_syntax.specs.Spelling.{most_weight};
ghost use Rattle.ti_syntax.specs.Spelling.Weights.{weigh as weigh_spec};
ghost use Rattle.ti_parse_expr.specs.Mirrors.Alone.{ends_operand as ends_operand_spec, is_lone_name as name_alone_spec};
ghost use Rattle.ti_parse_expr.specs.Mirrors.ByFront.{ByFront, is_final as is_final_spec};
ghost use Rattle.ti_parse_expr.specs.Mirrors.Full as spec;
ghost use Rattle.ti_parse_expr.specs.Mirrors.Input.{ParsesAs};
ghost use Rattle.ti_parse_expr.specs.Mirrors.Seen.{operand_of};

use crate::exprs;
use crate::parse::{Form, phrase};
use crate::parse_stop::ParseStop;
use crate::postfix_expr::{PostfixExpr, PostfixKind};
use crate::tokens::Tokens;
use crate::weight::{MOST_WEIGHT, front_of, weigh};
use std::alloc::Global;
use ti_base::Place;
use ti_syntax::tree::Expr;
use ti_syntax::{Spelled, Token, TokenKind};

/// Whether the result says nothing about the tokens: out of memory or out of fuel.
fn is_final<T>(answer: &Result<T, ParseStop>) -> bool
    ensures { result ≡ is_final_spec answer.now }
{
    match answer {
        Ok(_) => false,
        Err(ParseStop::Memory | ParseStop::OutOfFuel) => true,
        Err(ParseStop::Refused | ParseStop::TooDeep) => false,
    }
}

/// Whether all of the prefix was consumed and its last token is above the weight limit. `left` is the number of its tokens that are left.
fn exceeds_weight(weight: u32, front: &[Token], left: usize) -> bool
    requires { weight + weigh_spec front.now < 2 ^ 32 }
    ensures { result ≡ spec.exceeds_weight weight front.now left }
{
    left < 1 && MOST_WEIGHT < weight + weigh(front)
}

/// Parses with `read` within the weight limit: TooDeep at the first token above it. Weights are counted from `weight` on.
fn with_weight_limit<T: Drop, F: FnOnce(&mut Tokens<'_>, usize) -> Result<T, ParseStop>>(
    tokens: &mut Tokens<'_>,
    weight: u32,
    read: F,
) -> Result<T, ParseStop>
    requires small { weight ≤ most_weight }
    requires reads { (front : _) (fuel : ℕ) → fuel + 1 < 2 ^ 64 → F.pre read front fuel }
    ensures { ByFront weight (F.post read) tokens.old result tokens.new }
{
    let front = front_of(tokens.as_slice(), weight);
    let mut inner = Tokens::new(front, tokens.end());
    let answer = read(&mut inner, front.len() + 1);
    if is_final(&answer) {
        return answer;
    }
    if exceeds_weight(weight, front, inner.remaining()) {
        tokens.skip(front.len() - 1);
        return Err(ParseStop::TooDeep);
    }
    tokens.skip(front.len().saturating_sub(inner.remaining()));
    answer
}

/// Whether the token is one that can't continue an operand. Only frequent ones are listed.
fn ends_operand(kind: &TokenKind) -> bool
    ensures { result ≡ ends_operand_spec kind.now }
{
    match kind {
        TokenKind::Semicolon | TokenKind::RightParen | TokenKind::RightBracket => true,
        TokenKind::Comma | TokenKind::Assign | TokenKind::PlusAssign | TokenKind::PlusPlus => true,
        _ => false,
    }
}

/// Whether the next token is a name and the whole expression.
fn is_lone_name(tokens: &Tokens<'_>) -> bool
    ensures { result ≡ name_alone_spec tokens.now }
{
    match tokens.as_slice() {
        [first, second, ..] => match &first.kind {
            TokenKind::Name(_) => ends_operand(&second.kind),
            _ => false,
        },
        _ => false,
    }
}

/// A full expression of this form, without the shortcut for a name.
fn full_phrase(alloc: Global, tokens: &mut Tokens<'_>, form: Form) -> Result<Expr, ParseStop>
    ensures { ParsesAs exp_of (spec.full form tokens.old) result tokens.new }
{
    with_weight_limit(tokens, 0, |front, fuel| phrase(alloc, front, fuel, form))
}

/// A full expression that is just a name.
fn name_alone(alloc: Global, tokens: &mut Tokens<'_>, form: Form) -> Result<Expr, ParseStop>
    requires { name_alone_spec tokens.old ≡ true }
    ensures { ParsesAs exp_of (spec.full form tokens.old) result tokens.new }
{
    match tokens.peek() {
        TokenKind::Name(name) => {
            let place = tokens.place();
            let name = name.copy(alloc)?;
            tokens.bump();
            Ok(Expr::Name(place, name))
        }
        _ => full_phrase(alloc, tokens, form),
    }
}

/// A full expression of this form.
pub fn full_expr(alloc: Global, tokens: &mut Tokens<'_>, form: Form) -> Result<Expr, ParseStop>
    ensures { ParsesAs exp_of (spec.full form tokens.old) result tokens.new }
{
    if is_lone_name(tokens) {
        name_alone(alloc, tokens, form)
    } else {
        full_phrase(alloc, tokens, form)
    }
}

/// A full Postfix, with its ending.
pub fn full_operand(alloc: Global, tokens: &mut Tokens<'_>) -> Result<PostfixExpr, ParseStop>
    ensures { ParsesAs operand_of (spec.full_operand tokens.old) result tokens.new }
{
    with_weight_limit(tokens, 0, |front, fuel| exprs::operand(alloc, front, fuel))
}

/// A full Postfix, after its first name.
pub fn full_behind_name(
    alloc: Global,
    tokens: &mut Tokens<'_>,
    place: Place,
    name: Spelled,
) -> Result<PostfixExpr, ParseStop>
    ensures { ParsesAs operand_of (spec.full_behind_name place name tokens.old) result tokens.new }
{
    if ends_operand(tokens.peek()) {
        return Ok(PostfixExpr {
            expr: Expr::Name(place, name),
            kind: PostfixKind::Target,
        });
    }
    behind_name_phrase(alloc, tokens, place, name)
}

/// A full Postfix, after its first name, without the shortcut for a name.
fn behind_name_phrase(
    alloc: Global,
    tokens: &mut Tokens<'_>,
    place: Place,
    name: Spelled,
) -> Result<PostfixExpr, ParseStop>
    ensures { ParsesAs operand_of (spec.full_behind_name place name tokens.old) result tokens.new }
{
    with_weight_limit(tokens, 0, |front, fuel| {
        exprs::behind_name(alloc, front, fuel, place, name)
    })
}

/// A full Postfix, after its first name and `[`, which has weight 1.
pub fn full_behind_bracket(
    alloc: Global,
    tokens: &mut Tokens<'_>,
    bracket: Place,
    place: Place,
    name: Spelled,
) -> Result<PostfixExpr, ParseStop>
    ensures { ParsesAs operand_of (spec.full_behind_bracket bracket place name tokens.old) result tokens.new }
{
    with_weight_limit(tokens, 1, |front, fuel| {
        exprs::behind_bracket(alloc, front, fuel, bracket, place, name)
    })
}
