// How much of a token list is parsed: up to the first token that is above the weight limit or can't be in an expression.

ghost use Rattle.std.specs.Prelude.{◌≡◌, ◌≤◌, ◌<◌, ◌+◌, ◌^◌, length};
ghost use Rattle.ti_syntax.specs.Spelling.Weights.{weigh as weigh_spec};
ghost use Rattle.ti_parse_expr.specs.Answers.{EndsAtEnd};
ghost use Rattle.ti_syntax.specs.Spelling.{most_weight};
ghost use Rattle.ti_parse_expr.specs.Mirrors.Reach.{IsCut};
ghost use Rattle.ti_parse_expr.specs.Mirrors.Reach as spec;
ghost use Rattle.ti_parse_expr.specs.Mirrors.Full as full;

use crate::operators::{arity_behind, counts};
use ti_syntax::{Token, TokenKind};

/// The limit on the weight of an expression's tokens.
pub const MOST_WEIGHT: u32 = 256;

/// Whether the token can't be in an expression.
fn ends_expression(kind: &TokenKind) -> bool
    ensures { result ≡ spec.ends_expression kind.now }
{
    matches!(
        kind,
        TokenKind::Semicolon | TokenKind::LeftBrace | TokenKind::RightBrace | TokenKind::End
    )
}

/// The state after a token: the number of arity tokens that follow, and the weight still available; None if the token is above the limit.
fn onward(kind: &TokenKind, arity: u32, left: u32) -> Option<(u32, u32)>
    ensures { result ≡ spec.onward kind.now arity left }
{
    if arity > 0 {
        return Some((arity - 1, left));
    }
    if !counts(kind) {
        return Some((arity_behind(kind), left));
    }
    if left == 0 {
        return None;
    }
    Some((arity_behind(kind), left - 1))
}

/// The length of the prefix that ends with the first token that weighs more than `limit` or can't be in an expression.
#[tactic(auto, unfolding(crate::specs::Mirrors::Reach::reach))]
pub fn reach(list: &[Token], limit: u32) -> usize
    ensures value { result ≡ spec.reach 0 limit list.now }
    ensures within { result ≤ length list.now }
{
    let mut arity = 0;
    let mut left = limit;
    let mut rest = list;
    while let [first, after @ ..] = rest {
        rest = after;
        if ends_expression(&first.kind) {
            return list.len() - rest.len();
        }
        match onward(&first.kind, arity, left) {
            Some(next) => {
                arity = next.0;
                left = next.1;
            }
            None => return list.len() - rest.len(),
        }
    }
    list.len()
}

/// The prefix that ends with the first token that is above the weight limit or can't be in an expression; weights are counted from
/// `weight` on.
pub fn front_of(list: &[Token], weight: u32) -> &[Token]
    requires { weight ≤ most_weight }
    ensures front { result.now ≡ full.front_of weight list.now }
    ensures light { weight + weigh_spec result.now ≤ most_weight + 1 }
{
    &list[..reach(list, MOST_WEIGHT - weight)]
}

/// Like `front_of`, for a list that ends with End, and with a `weight` that may itself be above the limit: then it is the first token.
pub fn cut(list: &[Token], weight: u32) -> &[Token]
    requires { EndsAtEnd list.now }
    ensures { IsCut weight list.now result.now }
{
    if weight > MOST_WEIGHT {
        return &list[..1];
    }
    front_of(list, weight)
}

/// The weight of the last token of the list.
pub fn weigh(list: &[Token]) -> u32
    requires { weigh_spec list.now < 2 ^ 32 }
    ensures { result ≡ weigh_spec list.now }
{
    let mut arity = 0;
    let mut weight = 0;
    let mut rest = list;
    while let [first, after @ ..] = rest {
        if arity > 0 {
            arity -= 1;
        } else {
            if counts(&first.kind) {
                weight += 1;
            }
            arity = arity_behind(&first.kind);
        }
        rest = after;
    }
    weight
}
