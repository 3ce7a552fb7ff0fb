// The public entry point to the expression parser, and the forms of expressions.

ghost use Rattle.std.specs.Prelude.{[], ◌∷◌, ◌++◌, ◌≡◌, ◌<◌, ◌+◌, ℕ, List, length, drop};
ghost use Rattle.ti_base.specs.declared.place.Place.{Place as PlaceSeen};
ghost use Rattle.ti_rules.specs.declared.rule.Rule.{Rule as RuleSeen};
ghost use Rattle.ti_syntax.specs.declared.token.Token.{Token as TokenSeen};
ghost use Rattle.ti_syntax.specs.Trees.Views.{exp_of};
ghost use Rattle.ti_syntax.specs.Trees.Expressions.{Exp};
ghost use Rattle.ti_parse_expr.specs.declared.parse.Form.{Form as FormSeen};
ghost use Rattle.ti_parse_expr.specs.Answers.{Answers, EndsAtEnd, GivesOnly, IsPhrase, Phrase, IsParseError, RefusesOnly};
ghost use Rattle.ti_parse_expr.specs.Mirrors.Input.{ParsesAs};
ghost use Rattle.ti_parse_expr.specs.Mirrors.Exprs as spec;

use crate::error::ParseErr;
use crate::exprs::{expr, operand};
use crate::parse_stop::ParseStop;
use crate::tokens::Tokens;
use crate::weight::{cut, weigh};
use std::alloc::Global;
use ti_base::Place;
use ti_rules::{Refusal, Rule};
use ti_syntax::tree::Expr;
use ti_syntax::{Token, TokenKind};

/// The nonterminal of the grammar to parse.
#[derive(Clone, Copy)]
pub enum Form {
    /// Any expression.
    Whole,
    /// Operands with `*`, `/` and `%` between them.
    Mul,
    /// A primary expression with its postfix parts.
    Postfix,
}

/// Parses a phrase of this form, with fuel `fuel`.
pub fn phrase(
    alloc: Global,
    tokens: &mut Tokens<'_>,
    fuel: usize,
    form: Form,
) -> Result<Expr, ParseStop>
    ensures { ParsesAs exp_of (spec.phrase fuel form tokens.old) result tokens.new }
{
    match form {
        Form::Whole => expr(alloc, tokens, fuel, 1),
        Form::Mul => expr(alloc, tokens, fuel, 10),
        Form::Postfix => Ok(operand(alloc, tokens, fuel)?.expr),
    }
}

/// The position of the last token.
fn last_place(list: &[Token]) -> Place
    requires { 0 < length list.now }
    ensures { (front : List TokenSeen) (last : TokenSeen) → list.now ≡ front ++ last ∷ [] → result ≡ last.place }
{
    list[list.len() - 1].place
}

fn parse_error(rule: Rule, place: Place) -> ParseErr
    ensures { result ≡ ParseErr.Refused (record { rule = rule; place = place }) }
{
    ParseErr::Refused(Refusal { rule, place })
}

/// The G2 error at the last token of a prefix, which is above the weight limit.
fn too_heavy(front: &[Token]) -> ParseErr
    requires { 0 < length front.now }
    ensures { (before : List TokenSeen) (last : TokenSeen) → front.now ≡ before ++ last ∷ [] → result
        ≡ ParseErr.Refused (record { rule = Rule.G2; place = last.place }) }
{
    parse_error(Rule::G2, last_place(front))
}

/// For the prover: `parse_expr` with only its first postcondition.
fn read_phrase(
    alloc: Global,
    toks: &[Token],
    at: usize,
    form: Form,
    weight: u32,
) -> Result<(Expr, usize, u32), ParseErr>
    requires below { at < length toks.now }
    requires ended { EndsAtEnd toks.now }
    ensures { Answers toks.now at form weight result }
{
    let front = cut(&toks[at..], weight);
    let end = TokenKind::End;
    let mut tokens = Tokens::new(front, &end);
    match phrase(alloc, &mut tokens, front.len() + 1, form) {
        Ok(tree) => {
            let unread = tokens.remaining();
            if unread == 0 {
                return Err(too_heavy(front));
            }
            let size = front.len() - unread;
            let used = weight + weigh(&front[..size]);
            Ok((tree, at + size, used))
        }
        Err(ParseStop::Memory) => Err(ParseErr::Memory),
        Err(ParseStop::Refused) => {
            if tokens.remaining() == 0 {
                return Err(too_heavy(front));
            }
            Err(parse_error(Rule::G1, tokens.place()))
        }
        Err(ParseStop::TooDeep) => unreachable!(),
        Err(ParseStop::OutOfFuel) => unreachable!(),
    }
}

/// Parses the longest run of tokens from index `at` that is a viable prefix of a phrase of this form.
///
/// Returns the tree, the index after the run, and the weight used, where weights are counted from `weight` on. Errors: G2 at the
/// first token of the run that is above the weight limit; else G1 at the token after the run if the run is no phrase; or Memory.
pub fn parse_expr(
    alloc: Global,
    toks: &[Token],
    at: usize,
    form: Form,
    weight: u32,
) -> Result<(Expr, usize, u32), ParseErr>
    requires below { at < length toks.now }
    requires ended { EndsAtEnd toks.now }
    ensures answer { Answers toks.now at form weight result }
    // The result is unique: tokens with a tree get only this tree, tokens with an error only this error, up to Memory.
    ensures only_tree { (tree : Exp) (size used : ℕ) → IsPhrase form weight (drop at toks.now) tree size used
        → GivesOnly result tree (at + size) used }
    ensures only_refusal { (rule : RuleSeen) (place : PlaceSeen) → IsParseError form weight (drop at toks.now) rule place
        → RefusesOnly result rule place }
{
    read_phrase(alloc, toks, at, form, weight)
}

/// Theorem: a token list parses to at most one tree of a form.
pub fn one_tree()
    ensures { (form : FormSeen) (list : List TokenSeen) (a b : Exp) → Phrase form list a → Phrase form list b → a ≡ b }
{}
