// The public entry point to the parser.

ghost use Rattle.std.specs.Prelude.{◌≡◌, List, Option, Some};
ghost use Rattle.ti_base.specs.declared.place.Place.{Place as PlaceSeen};
ghost use Rattle.ti_syntax.specs.declared.token.Token.{Token as TokenSeen};
ghost use Rattle.ti_syntax.specs.Trees.Classes.{TextTree};
ghost use Rattle.ti_syntax.specs.Trees.Views.{text_tree_of};
ghost use Rattle.ti_syntax.specs.Spelling.{Spells, IsShallow, Misfit, IsGrammarRefusal};
ghost use Rattle.ti_parse.specs.Answer.{GivesOnly, Parsed, RefusesOnly};
ghost use Rattle.ti_parse.specs.Mirrors.Classes as spec;
ghost use Rattle.ti_parse.specs.Mirrors.ParserParams.{language_params};
ghost use Rattle.ti_parse_expr.specs.Answers.{EndsAtEnd};
ghost use Rattle.ti_parse_expr.specs.Mirrors.Input.{ParsesAs};

use crate::parser::TextParser;
use std::alloc::Global;
use ti_base::Place;
use ti_parse_expr::{ParseErr, ParseStop, Tokens};
use ti_rules::{Refusal, Rule};
use ti_syntax::tree::{Class, Tree};
use ti_syntax::{Token, TokenKind};

/// Parses all classes, and checks that nothing follows End.
#[tactic(auto, unfolding(crate::specs::Mirrors::Classes::text))]
fn read_text(alloc: Global, tokens: &mut Tokens<'_>, fuel: usize) -> Result<Vec<Class>, ParseStop>
    ensures { ParsesAs text_tree_of (spec.text language_params fuel tokens.old) result tokens.new }
{
    let classes = TextParser { alloc, fuel }.classes(tokens)?;
    if tokens.remaining() > 1 {
        tokens.bump();
        return Err(ParseStop::Refused);
    }
    Ok(classes)
}

fn parse_error(rule: Rule, place: Place) -> ParseErr
    ensures { result ≡ ParseErr.Refused (record { rule = rule; place = place }) }
{
    ParseErr::Refused(Refusal { rule, place })
}

/// For the prover: `parse` with only its first postcondition.
fn read_tree(alloc: Global, toks: &[Token]) -> Result<Tree, ParseErr>
    requires { EndsAtEnd toks.now }
    ensures { Parsed toks.now result }
{
    let end = TokenKind::End;
    let mut tokens = Tokens::new(toks, &end);
    match read_text(alloc, &mut tokens, toks.len() + 1) {
        Ok(classes) => Ok(Tree { classes }),
        Err(ParseStop::Memory) => Err(ParseErr::Memory),
        Err(ParseStop::Refused) => Err(parse_error(Rule::G1, tokens.place())),
        Err(ParseStop::TooDeep) => Err(parse_error(Rule::G2, tokens.place())),
        Err(ParseStop::OutOfFuel) => unreachable!(),
    }
}

/// Parses a program's tokens into its tree. The last token must be End.
///
/// Errors: G1 at the first token such that the tokens up to and including it are no viable prefix, or G2 at an earlier token whose
/// nesting level or weight is above its limit; or Memory.
pub fn parse(alloc: Global, toks: &[Token]) -> Result<Tree, ParseErr>
    requires { EndsAtEnd toks.now }
    ensures answer { Parsed toks.now result }
    // The result is unique: tokens with a tree get only this tree, tokens with an error only this error, up to Memory.
    ensures only_tree { (tree : TextTree) → Spells toks.now tree → IsShallow toks.now → GivesOnly result tree }
    ensures only_refusal { (misfit : Misfit) (place : PlaceSeen) → IsGrammarRefusal toks.now (Some (misfit, place))
        → RefusesOnly result misfit place }
{
    read_tree(alloc, toks)
}

/// Theorem: a token list parses to at most one tree, and each list that ends with End has exactly one verdict: no error, or one error
/// at one position.
pub fn one_text()
    ensures one_tree { (list : List TokenSeen) (a b : TextTree) → Spells list a → Spells list b → a ≡ b }
    ensures some { (list : List TokenSeen) → EndsAtEnd list → (a : Option (Misfit × PlaceSeen)) × IsGrammarRefusal list a }
    ensures only { (list : List TokenSeen) (a b : Option (Misfit × PlaceSeen)) → IsGrammarRefusal list a → IsGrammarRefusal list b → a ≡ b }
{}
