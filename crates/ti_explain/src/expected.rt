// The tokens that could stand in the place of one that doesn't fit the grammar: each is put there, and the parser is asked.
ghost use Rattle.std.specs.Prelude.{◌≡◌, ◌≤◌, ◌++◌, ◌∷◌, [], if◌then◌else◌, length, map, take, Some, IfOk};
ghost use Rattle.ti_syntax.specs.declared.token.TokenKind.TheVariants.{End};
ghost use Rattle.ti_parse_expr.specs.Answers.{EndsAtEnd};
ghost use Rattle.ti_syntax.specs.Spelling.{Unexpected, IsGrammarRefusal};
ghost use Rattle.ti_explain.specs.Expected.{expected_reason, end_reason, AreExpected, AreUnexpectedReasons};
ghost use Rattle.ti_explain.specs.Mirrors.Trials.{zero_place, IsOnly, IsKindOf, IsFront, moves_on, BeginsIf, Tries, TriesEnd, AreTokens, IsFirstAt};

use crate::reason::{ReasonKind, RefusalReason};
use std::alloc::Global;
use ti_base::{Memory, Place};
use ti_lex::{LexErr, lex, one_reading, tokens_in_order};
use ti_parse::{ParseErr, parse};
use ti_rules::{Refusal, Rule};
use ti_syntax::{Spelled, Token, TokenKind};

// The texts that are tried.
const TOKEN_TEXTS: [&str; 92] = [
    "boolean",
    "break",
    "broadcast",
    "class",
    "continue",
    "Domain",
    "else",
    "false",
    "final",
    "for",
    "foreach",
    "if",
    "int",
    "local",
    "long",
    "new",
    "null",
    "Point",
    "println",
    "private",
    "protected",
    "public",
    "RectDomain",
    "return",
    "SharedRegion",
    "single",
    "static",
    "String",
    "System",
    "this",
    "Ti",
    "true",
    "void",
    "while",
    "+",
    "-",
    "*",
    "/",
    "%",
    "<<",
    ">>",
    ">>>",
    "<",
    "<=",
    ">",
    ">=",
    "==",
    "!=",
    "&",
    "|",
    "^",
    "~",
    "!",
    "&&",
    "||",
    "=",
    "+=",
    "-=",
    "*=",
    "/=",
    "%=",
    "&=",
    "|=",
    "^=",
    "<<=",
    ">>=",
    ">>>=",
    "++",
    "--",
    "(",
    ")",
    "[",
    "]",
    "{",
    "}",
    ";",
    ",",
    ".",
    ":",
    "barrier",
    "from",
    "in",
    "numProcs",
    "out",
    "thisProc",
    "name",
    "1d",
    "2d",
    "3d",
    "0",
    "0L",
    "\"\"",
];

// No token of a text is here.
fn zero_place() -> Place
    ensures { result ≡ zero_place }
{
    Place { line: 0, col: 0 }
}

// ---- one text

// The kind of the first of two tokens; None if there is another number of them.
fn only_kind(tokens: Vec<Token>) -> Option<TokenKind>
    ensures { IsOnly tokens.items result }
{
    if tokens.len() != 2 {
        return None;
    }
    let mut tokens = tokens;
    let token = tokens.swap_remove(0);
    Some(token.kind)
}

// The kind of the token that this text is; None if it isn't one token.
fn kind_of(alloc: Global, text: &[u8]) -> Result<Option<TokenKind>, Memory>
    ensures { IfOk result (λ o. IsKindOf text.now o) }
{
    one_reading();
    match lex(alloc, text) {
        Ok(tokens) => Ok(only_kind(tokens)),
        Err(LexErr::Refused(_)) => Ok(None),
        Err(LexErr::Memory) => Err(Memory),
    }
}

// The tokens before this index, then a token of this kind, then the end of the source, which is nowhere.
fn trial(
    tokens: Vec<Token>,
    index: usize,
    kind: TokenKind,
    place: Place,
) -> Result<Vec<Token>, Memory>
    ensures { IfOk result (λ v. v.items ≡ take index tokens.items ++ (record { kind = kind; place = place }
        ∷ record { kind = End; place = zero_place } ∷ [])) }
{
    let mut found = tokens;
    found.truncate(index);
    found.push(Token { kind, place })?;
    found.push(Token {
        kind: TokenKind::End,
        place: zero_place(),
    })?;
    Ok(found)
}

// Whether the parser refuses a trial at its end or for its depth.
fn moves_on(refusal: Refusal) -> bool
    ensures { result ≡ moves_on refusal.rule refusal.place }
{
    match refusal.rule {
        Rule::G1 => refusal.place == zero_place(),
        _ => true,
    }
}

// Whether the tokens of a trial but for the end begin some program.
fn begins_text(alloc: Global, tokens: &[Token]) -> Result<bool, Memory>
    requires { EndsAtEnd tokens.now }
    ensures { IfOk result (λ b. BeginsIf tokens.now b) }
{
    match parse(alloc, tokens) {
        Ok(_) => Ok(true),
        Err(ParseErr::Refused(refusal)) => Ok(moves_on(refusal)),
        Err(ParseErr::Memory) => Err(Memory),
    }
}

// ---- all texts

// The tokens of a list of trials, which all begin alike, and the reasons that were found.
#[derive(Drop)]
struct Trials {
    tokens: Vec<Token>,
    reasons: Vec<RefusalReason>,
}

// Adds the reason for this text if its token can follow the tokens before the index.
fn try_text(
    alloc: Global,
    trials: Trials,
    index: usize,
    place: Place,
    text: &str,
) -> Result<Trials, Memory>
    requires within { index ≤ length trials.tokens.items }
    requires front { IsFront (take index trials.tokens.items) }
    requires place { place ≡ zero_place → ⊥ }
    ensures within { IfOk result (λ t. index ≤ length t.tokens.items) }
    ensures front { IfOk result (λ t. take index t.tokens.items ≡ take index trials.tokens.items) }
    ensures tried { IfOk result (λ t. Tries (take index trials.tokens.items) place text.now trials.reasons.items t.reasons.items) }
{
    one_reading();
    let Trials { tokens, reasons } = trials;
    match kind_of(alloc, text.as_bytes())? {
        Some(kind) => {
            let tokens = trial(tokens, index, kind, place)?;
            let begins = begins_text(alloc, &tokens)?;
            let reasons = add_if(alloc, begins, reasons, place, text)?;
            Ok(Trials { tokens, reasons })
        }
        None => Ok(Trials { tokens, reasons }),
    }
}

// Adds the reason for this text if the test holds.
fn add_if(
    alloc: Global,
    test: bool,
    reasons: Vec<RefusalReason>,
    place: Place,
    text: &str,
) -> Result<Vec<RefusalReason>, Memory>
    ensures { IfOk result (λ v. v.items ≡ (if test then reasons.items ++ expected_reason place text.now ∷ [] else reasons.items)) }
{
    let mut found = reasons;
    if test {
        let text = Spelled::new(text.as_bytes().to_vec(alloc)?);
        found.push(RefusalReason {
            place,
            kind: ReasonKind::Expected(text),
        })?;
    }
    Ok(found)
}

// The trials of these texts: the reasons for those whose token can follow the tokens before the index.
fn try_all(
    alloc: Global,
    tokens: Vec<Token>,
    index: usize,
    place: Place,
    texts: &[&'static str],
) -> Result<Trials, Memory>
    requires within { index ≤ length tokens.items }
    requires front { IsFront (take index tokens.items) }
    requires place { place ≡ zero_place → ⊥ }
    ensures within { IfOk result (λ t. index ≤ length t.tokens.items) }
    ensures front { IfOk result (λ t. take index t.tokens.items ≡ take index tokens.items) }
    ensures tried { IfOk result (λ t. AreExpected (take index tokens.items) place (map (λ text. text.now) texts.now) t.reasons.items) }
{
    let mut trials = Trials {
        tokens,
        reasons: Vec::new(alloc),
    };
    for text in texts {
        trials = try_text(alloc, trials, index, place, text)?;
    }
    Ok(trials)
}

// ---- the end

// Adds the reason for the end of the source if the test holds.
fn add_end_if(
    test: bool,
    reasons: Vec<RefusalReason>,
    place: Place,
) -> Result<Vec<RefusalReason>, Memory>
    ensures { IfOk result (λ v. v.items ≡ (if test then reasons.items ++ end_reason place ∷ [] else reasons.items)) }
{
    let mut found = reasons;
    if test {
        found.push(RefusalReason {
            place,
            kind: ReasonKind::ExpectedEnd,
        })?;
    }
    Ok(found)
}

// The reasons, with that for the end of the source if it can follow the tokens before the index.
fn try_end(
    alloc: Global,
    trials: Trials,
    index: usize,
    place: Place,
) -> Result<Vec<RefusalReason>, Memory>
    requires within { index ≤ length trials.tokens.items }
    requires front { IsFront (take index trials.tokens.items) }
    requires place { place ≡ zero_place → ⊥ }
    ensures { IfOk result (λ v. TriesEnd (take index trials.tokens.items) place trials.reasons.items v.items) }
{
    let Trials { tokens, reasons } = trials;
    let tokens = trial(tokens, index, TokenKind::End, place)?;
    let begins = begins_text(alloc, &tokens)?;
    add_end_if(begins, reasons, place)
}

// ---- the place of a token

/// The index of the first token at this position; None if there is none.
pub fn first_at(tokens: &[Token], place: Place) -> Option<usize>
    ensures { IsFirstAt tokens.now place result }
{
    for i in 0..tokens.len() {
        if tokens[i].place == place {
            return Some(i);
        }
    }
    None
}

/// The texts of tokens that could stand in the place of the first one that no program can have there, and the end of the source if that could,
/// each as a reason at that position.
pub fn expected_tokens(
    alloc: Global,
    tokens: Vec<Token>,
    place: Place,
) -> Result<Vec<RefusalReason>, Memory>
    requires tokens { AreTokens tokens.items }
    requires misfit { IsGrammarRefusal tokens.items (Some (Unexpected, place)) }
    ensures { IfOk result (λ v. AreUnexpectedReasons tokens.items place v.items) }
{
    tokens_in_order();
    let Some(index) = first_at(&tokens, place) else {
        unreachable!()
    };
    let trials = try_all(alloc, tokens, index, place, &TOKEN_TEXTS)?;
    try_end(alloc, trials, index, place)
}
