// Labels: what is said at the position of an error, and at that of each reason.
ghost use Rattle.std.specs.Prelude.{◌<◌, length};

use crate::chain_labels::link_label;
use crate::expectation::expectation;
use crate::memory::NoMemory;
use crate::name_labels::{own_label, push_name_reason};
use crate::tokens::{display_text, token_at};
use crate::type_labels::{push_own_types, push_type_reason, type_label};
use std::alloc::{AllocError, Global};
use ti_explain::{Explanation, GlobalEffect, PlainCause, ReasonKind, ReasonSpan};
use ti_rules::Rule;

/// The label of the position where a rule is broken. Never empty.
pub fn primary_label(rule: Rule) -> &'static str
    ensures { 0 < length result.now }
{
    match rule {
        Rule::X1 => "this byte begins no token, or can't stand in a string",
        Rule::X2 => "this comment has no `*/`",
        Rule::X3 => "this string has no closing quote on its line",
        Rule::X4 => "this number is too large, or begins with a 0",
        Rule::X5 => "a source has at most 1048576 bytes",
        Rule::G1 => "no program has this token after those before it",
        Rule::G2 => {
            "above 64 nested statements, or 256 brackets, dots and operators in an expression"
        }
        Rule::N1 => "nothing of this name can be used here",
        Rule::N2 => "this name is declared before",
        Rule::N3 => "this is not the form of `main`",
        Rule::N4 => "at most 200 variables can be in scope",
        Rule::Y1 => "the types of the operands don't fit, or there is no such member",
        Rule::Y2 => "the value isn't of the type that is declared for it",
        Rule::Y3 => "the condition isn't boolean",
        Rule::Y4 => "the numbers of arguments and of parameters differ",
        Rule::Y5 => "the numbers of dimensions differ",
        Rule::Y6 => "a value is missing, or this call can't be part of an expression",
        Rule::Y7 => "this word can't stand here",
        Rule::Y8 => "there is no loop around this",
        Rule::Q1 => "this reference is global, and a local one is wanted",
        Rule::Q2 => "a part of local type is written through a global reference",
        Rule::Q3 => "an exchange into elements of local type",
        Rule::S1 => "all processes must take the same way here",
        Rule::S2 => "all processes must execute this loop equally often",
        Rule::S3 => "all processes must execute this loop for the same points",
        Rule::S4 => "what is stored here must be the same in all processes",
        Rule::S5 => "this argument must be the same in all processes",
        Rule::S6 => "this method must be declared `single`",
        Rule::S7 => "what is returned here must be the same in all processes",
        Rule::S8 => "the root or the region must be the same in all processes",
        Rule::S9 => "only a method that is declared single can have a single result",
        Rule::B1 => "no annotations let all processes reach this collective together",
    }
}

// What is said of a plain part behind the token at its position, by its cause.
fn behind_token(cause: PlainCause) -> &'static str {
    match cause {
        PlainCause::Variable => "` may differ between processes",
        PlainCause::ForeachVariable => {
            "` may differ between processes: the domain of its loop isn't single"
        }
        PlainCause::Field => "` is a field, and may differ between processes",
        PlainCause::Element => "` reads an element of a grid, which may differ between processes",
        PlainCause::ThisProc => ".thisProc()` differs between processes",
        PlainCause::This => "` may be another object in each process",
        PlainCause::Null => "` isn't single: no reference is, apart from variables declared so",
        PlainCause::InnerCall => "` is called inside an expression, where no call is single",
        PlainCause::Member => "` gives what may differ between processes",
        PlainCause::LocalCast => "` begins a cast to a local reference, which isn't single",
        PlainCause::PlainResult => "` has no single result",
        PlainCause::NewObject => "` makes an object of its own in each process",
        PlainCause::NewGrid => "` makes a grid of its own in each process",
        PlainCause::SentReference => {
            "` gives a single value for numbers, booleans, points and rectangular domains alone"
        }
    }
}

// What a plain part is, by its cause; `token` is the token at its position.
fn push_cause(label: &mut String, cause: PlainCause, token: &str) -> Result<(), AllocError> {
    label.push('`')?;
    label.push_str(token)?;
    label.push_str(behind_token(cause))
}

// What the effect of a statement is; `token` is the token at its position.
fn push_effect(label: &mut String, effect: GlobalEffect, token: &str) -> Result<(), AllocError> {
    label.push_str("... because ")?;
    match effect {
        GlobalEffect::Barrier => label.push_str("it contains this barrier"),
        GlobalEffect::Broadcast => label.push_str("it contains this broadcast"),
        GlobalEffect::NewRegion => label.push_str("all processes make this region together"),
        GlobalEffect::Collective => {
            label.push_str("all processes take part in this `")?;
            label.push_str(token)?;
            label.push('`')
        }
        GlobalEffect::SingleCall => {
            label.push_str("it calls `")?;
            label.push_str(token)?;
            label.push_str("`, which is declared `single`")
        }
        GlobalEffect::DeclaresSingle => {
            label.push_str("it declares the single variable `")?;
            label.push_str(token)?;
            label.push('`')
        }
        GlobalEffect::ChangesSingle => label.push_str("it changes a single variable here"),
        GlobalEffect::Return => {
            label.push_str("all processes leave the method together, and here is a `return`")
        }
        GlobalEffect::Jump => {
            label.push_str("all processes go round the loop together, and here is a `")?;
            label.push_str(token)?;
            label.push('`')
        }
    }
}

/// The label of a reason of this kind; `token` is the token at its position. Empty for a link of a chain, whose label also names the link
/// before it (`link_label`).
pub fn reason_label(alloc: Global, kind: &ReasonKind, token: &str) -> Result<String, AllocError> {
    let mut label = String::new(alloc);
    match kind {
        ReasonKind::Plain(cause) => push_cause(&mut label, *cause, token)?,
        ReasonKind::Effect(effect) => push_effect(&mut label, *effect, token)?,
        ReasonKind::Name(reason) => push_name_reason(&mut label, reason, token)?,
        ReasonKind::Typing(reason) => push_type_reason(&mut label, reason, token)?,
        ReasonKind::PlainDeclaration => {
            label.push('`')?;
            label.push_str(token)?;
            label.push_str("` may differ between processes: it is declared without `single`")?;
        }
        ReasonKind::Expected(_) | ReasonKind::ExpectedEnd | ReasonKind::Link(_) => {}
        ReasonKind::NestBegins => label.push_str("the outermost of the nested statements")?,
        ReasonKind::WeightBegins => {
            label.push_str("the first bracket, dot or operator that is counted")?
        }
        ReasonKind::PlainMethod => {
            label.push('`')?;
            label.push_str(token)?;
            label.push_str("` isn't declared single")?;
        }
    }
    Ok(label)
}

// Whether a reason is a global effect, whose label goes on with that of the error.
fn has_effect(reasons: &[ReasonSpan]) -> bool {
    for reason in reasons {
        if let ReasonKind::Effect(_) = &reason.kind {
            return true;
        }
    }
    false
}

// What the reasons say of the position of the error itself; empty if they say nothing of it.
fn first_own_label(reasons: &[ReasonSpan]) -> &'static str {
    for reason in reasons {
        let words = own_label(&reason.kind);
        if !words.is_empty() {
            return words;
        }
    }
    ""
}

/// The label of the position of the error: what is expected there, if the reasons say it, else what is wrong there by the rule and the token.
pub fn error_label(
    alloc: Global,
    text: &[u8],
    explanation: &Explanation,
) -> Result<String, NoMemory> {
    let refusal = explanation.refusal;
    let token = display_text(alloc, token_at(text, refusal.place, explanation.len))?;
    let mut label = expectation(alloc, &explanation.reasons, token.as_str())?;
    if label.is_empty() {
        label.push_str(first_own_label(&explanation.reasons))?;
    }
    if label.is_empty() {
        let last = explanation.reasons.len().saturating_sub(1);
        label = link_label(alloc, text, &explanation.reasons, last)?;
    }
    if label.is_empty() {
        label.push_str(type_label(text, explanation))?;
    }
    if label.is_empty() {
        label.push_str(primary_label(refusal.rule))?;
        if has_effect(&explanation.reasons) {
            label.push_str(", ...")?;
        }
    }
    push_own_types(&mut label, explanation)?;
    Ok(label)
}
