// Help: one line on how an error is fixed, by its first reason or by its rule.
ghost use Rattle.std.specs.Prelude.{◌<◌, length};

use crate::chain_labels::chain_help;
use crate::grammar_help::{byte_help, grammar_help};
use crate::memory::NoMemory;
use crate::name_labels::name_help;
use crate::tokens::{display_text, has_word, line_of, token_at};
use crate::type_labels::type_help;
use std::alloc::{AllocError, Global};
use ti_base::Place;
use ti_explain::{ChainLink, Explanation, PlainCause, ReasonKind, ReasonSpan};
use ti_rules::{Refusal, Rule};

// The help for a plain part.
fn cause_help(rule: Rule, cause: PlainCause) -> &'static str {
    match cause {
        PlainCause::Variable => {
            "declare the variable `single` if what it gets is the same in all processes; \
             a broadcast makes it so"
        }
        PlainCause::ForeachVariable => "let the loop go over a domain that is single",
        PlainCause::ThisProc => "a broadcast from one process gives all of them the same number",
        PlainCause::PlainResult => {
            "declare the method and its result `single`, or broadcast what it gives"
        }
        PlainCause::NewObject | PlainCause::NewGrid | PlainCause::Null | PlainCause::This => {
            "leave `single` out: each process may have a reference of its own"
        }
        PlainCause::SentReference | PlainCause::LocalCast => {
            "leave `single` out of the declaration"
        }
        PlainCause::Member if rule == Rule::S3 => rule_help(rule),
        PlainCause::Field | PlainCause::Element | PlainCause::InnerCall | PlainCause::Member => {
            "broadcast the value from one process into a variable that is declared `single`"
        }
    }
}

/// The help for a rule: one line on how a program is fixed that breaks it. Never empty.
pub fn rule_help(rule: Rule) -> &'static str
    ensures { 0 < length result.now }
{
    match rule {
        Rule::X1 => "remove the byte; there is no `? :` (write an `if`), no `'a'` and no `@`",
        Rule::X2 => "close the comment; comments don't nest, the first `*/` ends one",
        Rule::X3 => "close the string; a line end in a string is `\\n`, a quote is `\\\"`",
        Rule::X4 => "append an `L`, and remove leading zeros; the least `int` is `-2147483647 - 1`",
        Rule::X5 => "shorten the source; a loop can replace repeated statements",
        Rule::G1 => "look at this token and at those before it",
        Rule::G2 => "store parts of the expression in variables, or move statements to a method",
        Rule::N1 => {
            "declare the name before its use, or spell it as it is declared; \
             an instance method needs an object before a dot"
        }
        Rule::N2 => {
            "rename one of the two; methods aren't overloaded, and an inner block can't declare a name again"
        }
        Rule::N3 => "write `public static single void main(String[] args) { .. }` in `class Main`",
        Rule::N4 => "move statements to a method",
        Rule::Y1 =>
            "use operands that the operator or member accepts; a cast makes a `long` an `int`",
        Rule::Y2 => {
            "use a value of the declared type, or declare another type; `(int) x` makes a `long` an `int`"
        }
        Rule::Y3 =>
            "write a comparison, as `x != 0`: a condition is `true` or `false`, and no number",
        Rule::Y4 => "pass one argument for each parameter; methods aren't overloaded",
        Rule::Y5 => {
            "use the same number of dimensions in all parts; an element of an `int [2d] a` is `a[i, j]`"
        }
        Rule::Y6 => {
            "store what the call gives in a variable first; a method with a result ends with `return`"
        }
        Rule::Y7 => "remove the keyword: it isn't allowed there, or is a duplicate",
        Rule::Y8 => "move it into a loop, or leave the method with `return`",
        Rule::Q1 => {
            "cast it by `(T local) e` if it refers to memory of this process, \
             or remove `local` from the declaration"
        }
        Rule::Q2 => "write it through a local reference, or remove `local` from the part",
        Rule::Q3 => "remove `local` from the elements of the grid",
        Rule::S1 => "move the effects out of the `if`, or use a condition that is single",
        Rule::S2 => "declare the variables of the condition `single`",
        Rule::S3 => "use a domain with single bounds; `a.domain()` is plain",
        Rule::S4 => "broadcast the value, or remove `single` from the variable",
        Rule::S5 => "pass a single value, or broadcast it first",
        Rule::S6 => "declare the method `single`: then all processes must call it together",
        Rule::S7 => "return a single value, or remove `single` from the result",
        Rule::S8 => "use a single root; declare the region `single`",
        Rule::S9 => "declare the method `single` too",
        Rule::B1 => "make the condition equal in all processes, for example by a broadcast",
    }
}

// The help for a variable that gets its value from the number of the process.
const OF_THIS_PROC: &str =
    "what comes of `Ti.thisProc()` can't be single: use a value that is the same in all processes, or move what \
     they do together out of here";

// The type of a variable as it is written on the line of its declaration, before the name: what follows the last byte there that no type
// has, which may end a comment.
fn written_type(line: &[u8], place: Place) -> &[u8] {
    let before = line
        .get(..place.col.saturating_sub(1) as usize)
        .unwrap_or(&[]);
    let mut first = 0;
    for (i, byte) in before.iter().enumerate() {
        if matches!(*byte, b'(' | b',' | b';' | b'{' | b'}' | b'/') {
            first = i.saturating_add(1);
        }
    }
    before.get(first..).unwrap_or(&[]).trim_ascii()
}

// Appends how the plain variable that is declared by this reason is made single.
fn push_declaration_help(
    alloc: Global,
    help: &mut String,
    text: &[u8],
    declaration: &ReasonSpan,
) -> Result<(), AllocError> {
    let place = declaration.place;
    let line = line_of(text, place.line);
    let is_sent = has_word(line, "broadcast");
    if has_word(line, "thisProc") && !is_sent {
        return help.push_str(OF_THIS_PROC);
    }
    help.push_str("declare `")?;
    help.push_str(display_text(alloc, written_type(line, place))?.as_str())?;
    help.push_str(" single ")?;
    help.push_str(display_text(alloc, token_at(text, place, declaration.len))?.as_str())?;
    help.push_str(if is_sent {
        "`; what a broadcast gives is the same in all processes"
    } else {
        "`; its value must be the same in all processes, as that of a broadcast is"
    })
}

// The first reason that says how the error is fixed. A plain variable is told of by its declaration.
fn telling_reason(reasons: &[ReasonSpan]) -> Option<&ReasonSpan> {
    for reason in reasons {
        match &reason.kind {
            ReasonKind::Plain(PlainCause::Variable) => {}
            ReasonKind::Plain(_)
            | ReasonKind::PlainDeclaration
            | ReasonKind::Expected(_)
            | ReasonKind::ExpectedEnd
            | ReasonKind::NestBegins
            | ReasonKind::WeightBegins
            | ReasonKind::Name(_)
            | ReasonKind::Link(_) => return Some(reason),
            _ => {}
        }
    }
    None
}

// These words, or if they are empty the help for the rule.
fn unless_empty(words: &'static str, rule: Rule) -> &'static str {
    if words.is_empty() {
        rule_help(rule)
    } else {
        words
    }
}

// The help for a collective that no annotations align, by the first link of its chain.
fn link_help(text: &[u8], first: &ReasonSpan, link: ChainLink) -> &'static str {
    let line = line_of(text, first.place.line);
    if has_word(line, "thisProc") && !has_word(line, "broadcast") {
        return OF_THIS_PROC;
    }
    unless_empty(chain_help(link), Rule::B1)
}

// The help for a collective that no annotations align, by the part before the only link of its chain.
fn part_help(reasons: &[ReasonSpan], cause: PlainCause) -> &'static str {
    if cause == PlainCause::ThisProc {
        return OF_THIS_PROC;
    }
    match reasons.last() {
        Some(reason) => match &reason.kind {
            ReasonKind::Link(link) => unless_empty(chain_help(*link), Rule::B1),
            _ => rule_help(Rule::B1),
        },
        None => rule_help(Rule::B1),
    }
}

// The help for an error whose reasons don't say how it is fixed by themselves: by all of them, by its token, or by its rule.
fn refusal_help(text: &[u8], explanation: &Explanation) -> &'static str {
    let Refusal { rule, place } = explanation.refusal;
    match rule {
        Rule::S6 if !has_word(line_of(text, place.line), "static") => {
            "declare the method `static single`: only static methods can be single"
        }
        Rule::X1 => unless_empty(byte_help(text, explanation), rule),
        _ => unless_empty(type_help(text, explanation), rule),
    }
}

/// A line of help for an explanation: by its reasons, else by its rule. Empty if there is none.
pub fn help_of(alloc: Global, text: &[u8], explanation: &Explanation) -> Result<String, NoMemory> {
    let mut help = String::new(alloc);
    let refusal = explanation.refusal;
    match telling_reason(&explanation.reasons) {
        Some(reason) => match &reason.kind {
            ReasonKind::PlainDeclaration => push_declaration_help(alloc, &mut help, text, reason)?,
            ReasonKind::Plain(cause) if refusal.rule == Rule::B1 => {
                help.push_str(part_help(&explanation.reasons, *cause))?
            }
            ReasonKind::Plain(cause) => help.push_str(cause_help(refusal.rule, *cause))?,
            ReasonKind::Name(reason) => {
                help.push_str(unless_empty(name_help(reason), refusal.rule))?
            }
            ReasonKind::Link(link) => help.push_str(link_help(text, reason, *link))?,
            ReasonKind::NestBegins => help.push_str("move the inner statements to a method")?,
            ReasonKind::WeightBegins => help.push_str("store parts of it in variables")?,
            _ => help.push_str(grammar_help(text, explanation))?,
        },
        None => help.push_str(refusal_help(text, explanation))?,
    }
    Ok(help)
}
