// The words for the links of a chain: why something can't be single, and why no annotations align a collective.

use crate::memory::NoMemory;
use crate::tokens::{display_text, token_at};
use std::alloc::{AllocError, Global};
use ti_explain::{ChainLink, LinkCause, LinkPart, ReasonKind, ReasonSpan};

// What comes before and after the token of a part where it is named.
fn naming(part: LinkPart) -> (&'static str, &'static str) {
    match part {
        LinkPart::Variable | LinkPart::Method | LinkPart::Collective => ("`", "`"),
        LinkPart::Parameter => ("the parameter `", "`"),
        LinkPart::Result => ("the result of `", "`"),
    }
}

// Appends the name of a part whose token this is.
fn push_named(label: &mut String, part: LinkPart, token: &str) -> Result<(), AllocError> {
    let (before, after) = naming(part);
    label.push_str(before)?;
    label.push_str(token)?;
    label.push_str(after)
}

// What is said of a first link, which follows by itself.
fn first_words(link: ChainLink) -> &'static str {
    match (link.cause, link.part) {
        (LinkCause::Value, LinkPart::Method) => "only static methods can be",
        (LinkCause::Value, LinkPart::Result) => {
            "the method returns a value that may differ between processes"
        }
        (LinkCause::Value, LinkPart::Collective) => {
            "must be the same in all processes, but may differ"
        }
        (LinkCause::Value, _) => "it gets a value that may differ between processes",
        (_, LinkPart::Collective) => {
            "whether all processes reach this together depends on a condition that may differ between them"
        }
        (_, LinkPart::Method) => {
            "whether it is called depends on a condition that may differ between processes"
        }
        (_, LinkPart::Result) => { "which `return` gives it may differ between processes" }
        (_, _) => "whether it is set depends on a condition that may differ between processes",
    }
}

// What is said of a later link, before and after the name of the one that it follows from.
fn later_words(link: ChainLink) -> (&'static str, &'static str) {
    match (link.cause, link.part) {
        (LinkCause::Value, LinkPart::Result) => ("what the method returns depends on ", ""),
        (LinkCause::Value, LinkPart::Collective) => (
            "must be the same in all processes, but depends on ",
            "",
        ),
        (LinkCause::Value, _) => ("it gets a value that depends on ", ""),
        (LinkCause::Condition, LinkPart::Collective) => (
            "whether all processes reach this together depends on ",
            "",
        ),
        (LinkCause::Condition, LinkPart::Method) => ("whether it is called depends on ", ""),
        (LinkCause::Condition, LinkPart::Result) => { ("which `return` gives it depends on ", "") }
        (LinkCause::Condition, _) => ("whether it is set depends on ", ""),
        (LinkCause::Method, LinkPart::Method) => ("it is called in ", ", which can't be"),
        (LinkCause::Method, LinkPart::Collective) => { ("this is in ", ", which can't be single") }
        (LinkCause::Method, LinkPart::Variable) => ("it is set in ", ", which can't be"),
        (LinkCause::Method, _) => ("it is one of ", ", which can't be"),
    }
}

// The operand of a collective with this token that has to be the same in all processes.
fn operand_words(token: &[u8]) -> &'static str {
    if token == "broadcast".as_bytes() {
        "its root "
    } else {
        "the region "
    }
}

// The link that a reason is.
fn link_of(reason: &ReasonSpan) -> Option<ChainLink> {
    match &reason.kind {
        ReasonKind::Link(link) => Some(*link),
        _ => None,
    }
}

/// Whether the reasons are a chain: the last one is a link.
pub fn is_chain(reasons: &[ReasonSpan]) -> bool {
    match reasons.last() {
        Some(reason) => link_of(reason).is_some(),
        None => false,
    }
}

// Appends why a link follows from the one before it.
fn push_cause(
    alloc: Global,
    label: &mut String,
    text: &[u8],
    link: ChainLink,
    before: &ReasonSpan,
) -> Result<(), NoMemory> {
    let (start, end) = later_words(link);
    label.push_str(start)?;
    if let Some(premise) = link_of(before) {
        let token = display_text(alloc, token_at(text, before.place, before.len))?;
        push_named(label, premise.part, token.as_str())?;
    }
    label.push_str(end)?;
    Ok(())
}

// The link before this index, if there is one: a part of a condition is none.
fn before_link(reasons: &[ReasonSpan], index: usize) -> Option<&ReasonSpan> {
    match reasons.get(index.checked_sub(1)?) {
        Some(reason) if link_of(reason).is_some() => Some(reason),
        _ => None,
    }
}

// Appends what can't be single, or the operand of a collective that has to be.
fn push_subject(
    alloc: Global,
    label: &mut String,
    text: &[u8],
    link: ChainLink,
    reason: &ReasonSpan,
) -> Result<(), NoMemory> {
    let token = token_at(text, reason.place, reason.len);
    match (link.part, link.cause) {
        (LinkPart::Collective, LinkCause::Value) => label.push_str(operand_words(token))?,
        (LinkPart::Collective, _) => {}
        (part, _) => {
            push_named(label, part, display_text(alloc, token)?.as_str())?;
            label.push_str(" can't be single: ")?;
        }
    }
    Ok(())
}

/// The label of the link at this index of a chain: what can't be single there, and why. Empty if there is no such link.
pub fn link_label(
    alloc: Global,
    text: &[u8],
    reasons: &[ReasonSpan],
    index: usize,
) -> Result<String, NoMemory> {
    let mut label = String::new(alloc);
    let Some(reason) = reasons.get(index) else {
        return Ok(label);
    };
    let Some(link) = link_of(reason) else {
        return Ok(label);
    };
    push_subject(alloc, &mut label, text, link, reason)?;
    match before_link(reasons, index) {
        Some(before) => push_cause(alloc, &mut label, text, link, before)?,
        None => label.push_str(first_words(link))?,
    }
    Ok(label)
}

/// The help for a collective that no annotations align, by the first link of its chain; empty where the rule's own is enough.
pub(crate) fn chain_help(link: ChainLink) -> &'static str {
    match (link.cause, link.part) {
        (LinkCause::Value, LinkPart::Method) => {
            "declare the method `static`: only static methods can be single"
        }
        (LinkCause::Value, LinkPart::Collective) => {
            "use a root or region that is the same in all processes"
        }
        (LinkCause::Value, _) => {
            "let one process broadcast the value: what a broadcast gives is the same in all processes"
        }
        (_, _) => "",
    }
}
