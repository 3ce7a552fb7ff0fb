// A chain of constraints, as reasons.
ghost use Rattle.std.specs.Prelude.{◌≡◌, ◌++◌, map, IfOk};
ghost use Rattle.ti_lang.specs.Program.Views.{program_of, numbered_param_of, numbered_params_of, numbered_method_of};
ghost use Rattle.ti_explain_infer.specs.ChainReasons.{is_of_collective, part_by, leading_part, chain_reasons};
ghost use Rattle.ti_explain.specs.SingleReasons.{plain_reason};
ghost use Rattle.ti_explain_infer.specs.ChainLinks.{declares_at, method_declares_at, is_among, cause_by, cause_of, variable_part, link_at, step_links, chain_links};

use crate::fixed_parts::collective_part;
use std::alloc::Global;
use ti_base::{Memory, Place};
use ti_blame::{ChainStep, Conclusion, Implication, MarkKind, Reason};
use ti_explain::{ChainLink, LinkCause, LinkPart, PlainPart, ReasonKind, RefusalReason};
use ti_lang::program::{Method, Param, Params, Program};

fn is_among(place: Place, params: &[Param]) -> bool
    ensures { result ≡ is_among place (map numbered_param_of params.now) }
{
    for param in params {
        if place == param.place {
            return true;
        }
    }
    false
}

// Whether one of the parameters is declared at this position.
fn declares_at(place: Place, params: &Params) -> bool
    ensures { result ≡ declares_at place (numbered_params_of params.now) }
{
    match params {
        Params::MainArgs => false,
        Params::Typed(params) => is_among(place, params),
    }
}

// Whether a parameter of one of the methods is declared at this position.
fn method_declares_at(place: Place, methods: &[Method]) -> bool
    ensures { result ≡ method_declares_at place (map numbered_method_of methods.now) }
{
    for method in methods {
        if declares_at(place, &method.params) {
            return true;
        }
    }
    false
}

// What the variable is that is declared at this position: a parameter or a local variable.
fn variable_part(program: &Program, place: Place) -> LinkPart
    ensures { result ≡ variable_part (program_of program.now.parts) place }
{
    if method_declares_at(place, &program.parts.methods) {
        LinkPart::Parameter
    } else {
        LinkPart::Variable
    }
}

fn cause_by(then: Conclusion) -> LinkCause
    ensures { result ≡ cause_by then }
{
    match then {
        Conclusion::One(_) => LinkCause::Value,
        Conclusion::Between(_, _) => LinkCause::Condition,
    }
}

// By which kind of constraint a link follows.
fn cause_of(implication: Implication) -> LinkCause
    ensures { result ≡ cause_of implication }
{
    match implication.from {
        Some(mark) => match mark.kind {
            MarkKind::Method => LinkCause::Method,
            MarkKind::Result | MarkKind::Variable => cause_by(implication.then),
        },
        None => cause_by(implication.then),
    }
}

fn push_at(
    links: Vec<RefusalReason>,
    place: Place,
    part: LinkPart,
    cause: LinkCause,
) -> Result<Vec<RefusalReason>, Memory>
    ensures { IfOk result (λ v. v.items ≡ links.items ++ link_at place part cause) }
{
    let mut links = links;
    let kind = ReasonKind::Link(ChainLink { part, cause });
    links.push(RefusalReason { place, kind })?;
    Ok(links)
}

// Adds the link of a step, if it rules out an annotation or a collective.
fn push_link(
    links: Vec<RefusalReason>,
    program: &Program,
    step: ChainStep,
) -> Result<Vec<RefusalReason>, Memory>
    ensures { IfOk result (λ v. v.items ≡ links.items
        ++ step_links (program_of program.now.parts) step) }
{
    let cause = cause_of(step.implication);
    match step.ruled_out {
        Reason::OfMethod(place) => push_at(links, place, LinkPart::Method, cause),
        Reason::OfResult(place) => push_at(links, place, LinkPart::Result, cause),
        Reason::OfVariable(place) => push_at(links, place, variable_part(program, place), cause),
        Reason::OfCollective(place) => push_at(links, place, LinkPart::Collective, cause),
        Reason::Always => Ok(links),
    }
}

// Adds the links of a chain of constraints of a program, in its order.
fn push_links(
    reasons: Vec<RefusalReason>,
    program: &Program,
    steps: &[ChainStep],
) -> Result<Vec<RefusalReason>, Memory>
    ensures { IfOk result (λ v. v.items ≡ reasons.items
        ++ chain_links (program_of program.now.parts) steps.now) }
{
    let mut links = reasons;
    for step in steps {
        links = push_link(links, program, *step)?;
    }
    Ok(links)
}

// ---- what is before the links

fn is_of_collective(reason: Reason) -> bool
    ensures { result ≡ is_of_collective reason }
{
    matches!(reason, Reason::OfCollective(_))
}

// What no annotation makes single of the collective at a position, for a link by this kind of constraint.
fn part_by(alloc: Global, program: &Program, place: Place, cause: LinkCause) -> Option<PlainPart>
    ensures { result ≡ part_by (program_of program.now.parts) place cause }
{
    match cause {
        LinkCause::Condition => collective_part(alloc, program, true, place),
        LinkCause::Value => collective_part(alloc, program, false, place),
        LinkCause::Method => None,
    }
}

// That of a chain that begins at the collective.
fn leading_part(
    alloc: Global,
    program: &Program,
    place: Place,
    steps: &[ChainStep],
) -> Option<PlainPart>
    ensures { result ≡ leading_part (program_of program.now.parts) place steps.now }
{
    match steps.first() {
        Some(step) => {
            if is_of_collective(step.ruled_out) {
                part_by(alloc, program, place, cause_of(step.implication))
            } else {
                None
            }
        }
        None => None,
    }
}

fn part_reasons(alloc: Global, part: Option<PlainPart>) -> Result<Vec<RefusalReason>, Memory>
    ensures { IfOk result (λ v. v.items ≡ plain_reason part) }
{
    let mut reasons = Vec::new(alloc);
    if let Some(part) = part {
        reasons.push(RefusalReason {
            place: part.place,
            kind: ReasonKind::Plain(part.cause),
        })?;
    }
    Ok(reasons)
}

/// The reasons for a collective that no annotations align, from a chain of constraints that leads to it: the links, and before a single link
/// the part of a condition, or of the root or region, that no annotation makes single. Errors only if it runs out of memory.
pub(crate) fn chain_reasons(
    alloc: Global,
    program: &Program,
    place: Place,
    steps: &[ChainStep],
) -> Result<Vec<RefusalReason>, Memory>
    ensures { IfOk result (λ v. v.items
        ≡ chain_reasons (program_of program.now.parts) place steps.now) }
{
    let reasons = part_reasons(alloc, leading_part(alloc, program, place, steps))?;
    push_links(reasons, program, steps)
}
