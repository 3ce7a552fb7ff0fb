// Runs a process of the tree interpreter without other processes or a store: each action that it requests is printed and answered from
// the row. After the row's last answer every action is answered with `done`.

ghost use Rattle.std.specs.Prelude.{◌≡◌, IfOk, IfSome};
ghost use Rattle.ti_eval.specs.Forms.{IsFormedAnswer};
ghost use Rattle.ti_lang.specs.Program.Views.{program_of};

use crate::no_result::{NO_ROW, NoResult};
use crate::phases::check_source;
use crate::things::answer_of;
use std::alloc::{AllocError, Global};
use ti_base::{Action, Answer, CollKind, Deposit, Memory, Next, Value, fault_name};
use ti_exec::TreeProc;
use ti_rules::Checked;

/// Appends a piece of output.
fn say(text: &mut String, piece: String) -> Result<(), AllocError> {
    text.push_str(piece.as_str())
}

/// A print action, with the number of its string literal and its value, if it has them.
fn shown_print(
    alloc: Global,
    literal: Option<u32>,
    value: Option<Value>,
) -> Result<String, AllocError> {
    match (literal, value) {
        (None, None) => format!(in alloc; "print"),
        (Some(n), None) => format!(in alloc; "print text {n}"),
        (None, Some(v)) => format!(in alloc; "print {v:?}"),
        (Some(n), Some(v)) => format!(in alloc; "print text {n} {v:?}"),
    }
}

/// The name of a kind of collective.
pub(crate) fn collective(kind: CollKind) -> &'static str {
    match kind {
        CollKind::Barrier => "Barrier",
        CollKind::Broadcast => "Broadcast",
        CollKind::Exchange => "Exchange",
        CollKind::MakeRegion => "MakeRegion",
        CollKind::DeleteRegion => "DeleteRegion",
    }
}

/// An arrival at a collective, with the argument of the collective if there is one.
fn shown_collective(alloc: Global, kind: CollKind, arg: Option<u32>) -> Result<String, AllocError> {
    let name = collective(kind);
    match arg {
        Some(n) => format!(in alloc; "arrive {name} {n}"),
        None => format!(in alloc; "arrive {name}"),
    }
}

/// An arrival at a collective, with what the process contributes to it.
fn shown_arrival(
    alloc: Global,
    kind: CollKind,
    arg: Option<u32>,
    deposit: Deposit,
) -> Result<String, AllocError> {
    let arrives = shown_collective(alloc, kind, arg)?;
    match deposit {
        Deposit::Nothing => Ok(arrives),
        Deposit::One(v) => format!(in alloc; "{arrives} {v:?}"),
        Deposit::Count(n) => format!(in alloc; "{arrives} count {n}"),
    }
}

/// An action on a field, an element or a grid. Objects and grids are printed by their sequence numbers, points by their first coordinate.
fn shown_access(alloc: Global, action: Action) -> Result<String, AllocError> {
    match action {
        Action::GetField { obj, field } => {
            let n = obj.serial;
            format!(in alloc; "get {field} of {n}")
        }
        Action::PutField { obj, field, value } => {
            let n = obj.serial;
            format!(in alloc; "put {value:?} in {field} of {n}")
        }
        Action::GetElem { grid, at } => {
            let (n, x) = (grid.serial, at.x1);
            format!(in alloc; "get at {x} of {n}")
        }
        Action::PutElem { grid, at, value } => {
            let (n, x) = (grid.serial, at.x1);
            format!(in alloc; "put {value:?} at {x} of {n}")
        }
        Action::DomainOf { grid } => {
            let n = grid.serial;
            format!(in alloc; "domain of {n}")
        }
        Action::MakeView { grid, .. } => {
            let n = grid.serial;
            format!(in alloc; "view of {n}")
        }
        _ => format!(in alloc; "another action"),
    }
}

/// An action that a process requests.
fn shown_action(alloc: Global, action: Action) -> Result<String, AllocError> {
    match action {
        Action::Print { literal, value } => shown_print(alloc, literal, value),
        Action::Arrive { kind, arg, deposit } => shown_arrival(alloc, kind, arg, deposit),
        Action::Depart => format!(in alloc; "depart"),
        Action::Take { who } => format!(in alloc; "take {who}"),
        Action::NewObj { .. } => format!(in alloc; "make an object"),
        Action::NewGrid { .. } => format!(in alloc; "make a grid"),
        _ => shown_access(alloc, action),
    }
}

/// What a process does next: an action, followed by `; `, or its end or fault with the place.
fn shown_next(alloc: Global, next: Next) -> Result<String, AllocError> {
    match next {
        Next::Act(_, action) => {
            let shown = shown_action(alloc, action)?;
            format!(in alloc; "{shown}; ")
        }
        Next::End(place) => format!(in alloc; "end {place:?}"),
        Next::Fault(kind, place) => {
            let name = fault_name(kind);
            format!(in alloc; "{name} {place:?}")
        }
    }
}

/// The answer with index `n`, from 0; `done` if there are fewer. `None` if its word is malformed.
fn answer_at(answers: &str, n: usize) -> Option<Answer>
    ensures { IfSome result IsFormedAnswer }
{
    match answers.split_ascii_whitespace().nth(n) {
        Some(word) => answer_of(word),
        None => Some(Answer::Done),
    }
}

/// Advances a process to its next action, end or fault, which is returned. An action is answered with `answer`.
fn turn(alloc: Global, c: &Checked, process: &mut TreeProc, answer: Answer) -> Result<Next, Memory>
    requires same { program_of c.now.program.parts ≡ program_of process.old.program }
    requires form { IsFormedAnswer answer }
    ensures { IfOk result (λ _. program_of c.now.program.parts ≡ program_of process.new.program) }
{
    let next = process.advance(alloc, c)?;
    if let Next::Act(_, _) = next {
        process.answer(answer);
    }
    Ok(next)
}

/// Runs process 0 of 2 with 1000 ticks of fuel and appends its actions in order, then its end or fault. Gives up silently after 1000
/// actions. `NO_ROW` if an answer is malformed.
fn say_all(alloc: Global, c: &Checked, answers: &str, shown: &mut String) -> Result<(), NoResult> {
    let mut process = TreeProc::start(alloc, c, 0, 2, 1000)?;
    for n in 0..1000 {
        let Some(answer) = answer_at(answers, n) else {
            return Err(NO_ROW);
        };
        let next = turn(alloc, c, &mut process, answer)?;
        say(shown, shown_next(alloc, next)?)?;
        if !matches!(next, Next::Act(_, _)) {
            return Ok(());
        }
    }
    Ok(())
}

/// The actions of process 0 of 2 of a checked program, and its end or fault.
fn walk_process(alloc: Global, c: &Checked, answers: &str) -> Result<String, NoResult> {
    let mut shown = String::new(alloc);
    say_all(alloc, c, answers, &mut shown)?;
    Ok(shown)
}

/// Row kind `walk`: the actions that process 0 of 2 of a source requests when it is given these answers, and its end or fault.
pub(crate) fn walk(alloc: Global, answers: &str, text: &[u8]) -> Result<Vec<u8>, NoResult> {
    let c = check_source(alloc, text)?;
    Ok(walk_process(alloc, &c, answers)?.into_bytes())
}
