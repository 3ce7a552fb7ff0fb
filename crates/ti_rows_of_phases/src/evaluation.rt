// Evaluates an expression, given the answers to the actions that it has requested so far. It is evaluated in process 1 of 3, where
// variable 0 is an int with the value 5 and variable 1 is a one-dimensional grid of ints.

use crate::no_result::{MEMORY, NO_ROW, NoResult};
use crate::phases::resolve_source;
use crate::things::answer_of;
use std::alloc::{AllocError, Global};
use ti_base::{Action, Id, Place, Value, fault_name};
use ti_eval::{CanonicalAnswer, Env, Interrupt, Rank, Slot, StmtFrame, VarValue, evaluate};
use ti_lang::program::{Declared, Expr, Method, Printed, ProgramData, Stmt, Ty, Variable};

/// The grid that variable 1 holds.
const GRID: Id = Id {
    maker: 0,
    serial: 0,
    owner: 0,
    region: 0,
};

/// The expression that the last statement of the last method prints. `None` if that statement isn't a print of only a value.
pub(crate) fn printed_expr(parts: &ProgramData) -> Option<&Expr> {
    match parts.methods.last()?.body.last()? {
        Stmt::Print(_, Printed::Value(e)) => Some(e),
        _ => None,
    }
}

/// A variable that isn't single, with its value.
fn slot(number: u32, ty: Ty, held: VarValue) -> Slot {
    Slot {
        variable: Variable {
            number,
            declared: Declared::Typed { single: false, ty },
        },
        held,
    }
}

/// The type of variable 1: a global one-dimensional grid of ints.
fn grid_type(alloc: Global) -> Result<Ty, AllocError> {
    Ok(Ty::Grid {
        elem: Box::new(alloc, Ty::Int)?,
        dim: 1,
        local: false,
    })
}

/// The variables of the method: 0 holds 5, 1 holds a grid.
fn slots(alloc: Global) -> Result<Vec<Slot>, NoResult> {
    let mut found = Vec::new(alloc);
    found.push(slot(0, Ty::Int, VarValue::plain(Value::Int(5))))?;
    let grid = VarValue::plain(Value::Grid(Some(GRID)));
    found.push(slot(1, grid_type(alloc)?, grid))?;
    Ok(found)
}

/// Reads the answers that a row gives, separated by whitespace. `NO_ROW` if one is malformed.
fn read_answers(alloc: Global, given: &str) -> Result<Vec<CanonicalAnswer>, NoResult> {
    let mut found = Vec::new(alloc);
    for word in given.split_ascii_whitespace() {
        let Some(answer) = answer_of(word) else {
            return Err(NO_ROW);
        };
        found.push(CanonicalAnswer::of(answer))?;
    }
    Ok(found)
}

/// The action that an evaluation requests, and the place that requests it.
fn shown_action(alloc: Global, place: Place, action: Action) -> Result<String, AllocError> {
    match action {
        Action::GetElem { grid: _, at } => {
            format!(in alloc; "{place:?} asks for the element at {at:?}")
        }
        Action::DomainOf { grid: _ } => format!(in alloc; "{place:?} asks for the domain"),
        _ => format!(in alloc; "{place:?} asks for another action"),
    }
}

/// The result of an evaluation: the value and the number of unused answers, the action that is requested, or the fault.
fn result_text(
    alloc: Global,
    came: Result<(VarValue, &[CanonicalAnswer]), Interrupt>,
) -> Result<String, NoResult> {
    match came {
        Ok((h, left)) => {
            let value = h.value();
            let count = left.len();
            Ok(format!(in alloc; "{value:?}, {count} left")?)
        }
        Err(Interrupt::Request(place, action)) => Ok(shown_action(alloc, place, action)?),
        Err(Interrupt::Fault(kind, place)) => {
            let name = fault_name(kind);
            Ok(format!(in alloc; "{name} {place:?}")?)
        }
        Err(Interrupt::Memory) => Err(MEMORY),
    }
}

/// The environment of process 1 of 3 with these variables: no method, no `this`, and no statement that has been entered.
fn env<'a>(program: &'a ProgramData, variables: &'a [Slot]) -> Env<'a> {
    let method: Option<&'a Method> = None;
    let levels: &'a [StmtFrame] = &[];
    let rank = Rank {
        number: 1,
        procs: 3,
    };
    Env {
        rank,
        program,
        method,
        this: None,
        variables,
        levels,
    }
}

/// Evaluates the expression that a program's last statement prints. `NO_ROW` if it prints none.
fn comes(
    alloc: Global,
    program: &ProgramData,
    variables: &[Slot],
    answers: &[CanonicalAnswer],
) -> Result<String, NoResult> {
    match printed_expr(program) {
        Some(e) => result_text(alloc, evaluate(alloc, &env(program, variables), e, answers)),
        None => Err(NO_ROW),
    }
}

/// Evaluates the expression that a program's last statement prints, given the answers that a row spells.
fn evaluate_given(alloc: Global, program: &ProgramData, given: &str) -> Result<String, NoResult> {
    let slots = slots(alloc)?;
    let told = read_answers(alloc, given)?;
    comes(alloc, program, &slots, &told)
}

/// Row kind `value`: evaluates the expression that the last statement of a source prints, given the answers that the row spells.
pub(crate) fn value(alloc: Global, given: &str, text: &[u8]) -> Result<Vec<u8>, NoResult> {
    let program = resolve_source(alloc, text)?;
    Ok(evaluate_given(alloc, &program.parts, given)?.into_bytes())
}
