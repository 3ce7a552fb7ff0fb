// Tests inference: replaces the `single` annotations of a program (its marks) by inferred ones, and checks the program again.

use crate::phases::{FrontEndError, resolve_source};
use std::alloc::Global;
use ti_base::Memory;
use ti_check::{check, check_types};
use ti_infer::{InferErr, infer, marked, marked_is_numbered, stripped, stripped_once};
use ti_lang::program::Program;

impl From<InferErr> for FrontEndError {
    fn from(_error: InferErr) -> FrontEndError {
        FrontEndError
    }
}

impl From<Memory> for FrontEndError {
    fn from(_error: Memory) -> FrontEndError {
        FrontEndError
    }
}

/// The program of a source with inferred annotations in place of its own. Error: the source is rejected, or out of memory.
/// For the prover: `stripped_once` and `marked_is_numbered` are theorems, which do nothing at run time.
fn infer_program(alloc: Global, text: &[u8]) -> Result<Program, FrontEndError> {
    stripped_once();
    marked_is_numbered();
    let read = resolve_source(alloc, text)?;
    let program = stripped(read);
    check_types(alloc, &program)?;
    let marking = infer(alloc, &program)?;
    let found = marked(alloc, program, &marking)?;
    Ok(found)
}

/// Whether the program of a source, with inferred `single` annotations in place of its own, breaks no rule. False if memory runs out.
pub(crate) fn is_remarked(alloc: Global, text: &[u8]) -> bool {
    match infer_program(alloc, text) {
        Ok(program) => check(alloc, program).is_ok(),
        Err(FrontEndError) => false,
    }
}
