// Row kind `type`: the static type of an expression that a source prints.

use crate::debug_text::debug_text;
use crate::evaluation::printed_expr;
use crate::known::is_known;
use crate::no_result::{NO_ROW, NoResult};
use crate::phases::{resolve_source, scope_of};
use crate::program_text::ProgramNode;
use std::alloc::Global;
use ti_base::Memory;
use ti_lang::program::{Expr, Method, Program, Scope, Stmt};
use ti_types::type_of;

/// Adds the variables that statements declare to a scope. Declarations inside of compound statements are left out.
fn declare(alloc: Global, scope: &mut Scope, body: &[Stmt]) -> Result<(), Memory> {
    for statement in body {
        if let Stmt::Declare { ty, variable, .. } = statement {
            scope.push(*variable, ty.ty.copy(alloc)?, ty.single)?;
        }
    }
    Ok(())
}

/// The type of an expression in the scope after the declarations of a method's body. `NO_ROW` if `is_known` doesn't cover the expression.
fn type_in_scope(
    alloc: Global,
    program: &Program,
    scope: &mut Scope,
    method: &Method,
    e: &Expr,
) -> Result<String, NoResult> {
    declare(alloc, scope, &method.body)?;
    if !is_known(&program.parts, scope, e) {
        return Err(NO_ROW);
    }
    let ty = type_of(alloc, program, scope, e)?;
    Ok(debug_text(alloc, ProgramNode::Ty(&ty))?)
}

/// The type of the expression that the last statement of a program's only method prints. `NO_ROW` if there is no such expression.
fn printed_type(alloc: Global, program: &Program) -> Result<String, NoResult> {
    let ([method], Some(e)) = (
        program.parts.methods.as_slice(),
        printed_expr(&program.parts),
    ) else {
        return Err(NO_ROW);
    };
    let mut scope = scope_of(alloc, program)?;
    type_in_scope(alloc, program, &mut scope, method, e)
}

/// Row kind `type`: the type of the expression that the last statement of a source's only method prints.
pub(crate) fn type_printed(alloc: Global, text: &[u8]) -> Result<String, NoResult> {
    let program = resolve_source(alloc, text)?;
    printed_type(alloc, &program)
}
