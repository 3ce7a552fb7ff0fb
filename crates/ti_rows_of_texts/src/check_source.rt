// Compiles a source up to its checked program, for test cases that examine the program besides running the command.

use std::alloc::Global;
use ti_check::check;
use ti_lang::program::Program;
use ti_lex::lex;
use ti_names::resolve;
use ti_parse::parse;
use ti_row_files::RowErr;
use ti_rules::Checked;
use ti_syntax::tree::Tree;

/// Lexes and parses a source. Any failure is a malformed row.
fn parse_source(alloc: Global, text: &[u8]) -> Result<Tree, RowErr> {
    match lex(alloc, text) {
        Ok(tokens) => parse(alloc, &tokens).map_err(|_| RowErr::Row),
        Err(_) => Err(RowErr::Row),
    }
}

/// Lexes, parses and resolves a source. Any failure is a malformed row.
fn resolve_source(alloc: Global, text: &[u8]) -> Result<Program, RowErr> {
    let tree = parse_source(alloc, text)?;
    resolve(alloc, &tree).map_err(|_| RowErr::Row)
}

/// The checked program of a source. If the source is rejected or memory runs out, the row is malformed.
pub(crate) fn check_source(alloc: Global, text: &[u8]) -> Result<Checked, RowErr> {
    check(alloc, resolve_source(alloc, text)?).map_err(|_| RowErr::Row)
}
