// Removes `single` from statements.
ghost use Rattle.std.specs.Prelude.{◌≡◌, map};
ghost use Rattle.ti_lang.specs.Program.Views.{initial_of, statement_of};
ghost use Rattle.ti_infer.specs.Stripped.{plain_init, plain_stm};

use crate::strip::types::strip_type;
use crate::uses::{NoneSingle, set_in_initial, set_in_maybe, set_in_printed, set_uses};
use ti_lang::program::{Init, Stmt};

fn strip_initial(value: &mut Init)
    ensures { initial_of value.new ≡ plain_init (initial_of value.old) }
{
    set_in_initial(&NoneSingle, value);
    if let Init::NewGrid { element, .. } = value {
        strip_type(element);
    }
}

/// Removes `single` from each of these statements.
#[cycle(strip_statement)]
pub fn strip_statements(stmts: &mut Vec<Stmt>)
    ensures { map statement_of stmts.new.items ≡ map plain_stm (map statement_of stmts.old.items) }
{
    for i in 0..stmts.len() {
        strip_statement(&mut stmts[i]);
    }
}

#[cycle(strip_statement)]
fn strip_statement(node: &mut Stmt)
    ensures { statement_of node.new ≡ plain_stm (statement_of node.old) }
{
    match node {
        Stmt::Declare { ty, value, .. } => {
            strip_type(ty);
            strip_initial(value);
        }
        Stmt::Assign { target, value, .. } => {
            set_uses(&NoneSingle, target);
            strip_initial(value);
        }
        Stmt::Update { target, value, .. } => {
            set_uses(&NoneSingle, target);
            set_uses(&NoneSingle, value);
        }
        Stmt::Step { target, .. } => set_uses(&NoneSingle, target),
        Stmt::Call(node) => set_uses(&NoneSingle, node),
        Stmt::Print(_, what) => set_in_printed(&NoneSingle, what),
        Stmt::Return(_, value) => set_in_maybe(&NoneSingle, value),
        Stmt::Block(body) => strip_statements(body),
        Stmt::If {
            condition,
            then,
            otherwise,
            ..
        } => {
            set_uses(&NoneSingle, condition);
            strip_statement(then);
            if let Some(otherwise) = otherwise {
                strip_statement(otherwise);
            }
        }
        Stmt::While {
            condition,
            body,
            ..
        } => {
            set_uses(&NoneSingle, condition);
            strip_statement(body);
        }
        Stmt::For {
            first,
            condition,
            update,
            body,
            ..
        } => {
            if let Some(first) = first {
                strip_statement(first);
            }
            set_in_maybe(&NoneSingle, condition);
            if let Some(update) = update {
                strip_statement(update);
            }
            strip_statement(body);
        }
        Stmt::Foreach { domain, body, .. } => {
            set_uses(&NoneSingle, domain);
            strip_statement(body);
        }
        Stmt::Empty | Stmt::Barrier(_) | Stmt::Break(_) | Stmt::Continue(_) => {}
    }
}
