// Adds the annotations of a marking to statements.
ghost use Rattle.std.specs.Prelude.{◌≡◌, false, map, get_or, OnOk};
ghost use Rattle.std.specs.List.{list_any};
ghost use Rattle.ti_lang.specs.Program.Views.{type_use_of, statement_of};
ghost use Rattle.ti_single.specs.Mirrors.Maybe.{maybe_in};
ghost use Rattle.ti_blame.specs.Marks.{matches_mark, marks_of};
ghost use Rattle.ti_infer.specs.Marked.{marked_type, marked_stm, marked_maybe};

use crate::constraints::copies::matches_mark;
use crate::constraints::fits::mark_type;
use crate::uses::{Singles, set_in_initial, set_in_maybe, set_in_printed, set_uses};
use ti_base::{Memory, Place};
use ti_blame::{Mark, MarkKind};
use ti_lang::program::{Stmt, TypeUse};

/// Which variables of a method are annotated, by their numbers.
#[derive(Drop)]
pub struct MarkedVariables {
    pub singles: Vec<bool>,
}

impl Singles for MarkedVariables {
    ghost says = { λ s number. get_or s.singles.items number false };

    fn is_single(&self, number: u32) -> bool {
        match self.singles.get(number as usize) {
            Some(single) => *single,
            None => false,
        }
    }
}

// ---- annotations

/// Whether a marking has the annotation of this kind at this place.
pub fn is_marked(marks: &[Mark], kind: MarkKind, place: Place) -> bool
    ensures { result ≡ list_any (matches_mark kind place) marks.now }
{
    let mark = Mark { place, kind };
    marks.iter().any(|other| matches_mark(mark, *other))
}

/// Makes a type single with the qualifier at this place, or clears its flag.
pub fn mark_if(single: bool, place: Place, ty: &mut TypeUse) -> Result<(), Memory>
    ensures { OnOk result (type_use_of ty.new ≡ marked_type single place (type_use_of ty.old)) }
{
    if single {
        return mark_type(place, ty);
    }
    ty.single = false;
    Ok(())
}

// ---- statements

/// Annotates the variables that these statements declare, and makes each use of a variable agree with its declaration. Errors only if it
/// runs out of memory.
#[cycle(mark_statement)]
pub fn mark_statements(
    marks: &[Mark],
    variables: &MarkedVariables,
    stmts: &mut Vec<Stmt>,
) -> Result<(), Memory>
    ensures { OnOk result (map statement_of stmts.new.items ≡ map (marked_stm (λ number. get_or variables.now.singles.items number false)
        (marks_of marks.now).variables) (map statement_of stmts.old.items)) }
{
    for i in 0..stmts.len() {
        mark_statement(marks, variables, &mut stmts[i])?;
    }
    Ok(())
}

#[cycle(mark_statement)]
fn mark_maybe(
    marks: &[Mark],
    variables: &MarkedVariables,
    node: &mut Option<Box<Stmt>>,
) -> Result<(), Memory>
    ensures { OnOk result (maybe_in node.new ≡ marked_maybe (λ number. get_or variables.now.singles.items number false)
        (marks_of marks.now).variables (maybe_in node.old)) }
{
    if let Some(node) = node {
        mark_statement(marks, variables, node)?;
    }
    Ok(())
}

#[cycle(mark_statement)]
fn mark_statement(
    marks: &[Mark],
    variables: &MarkedVariables,
    node: &mut Stmt,
) -> Result<(), Memory>
    ensures { OnOk result (statement_of node.new ≡ marked_stm (λ number. get_or variables.now.singles.items number false)
        (marks_of marks.now).variables (statement_of node.old)) }
{
    match node {
        Stmt::Declare {
            place,
            ty,
            value,
            ..
        } => {
            let place = *place;
            mark_if(is_marked(marks, MarkKind::Variable, place), place, ty)?;
            set_in_initial(variables, value);
        }
        Stmt::Assign { target, value, .. } => {
            set_uses(variables, target);
            set_in_initial(variables, value);
        }
        Stmt::Update { target, value, .. } => {
            set_uses(variables, target);
            set_uses(variables, value);
        }
        Stmt::Step { target, .. } => set_uses(variables, target),
        Stmt::Call(node) => set_uses(variables, node),
        Stmt::Print(_, what) => set_in_printed(variables, what),
        Stmt::Return(_, value) => set_in_maybe(variables, value),
        Stmt::Block(body) => mark_statements(marks, variables, body)?,
        Stmt::If {
            condition,
            then,
            otherwise,
            ..
        } => {
            set_uses(variables, condition);
            mark_statement(marks, variables, then)?;
            mark_maybe(marks, variables, otherwise)?;
        }
        Stmt::While {
            condition,
            body,
            ..
        } => {
            set_uses(variables, condition);
            mark_statement(marks, variables, body)?;
        }
        Stmt::For {
            first,
            condition,
            update,
            body,
            ..
        } => {
            mark_maybe(marks, variables, first)?;
            set_in_maybe(variables, condition);
            mark_maybe(marks, variables, update)?;
            mark_statement(marks, variables, body)?;
        }
        Stmt::Foreach { domain, body, .. } => {
            set_uses(variables, domain);
            mark_statement(marks, variables, body)?;
        }
        Stmt::Empty | Stmt::Barrier(_) | Stmt::Break(_) | Stmt::Continue(_) => {}
    }
    Ok(())
}
