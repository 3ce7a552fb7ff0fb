// What no annotation makes single of a collective: of the conditions around it, so that they may keep processes from reaching it together, or
// of its root or region. `of_conditions` says which of both is sought.
ghost use Rattle.std.specs.Prelude.{◌≡◌, map};
ghost use Rattle.std.specs.Option.{option_or};
ghost use Rattle.ti_syntax.specs.Trees.Views.{maybe_of};
ghost use Rattle.ti_lang.specs.Program.Scope.{contents_of};
ghost use Rattle.ti_lang.specs.Program.Statements.{numbered_stms};
ghost use Rattle.ti_lang.specs.Program.Views.{program_of, expression_of, initial_of, statement_of, numbered_method_of};
ghost use Rattle.ti_rules.specs.StmtInContext.{singles_in};
ghost use Rattle.ti_single.specs.Mirrors.Maybe.{maybe_in};
ghost use Rattle.ti_explain_infer.specs.FixedParts.{bare_scope, collective_part, fixed_part, here, initial_part, is_initial_at, is_variable_cause, whole_part, part_around, part_around_all, part_around_maybe, part_in_method, part_in_methods, within_condition, within_maybe, unless_variable};

use std::alloc::Global;
use ti_base::Place;
use ti_explain::{PlainCause, PlainPart, plain_part};
use ti_lang::program::{Expr, Init, Method, Program, Scope, Stmt};
use ti_single::{deref_expr, deref_init, deref_stmt, deref_stmts, this_of};

// ---- parts of expressions

fn is_variable_cause(cause: PlainCause) -> bool
    ensures { result ≡ is_variable_cause cause }
{
    matches!(cause, PlainCause::Variable | PlainCause::ForeachVariable)
}

// The part if it is no variable, which an annotation may make single.
fn unless_variable(part: Option<PlainPart>) -> Option<PlainPart>
    ensures { result ≡ unless_variable part }
{
    match part {
        Some(part) => {
            if is_variable_cause(part.cause) {
                None
            } else {
                Some(part)
            }
        }
        None => None,
    }
}

// The first plain part that no annotation makes single, in the operands of operators.
#[tactic(auto, using(ti_lang::proofs::Lemmas::program_bridges))]
fn fixed_part(program: &Program, scope: &Scope, expr: &Expr) -> Option<PlainPart>
    ensures { result ≡ fixed_part (program_of program.now.parts) scope.now.this (singles_in (contents_of scope.now))
        (expression_of expr.now) }
{
    match expr {
        Expr::Unary { operand, .. } => fixed_part(program, scope, deref_expr(operand)),
        Expr::Binary { left, right, .. } => {
            let left = fixed_part(program, scope, deref_expr(left));
            left.or(fixed_part(program, scope, deref_expr(right)))
        }
        _ => unless_variable(plain_part(program, scope, expr)),
    }
}

// ---- statements

// The first such part of the region that a call deletes.
#[tactic(auto, using(ti_lang::proofs::Lemmas::program_bridges))]
fn whole_part(program: &Program, scope: &Scope, expr: &Expr) -> Option<PlainPart>
    ensures { result ≡ whole_part (program_of program.now.parts) scope.now.this (singles_in (contents_of scope.now))
        (expression_of expr.now) }
{
    match expr {
        Expr::Member { receiver, .. } => fixed_part(program, scope, deref_expr(receiver)),
        _ => None,
    }
}

// The first such part of the root or the region of a collective that is a right-hand side.
fn initial_part(program: &Program, scope: &Scope, value: &Init) -> Option<PlainPart>
    ensures { result ≡ initial_part (program_of program.now.parts) scope.now.this (singles_in (contents_of scope.now))
        (initial_of value.now) }
{
    match value {
        Init::Value(e) => whole_part(program, scope, e),
        Init::NewRegion(_) => None,
        Init::NewObject { .. } => None,
        Init::NewGrid { .. } => None,
        Init::Broadcast { root, .. } => fixed_part(program, scope, root),
    }
}

// The collective with this part of its own is here, if it is.
fn here(of_conditions: bool, is_here: bool, part: Option<PlainPart>) -> Option<Option<PlainPart>>
    ensures { result ≡ here of_conditions is_here part }
{
    if !is_here {
        return None;
    }
    Some(if of_conditions { None } else { part })
}

// What is found within this condition, whose own part comes first.
fn within_condition(
    program: &Program,
    scope: &Scope,
    of_conditions: bool,
    condition: &Expr,
    found: Option<Option<PlainPart>>,
) -> Option<Option<PlainPart>>
    ensures { result ≡ within_condition (program_of program.now.parts) scope.now.this (singles_in (contents_of scope.now))
        of_conditions (expression_of condition.now) found }
{
    match found {
        Some(part) => {
            if of_conditions {
                Some(fixed_part(program, scope, condition).or(part))
            } else {
                Some(part)
            }
        }
        None => None,
    }
}

// What is found within a condition that may be missing.
fn within_maybe(
    program: &Program,
    scope: &Scope,
    of_conditions: bool,
    condition: &Option<Expr>,
    found: Option<Option<PlainPart>>,
) -> Option<Option<PlainPart>>
    ensures { result ≡ within_maybe (program_of program.now.parts) scope.now.this (singles_in (contents_of scope.now))
        of_conditions (maybe_of expression_of condition.now) found }
{
    match condition {
        Some(condition) => within_condition(program, scope, of_conditions, condition, found),
        None => found,
    }
}

// Whether a right-hand side is a collective at this position.
fn is_initial_at(place: Place, value: &Init) -> bool
    ensures { result ≡ is_initial_at place (initial_of value.now) }
{
    match value {
        Init::Value(e) => place == e.place(),
        Init::NewRegion(at) => place == *at,
        Init::NewObject { .. } => false,
        Init::NewGrid { .. } => false,
        Init::Broadcast { place: at, .. } => place == *at,
    }
}

#[cycle(around)]
fn part_around_all(
    program: &Program,
    scope: &Scope,
    of_conditions: bool,
    place: Place,
    stmts: &[Stmt],
) -> Option<Option<PlainPart>>
    ensures { result ≡ part_around_all (program_of program.now.parts) scope.now.this (singles_in (contents_of scope.now))
        of_conditions place (numbered_stms (map statement_of stmts.now)) }
{
    for x in stmts {
        if let Some(found) = part_around(program, scope, of_conditions, place, x) {
            return Some(found);
        }
    }
    None
}

#[cycle(around)]
fn part_around_maybe(
    program: &Program,
    scope: &Scope,
    of_conditions: bool,
    place: Place,
    stmt: &Option<Box<Stmt>>,
) -> Option<Option<PlainPart>>
    ensures { result ≡ part_around_maybe (program_of program.now.parts) scope.now.this (singles_in (contents_of scope.now))
        of_conditions place (maybe_in stmt.now) }
{
    match stmt {
        Some(x) => part_around(program, scope, of_conditions, place, deref_stmt(x)),
        None => None,
    }
}

// Whether the collective at this position is in a statement, and the first part that no annotation makes single of the conditions around it
// there, or of its root or region.
#[cycle(around)]
#[tactic(auto, using(ti_lang::proofs::Lemmas::program_bridges))]
fn part_around(
    program: &Program,
    scope: &Scope,
    of_conditions: bool,
    place: Place,
    stmt: &Stmt,
) -> Option<Option<PlainPart>>
    ensures { result ≡ part_around (program_of program.now.parts) scope.now.this (singles_in (contents_of scope.now))
        of_conditions place (statement_of stmt.now) }
{
    match stmt {
        Stmt::Declare { value, .. } => {
            let part = initial_part(program, scope, deref_init(value));
            here(of_conditions, is_initial_at(place, deref_init(value)), part)
        }
        Stmt::Assign { value, .. } => {
            let part = initial_part(program, scope, deref_init(value));
            here(of_conditions, is_initial_at(place, deref_init(value)), part)
        }
        Stmt::Update { value, .. } => {
            let part = whole_part(program, scope, value);
            here(of_conditions, place == value.place(), part)
        }
        Stmt::Call(e) => {
            let part = whole_part(program, scope, e);
            here(of_conditions, place == e.place(), part)
        }
        Stmt::Barrier(at) => here(of_conditions, place == *at, None),
        Stmt::Block(body) => part_around_all(
            program,
            scope,
            of_conditions,
            place,
            deref_stmts(body),
        ),
        Stmt::If {
            condition,
            then,
            otherwise,
            ..
        } => {
            let found = part_around(program, scope, of_conditions, place, deref_stmt(then));
            match otherwise {
                Some(otherwise) => {
                    let found = found.or(part_around(
                        program,
                        scope,
                        of_conditions,
                        place,
                        deref_stmt(otherwise),
                    ));
                    within_condition(program, scope, of_conditions, condition, found)
                }
                None => within_condition(program, scope, of_conditions, condition, found),
            }
        }
        Stmt::While {
            condition,
            body,
            ..
        } => {
            let found = part_around(program, scope, of_conditions, place, deref_stmt(body));
            within_condition(program, scope, of_conditions, condition, found)
        }
        Stmt::For {
            first,
            condition,
            update,
            body,
            ..
        } => {
            let first = part_around_maybe(program, scope, of_conditions, place, first);
            let body = part_around(program, scope, of_conditions, place, deref_stmt(body));
            let found = body.or(part_around_maybe(program, scope, of_conditions, place, update));
            first.or(within_maybe(program, scope, of_conditions, condition, found))
        }
        Stmt::Foreach { domain, body, .. } => {
            let found = part_around(program, scope, of_conditions, place, deref_stmt(body));
            within_condition(program, scope, of_conditions, domain, found)
        }
        Stmt::Empty
        | Stmt::Step { .. }
        | Stmt::Print(_, _)
        | Stmt::Break(_)
        | Stmt::Continue(_)
        | Stmt::Return(_, _) => None,
    }
}

// ---- programs

fn part_in_method(
    alloc: Global,
    program: &Program,
    of_conditions: bool,
    place: Place,
    method: &Method,
) -> Option<Option<PlainPart>>
    ensures { result ≡ part_in_method (program_of program.now.parts) of_conditions place (numbered_method_of method.now) }
{
    let scope = Scope {
        this: this_of(method),
        variables: Vec::new(alloc),
        method: 0,
        innermost_loop: None,
    };
    part_around_all(program, &scope, of_conditions, place, &method.body)
}

fn part_in_methods(
    alloc: Global,
    program: &Program,
    of_conditions: bool,
    place: Place,
    methods: &[Method],
) -> Option<Option<PlainPart>>
    ensures { result ≡ part_in_methods (program_of program.now.parts) of_conditions place (map numbered_method_of methods.now) }
{
    for method in methods {
        if let Some(found) = part_in_method(alloc, program, of_conditions, place, method) {
            return Some(found);
        }
    }
    None
}

/// The first part that no annotation makes single of the conditions around the collective at a position, or of its root or region; None if
/// there is none.
pub(crate) fn collective_part(
    alloc: Global,
    program: &Program,
    of_conditions: bool,
    place: Place,
) -> Option<PlainPart>
    ensures { result ≡ collective_part (program_of program.now.parts) of_conditions place }
{
    match part_in_methods(alloc, program, of_conditions, place, &program.parts.methods) {
        Some(part) => part,
        None => None,
    }
}
