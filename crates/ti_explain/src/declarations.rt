// Where a variable of a method is declared.
ghost use Rattle.std.specs.Prelude.{◌≡◌, map, slice_get};
ghost use Rattle.std.specs.Option.{option_map, option_or};
ghost use Rattle.ti_lang.specs.Program.Classes.{NumberedParam};
ghost use Rattle.ti_lang.specs.Program.Statements.{numbered_stms};
ghost use Rattle.ti_lang.specs.Program.Views.{statement_of, numbered_param_of, numbered_params_of, numbered_method_of};
ghost use Rattle.ti_single.specs.Mirrors.Maybe.{maybe_in};
ghost use Rattle.ti_explain.specs.Declarations.{parameter_place, declared_place_if, declared_in, declared_in_maybe, declared_among, declaration_of};

use ti_base::Place;
use ti_lang::program::{Method, Param, Params, Stmt};
use ti_single::{deref_stmt, deref_stmts};

// The position of the parameter of this number.
fn param_place(params: &[Param], number: usize) -> Option<Place>
    ensures { result ≡ option_map (λ (p : NumberedParam). p.place) (slice_get (map numbered_param_of params.now) number) }
{
    match params.get(number) {
        Some(param) => Some(param.place),
        None => None,
    }
}

fn parameter_place(params: &Params, number: u32) -> Option<Place>
    ensures { result ≡ parameter_place (numbered_params_of params.now) number }
{
    match params {
        Params::MainArgs => None,
        Params::Typed(params) => param_place(params, number as usize),
    }
}

// The position, if the numbers are equal.
fn declared_place_if(number: u32, variable: u32, place: Place) -> Option<Place>
    ensures { result ≡ declared_place_if number variable place }
{
    if variable == number {
        Some(place)
    } else {
        None
    }
}

#[cycle(declared)]
fn declared_among(number: u32, stmts: &[Stmt]) -> Option<Place>
    ensures { result ≡ declared_among number (numbered_stms (map statement_of stmts.now)) }
{
    for x in stmts {
        if let Some(found) = declared_in(number, x) {
            return Some(found);
        }
    }
    None
}

#[cycle(declared)]
fn declared_in_maybe(number: u32, stmt: &Option<Box<Stmt>>) -> Option<Place>
    ensures { result ≡ declared_in_maybe number (maybe_in stmt.now) }
{
    match stmt {
        Some(x) => declared_in(number, deref_stmt(x)),
        None => None,
    }
}

// The position of the declaration of the local variable of this number in a statement; an update of a loop declares none.
#[cycle(declared)]
#[tactic(auto, using(ti_lang::proofs::Lemmas::program_bridges))]
fn declared_in(number: u32, stmt: &Stmt) -> Option<Place>
    ensures { result ≡ declared_in number (statement_of stmt.now) }
{
    match stmt {
        Stmt::Declare {
            place,
            variable,
            ..
        } => declared_place_if(number, *variable, *place),
        Stmt::Block(body) => declared_among(number, deref_stmts(body)),
        Stmt::If {
            then,
            otherwise,
            ..
        } => {
            let then = declared_in(number, deref_stmt(then));
            match otherwise {
                Some(otherwise) => then.or(declared_in(number, deref_stmt(otherwise))),
                None => then,
            }
        }
        Stmt::While { body, .. } => declared_in(number, deref_stmt(body)),
        Stmt::For { first, body, .. } => {
            let first = declared_in_maybe(number, first);
            first.or(declared_in(number, deref_stmt(body)))
        }
        Stmt::Foreach { body, .. } => declared_in(number, deref_stmt(body)),
        Stmt::Empty
        | Stmt::Assign { .. }
        | Stmt::Update { .. }
        | Stmt::Step { .. }
        | Stmt::Call(_)
        | Stmt::Print(_, _)
        | Stmt::Barrier(_)
        | Stmt::Break(_)
        | Stmt::Continue(_)
        | Stmt::Return(_, _) => None,
    }
}

/// The position of the declaration of the variable of this number: of a parameter, or of a local variable.
pub fn declaration_of(method: &Method, number: u32) -> Option<Place>
    ensures { result ≡ declaration_of (numbered_method_of method.now) number }
{
    let parameter = parameter_place(&method.params, number);
    parameter.or(declared_among(number, deref_stmts(&method.body)))
}
