// The end of a scope: which variables leave.

ghost use Rattle.std.specs.Prelude.{◌≡◌, not, map};
ghost use Rattle.ti_lang.specs.Program.Statements.{numbered_stms};
ghost use Rattle.ti_lang.specs.Program.Views.{statement_of, type_use_of, declared_of, variable_of};
ghost use Rattle.ti_lang.specs.Program.Types.{Typed};
ghost use Rattle.ti_lang.specs.Meaning.Scoping.{same_declaration, same_variable, without_variables};
ghost use Rattle.ti_lang.specs.Meaning.Statements.{declared_as};
ghost use Rattle.ti_lang.specs.Meaning.Performing.{declared_in, declared_alone, declared_among};
ghost use Rattle.ti_eval.specs.Frames.{slots_of};
ghost use Rattle.ti_moves.specs.Receiving.{stm_seen};
ghost use Rattle.ti_moves.specs.Scopes.{is_among};

use ti_eval::Slot;
use ti_lang::program::{Declared, Stmt, TypeUse, Variable};
use ti_lang::typing::same_elements;

// Whether a declaration of this type is that of the variable.
fn same_declared(type_use: &TypeUse, declared: &Declared) -> bool
    ensures { result ≡ same_declaration (Typed (type_use_of type_use.now).is_single (type_use_of type_use.now).type) (declared_of declared.now) }
{
    match declared {
        Declared::Typed { single, ty } => type_use.single == *single
            && same_elements(&type_use.ty, false, ty, false),
        Declared::Foreach => false,
    }
}

// Whether a declaration with this number declares the variable.
fn makes(type_use: &TypeUse, number: u32, variable: &Variable) -> bool
    ensures { result ≡ same_variable (declared_as (type_use_of type_use.now) number) (variable_of variable.now) }
{
    number == variable.number && same_declared(type_use, &variable.declared)
}

// Whether a statement itself declares the variable.
fn declares_alone(stmt: &Stmt, wanted: &Variable) -> bool
    ensures { result ≡ is_among (declared_alone (statement_of stmt.now)) (variable_of wanted.now) }
{
    match stmt {
        Stmt::Declare {
            place: _,
            ty,
            variable,
            value: _,
        } => makes(ty, *variable, wanted),
        _ => false,
    }
}

// Whether a statement of a list declares the variable.
fn declares_among(body: &[Stmt], variable: &Variable) -> bool
    ensures { result ≡ is_among (declared_among (numbered_stms (map statement_of body.now))) (variable_of variable.now) }
{
    for s in body {
        if declares_alone(s, variable) {
            return true;
        }
    }
    false
}

// Whether a block or a `for` declares the variable.
#[tactic(auto, using(ti_lang::proofs::Lemmas::program_bridges))]
fn declares(stmt: Option<&Stmt>, variable: &Variable) -> bool
    ensures { result ≡ is_among (declared_in (stm_seen stmt.entry)) (variable_of variable.now) }
{
    match stmt {
        Some(s) => match s {
            Stmt::Block(body) => declares_among(body, variable),
            Stmt::For {
                first: Some(first),
                ..
            } => declares_alone(first, variable),
            _ => false,
        },
        None => false,
    }
}

/// Removes the variables of a block or a `for` at its end.
pub fn leave(variables: &mut Vec<Slot>, stmt: Option<&Stmt>)
    ensures { slots_of variables.new.items ≡ without_variables (declared_in (stm_seen stmt.entry)) (slots_of variables.old.items) }
{
    variables.retain(
        |slot: &Slot| -> bool
            ensures { result ≡ not (is_among (declared_in (stm_seen stmt.entry)) (variable_of slot.now.variable)) }
        { !declares(stmt, &slot.variable) },
    );
}
