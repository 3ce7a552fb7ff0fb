// Adds the annotations of a marking to methods.
ghost use Rattle.std.specs.Prelude.{◌≡◌, ℕ, ◌||◌, ◌++◌, ◌∷◌, [], false, if◌then◌else◌, get_or, map, OnOk, IfOk};
ghost use Rattle.std.specs.Option.{option_map_or};
ghost use Rattle.ti_syntax.specs.declared.tree.classes.Modifier.{Modifier as ModifierSeen};
ghost use Rattle.ti_syntax.specs.declared.tree.classes.ModifierWord.TheVariants as word;
ghost use Rattle.ti_lang.specs.Program.Views.{numbered_param_of, numbered_params_of, numbered_result_of, numbered_method_of};
ghost use Rattle.ti_blame.specs.Marks.{marks_of};
ghost use Rattle.ti_infer.specs.Marks.{marks_variable};
ghost use Rattle.ti_infer.specs.Marked.{marked_param, marked_params, marked_result, marked_method};

use crate::annotate::stmts::{MarkedVariables, is_marked, mark_if, mark_statements};
use crate::places::places;
use std::alloc::Global;
use ti_base::{Memory, Place};
use ti_blame::{Mark, MarkKind};
use ti_lang::program::{Method, Param, Params, ResultType};
use ti_syntax::tree::{Modifier, ModifierWord};

// ---- variables

// Whether the variable that is declared at this place is annotated. False without a place.
fn is_declared_marked(marks: &[Mark], place: Option<Place>) -> bool
    ensures { result ≡ option_map_or (marks_of marks.now).variables place false }
{
    match place {
        Some(place) => is_marked(marks, MarkKind::Variable, place),
        None => false,
    }
}

fn marked_among(
    alloc: Global,
    marks: &[Mark],
    places: &[Option<Place>],
) -> Result<Vec<bool>, Memory>
    ensures { IfOk result (λ v. v.items ≡ map (λ place. option_map_or (marks_of marks.now).variables place false) places.now) }
{
    let mut found = Vec::with_capacity(alloc, places.len())?;
    for place in places {
        found.push(is_declared_marked(marks, *place))?;
    }
    Ok(found)
}

// A table of which variables of a method are annotated, by their numbers.
fn marked_variables(
    alloc: Global,
    marks: &[Mark],
    method: &Method,
) -> Result<MarkedVariables, Memory>
    ensures { IfOk result (λ v. (number : ℕ) → get_or v.singles.items number false
        ≡ marks_variable (marks_of marks.now) (numbered_method_of method.now) number) }
{
    let places = places(alloc, method)?;
    let singles = marked_among(alloc, marks, &places)?;
    Ok(MarkedVariables { singles })
}

// ---- before the body

fn mark_param(marks: &[Mark], param: &mut Param) -> Result<(), Memory>
    ensures { OnOk result (numbered_param_of param.new ≡ marked_param (marks_of marks.now) (numbered_param_of param.old)) }
{
    let is_single = is_marked(marks, MarkKind::Variable, param.place);
    mark_if(is_single, param.place, &mut param.ty)
}

fn mark_listed(marks: &[Mark], params: &mut Vec<Param>) -> Result<(), Memory>
    ensures { OnOk result (map numbered_param_of params.new.items ≡ map (marked_param (marks_of marks.now))
        (map numbered_param_of params.old.items)) }
{
    for i in 0..params.len() {
        mark_param(marks, &mut params[i])?;
    }
    Ok(())
}

fn mark_params(marks: &[Mark], params: &mut Params) -> Result<(), Memory>
    ensures { OnOk result (numbered_params_of params.new ≡ marked_params (marks_of marks.now) (numbered_params_of params.old)) }
{
    match params {
        Params::MainArgs => Ok(()),
        Params::Typed(params) => mark_listed(marks, params),
    }
}

// Makes the type of a result single, if it is annotated; `void` stays.
fn mark_result(single: bool, place: Place, ty: &mut ResultType) -> Result<(), Memory>
    ensures { OnOk result (numbered_result_of ty.new ≡ marked_result single place (numbered_result_of ty.old)) }
{
    match ty {
        ResultType::Void => Ok(()),
        ResultType::Typed(ty) => mark_if(single, place, ty),
    }
}

// Appends the modifier `single` with this place, if the method is annotated.
fn mark_words(single: bool, place: Place, words: &mut Vec<Modifier>) -> Result<(), Memory>
    ensures { OnOk result (words.new.items ≡ words.old.items ++ (if single then record { word = word.Single; place = place }
        ∷ [] else [])) }
{
    if single {
        words.push(Modifier {
            word: ModifierWord::Single,
            place,
        })?;
    }
    Ok(())
}

// ---- methods

// For the prover: a disjunction as a call with a contract.
fn logical_or(left: bool, right: bool) -> bool
    ensures { result ≡ (left || right) }
{
    left || right
}

fn mark_method(alloc: Global, marks: &[Mark], method: &mut Method) -> Result<(), Memory>
    ensures { OnOk result (numbered_method_of method.new ≡ marked_method (marks_of marks.now) (numbered_method_of method.old)) }
{
    let variables = marked_variables(alloc, marks, method)?;
    let place = method.place;
    let is_single = is_marked(marks, MarkKind::Method, place);
    let is_result_single = is_marked(marks, MarkKind::Result, place);
    mark_words(is_single, place, &mut method.modifiers)?;
    method.single = logical_or(method.single, is_single);
    mark_result(is_result_single, place, &mut method.result)?;
    mark_params(marks, &mut method.params)?;
    mark_statements(marks, &variables, &mut method.body)?;
    Ok(())
}

/// Adds the annotations of a marking to each of these methods. Errors only if it runs out of memory.
pub fn mark_methods(alloc: Global, marks: &[Mark], methods: &mut Vec<Method>) -> Result<(), Memory>
    ensures { OnOk result (map numbered_method_of methods.new.items ≡ map (marked_method (marks_of marks.now))
        (map numbered_method_of methods.old.items)) }
{
    for i in 0..methods.len() {
        mark_method(alloc, marks, &mut methods[i])?;
    }
    Ok(())
}
