// A table of the places at which the variables of a method are declared, by their numbers.
ghost use Rattle.std.specs.Prelude.{◌≡◌, ◌<◌, ℕ, map, length, get_or, slice_set, is_none, Some, None, OnOk, IfOk};
ghost use Rattle.ti_lang.specs.Program.Views.{numbered_param_of, numbered_params_of, numbered_method_of};
ghost use Rattle.ti_infer.specs.Marks.{variable_place};
ghost use Rattle.ti_infer.specs.Mirrors.Locals.{place_among, declared_params};
ghost use Rattle.ti_infer.specs.Mirrors.Places.{listed_place, places_of_params, place_if, AreAdded};

use crate::local::{Local, locals};
use std::alloc::Global;
use ti_base::{Memory, Place};
use ti_lang::program::{Method, Param, Params};

/// The declared parameters of a method; none for the form `String[] args`.
pub fn listed_params(params: &Params) -> &[Param]
    ensures { map numbered_param_of result.now ≡ declared_params (numbered_params_of params.now) }
{
    match params {
        Params::MainArgs => &[],
        Params::Typed(params) => params,
    }
}

// Extends the table so that the number is an index of it.
fn make_room(places: &mut Vec<Option<Place>>, number: usize) -> Result<(), Memory>
    ensures same { (n : ℕ) → get_or places.new.items n None ≡ get_or places.old.items n None }
    ensures room { OnOk result (number < length places.new.items) }
{
    while places.len() <= number {
        places.push(None)?;
    }
    Ok(())
}

// For the prover: reads one entry of the table.
fn is_empty_at(places: &Vec<Option<Place>>, number: usize) -> bool
    requires { number < length places.now.items }
    ensures { result ≡ is_none (get_or places.now.items number None) }
{
    places[number].is_none()
}

// For the prover: writes one entry of the table.
fn set_at(places: &mut Vec<Option<Place>>, number: usize, place: Place)
    requires { number < length places.old.items }
    ensures { places.new.items ≡ slice_set places.old.items number (Some place) }
{
    places[number] = Some(place);
}

// Enters a place for a number that has none yet; the first one stays.
fn note(places: &mut Vec<Option<Place>>, number: usize, place: Place) -> Result<(), Memory>
    ensures { OnOk result (AreAdded places.old.items places.new.items (place_if number place)) }
{
    make_room(places, number)?;
    if is_empty_at(places, number) {
        set_at(places, number, place);
    }
    Ok(())
}

fn note_all(places: &mut Vec<Option<Place>>, found: &[Local]) -> Result<(), Memory>
    ensures { OnOk result (AreAdded places.old.items places.new.items (place_among found.now)) }
{
    for l in found {
        note(places, l.number as usize, l.place)?;
    }
    Ok(())
}

fn of_params(alloc: Global, params: &[Param]) -> Result<Vec<Option<Place>>, Memory>
    ensures { IfOk result (λ v. v.items ≡ places_of_params (map numbered_param_of params.now)) }
{
    let mut found = Vec::new(alloc);
    for param in params {
        found.push(Some(param.place))?;
    }
    Ok(found)
}

/// The places at which the variables of a method are declared, by their numbers: its parameters, and its local variables. Errors only if
/// it runs out of memory.
pub fn places(alloc: Global, method: &Method) -> Result<Vec<Option<Place>>, Memory>
    ensures { IfOk result (λ v. (number : ℕ) → listed_place v.items number ≡ variable_place (numbered_method_of method.now) number) }
{
    let mut found = of_params(alloc, listed_params(&method.params))?;
    let declared = locals(alloc, method)?;
    note_all(&mut found, &declared)?;
    Ok(found)
}
