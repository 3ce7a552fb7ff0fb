// The public entry points to the checker.
ghost use Rattle.std.specs.Prelude.{◌≡◌, ◌<◌, ◌≤◌, ◌^◌, map, flat_map, length, slice_get, IfOk, IfErr};
ghost use Rattle.ti_lang.specs.Program.Views.{program_of, numbered_method_of};
ghost use Rattle.ti_rules.specs.TypeRules.{method_refusals, type_refusals};
ghost use Rattle.ti_rules.specs.SingleRules.{method_single_refusals, single_refusals};
ghost use Rattle.ti_rules.specs.Mirrors.First.{earliest};
ghost use Rattle.ti_rules.specs.Mirrors.ProgramRefusal.{program_refusal};
ghost use Rattle.ti_check.specs.Answer.{GivesChecked, GivesTyped};
ghost use Rattle.ti_check.specs.Mirrors.Refusals.{AreFirstRefusals};

use crate::declarations::classes;
use crate::error::CheckErr;
use crate::methods::method;
use crate::reports::Refusals;
use std::alloc::Global;
use ti_base::Memory;
use ti_lang::program::{Method, Program};
use ti_rules::{Checked, Refusal, earlier_of, first_counts};

// The index as 32 bits; Memory if and only if it doesn't fit.
fn index_to_u32(index: usize) -> Result<u32, Memory>
    ensures value { IfOk result (λ n. n ≡ index) }
    ensures large { IfErr result (λ _. 2 ^ 32 ≤ index) }
{
    match u32::try_from(index) {
        Ok(number) => Ok(number),
        Err(_) => Err(Memory),
    }
}

fn method_of(methods: &[Method], index: usize) -> &Method
    requires { index < length methods.now }
    ensures { slice_get (map numbered_method_of methods.now) index ≡ Some (numbered_method_of result.now) }
{
    &methods[index]
}

// The method with this number.
fn method_at(program: &Program, index: usize) -> &Method
    requires { index < length program.now.parts.methods.items }
    ensures { slice_get (program_of program.now.parts).methods index ≡ Some (numbered_method_of result.now) }
{
    method_of(&program.parts.methods, index)
}

fn methods(alloc: Global, program: &Program) -> Result<Refusals, Memory>
    ensures { IfOk result (λ f. AreFirstRefusals (flat_map (method_refusals (program_of program.now.parts)) (program_of program.now.parts).methods)
        (flat_map (method_single_refusals (program_of program.now.parts)) (program_of program.now.parts).methods) f) }
{
    let mut found = Refusals::nothing();
    for i in 0..program.parts.methods.len() {
        let number = index_to_u32(i)?;
        let m = method_at(program, i);
        let next = method(alloc, program, number, m)?;
        found = found.and(next);
    }
    Ok(found)
}

// The first broken rule of types and qualifiers in the program, and the first one of single values.
fn first_refusals(alloc: Global, program: &Program) -> Result<Refusals, Memory>
    ensures types { IfOk result (λ f. f.types ≡ earliest (type_refusals (program_of program.now.parts))) }
    ensures single { IfOk result (λ f. f.single ≡ earliest (single_refusals (program_of program.now.parts))) }
{
    let found = methods(alloc, program)?;
    Ok(Refusals {
        types: earlier_of(classes(&program.parts.classes), found.types),
        single: found.single,
    })
}

// The program's first error. Errors of types and qualifiers take precedence over those of single values.
fn refusal(alloc: Global, program: &Program) -> Result<Option<Refusal>, Memory>
    ensures { IfOk result (λ r. r ≡ program_refusal (program_of program.now.parts)) }
{
    let found = first_refusals(alloc, program)?;
    match found.types {
        Some(refusal) => Ok(Some(refusal)),
        None => Ok(found.single),
    }
}

/// Checks a program, and returns it as a checked one.
///
/// Error: the program's first error, or Memory; the program is then dropped. Rules of types and qualifiers take precedence over those
/// of single values; among these, the first is at the least position, and at one position the one that is listed first. Each method is
/// walked twice: first for its effect summary, which says whether a `return` counts as a global effect, then to check each statement
/// and pass its summary up to the enclosing statements. Within a statement an expression may be typed more than once: the receiver of
/// a target as `a[i]` up to three times.
pub fn check(alloc: Global, program: Program) -> Result<Checked, CheckErr>
    ensures { GivesChecked program result }
{
    let found = refusal(alloc, &program)?;
    match found {
        Some(refusal) => Err(CheckErr::Refused(refusal)),
        None => Ok(Checked::of(program)),
    }
}

/// Checks a program only against the rules of types and qualifiers, not those of single values. Error: the first broken rule by
/// position, and at one position by the order in which the rules are listed; or Memory.
pub fn check_types(alloc: Global, program: &Program) -> Result<(), CheckErr>
    ensures { GivesTyped (program_of program.now.parts) result }
{
    first_counts();
    let found = first_refusals(alloc, program)?;
    match found.types {
        Some(refusal) => Err(CheckErr::Refused(refusal)),
        None => Ok(()),
    }
}
