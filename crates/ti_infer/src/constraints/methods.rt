// The reasons and constraints of methods and programs. All reasons are in one list, so that a constraint can refer to
// those of a statement by a range of indices.
ghost use Rattle.std.specs.Prelude.{◌≡◌, ◌<◌, ◌≤◌, ◌+◌, ◌^◌, ◌++◌, [], map, flat_map, length, slice_get, Some, OnOk, IfOk, IfErr};
ghost use Rattle.ti_lang.specs.Program.Scope.{parameters};
ghost use Rattle.ti_lang.specs.Program.Statements.{numbered_stms};
ghost use Rattle.ti_lang.specs.Program.Views.{program_of, numbered_param_of, numbered_method_of};
ghost use Rattle.ti_infer.specs.Reason.{result_reasons, return_reasons};
ghost use Rattle.ti_infer.specs.Mirrors.Implications.{params_inside, first_inside, method_conclusion, edges_all, method_edges, all_reasons, program_edges};
ghost use Rattle.ti_infer.specs.Mirrors.Sites.{program_at, method_of_site, inside_of};

use crate::constraints::fits::own_edge;
use crate::constraints::implications::{index_after, one_dependency};
use crate::constraints::reasons::{result, return_reasons};
use crate::constraints::site::{MethodSite, StmtSite, VariableDeps};
use crate::constraints::walk::statements;
use crate::places::{listed_params, places};
use std::alloc::Global;
use ti_base::Memory;
use ti_blame::{Conclusion, Implication, Mark, MarkKind, Reason};
use ti_lang::program::{Method, Param, Program, Scope};
use ti_single::deref_stmts;

// ---- the statements of a method

// The next number. Errors if it doesn't fit in 32 bits.
fn number_after(number: u32) -> Result<u32, Memory>
    ensures next { IfOk result (λ n. n ≡ number + 1) }
    ensures large { IfErr result (λ _. 2 ^ 32 ≤ number + 1) }
{
    match number.checked_add(1) {
        Some(next) => Ok(next),
        None => Err(Memory),
    }
}

// What makes parameters single: the annotation of each.
fn inside_params(alloc: Global, params: &[Param]) -> Result<Vec<VariableDeps>, Memory>
    ensures { IfOk result (λ v. inside_of v.items ≡ params_inside 0 (map numbered_param_of params.now)) }
{
    let mut found = Vec::new(alloc);
    let mut number = 0;
    for w in params {
        let mark = Mark {
            place: w.place,
            kind: MarkKind::Variable,
        };
        let dependencies = one_dependency(alloc, Some(mark))?;
        found.push(VariableDeps {
            number,
            dependencies,
        })?;
        number = number_after(number)?;
    }
    Ok(found)
}

// The number of reasons that the result of a method is: 1, or 0 for `void`.
fn result_size(site: MethodSite) -> usize
    ensures { result ≡ length (result_reasons (program_at site.entry) (method_of_site site.entry) (method_of_site site.entry).result) }
{
    match result(site, &site.method.result) {
        Some(_) => 1,
        None => 0,
    }
}

// Appends the constraints of the statements of method number `number`. The reasons of the method begin at `index`, with that of its
// result, if it has one.
fn body_edges(
    alloc: Global,
    site: MethodSite,
    number: u32,
    whole: Conclusion,
    index: usize,
    out: &mut Vec<Implication>,
) -> Result<(), Memory>
    requires within { number < length (program_of site.program.now.parts).methods }
    requires is_method { slice_get (program_of site.program.now.parts).methods number ≡ Some (numbered_method_of site.method.now) }
    ensures { OnOk result (out.new.items ≡ out.old.items ++ edges_all (program_at site.entry) (method_of_site site.entry) whole
        (parameters (method_of_site site.entry).params) (first_inside (method_of_site site.entry).params)
        (index + length (result_reasons (program_at site.entry) (method_of_site site.entry) (method_of_site site.entry).result)) []
        (numbered_stms (method_of_site site.entry).body)) }
{
    let scope = Scope::begin(alloc, site.program, number)?;
    let inside = inside_params(alloc, listed_params(&site.method.params))?;
    let a = StmtSite {
        site,
        whole,
        scope: &scope,
        inside: &inside,
    };
    let first = index_after(index, result_size(site))?;
    statements(alloc, a, first, &[], deref_stmts(&site.method.body), out)
}

// ---- methods

// For the prover: the length as a call with a contract.
fn count(items: &Vec<Reason>) -> usize
    ensures { result ≡ length items.now.items }
{
    items.len()
}

// Appends the reasons of a method, and returns the range of their indices.
fn whole_reasons(site: MethodSite, items: &mut Vec<Reason>) -> Result<Conclusion, Memory>
    ensures items { OnOk result (items.new.items ≡ items.old.items ++ return_reasons (program_at site.entry) (method_of_site site.entry)) }
    ensures whole { IfOk result (λ w. w ≡ method_conclusion (program_at site.entry) (method_of_site site.entry) (length items.old.items)) }
{
    let i = count(items);
    return_reasons(site, items)?;
    Ok(Conclusion::Between(i, count(items)))
}

// Appends the reasons and the constraints of method number `number`.
fn method_edges(
    alloc: Global,
    program: &Program,
    number: u32,
    method: &Method,
    items: &mut Vec<Reason>,
    out: &mut Vec<Implication>,
) -> Result<(), Memory>
    requires within { number < length (program_of program.now.parts).methods }
    requires is_method { slice_get (program_of program.now.parts).methods number ≡ Some (numbered_method_of method.now) }
    ensures items { OnOk result (items.new.items ≡ items.old.items ++ return_reasons (program_of program.now.parts) (numbered_method_of method.now)) }
    ensures edges { OnOk result (out.new.items ≡ out.old.items ++ method_edges (program_of program.now.parts) (numbered_method_of method.now)
        (length items.old.items)) }
{
    let places = places(alloc, method)?;
    let site = MethodSite {
        program: program,
        method: method,
        places: &places,
    };
    let i = count(items);
    let whole = whole_reasons(site, items)?;
    own_edge(method, whole, out)?;
    body_edges(alloc, site, number, whole, i, out)
}

// ---- programs

// An index as the number of a method. Errors if it doesn't fit in 32 bits.
fn method_number(index: usize) -> Result<u32, Memory>
    ensures number { IfOk result (λ n. n ≡ index) }
    ensures large { IfErr result (λ _. 2 ^ 32 ≤ index) }
{
    match u32::try_from(index) {
        Ok(number) => Ok(number),
        Err(_) => Err(Memory),
    }
}

/// The reasons of a program (`items`) and its constraints (`edges`), which refer to them by index.
#[derive(Drop)]
pub struct ProgramImplications {
    pub items: Vec<Reason>,
    pub edges: Vec<Implication>,
}

/// The reasons and the constraints of a program. Errors if it runs out of memory or an index gets too large.
pub fn program_edges(alloc: Global, program: &Program) -> Result<ProgramImplications, Memory>
    ensures items { IfOk result (λ f. f.items.items ≡ all_reasons (program_of program.now.parts)) }
    ensures edges { IfOk result (λ f. f.edges.items ≡ program_edges (program_of program.now.parts)) }
{
    let mut items = Vec::new(alloc);
    let mut edges = Vec::new(alloc);
    for i in 0..program.parts.methods.len() {
        let number = method_number(i)?;
        let m = method_at(program, i);
        method_edges(alloc, program, number, m, &mut items, &mut edges)?;
    }
    Ok(ProgramImplications { items, edges })
}

// For the prover: the method at an index, as the specification sees it.
fn method_of(methods: &[Method], index: usize) -> &Method
    requires { index < length methods.now }
    ensures { slice_get (map numbered_method_of methods.now) index ≡ Some (numbered_method_of result.now) }
{
    &methods[index]
}

// The method with this number.
fn method_at(program: &Program, index: usize) -> &Method
    requires { index < length program.now.parts.methods.items }
    ensures { slice_get (program_of program.now.parts).methods index ≡ Some (numbered_method_of result.now) }
{
    method_of(&program.parts.methods, index)
}
