// The reasons for a refusal by a rule of types or of single values: the search over the methods of a program.
ghost use Rattle.std.specs.Prelude.{◌≡◌, ◌<◌, ◌≤◌, ◌^◌, ◌++◌, map, flat_map, length, false, slice_get, Some, Contains, IfOk, IfErr};
ghost use Rattle.ti_syntax.specs.Trees.Text.{tree_of};
ghost use Rattle.ti_lang.specs.Program.Scope.{contents_of, first_scope, method_scope, this_of};
ghost use Rattle.ti_lang.specs.Program.Statements.{numbered_stms};
ghost use Rattle.ti_lang.specs.Program.Views.{program_of, statement_of, numbered_result_of, numbered_method_of};
ghost use Rattle.ti_rules.specs.Mirrors.First.{earliest};
ghost use Rattle.ti_rules.specs.Refusals.{IsFirstRefusal};
ghost use Rattle.ti_rules.specs.SingleRules.{word_refusals, result_refusals, effect_refusals, single_refusals};
ghost use Rattle.ti_rules.specs.TypeRules.{type_refusals};
ghost use Rattle.ti_rules.specs.StmtInContext.{around_method, standing_in_method};
ghost use Rattle.ti_single.specs.Contexts.{program_at, around_of};
ghost use Rattle.ti_explain.specs.SingleReasons.{head_reasons, single_head_refusals, AreSingleReasons};
ghost use Rattle.ti_explain.specs.TypeReasons.{AreTypeReasons};
ghost use Rattle.ti_explain.specs.Mirrors.Found.{refusals_of_head, reasons_of_head, IsFoundInHead, IsFoundInMethod, IsFoundAt, IsFoundAmong};

use crate::effects::first_effect_of_all;
use crate::reason::{ReasonKind, RefusalReason};
use crate::search::{SoughtRefusal, found_among, is_refused_as};
use crate::statement::push_effect;
use crate::type_statement::{class_reasons, type_head_reasons};
use std::alloc::Global;
use ti_base::Memory;
use ti_check::head_refusal as type_head_refusal;
use ti_lang::program::{Method, Program, ResultType, Scope};
use ti_rules::{Refusal, Rule, earlier_of, first_counts, refused_if};
use ti_single::{SingleContext, deref_stmts, has_global_effects, method_effects, return_acts};
use ti_syntax::tree::{Qualifier, QualifierWord, Tree};

// ---- the head of a method

fn single_word(qualifier: Qualifier) -> Option<Refusal>
    ensures { result ≡ earliest (word_refusals qualifier) }
{
    refused_if(
        matches!(qualifier.word, QualifierWord::Single),
        Rule::S9,
        qualifier.place,
    )
}

fn single_words(words: &[Qualifier]) -> Option<Refusal>
    ensures { result ≡ earliest (flat_map word_refusals words.now) }
{
    let mut found = None;
    for q in words {
        found = earlier_of(found, single_word(*q));
    }
    found
}

// S9 at the first `single` in the result type of a method that isn't single.
#[tactic(auto, unfolding(ti_rules::specs::Mirrors::First::earliest))]
fn single_result(is_single: bool, result_type: &ResultType) -> Option<Refusal>
    ensures { result ≡ earliest (result_refusals is_single (numbered_result_of result_type.now)) }
{
    match result_type {
        ResultType::Void => None,
        ResultType::Typed(ty) => {
            if is_single {
                None
            } else {
                single_words(&ty.qualifiers)
            }
        }
    }
}

// S6 if the method has global effects and isn't single.
fn effects(program: &Program, method: &Method) -> Option<Refusal>
    ensures { result ≡ earliest (effect_refusals (program_of program.now.parts) (numbered_method_of method.now)) }
{
    let body = method_effects(program, method);
    let acts = has_global_effects(return_acts(program, method), false, body);
    refused_if(acts && !method.single, Rule::S6, method.place)
}

// The first broken rule of single values in the head of a method.
#[tactic(auto, using(ti_rules::proofs::Lemmas::firsts))]
fn head_refusal(program: &Program, method: &Method) -> Option<Refusal>
    ensures { result ≡ earliest (single_head_refusals (program_of program.now.parts) (numbered_method_of method.now)) }
{
    earlier_of(
        effects(program, method),
        single_result(method.single, &method.result),
    )
}

// The reasons why the head of a method is refused.
fn head_reasons(
    alloc: Global,
    site: SingleContext<'_>,
    rule: Rule,
) -> Result<Vec<RefusalReason>, Memory>
    ensures { IfOk result (λ v. v.items ≡ head_reasons (program_at site.entry) (around_of site.entry).method rule) }
{
    let mut found = Vec::new(alloc);
    match rule {
        Rule::S6 => {
            push_effect(
                found,
                first_effect_of_all(site, false, deref_stmts(&site.method.body)),
            )
        }
        _ => {
            found.push(RefusalReason {
                place: site.method.place,
                kind: ReasonKind::PlainMethod,
            })?;
            Ok(found)
        }
    }
}

// ---- methods

// The context of the statements of a method, outside of its loops.
fn site_of<'a>(program: &'a Program, method: &'a Method, scope: &'a Scope) -> SingleContext<'a>
    requires { contents_of scope.now ≡ method_scope (numbered_method_of method.now) }
    ensures program { program_at result ≡ program_of program.now.parts }
    ensures around { around_of result ≡ around_method (numbered_method_of method.now) }
{
    SingleContext {
        program,
        method,
        scope,
        return_is_global: return_acts(program, method),
        jump_has: None,
    }
}

// The first refusal of the head of a method, by the rules that are searched.
fn own_head_refusal(by_types: bool, site: SingleContext<'_>) -> Option<Refusal>
    ensures { result ≡ earliest (refusals_of_head by_types (program_at site.entry) (around_of site.entry).method) }
{
    if by_types {
        type_head_refusal(site.method)
    } else {
        head_refusal(site.program, site.method)
    }
}

// The reasons of a head, by the rules that are searched.
fn reasons_of_head(
    alloc: Global,
    sought: SoughtRefusal<'_>,
    site: SingleContext<'_>,
) -> Result<Vec<RefusalReason>, Memory>
    ensures { IfOk result (λ v. v.items ≡ reasons_of_head sought.entry (program_at site.entry) (around_of site.entry).method) }
{
    if sought.by_types {
        type_head_reasons(alloc, site.method, sought.refusal)
    } else {
        head_reasons(alloc, site, sought.refusal.rule)
    }
}

// The reasons if the head of the method is refused so.
fn found_in_head(
    alloc: Global,
    sought: SoughtRefusal<'_>,
    site: SingleContext<'_>,
) -> Result<Option<Vec<RefusalReason>>, Memory>
    ensures { IfOk result (λ o. IsFoundInHead (program_at site.entry) sought.entry (around_of site.entry).method o) }
{
    if is_refused_as(own_head_refusal(sought.by_types, site), sought.refusal) {
        Ok(Some(reasons_of_head(alloc, sought, site)?))
    } else {
        Ok(None)
    }
}

// The reasons if the head or a statement of the method is refused so.
fn found_in_site(
    alloc: Global,
    sought: SoughtRefusal<'_>,
    site: SingleContext<'_>,
) -> Result<Option<Vec<RefusalReason>>, Memory>
    requires { around_of site ≡ around_method (around_of site).method }
    ensures { IfOk result (λ o. IsFoundInMethod (program_at site.entry) sought.entry (around_of site.entry).method o) }
{
    if let Some(found) = found_in_head(alloc, sought, site)? {
        return Ok(Some(found));
    }
    found_among(alloc, sought, site, deref_stmts(&site.method.body))
}

fn method_of(methods: &[Method], index: usize) -> &Method
    requires { index < length methods.now }
    ensures { slice_get (map numbered_method_of methods.now) index ≡ Some (numbered_method_of result.now) }
{
    &methods[index]
}

// The method with this number.
fn method_at(program: &Program, index: usize) -> &Method
    requires { index < length program.now.parts.methods.items }
    ensures { slice_get (program_of program.now.parts).methods index ≡ Some (numbered_method_of result.now) }
{
    method_of(&program.parts.methods, index)
}

// The index as 32 bits; Memory if and only if it doesn't fit.
fn index_to_u32(index: usize) -> Result<u32, Memory>
    ensures value { IfOk result (λ n. n ≡ index) }
    ensures large { IfErr result (λ _. 2 ^ 32 ≤ index) }
{
    match u32::try_from(index) {
        Ok(number) => Ok(number),
        Err(_) => Err(Memory),
    }
}

// The reasons if the method with this number is refused so.
fn found_in_method(
    alloc: Global,
    sought: SoughtRefusal<'_>,
    program: &Program,
    index: usize,
) -> Result<Option<Vec<RefusalReason>>, Memory>
    requires { index < length program.now.parts.methods.items }
    ensures { IfOk result (λ o. IsFoundAt (program_of program.now.parts) sought.entry index o) }
{
    let number = index_to_u32(index)?;
    let method = method_at(program, index);
    let scope = Scope::begin(alloc, program, number)?;
    found_in_site(alloc, sought, site_of(program, method, &scope))
}

// The reasons of the first method whose head or a statement is refused so; None if there is none.
fn found_among_methods(
    alloc: Global,
    sought: SoughtRefusal<'_>,
    program: &Program,
) -> Result<Option<Vec<RefusalReason>>, Memory>
    ensures { IfOk result (λ o. IsFoundAmong (program_of program.now.parts) sought.entry o) }
{
    for i in 0..program.parts.methods.len() {
        if let Some(found) = found_in_method(alloc, sought, program, i)? {
            return Ok(Some(found));
        }
    }
    Ok(None)
}

/// The reasons for the first refusal of a program by the rules of single values.
pub fn single_reasons(
    alloc: Global,
    tree: &Tree,
    program: &Program,
    refusal: Refusal,
) -> Result<Vec<RefusalReason>, Memory>
    requires { IsFirstRefusal (Contains (single_refusals (program_of program.now.parts))) refusal }
    ensures { IfOk result (λ v. AreSingleReasons (program_of program.now.parts) refusal v.items) }
{
    first_counts();
    let sought = SoughtRefusal {
        by_types: false,
        refusal,
        tree,
    };
    match found_among_methods(alloc, sought, program)? {
        Some(found) => Ok(found),
        None => unreachable!(),
    }
}

/// The reasons for the first refusal of a program by the rules of types and qualifiers. The tree is that of the program.
pub fn type_reasons(
    alloc: Global,
    tree: &Tree,
    program: &Program,
    refusal: Refusal,
) -> Result<Vec<RefusalReason>, Memory>
    requires { IsFirstRefusal (Contains (type_refusals (program_of program.now.parts))) refusal }
    ensures { IfOk result (λ v. AreTypeReasons (tree_of tree.now) (program_of program.now.parts) refusal v.items) }
{
    first_counts();
    let sought = SoughtRefusal {
        by_types: true,
        refusal,
        tree,
    };
    match found_among_methods(alloc, sought, program)? {
        Some(found) => Ok(found),
        None => class_reasons(alloc, program, refusal.place),
    }
}
