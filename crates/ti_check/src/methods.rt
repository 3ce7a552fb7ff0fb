// The check of a method: its head, its end, and its body.
ghost use Rattle.std.specs.Prelude.{◌≡◌, ◌<◌, map, flat_map, length, slice_get, IfOk};
ghost use Rattle.ti_lang.specs.Program.Views.{program_of, statement_of, numbered_result_of, numbered_method_of};
ghost use Rattle.ti_lang.specs.Typing.Effects.{doings_of_method, return_acts};
ghost use Rattle.ti_rules.specs.Mirrors.First.{earliest};
ghost use Rattle.ti_rules.specs.TypeRules.{is_return, ends_with_return, end_refusals, method_refusals};
ghost use Rattle.ti_rules.specs.SingleRules.{word_refusals, result_refusals, effect_refusals, method_single_refusals};
ghost use Rattle.ti_single.specs.Effects.{effects_of};
ghost use Rattle.ti_check.specs.Mirrors.Refusals.{AreFirstRefusals};

use crate::context::CheckContext;
use crate::declarations::head;
use crate::reports::Refusals;
use crate::scope_pool::ScopePool;
use crate::walk::statements;
use std::alloc::Global;
use ti_base::Memory;
use ti_lang::program::{Method, Program, ResultType, Scope, Stmt};
use ti_rules::{Refusal, Rule, earlier_of, refused_if};
use ti_single::{Effects, deref_stmts, has_global_effects, return_acts};
use ti_syntax::tree::{Qualifier, QualifierWord};
use ti_types::result_type;

// ---- rules of types

fn is_return(stmt: &Stmt) -> bool
    ensures { result ≡ is_return (statement_of stmt.now) }
{
    matches!(stmt, Stmt::Return(_, _))
}

// Whether the last statement is a `return`.
fn ends_with_return(body: &[Stmt]) -> bool
    ensures { result ≡ ends_with_return (map statement_of body.now) }
{
    let len = body.len();
    if len == 0 {
        return false;
    }
    let last = len - 1;
    is_return(&body[last])
}

/// Y6 if the method has a result and doesn't end with a `return`.
pub fn end(method: &Method) -> Option<Refusal>
    ensures { result ≡ earliest (end_refusals (numbered_method_of method.now)) }
{
    let missing = !result_type(method).is_void() && !ends_with_return(&method.body);
    refused_if(missing, Rule::Y6, method.place)
}

// ---- rules of single values

fn single_word(qualifier: Qualifier) -> Option<Refusal>
    ensures { result ≡ earliest (word_refusals qualifier) }
{
    refused_if(
        matches!(qualifier.word, QualifierWord::Single),
        Rule::S9,
        qualifier.place,
    )
}

fn single_words(words: &[Qualifier]) -> Option<Refusal>
    ensures { result ≡ earliest (flat_map word_refusals words.now) }
{
    let mut found = None;
    for q in words {
        found = earlier_of(found, single_word(*q));
    }
    found
}

// S9 at the first `single` in the result type of a method that isn't single.
#[tactic(auto, unfolding(ti_rules::specs::Mirrors::First::earliest))]
fn single_result(is_single: bool, result_type: &ResultType) -> Option<Refusal>
    ensures { result ≡ earliest (result_refusals is_single (numbered_result_of result_type.now)) }
{
    match result_type {
        ResultType::Void => None,
        ResultType::Typed(ty) => {
            if is_single {
                None
            } else {
                single_words(&ty.qualifiers)
            }
        }
    }
}

// S6 if the method has global effects and isn't single.
fn effects(
    program: &Program,
    method: &Method,
    return_is_global: bool,
    body: Effects,
) -> Option<Refusal>
    requires return_is_global { return_is_global ≡ return_acts (program_of program.now.parts) (numbered_method_of method.now) }
    requires body { effects_of body ≡ doings_of_method (program_of program.now.parts) (numbered_method_of method.now) }
    ensures { result ≡ earliest (effect_refusals (program_of program.now.parts) (numbered_method_of method.now)) }
{
    // For the prover: only the contract uses `program`.
    let _ = program;
    let acts = has_global_effects(return_is_global, false, body);
    refused_if(acts && !method.single, Rule::S6, method.place)
}

// ---- all rules

/// The first errors of a method, which is the one with this number.
pub fn method(
    alloc: Global,
    program: &Program,
    number: u32,
    method: &Method,
) -> Result<Refusals, Memory>
    requires within { number < length (program_of program.now.parts).methods }
    requires is_method { slice_get (program_of program.now.parts).methods number ≡ Some (numbered_method_of method.now) }
    ensures { IfOk result (λ f. AreFirstRefusals (method_refusals (program_of program.now.parts) (numbered_method_of method.now))
        (method_single_refusals (program_of program.now.parts) (numbered_method_of method.now)) f) }
{
    let scope = Scope::begin(alloc, program, number)?;
    let return_is_global = return_acts(program, method);
    let site = CheckContext {
        program,
        method,
        scope: &scope,
        return_is_global,
        is_in_loop: false,
    };
    let mut unused = ScopePool::none(alloc);
    let body = statements(alloc, &mut unused, site, deref_stmts(&method.body))?;
    let own = Refusals {
        types: earlier_of(head(method), end(method)),
        single: earlier_of(
            effects(program, method, return_is_global, body.doings),
            single_result(method.single, &method.result),
        ),
    };
    Ok(own.and(body.outside()))
}
