// Modifiers and qualifiers of classes, fields, and the heads of methods.
ghost use Rattle.std.specs.Prelude.{◌≡◌, map, flat_map, true, false};
ghost use Rattle.ti_lang.specs.Program.Classes.{NumberedParam};
ghost use Rattle.ti_lang.specs.Program.Views.{type_use_of, numbered_field_of, numbered_class_of, numbered_param_of, numbered_params_of, numbered_result_of, numbered_method_of};
ghost use Rattle.ti_rules.specs.Mirrors.First.{earliest};
ghost use Rattle.ti_rules.specs.Broken.Words.{type_word_refusals};
ghost use Rattle.ti_rules.specs.TypeRules.{field_refusals, class_refusals, result_refusals, params_refusals, head_refusals};

use crate::modifiers::{field_modifiers, method_modifiers, repeated_modifiers};
use ti_lang::program::{Class, Field, Method, Param, Params, ResultType, has_static};
use ti_rules::{Refusal, earlier_of};
use ti_types::type_words;

// ---- classes

#[tactic(auto, using(ti_rules::proofs::Lemmas::firsts))]
fn field(declaration: &Field) -> Option<Refusal>
    ensures { result ≡ earliest (field_refusals (numbered_field_of declaration.now)) }
{
    let words = earlier_of(
        repeated_modifiers(&declaration.modifiers),
        field_modifiers(&declaration.modifiers),
    );
    earlier_of(words, type_words(false, &declaration.ty))
}

fn fields(fields: &[Field]) -> Option<Refusal>
    ensures { result ≡ earliest (flat_map field_refusals (map numbered_field_of fields.now)) }
{
    let mut found = None;
    for f in fields {
        found = earlier_of(found, field(f));
    }
    found
}

#[tactic(auto, using(ti_rules::proofs::Lemmas::firsts))]
fn class(declaration: &Class) -> Option<Refusal>
    ensures { result ≡ earliest (class_refusals (numbered_class_of declaration.now)) }
{
    earlier_of(
        repeated_modifiers(&declaration.modifiers),
        fields(&declaration.fields),
    )
}

/// The first error in the modifiers and qualifiers of classes and their fields.
pub fn classes(classes: &[Class]) -> Option<Refusal>
    ensures { result ≡ earliest (flat_map class_refusals (map numbered_class_of classes.now)) }
{
    let mut found = None;
    for c in classes {
        found = earlier_of(found, class(c));
    }
    found
}

// ---- methods

#[tactic(auto, unfolding(ti_rules::specs::Mirrors::First::earliest))]
fn result_words(result_type: &ResultType) -> Option<Refusal>
    ensures { result ≡ earliest (result_refusals (numbered_result_of result_type.now)) }
{
    match result_type {
        ResultType::Void => None,
        ResultType::Typed(ty) => type_words(true, ty),
    }
}

fn param_words(may_be_single: bool, param: &Param) -> Option<Refusal>
    ensures { result ≡ earliest (type_word_refusals may_be_single (numbered_param_of param.now).ty) }
{
    type_words(may_be_single, &param.ty)
}

fn all_param_words(may_be_single: bool, params: &[Param]) -> Option<Refusal>
    ensures { result ≡ earliest (flat_map (λ (x : NumberedParam). type_word_refusals may_be_single x.ty)
        (map numbered_param_of params.now)) }
{
    let mut found = None;
    for param in params {
        found = earlier_of(found, param_words(may_be_single, param));
    }
    found
}

#[tactic(auto, unfolding(ti_rules::specs::Mirrors::First::earliest))]
fn params_words(may_be_single: bool, params: &Params) -> Option<Refusal>
    ensures { result ≡ earliest (params_refusals may_be_single (numbered_params_of params.now)) }
{
    match params {
        Params::MainArgs => None,
        Params::Typed(params) => all_param_words(may_be_single, params),
    }
}

/// The first error in a method's modifiers and in the qualifiers of its result and parameters.
#[tactic(auto, using(ti_rules::proofs::Lemmas::firsts))]
pub fn head(method: &Method) -> Option<Refusal>
    ensures { result ≡ earliest (head_refusals (numbered_method_of method.now)) }
{
    let modifiers = earlier_of(
        repeated_modifiers(&method.modifiers),
        method_modifiers(has_static(&method.modifiers), &method.modifiers),
    );
    let words = earlier_of(modifiers, result_words(&method.result));
    earlier_of(words, params_words(method.single, &method.params))
}
