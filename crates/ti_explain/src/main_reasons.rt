// What is wrong with `main`: each part of its form that is missing, or another method with its parameter.
ghost use Rattle.std.specs.Prelude.{◌≡◌, ◌==◌, ◌&&◌, not, ◌++◌, length, map, IfOk};
ghost use Rattle.std.specs.Option.{option_map};
ghost use Rattle.ti_syntax.specs.Trees.Text.{tree_of};
ghost use Rattle.ti_syntax.specs.Trees.Views.{member_of, method_of, class_of, params_of, result_of};
ghost use Rattle.ti_lang.specs.MainForm.{is_public_word, is_public, is_void, is_words};
ghost use Rattle.ti_explain.specs.MainReasons.{defect_if, has_other_modifiers, form_defects, main_among, method_defects, class_defects, first_main, parameter_defect, parameters_among, parameters_in, main_reasons};

use crate::name_reason::{MainDefect, NameReason};
use crate::name_reasons::{has_reason, push_if};
use crate::near_spelling::same_name;
use crate::reason::RefusalReason;
use std::alloc::Global;
use ti_base::{Memory, Place};
use ti_lang::program::{has_static, is_single};
use ti_syntax::tree::{Class, Member, Method, Modifier, ModifierWord, Params, ResultDecl, Tree};

// Adds the defect if the test holds.
fn push_defect(
    reasons: Vec<RefusalReason>,
    test: bool,
    place: Place,
    defect: MainDefect,
) -> Result<Vec<RefusalReason>, Memory>
    ensures { IfOk result (λ v. v.items ≡ reasons.items ++ defect_if test place defect) }
{
    push_if(reasons, test, place, NameReason::Main(defect))
}

// ---- the form

fn is_public_word(word: ModifierWord) -> bool
    ensures { result ≡ is_public_word word }
{
    matches!(word, ModifierWord::Public)
}

fn is_public(words: &[Modifier]) -> bool
    ensures { result ≡ is_public words.now }
{
    words.iter().any(|modifier| is_public_word(modifier.word))
}

fn is_void(given: &ResultDecl) -> bool
    ensures { result ≡ is_void (result_of given.now) }
{
    match given {
        ResultDecl::Void(_) => true,
        ResultDecl::Typed(_) => false,
    }
}

fn is_words(params: &Params) -> bool
    ensures { result ≡ is_words (params_of params.now) }
{
    match params {
        Params::MainArgs(_, _) => true,
        Params::Typed(_) => false,
    }
}

// Whether `public`, `static` and `single` are there, and not alone.
fn has_other_modifiers(method: &Method) -> bool
    ensures { result ≡ has_other_modifiers (method_of method.now) }
{
    let words = &method.modifiers;
    (is_public(words) && (has_static(words) && is_single(words))) && words.len() != 3
}

// Each part of the form of `main` that this method lacks.
fn form_defects(alloc: Global, method: &Method) -> Result<Vec<RefusalReason>, Memory>
    ensures { IfOk result (λ v. v.items ≡ form_defects (method_of method.now)) }
{
    let place = method.place;
    let words = &method.modifiers;
    let found = Vec::new(alloc);
    let found = push_defect(found, !is_public(words), place, MainDefect::NotPublic)?;
    let found = push_defect(found, !has_static(words), place, MainDefect::NotStatic)?;
    let found = push_defect(found, !is_single(words), place, MainDefect::NotSingle)?;
    let others = has_other_modifiers(method);
    let found = push_defect(found, others, place, MainDefect::OtherModifiers)?;
    let has_result = !is_void(&method.result);
    let found = push_defect(found, has_result, place, MainDefect::HasResult)?;
    let other_parameters = !is_words(&method.params);
    push_defect(found, other_parameters, place, MainDefect::OtherParameters)
}

// The first method `main` among the members of a class.
fn main_among<'a>(members: &'a [Member]) -> Option<&'a Method>
    ensures { option_map (λ m. method_of m.now) result ≡ main_among (map member_of members.now) }
{
    for member in members {
        match member {
            Member::Field(_) => {}
            Member::Method(method) => {
                if same_name(b"main", method.name.as_bytes()) {
                    return Some(method);
                }
            }
        }
    }
    None
}

// The defects of `main` in a class, if they are at this position.
fn method_defects(alloc: Global, place: Place, class: &Class) -> Result<Vec<RefusalReason>, Memory>
    ensures { IfOk result (λ v. v.items ≡ method_defects place (class_of class.now) (main_among (class_of class.now).members)) }
{
    match main_among(&class.members) {
        Some(method) => {
            if place == method.place {
                form_defects(alloc, method)
            } else {
                Ok(Vec::new(alloc))
            }
        }
        None => push_defect(
            Vec::new(alloc),
            place == class.place,
            place,
            MainDefect::NoMethod,
        ),
    }
}

// The first class `Main`.
fn first_main<'a>(classes: &'a [Class]) -> Option<&'a Class>
    ensures { option_map (λ c. class_of c.now) result ≡ first_main (map class_of classes.now) }
{
    for class in classes {
        if same_name(b"Main", class.name.as_bytes()) {
            return Some(class);
        }
    }
    None
}

// The defects of the first class `Main`, if they are at this position.
fn class_defects(alloc: Global, place: Place, tree: &Tree) -> Result<Vec<RefusalReason>, Memory>
    ensures { IfOk result (λ v. v.items ≡ class_defects place (first_main (tree_of tree.now))) }
{
    match first_main(&tree.classes) {
        Some(class) => method_defects(alloc, place, class),
        None => push_defect(
            Vec::new(alloc),
            place == Place::first(),
            place,
            MainDefect::NoClass,
        ),
    }
}

// ---- the parameter elsewhere

// Adds the parameter `String[] x` of a method, if that is looked for.
fn push_parameter(
    reasons: Vec<RefusalReason>,
    here: bool,
    params: &Params,
) -> Result<Vec<RefusalReason>, Memory>
    ensures { IfOk result (λ v. v.items ≡ reasons.items ++ parameter_defect here (params_of params.now)) }
{
    match params {
        Params::MainArgs(at, _) => push_defect(reasons, here, *at, MainDefect::TextParameter),
        Params::Typed(_) => Ok(reasons),
    }
}

// Adds the parameter `String[] x` of the methods at this position.
fn push_parameters(
    reasons: Vec<RefusalReason>,
    place: Place,
    members: &[Member],
) -> Result<Vec<RefusalReason>, Memory>
    ensures { IfOk result (λ v. v.items ≡ reasons.items ++ parameters_among place (map member_of members.now)) }
{
    let mut found = reasons;
    for member in members {
        match member {
            Member::Field(_) => {}
            Member::Method(method) => {
                found = push_parameter(found, place == method.place, &method.params)?;
            }
        }
    }
    Ok(found)
}

fn parameters_in(
    alloc: Global,
    place: Place,
    classes: &[Class],
) -> Result<Vec<RefusalReason>, Memory>
    ensures { IfOk result (λ v. v.items ≡ parameters_in place (map class_of classes.now)) }
{
    let mut found = Vec::new(alloc);
    for class in classes {
        found = push_parameters(found, place, &class.members)?;
    }
    Ok(found)
}

/// The reasons why `main` is refused at this position, or another method for its parameter.
pub fn main_reasons(alloc: Global, tree: &Tree, place: Place) -> Result<Vec<RefusalReason>, Memory>
    ensures { IfOk result (λ v. v.items ≡ main_reasons (tree_of tree.now) place) }
{
    let found = class_defects(alloc, place, tree)?;
    if has_reason(&found) {
        return Ok(found);
    }
    parameters_in(alloc, place, &tree.classes)
}
