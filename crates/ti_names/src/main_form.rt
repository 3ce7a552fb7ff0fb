// The main method: that it exists and is declared as required, and that no other method has the parameter `String[] x`.

ghost use Rattle.std.specs.Prelude.{◌≡◌, ◌&&◌, map, IfOk};
ghost use Rattle.ti_syntax.specs.Trees.Text.{tree_of};
ghost use Rattle.ti_syntax.specs.Trees.Views.{method_of, params_of, result_of};
ghost use Rattle.ti_lang.specs.Members.{methods_of};
ghost use Rattle.ti_rules.specs.Mirrors.First.{earliest};
ghost use Rattle.ti_lang.specs.MainForm.{is_public_word, is_public, is_void, is_words, has_main_form};
ghost use Rattle.ti_rules.specs.MainForm.{is_another, main_class, main_method, form_refusals, words_refusals, main_refusals};
ghost use Rattle.ti_names.specs.MethodDecl.{method_decl_of};
ghost use Rattle.ti_names.specs.Seen.{text_of_tables};

use crate::checks::is_another;
use crate::method_decls::MethodDecl;
use crate::number::next_number;
use crate::tables::Tables;
use ti_base::{Memory, Place};
use ti_lang::program::{has_static, is_single};
use ti_rules::{Refusal, Rule, earlier_of, refused_if};
use ti_syntax::tree::{Method, Modifier, ModifierWord, Params, ResultDecl, Tree};

fn is_public_word(word: ModifierWord) -> bool
    ensures { result ≡ is_public_word word }
{
    matches!(word, ModifierWord::Public)
}

fn is_public(words: &[Modifier]) -> bool
    ensures { result ≡ is_public words.now }
{
    words.iter().any(|modifier| is_public_word(modifier.word))
}

fn is_void(result_type: &ResultDecl) -> bool
    ensures { result ≡ is_void (result_of result_type.now) }
{
    match result_type {
        ResultDecl::Void(_) => true,
        ResultDecl::Typed(_) => false,
    }
}

fn is_words(params: &Params) -> bool
    ensures { result ≡ is_words (params_of params.now) }
{
    match params {
        Params::MainArgs(_, _) => true,
        Params::Typed(_) => false,
    }
}

/// Whether the method is declared `public static single void .. (String[] x)`, with the modifiers in any order.
fn has_main_form(method: &Method) -> bool
    ensures { result ≡ has_main_form (method_of method.now) }
{
    let words = &method.modifiers;
    (words.len() == 3 && is_public(words))
        && (has_static(words) && is_single(words))
        && (is_void(&method.result) && is_words(&method.params))
}

/// The number of method `main` of class `Main`.
pub fn main_method(tables: &Tables<'_>) -> Option<u32>
    ensures { result ≡ main_method (text_of_tables tables.now) }
{
    match tables.class(b"Main") {
        Some(class) => tables.method(class, b"main"),
        None => None,
    }
}

/// N3 if there is no `main` or it isn't declared as required: at the method, else at class `Main`, else at the start of the source.
#[tactic(auto, using(ti_rules::proofs::Lemmas::first_nil))]
fn check_form(
    tree: &Tree,
    methods: &[MethodDecl<'_>],
    class: Option<u32>,
    number: Option<u32>,
) -> Option<Refusal>
    requires { map method_decl_of methods.now ≡ methods_of (tree_of tree.now) }
    ensures { result ≡ earliest (form_refusals (tree_of tree.now) class number) }
{
    let Some(class) = class else {
        return refused_if(true, Rule::N3, Place::first());
    };
    let Some(number) = number else {
        return match tree.classes.get(class as usize) {
            Some(class) => refused_if(true, Rule::N3, class.place),
            None => None,
        };
    };
    match methods.get(number as usize) {
        Some(own) => refused_if(!has_main_form(own.method), Rule::N3, own.method.place),
        None => None,
    }
}

/// Whether method `number` has a parameter `String[] x` and isn't `main`.
fn is_words_elsewhere(own: MethodDecl<'_>, main: Option<u32>, number: u32) -> bool
    ensures { result ≡ (is_words (method_decl_of own.entry).method.params && is_another main number) }
{
    is_words(&own.method.params) && is_another(main, number)
}

/// N3 at each method other than `main` that has a parameter `String[] x`; the first by position.
#[tactic(auto, using(crate::proofs::Firsts::none_sooner))]
fn check_words(methods: &[MethodDecl<'_>], main: Option<u32>) -> Result<Option<Refusal>, Memory>
    ensures { IfOk result (λ r. r ≡ earliest (words_refusals main 0 (map method_decl_of methods.now))) }
{
    let mut found = None;
    let mut number = 0;
    for own in methods {
        let elsewhere = is_words_elsewhere(*own, main, number);
        found = earlier_of(found, refused_if(elsewhere, Rule::N3, own.method.place));
        number = next_number(number)?;
    }
    Ok(found)
}

/// The first broken rule on `main`.
#[tactic(auto, using(ti_rules::proofs::Lemmas::firsts))]
pub fn check_main(
    tree: &Tree,
    tables: &Tables<'_>,
    methods: &[MethodDecl<'_>],
) -> Result<Option<Refusal>, Memory>
    requires tables { text_of_tables tables.now ≡ tree_of tree.now }
    requires methods { map method_decl_of methods.now ≡ methods_of (tree_of tree.now) }
    ensures { IfOk result (λ r. r ≡ earliest (main_refusals (tree_of tree.now))) }
{
    let number = main_method(tables);
    let form = check_form(tree, methods, tables.class(b"Main"), number);
    Ok(earlier_of(form, check_words(methods, number)?))
}
