// Qualifiers that aren't allowed where they are (Y7).
ghost use Rattle.std.specs.Prelude.{◌≡◌, ◌||◌, [], map, false, if◌then◌else◌, flat_map};
ghost use Rattle.ti_syntax.specs.Trees.Views.{grid_of};
ghost use Rattle.ti_lang.specs.Scopes.{is_single_word};
ghost use Rattle.ti_lang.specs.Program.Views.{value_type_of, type_use_of};
ghost use Rattle.ti_rules.specs.Refusals.{refused_if};
ghost use Rattle.ti_rules.specs.Mirrors.First.{earliest};
ghost use Rattle.ti_rules.specs.declared.rule.Rule.TheVariants.{Y7};
ghost use Rattle.ti_rules.specs.Broken.Words.{repeated_qualifiers, base_of, is_grid_type, base_word_refusals, grid_word_refusals, grid_refusals, type_word_refusals};
ghost use Rattle.ti_lang.specs.Typing.Kinds.{is_object};
ghost use Rattle.ti_types.specs.Mirrors.Words.{qualifiers_again};

use ti_lang::program::{Ty, TypeUse};
use ti_rules::{Refusal, Rule, earlier_of, refused_if};
use ti_syntax::tree::{Brackets, Qualifier, QualifierWord};

fn is_single_word(word: QualifierWord) -> bool
    ensures { result ≡ is_single_word word }
{
    match word {
        QualifierWord::Single => true,
        QualifierWord::Local => false,
    }
}

fn choose(test: bool, yes: bool, no: bool) -> bool
    ensures { result ≡ (if test then yes else no) }
{
    if test { yes } else { no }
}

fn any_flag(left: bool, right: bool) -> bool
    ensures { result ≡ left || right }
{
    left || right
}

fn word_repetition(qualifier: Qualifier, had_single: bool, had_local: bool) -> Option<Refusal>
    ensures { result ≡ earliest (refused_if (if is_single_word qualifier.word then had_single else had_local) Y7 qualifier.place) }
{
    let had = choose(is_single_word(qualifier.word), had_single, had_local);
    refused_if(had, Rule::Y7, qualifier.place)
}

fn repetition_by_flags(words: &[Qualifier]) -> Option<Refusal>
    ensures { result ≡ earliest (qualifiers_again false false words.now) }
{
    let mut found = None;
    let mut had_single = false;
    let mut had_local = false;
    for q in words {
        let single = is_single_word(q.word);
        found = earlier_of(found, word_repetition(*q, had_single, had_local));
        had_single = any_flag(had_single, single);
        had_local = any_flag(had_local, !single);
    }
    found
}

fn is_of_class(ty: &Ty) -> bool
    ensures { result ≡ is_object (base_of (value_type_of ty.now)) }
{
    match ty {
        Ty::Class { class: _, local: _ } => true,
        Ty::Grid {
            elem,
            dim: _,
            local: _,
        } => is_of_class(elem),
        _ => false,
    }
}

fn is_grid_type(ty: &Ty) -> bool
    ensures { result ≡ is_grid_type (value_type_of ty.now) }
{
    matches!(
        ty,
        Ty::Grid {
            elem: _,
            dim: _,
            local: _
        }
    )
}

fn base_word(may_be_single: bool, ty: &Ty, qualifier: Qualifier) -> Option<Refusal>
    ensures { result ≡ earliest (base_word_refusals may_be_single (value_type_of ty.now) qualifier) }
{
    let of_class = is_of_class(ty);
    if is_single_word(qualifier.word) {
        refused_if(
            of_class || is_grid_type(ty) || !may_be_single,
            Rule::Y7,
            qualifier.place,
        )
    } else {
        refused_if(!of_class, Rule::Y7, qualifier.place)
    }
}

fn base_words(may_be_single: bool, ty: &Ty, words: &[Qualifier]) -> Option<Refusal>
    ensures { result ≡ earliest (flat_map (base_word_refusals may_be_single (value_type_of ty.now)) words.now) }
{
    let mut found = None;
    for q in words {
        found = earlier_of(found, base_word(may_be_single, ty, *q));
    }
    found
}

fn grid_word(qualifier: Qualifier) -> Option<Refusal>
    ensures { result ≡ earliest (grid_word_refusals qualifier) }
{
    refused_if(is_single_word(qualifier.word), Rule::Y7, qualifier.place)
}

fn grid_words(words: &[Qualifier]) -> Option<Refusal>
    ensures { result ≡ earliest (flat_map grid_word_refusals words.now) }
{
    let mut found = None;
    for q in words {
        found = earlier_of(found, grid_word(*q));
    }
    found
}

/// The first repeated qualifier.
#[tactic(auto, using(crate::proofs::Repeated::repeated))]
fn first_repetition(words: &[Qualifier]) -> Option<Refusal>
    ensures { result ≡ earliest (repeated_qualifiers [] words.now) }
{
    repetition_by_flags(words)
}

#[tactic(auto, using(ti_rules::proofs::Lemmas::firsts))]
fn one_grid(grid: &Brackets) -> Option<Refusal>
    ensures { result ≡ earliest (grid_refusals (grid_of grid.now)) }
{
    earlier_of(
        first_repetition(&grid.qualifiers),
        grid_words(&grid.qualifiers),
    )
}

fn all_grids(grids: &[Brackets]) -> Option<Refusal>
    ensures { result ≡ earliest (flat_map grid_refusals (map grid_of grids.now)) }
{
    let mut found = None;
    for grid in grids {
        found = earlier_of(found, one_grid(grid));
    }
    found
}

/// The first error in a type's qualifiers; `may_be_single` says whether the type may have the qualifier `single`.
#[tactic(auto, using(ti_rules::proofs::Lemmas::firsts))]
pub fn type_words(may_be_single: bool, type_use: &TypeUse) -> Option<Refusal>
    ensures { result ≡ earliest (type_word_refusals may_be_single (type_use_of type_use.now)) }
{
    let words = earlier_of(
        first_repetition(&type_use.qualifiers),
        base_words(may_be_single, &type_use.ty, &type_use.qualifiers),
    );
    earlier_of(words, all_grids(&type_use.grids))
}
