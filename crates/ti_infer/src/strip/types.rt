// Removes `single` from modifiers, qualifiers and types.
ghost use Rattle.std.specs.Prelude.{◌≡◌, not};
ghost use Rattle.ti_syntax.specs.Trees.Views.{grid_of};
ghost use Rattle.ti_lang.specs.Members as modifiers;
ghost use Rattle.ti_lang.specs.Scopes as qualifiers;
ghost use Rattle.ti_lang.specs.Program.Views.{type_use_of};
ghost use Rattle.ti_infer.specs.Stripped.{plain_words, plain_modifiers, plain_grid, plain_type};

use crate::strip::lists::{Stripped, strip_each};
use ti_lang::program::TypeUse;
use ti_syntax::tree::{Brackets, Modifier, ModifierWord, Qualifier, QualifierWord};

fn is_single_word(word: QualifierWord) -> bool
    ensures { result ≡ qualifiers.is_single_word word }
{
    matches!(word, QualifierWord::Single)
}

fn is_single_modifier(word: ModifierWord) -> bool
    ensures { result ≡ modifiers.is_single_word word }
{
    matches!(word, ModifierWord::Single)
}

fn strip_qualifiers(words: &mut Vec<Qualifier>)
    ensures { words.new.items ≡ plain_words words.old.items }
{
    words.retain(
        |q: &Qualifier| -> bool
            ensures { result ≡ not (qualifiers.is_single_word q.now.word) }
        { !is_single_word(q.word) },
    );
}

/// Removes `single` from a list of modifiers.
pub fn strip_modifiers(words: &mut Vec<Modifier>)
    ensures { words.new.items ≡ plain_modifiers words.old.items }
{
    words.retain(
        |word: &Modifier| -> bool
            ensures { result ≡ not (modifiers.is_single_word word.now.word) }
        { !is_single_modifier(word.word) },
    );
}

impl Stripped for Brackets {
    ghost plain = { λ a b. grid_of b ≡ plain_grid (grid_of a) };

    fn strip(&mut self) {
        strip_qualifiers(&mut self.qualifiers);
    }
}

/// Removes `single` from a type: clears its flag, and removes it from the qualifiers after its base type and after each pair of brackets.
#[tactic(auto, using(crate::proofs::PlainParts::plain_lists))]
pub fn strip_type(ty: &mut TypeUse)
    ensures { type_use_of ty.new ≡ plain_type (type_use_of ty.old) }
{
    ty.single = false;
    strip_qualifiers(&mut ty.qualifiers);
    strip_each(&mut ty.grids);
}
