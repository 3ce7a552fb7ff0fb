// Modifiers that aren't allowed where they are.
ghost use Rattle.std.specs.Prelude.{◌≡◌, false, [], flat_map};
ghost use Rattle.ti_lang.specs.Members.{is_single_word, is_static_word};
ghost use Rattle.ti_rules.specs.Mirrors.First.{earliest};
ghost use Rattle.ti_rules.specs.Broken.Words.{repeated_modifiers, field_modifier_refusals, method_modifier_refusals};
ghost use Rattle.ti_check.specs.Mirrors.Modifiers.{repeated_after, contains_modifier, add_modifier, no_modifiers};

use ti_rules::{Refusal, Rule, earlier_of, refused_if};
use ti_syntax::tree::{Modifier, ModifierWord};

/// The set of modifiers seen so far.
#[derive(Clone, Copy)]
pub struct ModifierSet {
    pub with_public: bool,
    pub with_private: bool,
    pub with_protected: bool,
    pub with_static: bool,
    pub with_final: bool,
    pub with_single: bool,
}

impl ModifierSet {
    fn none() -> ModifierSet
        ensures { result ≡ record {
          with_public = false;
          with_private = false;
          with_protected = false;
          with_static = false;
          with_final = false;
          with_single = false;
        } }
    {
        ModifierSet {
            with_public: false,
            with_private: false,
            with_protected: false,
            with_static: false,
            with_final: false,
            with_single: false,
        }
    }

    fn has(self, word: ModifierWord) -> bool
        ensures { result ≡ contains_modifier self word }
    {
        match word {
            ModifierWord::Public => self.with_public,
            ModifierWord::Private => self.with_private,
            ModifierWord::Protected => self.with_protected,
            ModifierWord::Static => self.with_static,
            ModifierWord::Final => self.with_final,
            ModifierWord::Single => self.with_single,
        }
    }

    fn with(self, word: ModifierWord) -> ModifierSet
        ensures { result ≡ add_modifier self word }
    {
        let mut met = self;
        match word {
            ModifierWord::Public => met.with_public = true,
            ModifierWord::Private => met.with_private = true,
            ModifierWord::Protected => met.with_protected = true,
            ModifierWord::Static => met.with_static = true,
            ModifierWord::Final => met.with_final = true,
            ModifierWord::Single => met.with_single = true,
        }
        met
    }
}

fn repetition_by_set(words: &[Modifier]) -> Option<Refusal>
    ensures { result ≡ earliest (repeated_after no_modifiers words.now) }
{
    let mut found = None;
    let mut met = ModifierSet::none();
    for m in words {
        found = earlier_of(found, refused_if(met.has(m.word), Rule::Y7, m.place));
        met = met.with(m.word);
    }
    found
}

/// Y7 at the first repeated modifier.
pub fn repeated_modifiers(words: &[Modifier]) -> Option<Refusal>
    ensures { result ≡ earliest (repeated_modifiers [] words.now) }
{
    repetition_by_set(words)
}

fn is_single(word: ModifierWord) -> bool
    ensures { result ≡ is_single_word word }
{
    matches!(word, ModifierWord::Single)
}

fn is_static(word: ModifierWord) -> bool
    ensures { result ≡ is_static_word word }
{
    matches!(word, ModifierWord::Static)
}

fn field_modifier(modifier: Modifier) -> Option<Refusal>
    ensures { result ≡ earliest (field_modifier_refusals modifier) }
{
    refused_if(
        is_single(modifier.word) || is_static(modifier.word),
        Rule::Y7,
        modifier.place,
    )
}

/// The first modifier that a field can't have: `single` or `static`.
pub fn field_modifiers(words: &[Modifier]) -> Option<Refusal>
    ensures { result ≡ earliest (flat_map field_modifier_refusals words.now) }
{
    let mut found = None;
    for m in words {
        found = earlier_of(found, field_modifier(*m));
    }
    found
}

fn method_modifier(is_static: bool, modifier: Modifier) -> Option<Refusal>
    ensures { result ≡ earliest (method_modifier_refusals is_static modifier) }
{
    refused_if(
        is_single(modifier.word) && !is_static,
        Rule::Y7,
        modifier.place,
    )
}

/// The first modifier that a method can't have: `single`, if the method isn't static.
pub fn method_modifiers(is_static: bool, words: &[Modifier]) -> Option<Refusal>
    ensures { result ≡ earliest (flat_map (method_modifier_refusals is_static) words.now) }
{
    let mut found = None;
    for m in words {
        found = earlier_of(found, method_modifier(is_static, *m));
    }
    found
}
