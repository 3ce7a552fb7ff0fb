// Theorems on types: functions with an empty body, whose contracts are the theorems.
ghost use Rattle.std.specs.Prelude.{◌≡◌, All, Some};
ghost use Rattle.ti_lang.specs.Program.Types.{ValueType};
ghost use Rattle.ti_lang.specs.Program.Expressions.{NumberedExp};
ghost use Rattle.ti_lang.specs.Program.Classes.{ProgramView};
ghost use Rattle.ti_lang.specs.Program.Scope.{ScopeContents};
ghost use Rattle.ti_lang.specs.Typing.Expressions.{expr_type};
ghost use Rattle.ti_rules.specs.declared.rule.Rule.TheVariants.{Y7};
ghost use Rattle.ti_rules.specs.declared.refusal.Refusal.{Refusal};
ghost use Rattle.ti_rules.specs.Broken.Expressions.{exp_refusals};

/// Theorem: an expression that has a type has no type error except Y7 (on qualifiers).
///
/// A qualifier that isn't allowed in the type of a cast is ignored by typing.
pub fn typed_breaks_words_alone()
    ensures { (p : ProgramView) (s : ScopeContents) (e : NumberedExp) (t : ValueType) → expr_type p s e ≡ Some t
        → All (λ (r : Refusal). r.rule ≡ Y7) (exp_refusals p s e) }
{}
