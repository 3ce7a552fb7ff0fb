// Theorems about the reasons: functions with empty bodies whose contracts are the theorems.
ghost use Rattle.std.specs.Prelude.{◌≡◌, ℕ, Bool, true, List, [], Option, is_none, is_some};
ghost use Rattle.ti_syntax.specs.Trees.Classes.{TextTree};
ghost use Rattle.ti_lang.specs.Program.Expressions.{NumberedExp};
ghost use Rattle.ti_lang.specs.Program.Statements.{NumberedInit, NumberedStm};
ghost use Rattle.ti_lang.specs.Program.Classes.{NumberedMethod, ProgramView};
ghost use Rattle.ti_lang.specs.Program.Scope.{this_of};
ghost use Rattle.ti_lang.specs.Typing.Singleness.{is_single_part, is_single, is_single_initial};
ghost use Rattle.ti_lang.specs.Typing.Effects.{doings, return_acts, has_global_effects};
ghost use Rattle.ti_rules.specs.declared.rule.Rule.TheVariants.{N3, S9};
ghost use Rattle.ti_rules.specs.declared.refusal.Refusal.{Refusal as RefusalSeen};
ghost use Rattle.ti_rules.specs.BrokenNames.{BreaksNames};
ghost use Rattle.ti_explain.specs.declared.reason.RefusalReason.{RefusalReason};
ghost use Rattle.ti_explain.specs.SingleReasons.{AreSingleReasons, names_cause};
ghost use Rattle.ti_explain.specs.RefusedNames.{refused_name_reasons};
ghost use Rattle.ti_explain.specs.PlainParts.{plain_part, plain_whole, plain_initial};
ghost use Rattle.ti_explain.specs.FirstEffects.{first_effect};

/// A plain part is named exactly where an operand, a whole right-hand side or an initializer isn't single.
pub fn plain_parts_are_named()
    ensures operands { (p : ProgramView) (this : Option ℕ) (singles : ℕ → Bool) (e : NumberedExp)
        → is_none (plain_part p this singles e) ≡ is_single_part p this singles e }
    ensures wholes { (p : ProgramView) (this : Option ℕ) (singles : ℕ → Bool) (e : NumberedExp)
        → is_none (plain_whole p this singles e) ≡ is_single p this singles e }
    ensures initials { (p : ProgramView) (this : Option ℕ) (singles : ℕ → Bool) (e : NumberedInit)
        → is_none (plain_initial p this singles e) ≡ is_single_initial p this singles e }
{}

/// An effect is named exactly where a statement has global effects, given whether a jump out of the innermost enclosing loop has one.
pub fn effects_are_named()
    ensures { (p : ProgramView) (m : NumberedMethod) (jump_has : Bool) (x : NumberedStm)
        → is_some (first_effect p m jump_has x) ≡ has_global_effects (return_acts p m) jump_has (doings p (this_of m) x) }
{}

/// Each refusal by the rules of single values but S9 has a reason that names a plain part or a global effect.
pub fn singles_are_explained()
    ensures { (p : ProgramView) (refusal : RefusalSeen) (reasons : List RefusalReason) → AreSingleReasons p refusal reasons
        → (refusal.rule ≡ S9 → ⊥) → names_cause reasons ≡ true }
{}

/// A refusal by the rule of `main` has a reason.
pub fn main_is_explained()
    ensures { (text : TextTree) (r : RefusalSeen) → BreaksNames text r → r.rule ≡ N3 → refused_name_reasons text r ≡ [] → ⊥ }
{}
