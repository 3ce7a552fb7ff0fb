// Theorems about the rules: functions with empty bodies whose contracts are the theorems.
ghost use Rattle.std.specs.Prelude.{◌≡◌, [], Contains, Some, None};
ghost use Rattle.ti_lang.specs.Program.Expressions.{NumberedExp};
ghost use Rattle.ti_lang.specs.Program.Classes.{ProgramView};
ghost use Rattle.ti_lang.specs.Program.Scope.{ScopeContents};
ghost use Rattle.ti_lang.specs.Typing.Expressions.{expr_type};
ghost use Rattle.ti_rules.specs.Known.{IsThere, IsKnown};
ghost use Rattle.ti_rules.specs.StmtInContext.{StmtInContext, standing_in};
ghost use Rattle.ti_rules.specs.Broken.Expressions.{exp_refusals};
ghost use Rattle.ti_rules.specs.Broken.Statements.{standing_refusals};
ghost use Rattle.ti_rules.specs.SingleRules.{standing_single_refusals};
ghost use Rattle.ti_rules.specs.declared.refusal.Refusal.{Refusal};
ghost use Rattle.ti_rules.specs.ProgramRefusals.{IsProgramRefusal, BreaksNothing};
ghost use Rattle.ti_rules.specs.Mirrors.ProgramRefusal.{program_refusal};

/// An expression whose references refer to something, and in which no typing rule is broken, has a type.
pub fn typed_where_unbroken()
    ensures { (p : ProgramView) (s : ScopeContents) (e : NumberedExp) → IsKnown p s e → exp_refusals p s e ≡ []
        → IsThere (expr_type p s e) }
{}

/// In a program that breaks no rule, no statement in its context does.
pub fn checked_standing()
    ensures types { (p : ProgramView) (x : StmtInContext) → BreaksNothing p → Contains (standing_in p) x → standing_refusals p x ≡ [] }
    ensures single { (p : ProgramView) (x : StmtInContext) → BreaksNothing p → Contains (standing_in p) x → standing_single_refusals p x
        ≡ [] }
{}

/// A program breaks no rule, or has exactly one first error, and never both; `program_refusal` computes which.
pub fn one_program_refusal()
    ensures found { (p : ProgramView) (r : Refusal) → program_refusal p ≡ Some r → IsProgramRefusal p r }
    ensures none { (p : ProgramView) → program_refusal p ≡ None → BreaksNothing p }
    ensures only { (p : ProgramView) (r s : Refusal) → IsProgramRefusal p r → IsProgramRefusal p s → r ≡ s }
    ensures not_both { (p : ProgramView) (r : Refusal) → BreaksNothing p → IsProgramRefusal p r → ⊥ }
{}
