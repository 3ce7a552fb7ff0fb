// Theorems about markings: functions with an empty body whose contracts are the theorems.
ghost use Rattle.std.specs.Prelude.{◌≡◌, not, Bool, true, false, List, [], ◌++◌, Option};
ghost use Rattle.std.specs.List.{list_any};
ghost use Rattle.ti_base.specs.declared.place.Place.{Place};
ghost use Rattle.ti_lang.specs.Program.Classes.{ProgramView};
ghost use Rattle.ti_lang.specs.Numbering.{IsNumbered};
ghost use Rattle.ti_rules.specs.TypeRules.{type_refusals};
ghost use Rattle.ti_rules.specs.SingleRules.{single_refusals};
ghost use Rattle.ti_infer.specs.Accepted.{IsAccepted};
ghost use Rattle.ti_infer.specs.Answer.{IsGreatestMarking, IsFirstUnaligned};
ghost use Rattle.ti_infer.specs.Fitting.{MarksFit};
ghost use Rattle.ti_blame.specs.Marks.{Marks, IsSubset, marks_union};
ghost use Rattle.ti_infer.specs.Marked.{marked, marks_main};
ghost use Rattle.ti_infer.specs.Stripped.{stripped, HavePlainResults};
ghost use Rattle.ti_infer.specs.Limited.{every_one, limited_refusals};
ghost use Rattle.ti_infer.specs.Reason.{program_blamed, KeepsSingle};
ghost use Rattle.ti_infer.specs.Collectives.{collectives};
ghost use Rattle.ti_infer.specs.Descent.{marks_without, is_fixed, is_always};
ghost use Rattle.ti_infer.specs.Inferred.{IsInferred};
ghost use Rattle.ti_infer.specs.Mirrors.Implications.{all_reasons, program_edges};
ghost use Rattle.ti_infer.specs.Mirrors.Fits.{fit_edges};
ghost use Rattle.ti_blame.specs.declared.reason.Reason.{Reason};
ghost use Rattle.ti_blame.specs.declared.mark.Mark.{Mark};
ghost use Rattle.ti_blame.specs.Implications.{holds_conditionally, Satisfies};
ghost use Rattle.ti_blame.specs.Solutions.{IsSolution};

/// If a program breaks no rule of single values under two markings, it breaks none under their union, whichever collectives are
/// considered.
pub fn union_keeps_single_rules()
    ensures { (counts : Place → Bool) (p : ProgramView) (m n : Marks) → KeepsSingle counts p m → KeepsSingle counts p n
        → KeepsSingle counts p (marks_union m n) }
{}

/// For any set of considered collectives, the rules by reasons are the rules of single values of the marked program, if no result of the
/// program has the qualifier `single`, as in a stripped one. If all collectives are considered, these are the rules by which programs are
/// checked.
pub fn reasons_are_rules()
    ensures by_rules { (counts : Place → Bool) (p : ProgramView) (m : Marks) → limited_refusals counts (marked m p) ≡ []
        → KeepsSingle counts p m }
    ensures by_reasons { (counts : Place → Bool) (p : ProgramView) (m : Marks) → HavePlainResults p.methods → KeepsSingle counts p m
        → limited_refusals counts (marked m p) ≡ [] }
    ensures all { (p : ProgramView) → limited_refusals every_one p ≡ single_refusals p }
    ensures stripped { (p : ProgramView) → HavePlainResults (stripped p).methods }
{}

/// The fewer collectives are considered, the more markings keep the rules. If all collectives of the program are considered, the rules
/// are those with every place considered.
pub fn fewer_collectives()
    ensures fewer { (fewer more : Place → Bool) (p : ProgramView) (m : Marks) → ((at : Place) → fewer at ≡ true → more at ≡ true)
        → KeepsSingle more p m → KeepsSingle fewer p m }
    ensures all { (counts : Place → Bool) (p : ProgramView) (m : Marks)
        → list_any (λ at. not (counts at)) (collectives p) ≡ false → KeepsSingle counts p m
        → KeepsSingle every_one p m }
{}

/// Removing what is to blame loses no subset that keeps the rules. If that removes nothing and nothing fixed is to blame, the rules are
/// kept; if something fixed is to blame, no subset keeps them.
pub fn greatest_is_found()
    ensures stays { (counts : Place → Bool) (p : ProgramView) (a u : Marks) → IsSubset a u → KeepsSingle counts p a
        → IsSubset a (marks_without (program_blamed p u) u) }
    ensures ends { (counts : Place → Bool) (p : ProgramView) (u : Marks) → IsSubset u (marks_without (program_blamed p u) u)
        → list_any (is_fixed counts) (program_blamed p u) ≡ false → KeepsSingle counts p u }
    ensures none { (counts : Place → Bool) (p : ProgramView) (a u : Marks) → IsSubset a u → KeepsSingle counts p a
        → list_any (is_fixed counts) (program_blamed p u) ≡ true → ⊥ }
{}

/// If a program breaks no rule of types and qualifiers, its marked program breaks none if and only if all annotations are allowed where
/// they are.
pub fn marks_and_types()
    ensures fits { (p : ProgramView) (m : Marks) → type_refusals p ≡ [] → MarksFit m p → type_refusals (marked m p) ≡ [] }
    ensures fit { (p : ProgramView) (m : Marks) → type_refusals (marked m p) ≡ [] → MarksFit m p }
{}

/// The union of two accepted markings is accepted.
pub fn union_is_accepted()
    ensures { (p : ProgramView) (m n : Marks) → type_refusals p ≡ [] → HavePlainResults p.methods → IsAccepted p m → IsAccepted p n
        → IsAccepted p (marks_union m n) }
{}

/// A marking that breaks no rule of single values satisfies the constraints of a program, and conversely if nothing is unconditionally to
/// blame under it. A marking whose annotations are allowed where they are satisfies the constraints that rule out others, and conversely
/// if the program breaks no rule of types and qualifiers.
pub fn edges_are_rules()
    ensures kept { (counts : Place → Bool) (p : ProgramView) (m : Marks) → KeepsSingle counts p m
        → Satisfies (holds_conditionally counts m) (all_reasons p) (program_edges p) }
    ensures keeps { (counts : Place → Bool) (p : ProgramView) (m : Marks) → list_any is_always (program_blamed p m) ≡ false
        → Satisfies (holds_conditionally counts m) (all_reasons p) (program_edges p) → KeepsSingle counts p m }
    ensures fits { (counts : Place → Bool) (m : Marks) (items : List Reason) (p : ProgramView) → MarksFit m p
        → Satisfies (holds_conditionally counts m) items (fit_edges p) }
    ensures fit { (counts : Place → Bool) (m : Marks) (items : List Reason) (p : ProgramView) → type_refusals p ≡ []
        → Satisfies (holds_conditionally counts m) items (fit_edges p) → MarksFit m p }
{}

/// The solution of the constraints is the greatest accepted marking, or has the first collective that no marking aligns. Requires that
/// nothing is unconditionally to blame, as in a parsed program.
pub fn settled_is_inferred()
    ensures { (p : ProgramView) (names marks : List Mark) (first : Option Place) → type_refusals p ≡ [] → HavePlainResults p.methods
        → ((m : Marks) → list_any is_always (program_blamed p m) ≡ false)
        → IsSolution names (all_reasons p) (program_edges p ++ fit_edges p) marks first → IsInferred p names marks first }
{}

/// If a program is the result of name resolution of some source, so is its stripped program.
pub fn stripped_is_numbered()
    ensures { (p : ProgramView) → ∥ IsNumbered p ∥₁ → ∥ IsNumbered (stripped p) ∥₁ }
{}

/// If a stripped program is the result of name resolution of some source, so is its marked program, whose source has `single` where the
/// marking has an annotation; each use of a variable agrees with its declaration. Requires that `main` isn't annotated, which holds if
/// the marked program breaks no rule of types and qualifiers.
pub fn marked_is_numbered()
    ensures numbered { (p : ProgramView) (m : Marks) → ∥ IsNumbered p ∥₁ → stripped p ≡ p → marks_main m p ≡ false
        → ∥ IsNumbered (marked m p) ∥₁ }
    ensures main { (p : ProgramView) (m : Marks) → ∥ IsNumbered p ∥₁ → type_refusals (marked m p) ≡ [] → marks_main m p ≡ false }
{}

/// In the stripped program of some source nothing is unconditionally to blame, under any marking: no statement calls `main`, and no
/// update has a jump in it.
pub fn nothing_blamed_in_any_case()
    ensures { (p : ProgramView) (m : Marks) → ∥ IsNumbered p ∥₁ → type_refusals p ≡ [] → stripped p ≡ p
        → list_any is_always (program_blamed p m) ≡ false }
{}

/// Stripping a program twice is stripping it once.
pub fn stripped_once()
    ensures { (p : ProgramView) → stripped (stripped p) ≡ stripped p }
{}

/// A program has at most one greatest marking and at most one first collective that no marking aligns, and never both.
pub fn one_inference()
    ensures one_marking { (p : ProgramView) (m n : List Mark) → IsGreatestMarking p m → IsGreatestMarking p n → m ≡ n }
    ensures one_place { (p : ProgramView) (a b : Place) → IsFirstUnaligned p a → IsFirstUnaligned p b → a ≡ b }
    ensures never_both { (p : ProgramView) (m : List Mark) (a : Place) → IsGreatestMarking p m → IsFirstUnaligned p a → ⊥ }
{}
