// Worked examples of the definitions used by inference of `single` annotations (an assignment of annotations is a marking): short programs,
// with markings that satisfy a definition and markings that violate it.
ghost use Rattle.std.specs.Prelude.{◌≡◌, [], ◌∷◌, false, true, None};
ghost use Rattle.std.specs.List.{list_any};
ghost use Rattle.ti_base.specs.declared.place.Place.{Place};
ghost use Rattle.ti_lang.specs.Numbering.{IsNumbered};
ghost use Rattle.ti_blame.specs.Implications.{Satisfies, holds_conditionally};
ghost use Rattle.ti_blame.specs.Marks.{IsSubset, marks_of, marks_union};
ghost use Rattle.ti_infer.specs.Accepted.{IsAccepted};
ghost use Rattle.ti_infer.specs.Answer.{IsGreatestMarking, IsFirstUnaligned};
ghost use Rattle.ti_infer.specs.Reason.{KeepsSingle, program_blamed};
ghost use Rattle.ti_infer.specs.Collectives.{collectives};
ghost use Rattle.ti_infer.specs.Descent.{is_always, is_fixed, marks_without};
ghost use Rattle.ti_infer.specs.Fitting.{MarksFit};
ghost use Rattle.ti_infer.specs.Inferred.{IsInferred};
ghost use Rattle.ti_infer.specs.Limited.{every_one, limited_refusals};
ghost use Rattle.ti_infer.specs.Marked.{marked};
ghost use Rattle.ti_infer.specs.Mirrors.Implications.{all_reasons, program_edges};
ghost use Rattle.ti_infer.specs.Mirrors.Fits.{fit_edges};
ghost use Rattle.ti_infer.specs.Candidates.{candidate_marks};
ghost use Rattle.ti_infer.specs.Stripped.{stripped};
ghost use Rattle.ti_rows_of_laws.specs.Texts.{pl};
ghost use Rattle.ti_rows_of_laws.specs.Markings as marks;
ghost use Rattle.ti_rows_of_laws.specs.Programs as programs;

/// Accepted markings (`IsAccepted`): the marked program breaks no rule of types, qualifiers or `single`. Includes the union of two accepted
/// markings, and markings that are rejected.
pub fn markings_accepted()
    ensures the_variable { IsAccepted programs.a_sent_number (marks_of marks.the_first) }
    ensures nothing { IsAccepted programs.a_sent_number (marks_of marks.no_marks) → ⊥ }
    ensures each_of_two { IsAccepted programs.two_numbers (marks_of marks.the_second) }
    ensures both { IsAccepted programs.two_numbers (marks_union (marks_of marks.the_first) (marks_of marks.the_second)) }
    ensures a_union_with_main { IsAccepted programs.two_numbers (marks_union (marks_of marks.the_first) (marks_of marks.main)) → ⊥ }
{}

/// The greatest accepted marking of a program (`IsGreatestMarking`, `IsInferred`); not greatest are a smaller, an unsorted and a rejected marking.
pub fn greatest()
    ensures the_variable { IsGreatestMarking programs.a_sent_number marks.the_first }
    ensures both { IsGreatestMarking programs.two_numbers marks.both_marks }
    ensures one_of_two { IsGreatestMarking programs.two_numbers marks.the_first → ⊥ }
    ensures not_in_order { IsGreatestMarking programs.two_numbers marks.both_falling → ⊥ }
    ensures one_that_is_not_accepted { IsGreatestMarking programs.an_own_number marks.the_first → ⊥ }
    ensures inferred { IsInferred programs.a_sent_number (candidate_marks programs.a_sent_number) marks.the_first None }
    ensures less { IsInferred programs.a_sent_number (candidate_marks programs.a_sent_number) marks.no_marks None → ⊥ }
{}

/// The first collective that no marking aligns (`IsFirstUnaligned`); it is neither a later collective nor a location without one, and
/// a program with an accepted marking has none.
pub fn first_unaligned()
    ensures collectives { collectives programs.an_own_number ≡ pl 1 104 ∷ pl 1 118 ∷ [] }
    ensures the_first_barrier { IsFirstUnaligned programs.an_own_number (pl 1 104) }
    ensures the_second_barrier { IsFirstUnaligned programs.an_own_number (pl 1 118) → ⊥ }
    ensures no_collective { IsFirstUnaligned programs.an_own_number (pl 1 66) → ⊥ }
    ensures where_a_marking_is_accepted { (at : Place) → IsFirstUnaligned programs.a_sent_number at → ⊥ }
{}

/// The rules on `single`, checked for all collectives or for none: by the reasons that inference collects (`KeepsSingle`) and by the
/// rules themselves (`limited_refusals`).
pub fn rules()
    ensures by_reasons { KeepsSingle every_one programs.a_sent_number (marks_of marks.the_first) }
    ensures against_reasons { KeepsSingle every_one programs.an_own_number (marks_of marks.no_marks) → ⊥ }
    ensures by_rules { limited_refusals every_one (marked (marks_of marks.the_first) programs.a_sent_number) ≡ [] }
    ensures against_rules { limited_refusals every_one programs.an_own_number ≡ [] → ⊥ }
    ensures no_collective_counts { limited_refusals (λ at. false) programs.an_own_number ≡ [] }
    ensures no_reason_counts { KeepsSingle (λ at. false) programs.an_own_number (marks_of marks.no_marks) }
{}

/// Steps of the descent to the greatest marking: an annotation that a violation removes (`marks_without`), one that stays, and violations that
/// removing annotations can't resolve (`is_fixed`, `is_always`).
pub fn descent()
    ensures the_variable_falls { IsSubset (marks_of marks.the_first)
        (marks_without (program_blamed programs.an_own_number (marks_of marks.the_first)) (marks_of marks.the_first)) → ⊥ }
    ensures the_variable_stays { IsSubset (marks_of marks.the_first)
        (marks_without (program_blamed programs.a_sent_number (marks_of marks.the_first)) (marks_of marks.the_first)) }
    ensures a_barrier_is_fixed { list_any (is_fixed every_one) (program_blamed programs.an_own_number (marks_of marks.no_marks)) ≡ true }
    ensures a_jump_is_always { list_any is_always (program_blamed programs.an_update_that_jumps (marks_of marks.no_marks)) ≡ true }
{}

/// Declarations that can be annotated (`MarksFit`), and dependencies between annotations that a marking keeps or breaks (`Satisfies`).
pub fn edges()
    ensures a_mark_fits { MarksFit (marks_of marks.the_first) programs.a_sent_number }
    ensures main_is_marked { MarksFit (marks_of marks.main) programs.a_sent_number → ⊥ }
    ensures kept { Satisfies (holds_conditionally every_one (marks_of marks.the_first)) (all_reasons programs.a_sent_number)
        (program_edges programs.a_sent_number) }
    ensures broken { Satisfies (holds_conditionally every_one (marks_of marks.no_marks)) (all_reasons programs.an_own_number)
        (program_edges programs.an_own_number) → ⊥ }
    ensures main_falls { Satisfies (holds_conditionally every_one (marks_of marks.main)) (all_reasons programs.a_sent_number)
        (fit_edges programs.a_sent_number) → ⊥ }
{}

/// Removing all annotations but that of `main` (`stripped`): a program without others is unchanged, one with another is not, and the result
/// for a program without `main` is not the resolved program of any source (`IsNumbered`).
pub fn stripped_programs()
    ensures nothing_to_take_off { stripped programs.two_numbers ≡ programs.two_numbers }
    ensures a_mark_to_take_off { stripped (marked (marks_of marks.the_first) programs.two_numbers)
        ≡ marked (marks_of marks.the_first) programs.two_numbers → ⊥ }
    ensures of_no_text { ∥ IsNumbered (stripped programs.program_without_methods) ∥₁ → ⊥ }
{}
