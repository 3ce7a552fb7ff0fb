// Counterexamples to the theorems about runs: rejected programs, and entries that are no run, for which what a theorem states is false.
// They show that no theorem holds of everything.
ghost use Rattle.std.specs.Prelude.{[], true, pos};
ghost use Rattle.ti_base.specs.declared.action.Action.TheVariants as act;
ghost use Rattle.ti_base.specs.declared.value.Value.TheVariants as v;
ghost use Rattle.ti_lang.specs.Program.Types.{Int};
ghost use Rattle.ti_lang.specs.Meaning.Answers.{HasForm};
ghost use Rattle.ti_lang.specs.Meaning.Comp.{ToBeDone};
ghost use Rattle.ti_lang.specs.Meaning.Histories.{history_of};
ghost use Rattle.ti_lang.specs.Meaning.HeapAnswers.{IsAnswered};
ghost use Rattle.ti_lang.specs.Meaning.Runs.{IsRun, IsSolo};
ghost use Rattle.ti_lang.specs.Typing.Expressions.{expr_type};
ghost use Rattle.ti_rules.specs.Known.{IsThere};
ghost use Rattle.ti_rules.specs.ProgramRefusals.{BreaksNothing};
ghost use Rattle.ti_rules.specs.declared.rule.Rule.TheVariants.{Y2, Q1, S1, S4};
ghost use Rattle.ti_align.specs.declared.slices.SliceStep.TheVariants.{Ended};
ghost use Rattle.ti_align.specs.Alignment.{ArrivalsAgree, NoneAfterEnd, NoneStuck, IsAligned};
ghost use Rattle.ti_align.specs.Answering.{AnswersFit};
ghost use Rattle.ti_align.specs.Counted.{CellsCounted};
ghost use Rattle.ti_align.specs.Dangling.{NothingDangles};
ghost use Rattle.ti_align.specs.Formed.{ActionsFormed};
ghost use Rattle.ti_align.specs.Heap.{Elements, FieldsFit, FieldsStorable, KeepsTypes};
ghost use Rattle.ti_rules.specs.Mirrors.Literals.{LiteralsFit};
ghost use Rattle.ti_align.specs.Names.{RunNamesFit};
ghost use Rattle.ti_align.specs.Owners.{OwnersKept};
ghost use Rattle.ti_align.specs.Placed.{ThingsPlaced};
ghost use Rattle.ti_align.specs.Scoped.{VariablesInScope};
ghost use Rattle.ti_align.specs.Slice.{SliceAnswers, SliceTells};
ghost use Rattle.ti_align.specs.Stopping.{NoneImpossible, RoundsBalance, RegionsMade};
ghost use Rattle.ti_align.specs.Typed.{RunTyped, TakenAsGiven};
ghost use Rattle.ti_rows.specs.Texts.{pl};
ghost use Rattle.ti_rows.specs.Histories.{thing};
ghost use Rattle.ti_rows.specs.Answers.{Refuses};
ghost use Rattle.ti_rows.specs.Failing.{by_two, FailsFor, FailsOn};
ghost use Rattle.ti_rows.specs.Refused.Types as types_refused;
ghost use Rattle.ti_rows.specs.Refused.Singles as singles;
ghost use Rattle.ti_rows.specs.Rows.Collectives as collectives;
ghost use Rattle.ti_rows.specs.Refuted.Programs as programs;
ghost use Rattle.ti_rows.specs.Refuted.Entries as entries;

/// These programs, for which facts of every run are false, are rejected, each by this rule at this place.
pub fn examples_refused()
    ensures barriers_at_two_places { Refuses programs.barriers_at_two_places S1 (pl 1 62) }
    ensures a_barrier_behind_own_numbers { Refuses programs.a_barrier_behind_own_numbers S4 (pl 1 73) }
    ensures no_region_is_deleted { Refuses programs.no_region_is_deleted Y2 (pl 1 82) }
    ensures a_local_variable_of_another_process { Refuses programs.a_local_variable_of_another_process Q1 (pl 1 130) }
    ensures a_region_is_deleted_by_one { Refuses programs.a_region_is_deleted_by_one S1 (pl 1 137) }
    ensures a_truth_in_a_number { Refuses programs.a_truth_in_a_number Y2 (pl 1 100) }
    ensures an_object_for_a_grid { Refuses programs.an_object_for_a_grid Y2 (pl 1 90) }
    ensures two_broadcasts { Refuses programs.two_broadcasts S1 (pl 1 62) }
{}

/// Counterexamples to alignment: what processes reach together.
pub fn alignment()
    ensures aligned { IsAligned singles.a_barrier_under_the_own_number → ⊥ }
    ensures arrivals_at_two_places { FailsFor ArrivalsAgree programs.barriers_at_two_places }
    ensures arrivals_with_two_numbers { FailsFor ArrivalsAgree programs.a_barrier_behind_own_numbers }
    ensures an_arrival_after_an_end { FailsFor NoneAfterEnd singles.a_barrier_under_the_own_number }
    ensures a_process_that_waits_forever { FailsFor NoneStuck singles.a_barrier_under_the_own_number }
    ensures a_departure_without_an_arrival { FailsOn RoundsBalance programs.one_barrier entries.no_arrival }
    ensures an_end_before_the_slices { FailsFor SliceTells singles.a_barrier_under_the_own_number }
    ensures an_end_of_the_slice { SliceAnswers collectives.barriers [] Ended → ⊥ }
{}

/// Counterexamples on owners, regions, names and cells of objects and grids.
pub fn things()
    ensures another_owner { FailsFor OwnersKept programs.a_local_variable_of_another_process }
    ensures a_region_that_is_gone { FailsFor NothingDangles programs.a_region_is_deleted_by_one }
    ensures a_region_that_is_none { FailsFor RegionsMade programs.no_region_is_deleted }
    ensures a_thing_in_no_region { FailsOn ThingsPlaced programs.a_truth_in_a_number entries.no_region }
    ensures a_name_too_large { FailsOn RunNamesFit programs.a_truth_in_a_number entries.a_name_too_large }
    ensures a_cell_of_nothing { FailsOn (λ s es. CellsCounted s.program (history_of es)) programs.a_truth_in_a_number entries.no_object }
{}

/// Counterexamples on the types and canonical forms of what exists in a run.
pub fn types()
    ensures a_truth_in_a_number { FailsFor RunTyped programs.a_truth_in_a_number }
    ensures two_types_at_a_broadcast { FailsFor TakenAsGiven programs.two_broadcasts }
    ensures a_variable_of_nowhere { FailsFor VariablesInScope programs.a_variable_of_nowhere }
    ensures a_truth_for_a_number { FailsFor AnswersFit programs.a_truth_in_a_number }
    ensures an_element_of_an_object { FailsFor NoneImpossible programs.an_object_for_a_grid }
    ensures a_second_coordinate { FailsOn ActionsFormed programs.a_point_is_copied entries.a_second_coordinate }
    ensures a_number_too_large { LiteralsFit programs.a_number_too_large → ⊥ }
    ensures a_field_of_four_dimensions { FieldsFit programs.a_field_of_four_dimensions → ⊥ }
    ensures a_field_of_domains { FieldsStorable programs.a_field_of_domains → ⊥ }
    ensures a_number_without_a_form { HasForm Int (v.Int (pos 2147483648)) → ⊥ }
    ensures a_truth_is_written { (elements : Elements) → KeepsTypes programs.a_truth_in_a_number elements (history_of entries.an_object) 0
        (act.PutField (thing 0 0 0) 0 (v.Bool true)) ToBeDone → ⊥ }
{}

/// Entries that are no run, or not that of the lowest-numbered process that can take an entry, and answers that don't follow from the
/// entries before.
pub fn runs()
    ensures an_end_too_early { IsRun (by_two 1000 programs.one_barrier) entries.an_end_too_early → ⊥ }
    ensures the_second_first { IsSolo (by_two 1000 programs.one_barrier) entries.the_second_first → ⊥ }
    ensures a_departure_too_early { IsRun (by_two 1000 programs.one_barrier) entries.a_departure_too_early → ⊥ }
    ensures an_entry_behind_a_fault { IsRun (by_two 1000 programs.one_barrier) entries.an_entry_behind_a_fault → ⊥ }
    ensures a_wrong_answer { IsAnswered programs.a_truth_in_a_number (history_of entries.a_wrong_answer) → ⊥ }
    ensures a_thing_made_twice { IsAnswered programs.a_truth_in_a_number (history_of entries.a_thing_made_twice) → ⊥ }
{}

/// Programs that break a rule, and an expression that has no type.
pub fn rules()
    ensures operands_of_two_kinds { BreaksNothing types_refused.operands_of_two_kinds → ⊥ }
    ensures a_barrier_under_the_own_number { BreaksNothing singles.a_barrier_under_the_own_number → ⊥ }
    ensures a_sum_of_a_boolean { IsThere (expr_type types_refused.operands_of_two_kinds programs.no_scope programs.a_sum_of_a_boolean) → ⊥ }
{}
