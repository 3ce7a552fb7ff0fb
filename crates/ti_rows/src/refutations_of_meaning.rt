// Examples and counterexamples to theorems about processes, runs, heaps, races, types and rejections.
ghost use Rattle.std.specs.Prelude.{◌≡◌, ◌++◌, pos, true, false, None, Some, [], ◌∷◌, Contains};
ghost use Rattle.ti_base.specs.declared.action.Action.TheVariants as act;
ghost use Rattle.ti_base.specs.declared.action.CollKind.TheVariants as coll;
ghost use Rattle.ti_base.specs.declared.action.Deposit.TheVariants as deposit;
ghost use Rattle.ti_base.specs.declared.entry.Answer.{Answer};
ghost use Rattle.ti_base.specs.declared.entry.Answer.TheVariants.{Done};
ghost use Rattle.ti_base.specs.declared.entry.Next.TheVariants as next;
ghost use Rattle.ti_base.specs.Cells.{Field};
ghost use Rattle.ti_syntax.specs.Spelling.Expressions.{Whole};
ghost use Rattle.ti_syntax.specs.Trees.Expressions.{Exp};
ghost use Rattle.ti_syntax.specs.Trees.Expressions as tree;
ghost use Rattle.ti_lang.specs.Program.Types as ty;
ghost use Rattle.ti_lang.specs.Meaning.Comp.{Request};
ghost use Rattle.ti_lang.specs.Meaning.Processes.{Process};
ghost use Rattle.ti_lang.specs.Meaning.Steps.{At, step};
ghost use Rattle.ti_lang.specs.Meaning.NextStep.{IsNext, After};
ghost use Rattle.ti_lang.specs.Meaning.Histories.{history_of};
ghost use Rattle.ti_lang.specs.Meaning.HeapOf.{cell_value, grid_of_id};
ghost use Rattle.ti_lang.specs.Meaning.HeapAnswers.{IsAnswered};
ghost use Rattle.ti_lang.specs.Meaning.RegionsOf.{is_gone};
ghost use Rattle.ti_lang.specs.Meaning.Races.{race};
ghost use Rattle.ti_lang.specs.Meaning.Runs.{ProcAfter, CanTake};
ghost use Rattle.ti_lang.specs.Typing.Kinds.{is_point_type, class_of_type};
ghost use Rattle.ti_lang.specs.Typing.Expressions.{expr_type};
ghost use Rattle.ti_lang.specs.Typing.TextTypes.{static_element_type, AreDims};
ghost use Rattle.ti_rules.specs.Refusals.{IsFirstRefusal};
ghost use Rattle.ti_rules.specs.Mirrors.First.{earliest};
ghost use Rattle.ti_rows.specs.Texts.{pl};
ghost use Rattle.ti_rows.specs.Histories as histories;
ghost use Rattle.ti_rows.specs.Histories.{entry, thing};
ghost use Rattle.ti_rows.specs.Refused.Singles as singles;
ghost use Rattle.ti_rows.specs.Refused.Types as types_refused;
ghost use Rattle.ti_rows.specs.Refuted.Entries as entries;
ghost use Rattle.ti_rows.specs.Refuted.Laws.{AsksForActions, IsWithinLimits, LooksNoFurther, UsesUp};
ghost use Rattle.ti_rows.specs.Refuted.Laws.{FrontsAreRuns, CellsDiffer, TypesStand, SinglesStand, OnlyWords};
ghost use Rattle.ti_rows.specs.Refuted.Programs as programs;
ghost use Rattle.ti_rows.specs.Refuted.Things as things;
ghost use Rattle.ti_rows.specs.Refuted.Things.{two_at_barrier, fresh, access, seen_with, the_point, later, earlier};

/// Processes: their states after answers, what they do next, and how computations use answers.
pub fn processes()
    ensures itself { After (fresh 0) [] (fresh 0) }
    ensures another_process { After (fresh 0) [] (fresh 1) → ⊥ }
    ensures an_answer_for_nothing { After (fresh 0) (Done ∷ []) (fresh 0) → ⊥ }
    ensures the_arrival { IsNext (fresh 0) (next.Act (pl 1 65) (act.Arrive coll.Barrier None deposit.Nothing)) }
    ensures no_end_yet { IsNext (fresh 0) (next.End (pl 1 76)) → ⊥ }
    ensures an_answer_behind_the_end { (q : Process) → After things.ended_process (Done ∷ []) q → ⊥ }
    ensures it_asks { (q : Request) × (go : Answer → Process) × (step (fresh 0) ≡ At q go) }
    ensures an_end_is_asked { AsksForActions things.asks_for_its_end → ⊥ }
    ensures more_ticks_than_it_has { IsWithinLimits two_at_barrier things.spent_too_much → ⊥ }
    ensures all_answers_are_counted { LooksNoFurther things.counts_all → ⊥ }
    ensures an_answer_is_left { UsesUp things.leaves_its_answer → ⊥ }
{}

/// The states of all processes in a run (worlds), and the entries that can follow.
pub fn worlds()
    ensures before_all { ProcAfter two_at_barrier [] 0 (fresh 0) }
    ensures another_process { ProcAfter two_at_barrier [] 0 (fresh 1) → ⊥ }
    ensures as_before { ProcAfter two_at_barrier entries.an_arrival 0 (fresh 0) → ⊥ }
    ensures the_arrival { CanTake two_at_barrier [] 0 (entry 0 (pl 1 65) (act.Arrive coll.Barrier None deposit.Nothing) Done) }
    ensures the_end { CanTake two_at_barrier [] 0 (entry 0 (pl 1 75) act.End Done) → ⊥ }
    ensures an_end_in_front { FrontsAreRuns two_at_barrier entries.an_arrival_behind_an_end → ⊥ }
{}

/// Cells of objects and grids, deleted regions, and pairs of accesses that are a race.
pub fn heaps()
    ensures a_grid_is_made { IsAnswered programs.one_barrier (history_of entries.a_grid) }
    ensures a_grid_is_there { grid_of_id (thing 0 0 0) (history_of entries.a_grid) ≡ Some things.three_cells }
    ensures cells_of_their_own { CellsDiffer things.three_cells }
    ensures one_cell_for_all { CellsDiffer things.one_cell → ⊥ }
    ensures a_cell_is_written { cell_value programs.a_truth_in_a_number (Field (thing 0 0 0) 0) (history_of entries.an_object_is_written)
        ≡ cell_value programs.a_truth_in_a_number (Field (thing 0 0 0) 0) (history_of entries.an_object) → ⊥ }
    ensures a_cell_is_new { cell_value programs.a_truth_in_a_number (Field (thing 0 0 0) 0) (history_of entries.an_object)
        ≡ cell_value programs.a_truth_in_a_number (Field (thing 0 0 0) 0) [] → ⊥ }
    ensures a_region_is_gone { is_gone 1 (history_of histories.a_region_is_deleted) ≡ true }
    ensures another_region_is_gone { is_gone 2 (history_of histories.a_region_is_deleted) ≡ true → ⊥ }
    ensures a_race { race (access 0 true) (access 1 false) ≡ true }
    ensures a_race_of_one_process { race (access 0 true) (access 0 false) ≡ true → ⊥ }
    ensures a_race_of_two_reads { race (access 0 false) (access 1 false) ≡ true → ⊥ }
{}

/// Expressions in a source, and their types.
pub fn texts()
    ensures a_number_is_spelled { Whole 1 (things.seven ∷ []) (tree.Int (pl 1 1) (pos 7)) }
    ensures nothing_is_spelled { (x : Exp) → Whole 1 [] x → ⊥ }
    ensures two_dimensions { expr_type programs.one_barrier things.a_point_in_scope the_point ≡ Some (ty.Pt 2) }
    ensures one_dimension { seen_with 1 the_point ≡ ty.Pt 2 → ⊥ }
    ensures two_dimensions_in_scope { AreDims things.a_point_in_scope (λ number. 2) the_point }
    ensures one_dimension_in_scope { AreDims things.a_point_in_scope (λ number. 1) the_point → ⊥ }
    ensures a_point_and_a_number { is_point_type (seen_with 1 the_point) ≡ is_point_type (seen_with 1 things.a_number) → ⊥ }
    ensures an_object_and_a_number { class_of_type (seen_with 1 things.an_object) ≡ class_of_type (seen_with 1 things.a_number) → ⊥ }
    ensures a_coordinate_of_a_number { static_element_type (seen_with 1 the_point) ≡ static_element_type (seen_with 1 things.a_number) → ⊥ }
{}

/// Rules that statements and expressions break, and which of several refusals is reported.
pub fn refusals()
    ensures a_statement_breaks_a_rule { TypesStand types_refused.operands_of_two_kinds → ⊥ }
    ensures a_barrier_stands_under_the_own_number { SinglesStand singles.a_barrier_under_the_own_number → ⊥ }
    ensures a_sum_of_a_boolean { OnlyWords programs.one_barrier programs.no_scope programs.a_sum_of_a_boolean → ⊥ }
    ensures the_earlier_one { earliest (later ∷ earlier ∷ []) ≡ Some earlier }
    ensures the_later_one { IsFirstRefusal (Contains (later ∷ earlier ∷ [])) later → ⊥ }
    ensures none_of_one { earliest (later ∷ []) ≡ None → ⊥ }
    ensures the_first_list_alone { earliest ((later ∷ []) ++ (earlier ∷ [])) ≡ earliest (later ∷ []) → ⊥ }
{}
