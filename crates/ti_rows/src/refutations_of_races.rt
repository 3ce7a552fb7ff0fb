// Examples and counterexamples to theorems about races, in lists of entries and in runs.
ghost use Rattle.std.specs.Prelude.{◌≡◌, [], ◌∷◌, pos};
ghost use Rattle.ti_lang.specs.Meaning.Determinacy.{IsFollowed, Determines};
ghost use Rattle.ti_lang.specs.Meaning.Races.{races};
ghost use Rattle.ti_lang.specs.Meaning.Runs.{AllEnded};
ghost use Rattle.ti_lang.specs.Meaning.Spots.{races_told};
ghost use Rattle.ti_rows.specs.Failing.{by_two};
ghost use Rattle.ti_rows.specs.Simulation.{solo};
ghost use Rattle.ti_rows.specs.Refuted.Programs as programs;
ghost use Rattle.ti_rows.specs.Refuted.Entries as entries;

/// Which entries of a list are part of a race (`races`): two processes access one cell without a collective in between, and one of them
/// writes it.
pub fn in_runs()
    ensures a_write_and_a_read { races (entries.written_and_read_by 1) ≡ 1 ∷ 2 ∷ [] }
    ensures one_process { races (entries.written_and_read_by 0) ≡ [] }
    ensures two_reads { races entries.read_by_both ≡ [] }
    ensures a_barrier_between { races entries.read_after_a_barrier ≡ [] }
    ensures one_cell_of_two_views { races (entries.written_through_a_view (pos 3)) ≡ 2 ∷ 3 ∷ [] }
    ensures two_cells_of_a_grid { races (entries.written_through_a_view (pos 5)) ≡ [] }
{}

/// Which entries of a list are part of a race according to the entries only (`races_told`). In a list that is no run, these can differ
/// from those of `races`: an object that is made twice under one name is two objects, and a grid that nobody made has elements.
pub fn as_told()
    ensures a_write_and_a_read { races_told (entries.written_and_read_by 1) ≡ 1 ∷ 2 ∷ [] }
    ensures one_process { races_told (entries.written_and_read_by 0) ≡ [] }
    ensures two_reads { races_told entries.read_by_both ≡ [] }
    ensures a_barrier_between { races_told entries.read_after_a_barrier ≡ [] }
    ensures one_cell_of_two_views { races_told (entries.written_through_a_view (pos 3)) ≡ 2 ∷ 3 ∷ [] }
    ensures two_cells_of_a_grid { races_told (entries.written_through_a_view (pos 5)) ≡ [] }
    ensures another_making { races_told entries.read_of_another_making ≡ [] }
    ensures a_grid_of_nobody { races_told entries.a_grid_of_nobody ≡ 0 ∷ 1 ∷ [] }
    ensures another_making_of_one_name { races entries.read_of_another_making ≡ races_told entries.read_of_another_making → ⊥ }
    ensures no_cell_of_nobody { races entries.a_grid_of_nobody ≡ races_told entries.a_grid_of_nobody → ⊥ }
{}

/// Whether each process does the same in every run as in the given one. In the canonical run of `a_field_is_shared` both processes end,
/// and a race determines what process 1 reads: in another run it reads another number. Two entries without a race, an end for each
/// process, don't determine what a program that prints does.
pub fn in_every_run()
    ensures all_have_ended { AllEnded (by_two 1000 programs.a_field_is_shared) (solo (by_two 1000 programs.a_field_is_shared) 20) }
    ensures one_race { races (solo (by_two 1000 programs.a_field_is_shared) 20) ≡ 5 ∷ 10 ∷ [] }
    ensures another_run_reads_another_number { IsFollowed (by_two 1000 programs.a_field_is_shared)
        (solo (by_two 1000 programs.a_field_is_shared) 20) → ⊥ }
    ensures all_have_ended_without_a_race { AllEnded (by_two 1000 programs.one_barrier) (solo (by_two 1000 programs.one_barrier) 10) }
    ensures no_race { races (solo (by_two 1000 programs.one_barrier) 10) ≡ [] }
    ensures a_run_that_is_followed { IsFollowed (by_two 1000 programs.a_print) (solo (by_two 1000 programs.a_print) 4) }
    ensures ends_before_a_print { Determines (by_two 1000 programs.a_print) entries.two_ends → ⊥ }
{}
