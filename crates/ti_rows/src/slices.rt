// The program slices of worked examples: the answer of each after a list of outcomes.
ghost use Rattle.std.specs.Prelude.{[], ◌∷◌, None, Some, true, pos};
ghost use Rattle.ti_base.specs.declared.action.CollKind.TheVariants.{Barrier, Broadcast, Exchange, MakeRegion, DeleteRegion};
ghost use Rattle.ti_base.specs.declared.entry.Answer.TheVariants.{Done, Val};
ghost use Rattle.ti_base.specs.declared.fault.FaultKind.TheVariants.{BadRoot, Depth, RegionGone};
ghost use Rattle.ti_base.specs.declared.value.Value.TheVariants as v;
ghost use Rattle.ti_align.specs.declared.slices.SliceStep.TheVariants.{At, Ended, Faults, NoFuel, Unfit};
ghost use Rattle.ti_align.specs.Slice.{SliceAnswers};
ghost use Rattle.ti_rows.specs.Texts.{pl};
ghost use Rattle.ti_rows.specs.Slices.{two, with_fuel, a_single_recursion};
ghost use Rattle.ti_rows.specs.Rows.Numbers as numbers_rows;
ghost use Rattle.ti_rows.specs.Rows.Calls as calls_rows;
ghost use Rattle.ti_rows.specs.Rows.Collectives as collectives_rows;
ghost use Rattle.ti_rows.specs.Rows.Regions as regions_rows;

/// The slices of programs with barriers, broadcasts and exchanges.
pub fn collectives()
    ensures barriers { SliceAnswers collectives_rows.barriers [] (At Barrier (pl 1 89) None) }
    ensures barriers_end { SliceAnswers collectives_rows.barriers (Done ∷ []) Ended }
    ensures barriers_with_one_too_many { SliceAnswers collectives_rows.barriers (Done ∷ Done ∷ []) (Unfit 1) }
    ensures barriers_with_a_value { SliceAnswers collectives_rows.barriers (Val (v.Bool true) ∷ []) (Unfit 0) }
    ensures a_break_under_a_single_condition { SliceAnswers collectives_rows.a_break_under_a_single_condition (Done ∷ Done ∷ [])
        (At Barrier (pl 1 98) None) }
    ensures a_break_under_a_single_condition_ends { SliceAnswers collectives_rows.a_break_under_a_single_condition
        (Done ∷ Done ∷ Done ∷ []) Ended }
    ensures a_broadcast_decides_a_loop { SliceAnswers collectives_rows.a_broadcast_decides_a_loop [] (At Broadcast (pl 1 77) (Some 1)) }
    ensures a_broadcast_decides_a_loop_behind_six { SliceAnswers collectives_rows.a_broadcast_decides_a_loop (Val (v.Int (pos 6)) ∷ [])
        (At Barrier (pl 1 132) None) }
    ensures a_broadcast_decides_a_loop_to_its_end { SliceAnswers collectives_rows.a_broadcast_decides_a_loop
        (Val (v.Int (pos 6)) ∷ Done ∷ Done ∷ Done ∷ []) Ended }
    ensures a_broadcast_decides_a_loop_behind_zero { SliceAnswers collectives_rows.a_broadcast_decides_a_loop
        (Val (v.Int (pos 0)) ∷ []) Ended }
    ensures a_broadcast_without_a_value { SliceAnswers collectives_rows.a_broadcast_decides_a_loop (Done ∷ []) (Unfit 0) }
    ensures a_broadcast_of_another_type { SliceAnswers collectives_rows.a_broadcast_decides_a_loop (Val (v.Long (pos 6)) ∷ []) (Unfit 0) }
    ensures a_broadcast_out_of_range { SliceAnswers collectives_rows.a_broadcast_decides_a_loop (Val (v.Int (pos 2147483648)) ∷ [])
        (Unfit 0) }
    ensures a_broadcast_decides_how_many_come { SliceAnswers collectives_rows.a_broadcast_decides_a_loop
        (Val (v.Int (pos 2)) ∷ Done ∷ Done ∷ []) (Unfit 2) }
    ensures a_broadcast_of_a_reference { SliceAnswers collectives_rows.a_broadcast_of_a_reference [] (At Broadcast (pl 1 102) (Some 1)) }
    ensures a_broadcast_of_null { SliceAnswers collectives_rows.a_broadcast_of_a_reference (Val (v.Obj None) ∷ []) Ended }
    ensures a_broadcast_of_a_grid_for_an_object { SliceAnswers collectives_rows.a_broadcast_of_a_reference (Val (v.Grid None) ∷ [])
        (Unfit 0) }
    ensures a_broadcast_of_a_foreach_variable { SliceAnswers collectives_rows.a_broadcast_of_a_foreach_variable []
        (At Broadcast (pl 1 115) (Some 1)) }
    ensures a_broadcast_in_the_next_turn { SliceAnswers collectives_rows.a_broadcast_of_a_foreach_variable (Val (v.Pt (two 1 0)) ∷ [])
        (At Broadcast (pl 1 115) (Some 1)) }
    ensures a_broadcast_of_a_foreach_variable_ends { SliceAnswers collectives_rows.a_broadcast_of_a_foreach_variable
        (Val (v.Pt (two 1 0)) ∷ Val (v.Pt (two 1 1)) ∷ []) Ended }
    ensures a_broadcast_of_another_dimension { SliceAnswers collectives_rows.a_broadcast_of_a_foreach_variable
        (Val (v.Pt (record (two 1 0) { dim = 1 })) ∷ []) (Unfit 0) }
    ensures a_barrier_in_a_foreach { SliceAnswers collectives_rows.a_barrier_in_a_foreach (Done ∷ Done ∷ []) (At Barrier (pl 1 98) None) }
    ensures a_barrier_in_a_foreach_ends { SliceAnswers collectives_rows.a_barrier_in_a_foreach (Done ∷ Done ∷ Done ∷ []) Ended }
    ensures a_root_that_is_no_process { SliceAnswers collectives_rows.a_root_that_is_no_process [] (Faults BadRoot (pl 1 77)) }
    ensures an_outcome_behind_a_fault { SliceAnswers collectives_rows.a_root_that_is_no_process (Done ∷ []) (Unfit 0) }
    ensures an_exchange { SliceAnswers collectives_rows.an_exchange [] (At Exchange (pl 1 195) None) }
    ensures a_barrier_behind_an_exchange { SliceAnswers collectives_rows.an_exchange (Done ∷ []) (At Barrier (pl 1 211) None) }
    ensures an_exchange_ends { SliceAnswers collectives_rows.an_exchange (Done ∷ Done ∷ []) Ended }
    ensures an_exchange_into_another_size { SliceAnswers collectives_rows.an_exchange_into_another_size [] (At Exchange (pl 1 92) None) }
{}

/// The slices of programs with shared regions.
pub fn regions()
    ensures a_region_is_made { SliceAnswers regions_rows.a_region_is_deleted [] (At MakeRegion (pl 1 105) None) }
    ensures a_region_is_deleted { SliceAnswers regions_rows.a_region_is_deleted (Val (v.Region 1) ∷ [])
        (At DeleteRegion (pl 1 208) (Some 1)) }
    ensures a_region_was_deleted { SliceAnswers regions_rows.a_region_is_deleted (Val (v.Region 1) ∷ Done ∷ []) Ended }
    ensures a_second_region { SliceAnswers regions_rows.two_regions (Val (v.Region 1) ∷ []) (At MakeRegion (pl 1 130) None) }
    ensures the_first_region_is_deleted { SliceAnswers regions_rows.two_regions (Val (v.Region 1) ∷ Val (v.Region 2) ∷ [])
        (At DeleteRegion (pl 1 169) (Some 1)) }
    ensures a_region_deleted_once { SliceAnswers regions_rows.a_region_deleted_twice (Val (v.Region 1) ∷ [])
        (At DeleteRegion (pl 1 182) (Some 1)) }
    ensures a_region_deleted_twice { SliceAnswers regions_rows.a_region_deleted_twice (Val (v.Region 1) ∷ Done ∷ [])
        (Faults RegionGone (pl 1 206)) }
    ensures an_outcome_behind_a_gone_region { SliceAnswers regions_rows.a_region_deleted_twice (Val (v.Region 1) ∷ Done ∷ Done ∷ [])
        (Unfit 2) }
{}

/// The slices of programs with calls, and of programs without collectives.
pub fn others()
    ensures a_single_method { SliceAnswers calls_rows.a_single_method [] (At Barrier (pl 1 94) None) }
    ensures a_single_method_turns { SliceAnswers calls_rows.a_single_method (Done ∷ []) (At Barrier (pl 1 94) None) }
    ensures a_single_method_ends { SliceAnswers calls_rows.a_single_method (Done ∷ Done ∷ []) Ended }
    ensures a_plain_recursion { SliceAnswers calls_rows.endless_recursion [] Ended }
    ensures no_collective { SliceAnswers numbers_rows.sums_and_quotients [] Ended }
    ensures an_outcome_without_a_collective { SliceAnswers numbers_rows.sums_and_quotients (Done ∷ []) (Unfit 0) }
    ensures a_zero_divisor_in_plain_values { SliceAnswers numbers_rows.a_zero_divisor [] Ended }
    ensures a_single_recursion { SliceAnswers a_single_recursion [] (Faults Depth (pl 1 39)) }
{}

/// The slices of programs with little fuel: an arrival, a departure and an iteration of a loop with global effects cost one tick each.
pub fn ticks()
    ensures no_tick_for_an_arrival { SliceAnswers (with_fuel 0 collectives_rows.barriers) [] NoFuel }
    ensures a_tick_for_an_arrival { SliceAnswers (with_fuel 1 collectives_rows.barriers) [] (At Barrier (pl 1 89) None) }
    ensures no_tick_for_a_departure { SliceAnswers (with_fuel 1 collectives_rows.barriers) (Done ∷ []) (Unfit 0) }
    ensures ticks_for_a_barrier { SliceAnswers (with_fuel 2 collectives_rows.barriers) (Done ∷ []) Ended }
    ensures a_tick_for_a_turn { SliceAnswers (with_fuel 1 collectives_rows.a_barrier_in_a_foreach) [] NoFuel }
    ensures ticks_for_a_turn { SliceAnswers (with_fuel 2 collectives_rows.a_barrier_in_a_foreach) [] (At Barrier (pl 1 98) None) }
    ensures a_tick_for_a_call { SliceAnswers (with_fuel 2 calls_rows.a_single_method) [] NoFuel }
    ensures ticks_for_a_call { SliceAnswers (with_fuel 3 calls_rows.a_single_method) [] (At Barrier (pl 1 94) None) }
{}
