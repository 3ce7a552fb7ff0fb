// The worked examples by topic: what each program prints and how its run ends. The programs are in `specs/Rows`.
ghost use Rattle.std.specs.Prelude.{[], ◌∷◌, codes};
ghost use Rattle.ti_base.specs.declared.fault.FaultKind.TheVariants.{BadRoot, BadStride, Bounds, Depth, DivZero, DomainSize, EmptyDomain, ExchangeDomain, Fuel, HeapFull, NotLocal, NullRef, Range, RegionGone, RegionInUse};
ghost use Rattle.ti_rows.specs.Texts.{pl};
ghost use Rattle.ti_rows.specs.Outcomes.{Prints, FaultsBehind, Makes};
ghost use Rattle.ti_rows.specs.Rows.Numbers as numbers_rows;
ghost use Rattle.ti_rows.specs.Rows.Statements as statements_rows;
ghost use Rattle.ti_rows.specs.Rows.Calls as calls_rows;
ghost use Rattle.ti_rows.specs.Rows.Objects as objects_rows;
ghost use Rattle.ti_rows.specs.Rows.Domains as domains_rows;
ghost use Rattle.ti_rows.specs.Rows.Grids as grids_rows;
ghost use Rattle.ti_rows.specs.Rows.Collectives as collectives_rows;
ghost use Rattle.ti_rows.specs.Rows.Regions as regions_rows;
ghost use Rattle.ti_rows.specs.Rows.Programs as programs_rows;
ghost use Rattle.ti_rows.specs.Histories as histories;

/// Worked examples: integers, booleans and prints.
pub fn numbers()
    ensures sums_and_quotients { Prints numbers_rows.sums_and_quotients (codes "-2147483648\n-2147483648\n0\n-3\n-1\n") }
    ensures shifts { Prints numbers_rows.shifts (codes "2\n-4\n15\n2\n") }
    ensures bits { Prints numbers_rows.bits (codes "false\nfalse\n2\n5\n7\n-6\nfalse\n1\n-2\n") }
    ensures long_sums { Prints numbers_rows.long_sums (codes "2147483648\n-2147483648\n-9223372036854775808\n-9223372036854775808\n") }
    ensures long_shifts { Prints numbers_rows.long_shifts (codes "8589934592\n2\n15\n") }
    ensures an_update_narrows { Prints numbers_rows.an_update_narrows (codes "-2147483648\n") }
    ensures remainders { Prints numbers_rows.remainders (codes "-1\n-3\n1\n9223372036854775807\n") }
    ensures an_empty_print { Prints numbers_rows.an_empty_print (codes "\n") }
    ensures a_literal_and_a_value { Prints numbers_rows.a_literal_and_a_value (97 ∷ 9 ∷ 98 ∷ 51 ∷ 10 ∷ []) }
    ensures a_literal_alone { Prints numbers_rows.a_literal_alone (codes "hi\n3\n") }
    ensures a_right_side_is_not_needed { Prints numbers_rows.a_right_side_is_not_needed (codes "true\ntrue\n") }
    ensures a_zero_divisor { FaultsBehind numbers_rows.a_zero_divisor [] DivZero 0 (pl 1 72) }
    ensures an_update_by_zero { FaultsBehind numbers_rows.an_update_by_zero [] DivZero 0 (pl 1 75) }
{}

/// Worked examples: blocks, loops and jumps.
pub fn statements()
    ensures blocks { Prints statements_rows.blocks (codes "1\n2\n3\n") }
    ensures loops { Prints statements_rows.loops (codes "0\n2\n5\n0\n") }
    ensures jumps { Prints statements_rows.jumps (codes "0\n2\n") }
    ensures jumps_in_foreach { Prints statements_rows.jumps_in_foreach (codes "0\n1\n3\n4\n7\n") }
    ensures an_endless_loop_is_left { Prints statements_rows.an_endless_loop_is_left (codes "\n") }
    ensures fuel_in_a_loop { FaultsBehind statements_rows.fuel_in_a_loop [] Fuel 0 (pl 1 73) }
{}

/// Worked examples: calls of methods.
pub fn calls()
    ensures an_early_return { Prints calls_rows.an_early_return (codes "1\n") }
    ensures a_return_out_of_loops { Prints calls_rows.a_return_out_of_loops (codes "5\n") }
    ensures a_return_of_nothing { Prints calls_rows.a_return_of_nothing (codes "1\n0\n") }
    ensures recursion { Prints calls_rows.recursion (codes "120\n") }
    ensures instance_methods { Prints calls_rows.instance_methods (codes "5\n") }
    ensures a_method_of_the_own_object { Prints calls_rows.a_method_of_the_own_object (codes "8\n") }
    ensures long_parameters { Prints calls_rows.long_parameters (codes "4\n4\ntrue\n") }
    ensures a_domain_as_parameter { Prints calls_rows.a_domain_as_parameter (codes "5\n") }
    ensures a_call_comes_before_its_target { Prints calls_rows.a_call_comes_before_its_target (codes "7\n0\n14\n0\n") }
    ensures a_single_method { Prints calls_rows.a_single_method (codes "1\n1\n") }
    ensures too_deep { FaultsBehind calls_rows.endless_recursion [] Depth 0 (pl 1 32) }
    ensures fuel_at_a_call { FaultsBehind calls_rows.fuel_at_a_call [] Fuel 0 (pl 1 92) }
    ensures a_call_on_null { FaultsBehind calls_rows.a_call_on_null [] NullRef 0 (pl 1 122) }
{}

/// Worked examples: objects and their fields.
pub fn objects()
    ensures a_local_field { Prints objects_rows.a_local_field [] }
    ensures a_field_of_null { FaultsBehind objects_rows.a_field_of_null [] NullRef 0 (pl 1 103) }
    ensures a_write_to_null { FaultsBehind objects_rows.a_write_to_null [] NullRef 0 (pl 1 97) }
    ensures a_cast_to_local { FaultsBehind objects_rows.a_cast_to_local (codes "0\n") NotLocal 1 (pl 1 134) }
{}

/// Worked examples: points and domains.
pub fn domains()
    ensures points { Prints domains_rows.points (codes "[4,6]\ntrue\n[3,4]\ntrue\n[1,2]\n[1,5]\n[3,2]\n[3,5]\n") }
    ensures a_coordinate_out_of_bounds { FaultsBehind domains_rows.a_coordinate_out_of_bounds (codes "4\n") Bounds 0 (pl 1 107) }
    ensures a_meet { Prints domains_rows.a_meet (codes "3\n9\n2\n") }
    ensures a_difference_and_a_union { Prints domains_rows.a_difference_and_a_union (codes "1\n3\n4\n5\n") }
    ensures equal_domains { Prints domains_rows.equal_domains (codes "false\ntrue\ntrue\nfalse\n") }
    ensures least_and_greatest { Prints domains_rows.least_and_greatest (codes "[0,3]\n[8,5]\n9\n") }
    ensures the_least_point_of_no_points { FaultsBehind domains_rows.the_least_point_of_no_points [] EmptyDomain 0 (pl 1 109) }
    ensures a_bad_stride { FaultsBehind domains_rows.a_bad_stride [] BadStride 0 (pl 1 80) }
    ensures too_many_points_to_count { FaultsBehind domains_rows.too_many_points_to_count [] DomainSize 0 (pl 1 95) }
    ensures too_many_points_for_a_domain { FaultsBehind domains_rows.too_many_points_for_a_domain [] DomainSize 0 (pl 1 72) }
{}

/// Worked examples: grids, views and copies.
pub fn grids()
    ensures elements { Prints grids_rows.elements (codes "3\n") }
    ensures grids_of_grids { Prints grids_rows.grids_of_grids (codes "4\ntrue\n") }
    ensures a_member_form_alone { Prints grids_rows.a_member_form_alone (codes "1\n") }
    ensures the_domain_of_a_grid { Prints grids_rows.the_domain_of_a_grid (codes "6\n") }
    ensures views { Prints grids_rows.grid_views (codes "5\n4\n5\n") }
    ensures a_translated_view { FaultsBehind grids_rows.a_translated_view (codes "7\n") Bounds 0 (pl 1 194) }
    ensures a_translation_too_far { FaultsBehind grids_rows.a_translation_too_far [] Range 0 (pl 1 105) }
    ensures a_slice_outside { FaultsBehind grids_rows.a_slice_outside [] Bounds 0 (pl 1 110) }
    ensures a_write_outside { FaultsBehind grids_rows.a_write_outside [] Bounds 0 (pl 1 95) }
    ensures a_copy { Prints grids_rows.a_copy (codes "15\n0\n") }
    ensures a_copy_of_null { FaultsBehind grids_rows.a_copy_of_null [] NullRef 0 (pl 1 111) }
    ensures a_grid_that_is_too_large { FaultsBehind grids_rows.a_grid_that_is_too_large [] HeapFull 0 (pl 1 75) }
{}

/// Worked examples: barriers, broadcasts and exchanges.
pub fn collectives()
    ensures barriers { Prints collectives_rows.barriers (codes "0\n1\n2\n2\n") }
    ensures a_break_under_a_single_condition { Prints collectives_rows.a_break_under_a_single_condition (codes "3\n3\n") }
    ensures a_broadcast_decides_a_loop { Prints collectives_rows.a_broadcast_decides_a_loop (codes "0\n0\n0\n") }
    ensures a_broadcast_of_a_reference { Prints collectives_rows.a_broadcast_of_a_reference (codes "false\ntrue\n") }
    ensures a_broadcast_of_a_foreach_variable { Prints collectives_rows.a_broadcast_of_a_foreach_variable
        (codes "[1,0]\n[1,0]\n[1,1]\n[1,1]\n") }
    ensures a_barrier_in_a_foreach { Prints collectives_rows.a_barrier_in_a_foreach [] }
    ensures a_root_that_is_no_process { FaultsBehind collectives_rows.a_root_that_is_no_process [] BadRoot 0 (pl 1 77) }
    ensures an_exchange { Prints collectives_rows.an_exchange (codes "10\n0\n") }
    ensures an_exchange_widens { Prints collectives_rows.an_exchange_widens (codes "1\n1\n") }
    ensures an_exchange_into_another_size { FaultsBehind collectives_rows.an_exchange_into_another_size [] ExchangeDomain 0 (pl 1 92) }
{}

/// Worked examples: shared regions.
pub fn regions()
    ensures a_region_is_deleted { Prints regions_rows.a_region_is_deleted (codes "0\n1\n9\n9\n") }
    ensures two_regions { Prints regions_rows.two_regions (codes "false\nfalse\n2\n2\n") }
    ensures a_region_in_use_by_a_variable { FaultsBehind regions_rows.a_region_in_use_by_a_variable [] RegionInUse 0 (pl 1 180) }
    ensures a_region_in_use_by_a_cell { FaultsBehind regions_rows.a_region_in_use_by_a_cell [] RegionInUse 0 (pl 1 195) }
    ensures a_region_deleted_twice { FaultsBehind regions_rows.a_region_deleted_twice (codes "1\n") RegionGone 0 (pl 1 206) }
{}

/// Worked examples: complete programs.
pub fn programs()
    ensures grids_are_exchanged { Prints programs_rows.grids_are_exchanged (codes "total 120\n") }
    ensures grids_are_exchanged_by_four { Prints programs_rows.grids_are_exchanged_by_four (codes "total 496\n") }
{}

/// The entries of two complete runs.
pub fn histories()
    ensures grids_are_exchanged { Makes programs_rows.grids_are_exchanged histories.grids_are_exchanged }
    ensures a_region_is_deleted { Makes regions_rows.a_region_is_deleted histories.a_region_is_deleted }
{}
