// Rejected programs, each with the first rule that it breaks and the place; and the programs of the worked examples, which break no rule.
ghost use Rattle.std.specs.Prelude.{[], ◌∷◌};
ghost use Rattle.ti_rules.specs.declared.rule.Rule.TheVariants.{Y1, Y2, Y3, Y4, Y5, Y6, Y7, Y8, Q1, Q2, Q3, S1, S2, S3, S4, S5, S6, S7, S8, S9};
ghost use Rattle.ti_rows.specs.Texts.{pl};
ghost use Rattle.ti_rows.specs.Answers.{Refuses, AreAccepted};
ghost use Rattle.ti_rows.specs.Refused.Types as types;
ghost use Rattle.ti_rows.specs.Refused.Singles as singles;
ghost use Rattle.ti_rows.specs.Rows.Numbers as numbers_rows;
ghost use Rattle.ti_rows.specs.Rows.Statements as statements_rows;
ghost use Rattle.ti_rows.specs.Rows.Calls as calls_rows;
ghost use Rattle.ti_rows.specs.Rows.Objects as objects_rows;
ghost use Rattle.ti_rows.specs.Rows.Domains as domains_rows;
ghost use Rattle.ti_rows.specs.Rows.Grids as grids_rows;
ghost use Rattle.ti_rows.specs.Rows.Collectives as collectives_rows;
ghost use Rattle.ti_rows.specs.Rows.Regions as regions_rows;
ghost use Rattle.ti_rows.specs.Rows.Programs as programs_rows;

/// Programs that break a rule of types or qualifiers.
pub fn types()
    ensures operands_of_two_kinds { Refuses types.operands_of_two_kinds Y1 (pl 1 79) }
    ensures an_unknown_member { Refuses types.an_unknown_member Y1 (pl 1 92) }
    ensures a_coordinate_is_assigned { Refuses types.a_coordinate_is_assigned Y1 (pl 1 85) }
    ensures a_call_over_an_operand_without_a_type { Refuses types.a_call_over_an_operand_without_a_type Y1 (pl 1 122) }
    ensures the_rule_listed_first { Refuses types.the_rule_listed_first Y1 (pl 1 119) }
    ensures a_number_for_a_boolean { Refuses types.a_number_for_a_boolean Y2 (pl 1 70) }
    ensures a_long_for_an_int { Refuses types.a_long_for_an_int Y2 (pl 1 66) }
    ensures a_foreach_variable_is_assigned { Refuses types.a_foreach_variable_is_assigned Y2 (pl 1 85) }
    ensures an_argument_of_the_wrong_type { Refuses types.an_argument_of_the_wrong_type Y2 (pl 1 103) }
    ensures a_call_of_main { Refuses types.a_call_of_main Y4 (pl 1 62) }
    ensures a_number_as_a_condition { Refuses types.a_number_as_a_condition Y3 (pl 1 66) }
    ensures too_few_arguments { Refuses types.too_few_arguments Y4 (pl 1 87) }
    ensures a_point_of_another_dimension { Refuses types.a_point_of_another_dimension Y5 (pl 1 71) }
    ensures too_many_indices { Refuses types.too_many_indices Y5 (pl 1 99) }
    ensures a_slice_of_one_dimension { Refuses types.a_slice_of_one_dimension Y5 (pl 1 92) }
    ensures a_call_in_an_expression { Refuses types.a_call_in_an_expression Y6 (pl 1 107) }
    ensures nothing_as_a_value { Refuses types.nothing_as_a_value Y6 (pl 1 90) }
    ensures no_last_return { Refuses types.no_last_return Y6 (pl 1 25) }
    ensures a_value_from_main { Refuses types.a_value_from_main Y6 (pl 1 62) }
    ensures a_local_number { Refuses types.a_local_number Y7 (pl 1 66) }
    ensures a_word_twice { Refuses types.a_word_twice Y7 (pl 1 73) }
    ensures a_single_parameter_of_a_plain_method { Refuses types.a_single_parameter_of_a_plain_method Y7 (pl 1 32) }
    ensures a_static_field { Refuses types.a_static_field Y7 (pl 1 11) }
    ensures a_break_outside_a_loop { Refuses types.a_break_outside_a_loop Y8 (pl 1 62) }
    ensures a_global_reference_for_a_local_one { Refuses types.a_global_reference_for_a_local_one Q1 (pl 1 101) }
    ensures a_local_field_written_through_a_global_reference { Refuses types.a_local_field_written_through_a_global_reference Q2
        (pl 1 110) }
    ensures a_copy_of_local_elements { Refuses types.a_copy_of_local_elements Q2 (pl 1 119) }
    ensures an_exchange_into_local_elements { Refuses types.an_exchange_into_local_elements Q3 (pl 1 134) }
    ensures types_come_before_single_values { Refuses types.types_come_before_single_values Y2 (pl 1 112) }
{}

/// Programs that break a rule of single values.
pub fn single_values()
    ensures a_barrier_under_the_own_number { Refuses singles.a_barrier_under_the_own_number S1 (pl 1 62) }
    ensures a_barrier_under_a_field { Refuses singles.a_barrier_under_a_field S1 (pl 1 96) }
    ensures a_single_variable_changed_under_the_own_number { Refuses singles.a_single_variable_changed_under_the_own_number S1 (pl 1 80) }
    ensures a_break_under_the_own_number { Refuses singles.a_break_under_the_own_number S1 (pl 1 91) }
    ensures a_break_that_decides_a_return { Refuses singles.a_break_that_decides_a_return S1 (pl 1 90) }
    ensures a_loop_under_the_own_number { Refuses singles.a_loop_under_the_own_number S2 (pl 1 85) }
    ensures a_single_update { Refuses singles.a_single_update S2 (pl 1 80) }
    ensures a_barrier_in_a_foreach_over_a_plain_domain { Refuses singles.a_barrier_in_a_foreach_over_a_plain_domain S3 (pl 1 62) }
    ensures a_plain_value_for_a_single_variable { Refuses singles.a_plain_value_for_a_single_variable S4 (pl 1 73) }
    ensures a_plain_value_is_added { Refuses singles.a_plain_value_is_added S4 (pl 1 82) }
    ensures a_plain_argument { Refuses singles.a_plain_argument S5 (pl 1 103) }
    ensures global_effects_in_a_plain_method { Refuses singles.global_effects_in_a_plain_method S6 (pl 1 26) }
    ensures a_plain_value_returned_as_single { Refuses singles.a_plain_value_returned_as_single S7 (pl 1 45) }
    ensures a_plain_root { Refuses singles.a_plain_root S8 (pl 1 70) }
    ensures a_plain_region_is_deleted { Refuses singles.a_plain_region_is_deleted S8 (pl 1 101) }
    ensures a_single_result_of_a_plain_method { Refuses singles.a_single_result_of_a_plain_method S9 (pl 1 25) }
{}

/// The programs of the worked examples, by topic, break no rule.
pub fn examples_accepted()
    ensures numbers { AreAccepted (numbers_rows.sums_and_quotients ∷ numbers_rows.shifts ∷ numbers_rows.bits ∷
        numbers_rows.long_sums ∷ numbers_rows.long_shifts ∷ numbers_rows.an_update_narrows ∷ numbers_rows.remainders ∷
        numbers_rows.an_empty_print ∷ numbers_rows.a_literal_and_a_value ∷ numbers_rows.a_literal_alone ∷
        numbers_rows.a_right_side_is_not_needed ∷ numbers_rows.a_zero_divisor ∷ numbers_rows.an_update_by_zero ∷ []) }
    ensures statements { AreAccepted (statements_rows.blocks ∷ statements_rows.loops ∷ statements_rows.jumps ∷
        statements_rows.jumps_in_foreach ∷ statements_rows.an_endless_loop_is_left ∷ statements_rows.fuel_in_a_loop ∷ []) }
    ensures calls { AreAccepted (calls_rows.an_early_return ∷ calls_rows.a_return_out_of_loops ∷ calls_rows.a_return_of_nothing ∷
        calls_rows.recursion ∷ calls_rows.instance_methods ∷ calls_rows.a_method_of_the_own_object ∷ calls_rows.long_parameters ∷
        calls_rows.a_domain_as_parameter ∷ calls_rows.a_call_comes_before_its_target ∷ calls_rows.a_single_method ∷
        calls_rows.endless_recursion ∷ calls_rows.fuel_at_a_call ∷ calls_rows.a_call_on_null ∷ []) }
    ensures objects { AreAccepted (objects_rows.a_local_field ∷ objects_rows.a_field_of_null ∷ objects_rows.a_write_to_null ∷
        objects_rows.a_cast_to_local ∷ []) }
    ensures domains { AreAccepted (domains_rows.points ∷ domains_rows.a_coordinate_out_of_bounds ∷ domains_rows.a_meet ∷
        domains_rows.a_difference_and_a_union ∷ domains_rows.equal_domains ∷ domains_rows.least_and_greatest ∷
        domains_rows.the_least_point_of_no_points ∷ domains_rows.a_bad_stride ∷ domains_rows.too_many_points_to_count ∷
        domains_rows.too_many_points_for_a_domain ∷ []) }
    ensures grids { AreAccepted (grids_rows.elements ∷ grids_rows.grids_of_grids ∷ grids_rows.a_member_form_alone ∷
        grids_rows.the_domain_of_a_grid ∷ grids_rows.grid_views ∷ grids_rows.a_translated_view ∷ grids_rows.a_translation_too_far ∷
        grids_rows.a_slice_outside ∷ grids_rows.a_write_outside ∷ grids_rows.a_copy ∷ grids_rows.a_copy_of_null ∷
        grids_rows.a_grid_that_is_too_large ∷ []) }
    ensures collectives { AreAccepted (collectives_rows.barriers ∷ collectives_rows.a_break_under_a_single_condition ∷
        collectives_rows.a_broadcast_decides_a_loop ∷ collectives_rows.a_broadcast_of_a_reference ∷
        collectives_rows.a_broadcast_of_a_foreach_variable ∷ collectives_rows.a_barrier_in_a_foreach ∷
        collectives_rows.a_root_that_is_no_process ∷ collectives_rows.an_exchange ∷ collectives_rows.an_exchange_widens ∷
        collectives_rows.an_exchange_into_another_size ∷ []) }
    ensures regions { AreAccepted (regions_rows.a_region_is_deleted ∷ regions_rows.two_regions ∷
        regions_rows.a_region_in_use_by_a_variable ∷ regions_rows.a_region_in_use_by_a_cell ∷ regions_rows.a_region_deleted_twice ∷ []) }
    ensures programs { AreAccepted (programs_rows.grids_are_exchanged ∷ programs_rows.grids_are_exchanged_by_four ∷ []) }
{}
