// Examples and counterexamples to theorems about numbers, points, lists of points and rectangles.
ghost use Rattle.std.specs.Prelude.{◌≡◌, ◌⊎◌, ◌↔◌, IsTrue, true, None, Some, [], ◌∷◌, length, pos, negsuc};
ghost use Rattle.std.specs.Int.{w32};
ghost use Rattle.ti_base.specs.declared.point.Point.{Point};
ghost use Rattle.ti_base.specs.declared.action.ViewHow.TheVariants.{Translate, Slice};
ghost use Rattle.ti_base.specs.WholeNumbers.{IsWrapped, IsDivided, IsRoundedDown};
ghost use Rattle.ti_base.specs.Points.{IsPoint};
ghost use Rattle.ti_base.specs.PointSets.{IsAmong, Rises, IsDomain, IsListOf, IsNextAfter, NoneAfter, meet, minus, union};
ghost use Rattle.ti_base.specs.Ranges.{IsOn, IsTidy, IsRange, meet_ranges, range_of, numbers_on};
ghost use Rattle.ti_base.specs.Rects.{points_of, size_of, IsRect, IsIn, LeavesRange, is_in};
ghost use Rattle.ti_base.specs.Rects as rects;
ghost use Rattle.ti_base.specs.Forms.{is_point, is_rect};
ghost use Rattle.ti_base.specs.Cells.{leaves, suits, view_fault, seen_point};
ghost use Rattle.ti_rect.specs.Views.{IsView};
ghost use Rattle.ti_rows.specs.Refuted.Sets.{on_line, two_coordinates, rising_points, falling_points, middle, twos_to, all_to_four, evens, loose, all};

/// Wrapping of integers to 32 bits, quotients and remainders.
pub fn numbers()
    ensures a_number_of_33_bits { IsWrapped w32 (pos 2147483648) (pos 2147483648) → ⊥ }
    ensures a_number_nearby { IsWrapped w32 (pos 2147483648) (pos 2147483647) → ⊥ }
    ensures seven_by_two { IsDivided (pos 7) (pos 2) (pos 3) (pos 1) }
    ensures a_remainder_of_the_other_sign { IsDivided (pos 7) (pos 2) (pos 4) (negsuc 0) → ⊥ }
    ensures a_remainder_too_great { IsDivided (pos 7) (pos 2) (pos 2) (pos 3) → ⊥ }
    ensures toward_zero { IsRoundedDown (negsuc 6) 2 (negsuc 2) 1 → ⊥ }
{}

/// Lists of points, and the next point of a list.
pub fn lists()
    ensures a_list_that_rises { IsDomain 1 rising_points }
    ensures a_list_that_falls { Rises falling_points → ⊥ }
    ensures the_same_points { (p : Point) → IsAmong rising_points p ↔ IsAmong falling_points p }
    ensures another_list { rising_points ≡ falling_points → ⊥ }
    ensures all_for_both { IsListOf (λ p. IsAmong rising_points p × IsAmong middle p) (union rising_points middle) → ⊥ }
    ensures both_for_the_first_alone { IsListOf (λ p. IsAmong rising_points p × (IsAmong middle p → ⊥)) (meet rising_points middle) → ⊥ }
    ensures the_first_alone_for_either { IsListOf (λ p. IsAmong rising_points p ⊎ IsAmong middle p) (minus rising_points middle) → ⊥ }
    ensures the_second_is_first { IsNextAfter (IsAmong rising_points) None (on_line (pos 1)) → ⊥ }
    ensures the_second_is_next_to_the_first { IsNextAfter (IsAmong rising_points) (Some (on_line (pos 0))) (on_line (pos 1)) }
    ensures the_third_is_next_to_the_first { IsNextAfter (IsAmong rising_points) (Some (on_line (pos 0))) (on_line (pos 2)) → ⊥ }
    ensures none_behind_the_second { NoneAfter (IsAmong rising_points) (Some (on_line (pos 1))) → ⊥ }
{}

/// Canonical forms of points, ranges and rectangles.
pub fn forms()
    ensures a_point { IsTrue (is_point (on_line (pos 1))) }
    ensures a_second_coordinate { IsPoint two_coordinates → ⊥ }
    ensures a_second_coordinate_is_told { IsTrue (is_point two_coordinates) → ⊥ }
    ensures a_rectangle { IsTrue (is_rect evens) }
    ensures a_loose_end { IsRect loose → ⊥ }
    ensures a_loose_end_is_told { IsTrue (is_rect loose) → ⊥ }
    ensures a_range { IsRange (twos_to (pos 4)) }
    ensures a_loose_range { IsTidy (twos_to (pos 5)) → ⊥ }
    ensures another_range { range_of (numbers_on (twos_to (pos 5))) ≡ twos_to (pos 5) → ⊥ }
{}

/// The points of rectangles, and how many there are.
pub fn rectangles()
    ensures another_number { length (points_of evens) ≡ size_of all → ⊥ }
    ensures points_of_another { IsListOf (IsIn evens) (points_of all) → ⊥ }
    ensures a_point_with_two_coordinates { IsIn evens two_coordinates → ⊥ }
    ensures the_same_points { (p : Point) → IsIn loose p ↔ IsIn evens p }
    ensures another_value { loose ≡ evens → ⊥ }
    ensures a_point_between { IsIn evens (on_line (pos 1)) → ⊥ }
    ensures a_point_between_is_told { is_in evens (on_line (pos 1)) ≡ true → ⊥ }
    ensures a_number_on_one { IsOn (meet_ranges (twos_to (pos 4)) all_to_four) (pos 1) → ⊥ }
    ensures a_point_in_one { IsIn (rects.meet evens all) (on_line (pos 1)) → ⊥ }
{}

/// Translations of rectangles, and views of them.
pub fn views()
    ensures far_moved { leaves evens (on_line (pos 2147483647)) ≡ true }
    ensures little_moved { leaves evens (on_line (pos 1)) ≡ true → ⊥ }
    ensures little_moved_stays { LeavesRange evens (on_line (pos 1)) → ⊥ }
    ensures by_two_coordinates { IsView (Translate two_coordinates) → ⊥ }
    ensures a_slice_of_one_dimension { suits (Slice (pos 1) (pos 0)) evens ≡ true → ⊥ }
    ensures far_moved_is_no_view { view_fault (Translate (on_line (pos 2147483647))) evens ≡ None → ⊥ }
    ensures a_point_of_no_view { IsIn evens (seen_point (Translate (on_line (pos 1))) (on_line (pos 2))) → ⊥ }
{}
