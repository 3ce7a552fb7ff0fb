// Worked examples of the definitions about traces and instruction counts, for a program that prints a number.
ghost use Rattle.std.specs.Prelude.{ℕ, List, [], ◌∷◌};
ghost use Rattle.ti_base.specs.declared.entry.Entry.{Entry};
ghost use Rattle.ti_runtime.specs.Ran.{AreFinishedCounts};
ghost use Rattle.ti_trace_check.specs.Verdicts.{IsTraceOf, IsWrongAt};
ghost use Rattle.ti_rows.specs.Simulation.{solo};
ghost use Rattle.ti_rows.specs.Refuted.Codes.{prints_at};
ghost use Rattle.ti_rows_of_laws.specs.Traces as traces;

use ti_rows::refutations_of_walks::counts as finished;
use ti_rows::simulation::simulates;
use ti_trace_check::one_verdict;

/// Traces of complete runs (`IsTraceOf`), and the first wrong line of a byte string that isn't one (`IsWrongAt`): a missing line, or a line
/// that isn't the one of the next event. A trace of a complete run has no wrong line.
pub fn verdicts()
    ensures all_lines { IsTraceOf traces.two_prints traces.all_lines (solo traces.two_prints 4) }
    ensures three_lines { (es : List Entry) → IsTraceOf traces.two_prints traces.three_lines es → ⊥ }
    ensures the_fourth_is_missing { IsWrongAt traces.two_prints traces.three_lines 4 (solo traces.two_prints 3) }
    ensures the_third_is_right { (es : List Entry) → IsWrongAt traces.two_prints traces.three_lines 3 es → ⊥ }
    ensures another_line { IsWrongAt traces.two_prints traces.another_line 1 [] }
    ensures none_is_wrong { (line : ℕ) (es : List Entry) → IsWrongAt traces.two_prints traces.all_lines line es → ⊥ }
{
    simulates();
    one_verdict();
}

/// The numbers of instructions that the processes have finished (`AreFinishedCounts`): two each, one that pushes the number and one that prints it.
pub fn counts()
    ensures two_each { AreFinishedCounts (prints_at 62) traces.two_prints (solo traces.two_prints 4) (2 ∷ 2 ∷ []) }
    ensures another_number { AreFinishedCounts (prints_at 62) traces.two_prints (solo traces.two_prints 4) (2 ∷ 3 ∷ []) → ⊥ }
    ensures of_one_process { AreFinishedCounts (prints_at 62) traces.two_prints (solo traces.two_prints 4) (2 ∷ []) → ⊥ }
{
    finished();
}
