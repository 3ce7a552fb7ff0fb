// A law about verdicts.
ghost use Rattle.std.specs.Prelude.{◌≡◌, ◌<◌, ◌^◌, ℕ, List};
ghost use Rattle.ti_base.specs.declared.entry.Entry.{Entry};
ghost use Rattle.ti_lang.specs.Meaning.Processes.{RunConfig};
ghost use Rattle.ti_trace_check.specs.Verdicts.{IsTraceOf, IsWrongAt};

/// A text is the trace of one complete run at most, or it has one first wrong line with one run before it, and not both.
pub fn one_verdict()
    ensures one_run { (s : RunConfig) (text : List ℕ) (es ds : List Entry) → s.procs < 2 ^ 64 → IsTraceOf s text es → IsTraceOf s text ds → es
        ≡ ds }
    ensures not_both { (s : RunConfig) (text : List ℕ) (line : ℕ) (es ds : List Entry) → s.procs < 2 ^ 64 → IsTraceOf s text es
        → IsWrongAt s text line ds → ⊥ }
    ensures one_line { (s : RunConfig) (text : List ℕ) (j k : ℕ) (es ds : List Entry) → s.procs < 2 ^ 64 → IsWrongAt s text j es
        → IsWrongAt s text k ds → es ≡ ds }
{}
