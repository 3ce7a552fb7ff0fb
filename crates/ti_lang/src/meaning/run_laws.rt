// Theorems about every run of every program.
ghost use Rattle.std.specs.Prelude.{◌≡◌, ◌++◌, ℕ, List, map};
ghost use Rattle.ti_base.specs.declared.entry.Entry.{Entry};
ghost use Rattle.ti_lang.specs.Meaning.Processes.{RunConfig, Process};
ghost use Rattle.ti_lang.specs.Meaning.Histories.{history_of};
ghost use Rattle.ti_lang.specs.Meaning.HeapAnswers.{IsAnswered};
ghost use Rattle.ti_lang.specs.Meaning.Runs.{ProcAfter, CanTake, IsRun, IsSolo, IsComplete};

/// The entries of a run determine the configuration of each process.
pub fn one_world()
    ensures { (s : RunConfig) (es : List Entry) (i : ℕ) (p q : Process) → ProcAfter s es i p → ProcAfter s es i q → p ≡ q }
{}

/// A process can append at most one entry: the heap's answer to its action is unique.
pub fn one_entry()
    ensures { (s : RunConfig) (es : List Entry) (i : ℕ) (d e : Entry) → CanTake s es i d → CanTake s es i e → d ≡ e }
{}

/// The schedule determines the run: two runs whose entries are, one by one, of the same processes are equal.
pub fn one_run()
    ensures { (s : RunConfig) (es ds : List Entry) → IsRun s es → IsRun s ds
        → map (λ (e : Entry). e.proc) es ≡ map (λ (e : Entry). e.proc) ds → es ≡ ds }
{}

/// Runs are closed under prefixes.
pub fn fronts_are_runs()
    ensures { (s : RunConfig) (es rest : List Entry) → IsRun s (es ++ rest) → IsRun s es }
{}

/// The canonical run, in which always the lowest-numbered process that can append an entry does, is a run, and at most one is complete.
pub fn one_solo_run()
    ensures is_run { (s : RunConfig) (es : List Entry) → IsSolo s es → IsRun s es }
    ensures only { (s : RunConfig) (es ds : List Entry) → IsSolo s es → IsComplete s es → IsSolo s ds → IsComplete s ds → es ≡ ds }
{}

/// In a run, each entry has the answer that the entries before it determine; so the theorems about heaps hold of the history of every
/// run.
pub fn runs_are_answered()
    ensures { (s : RunConfig) (es : List Entry) → IsRun s es → IsAnswered s.program (history_of es) }
{}
