// The simulator by which the worked examples are proved computes the canonical run.
ghost use Rattle.std.specs.Prelude.{ℕ};
ghost use Rattle.ti_lang.specs.Meaning.Processes.{RunConfig};
ghost use Rattle.ti_lang.specs.Meaning.Runs.{IsSolo};
ghost use Rattle.ti_rows.specs.Simulation.{solo};

/// The simulated entries are a run: the one in which always the lowest-numbered process that can take an entry does so.
pub fn simulates()
    ensures { (s : RunConfig) (turns : ℕ) → IsSolo s (solo s turns) }
{}
