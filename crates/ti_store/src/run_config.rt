// Type-level configuration of a run.

use std::marker::Brand;

/// The configuration of a run: its program, the number of processes, and the fuel of each.
///
/// A type that represents it, so that a `Store<J>` is known to have it even if it was obtained through a lock.
pub trait RunConfigOf {
    ghost use Rattle.ti_lang.specs.Meaning.Processes.{RunConfig};

    // What all processes of the run share.
    ghost config: { RunConfig };
}

/// A brand has no configuration of its own: the call that introduces the brand chooses it.
impl RunConfigOf for Brand {
    ghost use Rattle.std.specs.Prelude.{[]};

    ghost config = { record { program = record { classes = []; methods = []; main = 0; names = []; literals = [] }; procs = 0; fuel = 0 } };
}
