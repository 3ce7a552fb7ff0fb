// The code of a run as a type: so a type that speaks of a process says which code the process runs.

use std::marker::Brand;

/// The code of a run, named by a type, as `RunConfigOf` names its program, number of processes and fuel.
pub trait CodeOf {
    ghost use Rattle.ti_code.specs.Programs.{Code as Methods};

    // The code that all processes run.
    ghost code: { Methods };
}

/// A brand has no code of its own: the call that makes the brand picks it.
impl CodeOf for Brand {
    ghost use Rattle.std.specs.Prelude.{[]};

    ghost code = { record { methods = []; main = 0 } };
}
