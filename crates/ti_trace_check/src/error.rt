// The errors of a check.

use thiserror::Error;
use ti_base::Memory;
use ti_io::Failed;

/// The errors of a check.
#[derive(Debug, Drop, PartialEq, Eq, Error)]
pub enum TraceErr {
    /// A read of the source failed.
    #[error("the trace can't be read")]
    Read,
    /// Out of memory.
    #[error("out of memory")]
    Memory,
}

impl From<Failed> for TraceErr {
    ghost use Rattle.std.specs.Prelude.{◌≡◌};
    ghost use Rattle.ti_trace_check.specs.declared.error.TraceErr.TheVariants.{Read};

    ghost from_gives = { λ _ e. e ≡ Read };

    fn from(_: Failed) -> TraceErr {
        TraceErr::Read
    }
}

impl From<Memory> for TraceErr {
    ghost use Rattle.std.specs.Prelude.{◌≡◌};
    ghost use Rattle.ti_trace_check.specs.declared.error.TraceErr.TheVariants.{Memory as NoMemory};

    ghost from_gives = { λ _ e. e ≡ NoMemory };

    fn from(_: Memory) -> TraceErr {
        TraceErr::Memory
    }
}
