// Why a parsing function stops.

use std::alloc::{AllocError, AllocFailed};
use ti_base::Memory;

/// The internal error type of parsing functions. On Refused and TooDeep, the failing token is the next token of the input.
#[derive(Clone, Copy)]
pub enum ParseStop {
    Memory,
    /// The next token is unexpected.
    Refused,
    /// The next token is above a limit on nesting or weight.
    TooDeep,
    /// Out of fuel. It never happens if the fuel is more than the number of tokens.
    OutOfFuel,
}

impl From<AllocError> for ParseStop {
    ghost use Rattle.std.specs.Prelude.{◌≡◌};
    ghost use Rattle.ti_parse_expr.specs.declared.parse_stop.ParseStop.TheVariants.{Memory};

    ghost from_gives = { λ _ e. e ≡ Memory };

    fn from(_: AllocError) -> ParseStop {
        ParseStop::Memory
    }
}

impl<T: Drop> From<AllocFailed<T>> for ParseStop {
    ghost use Rattle.std.specs.Prelude.{◌≡◌};
    ghost use Rattle.ti_parse_expr.specs.declared.parse_stop.ParseStop.TheVariants.{Memory};

    ghost from_gives = { λ _ e. e ≡ Memory };

    fn from(_: AllocFailed<T>) -> ParseStop {
        ParseStop::Memory
    }
}

impl From<Memory> for ParseStop {
    ghost use Rattle.std.specs.Prelude.{◌≡◌};
    ghost use Rattle.ti_parse_expr.specs.declared.parse_stop.ParseStop.TheVariants.{Memory};

    ghost from_gives = { λ _ e. e ≡ Memory };

    fn from(_: Memory) -> ParseStop {
        ParseStop::Memory
    }
}
