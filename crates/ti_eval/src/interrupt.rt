// Why a computation is interrupted. Errors of the allocator become one of these by `?`.

use std::alloc::{AllocError, AllocFailed};
use ti_base::{Action, FaultKind, Memory, Place};

/// Why a computation yields no value yet: it requests an action at a place, fails with a fault, or is out of memory.
#[derive(Clone, Copy)]
pub enum Interrupt {
    Request(Place, Action),
    Fault(FaultKind, Place),
    Memory,
}

impl From<Memory> for Interrupt {
    ghost use Rattle.std.specs.Prelude.{◌≡◌};
    ghost use Rattle.ti_eval.specs.declared.interrupt.Interrupt.TheVariants.{Memory};

    ghost from_gives = { λ _ e. e ≡ Memory };

    fn from(_: Memory) -> Interrupt {
        Interrupt::Memory
    }
}

impl From<AllocError> for Interrupt {
    ghost use Rattle.std.specs.Prelude.{◌≡◌};
    ghost use Rattle.ti_eval.specs.declared.interrupt.Interrupt.TheVariants.{Memory};

    ghost from_gives = { λ _ e. e ≡ Memory };

    fn from(_: AllocError) -> Interrupt {
        Interrupt::Memory
    }
}

impl<T: Drop> From<AllocFailed<T>> for Interrupt {
    ghost use Rattle.std.specs.Prelude.{◌≡◌};
    ghost use Rattle.ti_eval.specs.declared.interrupt.Interrupt.TheVariants.{Memory};

    ghost from_gives = { λ _ e. e ≡ Memory };

    fn from(_: AllocFailed<T>) -> Interrupt {
        Interrupt::Memory
    }
}
