// Why an object or grid isn't made.

use ti_base::{FaultKind, Memory};

/// Why an object or grid isn't made.
#[derive(Clone, Copy, Debug, PartialEq, Eq)]
pub enum HeapErr {
    /// A fault of the language.
    Faulted(FaultKind),
    /// Out of memory.
    Memory,
}

/// An allocation failure is `HeapErr::Memory`, so that `?` passes it on.
impl From<Memory> for HeapErr {
    ghost use Rattle.std.specs.Prelude.{◌≡◌};
    ghost use Rattle.ti_heap.specs.declared.error.HeapErr.TheVariants.{Memory};

    ghost from_gives = { λ _ e. e ≡ Memory };

    fn from(_: Memory) -> HeapErr {
        HeapErr::Memory
    }
}
