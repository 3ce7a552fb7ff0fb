// Why a domain isn't made.

use ti_base::Memory;

/// Why a rectangle or a union doesn't give a domain.
#[derive(Clone, Copy, Debug, PartialEq, Eq)]
pub enum DomErr {
    /// It has more than 1,048,576 points.
    TooLarge,
    /// Out of memory.
    Memory,
}

/// An allocation failure is `DomErr::Memory`, so that `?` passes it on.
impl From<Memory> for DomErr {
    ghost use Rattle.std.specs.Prelude.{◌≡◌};
    ghost use Rattle.ti_domain.specs.declared.error.DomErr.TheVariants.{Memory};

    ghost from_gives = { λ _ e. e ≡ Memory };

    fn from(_: Memory) -> DomErr {
        DomErr::Memory
    }
}
