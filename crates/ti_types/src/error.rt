// Errors of `type_of`.

use thiserror::Error;
use ti_base::Memory;
use ti_rules::Refusal;

/// Why `type_of` fails.
#[derive(Debug, Drop, Error)]
pub enum TypeErr {
    /// A type error in the expression: the rule and the position.
    #[error("the text is refused")]
    Refused(Refusal),
    /// Out of memory.
    #[error("out of memory")]
    Memory,
}

impl From<Memory> for TypeErr {
    ghost use Rattle.std.specs.Prelude.{◌≡◌};
    ghost use Rattle.ti_types.specs.declared.error.TypeErr.TheVariants.{Memory};

    ghost from_gives = { λ _ e. e ≡ Memory };

    fn from(_: Memory) -> TypeErr {
        TypeErr::Memory
    }
}
