// Errors of name resolution.
ghost use Rattle.std.specs.Prelude.{◌≡◌};

use thiserror::Error;
use ti_base::Memory;
use ti_rules::Refusal;

/// Why `resolve` fails.
#[derive(Debug, Drop, Error)]
pub enum NameErr {
    /// The program breaks a naming rule: the rule and the position.
    #[error("the text is refused")]
    Refused(Refusal),
    /// Out of memory.
    #[error("out of memory")]
    Memory,
}

impl From<Memory> for NameErr {
    ghost use Rattle.std.specs.Prelude.{◌≡◌};
    ghost use Rattle.ti_names.specs.declared.error.NameErr.TheVariants.{Memory};

    ghost from_gives = { λ _ e. e ≡ Memory };

    fn from(_: Memory) -> NameErr {
        NameErr::Memory
    }
}
