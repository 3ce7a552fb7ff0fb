// Errors of the checker.

use thiserror::Error;
use ti_base::Memory;
use ti_rules::Refusal;

/// Why `check` or `check_types` fails.
#[derive(Debug, Drop, Error)]
pub enum CheckErr {
    /// The program breaks a rule of types, qualifiers or single values: the rule and the position.
    #[error("the text is refused")]
    Refused(Refusal),
    /// Out of memory.
    #[error("out of memory")]
    Memory,
}

impl From<Memory> for CheckErr {
    ghost use Rattle.std.specs.Prelude.{◌≡◌};
    ghost use Rattle.ti_check.specs.declared.error.CheckErr.TheVariants.{Memory};

    ghost from_gives = { λ _ e. e ≡ Memory };

    fn from(_: Memory) -> CheckErr {
        CheckErr::Memory
    }
}
