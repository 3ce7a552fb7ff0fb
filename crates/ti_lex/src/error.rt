// Errors of the lexer.
ghost use Rattle.std.specs.Prelude.{◌≡◌};

use std::alloc::{AllocError, AllocFailed};
use thiserror::Error;
use ti_base::Place;
use ti_rules::{Refusal, Rule};

/// Why `lex` fails.
#[derive(Debug, Drop, Error)]
pub enum LexErr {
    /// A lexical error: the rule that the source breaks, and the position.
    #[error("the text is refused")]
    Refused(Refusal),
    /// Out of memory.
    #[error("out of memory")]
    Memory,
}

impl From<AllocError> for LexErr {
    ghost use Rattle.std.specs.Prelude.{◌≡◌};
    ghost use Rattle.ti_lex.specs.declared.error.LexErr.TheVariants.{Memory};

    ghost from_gives = { λ _ e. e ≡ Memory };

    fn from(_: AllocError) -> LexErr {
        LexErr::Memory
    }
}

impl<T: Drop> From<AllocFailed<T>> for LexErr {
    ghost use Rattle.std.specs.Prelude.{◌≡◌};
    ghost use Rattle.ti_lex.specs.declared.error.LexErr.TheVariants.{Memory};

    ghost from_gives = { λ _ e. e ≡ Memory };

    fn from(_: AllocFailed<T>) -> LexErr {
        LexErr::Memory
    }
}

/// A lexical error of this rule at this position.
pub fn lex_error(rule: Rule, place: Place) -> LexErr
    ensures { result ≡ LexErr.Refused (record { rule = rule; place = place }) }
{
    LexErr::Refused(Refusal { rule, place })
}
