// Errors of the command line.
use std::alloc::AllocError;
use thiserror::Error;

/// Why the command-line arguments yield no job.
#[derive(Debug, Drop, PartialEq, Eq, Error)]
pub enum WordsErr {
    /// They aren't a valid command.
    #[error("the words are no command")]
    Usage,
    /// Out of memory.
    #[error("out of memory")]
    Memory,
}

impl From<AllocError> for WordsErr {
    ghost use Rattle.std.specs.Prelude.{◌≡◌};
    ghost use Rattle.ti_words.specs.declared.error.WordsErr.TheVariants.{Memory};

    ghost from_gives = { λ _ e. e ≡ Memory };

    fn from(_: AllocError) -> WordsErr {
        WordsErr::Memory
    }
}
