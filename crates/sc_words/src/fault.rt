ghost use Rattle.std.specs.Prelude.{◌≡◌};
ghost use Rattle.sc_words.specs.declared.fault.WordsFault.TheVariants as faults;

use scm_text::OutOfMemory;
use thiserror::Error;

/// Why words are no command.
#[derive(Clone, Copy, Debug, PartialEq, Eq, Error)]
pub enum WordsFault {
    /// The first word that doesn't fit, counted from 0, or the count of words where one is missing.
    #[error("word {0} doesn't fit")]
    BadWord(usize),
    #[error("out of memory")]
    OutOfMemory,
}

impl From<OutOfMemory> for WordsFault {
    ghost from_gives = { λ _ e. e ≡ faults.OutOfMemory };

    fn from(_fault: OutOfMemory) -> WordsFault {
        WordsFault::OutOfMemory
    }
}
