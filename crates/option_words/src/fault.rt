//! Why words of the command line are no options.
use memory_core::Memory;
use thiserror::Error;

/// Why there are no options.
#[derive(Clone, Copy, Debug, PartialEq, Eq, Error)]
pub enum OptionsFault {
    /// The words are not in the grammar.
    #[error("usage")]
    Usage,
    /// There was no memory.
    #[error("out of memory")]
    Memory,
}

impl From<Memory> for OptionsFault {
    ghost use Rattle.std.specs.Prelude.{◌≡◌};
    ghost use Rattle.option_words.specs.declared.fault.OptionsFault.TheVariants as faults;

    ghost from_gives = { λ _ e. e ≡ faults.Memory };

    fn from(_error: Memory) -> OptionsFault {
        OptionsFault::Memory
    }
}
