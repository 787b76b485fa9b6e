use memory_core::Memory;
use std::alloc::AllocFailed;
use thiserror::Error;

/// Why a text has no words. Places are those of bytes, counted from 0. The fault at the first place is
/// answered, of several at one place the first in this order, and `Unclosed` comes last.
#[derive(Clone, Copy, Debug, PartialEq, Eq, Error)]
pub enum WordFault {
    /// The byte at this place stands in no text, or only inside braces.
    #[error("bad byte at {0}")]
    BadByte(u32),
    /// At this place a `}` closes no group, or a word begins without a blank after the one before.
    #[error("extra character at {0}")]
    Extra(u32),
    /// The `{` at this place opens one group more than may be open.
    #[error("too many open braces at {0}")]
    TooDeep(u32),
    /// The text ends inside a group.
    #[error("missing close brace")]
    Unclosed,
    /// There was no memory.
    #[error("out of memory")]
    Memory,
}

impl From<Memory> for WordFault {
    ghost use Rattle.std.specs.Prelude.{◌≡◌};
    ghost use Rattle.tcl_words.specs.declared.fault.WordFault.TheVariants as faults;

    ghost from_gives = { λ _ e. e ≡ faults.Memory };

    fn from(_error: Memory) -> WordFault {
        WordFault::Memory
    }
}

impl<T: Drop> From<AllocFailed<T>> for WordFault {
    ghost use Rattle.std.specs.Prelude.{◌≡◌};
    ghost use Rattle.tcl_words.specs.declared.fault.WordFault.TheVariants as faults;

    ghost from_gives = { λ _ e. e ≡ faults.Memory };

    fn from(_error: AllocFailed<T>) -> WordFault {
        WordFault::Memory
    }
}
