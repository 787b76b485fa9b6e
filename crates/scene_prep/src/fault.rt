ghost use Rattle.std.specs.Prelude.{◌≡◌};
ghost use Rattle.scene_prep.specs.declared.fault.PrepFault.TheVariants as fault;

use name_core::Name;
use std::alloc::{AllocError, AllocFailed};
use thiserror::Error;

/// Why a list of names has no scene. The first that holds is answered.
#[derive(Clone, Copy, Debug, PartialEq, Eq, Error)]
pub enum PrepFault {
    /// This name is not in the directory, the first such of those given.
    #[error("a name is not there")]
    Missing(Name),
    /// The size of the names is over `MOST_SIZE`: it, or 4,294,967,295 where it is more.
    #[error("{0} instances")]
    TooMany(u32),
    /// There was no memory.
    #[error("out of memory")]
    Memory,
}

impl From<memory_core::Memory> for PrepFault {
    ghost from_gives = { λ _ e. e ≡ fault.Memory };

    fn from(_error: memory_core::Memory) -> PrepFault {
        PrepFault::Memory
    }
}

impl From<AllocError> for PrepFault {
    ghost from_gives = { λ _ e. e ≡ fault.Memory };

    fn from(_error: AllocError) -> PrepFault {
        PrepFault::Memory
    }
}

impl<T: Drop> From<AllocFailed<T>> for PrepFault {
    ghost from_gives = { λ _ e. e ≡ fault.Memory };

    fn from(_error: AllocFailed<T>) -> PrepFault {
        PrepFault::Memory
    }
}
