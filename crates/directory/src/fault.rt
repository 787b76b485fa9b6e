use memory_core::Memory;
use name_core::Name;
use thiserror::Error;

/// Why a directory is not changed. It stays as it was. The first that holds is answered, in this order, except that
/// `Memory` may stand in the place of any answer.
#[derive(Clone, Copy, Debug, PartialEq, Eq, Error)]
pub enum DirFault {
    /// The new name is there already.
    #[error("the name is there already")]
    Exists,
    /// The name is not there.
    #[error("no object of this name")]
    Missing,
    /// There are 65,535 objects.
    #[error("the directory is full")]
    Full,
    /// The directory would have a cycle through this name, which is the edited one.
    #[error("a cycle")]
    Cycle(Name),
    /// The greatest depth that the directory would have, over 16.
    #[error("{0} levels")]
    Deep(u32),
    /// There was no memory.
    #[error("out of memory")]
    Memory,
}

impl From<Memory> for DirFault {
    ghost use Rattle.std.specs.Prelude.{◌≡◌};
    ghost use Rattle.directory.specs.declared.fault.DirFault.TheVariants as faults;

    ghost from_gives = { λ _ e. e ≡ faults.Memory };

    fn from(_error: Memory) -> DirFault {
        DirFault::Memory
    }
}
