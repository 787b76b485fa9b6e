ghost use Rattle.std.specs.Prelude.{◌≡◌};
ghost use Rattle.comb_tree.specs.declared.fault.TreeFault.TheVariants as fault;

use name_core::Name;
use std::alloc::{AllocError, AllocFailed};
use thiserror::Error;

/// Why a tree is not made or not changed. A tree that was to be changed stays as it was.
#[derive(Clone, Copy, Debug, PartialEq, Eq, Error)]
pub enum TreeFault {
    /// No list gives the tree.
    #[error("the tree has no list form")]
    NotList,
    /// No entry has this name, the first such of those given.
    #[error("no entry of a given name")]
    Absent(Name),
    /// The entry of this name heads a product and would go, while a later entry of the product stays.
    #[error("a product would lose its head")]
    Heads(Name),
    /// The tree would have this many leaves, over `LEAVES`.
    #[error("{0} leaves")]
    Members(u32),
    /// There was no memory.
    #[error("out of memory")]
    Memory,
}

impl From<memory_core::Memory> for TreeFault {
    ghost from_gives = { λ _ e. e ≡ fault.Memory };

    fn from(_error: memory_core::Memory) -> TreeFault {
        TreeFault::Memory
    }
}

impl From<AllocError> for TreeFault {
    ghost from_gives = { λ _ e. e ≡ fault.Memory };

    fn from(_error: AllocError) -> TreeFault {
        TreeFault::Memory
    }
}

impl<T: Drop> From<AllocFailed<T>> for TreeFault {
    ghost from_gives = { λ _ e. e ≡ fault.Memory };

    fn from(_error: AllocFailed<T>) -> TreeFault {
        TreeFault::Memory
    }
}
