use memory_core::Memory as OutOfMemory;
use plane_geom::ShapeFault;
use std::alloc::{AllocError, AllocFailed};
use thiserror::Error;

/// Why words are no object. The first that holds is answered. A word is named by its number, the command's own word
/// being 1.
#[derive(Clone, Copy, Debug, PartialEq, Eq, Error)]
pub enum PutFault {
    /// The words do not begin with `put`, a name and a type that is known.
    #[error("no known type")]
    NoType,
    /// A key is not known, given twice, missing or without a value, the value of a solid's key is not in its form, or a
    /// value to be kept is no text.
    #[error("keys or values not in their form")]
    Attr,
    /// The tree is not in its form, or has over 4,096 leaves.
    #[error("no tree")]
    Tree,
    /// This word is the first that is no name, where one is wanted, or holds one that is none.
    #[error("word {0} is no name")]
    Name(u32),
    /// This word is the first with a number that is none of its kind, a whole number or a length, with a number or an
    /// attribute's value out of its range, or with a matrix that is no placement or shifts too far.
    #[error("word {0} has no such number")]
    Number(u32),
    /// The numbers make no solid.
    #[error("no solid")]
    Shape(ShapeFault),
    /// There was no memory.
    #[error("out of memory")]
    Memory,
}

impl From<OutOfMemory> for PutFault {
    ghost use Rattle.std.specs.Prelude.{◌≡◌};
    ghost use Rattle.put_form.specs.declared.fault.PutFault.TheVariants as faults;

    ghost from_gives = { λ _ e. e ≡ faults.Memory };

    fn from(_error: OutOfMemory) -> PutFault {
        PutFault::Memory
    }
}

impl From<AllocError> for PutFault {
    ghost use Rattle.std.specs.Prelude.{◌≡◌};
    ghost use Rattle.put_form.specs.declared.fault.PutFault.TheVariants as faults;

    ghost from_gives = { λ _ e. e ≡ faults.Memory };

    fn from(_error: AllocError) -> PutFault {
        PutFault::Memory
    }
}

impl<T: Drop> From<AllocFailed<T>> for PutFault {
    ghost use Rattle.std.specs.Prelude.{◌≡◌};
    ghost use Rattle.put_form.specs.declared.fault.PutFault.TheVariants as faults;

    ghost from_gives = { λ _ e. e ≡ faults.Memory };

    fn from(_error: AllocFailed<T>) -> PutFault {
        PutFault::Memory
    }
}
