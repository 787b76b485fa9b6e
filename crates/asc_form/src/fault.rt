use memory_core::Memory as OutOfMemory;
use std::alloc::{AllocError, AllocFailed};
use thiserror::Error;

/// What is wrong with a command of a text. The first that holds is answered.
#[derive(Clone, Copy, Debug, PartialEq, Eq, Error)]
pub enum AscKind {
    /// The words can't be read.
    #[error("words")]
    Words,
    /// The command, the type or the unit isn't known, its first words are too few, or `units` has more than one word.
    #[error("type")]
    NoType,
    /// A key is not known, given twice, missing or without a value, a value is not in its form, a title or a kept value is
    /// no text, or `attr set` names no object.
    #[error("attr")]
    Attr,
    /// The tree is not in its form, or has over 4,096 leaves.
    #[error("tree")]
    Tree,
    /// A name is none.
    #[error("name")]
    Name,
    /// A number or an attribute's value is out of its range, or a matrix is no placement or shifts too far.
    #[error("number")]
    Number,
    /// The numbers make no solid.
    #[error("shape")]
    Shape,
    /// There is an object of that name.
    #[error("exists")]
    Exists,
    /// There are 65,535 objects.
    #[error("full")]
    Full,
    /// The combination would be its own member, directly or through others.
    #[error("cycle")]
    Cycle,
    /// Over 16 combinations would lie one in the other.
    #[error("deep")]
    Deep,
}

/// Why there is no directory of a text.
#[derive(Clone, Copy, Debug, PartialEq, Eq, Error)]
pub enum AscFault {
    /// The first faulty command begins on this line, counted from 1.
    #[error("line {line} {kind}")]
    At { line: u32, kind: AscKind },
    /// There was no memory.
    #[error("out of memory")]
    Memory,
}

impl From<OutOfMemory> for AscFault {
    ghost use Rattle.std.specs.Prelude.{◌≡◌};
    ghost use Rattle.asc_form.specs.declared.fault.AscFault.TheVariants as faults;

    ghost from_gives = { λ _ e. e ≡ faults.Memory };

    fn from(_error: OutOfMemory) -> AscFault {
        AscFault::Memory
    }
}

impl From<AllocError> for AscFault {
    ghost use Rattle.std.specs.Prelude.{◌≡◌};
    ghost use Rattle.asc_form.specs.declared.fault.AscFault.TheVariants as faults;

    ghost from_gives = { λ _ e. e ≡ faults.Memory };

    fn from(_error: AllocError) -> AscFault {
        AscFault::Memory
    }
}

impl<T: Drop> From<AllocFailed<T>> for AscFault {
    ghost use Rattle.std.specs.Prelude.{◌≡◌};
    ghost use Rattle.asc_form.specs.declared.fault.AscFault.TheVariants as faults;

    ghost from_gives = { λ _ e. e ≡ faults.Memory };

    fn from(_error: AllocFailed<T>) -> AscFault {
        AscFault::Memory
    }
}
