use command_set::Refusal;
use memory_core::Memory;
use put_form::PutFault;
use std::alloc::{AllocError, AllocFailed};

/// Why there is no command of a line that can be run.
#[derive(Clone, Copy, Debug, PartialEq, Eq)]
pub(crate) enum LineFault {
    /// The line is refused as it stands.
    Refused(Refusal),
    /// There was no memory.
    Memory,
}

impl From<Refusal> for LineFault {
    ghost use Rattle.std.specs.Prelude.{◌≡◌};
    ghost use Rattle.mged_words.specs.declared.fault.LineFault.TheVariants as faults;

    ghost from_gives = { λ refusal e. e ≡ faults.Refused refusal };

    fn from(refusal: Refusal) -> LineFault {
        LineFault::Refused(refusal)
    }
}

impl From<PutFault> for LineFault {
    ghost use Rattle.std.specs.Prelude.{◌≡◌};
    ghost use Rattle.mged_words.specs.Readings.{line_fault_of};

    ghost from_gives = { λ fault e. e ≡ line_fault_of fault };

    fn from(fault: PutFault) -> LineFault {
        match fault {
            PutFault::NoType | PutFault::Attr | PutFault::Tree => {
                LineFault::Refused(Refusal::Syntax)
            }
            PutFault::Name(word) => LineFault::Refused(Refusal::Name(word)),
            PutFault::Number(word) => LineFault::Refused(Refusal::Number(word)),
            PutFault::Shape(fault) => LineFault::Refused(Refusal::Shape(fault)),
            PutFault::Memory => LineFault::Memory,
        }
    }
}

impl From<Memory> for LineFault {
    ghost use Rattle.std.specs.Prelude.{◌≡◌};
    ghost use Rattle.mged_words.specs.declared.fault.LineFault.TheVariants as faults;

    ghost from_gives = { λ _ e. e ≡ faults.Memory };

    fn from(_error: Memory) -> LineFault {
        LineFault::Memory
    }
}

impl From<AllocError> for LineFault {
    ghost use Rattle.std.specs.Prelude.{◌≡◌};
    ghost use Rattle.mged_words.specs.declared.fault.LineFault.TheVariants as faults;

    ghost from_gives = { λ _ e. e ≡ faults.Memory };

    fn from(_error: AllocError) -> LineFault {
        LineFault::Memory
    }
}

impl<T: Drop> From<AllocFailed<T>> for LineFault {
    ghost use Rattle.std.specs.Prelude.{◌≡◌};
    ghost use Rattle.mged_words.specs.declared.fault.LineFault.TheVariants as faults;

    ghost from_gives = { λ _ e. e ≡ faults.Memory };

    fn from(_error: AllocFailed<T>) -> LineFault {
        LineFault::Memory
    }
}
