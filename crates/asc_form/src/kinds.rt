//! Why a command makes nothing of a directory.
ghost use Rattle.std.specs.Prelude.{◌≡◌};
ghost use Rattle.asc_form.specs.Steps as steps;

use crate::fault::{AscFault, AscKind};
use directory::DirFault;
use memory_core::Memory;
use put_form::PutFault;

/// Why a command makes nothing of a directory.
#[derive(Clone, Copy, Debug, PartialEq, Eq)]
pub(crate) enum CommandFault {
    /// The command is faulty.
    Faulty(AscKind),
    /// There was no memory.
    Memory,
}

impl From<AscKind> for CommandFault {
    ghost use Rattle.std.specs.Prelude.{◌≡◌};
    ghost use Rattle.asc_form.specs.declared.kinds.CommandFault.TheVariants as faults;

    ghost from_gives = { λ kind e. e ≡ faults.Faulty kind };

    fn from(kind: AscKind) -> CommandFault {
        CommandFault::Faulty(kind)
    }
}

impl From<Memory> for CommandFault {
    ghost use Rattle.std.specs.Prelude.{◌≡◌};
    ghost use Rattle.asc_form.specs.declared.kinds.CommandFault.TheVariants as faults;

    ghost from_gives = { λ _ e. e ≡ faults.Memory };

    fn from(_error: Memory) -> CommandFault {
        CommandFault::Memory
    }
}

/// Why words that are to be an object, or attributes to be kept, are none.
pub(crate) fn of_put(fault: PutFault) -> CommandFault
    ensures { result ≡ steps.of_put fault }
{
    match fault {
        PutFault::NoType => CommandFault::Faulty(AscKind::NoType),
        PutFault::Attr => CommandFault::Faulty(AscKind::Attr),
        PutFault::Tree => CommandFault::Faulty(AscKind::Tree),
        PutFault::Name(_) => CommandFault::Faulty(AscKind::Name),
        PutFault::Number(_) => CommandFault::Faulty(AscKind::Number),
        PutFault::Shape(_) => CommandFault::Faulty(AscKind::Shape),
        PutFault::Memory => CommandFault::Memory,
    }
}

/// Why an object is not put.
pub(crate) fn of_directory(fault: DirFault) -> CommandFault
    ensures { result ≡ steps.of_directory fault }
{
    match fault {
        DirFault::Exists => CommandFault::Faulty(AscKind::Exists),
        DirFault::Missing => CommandFault::Faulty(AscKind::Words),
        DirFault::Full => CommandFault::Faulty(AscKind::Full),
        DirFault::Cycle(_) => CommandFault::Faulty(AscKind::Cycle),
        DirFault::Deep(_) => CommandFault::Faulty(AscKind::Deep),
        DirFault::Memory => CommandFault::Memory,
    }
}

/// The fault of a text whose command on this line has one.
pub(crate) fn at_line(line: u32, fault: CommandFault) -> AscFault
    ensures { result ≡ steps.at_line line fault }
{
    match fault {
        CommandFault::Faulty(kind) => AscFault::At { line, kind },
        CommandFault::Memory => AscFault::Memory,
    }
}
