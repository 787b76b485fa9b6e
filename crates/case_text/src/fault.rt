use memory_core::Memory;
use std::alloc::{AllocError, AllocFailed};
use std::io;

/// Why a file of cases can't be read.
#[derive(Clone, Copy)]
pub enum CaseFault {
    /// A line is none of a file of cases, or stands where it has no place.
    Line,
    /// A `\` in a text begins no form that is known.
    Escape,
    /// A number is missing, has another byte than digits, or is too large.
    Number,
    /// A row asks what no table of the program has.
    Kind,
    /// A file or the words of the program can't be read.
    File,
    /// There was no memory.
    Memory,
}

impl CaseFault {
    /// The fault as it is printed.
    pub fn text(self) -> &'static str {
        match self {
            CaseFault::Line => "no line of a file of cases",
            CaseFault::Escape => "no escape",
            CaseFault::Number => "no number",
            CaseFault::Kind => "no such row",
            CaseFault::File => "no file",
            CaseFault::Memory => "out of memory",
        }
    }
}

impl From<Memory> for CaseFault {
    fn from(_error: Memory) -> CaseFault {
        CaseFault::Memory
    }
}

impl From<io::Error> for CaseFault {
    fn from(_error: io::Error) -> CaseFault {
        CaseFault::File
    }
}

impl From<AllocError> for CaseFault {
    fn from(_error: AllocError) -> CaseFault {
        CaseFault::Memory
    }
}

impl<T: Drop> From<AllocFailed<T>> for CaseFault {
    fn from(_error: AllocFailed<T>) -> CaseFault {
        CaseFault::Memory
    }
}
