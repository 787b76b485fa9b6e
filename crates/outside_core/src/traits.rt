ghost use Rattle.std.specs.Prelude.{◌≡◌, ◌≢◌, ◌<◌, ◌≤◌, ◌++◌, ◌∷◌, [], List, Option, ℕ, length, take, vec_len, IfOk, IfSome, OnOk, OnErr};
ghost use Rattle.std.specs.Option.{option_map};
ghost use Rattle.std.specs.Io.{ReadsAtMost};
ghost use Rattle.std.specs.Io.KnownBytes.{Appends, Consumes, IsAtEnd, Keeps};
ghost use Rattle.outside_core.specs.Faults.{Rose};
ghost use Rattle.outside_core.specs.Told.{Stays, Grows, NoneLeftExactly};
ghost use Rattle.outside_core.specs.Files.{Gives, SetsFile};
ghost use Rattle.outside_core.specs.declared.traits.File.{File};

use item_list::Items;
use memory_core::Memory;
use name_core::Name;
use std::alloc::{AllocError, AllocFailed, Global};
use thiserror::Error;

/// A call on the outside failed.
#[derive(Clone, Copy, Debug, PartialEq, Eq, Error)]
#[error("a call on the outside failed")]
pub struct Failed;

/// Why a call on a shelf has no answer.
#[derive(Clone, Copy, Debug, PartialEq, Eq, Error)]
pub enum ShelfFault {
    /// The call failed, and counts as a fault of the shelf.
    #[error("a call on the shelf failed")]
    Failed,
    /// There was no memory. This is no fault of the shelf.
    #[error("out of memory")]
    Memory,
}

impl From<Memory> for ShelfFault {
    ghost use Rattle.std.specs.Prelude.{◌≡◌};
    ghost use Rattle.outside_core.specs.declared.traits.ShelfFault.TheVariants.{Memory};

    ghost from_gives = { λ _ e. e ≡ Memory };

    fn from(_error: Memory) -> ShelfFault {
        ShelfFault::Memory
    }
}

impl From<AllocError> for ShelfFault {
    ghost use Rattle.std.specs.Prelude.{◌≡◌};
    ghost use Rattle.outside_core.specs.declared.traits.ShelfFault.TheVariants.{Memory};

    ghost from_gives = { λ _ e. e ≡ Memory };

    fn from(_error: AllocError) -> ShelfFault {
        ShelfFault::Memory
    }
}

impl<T: Drop> From<AllocFailed<T>> for ShelfFault {
    ghost use Rattle.std.specs.Prelude.{◌≡◌};
    ghost use Rattle.outside_core.specs.declared.traits.ShelfFault.TheVariants.{Memory};

    ghost from_gives = { λ _ e. e ≡ Memory };

    fn from(_error: AllocFailed<T>) -> ShelfFault {
        ShelfFault::Memory
    }
}

impl From<Failed> for ShelfFault {
    ghost use Rattle.std.specs.Prelude.{◌≡◌};
    ghost use Rattle.outside_core.specs.declared.traits.ShelfFault.TheVariants.{Failed};

    ghost from_gives = { λ _ e. e ≡ Failed };

    fn from(_error: Failed) -> ShelfFault {
        ShelfFault::Failed
    }
}

/// A file: its name, and all of its bytes.
#[derive(Debug, PartialEq, Eq, Drop)]
pub struct File {
    pub name: Name,
    pub bytes: Items<u8>,
}

/// Where bytes come from.
pub trait Source {
    /// The bytes that are left, where the source tells them.
    ghost left: { Self → Option (List ℕ) };

    /// How often a read has failed.
    ghost faults: { Self → ℕ };

    /// Reads bytes to the front of a buffer that isn't empty, and answers how many.
    fn read(&mut self, buf: &mut [u8]) -> Result<usize, Failed>
        requires room { 0 < length buf.old }

        ensures within { ReadsAtMost result buf.new }

        // Where the source tells what is left, the bytes placed are the first of these, and there are
        // none exactly where nothing is left.
        ensures front { IfOk result (λ n. Consumes (left self.old) (left self.new) (take n buf.new)) }
        ensures exact_end { IfOk result (λ n. NoneLeftExactly n (left self.old)) }
        ensures end { IfOk result (λ n. n ≡ 0 → IsAtEnd (left self.new)) }
        ensures stays { OnErr result (Keeps (left self.old) (left self.new)) }

        ensures never_falls { faults self.old ≤ faults self.new }
        ensures steady { OnOk result (faults self.new ≡ faults self.old) }
        ensures rose { OnErr result (Rose (faults self.old) (faults self.new)) };
}

/// Where bytes go.
pub trait Sink {
    /// The bytes that it holds, where the sink tells them.
    ghost held: { Self → Option (List ℕ) };

    /// How often a write has failed.
    ghost faults: { Self → ℕ };

    /// Writes first bytes of a piece that isn't empty, and answers how many.
    fn write(&mut self, piece: &[u8]) -> Result<usize, Failed>
        requires some { 0 < length piece.now }

        ensures within { IfOk result (λ n. (0 < n) × (n ≤ length piece.now)) }

        // Where the sink tells what it holds, these bytes are appended.
        ensures front { IfOk result (λ n. Appends (held self.old) (held self.new) (take n piece.now)) }
        ensures stays { OnErr result (Keeps (held self.old) (held self.new)) }

        ensures never_falls { faults self.old ≤ faults self.new }
        ensures steady { OnOk result (faults self.new ≡ faults self.old) }
        ensures rose { OnErr result (Rose (faults self.old) (faults self.new)) };
}

/// Where files are kept by name.
pub trait Shelf {
    /// The files that there are, in the order in which they were set, where the shelf tells them. Where a
    /// name stands in it more than once, the last file of that name counts.
    ghost files: { Self → Option (List File) };

    /// The files that were put, in order, where the shelf tells them.
    ghost puts: { Self → Option (List File) };

    /// How often a call has failed.
    ghost faults: { Self → ℕ };

    /// The first `most` bytes of a file, or all of them where it has no more, or None where there is no
    /// such file.
    fn get(
        &mut self,
        alloc: Global,
        name: &Name,
        most: usize,
    ) -> Result<Option<Vec<u8>>, ShelfFault>
        ensures within { IfOk result (λ found. IfSome found (λ bytes. vec_len bytes ≤ most)) }
        ensures content { IfOk result (λ found. Gives (files self.old) name.now most (option_map (λ bytes. bytes.items) found)) }
        ensures files_stay { Stays (files self.old) (files self.new) }
        ensures puts_stay { Stays (puts self.old) (puts self.new) }

        ensures never_falls { faults self.old ≤ faults self.new }
        ensures steady { result ≢ Err ShelfFault.Failed → faults self.new ≡ faults self.old }
        ensures rose { result ≡ Err ShelfFault.Failed → Rose (faults self.old) (faults self.new) };

    /// Sets the whole bytes of a file.
    fn put(&mut self, name: &Name, bytes: &[u8]) -> Result<(), ShelfFault>
        ensures set { OnOk result (SetsFile (files self.old) (files self.new) name.now bytes.now) }
        ensures added { OnOk result (Grows (puts self.old) (puts self.new) (record { name = name.now; bytes = bytes.now })) }
        ensures files_stay { OnErr result (Stays (files self.old) (files self.new)) }
        ensures puts_stay { OnErr result (Stays (puts self.old) (puts self.new)) }

        ensures never_falls { faults self.old ≤ faults self.new }
        ensures steady { result ≢ Err ShelfFault.Failed → faults self.new ≡ faults self.old }
        ensures rose { result ≡ Err ShelfFault.Failed → Rose (faults self.old) (faults self.new) };
}
