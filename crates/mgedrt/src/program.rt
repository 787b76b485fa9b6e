//! The program over any words, reader, writers and shelf.
ghost use Rattle.std.specs.Prelude.{◌≡◌, ◌≤◌, ◌⊎◌, ◌++◌, ◌∷◌, [], OnOk, OnErr, map, string_bytes};
ghost use Rattle.std.specs.Io.KnownBytes.{Appends};
ghost use Rattle.outside_core.specs.Faults.{Rose};
ghost use Rattle.outside_core.specs.Transfers.{IsCutShort};
ghost use Rattle.mged_top.specs.Outside.{outside};
ghost use Rattle.mged_top.specs.Statuses.{status_line};
ghost use Rattle.mgedrt.specs.Program.{IsProgram, IsSaid, ended_line, given_words, wordless_status};

use mged_top::{Status, StatusText, mged_main};
use outside_core::{Failed, Gate, Shelf, Sink, Source, write_all};
use std::alloc::AllocError;
use std::io::{Error, ErrorKind};
use std::sync::Wait;
use std::thread::Threads;

/// Why there are no words of the command line.
#[derive(Clone, Copy, Debug)]
pub(crate) enum WordsFault {
    /// A word is no text.
    NotText,
    /// There was no memory.
    Memory,
}

impl From<Error> for WordsFault {
    ghost use Rattle.std.specs.Prelude.{◌≡◌, ◌↔◌};
    ghost use Rattle.std.specs.IoError.{error_kind};
    ghost use Rattle.std.specs.declared.io.ErrorKind.TheVariants.{OutOfMemory};
    ghost use Rattle.mgedrt.specs.declared.program.WordsFault.{WordsFault};

    ghost from_gives = { λ error e. (e ≡ WordsFault.Memory) ↔ (error_kind error ≡ OutOfMemory) };

    fn from(error: Error) -> WordsFault {
        match error.kind() {
            ErrorKind::OutOfMemory => WordsFault::Memory,
            _ => WordsFault::NotText,
        }
    }
}

impl From<AllocError> for WordsFault {
    ghost use Rattle.std.specs.Prelude.{◌≡◌};
    ghost use Rattle.mgedrt.specs.declared.program.WordsFault.{WordsFault};

    ghost from_gives = { λ _ e. e ≡ WordsFault.Memory };

    fn from(_error: AllocError) -> WordsFault {
        WordsFault::Memory
    }
}

/// Writes a line and a line feed, or stops at the first write that fails.
fn write_ended<E: Sink>(error: &mut E, line: &[u8]) -> Result<(), Failed>
    ensures written { OnOk result (Appends (E.held error.old) (E.held error.new) (line.now ++ 10 ∷ [])) }
    ensures cut_short { OnErr result (IsCutShort (E.held error.old) (E.held error.new) (line.now ++ 10 ∷ [])) }
    ensures steady { OnOk result (E.faults error.new ≡ E.faults error.old) }
    ensures rose { OnErr result (Rose (E.faults error.old) (E.faults error.new)) }
{
    write_all(error, line)?;
    write_all(error, b"\n")
}

/// Says the line of a status on the error stream, where it has one. Where the stream takes nothing, the number still tells
/// the status.
fn say<E: Sink>(error: &mut E, status: &Status)
    ensures { IsSaid (ended_line (status_line status.now)) (E.held error.old) (E.held error.new) (E.faults error.old) (E.faults error.new) }
{
    let mut line = StatusText::new();
    status.write_line(&mut line);
    if line.bytes().is_empty() {
        return;
    }
    let _ = write_ended(error, line.bytes());
}

/// The status of words that can't be had.
fn wordless(fault: &WordsFault) -> Status
    ensures { result ≡ wordless_status fault.now }
{
    match fault {
        WordsFault::NotText => Status::Usage,
        WordsFault::Memory => Status::Memory,
    }
}

/// Runs the program: makes its call, says the line of the status on the error stream, and gives the number of the status.
pub(crate) fn run_program<
    R: AllocGlobal + Threads + Wait + Sync,
    S: Source,
    K: Sink,
    F: Shelf,
    G: Gate + Sync,
    E: Sink,
>(
    rt: &R,
    words: &Result<Vec<String>, WordsFault>,
    source: &mut S,
    sink: &mut K,
    shelf: &mut F,
    gate: &G,
    error: &mut E,
) -> u8
    ensures called { IsProgram (given_words (λ words. map string_bytes words.items) words.now)
        (outside (S.left source.old) (K.held sink.old) (F.files shelf.old) (F.puts shelf.old) (S.faults source.old) (K.faults sink.old) (F.faults shelf.old))
        (outside (S.left source.new) (K.held sink.new) (F.files shelf.new) (F.puts shelf.new) (S.faults source.new) (K.faults sink.new) (F.faults shelf.new))
        (E.held error.old) (E.held error.new) (E.faults error.old) (E.faults error.new) result }
    ensures wordless { OnErr words.now ((source.new ≡ source.old) × (sink.new ≡ sink.old) × (shelf.new ≡ shelf.old)) }
    ensures unread { (result ≡ 2) ⊎ (result ≡ 3) → source.new ≡ source.old }
    ensures unasked { result ≡ 2 → shelf.new ≡ shelf.old }
    ensures unwritten { ((2 ≤ result) × (result ≤ 5)) ⊎ (result ≡ 8) → sink.new ≡ sink.old }
{
    let status = match words {
        Ok(words) => mged_main(rt, words, source, sink, shelf, gate),
        Err(fault) => wordless(fault),
    };
    say(error, &status);
    status.number()
}
