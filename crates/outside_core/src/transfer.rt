ghost use Rattle.std.specs.Prelude.{◌≡◌, ◌≢◌, ◌≤◌, ◌<◌, ◌^◌, length, vec_len, IfOk, IfSome, OnOk, OnErr};
ghost use Rattle.std.specs.Io.KnownBytes.{Appends, Consumes, IsAtEnd};
ghost use Rattle.outside_core.specs.Faults.{Rose};
ghost use Rattle.outside_core.specs.Told.{Advances};
ghost use Rattle.outside_core.specs.Transfers.{IsCutShort};

use crate::traits::{Failed, Sink, Source};
use std::alloc::Global;
use thiserror::Error;

/// The most bytes that are asked for at once.
const PIECE: usize = 16384;

/// Why a source was not read to its end.
#[derive(Clone, Copy, Debug, PartialEq, Eq, Error)]
pub enum ReadStop {
    /// It has more bytes than were asked for.
    #[error("too long")]
    TooLong,
    /// A read failed.
    #[error("a read failed")]
    Failed,
    /// There was no memory.
    #[error("out of memory")]
    Memory,
}

/// Reads a source to its end, where it has at most `most` bytes. Where it has more, some of them are read.
pub fn read_all<S: Source>(alloc: Global, source: &mut S, most: usize) -> Result<Vec<u8>, ReadStop>
    requires { most < 2 ^ 31 }

    ensures taken { IfOk result (λ bytes. Consumes (S.left source.old) (S.left source.new) bytes.items) }
    ensures advances { Advances (S.left source.old) (S.left source.new) }
    ensures end { OnOk result (IsAtEnd (S.left source.new)) }
    ensures whole { IfOk result (λ bytes. IfSome (S.left source.old) (λ all. bytes.items ≡ all)) }
    ensures within { IfOk result (λ bytes. vec_len bytes ≤ most) }
    ensures too_long { result ≡ Err ReadStop.TooLong → IfSome (S.left source.old) (λ all. most < length all) }

    ensures never_falls { S.faults source.old ≤ S.faults source.new }
    ensures steady { result ≢ Err ReadStop.Failed → S.faults source.new ≡ S.faults source.old }
    ensures rose { result ≡ Err ReadStop.Failed → Rose (S.faults source.old) (S.faults source.new) }
{
    let mut bytes = Vec::new(alloc);
    let mut buf = [0u8; PIECE];
    for turn in 0..most + 1 {
        match source.read(&mut buf) {
            Ok(0) => return Ok(bytes),
            Ok(count) => {
                if count > most - bytes.len() {
                    return Err(ReadStop::TooLong);
                }
                if bytes.extend_from_slice(&buf[..count]).is_err() {
                    return Err(ReadStop::Memory);
                }
            }
            Err(Failed) => return Err(ReadStop::Failed),
        }
    }
    unreachable!()
}

/// Writes a whole text to a sink, or stops at the first write that fails.
pub fn write_all<K: Sink>(sink: &mut K, text: &[u8]) -> Result<(), Failed>
    ensures written { OnOk result (Appends (K.held sink.old) (K.held sink.new) text.now) }
    ensures cut_short { OnErr result (IsCutShort (K.held sink.old) (K.held sink.new) text.now) }

    ensures never_falls { K.faults sink.old ≤ K.faults sink.new }
    ensures steady { OnOk result (K.faults sink.new ≡ K.faults sink.old) }
    ensures rose { OnErr result (Rose (K.faults sink.old) (K.faults sink.new)) }
{
    let mut at = 0;
    while at < text.len() {
        at += sink.write(&text[at..])?;
    }
    Ok(())
}
