ghost use Rattle.std.specs.Prelude.{◌≡◌};

use crate::traits::{Failed, Sink, Source};
use std::io::{ErrorKind, Read, Write};
use std::marker::Model;

/// A source over any reader. It tells what is left where its reader does, which standard input does not.
#[derive(Drop)]
pub struct InSource<R: Read> {
    inner: R,
    faults: u64,
}

impl<R: Read> Model for InSource<R> {
    ghost use Rattle.outside_core.specs.Views.{StreamView};

    ghost Value = { StreamView };

    ghost view = { λ s. record { known = R.remaining s.inner; faults = s.faults } };
}

impl<R: Read> InSource<R> {
    /// A source over this reader, of which no call has failed yet.
    pub fn new(inner: R) -> InSource<R>
        ensures { result ≡ record { known = R.remaining inner; faults = 0 } }
    {
        InSource { inner, faults: 0 }
    }
}

impl<R: Read> Source for InSource<R> {
    ghost left = { λ s. s.known };

    ghost faults = { λ s. s.faults };

    fn read(&mut self, buf: &mut [u8]) -> Result<usize, Failed> {
        // A call that was interrupted is made again.
        for _ in 0..u64::MAX {
            match self.inner.read(buf) {
                Ok(count) => return Ok(count),
                Err(error) => {
                    if error.kind() != ErrorKind::Interrupted {
                        break;
                    }
                }
            }
        }
        self.faults = self.faults.saturating_add(1);
        Err(Failed)
    }
}

/// A sink over any writer. It tells what it holds where its writer does, which standard output does not. A
/// writer that takes nothing counts as a fault.
#[derive(Drop)]
pub struct OutSink<W: Write> {
    inner: W,
    faults: u64,
}

impl<W: Write> Model for OutSink<W> {
    ghost use Rattle.outside_core.specs.Views.{StreamView};

    ghost Value = { StreamView };

    ghost view = { λ s. record { known = W.contents s.inner; faults = s.faults } };
}

impl<W: Write> OutSink<W> {
    /// A sink over this writer, of which no call has failed yet.
    pub fn new(inner: W) -> OutSink<W>
        ensures { result ≡ record { known = W.contents inner; faults = 0 } }
    {
        OutSink { inner, faults: 0 }
    }
}

impl<W: Write> Sink for OutSink<W> {
    ghost held = { λ s. s.known };

    ghost faults = { λ s. s.faults };

    fn write(&mut self, piece: &[u8]) -> Result<usize, Failed> {
        // A call that was interrupted is made again.
        for _ in 0..u64::MAX {
            match self.inner.write(piece) {
                Ok(0) => break,
                Ok(count) => return Ok(count),
                Err(error) => {
                    if error.kind() != ErrorKind::Interrupted {
                        break;
                    }
                }
            }
        }
        self.faults = self.faults.saturating_add(1);
        Err(Failed)
    }
}
