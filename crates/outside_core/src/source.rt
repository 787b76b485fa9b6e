ghost use Rattle.std.specs.Prelude.{◌≡◌, ◌≤◌, ◌<◌, ◌↔◌, ◌++◌, min, length, take, drop, IfOk, IsErr, OnOk, OnErr, Some};
ghost use Rattle.std.specs.Io.{ReadsAtMost};
ghost use Rattle.std.specs.Io.KnownBytes.{Consumes, IsAtEnd, Keeps};
ghost use Rattle.outside_core.specs.Faults.{Rose};
ghost use Rattle.outside_core.specs.Told.{NoneLeftExactly};
ghost use Rattle.outside_core.specs.CallCounts.{NextIsListed, counted, faulted};

use crate::calls::Calls;
use crate::traits::{Failed, Source};
use std::marker::Model;

/// A source in memory. It tells what is left, and a read gives as much of it as the buffer holds.
#[derive(Debug, Drop)]
pub struct VecSource {
    bytes: Vec<u8>,
    at: usize,
    calls: Calls,
}

impl Model for VecSource {
    ghost use Rattle.std.specs.Prelude.{drop, vec_len, ◌≤◌};
    ghost use Rattle.outside_core.specs.Views.{SourceView};

    ghost Value = { SourceView };

    ghost view = { λ s. record { rest = drop s.at s.bytes.items; calls = s.calls } };

    ghost invariant = { λ s. s.at ≤ vec_len s.bytes };
}

impl VecSource {
    /// A source of these bytes. Its calls with the listed numbers fail, counted from 1.
    pub fn new(bytes: Vec<u8>, fail_at: Vec<u64>) -> VecSource
        ensures { result ≡ record { rest = bytes.items; calls = record { made = 0; faults = 0; fail_at = fail_at.items } } }
    {
        VecSource {
            bytes,
            at: 0,
            calls: Calls::new(fail_at),
        }
    }

    /// Lends the bytes that are left.
    pub fn left(&self) -> &[u8]
        ensures { result.now ≡ self.now.rest }
    {
        &self.bytes[self.at..]
    }
}

impl Source for VecSource {
    ghost left = { λ s. Some s.rest };

    ghost faults = { λ s. s.calls.faults };

    fn read(&mut self, buf: &mut [u8]) -> Result<usize, Failed>
        requires room { 0 < length buf.old }

        ensures within { ReadsAtMost result buf.new }
        ensures front { IfOk result (λ n. Consumes (Some self.old.rest) (Some self.new.rest) (take n buf.new)) }
        ensures exact_end { IfOk result (λ n. NoneLeftExactly n (Some self.old.rest)) }
        ensures end { IfOk result (λ n. n ≡ 0 → IsAtEnd (Some self.new.rest)) }
        ensures stays { OnErr result (Keeps (Some self.old.rest) (Some self.new.rest)) }

        ensures never_falls { self.old.calls.faults ≤ self.new.calls.faults }
        ensures steady { OnOk result (self.new.calls.faults ≡ self.old.calls.faults) }
        ensures rose { OnErr result (Rose self.old.calls.faults self.new.calls.faults) }

        ensures fails { IsErr result ↔ NextIsListed self.old.calls }
        ensures count { IfOk result (λ n. n ≡ min (length buf.old) (length self.old.rest)) }
        ensures copied { IfOk result (λ n. buf.new ≡ take n self.old.rest ++ drop n buf.old) }
        ensures buffer_stays { OnErr result (buf.new ≡ buf.old) }
        ensures ok { OnOk result (self.new.calls ≡ counted self.old.calls) }
        ensures err { OnErr result (self.new.calls ≡ faulted self.old.calls) }
    {
        self.calls.next()?;
        let count = buf.len().min(self.bytes.len() - self.at);
        buf[..count].copy_from_slice(&self.bytes[self.at..self.at + count]);
        self.at += count;
        Ok(count)
    }
}
