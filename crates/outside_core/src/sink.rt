ghost use Rattle.std.specs.Prelude.{◌≡◌, ◌≤◌, ◌<◌, ◌-◌, ◌↔◌, ◌⊎◌, ◌++◌, [], min, length, take, IfOk, IsErr, OnOk, OnErr, Some};
ghost use Rattle.std.specs.Io.KnownBytes.{Appends, Keeps};
ghost use Rattle.outside_core.specs.Faults.{Rose};
ghost use Rattle.outside_core.specs.CallCounts.{NextIsListed, counted, faulted};

use crate::calls::Calls;
use crate::traits::{Failed, Sink};
use memory_core::Memory;
use std::alloc::Global;
use std::marker::Model;

/// A sink in memory. It tells what it holds, and takes no memory in a write.
#[derive(Debug, Drop)]
pub struct VecSink {
    bytes: Vec<u8>,
    room: usize,
    step: usize,
    calls: Calls,
}

impl Model for VecSink {
    ghost use Rattle.std.specs.Prelude.{vec_len, vec_capacity, ◌≤◌, ◌<◌};
    ghost use Rattle.outside_core.specs.Views.{SinkView};

    ghost Value = { SinkView };

    ghost view = { λ s. record { bytes = s.bytes.items; room = s.room; step = s.step; calls = s.calls } };

    ghost invariant = { λ s. (vec_len s.bytes ≤ s.room) × (s.room ≤ vec_capacity s.bytes) × (0 < s.step) };
}

impl VecSink {
    /// A sink with room for so many bytes, of which a write takes no more than `step`, which is at least 1.
    /// Its calls with the listed numbers fail, counted from 1, and so does each call where its room is full.
    pub fn new(
        alloc: Global,
        room: usize,
        step: usize,
        fail_at: Vec<u64>,
    ) -> Result<VecSink, Memory>
        requires { 0 < step }
        ensures { IfOk result (λ sink. sink ≡ record { bytes = []; room = room; step = step; calls = record { made = 0; faults = 0; fail_at = fail_at.items } }) }
    {
        Ok(VecSink {
            bytes: Vec::with_capacity(alloc, room)?,
            room,
            step,
            calls: Calls::new(fail_at),
        })
    }

    /// Lends the bytes that it holds.
    pub fn bytes(&self) -> &[u8]
        ensures { result.now ≡ self.now.bytes }
    {
        &self.bytes
    }
}

impl Sink for VecSink {
    ghost held = { λ s. Some s.bytes };

    ghost faults = { λ s. s.calls.faults };

    fn write(&mut self, piece: &[u8]) -> Result<usize, Failed>
        requires some { 0 < length piece.now }

        ensures within { IfOk result (λ n. (0 < n) × (n ≤ length piece.now)) }
        ensures front { IfOk result (λ n. Appends (Some self.old.bytes) (Some self.new.bytes) (take n piece.now)) }
        ensures stays { OnErr result (Keeps (Some self.old.bytes) (Some self.new.bytes)) }

        ensures never_falls { self.old.calls.faults ≤ self.new.calls.faults }
        ensures steady { OnOk result (self.new.calls.faults ≡ self.old.calls.faults) }
        ensures rose { OnErr result (Rose self.old.calls.faults self.new.calls.faults) }

        ensures fails { IsErr result ↔ (NextIsListed self.old.calls ⊎ (self.old.room ≤ length self.old.bytes)) }
        ensures count { IfOk result (λ n. n ≡ min (min (length piece.now) self.old.step) (self.old.room - length self.old.bytes)) }
        ensures limits { (self.new.room ≡ self.old.room) × (self.new.step ≡ self.old.step) }
        ensures ok { OnOk result (self.new.calls ≡ counted self.old.calls) }
        ensures err { OnErr result (self.new.calls ≡ faulted self.old.calls) }
    {
        self.calls.next()?;
        let left = self.room - self.bytes.len();
        if left == 0 {
            self.calls.fault();
            return Err(Failed);
        }
        let count = piece.len().min(self.step).min(left);
        match self.bytes.extend_from_slice(&piece[..count]) {
            Ok(()) => Ok(count),
            Err(_) => unreachable!(),
        }
    }
}
