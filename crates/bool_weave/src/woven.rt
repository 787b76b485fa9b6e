use crate::place::put;
use lattice_core::FAR;
use memory_core::Memory;
use std::alloc::Global;
use std::marker::Model;
use surd_order::{Pos, Seg};

/// The segment that a ray has in an instance.
#[derive(Clone, Copy, Debug, PartialEq, Eq)]
pub struct Woven {
    /// The instance's number.
    pub instance: u32,
    /// Its segment.
    pub seg: Seg,
}

/// The segments that were woven into a ray, in the rising order of their instances, and the cuts that they make. Contracts
/// see it as the list of these segments.
#[derive(Debug, Drop)]
pub struct Weave {
    woven: Vec<Woven>,
    cuts: Vec<Pos>,
}

impl Model for Weave {
    ghost use Rattle.std.specs.Prelude.{List};
    ghost use Rattle.bool_weave.specs.declared.woven.Woven.{Woven};
    ghost use Rattle.bool_weave.specs.Tables.{IsKept};

    ghost Value = { List Woven };

    ghost view = { λ s. s.woven.items };

    ghost invariant = { λ s. IsKept s.woven.items s.cuts.items };
}

ghost use Rattle.std.specs.Prelude.{◌≡◌, ◌<◌, ◌≤◌, AllPairs, nat_lt, true, false, length};
ghost use Rattle.std.specs.List.Sorted.{IsPartitionPoint};

/// How many of what was woven are of instances below a number.
fn count_below(woven: &[Woven], number: u64) -> usize
    requires { AllPairs (λ v w. v.instance < w.instance) woven.now }
    ensures within { result ≤ length woven.now }
    ensures parted { IsPartitionPoint (λ w. nat_lt w.instance number ≡ true) (λ w. nat_lt w.instance number ≡ false) woven.now result }
{
    woven.partition_point(|one| (one.instance as u64) < number)
}

impl Weave {
    ghost use Rattle.std.specs.Prelude.{◌≡◌, ◌<◌, ◌+◌, ◌*◌, ◌≤◌, ◌^◌, ◌++◌, ◌∷◌, [], List, length, All, IfOk, OnOk, OnErr, filter};
    ghost use Rattle.bool_weave.specs.Cuts.{IsSegment, IsWoven, AreCuts, cuts_of};
    ghost use Rattle.bool_weave.specs.Tables.{IsSearchable, is_from_to};

    /// A ray with nothing woven into it, cut at its two ends.
    pub fn new(alloc: Global) -> Result<Weave, Memory>
        ensures { IfOk result (λ w. w ≡ []) }
    {
        let mut cuts = Vec::with_capacity(alloc, 2)?;
        cuts.push(Pos::Frac { p: 0, q: 1 })?;
        cuts.push(Pos::Frac {
            p: FAR as i128,
            q: 1,
        })?;
        Ok(Weave {
            woven: Vec::new(alloc),
            cuts,
        })
    }

    /// Weaves in the segment of an instance, whose number is over those of all before it. Where there is no memory the
    /// weave is as it was.
    pub fn weave(&mut self, seg: &Seg, instance: u32) -> Result<(), Memory>
        requires order { All (λ w. w.instance < instance) self.old }
        requires segment { IsSegment seg.now }
        requires few { length self.old + 1 < 2 ^ 31 }
        ensures woven { OnOk result (self.new ≡ self.old ++ record { instance = instance; seg = seg.now } ∷ []) }
        ensures unchanged { OnErr result (self.new ≡ self.old) }
    {
        self.woven.reserve(1)?;
        self.cuts.reserve(2)?;
        put(&mut self.cuts, seg.start);
        put(&mut self.cuts, seg.end);
        let woven = Woven {
            instance,
            seg: *seg,
        };
        if self.woven.push(woven).is_err() {
            unreachable!();
        }
        Ok(())
    }

    /// Lends what was woven, in the rising order of instances.
    pub fn woven(&self) -> &[Woven]
        ensures woven { result.now ≡ self.now }
        ensures sound { IsWoven self.now }
        ensures few { length self.now < 2 ^ 31 }
    {
        &self.woven
    }

    /// Lends the cuts of the ray, each before the next: its two ends and all starts and ends of what was woven.
    pub fn cuts(&self) -> &[Pos]
        ensures cuts { result.now ≡ cuts_of self.now }
        ensures places { AreCuts self.now result.now }
        ensures searchable { IsSearchable result.now }
        ensures some { 2 ≤ length result.now }
        ensures few { length result.now ≤ 2 * length self.now + 2 }
        ensures short { length result.now ≤ 2 ^ 32 }
    {
        &self.cuts
    }

    /// Lends what was woven of the instances from one number up to, not including, another.
    pub fn woven_within(&self, from: u64, to: u64) -> &[Woven]
        ensures woven { result.now ≡ filter (is_from_to from to) self.now }
        ensures sound { IsWoven self.now }
        ensures few { length self.now < 2 ^ 31 }
    {
        let start = count_below(&self.woven, from);
        let end = count_below(&self.woven, to);
        if start < end {
            &self.woven[start..end]
        } else {
            &[]
        }
    }
}
