ghost use Rattle.std.specs.Prelude.{◌≡◌, ◌<◌, ◌≤◌, ◌+◌, ◌==◌, ◌&&◌, ◌||◌, ℕ, All, IfOk, vec_len, length};
ghost use Rattle.surd_order.specs.Range.{IsInRange};
ghost use Rattle.bool_weave.specs.Cuts.{IsSegment};
ghost use Rattle.first_hit.specs.FirstSteps.{value_at, covers_on, spans_on, claims_beside, IsOfBody};

use crate::tree_value::holds;
use bool_weave::Woven;
use memory_core::Memory;
use shot_core::PrepRegion;
use std::alloc::Global;
use surd_order::{Pos, Seg};

/// The side of a place that is asked about.
#[derive(Clone, Copy, Debug)]
pub(crate) enum Flank {
    Before,
    Behind,
}

fn covers(seg: &Seg, place: &Pos, flank: Flank) -> bool
    requires segment { IsSegment seg.now }
    requires place { IsInRange place.now }
    ensures { result ≡ covers_on flank place.now seg.now }
{
    match flank {
        Flank::Before => seg.start.cmp(place).is_lt() && !seg.end.cmp(place).is_lt(),
        Flank::Behind => !place.cmp(&seg.start).is_lt() && place.cmp(&seg.end).is_lt(),
    }
}

/// Marks the leaf of an instance where its segment covers what lies beside the place.
fn mark(values: &mut Vec<bool>, first: u32, one: &Woven, place: &Pos, flank: Flank)
    requires low { first ≤ one.now.instance }
    requires high { one.now.instance < first + vec_len values.old }
    requires segment { IsSegment one.now.seg }
    requires place { IsInRange place.now }
    ensures len { vec_len values.new ≡ vec_len values.old }
    ensures each { (i : ℕ) → value_at values.new.items i ≡ (value_at values.old.items i || ((one.now.instance == first + i) && covers_on flank place.now one.now.seg)) }
{
    if covers(&one.seg, place, flank) {
        values[(one.instance - first) as usize] = true;
    }
}

/// The values of all leaves of a region, from the segments of its own instances.
fn fill(
    values: &mut Vec<bool>,
    own: &[Woven],
    first: u32,
    count: usize,
    place: &Pos,
    flank: Flank,
) -> Result<(), Memory>
    requires own { All (IsOfBody first count) own.now }
    requires place { IsInRange place.now }
    ensures { IfOk result (λ _. (i : ℕ) → value_at values.new.items i ≡ spans_on flank own.now place.now (first + i)) }
{
    values.clear();
    values.resize(count, false)?;
    for one in own {
        mark(values, first, one, place, flank);
    }
    Ok(())
}

/// Lists that a claim is found with.
#[derive(Debug, Drop)]
pub(crate) struct Marks {
    values: Vec<bool>,
    stack: Vec<bool>,
}

impl Marks {
    pub(crate) fn new(alloc: Global) -> Marks {
        Marks {
            values: Vec::new(alloc),
            stack: Vec::new(alloc),
        }
    }

    /// Whether a region claims what lies beside a place, from the segments of its own instances.
    pub(crate) fn claims(
        &mut self,
        own: &[Woven],
        first: u32,
        body: &PrepRegion,
        place: &Pos,
        flank: Flank,
    ) -> Result<bool, Memory>
        requires own { All (IsOfBody first (length body.now.instances)) own.now }
        requires place { IsInRange place.now }
        ensures { IfOk result (λ b. b ≡ claims_beside flank own.now body.now.tree first place.now) }
    {
        fill(
            &mut self.values,
            own,
            first,
            body.solids().len(),
            place,
            flank,
        )?;
        holds(&mut self.stack, body.tree(), &self.values)
    }
}
