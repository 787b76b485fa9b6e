use crate::interval::PlainInterval;
use crate::segment::PlainSegment;
use crate::tree::claims_interval;
use bool_weave::MaskTree;
use memory_core::Memory;
use shot_core::{PrepRegion, Scene};
use std::alloc::Global;
use std::marker::Model;

/// What a region claims of a ray: for each interval whether it claims it.
#[derive(Debug, Drop)]
pub(crate) struct PlainClaims {
    air: bool,
    first: u32,
    count: u32,
    row: Vec<bool>,
}

impl Model for PlainClaims {
    ghost use Rattle.overlap_list.specs.declared.region.RegionClaims.{RegionClaims};

    ghost Value = { RegionClaims };

    ghost view = { λ s. record { air = s.air; first = s.first; count = s.count; claims = s.row.items } };
}

impl PlainClaims {
    ghost use Rattle.std.specs.Prelude.{◌≡◌};
    ghost use Rattle.overlap_list.specs.Winners.{claims_at};

    pub(crate) fn air(&self) -> bool
        ensures { result ≡ self.now.air }
    {
        self.air
    }

    pub(crate) fn first(&self) -> u32
        ensures { result ≡ self.now.first }
    {
        self.first
    }

    pub(crate) fn count(&self) -> u32
        ensures { result ≡ self.now.count }
    {
        self.count
    }

    /// Whether the region claims the interval of that number; there is none past the last.
    pub(crate) fn claims_at(&self, k: usize) -> bool
        ensures { result ≡ claims_at self.now k }
    {
        match self.row.get(k) {
            Some(claimed) => *claimed,
            None => false,
        }
    }
}

ghost use Rattle.std.specs.Prelude.{◌≡◌, ◌<◌, ◌^◌, IfOk, length, map};
ghost use Rattle.bool_weave.specs.Claims.{intervals_of, claims_interval};
ghost use Rattle.shot_core.specs.Shots.{body_claims, claims_from};

/// Whether a region claims each of the intervals.
fn row_of(
    alloc: Global,
    segments: &[PlainSegment],
    tree: &MaskTree,
    first: u32,
    intervals: &[PlainInterval],
) -> Result<Vec<bool>, Memory>
    ensures { IfOk result (λ v. v.items ≡ map (claims_interval segments.now tree.now first) intervals.now) }
{
    let mut row = Vec::new(alloc);
    for interval in intervals {
        row.push(claims_interval(alloc, segments, tree, first, interval)?)?;
    }
    Ok(row)
}

/// What a region claims whose first instance has that number.
fn body_claims(
    alloc: Global,
    segments: &[PlainSegment],
    first: u32,
    body: &PrepRegion,
    intervals: &[PlainInterval],
) -> Result<PlainClaims, Memory>
    requires intervals { intervals.now ≡ intervals_of segments.now }
    requires few { length body.now.instances < 2 ^ 32 }
    ensures { IfOk result (λ c. c ≡ body_claims segments.now first body.now) }
{
    let row = row_of(alloc, segments, body.tree(), first, intervals)?;
    Ok(PlainClaims {
        air: body.air() != 0,
        first,
        count: body.solids().len() as u32,
        row,
    })
}

/// What all regions claim.
pub(crate) fn claims_on(
    alloc: Global,
    segments: &[PlainSegment],
    scene: &Scene,
    intervals: &[PlainInterval],
) -> Result<Vec<PlainClaims>, Memory>
    requires { intervals.now ≡ intervals_of segments.now }
    ensures { IfOk result (λ v. v.items ≡ claims_from segments.now 0 scene.now) }
{
    let mut all = Vec::new(alloc);
    let mut first = 0;
    for region in scene.regions() {
        let body = region.body();
        all.push(body_claims(alloc, segments, first, body, intervals)?)?;
        first += body.solids().len() as u32;
    }
    Ok(all)
}
