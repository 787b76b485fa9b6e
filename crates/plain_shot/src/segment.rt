use bool_weave::Woven;
use lattice_core::Ray;
use memory_core::Memory;
use ranged_position::RangedPos;
use shot_core::Scene;
use solid_set::Placed;
use std::alloc::Global;
use std::marker::Model;

/// The segment that a ray has in an instance, with ends that can be compared.
#[derive(Clone, Copy, Debug)]
pub(crate) struct PlainSegment {
    woven: Woven,
}

impl Model for PlainSegment {
    ghost use Rattle.bool_weave.specs.declared.woven.Woven.{Woven};
    ghost use Rattle.bool_weave.specs.Cuts.{IsSegment};

    ghost Value = { Woven };

    ghost view = { λ s. s.woven };

    ghost invariant = { λ s. IsSegment s.woven.seg };

    ghost inverse = { λ woven. record { woven = woven } };
}

impl PlainSegment {
    ghost use Rattle.std.specs.Prelude.{◌≡◌};
    ghost use Rattle.bool_weave.specs.Cuts.{IsSegment};

    fn new(woven: Woven) -> PlainSegment
        requires { IsSegment woven.seg }
        ensures { result ≡ woven }
    {
        PlainSegment { woven }
    }

    pub(crate) fn instance(&self) -> u32
        ensures { result ≡ self.now.instance }
    {
        self.woven.instance
    }

    pub(crate) fn start(&self) -> RangedPos
        ensures { result ≡ self.now.seg.start }
    {
        RangedPos::new(self.woven.seg.start)
    }

    pub(crate) fn end(&self) -> RangedPos
        ensures { result ≡ self.now.seg.end }
    {
        RangedPos::new(self.woven.seg.end)
    }

    pub(crate) fn start_face(&self) -> u8
        ensures { result ≡ self.now.seg.start_face }
    {
        self.woven.seg.start_face
    }

    pub(crate) fn end_face(&self) -> u8
        ensures { result ≡ self.now.seg.end_face }
    {
        self.woven.seg.end_face
    }
}

ghost use Rattle.std.specs.Prelude.{◌≡◌, ◌<◌, ◌+◌, ◌++◌, ◌^◌, IfOk, length, map};
ghost use Rattle.lattice_core.specs.declared.limit.TheConstants.{WORLD};
ghost use Rattle.lattice_core.specs.Limits.{IsWithin};
ghost use Rattle.solid_set.specs.Segments.{segment_of};
ghost use Rattle.shot_core.specs.Regions.{IsScene};
ghost use Rattle.shot_core.specs.Prepared.{instance_of};
ghost use Rattle.shot_core.specs.Shots.{woven_if, woven_from, woven_of};

/// Adds the segment of an instance, where it has one. No box is looked at.
fn add_segment(
    segments: &mut Vec<PlainSegment>,
    instance: u32,
    solid: &Placed,
    ray: &Ray,
) -> Result<(), Memory>
    requires { IsWithin WORLD ray.now.origin }
    ensures { IfOk result (λ _. segments.new.items ≡ segments.old.items ++ woven_if instance (segment_of solid.now.surface ray.now)) }
{
    if let Some(seg) = solid.segment(ray) {
        segments.push(PlainSegment::new(Woven { instance, seg }))?;
    }
    Ok(())
}

/// Adds the segments of a region's instances, of which the first has that number.
fn add_segments(
    segments: &mut Vec<PlainSegment>,
    first: u32,
    solids: &[Placed],
    ray: &Ray,
) -> Result<(), Memory>
    requires numbers { first + length solids.now < 2 ^ 32 }
    requires origin { IsWithin WORLD ray.now.origin }
    ensures { IfOk result (λ _. segments.new.items ≡ segments.old.items ++ woven_from ray.now first (map instance_of solids.now)) }
{
    for (i, solid) in solids.iter().enumerate() {
        add_segment(segments, first + i as u32, solid, ray)?;
    }
    Ok(())
}

/// The segments of all instances of a scene.
pub(crate) fn segments_of(
    alloc: Global,
    scene: &Scene,
    ray: &Ray,
) -> Result<Vec<PlainSegment>, Memory>
    requires { IsWithin WORLD ray.now.origin }
    ensures woven { IfOk result (λ v. v.items ≡ woven_of scene.now ray.now) }
    ensures sound { IsScene scene.now }
{
    let mut segments = Vec::new(alloc);
    let mut first = 0;
    for region in scene.regions() {
        let solids = region.body().solids();
        add_segments(&mut segments, first, solids, ray)?;
        first += solids.len() as u32;
    }
    Ok(segments)
}
