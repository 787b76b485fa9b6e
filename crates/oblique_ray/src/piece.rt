//! What a ray has of the instances of a scene, and where that cuts it.

ghost use Rattle.std.specs.Prelude.{◌≡◌, ◌++◌, ◌+◌, ◌<◌, ◌≤◌, ◌^◌, [], IfOk, OnOk, All, AllPairs, length, map, flat_map};
ghost use Rattle.lattice_core.specs.declared.limit.TheConstants.{FAR};
ghost use Rattle.bool_weave.specs.Cuts.{IsWoven};
ghost use Rattle.bool_weave.specs.Lines.{cuts_along};
ghost use Rattle.shot_core.specs.Prepared.{instance_of};
ghost use Rattle.shot_core.specs.Regions.{IsScene, HaveInstances, instances_of};
ghost use Rattle.shot_core.specs.Steps.{owned_from};
ghost use Rattle.slant_ranks.specs.Slants.{slant_up_to, woven_by_ranks};
ghost use Rattle.oblique_ray.specs.CutSteps.{AreRising, IsPieceInRange, segment_of_piece};
ghost use Rattle.oblique_ray.specs.ShotSteps.{numbered_segment, owners_noted};
ghost use Rattle.slant_ray.specs.Rays.{direction_of, IsSlantRay};
ghost use Rattle.oblique_ray.specs.Segments.{slant_segment};
ghost use Rattle.oblique_ray.specs.Shots.{segment_if, segments_from, segments_on};

use crate::cut::{put, ranked};
use crate::slant::slant_segment;
use bool_weave::Weave;
use lattice_core::FAR;
use memory_core::Memory;
use shot_core::{Scene, note};
use slant_ray::SlantRay;
use solid_set::Placed;
use std::alloc::Global;
use surd_order::Seg;
use surd_quot::QPos;

/// The segment of an instance.
#[derive(Clone, Copy, Debug)]
pub struct Piece {
    /// The instance's number.
    pub instance: u32,
    pub start: QPos,
    pub end: QPos,
}

/// Adds the segment of the instance of that number, where it has one.
fn add_piece(
    pieces: &mut Vec<Piece>,
    number: u32,
    solid: &Placed,
    ray: &SlantRay,
) -> Result<(), Memory>
    requires ray { IsSlantRay ray.now }
    requires range { All IsPieceInRange pieces.old.items }
    ensures pieces { OnOk result (map segment_of_piece pieces.new.items ≡ map segment_of_piece pieces.old.items ++ segment_if number (slant_segment FAR solid.now.surface ray.now.origin (direction_of ray.now))) }
    ensures range { OnOk result (All IsPieceInRange pieces.new.items) }
{
    let Some(stretch) = slant_segment(solid, ray) else {
        return Ok(());
    };
    pieces.push(Piece {
        instance: number,
        start: stretch.start,
        end: stretch.end,
    })?;
    Ok(())
}

/// Adds the segments of a region's instances, the first of which has that number.
fn add_pieces(
    pieces: &mut Vec<Piece>,
    first: u32,
    solids: &[Placed],
    ray: &SlantRay,
) -> Result<(), Memory>
    requires ray { IsSlantRay ray.now }
    requires numbers { first + length solids.now < 2 ^ 31 }
    requires range { All IsPieceInRange pieces.old.items }
    ensures pieces { OnOk result (map segment_of_piece pieces.new.items ≡ map segment_of_piece pieces.old.items ++ segments_from FAR ray.now.origin (direction_of ray.now) first (map instance_of solids.now)) }
    ensures range { OnOk result (All IsPieceInRange pieces.new.items) }
{
    for (i, solid) in solids.iter().enumerate() {
        add_piece(pieces, first + i as u32, solid, ray)?;
    }
    Ok(())
}

/// The segments of all instances of a scene, each of which is looked at.
fn pieces_of_all(alloc: Global, scene: &Scene, ray: &SlantRay) -> Result<Vec<Piece>, Memory>
    requires { IsSlantRay ray.now }
    ensures pieces { IfOk result (λ v. map segment_of_piece v.items ≡ segments_on scene.now ray.now.origin (direction_of ray.now)) }
    ensures range { IfOk result (λ v. All IsPieceInRange v.items) }
{
    let mut pieces = Vec::new(alloc);
    let mut first = 0;
    for region in scene.regions() {
        let solids = region.body().solids();
        add_pieces(&mut pieces, first, solids, ray)?;
        first += solids.len() as u32;
    }
    Ok(pieces)
}

/// Adds the segment of the instance of that number, where there is one that has one.
fn add_numbered(
    pieces: &mut Vec<Piece>,
    scene: &Scene,
    number: u32,
    ray: &SlantRay,
) -> Result<(), Memory>
    requires ray { IsSlantRay ray.now }
    requires range { All IsPieceInRange pieces.old.items }
    ensures pieces { OnOk result (map segment_of_piece pieces.new.items ≡ map segment_of_piece pieces.old.items ++ numbered_segment (instances_of scene.now) ray.now.origin (direction_of ray.now) number) }
    ensures range { OnOk result (All IsPieceInRange pieces.new.items) }
{
    match scene.instance(number) {
        Some(solid) => add_piece(pieces, number, solid, ray),
        None => Ok(()),
    }
}

/// The segments of the instances of these numbers.
fn pieces_among(
    alloc: Global,
    scene: &Scene,
    numbers: &[u32],
    ray: &SlantRay,
) -> Result<Vec<Piece>, Memory>
    requires { IsSlantRay ray.now }
    ensures pieces { IfOk result (λ v. map segment_of_piece v.items ≡ flat_map (numbered_segment (instances_of scene.now) ray.now.origin (direction_of ray.now)) numbers.now) }
    ensures range { IfOk result (λ v. All IsPieceInRange v.items) }
{
    let mut pieces = Vec::new(alloc);
    for number in numbers {
        add_numbered(&mut pieces, scene, *number, ray)?;
    }
    Ok(pieces)
}

/// The segments of all instances of a scene. Where there is an index of the instances, those are looked at whose boxes meet the
/// ray.
pub fn pieces_of(alloc: Global, scene: &Scene, ray: &SlantRay) -> Result<Vec<Piece>, Memory>
    requires { IsSlantRay ray.now }
    ensures pieces { IfOk result (λ v. map segment_of_piece v.items ≡ segments_on scene.now ray.now.origin (direction_of ray.now)) }
    ensures range { IfOk result (λ v. All IsPieceInRange v.items) }
    ensures sound { IsScene scene.now }
    ensures leaves { HaveInstances scene.now }
{
    let Some(index) = scene.by_instance() else {
        return pieces_of_all(alloc, scene, ray);
    };
    let mut numbers = Vec::new(alloc);
    index.meets_slant(ray, &mut numbers)?;
    pieces_among(alloc, scene, &numbers, ray)
}

/// The numbers of the regions that have pieces, in rising order.
pub fn touched(alloc: Global, scene: &Scene, pieces: &[Piece]) -> Result<Vec<u32>, Memory>
    requires { All (λ p. p.instance < length (instances_of scene.now)) pieces.now }
    ensures { IfOk result (λ v. v.items ≡ owners_noted (owned_from 0 scene.now) (map segment_of_piece pieces.now) []) }
{
    let mut numbers = Vec::new(alloc);
    for piece in pieces {
        note(&mut numbers, scene.owner(piece.instance))?;
    }
    Ok(numbers)
}

/// The cuts of a ray: its two ends and the ends of all pieces, in their order and each once.
pub fn cuts_of(alloc: Global, pieces: &[Piece]) -> Result<Vec<QPos>, Memory>
    requires { All IsPieceInRange pieces.now }
    ensures cuts { IfOk result (λ v. v.items ≡ cuts_along (slant_up_to FAR) (map segment_of_piece pieces.now)) }
    ensures rising { IfOk result (λ v. AreRising v.items) }
{
    let mut cuts = Vec::new(alloc);
    let mut i = pieces.len();
    while i > 0 {
        i -= 1;
        put(&mut cuts, pieces[i].end)?;
        put(&mut cuts, pieces[i].start)?;
    }
    put(
        &mut cuts,
        QPos::Frac {
            p: FAR as i128,
            q: 1,
        },
    )?;
    put(&mut cuts, QPos::Frac { p: 0, q: 1 })?;
    Ok(cuts)
}

/// Weaves the pieces in, from the number of one cut to that of another.
pub fn weave_pieces(weave: &mut Weave, cuts: &[QPos], pieces: &[Piece]) -> Result<(), Memory>
    requires empty { weave.old ≡ [] }
    requires cuts { cuts.now ≡ cuts_along (slant_up_to FAR) (map segment_of_piece pieces.now) }
    requires rising { AreRising cuts.now }
    requires range { All IsPieceInRange pieces.now }
    requires woven { IsWoven (woven_by_ranks FAR (map segment_of_piece pieces.now)) }
    requires few { length pieces.now < 2 ^ 31 }
    ensures { OnOk result (weave.new ≡ woven_by_ranks FAR (map segment_of_piece pieces.now)) }
{
    for piece in pieces {
        let seg = Seg {
            start: ranked(cuts, &piece.start),
            start_face: 0,
            end: ranked(cuts, &piece.end),
            end_face: 0,
        };
        weave.weave(&seg, piece.instance)?;
    }
    Ok(())
}
