//! The planes of a solid's faces in the world: how they cross rays, and how bright they are there.

ghost use Rattle.std.specs.Prelude.{◌≡◌, ◌≢◌, ◌-◌, ◌≤◌, All, None, pos, slice_index_or};
ghost use Rattle.std.specs.Option.{ForSome};
ghost use Rattle.lattice_core.specs.declared.limit.TheConstants.{WORLD};
ghost use Rattle.lattice_core.specs.Limits.{IsWithin};
ghost use Rattle.plane_geom.specs.Crossings.{side_crossing};
ghost use Rattle.plane_geom.specs.Planes.{IsCrossing, IsSmallCrossing, IsWorldPlane, side_level, slope_on};

use lattice_core::Ray;
use plane_geom::{Crossing, Plane};

/// The plane of a face from 1 on, where there is one.
fn side_of(sides: &[Option<Plane>; 12], face: u8) -> Option<Plane>
    requires sides { All (λ side. ForSome side IsWorldPlane) sides.now }
    requires face { 1 ≤ face }
    ensures value { result ≡ slice_index_or sides.now (face - 1) None }
    ensures size { ForSome result IsWorldPlane }
{
    match sides.get(usize::from(face - 1)) {
        Some(side) => *side,
        None => None,
    }
}

/// What a face of a placed solid does to a ray. One that is degenerate holds the whole ray.
pub fn crossed_at(sides: &[Option<Plane>; 12], face: u8, ray: &Ray) -> Crossing
    requires sides { All (λ side. ForSome side IsWorldPlane) sides.now }
    requires face { 1 ≤ face }
    requires origin { IsWithin WORLD ray.now.origin }
    ensures value { result ≡ side_crossing (slice_index_or sides.now (face - 1) None) ray.now }
    ensures crossing { ForSome (slice_index_or sides.now (face - 1) None) (λ plane. IsCrossing plane ray.now result) }
    ensures size { IsSmallCrossing result }
{
    match side_of(sides, face) {
        Some(plane) => plane.crossing(ray),
        None => Crossing::Holds,
    }
}

/// The brightness, from 55 to 255, where the ray meets a face of a placed solid, and 255 for one that is degenerate.
pub fn level_at(sides: &[Option<Plane>; 12], face: u8, ray: &Ray) -> u8
    requires sides { All (λ side. ForSome side IsWorldPlane) sides.now }
    requires face { 1 ≤ face }
    requires crossed { ForSome (slice_index_or sides.now (face - 1) None) (λ plane. slope_on plane ray.now ≢ pos 0) }
    ensures { result ≡ side_level (slice_index_or sides.now (face - 1) None) ray.now }
{
    match side_of(sides, face) {
        Some(plane) => plane.level(ray),
        None => 255,
    }
}
