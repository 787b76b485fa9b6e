//! Half-spaces: made, placed, crossed by rays, and their box and level.

ghost use Rattle.std.specs.Prelude.{◌≡◌, ◌≢◌, ◌↔◌, ◌==◌, cond, pos, Result, Err, MatchResult};
ghost use Rattle.lattice_core.specs.declared.limit.TheConstants.{COORD, WORLD};
ghost use Rattle.lattice_core.specs.Limits.{IsAtMost, IsWithin};
ghost use Rattle.lattice_core.specs.Vectors.{zero_vector};
ghost use Rattle.plane_geom.specs.Crossings.{crossing_of};
ghost use Rattle.plane_geom.specs.Planes.{IsWorldPlane, IsCrossing, IsSmallCrossing, slope_on, level_of};
ghost use Rattle.prim_half.specs.Halves.{all_of_space, HoldsAll};
ghost use Rattle.plane_geom.specs.declared.fault.ShapeFault.{ShapeFault};
ghost use Rattle.plane_geom.specs.declared.fault.ShapeFault.TheVariants.{ZeroNormal};

use lattice_core::{Box3, Extent, Placement, Ray, Side, V3};
use plane_geom::{Crossing, Plane, ShapeFault};
use std::marker::Model;

/// The half-space of the points `p` with `normal · p` at most `distance`. The normal counts plain numbers, is not zero,
/// and has components of at most `HALF_NORMAL` in size. The distance is a length in tenths of a millimetre, at most
/// `COORD` in size. Contracts see its normal and its distance.
#[derive(Clone, Copy, Debug, PartialEq, Eq, Hash)]
pub struct Half {
    normal: V3,
    distance: i64,
}

impl Model for Half {
    ghost use Rattle.prim_half.specs.Halves.{HalfSpace, IsHalf};

    ghost Value = { HalfSpace };

    ghost view = { λ s. record { normal = s.normal; distance = s.distance } };

    ghost invariant = { λ s. IsHalf s.normal s.distance };

    ghost inverse = { λ half. record { normal = half.normal; distance = half.distance } };
}

impl Half {
    ghost use Rattle.std.specs.Prelude.{◌≡◌, ◌≢◌, ◌↔◌, Result, Err, MatchResult};
    ghost use Rattle.lattice_core.specs.declared.limit.TheConstants.{COORD, HALF_NORMAL, SHIFT};
    ghost use Rattle.lattice_core.specs.Limits.{IsAtMost, IsWithin};
    ghost use Rattle.lattice_core.specs.Vectors.{zero_vector};
    ghost use Rattle.plane_geom.specs.Planes.{IsSolidPlane, IsWorldPlane, placed_plane};
    ghost use Rattle.plane_geom.specs.declared.fault.ShapeFault.{ShapeFault};
    ghost use Rattle.prim_half.specs.Halves.{IsHalf, plane_of_half};

    /// The half-space of a normal, in plain numbers, and a distance, in tenths of a millimetre, or `ZeroNormal` where the
    /// normal is zero.
    pub fn new(n: V3, d: i64) -> Result<Half, ShapeFault>
        requires normal { IsWithin HALF_NORMAL n }
        requires distance { IsAtMost COORD d }
        ensures zero { (result ≡ Err ShapeFault.ZeroNormal) ↔ (n ≡ zero_vector) }
        ensures value { MatchResult result (λ half. (half.normal ≡ n) × (half.distance ≡ d)) (λ e. e ≡ ShapeFault.ZeroNormal) }
    {
        if n.is_zero() {
            return Err(ShapeFault::ZeroNormal);
        }
        Ok(Half {
            normal: n,
            distance: d,
        })
    }

    /// The normal, which points out of the solid: plain numbers, no lengths.
    pub fn normal(&self) -> V3
        ensures value { result ≡ self.now.normal }
        ensures size { IsWithin HALF_NORMAL result }
        ensures direction { result ≢ zero_vector }
    {
        self.normal
    }

    /// How far the points reach along the normal: the number that `normal · p` does not pass, with `p` in tenths of a
    /// millimetre.
    pub fn distance(&self) -> i64
        ensures value { result ≡ self.now.distance }
        ensures size { IsAtMost COORD result }
    {
        self.distance
    }

    /// The plane of the only face, which has number 1.
    pub fn plane(&self) -> Plane
        ensures normal { result.n ≡ self.now.normal }
        ensures offset { result.d ≡ self.now.distance }
        ensures size { IsSolidPlane result }
        ensures lawful { IsHalf result.n result.d }
    {
        Plane {
            n: self.normal,
            d: i128::from(self.distance),
        }
    }

    /// The half-space in the world: the plane that the placement takes its plane to.
    pub fn placed(&self, by: &Placement) -> Plane
        requires { IsWithin SHIFT by.now.shift }
        ensures value { result ≡ placed_plane by.now (plane_of_half self.now) }
        ensures size { IsWorldPlane result }
        ensures lawful { IsHalf self.now.normal self.now.distance }
    {
        self.plane().placed(by)
    }
}

/// What the placed half-space of a plane does to a ray.
pub fn crossed_at(plane: &Plane, ray: &Ray) -> Crossing
    requires plane { IsWorldPlane plane.now }
    requires origin { IsWithin WORLD ray.now.origin }
    ensures value { result ≡ crossing_of plane.now ray.now }
    ensures crossing { IsCrossing plane.now ray.now result }
    ensures size { IsSmallCrossing result }
{
    plane.crossing(ray)
}

/// The box of a half-space, wherever it is placed: all of space.
pub fn bounds_at() -> Box3
    ensures value { result ≡ all_of_space }
    ensures holds { HoldsAll result }
{
    let all = Extent {
        low: Side::Open,
        high: Side::Open,
    };
    Box3::Span {
        x: all,
        y: all,
        z: all,
    }
}

/// The brightness, from 55 to 255, where the ray meets a face of the placed half-space of a plane: the one face has
/// number 1, and no other number is met.
pub fn level_at(plane: &Plane, face: u8, ray: &Ray) -> u8
    requires plane { IsWorldPlane plane.now }
    requires crossed { face ≡ 1 → slope_on plane.now ray.now ≢ pos 0 }
    ensures { result ≡ cond (face == 1) (level_of plane.now.n ray.now.dir) 255 }
{
    if face == 1 { plane.level(ray) } else { 255 }
}
