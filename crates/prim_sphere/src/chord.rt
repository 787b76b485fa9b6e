//! Where a ray runs through a placed sphere, its box, and how bright it is there.

ghost use Rattle.std.specs.Prelude.{◌≡◌, ◌≢◌, ◌↔◌, ◌≤◌, ◌≤ℤ◌, ◌*ℤ◌, ◌-ℤ◌, pos, IsNone, IfNone, IfSome};
ghost use Rattle.lattice_core.specs.declared.limit.TheConstants.{COORD, PLACED, WORLD};
ghost use Rattle.lattice_core.specs.Limits.{IsAtMost, IsWithin};
ghost use Rattle.lattice_core.specs.Boxes.{IsTidy};
ghost use Rattle.prim_sphere.specs.Spheres.{IsRadius, half_chord_squared, chord_at, IsSmallChord, HoldsBetween, HoldsOnceAtMost, box_of, HoldsPointsOf, chord_level};

use lattice_core::{Box3, Extent, Ray, V3};
use plane_geom::{Chord, apart_from, half_chord};

/// Where the ray runs through the sphere of a placed centre and a radius, or `None` where it misses or only touches it.
pub fn crossed_at(centre: V3, radius: i64, ray: &Ray) -> Option<Chord>
    requires centre { IsWithin PLACED centre }
    requires radius { IsAtMost COORD radius }
    requires origin { IsWithin WORLD ray.now.origin }
    ensures value { result ≡ chord_at centre radius ray.now }
    ensures none { IsNone result ↔ (half_chord_squared centre radius ray.now ≤ℤ pos 0) }
    ensures small { IfSome result (IsSmallChord radius) }
    ensures held { IfSome result (HoldsBetween centre radius ray.now) }
    ensures missed { IfNone result (HoldsOnceAtMost centre radius ray.now) }
{
    let apart = apart_from(ray.origin, centre);
    let a = apart.along(ray.dir);
    Chord::of(a, half_chord(apart, a, radius))
}

/// The brightness, from 55 to 255, where the ray meets the sphere of a placed centre and a radius, and 255 where it does
/// not.
pub fn level_at(centre: V3, radius: i64, ray: &Ray) -> u8
    requires centre { IsWithin PLACED centre }
    requires radius { IsRadius radius }
    requires origin { IsWithin WORLD ray.now.origin }
    ensures { result ≡ chord_level (chord_at centre radius ray.now) radius }
{
    match crossed_at(centre, radius, ray) {
        Some(chord) => chord.level(radius),
        None => 255,
    }
}

/// The least box that holds the sphere of a placed centre and a radius.
pub fn bounds_at(centre: V3, radius: i64) -> Box3
    requires centre { IsWithin PLACED centre }
    requires radius { IsRadius radius }
    ensures value { result ≡ box_of centre radius }
    ensures holds { HoldsPointsOf centre radius result }
    ensures tidy { IsTidy result }
{
    Box3::Span {
        x: Extent::between(centre.x - radius, centre.x + radius),
        y: Extent::between(centre.y - radius, centre.y + radius),
        z: Extent::between(centre.z - radius, centre.z + radius),
    }
}
