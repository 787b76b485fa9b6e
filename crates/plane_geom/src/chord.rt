//! Chords: the parts of rays that run through what is round, and how bright it is there.

ghost use Rattle.std.specs.Prelude.{◌≡◌, ◌≤ℤ◌, ◌*ℤ◌, ◌-ℤ◌, pos, Option};
ghost use Rattle.lattice_core.specs.declared.limit.TheConstants.{COORD, PLACED, WORLD};
ghost use Rattle.plane_geom.specs.declared.limit.TheConstants.{REMOTE};
ghost use Rattle.lattice_core.specs.Limits.{IsAtMost, IsWithin};
ghost use Rattle.lattice_core.specs.Vectors.{vector_difference};
ghost use Rattle.plane_geom.specs.Chords.{IsRadius, squared, length_squared, chord_of, level_of};

use crate::limit::REMOTE;
use lattice_core::V3;

/// Where a ray runs through what is round: from `a - √k` to `a + √k` tenths of a millimetre from its origin, with
/// `k` over 0.
#[derive(Clone, Copy, Debug, PartialEq, Eq)]
pub struct Chord {
    /// How far along the ray the centre lies.
    pub a: i64,
    /// The square of the distance from there to the two ends.
    pub k: u64,
}

impl Chord {
    ghost use Rattle.plane_geom.specs.Chords.{chord_of};

    /// The chord of these numbers, or `None` where it has no length.
    pub fn of(a: i64, k: i64) -> Option<Chord>
        ensures { result ≡ chord_of a k }
    {
        if k > 0 {
            Some(Chord { a, k: k as u64 })
        } else {
            None
        }
    }

    /// The brightness where the ray meets what has this radius, from 55 to 255.
    pub fn level(&self, radius: i64) -> u8
        requires radius { IsRadius radius }
        requires depth { pos self.now.k ≤ℤ (radius *ℤ radius) }
        ensures { result ≡ level_of self.now radius }
    {
        let size = radius as u64;
        (55 + 200 * self.k / (size * size)) as u8
    }
}

/// The square of the radius less that of the distance of the centre from the ray's line, by the vector to the centre and
/// its component along the ray.
pub fn half_chord(apart: V3, a: i64, radius: i64) -> i64
    requires apart { IsWithin REMOTE apart }
    requires along { IsAtMost REMOTE a }
    requires radius { IsAtMost COORD radius }
    ensures { result ≡ squared radius -ℤ (length_squared apart -ℤ squared a) }
{
    squared(radius) - (length_squared(apart) - squared(a))
}

/// The vector from a ray's origin to a placed centre.
pub fn apart_from(origin: V3, centre: V3) -> V3
    requires origin { IsWithin WORLD origin }
    requires centre { IsWithin PLACED centre }
    ensures value { result ≡ vector_difference centre origin }
    ensures size { IsWithin REMOTE result }
{
    V3 {
        x: centre.x - origin.x,
        y: centre.y - origin.y,
        z: centre.z - origin.z,
    }
}

/// The square of a component of a vector to a placed centre.
pub fn squared(z: i64) -> i64
    requires { IsAtMost REMOTE z }
    ensures value { result ≡ squared z }
    ensures size { IsAtMost (REMOTE *ℤ REMOTE) result }
{
    z * z
}

/// The square of the length of a vector to a placed centre.
pub fn length_squared(v: V3) -> i64
    requires { IsWithin REMOTE v }
    ensures value { result ≡ length_squared v }
    ensures size { IsAtMost (pos 3 *ℤ (REMOTE *ℤ REMOTE)) result }
{
    let x = squared(v.x);
    let y = squared(v.y);
    let z = squared(v.z);
    x + y + z
}
