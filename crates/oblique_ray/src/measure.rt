//! The whole numbers of crossings: products of vectors, and the test of a line that runs along a plane.

ghost use Rattle.std.specs.Prelude.{◌≡◌, ◌+ℤ◌, ◌-ℤ◌, ◌*ℤ◌, ◌≤ℤ◌};
ghost use Rattle.lattice_core.specs.declared.limit.TheConstants.{COORD, WORLD};
ghost use Rattle.lattice_core.specs.Limits.{IsAtMost, IsWithin};
ghost use Rattle.lattice_core.specs.Vectors.{dot_product};
ghost use Rattle.plane_geom.specs.declared.limit.TheConstants.{NORMAL, GAP, REMOTE};
ghost use Rattle.plane_geom.specs.Chords.{squared, length_squared, nearest_along, half_chord_along};
ghost use Rattle.plane_geom.specs.Crossings.{first_is_negative, holds_along};
ghost use Rattle.plane_geom.specs.Planes.{IsWorldPlane, slope_along, start_at};
ghost use Rattle.slant_ray.specs.declared.ray.TheConstants.{STEP};
ghost use Rattle.oblique_ray.specs.declared.limit.TheConstants.{SLOPE, PACE, NEAREST, CHORD, OVER};

use lattice_core::V3;
use plane_geom::{Plane, half_chord, length_squared};

fn product(component: i64, coordinate: i64) -> i128
    requires component { IsAtMost NORMAL component }
    requires coordinate { IsAtMost WORLD coordinate }
    ensures value { result ≡ component *ℤ coordinate }
    ensures size { IsAtMost (NORMAL *ℤ WORLD) result }
{
    i128::from(component) * i128::from(coordinate)
}

/// The dot product of a normal or of a vector to a centre, and an origin or a direction.
fn dot(a: V3, b: V3) -> i128
    requires first { IsWithin NORMAL a }
    requires second { IsWithin WORLD b }
    ensures { result ≡ dot_product a b }
{
    let x = product(a.x, b.x);
    let y = product(a.y, b.y);
    let z = product(a.z, b.z);
    x + y + z
}

/// How fast `n · p` grows along a direction.
pub fn slope_along(plane: &Plane, e: V3) -> i128
    requires plane { IsWorldPlane plane.now }
    requires direction { IsWithin STEP e }
    ensures value { result ≡ slope_along plane.now e }
    ensures size { IsAtMost SLOPE result }
{
    dot(plane.n, e)
}

/// How far `n · p` is below `d` at a point.
pub fn gap_at(plane: &Plane, o: V3) -> i128
    requires plane { IsWorldPlane plane.now }
    requires origin { IsWithin WORLD o }
    ensures value { result ≡ plane.now.d -ℤ start_at plane.now o }
    ensures size { IsAtMost GAP result }
{
    plane.d - dot(plane.n, o)
}

/// Whether the first component that is not zero is negative.
fn first_is_negative(n: V3) -> bool
    ensures { result ≡ first_is_negative n }
{
    n.x < 0 || n.x == 0 && (n.y < 0 || n.y == 0 && n.z < 0)
}

/// Whether a line along a plane, of this gap, is held.
pub fn holds_along(n: V3, gap: i128) -> bool
    ensures { result ≡ holds_along n gap }
{
    gap > 0 || gap == 0 && first_is_negative(n)
}

/// How far along a line a centre lies that is apart from its origin, times the square of the length of the direction.
pub fn nearest_along(apart: V3, e: V3) -> i64
    requires apart { IsWithin REMOTE apart }
    requires direction { IsWithin STEP e }
    ensures value { result ≡ nearest_along apart e }
    ensures size { IsAtMost NEAREST result }
{
    dot(apart, e) as i64
}

/// The square of the length of a direction.
pub fn pace_of(e: V3) -> i64
    requires { IsWithin STEP e }
    ensures value { result ≡ length_squared e }
    ensures size { IsAtMost PACE result }
{
    length_squared(e)
}

/// The square of a radius less that of the length of a vector.
pub fn over_at(apart: V3, radius: i64) -> i64
    requires apart { IsWithin REMOTE apart }
    requires radius { IsAtMost COORD radius }
    ensures value { result ≡ squared radius -ℤ length_squared apart }
    ensures size { IsAtMost OVER result }
{
    half_chord(apart, 0, radius)
}

/// `pace * over + nearest * nearest`.
fn raised(pace: i64, over: i64, nearest: i64) -> i64
    requires pace { IsAtMost PACE pace }
    requires over { IsAtMost OVER over }
    requires nearest { IsAtMost NEAREST nearest }
    ensures { result ≡ (pace *ℤ over) +ℤ (nearest *ℤ nearest) }
{
    pace * over + nearest * nearest
}

/// The square of half the length that what is round cuts out of a line, times the square of the length of the direction.
pub fn half_chord_along(apart: V3, radius: i64, e: V3) -> i64
    requires apart { IsWithin REMOTE apart }
    requires radius { IsAtMost COORD radius }
    requires direction { IsWithin STEP e }
    ensures value { result ≡ half_chord_along apart radius e }
    ensures size { result ≤ℤ CHORD }
{
    raised(pace_of(e), over_at(apart, radius), nearest_along(apart, e))
}
