//! How large the numbers of a ray in a lattice direction may be, from the limits of points and planes.

ghost use Rattle.std.specs.Prelude.{◌≡◌, ◌<ℤ◌, ◌≤ℤ◌, pos};
ghost use Rattle.lattice_core.specs.declared.limit.TheConstants.{FAR};
ghost use Rattle.plane_geom.specs.declared.limit.TheConstants.{GAP};
ghost use Rattle.surd_quot.specs.declared.range.TheConstants.{OVER_LIMIT, UNDER_LIMIT, WHOLE_LIMIT, SQUARE_LIMIT, GREATEST_DIVISOR};
ghost use Rattle.slant_ray.specs.declared.ray.TheConstants.{STEP};
ghost use Rattle.oblique_ray.specs.declared.limit.TheConstants.{SLOPE, PACE, NEAREST, CHORD};

use lattice_core::COORD;
use plane_geom::{NORMAL, REMOTE};
use slant_ray::STEP;

/// The greatest size of how fast the height over a plane grows along a direction.
pub const SLOPE: i64 = 3 * NORMAL * STEP;

/// The greatest square of the length of a direction.
pub const PACE: i64 = 3 * STEP * STEP;

/// The greatest size of how far along a ray a placed centre is, times the square of the length of its direction.
pub const NEAREST: i64 = 3 * REMOTE * STEP;

/// The greatest square of half a chord, times the square of the length of the direction.
pub const CHORD: i64 = PACE * COORD * COORD;

/// The greatest size of the square of a radius less that of the distance of a placed centre from a ray's origin.
pub(crate) const OVER: i64 = COORD * COORD + 3 * REMOTE * REMOTE;

/// The greatest size of a component is 4, and the numbers of all crossings and of the end of a ray are below the limits under which
/// positions are compared. This law is what refuses limits that are too large for that.
pub fn limit_laws()
    ensures step { STEP ≡ pos 4 }
    ensures over { GAP <ℤ pos OVER_LIMIT }
    ensures far { FAR <ℤ pos OVER_LIMIT }
    ensures under { SLOPE <ℤ UNDER_LIMIT }
    ensures whole { NEAREST <ℤ pos WHOLE_LIMIT }
    ensures square { CHORD <ℤ pos SQUARE_LIMIT }
    ensures divisor { PACE ≤ℤ pos GREATEST_DIVISOR }
{}
