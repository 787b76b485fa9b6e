//! How large the numbers of planes and chords may be, from the limits of points and shifts.

ghost use Rattle.std.specs.Prelude.{◌≡◌, pos};
ghost use Rattle.plane_geom.specs.declared.limit.TheConstants.{NORMAL, GAP, REMOTE};

use lattice_core::{COORD, FAR, PLACED, SHIFT, WORLD};

/// The greatest size of a component of a normal: that of a cross product of differences of solid coordinates.
pub const NORMAL: i64 = 8 * COORD * COORD;

/// The greatest size of the offset of a plane through points of a solid.
pub const OFFSET: i128 = 3 * NORMAL as i128 * COORD as i128;

/// The greatest size of the offset of a placed plane.
pub const WORLD_OFFSET: i128 = OFFSET + 3 * NORMAL as i128 * SHIFT as i128;

/// The greatest size of the numerator of a crossing: of how far `n · p` is below the offset where a ray starts.
pub const GAP: i128 = WORLD_OFFSET + 3 * NORMAL as i128 * FAR as i128;

/// The greatest size of a component of the vector from a ray's origin to a placed centre, in tenths of a millimetre.
pub const REMOTE: i64 = PLACED + WORLD;

/// The limits are these numbers. This law is what refuses another constant.
pub fn limit_laws()
    ensures normal { NORMAL ≡ pos 214748364800 }
    ensures gap { GAP ≡ pos 8549802417586176000 }
    ensures remote { REMOTE ≡ pos 8028160 }
{}
