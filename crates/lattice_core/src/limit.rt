//! How large the numbers of a model may be. Each limit is a constant here, and other crates build theirs from these.
//! Lengths count tenths of a millimetre.

ghost use Rattle.std.specs.Prelude.{◌≡◌, ◌^◌, pos};
ghost use Rattle.lattice_core.specs.declared.limit.TheConstants.{MILLIMETRE, COORD, HALF_NORMAL, SHIFT, WORLD, FAR, REACH, WIDE, PICTURE_SIDE, TILE_SIDE, VIEW_NUMBER};

/// How many tenths of a millimetre make a millimetre: the unit of a length in a text by that of a length here.
pub const MILLIMETRE: i64 = 10;

/// The greatest size of a coordinate, a radius, a distance or a component of a member's shift, in tenths of a millimetre.
pub const COORD: i64 = 163_840;

/// The greatest size of a component of a half-space's normal, which is a plain number and no length.
pub const HALF_NORMAL: i64 = 16_384;

/// The greatest size of a component of the shift that a whole path of placements adds up to, in tenths of a millimetre.
pub const SHIFT: i64 = 2_621_440;

/// The greatest size of a coordinate of a ray's origin, in tenths of a millimetre.
pub const WORLD: i64 = 5_242_880;

/// The length of a ray, in tenths of a millimetre.
pub const FAR: i64 = 10_485_760;

/// Points and shifts that are placed or composed have components below this size, in tenths of a millimetre.
pub const REACH: i64 = 1 << 24;

/// Vectors that are turned or added have components below this size.
pub const WIDE: i64 = 1 << 62;

/// The greatest size of a coordinate of a solid's point after it was placed, in tenths of a millimetre.
pub const PLACED: i64 = COORD + SHIFT;

/// The greatest number of columns and of rows that a view may have.
pub const PICTURE_SIDE: u32 = 2_048;

/// The number of columns and of rows of a tile, unless the view ends before.
pub const TILE_SIDE: u32 = 16;

/// The greatest size of a view's cell and of a coordinate of its corner before the view is checked, in tenths of a
/// millimetre.
pub const VIEW_NUMBER: i64 = 9_999_999_999;

/// The pixels of a view are less than this far apart along an axis before the view is checked, in tenths of a millimetre.
pub const VIEW_REACH: i64 = 2_048 * VIEW_NUMBER;

/// The limits are these numbers. This law is what refuses another constant.
pub fn limit_laws()
    ensures millimetre { MILLIMETRE ≡ pos 10 }
    ensures coordinate { COORD ≡ pos 163840 }
    ensures normal { HALF_NORMAL ≡ pos 16384 }
    ensures shift { SHIFT ≡ pos 2621440 }
    ensures world { WORLD ≡ pos 5242880 }
    ensures ray { FAR ≡ pos 10485760 }
    ensures points { REACH ≡ pos (2 ^ 24) }
    ensures turned { WIDE ≡ pos (2 ^ 62) }
    ensures picture { PICTURE_SIDE ≡ 2048 }
    ensures tile { TILE_SIDE ≡ 16 }
    ensures view { VIEW_NUMBER ≡ pos 9999999999 }
{}
