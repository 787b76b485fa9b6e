//! One crossing of a face on a ray.

use surd_order::Pos;

/// A place on a ray and the number of the face that is crossed there, or 0 where the ray itself begins or ends.
#[derive(Clone, Copy, Debug, PartialEq, Eq)]
pub struct Crossed {
    pub face: u8,
    pub place: Pos,
}
