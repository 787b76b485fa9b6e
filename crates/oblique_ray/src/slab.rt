use surd_quot::QPos;

/// A part of a ray that one region has, in steps of the ray's direction.
#[derive(Clone, Copy, Debug, PartialEq, Eq)]
pub struct Slab {
    /// The region's number in its scene, counted from 0.
    pub region: u32,
    /// Where it starts.
    pub start: QPos,
    /// Where it ends.
    pub end: QPos,
}
