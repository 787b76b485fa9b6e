use overlap_list::Hit;
use surd_order::Pos;

/// What a ray meets first of the regions without air.
#[derive(Clone, Copy, Debug, PartialEq, Eq)]
pub struct Seen {
    /// The region's number in its scene, counted from 0.
    pub region: u32,
    /// Where it starts.
    pub start: Pos,
    /// What is hit there.
    pub hit: Hit,
    /// The brightness there, from 55 to 255.
    pub level: u8,
}
