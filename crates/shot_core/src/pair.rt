use surd_order::Pos;

/// Two regions without air that overlap on some rays of a view. Regions are told by their places in the scene, which are
/// counted from 1.
#[derive(Clone, Copy, Debug, PartialEq, Eq)]
pub struct Pair {
    /// The lower place of the two.
    pub one: u32,
    /// The higher place.
    pub two: u32,
    /// On how many rays they overlap.
    pub rays: u32,
    /// The column of the first of these rays, row by row from the top left.
    pub column: u32,
    /// Its row.
    pub row: u32,
    /// Where their first overlap on that ray starts.
    pub start: Pos,
    /// Where it ends.
    pub end: Pos,
}
