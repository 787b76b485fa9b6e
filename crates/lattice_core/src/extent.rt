//! One axis of a box: its low and its high side.

ghost use Rattle.std.specs.Prelude.{◌↔◌, ◌≡◌, ◌≤ℤ◌, IsTrue, pos, ℤ};
ghost use Rattle.lattice_core.specs.Extents.{hull_low, hull_high, meet_low, meet_high, AreOrdered, IsStep};
ghost use Rattle.lattice_core.specs.Limits.{IsAtMost};

use crate::boxes::Side;
use crate::limit::{FAR, WORLD};

/// The coordinates from a low side to a high one. Where the low side lies beyond the high one there are none.
#[derive(Clone, Copy, Debug, PartialEq, Eq, Hash)]
pub struct Extent {
    pub low: Side,
    pub high: Side,
}

impl Extent {
    ghost use Rattle.lattice_core.specs.Extents.{IsOrdered, extent_between, hull_extent, meet_extent, reach_extent};

    /// The extent with its sides at two coordinates.
    pub fn between(low: i64, high: i64) -> Extent
        ensures { result ≡ extent_between low high }
    {
        Extent {
            low: Side::At(low),
            high: Side::At(high),
        }
    }

    /// Whether some coordinate lies between the sides.
    pub(crate) fn is_ordered(self) -> bool
        ensures { IsTrue result ↔ IsOrdered self }
    {
        are_ordered(self.low, self.high)
    }

    /// The least extent that holds two.
    pub(crate) fn hull(self, other: Extent) -> Extent
        ensures { result ≡ hull_extent self other }
    {
        Extent {
            low: hull_low(self.low, other.low),
            high: hull_high(self.high, other.high),
        }
    }

    /// What two extents share.
    pub(crate) fn meet(self, other: Extent) -> Extent
        ensures { result ≡ meet_extent self other }
    {
        Extent {
            low: meet_low(self.low, other.low),
            high: meet_high(self.high, other.high),
        }
    }

    /// Whether the extent holds some coordinate of a ray of which the coordinate starts at `origin` and changes by `step` a
    /// tenth of a millimetre.
    pub(crate) fn meets_ray(self, origin: i64, step: i64) -> bool
        requires origin { IsAtMost WORLD origin }
        requires step { IsStep step }
        ensures { IsTrue result ↔ IsOrdered (meet_extent self (reach_extent origin step)) }
    {
        self.shares(Extent::of_ray(origin, step))
    }

    /// Whether some coordinate lies in both extents, of which the other one holds some.
    fn shares(self, other: Extent) -> bool
        requires { IsOrdered other }
        ensures { IsTrue result ↔ IsOrdered (meet_extent self other) }
    {
        if !are_ordered(self.low, other.high) {
            return false;
        }
        if !are_ordered(other.low, self.high) {
            return false;
        }
        self.is_ordered()
    }

    /// From the least coordinate on such a ray to the greatest.
    pub(crate) fn of_ray(origin: i64, step: i64) -> Extent
        requires origin { IsAtMost WORLD origin }
        requires step { IsStep step }
        ensures { result ≡ reach_extent origin step }
    {
        let end = origin + step * FAR;
        Extent::between(origin.min(end), origin.max(end))
    }
}

/// Whether a low side is at most a high one.
fn are_ordered(low: Side, high: Side) -> bool
    ensures { IsTrue result ↔ AreOrdered low high }
{
    match (low, high) {
        (Side::At(low), Side::At(high)) => low <= high,
        _ => true,
    }
}

fn hull_low(a: Side, b: Side) -> Side
    ensures { result ≡ hull_low a b }
{
    match (a, b) {
        (Side::At(a), Side::At(b)) => Side::At(a.min(b)),
        _ => Side::Open,
    }
}

fn hull_high(a: Side, b: Side) -> Side
    ensures { result ≡ hull_high a b }
{
    match (a, b) {
        (Side::At(a), Side::At(b)) => Side::At(a.max(b)),
        _ => Side::Open,
    }
}

fn meet_low(a: Side, b: Side) -> Side
    ensures { result ≡ meet_low a b }
{
    match (a, b) {
        (Side::At(a), Side::At(b)) => Side::At(a.max(b)),
        (Side::Open, side) | (side, Side::Open) => side,
    }
}

fn meet_high(a: Side, b: Side) -> Side
    ensures { result ≡ meet_high a b }
{
    match (a, b) {
        (Side::At(a), Side::At(b)) => Side::At(a.min(b)),
        (Side::Open, side) | (side, Side::Open) => side,
    }
}
