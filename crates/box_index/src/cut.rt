//! Cuts of space across an axis.

ghost use Rattle.std.specs.Prelude.{◌≡◌};
ghost use Rattle.box_index.specs.Cuts.{extent_on, is_side_below, is_side_above};

use lattice_core::{Box3, Extent, Side};

#[derive(Clone, Copy, Debug, PartialEq, Eq)]
pub(crate) enum Axis {
    X,
    Y,
    Z,
}

/// The plane of the points whose coordinate on an axis is a whole one.
#[derive(Clone, Copy, Debug, PartialEq, Eq)]
pub(crate) struct Cut {
    pub axis: Axis,
    pub at: i64,
}

/// The extent of a box along an axis.
pub(crate) fn extent_on(b: &Box3, axis: Axis) -> Option<Extent>
    ensures { result ≡ extent_on b.now axis }
{
    match b {
        Box3::Empty => None,
        Box3::Span { x, y, z } => match axis {
            Axis::X => Some(*x),
            Axis::Y => Some(*y),
            Axis::Z => Some(*z),
        },
    }
}

/// Whether a side lies below a coordinate.
pub(crate) fn is_side_below(side: Side, at: i64) -> bool
    ensures { result ≡ is_side_below at side }
{
    match side {
        Side::Open => false,
        Side::At(end) => end < at,
    }
}

/// Whether a side lies above a coordinate.
pub(crate) fn is_side_above(side: Side, at: i64) -> bool
    ensures { result ≡ is_side_above at side }
{
    match side {
        Side::Open => false,
        Side::At(end) => end > at,
    }
}
