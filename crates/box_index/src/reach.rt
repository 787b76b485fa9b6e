//! Whether boxes have points, and whether two that have some share one.

ghost use Rattle.std.specs.Prelude.{◌≡◌};
ghost use Rattle.box_index.specs.Reaches.{are_ordered, do_overlap, do_touch, has_points};

use lattice_core::{Box3, Extent, Side};

/// Whether a low side is at most a high one.
fn are_ordered(low: Side, high: Side) -> bool
    ensures { result ≡ are_ordered low high }
{
    match (low, high) {
        (Side::At(low), Side::At(high)) => low <= high,
        _ => true,
    }
}

/// Whether two extents that have coordinates share one.
fn do_overlap(a: &Extent, b: &Extent) -> bool
    ensures { result ≡ do_overlap a.now b.now }
{
    are_ordered(a.low, b.high) && are_ordered(b.low, a.high)
}

/// Whether two boxes that have points share one.
pub(crate) fn do_touch(a: &Box3, b: &Box3) -> bool
    ensures { result ≡ do_touch a.now b.now }
{
    match (a, b) {
        (
            Box3::Span { x, y, z },
            Box3::Span {
                x: x_2,
                y: y_2,
                z: z_2,
            },
        ) => do_overlap(x, x_2) && do_overlap(y, y_2) && do_overlap(z, z_2),
        _ => false,
    }
}

/// Whether a box has points.
pub(crate) fn has_points(b: &Box3) -> bool
    ensures { result ≡ has_points b.now }
{
    match b {
        Box3::Empty => false,
        Box3::Span { x, y, z } => {
            are_ordered(x.low, x.high) && are_ordered(y.low, y.high) && are_ordered(z.low, z.high)
        }
    }
}
