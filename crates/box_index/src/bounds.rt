//! Bounding boxes: boxes that hold others whole.

ghost use Rattle.std.specs.Prelude.{◌≡◌};
ghost use Rattle.lattice_core.specs.Extents.{hull_low, hull_high, hull_extent};
ghost use Rattle.box_index.specs.Nodes.{box_at, AreHeld};
ghost use Rattle.box_index.specs.Bounds.{around, all_points};

use lattice_core::{Box3, Extent, Side};

/// The lower of two low sides.
fn hull_low(a: Side, b: Side) -> Side
    ensures { result ≡ hull_low a b }
{
    match (a, b) {
        (Side::At(a), Side::At(b)) => Side::At(a.min(b)),
        _ => Side::Open,
    }
}

/// The higher of two high sides.
fn hull_high(a: Side, b: Side) -> Side
    ensures { result ≡ hull_high a b }
{
    match (a, b) {
        (Side::At(a), Side::At(b)) => Side::At(a.max(b)),
        _ => Side::Open,
    }
}

/// The least extent that holds two.
fn hull(a: &Extent, b: &Extent) -> Extent
    ensures { result ≡ hull_extent a.now b.now }
{
    Extent {
        low: hull_low(a.low, b.low),
        high: hull_high(a.high, b.high),
    }
}

/// The least box that holds two.
pub(crate) fn around(a: &Box3, b: &Box3) -> Box3
    ensures { result ≡ around a.now b.now }
{
    match (a, b) {
        (Box3::Empty, _) => *b,
        (_, Box3::Empty) => *a,
        (
            Box3::Span { x, y, z },
            Box3::Span {
                x: x_2,
                y: y_2,
                z: z_2,
            },
        ) => Box3::Span {
            x: hull(x, x_2),
            y: hull(y, y_2),
            z: hull(z, z_2),
        },
    }
}

/// The least box that holds bounds and the box at a place.
fn widened(bounds: &Box3, boxes: &[Box3], place: u32) -> Box3
    ensures { result ≡ around bounds.now (box_at boxes.now place) }
{
    match boxes.get(place as usize) {
        Some(b) => around(bounds, b),
        None => around(bounds, &Box3::Empty),
    }
}

/// Bounds that hold the boxes at some places.
pub(crate) fn bounds_of(boxes: &[Box3], places: &[u32]) -> Box3
    ensures { AreHeld boxes.now result places.now }
{
    let mut bounds = Box3::Empty;
    for place in places {
        bounds = widened(&bounds, boxes, *place);
    }
    bounds
}

/// The bounds of all points.
pub(crate) fn all_points() -> Box3
    ensures { result ≡ all_points }
{
    let all = Extent {
        low: Side::Open,
        high: Side::Open,
    };
    Box3::Span {
        x: all,
        y: all,
        z: all,
    }
}
