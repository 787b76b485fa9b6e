//! Where to cut a group of boxes: across the axis on which their middles spread most, at the mean of the middles.

use crate::cut::{Axis, Cut};
use lattice_core::{Box3, Extent, Side};

/// The middles of some boxes along an axis: how many they are, their sum, the least and the greatest. Where the sum passes 64
/// bits, the cut lies elsewhere, which costs time alone.
#[derive(Clone, Copy)]
struct Spread {
    count: u32,
    sum: i64,
    least: i64,
    greatest: i64,
}

impl Spread {
    fn new() -> Spread {
        Spread {
            count: 0,
            sum: 0,
            least: i64::MAX,
            greatest: i64::MIN,
        }
    }

    /// Takes in the middle of an extent, if it has one.
    fn add(&mut self, extent: &Extent) {
        if let Some(middle) = middle_of(extent) {
            self.count = self.count.wrapping_add(1);
            self.sum = self.sum.wrapping_add(middle);
            self.least = self.least.min(middle);
            self.greatest = self.greatest.max(middle);
        }
    }

    fn width(&self) -> i64 {
        self.greatest.saturating_sub(self.least)
    }

    fn mean(&self) -> Option<i64> {
        self.sum.checked_div(i64::from(self.count))
    }
}

/// A whole coordinate next to the middle of an extent. One with an open side has none.
fn middle_of(extent: &Extent) -> Option<i64> {
    match (extent.low, extent.high) {
        (Side::At(low), Side::At(high)) => Some(low / 2 + high / 2),
        _ => None,
    }
}

/// The middles of some boxes along each axis.
struct Spreads {
    x: Spread,
    y: Spread,
    z: Spread,
}

/// The spreads of the boxes at some places.
fn spreads_of(boxes: &[Box3], places: &[u32]) -> Spreads {
    let mut spreads = Spreads {
        x: Spread::new(),
        y: Spread::new(),
        z: Spread::new(),
    };
    for place in places {
        if let Some(Box3::Span { x, y, z }) = boxes.get(*place as usize) {
            spreads.x.add(x);
            spreads.y.add(y);
            spreads.z.add(z);
        }
    }
    spreads
}

/// A cut for some boxes of a list, if one of them has a middle.
pub(crate) fn cut_for(boxes: &[Box3], places: &[u32]) -> Option<Cut> {
    let Spreads { x, y, z } = spreads_of(boxes, places);
    let (axis, spread) = if x.width() >= y.width() && x.width() >= z.width() {
        (Axis::X, x)
    } else if y.width() >= z.width() {
        (Axis::Y, y)
    } else {
        (Axis::Z, z)
    };
    let at = spread.mean()?;
    Some(Cut { axis, at })
}
