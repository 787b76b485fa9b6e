//! Where boxes lie by a cut, and their places divided by that.

ghost use Rattle.std.specs.Prelude.{◌≡◌, filter, IsTrue, IfOk};
ghost use Rattle.box_index.specs.declared.part.Part.TheVariants.{Here, Low, High};
ghost use Rattle.box_index.specs.Nodes.{lies, has_part};

use crate::cut::{Cut, extent_on, is_side_above, is_side_below};
use lattice_core::Box3;
use memory_core::Memory;
use std::alloc::Global;

/// Where a box lies by a cut: touched by it, or on one of its sides.
#[derive(Clone, Copy, Debug, PartialEq, Eq)]
pub(crate) enum Part {
    Here,
    Low,
    High,
}

/// Places of boxes by where these lie.
#[derive(Drop)]
pub(crate) struct Parts {
    pub here: Vec<u32>,
    pub low: Vec<u32>,
    pub high: Vec<u32>,
}

/// Where a box lies.
fn part_of(b: &Box3, cut: Cut) -> Part
    ensures { IsTrue (lies b.now cut result) }
{
    let Some(extent) = extent_on(b, cut.axis) else {
        return Part::Here;
    };
    if is_side_below(extent.high, cut.at) {
        Part::Low
    } else if is_side_above(extent.low, cut.at) {
        Part::High
    } else {
        Part::Here
    }
}

/// Where the box at a place lies.
fn part_at(boxes: &[Box3], cut: Cut, place: u32) -> Part
    ensures { IsTrue (has_part boxes.now cut result place) }
{
    match boxes.get(place as usize) {
        Some(b) => part_of(b, cut),
        None => Part::Here,
    }
}

/// The places divided by where the boxes at them lie, each part in their order.
pub(crate) fn divided(
    alloc: Global,
    boxes: &[Box3],
    places: &[u32],
    cut: Cut,
) -> Result<Parts, Memory>
    ensures here { IfOk result (λ parts. parts.here.items ≡ filter (has_part boxes.now cut Here) places.now) }
    ensures low { IfOk result (λ parts. parts.low.items ≡ filter (has_part boxes.now cut Low) places.now) }
    ensures high { IfOk result (λ parts. parts.high.items ≡ filter (has_part boxes.now cut High) places.now) }
{
    let mut here = Vec::new(alloc);
    let mut low = Vec::new(alloc);
    let mut high = Vec::new(alloc);
    for place in places {
        match part_at(boxes, cut, *place) {
            Part::Here => here.push(*place)?,
            Part::Low => low.push(*place)?,
            Part::High => high.push(*place)?,
        }
    }
    Ok(Parts { here, low, high })
}
