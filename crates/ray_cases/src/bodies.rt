//! The text of a region of a scene.

use crate::texts::{push, push_number};
use crate::trees::push_tree;
use case_text::{CaseFault, Shown};
use lattice_core::{Box3, Extent, Side};
use region_attr::Rgb;
use shot_core::{PrepRegion, SceneRegion};
use solid_set::Placed;
use std::alloc::Global;

/// Puts in a side of a box, or `*` where it is open.
fn push_side(alloc: Global, side: Side, out: &mut Shown) -> Result<(), CaseFault> {
    match side {
        Side::Open => push(out, b" *"),
        Side::At(at) => {
            let text = format!(in alloc; " {at}")?;
            push(out, text.as_bytes())
        }
    }
}

/// Puts in the sides along an axis.
fn push_sides(alloc: Global, shown: Extent, out: &mut Shown) -> Result<(), CaseFault> {
    push_side(alloc, shown.low, out)?;
    push_side(alloc, shown.high, out)
}

/// Puts in the word `box` and the least and greatest x, y and z, or `empty`.
fn push_box(alloc: Global, bounds: Box3, out: &mut Shown) -> Result<(), CaseFault> {
    match bounds {
        Box3::Empty => push(out, b" box empty"),
        Box3::Span { x, y, z } => {
            push(out, b" box")?;
            push_sides(alloc, x, out)?;
            push_sides(alloc, y, out)?;
            push_sides(alloc, z, out)
        }
    }
}

/// Puts in `PLACE PATH`.
pub fn push_place(alloc: Global, region: &SceneRegion, out: &mut Shown) -> Result<(), CaseFault> {
    push_number(alloc, out, b"", u64::from(region.place()))?;
    push(out, b" ")?;
    push(out, region.path().items())
}

/// Puts in `rgb R G B`.
fn push_colour(alloc: Global, rgb: Rgb, out: &mut Shown) -> Result<(), CaseFault> {
    let Rgb { r, g, b } = rgb;
    push_number(alloc, out, b" rgb ", u64::from(r))?;
    push_number(alloc, out, b" ", u64::from(g))?;
    push_number(alloc, out, b" ", u64::from(b))
}

/// Puts in `size LEAVES solids COUNT`.
fn push_size(alloc: Global, body: &PrepRegion, out: &mut Shown) -> Result<(), CaseFault> {
    push_number(alloc, out, b" size ", u64::from(body.size()))?;
    push_number(alloc, out, b" solids ", body.solids().len() as u64)
}

/// Puts in `tree NODES id ID air AIR rgb R G B size LEAVES solids COUNT box SIDES`.
pub fn push_body(alloc: Global, body: &PrepRegion, out: &mut Shown) -> Result<(), CaseFault> {
    push_tree(alloc, body.tree(), out)?;
    push_number(alloc, out, b" id ", u64::from(body.id()))?;
    push_number(alloc, out, b" air ", u64::from(body.air()))?;
    push_colour(alloc, body.rgb(), out)?;
    push_size(alloc, body, out)?;
    push_box(alloc, body.bounds(), out)
}

/// Puts in the boxes of solids.
pub fn push_solids(alloc: Global, solids: &[Placed], out: &mut Shown) -> Result<(), CaseFault> {
    for solid in solids {
        push_box(alloc, solid.bounds(), out)?;
    }
    Ok(())
}
