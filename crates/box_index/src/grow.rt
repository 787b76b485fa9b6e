//! The tree of bounding boxes of some boxes.

ghost use Rattle.std.specs.Prelude.{◌≡◌, ◌<◌, ◌^◌, ◌++◌, [], length, IfOk, IfSome};
ghost use Rattle.box_index.specs.Nodes.{root_bounds, IsForked, AreNodesOf};
ghost use Rattle.box_index.specs.Places.{places_where};
ghost use Rattle.box_index.specs.Reaches.{has_points};
ghost use Rattle.box_index.specs.Bounds.{around};

use crate::bounds::{all_points, around, bounds_of};
use crate::cut::Cut;
use crate::node::{Node, root_bounds};
use crate::part::{Parts, divided};
use crate::reach::has_points;
use crate::spread::cut_for;
use lattice_core::Box3;
use memory_core::Memory;
use std::alloc::Global;

/// The greatest number of places that are not cut at all. The scene of a tile mostly has fewer regions, and its index is made for
/// each tile.
const MOST_UNCUT: usize = 32;

/// The greatest number of places at a leaf, where a cut can be had.
const MOST_HERE: usize = 8;

/// The greatest number of cuts from the root of a tree to a leaf.
const MOST_CUTS: u32 = 16;

/// The nodes of one list, and behind them those of another.
fn joined(mut nodes: Vec<Node>, mut more: Vec<Node>) -> Result<Vec<Node>, Memory>
    ensures { IfOk result (λ v. v.items ≡ nodes.items ++ more.items) }
{
    nodes.append(&mut more)?;
    Ok(nodes)
}

/// A node with those below it.
fn forked(
    alloc: Global,
    bounds: Box3,
    here: Vec<u32>,
    below: Vec<Node>,
) -> Result<Vec<Node>, Memory>
    ensures { IfOk result (λ v. IsForked bounds here.items below.items v.items) }
{
    let mut nodes = Vec::new(alloc);
    nodes.push(Node {
        bounds,
        here,
        below: below.len(),
    })?;
    joined(nodes, below)
}

/// A node without any below it.
fn leaf(alloc: Global, bounds: Box3, places: Vec<u32>) -> Result<Vec<Node>, Memory>
    ensures { IfOk result (λ v. IsForked bounds places.items [] v.items) }
{
    forked(alloc, bounds, places, Vec::new(alloc))
}

/// A node over three trees, without places of its own.
fn fork(
    alloc: Global,
    middle: Vec<Node>,
    low: Vec<Node>,
    high: Vec<Node>,
) -> Result<Vec<Node>, Memory>
    ensures { IfOk result (λ v. IsForked (around (root_bounds middle.items) (around (root_bounds low.items) (root_bounds high.items))) [] (middle.items ++ (low.items ++ high.items)) v.items) }
{
    let sides = around(&root_bounds(&low), &root_bounds(&high));
    let bounds = around(&root_bounds(&middle), &sides);
    forked(
        alloc,
        bounds,
        Vec::new(alloc),
        joined(middle, joined(low, high)?)?,
    )
}

/// The cut for the boxes at some places, where one is wanted.
fn wanted_cut(boxes: &[Box3], places: &[u32], cuts: u32) -> Option<Cut>
    ensures { IfSome result (λ _. 0 < cuts) }
{
    if cuts == 0 || places.len() <= MOST_HERE {
        return None;
    }
    cut_for(boxes, places)
}

/// The tree of the boxes at some places, with so many cuts at most from its root to a leaf.
fn grow(alloc: Global, boxes: &[Box3], places: Vec<u32>, cuts: u32) -> Result<Vec<Node>, Memory>
    ensures { IfOk result (λ nodes. AreNodesOf boxes.now places.items nodes.items) }
{
    if places.is_empty() {
        return Ok(Vec::new(alloc));
    }
    let Some(cut) = wanted_cut(boxes, &places, cuts) else {
        return leaf(alloc, bounds_of(boxes, &places), places);
    };
    let Parts { here, low, high } = divided(alloc, boxes, &places, cut)?;
    if here.len() == places.len() {
        return leaf(alloc, bounds_of(boxes, &places), places);
    }
    let middle = grow(alloc, boxes, here, cuts - 1)?;
    let low = grow(alloc, boxes, low, cuts - 1)?;
    let high = grow(alloc, boxes, high, cuts - 1)?;
    fork(alloc, middle, low, high)
}

/// The tree of the boxes at some places.
pub(crate) fn tree_of(alloc: Global, boxes: &[Box3], places: Vec<u32>) -> Result<Vec<Node>, Memory>
    ensures { IfOk result (λ nodes. AreNodesOf boxes.now places.items nodes.items) }
{
    if places.len() <= MOST_UNCUT {
        return leaf(alloc, all_points(), places);
    }
    grow(alloc, boxes, places, MOST_CUTS)
}

/// The places of the boxes that have points.
pub(crate) fn filled_places(alloc: Global, boxes: &[Box3]) -> Result<Vec<u32>, Memory>
    requires { length boxes.now < 2 ^ 31 }
    ensures { IfOk result (λ v. v.items ≡ places_where has_points boxes.now) }
{
    let mut places = Vec::with_capacity(alloc, boxes.len())?;
    for i in 0..boxes.len() {
        if has_points(&boxes[i]) {
            places.push(i as u32)?;
        }
    }
    Ok(places)
}
