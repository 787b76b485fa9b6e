//! A tree of bounding boxes as a list of nodes, with the places of boxes at them.

ghost use Rattle.std.specs.Prelude.{◌≡◌, ◌++◌, ◌∷◌, IfOk, filter};
ghost use Rattle.box_index.specs.Nodes.{content, is_touched, root_bounds, AreSound, IsLeft};

use crate::reach::do_touch;
use lattice_core::Box3;
use memory_core::Memory;

/// Places of boxes in some bounds. The nodes below it are the first of those that stand behind it in the list, and have places of boxes
/// in the same bounds.
#[derive(Debug, Drop)]
pub(crate) struct Node {
    pub bounds: Box3,
    pub here: Vec<u32>,
    pub below: usize,
}

/// The bounds of the boxes at all nodes of a tree.
pub(crate) fn root_bounds(nodes: &[Node]) -> Box3
    ensures { result ≡ root_bounds nodes.now }
{
    match nodes.first() {
        Some(node) => node.bounds,
        None => Box3::Empty,
    }
}

/// Whether the box at a place and another box, both with points, share one.
fn is_touched(boxes: &[Box3], place: u32, window: &Box3) -> bool
    ensures { result ≡ is_touched boxes.now window.now place }
{
    match boxes.get(place as usize) {
        Some(b) => do_touch(b, window),
        None => false,
    }
}

fn add_touched(
    here: &[u32],
    boxes: &[Box3],
    window: &Box3,
    out: &mut Vec<u32>,
) -> Result<(), Memory>
    ensures { IfOk result (λ _. out.new.items ≡ out.old.items ++ filter (is_touched boxes.now window.now) here.now) }
{
    for place in here {
        if is_touched(boxes, *place, window) {
            out.push(*place)?;
        }
    }
    Ok(())
}

/// Adds the places at a node of the boxes that share a point with a window, and gives the nodes that are still to be asked: those
/// below a node are passed over with it where the window shares no point with its bounds.
fn visit<'a>(
    node: &Node,
    behind: &'a [Node],
    boxes: &[Box3],
    window: &Box3,
    out: &mut Vec<u32>,
) -> Result<&'a [Node], Memory>
    requires sound { AreSound boxes.now (node.now ∷ behind.now) }
    ensures { IfOk result (λ rest. IsLeft boxes.now (is_touched boxes.now window.now) node.now behind.now rest.now out.old.items out.new.items) }
{
    if !do_touch(&node.bounds, window) {
        return Ok(&behind[node.below..]);
    }
    add_touched(&node.here, boxes, window, out)?;
    Ok(behind)
}

/// Adds the places at the nodes of the boxes that share a point with a window.
pub(crate) fn add_reached(
    nodes: &[Node],
    boxes: &[Box3],
    window: &Box3,
    out: &mut Vec<u32>,
) -> Result<(), Memory>
    requires sound { AreSound boxes.now nodes.now }
    ensures { IfOk result (λ _. out.new.items ≡ out.old.items ++ filter (is_touched boxes.now window.now) (content nodes.now)) }
{
    let mut rest = nodes;
    while let Some((node, behind)) = rest.split_first() {
        rest = visit(node, behind, boxes, window, out)?;
    }
    Ok(())
}
