//! The places in a tree of bounding boxes of the boxes that a line crosses.

ghost use Rattle.std.specs.Prelude.{◌≡◌, ◌++◌, ◌∷◌, ◌&&◌, IsTrue, IfOk, filter};
ghost use Rattle.box_index.specs.Lines.{IsLine, is_crossed, whole_line};
ghost use Rattle.box_index.specs.Nodes.{content, is_crossed_at, AreSound, IsIndexOf, IsLeft};
ghost use Rattle.box_index.specs.Places.{ArePlacesOf};
ghost use Rattle.box_index.specs.Reaches.{has_points};

use crate::line::Line;
use crate::node::Node;
use lattice_core::Box3;
use memory_core::Memory;

/// Whether a line crosses the box at a place.
fn is_crossed(boxes: &[Box3], place: u32, line: &Line) -> bool
    ensures { result ≡ is_crossed_at boxes.now line.now place }
{
    match boxes.get(place as usize) {
        Some(b) => line.crosses(b),
        None => false,
    }
}

fn add_here(here: &[u32], boxes: &[Box3], line: &Line, out: &mut Vec<u32>) -> Result<(), Memory>
    ensures { IfOk result (λ _. out.new.items ≡ out.old.items ++ filter (is_crossed_at boxes.now line.now) here.now) }
{
    for place in here {
        if is_crossed(boxes, *place, line) {
            out.push(*place)?;
        }
    }
    Ok(())
}

/// Adds the places at a node of the boxes that a line crosses, and gives the nodes that are still to be asked: those below a node
/// are passed over with it where the line doesn't cross its bounds.
fn visit<'a>(
    node: &Node,
    behind: &'a [Node],
    boxes: &[Box3],
    line: &Line,
    out: &mut Vec<u32>,
) -> Result<&'a [Node], Memory>
    requires line { IsLine line.now }
    requires sound { AreSound boxes.now (node.now ∷ behind.now) }
    ensures { IfOk result (λ rest. IsLeft boxes.now (is_crossed_at boxes.now line.now) node.now behind.now rest.now out.old.items out.new.items) }
{
    if !line.crosses(&node.bounds) {
        return Ok(&behind[node.below..]);
    }
    add_here(&node.here, boxes, line, out)?;
    Ok(behind)
}

/// Adds the places at the nodes of the boxes that a line crosses.
fn add_crossed(
    nodes: &[Node],
    boxes: &[Box3],
    line: &Line,
    out: &mut Vec<u32>,
) -> Result<(), Memory>
    requires line { IsLine line.now }
    requires sound { AreSound boxes.now nodes.now }
    ensures { IfOk result (λ _. out.new.items ≡ out.old.items ++ filter (is_crossed_at boxes.now line.now) (content nodes.now)) }
{
    let mut rest = nodes;
    while let Some((node, behind)) = rest.split_first() {
        rest = visit(node, behind, boxes, line, out)?;
    }
    Ok(())
}

/// Replaces `out` by the places of the boxes that a line crosses.
pub(crate) fn find_crossed(
    nodes: &[Node],
    boxes: &[Box3],
    line: &Line,
    out: &mut Vec<u32>,
) -> Result<(), Memory>
    requires line { IsLine line.now }
    requires index { IsIndexOf boxes.now nodes.now }
    ensures { IfOk result (λ _. ArePlacesOf (λ b. IsTrue (has_points b && is_crossed line.now whole_line b)) boxes.now out.new.items) }
{
    out.clear();
    add_crossed(nodes, boxes, line, out)?;
    out.sort_unstable();
    Ok(())
}
