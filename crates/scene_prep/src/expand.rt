ghost use Rattle.std.specs.Prelude.{◌≡◌, ◌+◌, ◌≤◌, vec_len, IfOk, All, Some};
ghost use Rattle.lattice_core.specs.declared.limit.TheConstants.{COORD};
ghost use Rattle.lattice_core.specs.Limits.{IsWithin};
ghost use Rattle.lattice_core.specs.Placements.{IsComposed};
ghost use Rattle.tree_forms.specs.Trees.{Tree};
ghost use Rattle.comb_tree.specs.Nodes.{Member, comb_nodes};
ghost use Rattle.directory.specs.Walks.{IsSound};
ghost use Rattle.scene_prep.specs.Solids.{placed_tree};
ghost use Rattle.scene_prep.specs.Expanding.{expanded, expanded_tree};
ghost use Rattle.scene_prep.specs.Sizes.{size_of_name, most_size};
ghost use Rattle.scene_prep.specs.Levels.{IsShallow, StandsWithin, IsPlacedAbove, node_size, nodes_size};
ghost use Rattle.scene_prep.specs.Writing.{Writes, WritesNode};

use crate::expansion::Expansion;
use crate::memo::Memo;
use bool_weave::MaskNode;
use comb_tree::CombNode;
use directory::Directory;
use lattice_core::{Placement, compose};
use memory_core::Memory;
use name_core::Name;
use object_set::Body;

/// The placement of a member whose combination is placed.
fn placed_below(by: &Placement, member: &Placement, levels: u32) -> Placement
    requires by { IsPlacedAbove (levels + 1) by.now }
    requires member { IsWithin COORD member.now.shift }
    ensures composed { IsComposed result by.now member.now }
    ensures near { IsPlacedAbove levels result }
{
    compose(*by, *member)
}

/// Writes what a name comes to where it is placed. At most `levels` combinations lie one in the other there.
#[cycle(expand)]
pub(crate) fn expand_name(
    directory: &Directory,
    out: &mut Expansion,
    memo: &mut Memo,
    name: &Name,
    by: &Placement,
    levels: u32,
) -> Result<(), Memory>
    requires sound { IsSound directory.now.objects }
    requires shallow { IsShallow directory.now.objects levels name.now }
    requires by { IsPlacedAbove levels by.now }
    requires room { vec_len out.old.solids + size_of_name directory.now.objects name.now ≤ most_size }
    ensures { IfOk result (λ _. Writes out.old out.new (placed_tree by.now (expanded directory.now.objects name.now))) }
{
    match directory.get(name) {
        Some(object) => match object.body() {
            Body::Solid(solid) => out.push_solid(memo, solid, by),
            Body::Comb { tree, .. } => {
                let nodes = tree.nodes();
                if nodes.is_empty() {
                    return out.push_node(MaskNode::Never);
                }
                expand_nodes(directory, out, memo, nodes, by, levels - 1)
            }
        },
        None => out.push_node(MaskNode::Never),
    }
}

/// Writes one node of a combination that is placed.
#[cycle(expand)]
fn expand_node(
    directory: &Directory,
    out: &mut Expansion,
    memo: &mut Memo,
    node: &CombNode,
    by: &Placement,
    levels: u32,
) -> Result<(), Memory>
    requires sound { IsSound directory.now.objects }
    requires within { StandsWithin directory.now.objects levels node.now }
    requires by { IsPlacedAbove (levels + 1) by.now }
    requires room { vec_len out.old.solids + node_size directory.now.objects node.now ≤ most_size }
    ensures { IfOk result (λ _. WritesNode directory.now.objects by.now out.old out.new node.now) }
{
    match node {
        CombNode::Leaf { name, placement } => {
            let by = placed_below(by, placement, levels);
            expand_name(directory, out, memo, name, &by, levels)
        }
        CombNode::U => out.push_node(MaskNode::U),
        CombNode::N => out.push_node(MaskNode::N),
        CombNode::Minus => out.push_node(MaskNode::Minus),
        CombNode::X => out.push_node(MaskNode::X),
    }
}

/// Writes the tree of these nodes of a combination that is placed. At most `levels` combinations lie one in the other
/// below each of its members.
#[cycle(expand)]
pub(crate) fn expand_nodes(
    directory: &Directory,
    out: &mut Expansion,
    memo: &mut Memo,
    nodes: &[CombNode],
    by: &Placement,
    levels: u32,
) -> Result<(), Memory>
    requires sound { IsSound directory.now.objects }
    requires within { All (StandsWithin directory.now.objects levels) nodes.now }
    requires by { IsPlacedAbove (levels + 1) by.now }
    requires room { vec_len out.old.solids + nodes_size directory.now.objects nodes.now ≤ most_size }
    ensures { IfOk result (λ _. (tree : Tree Member) → comb_nodes (Some tree) ≡ nodes.now → Writes out.old out.new (placed_tree by.now (expanded_tree (expanded directory.now.objects) tree))) }
{
    for node in nodes {
        expand_node(directory, out, memo, node, by, levels)?;
    }
    Ok(())
}
