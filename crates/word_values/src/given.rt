//! The nodes of a tree as they are given: what stands for a name may be none, and a matrix no placement.
ghost use Rattle.std.specs.Prelude.{◌≡◌, ◌≤◌, map, length, Ok, Option, IfOk};
ghost use Rattle.std.specs.List.{filter, list_all};
ghost use Rattle.std.specs.Option.{option_map};
ghost use Rattle.tree_forms.specs.Trees.{Tree};
ghost use Rattle.comb_tree.specs.Nodes.{Comb, comb_nodes, members};
ghost use Rattle.word_values.specs.Trees.{Given};
ghost use Rattle.word_values.specs.Reading as reading;

use crate::tree::TreeFault;
use comb_tree::{CombNode, CombTree, LEAVES, Op};
use lattice_core::Placement;
use memory_core::Memory;
use name_core::Name;
use std::alloc::Global;

/// A node in postfix order.
#[derive(Clone, Copy)]
pub(crate) enum GivenNode {
    /// A leaf: its name, where it has one, and its placement, where its matrix is that of one.
    Leaf {
        name: Option<Name>,
        placement: Option<Placement>,
    },
    /// An operator over the two trees before it.
    Join(Op),
}

fn is_leaf(node: &GivenNode) -> bool
    ensures { result ≡ reading.is_leaf node.now }
{
    match node {
        GivenNode::Leaf { .. } => true,
        GivenNode::Join(_) => false,
    }
}

fn is_named(node: &GivenNode) -> bool
    ensures { result ≡ reading.is_named node.now }
{
    match node {
        GivenNode::Leaf { name, .. } => name.is_some(),
        GivenNode::Join(_) => true,
    }
}

fn count_leaves(nodes: &[GivenNode]) -> usize
    ensures { result ≡ length (filter reading.is_leaf nodes.now) }
{
    nodes.iter().filter(|node| is_leaf(node)).count()
}

fn all_named(nodes: &[GivenNode]) -> bool
    ensures { result ≡ list_all reading.is_named nodes.now }
{
    nodes.iter().all(|node| is_named(node))
}

fn leaf_with(name: Option<Name>, placement: Option<Placement>) -> Option<CombNode>
    ensures { result ≡ reading.leaf_with name placement }
{
    match (name, placement) {
        (Some(name), Some(placement)) => Some(CombNode::Leaf { name, placement }),
        _ => None,
    }
}

/// The node of a tree, where a leaf has a name and a placement.
fn comb_node(node: &GivenNode) -> Option<CombNode>
    ensures { result ≡ reading.comb_node node.now }
{
    match *node {
        GivenNode::Leaf { name, placement } => leaf_with(name, placement),
        GivenNode::Join(op) => Some(CombNode::from(op)),
    }
}

/// The nodes of a tree, where all leaves have names and placements.
fn whole_nodes(alloc: Global, nodes: &[GivenNode]) -> Result<Option<Vec<CombNode>>, Memory>
    ensures { IfOk result (λ found. option_map (λ v. v.items) found ≡ reading.all_there (map reading.comb_node nodes.now)) }
{
    let mut found = Vec::with_capacity(alloc, nodes.len())?;
    for node in nodes {
        let Some(node) = comb_node(node) else {
            return Ok(None);
        };
        found.push(node)?;
    }
    Ok(Some(found))
}

/// The tree of these nodes, which has few enough leaves.
fn small_tree(nodes: Vec<CombNode>) -> Result<CombTree, TreeFault>
    requires { (t : Comb) × (comb_nodes t ≡ nodes.items) × (length (members t) ≤ 4096) }
    ensures { (t : Comb) → comb_nodes t ≡ nodes.items → result ≡ Ok t }
{
    match CombTree::of_nodes(nodes) {
        Ok(tree) => Ok(tree),
        Err(_) => Err(TreeFault::Form),
    }
}

/// The tree of these nodes, or its first fault.
pub(crate) fn tree_of(alloc: Global, nodes: &[GivenNode]) -> Result<CombTree, TreeFault>
    requires { (t : Option (Tree Given)) × (reading.given_nodes t ≡ nodes.now) }
    ensures { (t : Option (Tree Given)) → reading.given_nodes t ≡ nodes.now → reading.IsTreeWith result t }
{
    if count_leaves(nodes) > LEAVES {
        return Err(TreeFault::Form);
    }
    if !all_named(nodes) {
        return Err(TreeFault::Name);
    }
    let Some(whole) = whole_nodes(alloc, nodes)? else {
        return Err(TreeFault::Number);
    };
    small_tree(whole)
}
