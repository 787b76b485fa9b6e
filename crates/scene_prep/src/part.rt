ghost use Rattle.std.specs.Prelude.{◌≡◌, ◌≤◌, ◌<◌, ◌^◌, length, map, reverse, Some, IfOk, IsTrue, ◌↔◌};
ghost use Rattle.std.specs.List.{filter};
ghost use Rattle.tree_forms.specs.Trees.{Tree};
ghost use Rattle.comb_tree.specs.declared.node.CombNode.TheVariants as variant;
ghost use Rattle.comb_tree.specs.Nodes.{Member, comb_nodes};
ghost use Rattle.scene_prep.specs.Regions.{united_parts};
ghost use Rattle.scene_prep.specs.Parts.{nodes_behind, tree_nodes, shown, parts_from, numbered_part, is_join, EndsWithTree, IsBefore};

use comb_tree::CombNode;
use memory_core::Memory;
use std::alloc::Global;

/// One of the trees that a tree unites: a member's leaf, or a node that is no union, by its nodes in postfix order.
#[derive(Clone, Copy, Debug)]
pub(crate) struct Part<'a> {
    pub nodes: &'a [CombNode],
    /// Its number among those that are no leaves, counted from 1 at the left, or 0 for a leaf.
    pub number: u32,
}

fn is_union(node: &CombNode) -> bool
    ensures { IsTrue result ↔ (node.now ≡ variant.U) }
{
    matches!(node, CombNode::U)
}

/// How many of the nodes stand before the tree that ends with the last of them.
fn tree_start(nodes: &[CombNode]) -> usize
    requires { EndsWithTree nodes.now }
    ensures before { IsBefore nodes.now result }
    ensures below { result < length nodes.now }
{
    let mut start = nodes.len();
    let mut wanted: usize = 1;
    while wanted > 0 {
        start -= 1;
        match nodes[start] {
            CombNode::Leaf { .. } => wanted -= 1,
            _ => wanted += 1,
        }
    }
    start
}

/// The nodes of each tree that the unions at the root unite, from the right.
fn united_trees<'a>(alloc: Global, nodes: &'a [CombNode]) -> Result<Vec<&'a [CombNode]>, Memory>
    requires { (t : Tree Member) × (comb_nodes (Some t) ≡ nodes.now) }
    ensures trees { IfOk result (λ trees. (t : Tree Member) → comb_nodes (Some t) ≡ nodes.now → map nodes_behind (reverse trees.items) ≡ map tree_nodes (united_parts t)) }
    ensures few { IfOk result (λ trees. length trees.items ≤ length nodes.now) }
{
    let mut trees = Vec::new(alloc);
    let mut rest = nodes;
    while let Some((last, before)) = rest.split_last() {
        if is_union(last) {
            rest = before;
        } else {
            let (before, tree) = rest.split_at(tree_start(rest));
            trees.push(tree)?;
            rest = before;
        }
    }
    Ok(trees)
}

/// How many of the trees are no leaves.
fn count_joins(trees: &[&[CombNode]]) -> u32
    requires few { length trees.now < 2 ^ 32 }
    ensures { result ≡ length (filter is_join trees.now) }
{
    trees.iter().filter(|tree| tree.len() > 1).count() as u32
}

/// The part of these nodes, which has that number where it is no leaf.
fn part_of<'a>(nodes: &'a [CombNode], number: u32) -> Part<'a>
    ensures { shown result ≡ numbered_part nodes.now number }
{
    let number = if nodes.len() > 1 { number } else { 0 };
    Part { nodes, number }
}

/// What the unions at the root of a tree unite, from the right.
pub(crate) fn parts_of<'a>(alloc: Global, nodes: &'a [CombNode]) -> Result<Vec<Part<'a>>, Memory>
    requires tree { (t : Tree Member) × (comb_nodes (Some t) ≡ nodes.now) }
    requires few { length nodes.now < 2 ^ 32 }
    ensures { IfOk result (λ parts. (t : Tree Member) → comb_nodes (Some t) ≡ nodes.now → map shown (reverse parts.items) ≡ parts_from 1 (united_parts t)) }
{
    let trees = united_trees(alloc, nodes)?;
    let mut left = count_joins(&trees);
    let mut parts = Vec::new(alloc);
    for tree in &trees {
        let nodes = *tree;
        parts.push(part_of(nodes, left))?;
        left -= u32::from(nodes.len() > 1);
    }
    Ok(parts)
}
