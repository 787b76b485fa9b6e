ghost use Rattle.std.specs.Prelude.{◌≡◌, IfOk, map, length, not, vec_len, ◌≤◌};
ghost use Rattle.std.specs.List.{filter};
ghost use Rattle.std.specs.HashSet.{contains};
ghost use Rattle.name_core.specs.Same.{same_name};
ghost use Rattle.comb_tree.specs.Changes.{renamed, placed, on_leaf, without};
ghost use Rattle.comb_tree.specs.Steps.{is_leaf, is_at, is_lost, rest_stays, head_from};

use crate::names::has;
use crate::node::{CombNode, ListEntry};
use lattice_core::Placement;
use memory_core::Memory;
use name_core::Name;
use std::alloc::Global;
use std::collections::HashSet;
use tree_forms::Op;

/// How many of the nodes are leaves.
pub(crate) fn count_leaves(nodes: &[CombNode]) -> usize
    ensures count { result ≡ length (filter is_leaf nodes.now) }
    ensures bound { result ≤ length nodes.now }
{
    nodes
        .iter()
        .filter(|node| matches!(node, CombNode::Leaf { .. }))
        .count()
}

fn rename_node(node: &mut CombNode, old: Name, new: Name)
    ensures { node.new ≡ on_leaf (renamed old new) node.old }
{
    if let CombNode::Leaf { name, .. } = node {
        if *name == old {
            *name = new;
        }
    }
}

/// Gives each leaf of the old name the new one.
pub(crate) fn rename_nodes(nodes: &mut Vec<CombNode>, old: Name, new: Name)
    ensures { nodes.new.items ≡ map (on_leaf (renamed old new)) nodes.old.items }
{
    for node in nodes.iter_mut() {
        rename_node(node, old, new);
    }
}

/// Whether an entry stays in the product that this list goes on with.
fn product_stays(gone: &HashSet<Name>, list: &[ListEntry]) -> bool
    ensures { result ≡ rest_stays (contains same_name gone.now) list.now }
{
    for entry in list {
        if entry.op == Op::U {
            return false;
        }
        if !has(gone, entry.name) {
            return true;
        }
    }
    false
}

/// Whether the entry heads a product, goes, and leaves one of its product behind.
fn loses_head(gone: &HashSet<Name>, entry: &ListEntry, rest: &[ListEntry]) -> bool
    ensures { result ≡ is_lost (contains same_name gone.now) entry.now rest.now }
{
    entry.op == Op::U && has(gone, entry.name) && product_stays(gone, rest)
}

/// The first entry that heads a product, goes, and leaves one of its product behind. Each product is gone through
/// at most once beside the list itself.
pub(crate) fn lost_head_in(gone: &HashSet<Name>, list: &[ListEntry]) -> Option<Name>
    ensures { result ≡ head_from (contains same_name gone.now) list.now }
{
    for (i, entry) in list.iter().enumerate() {
        if loses_head(gone, entry, &list[i + 1..]) {
            return Some(entry.name);
        }
    }
    None
}

/// The entries whose name is not gone.
pub(crate) fn left_of(
    alloc: Global,
    gone: &HashSet<Name>,
    list: &[ListEntry],
) -> Result<Vec<ListEntry>, Memory>
    ensures left { IfOk result (λ v. v.items ≡ without (contains same_name gone.now) list.now) }
    ensures short { IfOk result (λ v. vec_len v ≤ length list.now) }
{
    Ok(
        list.iter()
            .copied()
            .filter(|entry| !has(gone, entry.name))
            .collect(alloc)?,
    )
}

fn has_name(node: &CombNode, wanted: Name) -> bool
    ensures { result ≡ is_at wanted node.now }
{
    match node {
        CombNode::Leaf { name, .. } => *name == wanted,
        _ => false,
    }
}

/// How many leaves have the name.
pub(crate) fn count_named(nodes: &[CombNode], name: Name) -> usize
    ensures { result ≡ length (filter (is_at name) nodes.now) }
{
    nodes.iter().filter(|node| has_name(node, name)).count()
}

fn place_node(node: &mut CombNode, wanted: Name, by: Placement)
    ensures { node.new ≡ on_leaf (placed wanted by) node.old }
{
    if let CombNode::Leaf { name, placement } = node {
        if *name == wanted {
            *placement = by;
        }
    }
}

/// Sets the placement of each leaf of the name.
pub(crate) fn place_nodes(nodes: &mut Vec<CombNode>, name: Name, by: Placement)
    ensures { nodes.new.items ≡ map (on_leaf (placed name by)) nodes.old.items }
{
    for node in nodes.iter_mut() {
        place_node(node, name, by);
    }
}
