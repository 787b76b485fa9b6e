ghost use Rattle.std.specs.Prelude.{◌≡◌, IfOk, IsTrue, ◌↔◌};
ghost use Rattle.comb_tree.specs.Nodes.{comb_nodes};
ghost use Rattle.comb_tree.specs.Lists.{tree_of_list};
ghost use Rattle.comb_tree.specs.Steps.{later_after, nodes_after, op_before, entries};

use crate::node::{CombNode, ListEntry};
use memory_core::Memory;
use std::alloc::Global;
use tree_forms::Op;

/// Writes one more entry. `later` says whether a product stands before the open one.
fn add_entry(nodes: &mut Vec<CombNode>, later: bool, entry: &ListEntry) -> Result<bool, Memory>
    ensures later { IfOk result (λ b. b ≡ later_after later entry.now) }
    ensures nodes { IfOk result (λ _. nodes.new.items ≡ nodes_after later nodes.old.items entry.now) }
{
    match entry.op {
        Op::U => {
            if later {
                nodes.push(CombNode::U)?;
            }
            nodes.push(entry.leaf())?;
            Ok(true)
        }
        op => {
            nodes.push(entry.leaf())?;
            nodes.push(CombNode::from(op))?;
            Ok(later)
        }
    }
}

/// The nodes of a list's tree.
pub(crate) fn nodes_of_list(alloc: Global, list: &[ListEntry]) -> Result<Vec<CombNode>, Memory>
    ensures { IfOk result (λ v. v.items ≡ comb_nodes (tree_of_list list.now)) }
{
    let mut nodes = Vec::new(alloc);
    let Some((first, rest)) = list.split_first() else {
        return Ok(nodes);
    };
    nodes.push(first.leaf())?;
    let mut later = false;
    for entry in rest {
        later = add_entry(&mut nodes, later, entry)?;
    }
    if later {
        nodes.push(CombNode::U)?;
    }
    Ok(nodes)
}

/// The operator of the leaf before these nodes.
fn operator_before(nodes: &[CombNode]) -> Op
    ensures { result ≡ op_before nodes.now }
{
    match nodes.first() {
        Some(CombNode::N) => Op::N,
        Some(CombNode::Minus) => Op::Minus,
        Some(CombNode::X) => Op::X,
        _ => Op::U,
    }
}

/// The entries of nodes, each leaf with the operator that follows it.
pub(crate) fn entries_of(alloc: Global, nodes: &[CombNode]) -> Result<Vec<ListEntry>, Memory>
    ensures { IfOk result (λ v. v.items ≡ entries nodes.now) }
{
    let mut list = Vec::new(alloc);
    for (i, node) in nodes.iter().enumerate() {
        if let CombNode::Leaf { name, placement } = *node {
            let op = operator_before(&nodes[i + 1..]);
            list.push(ListEntry {
                op,
                name,
                placement,
            })?;
        }
    }
    Ok(list)
}

/// Whether two lists of nodes are one.
pub(crate) fn same_nodes(left: &[CombNode], right: &[CombNode]) -> bool
    ensures { IsTrue result ↔ (left.now ≡ right.now) }
{
    left == right
}
