use crate::span::Span;
use memory_core::Memory;
use std::marker::Model;
use tree_forms::Op;

/// A node of a boolean tree over numbered leaves, in postfix order.
#[derive(Clone, Copy, Debug, PartialEq, Eq)]
pub enum MaskNode {
    /// The leaf of that number.
    Leaf(u32),
    /// A leaf that is always false.
    Never,
    /// The union of the two sides before it.
    U,
    /// Their intersection.
    N,
    /// The left side without the right one.
    Minus,
    /// What exactly one of the two sides has.
    X,
}

/// A boolean tree over leaves that are numbers or always false. Contracts see it as that tree; it is kept as its nodes in
/// postfix order.
#[derive(Debug, Drop)]
pub struct MaskTree {
    nodes: Vec<MaskNode>,
    leaf_end: u64,
}

impl Model for MaskTree {
    ghost use Rattle.std.specs.Prelude.{◌≡◌, ◌≤◌, ◌^◌};
    ghost use Rattle.bool_weave.specs.Masks.{Mask, mask_code, mask_of, mask_nodes};
    ghost use Rattle.bool_weave.specs.Tables.{AreLeavesBelow};

    ghost Value = { Mask };

    ghost coded = { mask_code };

    ghost view = { λ s. mask_of s.nodes.items };

    ghost invariant = { λ s. (mask_nodes (mask_of s.nodes.items) ≡ s.nodes.items) × AreLeavesBelow s.leaf_end s.nodes.items × (s.leaf_end ≤ 2 ^ 32) };
}

ghost use Rattle.std.specs.Prelude.{◌≡◌, ◌+◌, ◌≤◌, ◌^◌, ℕ, Some, [], IfOk, IsSome, reverse};
ghost use Rattle.std.proofs.Common.{inr};
ghost use Rattle.tree_forms.specs.Trees.{joined};
ghost use Rattle.tree_forms.specs.Stacks.{step, run};
ghost use Rattle.bool_weave.specs.Masks.{Mask, leaf_value, read, mask_nodes, mask_holds, IsMask};
ghost use Rattle.bool_weave.specs.Tables.{at_leaf, leaf_end, AreLeavesBelow};

/// The number after the leaf's.
fn leaf_end(node: MaskNode) -> u64
    ensures value { result ≡ leaf_end node }
    ensures bound { result ≤ 2 ^ 32 }
{
    match node {
        MaskNode::Leaf(leaf) => leaf as u64 + 1,
        MaskNode::Never | MaskNode::U | MaskNode::N | MaskNode::Minus | MaskNode::X => 0,
    }
}

/// The number after the greatest leaf's.
fn last_leaf_end(nodes: &[MaskNode]) -> u64
    ensures all { AreLeavesBelow result nodes.now }
    ensures bound { result ≤ 2 ^ 32 }
{
    let mut end = 0;
    for node in nodes {
        end = leaf_end(*node).max(end);
    }
    end
}

fn leaf_at(leaf: u32, table: &[Span], interval: usize) -> bool
    ensures { result ≡ at_leaf table.now interval leaf }
{
    match table.get(leaf as usize) {
        Some(span) => span.reaches(interval),
        None => false,
    }
}

/// Joins the two values on top.
fn join_top(stack: &mut Vec<bool>, op: Op) -> Result<(), Memory>
    requires { IsSome (step (leaf_value (at_leaf [] 0)) joined (inr op) (reverse stack.old.items)) }
    ensures { IfOk result (λ _. step (leaf_value (at_leaf [] 0)) joined (inr op) (reverse stack.old.items) ≡ Some (reverse stack.new.items)) }
{
    let right = stack.pop().unwrap();
    let left = stack.pop().unwrap();
    stack.push(op.join(left, right))?;
    Ok(())
}

/// One node on the stack of values.
fn step_on(
    stack: &mut Vec<bool>,
    node: MaskNode,
    table: &[Span],
    interval: usize,
) -> Result<(), Memory>
    requires { IsSome (step (leaf_value (at_leaf table.now interval)) joined (read node) (reverse stack.old.items)) }
    ensures { IfOk result (λ _. step (leaf_value (at_leaf table.now interval)) joined (read node) (reverse stack.old.items) ≡ Some (reverse stack.new.items)) }
{
    match node {
        MaskNode::Leaf(leaf) => {
            stack.push(leaf_at(leaf, table, interval))?;
            Ok(())
        }
        MaskNode::Never => {
            stack.push(false)?;
            Ok(())
        }
        MaskNode::U => join_top(stack, Op::U),
        MaskNode::N => join_top(stack, Op::N),
        MaskNode::Minus => join_top(stack, Op::Minus),
        MaskNode::X => join_top(stack, Op::X),
    }
}

/// All nodes on an empty stack.
fn run_on(
    stack: &mut Vec<bool>,
    nodes: &[MaskNode],
    table: &[Span],
    interval: usize,
) -> Result<(), Memory>
    requires { IsSome (run read (leaf_value (at_leaf table.now interval)) joined nodes.now []) }
    ensures { IfOk result (λ _. run read (leaf_value (at_leaf table.now interval)) joined nodes.now [] ≡ Some (reverse stack.new.items)) }
{
    stack.clear();
    for node in nodes {
        step_on(stack, *node, table, interval)?;
    }
    Ok(())
}

impl MaskTree {
    /// The tree of these nodes, which are a well-formed postfix list.
    pub fn of_nodes(nodes: Vec<MaskNode>) -> MaskTree
        requires { IsMask nodes.items }
        ensures { mask_nodes result ≡ nodes.items }
    {
        let leaf_end = last_leaf_end(&nodes);
        MaskTree { nodes, leaf_end }
    }

    /// Lends the nodes in postfix order.
    pub fn nodes(&self) -> &[MaskNode]
        ensures { result.now ≡ mask_nodes self.now }
    {
        &self.nodes
    }

    /// A number that is over those of all leaves.
    pub(crate) fn leaf_end(&self) -> u64
        ensures all { AreLeavesBelow result (mask_nodes self.now) }
        ensures bound { result ≤ 2 ^ 32 }
    {
        self.leaf_end
    }

    /// Whether the tree holds at an interval, from the spans of its leaves.
    pub(crate) fn holds(
        &self,
        stack: &mut Vec<bool>,
        table: &[Span],
        interval: usize,
    ) -> Result<bool, Memory>
        ensures { IfOk result (λ b. b ≡ mask_holds self.now (at_leaf table.now interval)) }
    {
        run_on(stack, &self.nodes, table, interval)?;
        Ok(stack.pop().unwrap())
    }
}
