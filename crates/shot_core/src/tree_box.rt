ghost use Rattle.std.specs.Prelude.{◌≡◌, Some, [], IfOk, IsSome, reverse, map};
ghost use Rattle.std.proofs.Common.{inr};
ghost use Rattle.tree_forms.specs.Stacks.{step, run};
ghost use Rattle.bool_weave.specs.Masks.{read, mask_nodes, IsMask, mask_of};
ghost use Rattle.shot_core.specs.Prepared.{instance_of, boxes_of};
ghost use Rattle.shot_core.specs.TreeBoxes.{leaf_box, joined_box, tree_box};

use bool_weave::MaskNode;
use lattice_core::{Box3, hull, meet};
use memory_core::Memory;
use solid_set::Placed;
use std::alloc::Global;
use tree_forms::Op;

/// The box of a leaf, which is that of its solid.
fn leaf_box(solids: &[Placed], leaf: u32) -> Box3
    ensures { result ≡ leaf_box (boxes_of (map instance_of solids.now)) (Some leaf) }
{
    match solids.get(leaf as usize) {
        Some(solid) => solid.bounds(),
        None => Box3::Empty,
    }
}

/// The box of an operator's node, from those of its sides.
fn joined_box(op: Op, left: &Box3, right: &Box3) -> Box3
    ensures { result ≡ joined_box op left.now right.now }
{
    match op {
        Op::U => hull(left, right),
        Op::N => meet(left, right),
        Op::Minus => *left,
        Op::X => hull(left, right),
    }
}

/// Joins the two boxes on top.
fn join_top(stack: &mut Vec<Box3>, op: Op) -> Result<(), Memory>
    requires { IsSome (step (leaf_box []) joined_box (inr op) (reverse stack.old.items)) }
    ensures { IfOk result (λ _. step (leaf_box []) joined_box (inr op) (reverse stack.old.items) ≡ Some (reverse stack.new.items)) }
{
    let right = stack.pop().unwrap();
    let left = stack.pop().unwrap();
    stack.push(joined_box(op, &left, &right))?;
    Ok(())
}

/// One node on the stack of boxes.
fn step_on(stack: &mut Vec<Box3>, node: MaskNode, solids: &[Placed]) -> Result<(), Memory>
    requires { IsSome (step (leaf_box (boxes_of (map instance_of solids.now))) joined_box (read node) (reverse stack.old.items)) }
    ensures { IfOk result (λ _. step (leaf_box (boxes_of (map instance_of solids.now))) joined_box (read node) (reverse stack.old.items) ≡ Some (reverse stack.new.items)) }
{
    match node {
        MaskNode::Leaf(leaf) => {
            stack.push(leaf_box(solids, leaf))?;
            Ok(())
        }
        MaskNode::Never => {
            stack.push(Box3::Empty)?;
            Ok(())
        }
        MaskNode::U => join_top(stack, Op::U),
        MaskNode::N => join_top(stack, Op::N),
        MaskNode::Minus => join_top(stack, Op::Minus),
        MaskNode::X => join_top(stack, Op::X),
    }
}

/// All nodes on an empty stack.
fn run_on(alloc: Global, nodes: &[MaskNode], solids: &[Placed]) -> Result<Vec<Box3>, Memory>
    requires { IsSome (run read (leaf_box (boxes_of (map instance_of solids.now))) joined_box nodes.now []) }
    ensures { IfOk result (λ stack. run read (leaf_box (boxes_of (map instance_of solids.now))) joined_box nodes.now [] ≡ Some (reverse stack.items)) }
{
    let mut stack = Vec::new(alloc);
    for node in nodes {
        step_on(&mut stack, *node, solids)?;
    }
    Ok(stack)
}

/// The box of the tree of these nodes.
pub(crate) fn tree_box(alloc: Global, nodes: &[MaskNode], solids: &[Placed]) -> Result<Box3, Memory>
    requires { IsMask nodes.now }
    ensures { IfOk result (λ b. b ≡ tree_box (boxes_of (map instance_of solids.now)) (mask_of nodes.now)) }
{
    let mut stack = run_on(alloc, nodes, solids)?;
    Ok(stack.pop().unwrap())
}
