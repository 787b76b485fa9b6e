ghost use Rattle.std.specs.Prelude.{◌≡◌, ◌+◌, Some, [], false, IfOk, IsSome, reverse};
ghost use Rattle.std.proofs.Common.{inr};
ghost use Rattle.tree_forms.specs.Trees.{joined};
ghost use Rattle.tree_forms.specs.Stacks.{step, run};
ghost use Rattle.bool_weave.specs.Masks.{read, leaf_value};
ghost use Rattle.bool_weave.specs.Claims.{claims_interval};
ghost use Rattle.plain_shot.specs.Steps.{spans_from};

use crate::interval::{PlainInterval, spans};
use crate::segment::PlainSegment;
use bool_weave::{MaskNode, MaskTree};
use memory_core::Memory;
use std::alloc::Global;
use tree_forms::Op;

/// Joins the two values on top.
fn join_top(stack: &mut Vec<bool>, op: Op) -> Result<(), Memory>
    requires { IsSome (step (leaf_value (λ _. false)) joined (inr op) (reverse stack.old.items)) }
    ensures { IfOk result (λ _. step (leaf_value (λ _. false)) joined (inr op) (reverse stack.old.items) ≡ Some (reverse stack.new.items)) }
{
    let right = stack.pop().unwrap();
    let left = stack.pop().unwrap();
    stack.push(op.join(left, right))?;
    Ok(())
}

/// One node on the stack of values. Leaf `i` stands for whether instance `first + i` spans the interval.
fn step_on(
    stack: &mut Vec<bool>,
    node: MaskNode,
    segments: &[PlainSegment],
    interval: &PlainInterval,
    first: u32,
) -> Result<(), Memory>
    requires { IsSome (step (leaf_value (spans_from segments.now interval.now first)) joined (read node) (reverse stack.old.items)) }
    ensures { IfOk result (λ _. step (leaf_value (spans_from segments.now interval.now first)) joined (read node) (reverse stack.old.items) ≡ Some (reverse stack.new.items)) }
{
    match node {
        MaskNode::Leaf(leaf) => {
            stack.push(spans(segments, interval, first as u64 + leaf as u64))?;
            Ok(())
        }
        MaskNode::Never => {
            stack.push(false)?;
            Ok(())
        }
        MaskNode::U => join_top(stack, Op::U),
        MaskNode::N => join_top(stack, Op::N),
        MaskNode::Minus => join_top(stack, Op::Minus),
        MaskNode::X => join_top(stack, Op::X),
    }
}

/// All nodes on an empty stack.
fn run_on(
    alloc: Global,
    nodes: &[MaskNode],
    segments: &[PlainSegment],
    interval: &PlainInterval,
    first: u32,
) -> Result<Vec<bool>, Memory>
    requires { IsSome (run read (leaf_value (spans_from segments.now interval.now first)) joined nodes.now []) }
    ensures { IfOk result (λ stack. run read (leaf_value (spans_from segments.now interval.now first)) joined nodes.now [] ≡ Some (reverse stack.items)) }
{
    let mut stack = Vec::new(alloc);
    for node in nodes {
        step_on(&mut stack, *node, segments, interval, first)?;
    }
    Ok(stack)
}

/// Whether a region claims the interval, whose tree that is and whose first instance has that number.
pub(crate) fn claims_interval(
    alloc: Global,
    segments: &[PlainSegment],
    tree: &MaskTree,
    first: u32,
    interval: &PlainInterval,
) -> Result<bool, Memory>
    ensures { IfOk result (λ b. b ≡ claims_interval segments.now tree.now first interval.now) }
{
    let mut stack = run_on(alloc, tree.nodes(), segments, interval, first)?;
    Ok(stack.pop().unwrap())
}
