ghost use Rattle.std.specs.Prelude.{◌≡◌, Some, IfOk, IsSome, [], reverse};
ghost use Rattle.std.proofs.Common.{inr};
ghost use Rattle.tree_forms.specs.Trees.{joined};
ghost use Rattle.tree_forms.specs.Stacks.{step, run};
ghost use Rattle.bool_weave.specs.Masks.{leaf_value, read, mask_holds};
ghost use Rattle.first_hit.specs.FirstSteps.{value_at};

use bool_weave::{MaskNode, MaskTree};
use memory_core::Memory;
use tree_forms::Op;

fn leaf_at(leaf: u32, values: &[bool]) -> bool
    ensures { result ≡ value_at values.now leaf }
{
    match values.get(leaf as usize) {
        Some(value) => *value,
        None => false,
    }
}

/// Joins the two values on top.
fn join_top(stack: &mut Vec<bool>, op: Op) -> Result<(), Memory>
    requires { IsSome (step (leaf_value (value_at [])) joined (inr op) (reverse stack.old.items)) }
    ensures { IfOk result (λ _. step (leaf_value (value_at [])) joined (inr op) (reverse stack.old.items) ≡ Some (reverse stack.new.items)) }
{
    let right = stack.pop().unwrap();
    let left = stack.pop().unwrap();
    stack.push(op.join(left, right))?;
    Ok(())
}

/// One node on the stack of values.
fn step_on(stack: &mut Vec<bool>, node: MaskNode, values: &[bool]) -> Result<(), Memory>
    requires { IsSome (step (leaf_value (value_at values.now)) joined (read node) (reverse stack.old.items)) }
    ensures { IfOk result (λ _. step (leaf_value (value_at values.now)) joined (read node) (reverse stack.old.items) ≡ Some (reverse stack.new.items)) }
{
    match node {
        MaskNode::Leaf(leaf) => {
            stack.push(leaf_at(leaf, values))?;
            Ok(())
        }
        MaskNode::Never => {
            stack.push(false)?;
            Ok(())
        }
        MaskNode::U => join_top(stack, Op::U),
        MaskNode::N => join_top(stack, Op::N),
        MaskNode::Minus => join_top(stack, Op::Minus),
        MaskNode::X => join_top(stack, Op::X),
    }
}

/// All nodes on an empty stack.
fn run_on(stack: &mut Vec<bool>, nodes: &[MaskNode], values: &[bool]) -> Result<(), Memory>
    requires { IsSome (run read (leaf_value (value_at values.now)) joined nodes.now []) }
    ensures { IfOk result (λ _. run read (leaf_value (value_at values.now)) joined nodes.now [] ≡ Some (reverse stack.new.items)) }
{
    stack.clear();
    for node in nodes {
        step_on(stack, *node, values)?;
    }
    Ok(())
}

/// Whether the tree holds for these values of its leaves.
pub(crate) fn holds(stack: &mut Vec<bool>, tree: &MaskTree, values: &[bool]) -> Result<bool, Memory>
    ensures { IfOk result (λ b. b ≡ mask_holds tree.now (value_at values.now)) }
{
    run_on(stack, tree.nodes(), values)?;
    Ok(stack.pop().unwrap())
}
