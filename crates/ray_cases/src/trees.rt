//! Trees over numbered leaves, as their nodes in postfix order: a leaf is its number, or `?` where it is always false, and
//! an operator is `u`, `+`, `-` or `^`.

ghost use Rattle.std.specs.Prelude.{◌≡◌};
ghost use Rattle.bool_weave.specs.Masks.{leaf, apply};

use crate::texts::{number_in, put_number};
use bool_weave::{MaskNode, MaskTree};
use case_text::{CaseFault, Shown, words_of};
use std::alloc::Global;
use tree_forms::Op;

fn leaf_node(number: Option<u32>) -> MaskNode
    ensures { result ≡ leaf number }
{
    match number {
        Some(number) => MaskNode::Leaf(number),
        None => MaskNode::Never,
    }
}

fn op_node(op: Op) -> MaskNode
    ensures { result ≡ apply op }
{
    match op {
        Op::U => MaskNode::U,
        Op::N => MaskNode::N,
        Op::Minus => MaskNode::Minus,
        Op::X => MaskNode::X,
    }
}

/// The tree of one leaf.
pub fn one_leaf(alloc: Global, number: Option<u32>) -> Result<MaskTree, CaseFault> {
    let mut nodes = Vec::new(alloc);
    nodes.push(leaf_node(number))?;
    Ok(MaskTree::of_nodes(nodes))
}

/// The tree of an operator over two trees.
fn joined(alloc: Global, op: Op, left: &MaskTree, right: &MaskTree) -> Result<MaskTree, CaseFault> {
    let mut nodes = Vec::new(alloc);
    nodes.extend_from_slice(left.nodes())?;
    nodes.extend_from_slice(right.nodes())?;
    nodes.push(op_node(op))?;
    Ok(MaskTree::of_nodes(nodes))
}

/// Joins the two trees on top.
fn join_top(alloc: Global, stack: &mut Vec<MaskTree>, op: Op) -> Result<(), CaseFault> {
    let right = stack.pop().ok_or(CaseFault::Line)?;
    let left = stack.pop().ok_or(CaseFault::Line)?;
    stack.push(joined(alloc, op, &left, &right)?)?;
    Ok(())
}

/// One word on the stack of trees.
fn step_on(alloc: Global, stack: &mut Vec<MaskTree>, word: &[u8]) -> Result<(), CaseFault> {
    match word {
        b"u" => join_top(alloc, stack, Op::U),
        b"+" => join_top(alloc, stack, Op::N),
        b"-" => join_top(alloc, stack, Op::Minus),
        b"^" => join_top(alloc, stack, Op::X),
        b"?" => {
            stack.push(one_leaf(alloc, None)?)?;
            Ok(())
        }
        _ => {
            stack.push(one_leaf(alloc, Some(number_in(word)?))?)?;
            Ok(())
        }
    }
}

/// The tree of words.
pub fn tree_of(alloc: Global, words: &[&[u8]]) -> Result<MaskTree, CaseFault> {
    let mut stack = Vec::new(alloc);
    for word in words {
        step_on(alloc, &mut stack, *word)?;
    }
    let tree = stack.pop().ok_or(CaseFault::Line)?;
    if !stack.is_empty() {
        return Err(CaseFault::Line);
    }
    Ok(tree)
}

/// The tree of a text.
pub fn tree_in(alloc: Global, text: &[u8]) -> Result<MaskTree, CaseFault> {
    tree_of(alloc, &words_of(alloc, text)?)
}

fn put_node(node: &MaskNode, out: &mut Shown) {
    match node {
        MaskNode::Leaf(leaf) => put_number(out, b" ", u64::from(*leaf)),
        MaskNode::Never => out.put(b" ?"),
        MaskNode::U => out.put(b" u"),
        MaskNode::N => out.put(b" +"),
        MaskNode::Minus => out.put(b" -"),
        MaskNode::X => out.put(b" ^"),
    }
}

/// Puts in the word `tree` and the nodes.
pub fn push_tree(_alloc: Global, tree: &MaskTree, out: &mut Shown) -> Result<(), CaseFault> {
    out.put(b"tree");
    for node in tree.nodes() {
        put_node(node, out);
    }
    Ok(())
}
