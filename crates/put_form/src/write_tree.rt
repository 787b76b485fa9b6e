//! Trees, put at the end of a line. The nodes of a tree are kept in postfix order and written in prefix order, so they are
//! gone through from the last to the first, and the text is written backwards and turned round at the end. This is linear,
//! and no tree is too deep for it.
ghost use Rattle.std.specs.Prelude.{◌≡◌, ◌≤◌, ◌++◌, ◌∷◌, [], OnOk, codes, take, drop, reverse, vec_len};
ghost use Rattle.put_form.specs.Written as written;
ghost use Rattle.put_form.specs.WritingSteps.{group_text, leaf_text, before_text, owed, after, step_text, step_stack, walked};

use crate::write_number::push_numbers;
use comb_tree::{CombNode, CombTree, Op};
use lattice_core::Placement;
use memory_core::Memory;
use name_core::Name;
use std::alloc::Global;
use word_values::NumberList;

/// What stands before a part of a tree.
#[derive(Clone, Copy)]
enum Before {
    /// The part is a left side: before it stands the operator.
    Operator(Op),
    /// The part is a right side: before it stands the left one.
    LeftSide,
}

/// Puts a group of numbers, after a blank, at the end of the line.
fn push_group(line: &mut Vec<u8>, list: NumberList, numbers: &[i64]) -> Result<(), Memory>
    ensures { OnOk result (line.new.items ≡ line.old.items ++ group_text list numbers.now) }
{
    line.extend_from_slice(b" {")?;
    push_numbers(line, list, numbers)?;
    line.push(b'}')?;
    Ok(())
}

/// Puts the matrix of a placement at the end of the line, and nothing where it moves nothing.
fn push_matrix(line: &mut Vec<u8>, placement: &Placement) -> Result<(), Memory>
    ensures { OnOk result (line.new.items ≡ line.old.items ++ written.matrix_text placement.now) }
{
    if *placement == Placement::identity() {
        return Ok(());
    }
    push_group(line, NumberList::Matrix, &placement.matrix())
}

fn push_leaf(line: &mut Vec<u8>, name: &Name, placement: &Placement) -> Result<(), Memory>
    ensures { OnOk result (line.new.items ≡ line.old.items ++ leaf_text name.now placement.now) }
{
    line.extend_from_slice(b"l ")?;
    line.extend_from_slice(name.bytes())?;
    push_matrix(line, placement)
}

/// Turns round what stands in the line from a place on.
fn reverse_from(line: &mut Vec<u8>, start: usize)
    requires { start ≤ vec_len line.old }
    ensures { line.new.items ≡ take start line.old.items ++ reverse (drop start line.old.items) }
{
    line[start..].reverse();
}

fn push_leaf_backwards(line: &mut Vec<u8>, name: &Name, placement: &Placement) -> Result<(), Memory>
    ensures { OnOk result (line.new.items ≡ line.old.items ++ reverse (leaf_text name.now placement.now)) }
{
    let start = line.len();
    push_leaf(line, name, placement)?;
    reverse_from(line, start);
    Ok(())
}

fn operator_backwards(op: Op) -> &'static [u8]
    ensures { result.now ≡ reverse (before_text (Before.Operator op)) }
{
    match op {
        Op::U => b"{ u",
        Op::N => b"{ n",
        Op::Minus => b"{ -",
        Op::X => b"{ ^",
    }
}

/// Puts what stands before a leaf, backwards, at the end of the line: the operators of all parts that begin with the leaf,
/// and `} {` where these are a right side.
fn push_before(line: &mut Vec<u8>, stack: &mut Vec<Before>) -> Result<(), Memory>
    ensures line { OnOk result (line.new.items ≡ line.old.items ++ owed (reverse stack.old.items)) }
    ensures stack { OnOk result (reverse stack.new.items ≡ after (reverse stack.old.items)) }
{
    while let Some(before) = stack.pop() {
        match before {
            Before::Operator(op) => line.extend_from_slice(operator_backwards(op))?,
            Before::LeftSide => {
                line.extend_from_slice(b"{ }")?;
                return Ok(());
            }
        }
    }
    Ok(())
}

/// Begins an operator's node from its end. The right side comes next, and then the left one.
fn push_end(line: &mut Vec<u8>, stack: &mut Vec<Before>, op: Op) -> Result<(), Memory>
    ensures line { OnOk result (line.new.items ≡ line.old.items ++ codes "}") }
    ensures stack { OnOk result (reverse stack.new.items ≡ Before.LeftSide ∷ Before.Operator op ∷ reverse stack.old.items) }
{
    line.push(b'}')?;
    stack.push(Before::Operator(op))?;
    stack.push(Before::LeftSide)?;
    Ok(())
}

/// Puts a node, backwards, at the end of the line, with what stands before it where it is a leaf.
fn push_node(line: &mut Vec<u8>, stack: &mut Vec<Before>, node: &CombNode) -> Result<(), Memory>
    ensures line { OnOk result (line.new.items ≡ line.old.items ++ step_text node.now (reverse stack.old.items)) }
    ensures stack { OnOk result (reverse stack.new.items ≡ step_stack node.now (reverse stack.old.items)) }
{
    match node {
        CombNode::Leaf { name, placement } => {
            push_leaf_backwards(line, name, placement)?;
            push_before(line, stack)
        }
        CombNode::U => push_end(line, stack, Op::U),
        CombNode::N => push_end(line, stack, Op::N),
        CombNode::Minus => push_end(line, stack, Op::Minus),
        CombNode::X => push_end(line, stack, Op::X),
    }
}

fn push_nodes_backwards(alloc: Global, line: &mut Vec<u8>, nodes: &[CombNode]) -> Result<(), Memory>
    ensures { OnOk result (line.new.items ≡ line.old.items ++ walked (reverse nodes.now) []) }
{
    let mut stack = Vec::new(alloc);
    for node in nodes.iter().rev() {
        push_node(line, &mut stack, node)?;
    }
    Ok(())
}

fn push_nodes(alloc: Global, line: &mut Vec<u8>, nodes: &[CombNode]) -> Result<(), Memory>
    ensures { OnOk result (line.new.items ≡ line.old.items ++ reverse (walked (reverse nodes.now) [])) }
{
    let start = line.len();
    push_nodes_backwards(alloc, line, nodes)?;
    reverse_from(line, start);
    Ok(())
}

/// Puts the tree with its key at the end of the line, and nothing where it is empty.
pub(crate) fn push_tree(alloc: Global, line: &mut Vec<u8>, tree: &CombTree) -> Result<(), Memory>
    ensures { OnOk result (line.new.items ≡ line.old.items ++ written.tree_text tree.now) }
{
    let nodes = tree.nodes();
    if nodes.is_empty() {
        return Ok(());
    }
    line.extend_from_slice(b" tree {")?;
    push_nodes(alloc, line, nodes)?;
    line.push(b'}')?;
    Ok(())
}
