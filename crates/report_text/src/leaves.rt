//! The leaves of a combination, each with the operator that its line has. The nodes of a tree are kept in postfix order, so
//! they are gone through from the last to the first: the right side of a node comes before its left one. This is linear, and
//! no tree is too deep for it.
ghost use Rattle.std.specs.Prelude.{◌≡◌, ◌++◌, ◌∷◌, [], IfOk, OnOk, reverse};
ghost use Rattle.tree_forms.specs.declared.Op.TheVariants.{U};
ghost use Rattle.object_set.specs.declared.object.Body as bodies;
ghost use Rattle.directory.specs.Walks.{object_of};
ghost use Rattle.report_text.specs.Listings.{listed_in, body_leaves, leaves_of};
ghost use Rattle.report_text.specs.Steps.{first_operator, other_operators, found_at, operators_after, found_in};

use comb_tree::{CombNode, CombTree, Op};
use directory::Directory;
use memory_core::Memory;
use name_core::Name;
use object_set::Body;
use std::alloc::Global;
use std::marker::Model;

/// A leaf: the operator of the nearest node above it on whose right side it stands, and its name.
#[derive(Drop)]
pub(crate) struct Leaf {
    op: Op,
    name: Name,
}

impl Model for Leaf {
    ghost use Rattle.report_text.specs.Listings.{Listed};

    ghost Value = { Listed };

    ghost view = { λ s. record { op = s.op; name = s.name } };
}

impl Leaf {
    ghost use Rattle.std.specs.Prelude.{◌≡◌};

    pub(crate) fn op(&self) -> Op
        ensures { result ≡ self.now.op }
    {
        self.op
    }

    pub(crate) fn name(&self) -> &Name
        ensures { result.now ≡ self.now.name }
    {
        &self.name
    }
}

/// Finds a leaf. Its operator is the last one that is owed.
fn find_leaf(found: &mut Vec<Leaf>, operators: &mut Vec<Op>, name: &Name) -> Result<(), Memory>
    ensures found { OnOk result (found.new.items ≡ found.old.items ++ record { op = first_operator (reverse operators.old.items); name = name.now } ∷ []) }
    ensures operators { OnOk result (reverse operators.new.items ≡ other_operators (reverse operators.old.items)) }
{
    let op = operators.pop().unwrap_or(Op::U);
    found.push(Leaf { op, name: *name })?;
    Ok(())
}

/// Owes the operator to the right side of its node, which comes next. What was owed stays for the left side.
fn owe(operators: &mut Vec<Op>, op: Op) -> Result<(), Memory>
    ensures { OnOk result (reverse operators.new.items ≡ op ∷ reverse operators.old.items) }
{
    operators.push(op)?;
    Ok(())
}

fn pass_node(found: &mut Vec<Leaf>, operators: &mut Vec<Op>, node: &CombNode) -> Result<(), Memory>
    ensures found { OnOk result (found.new.items ≡ found.old.items ++ found_at node.now (reverse operators.old.items)) }
    ensures operators { OnOk result (reverse operators.new.items ≡ operators_after node.now (reverse operators.old.items)) }
{
    match node {
        CombNode::Leaf { name, .. } => find_leaf(found, operators, name),
        CombNode::U => owe(operators, Op::U),
        CombNode::N => owe(operators, Op::N),
        CombNode::Minus => owe(operators, Op::Minus),
        CombNode::X => owe(operators, Op::X),
    }
}

/// The leaves from right to left.
fn leaves_backwards(alloc: Global, nodes: &[CombNode]) -> Result<Vec<Leaf>, Memory>
    ensures { IfOk result (λ found. found.items ≡ found_in (reverse nodes.now) (U ∷ [])) }
{
    let mut found = Vec::new(alloc);
    let mut operators = Vec::new(alloc);
    owe(&mut operators, Op::U)?;
    for node in nodes.iter().rev() {
        pass_node(&mut found, &mut operators, node)?;
    }
    Ok(found)
}

fn leaves_of_tree(alloc: Global, tree: &CombTree) -> Result<Vec<Leaf>, Memory>
    ensures { IfOk result (λ found. found.items ≡ listed_in tree.now) }
{
    let mut found = leaves_backwards(alloc, tree.nodes())?;
    found.reverse();
    Ok(found)
}

fn leaves_of_body(alloc: Global, body: &Body) -> Result<Vec<Leaf>, Memory>
    ensures { IfOk result (λ found. found.items ≡ body_leaves body.now) }
{
    match body {
        Body::Solid(_) => Ok(Vec::new(alloc)),
        Body::Comb { tree, .. } => leaves_of_tree(alloc, tree),
    }
}

/// The leaves of what a name stands for, from left to right.
pub(crate) fn leaves_of_name(
    alloc: Global,
    directory: &Directory,
    name: &Name,
) -> Result<Vec<Leaf>, Memory>
    ensures { IfOk result (λ found. found.items ≡ leaves_of (object_of directory.now.objects name.now)) }
{
    match directory.get(name) {
        Some(object) => leaves_of_body(alloc, object.body()),
        None => Ok(Vec::new(alloc)),
    }
}
