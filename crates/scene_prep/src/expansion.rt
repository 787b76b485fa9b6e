use crate::memo::Memo;
use bool_weave::{MaskNode, MaskTree};
use lattice_core::Placement;
use memory_core::Memory;
use solid_set::{Placed, Solid};
use std::alloc::Global;

/// An expanded tree as it is written: its nodes in postfix order, and its solids from the left.
#[derive(Drop)]
pub(crate) struct Expansion {
    nodes: Vec<MaskNode>,
    solids: Vec<Placed>,
}

impl Expansion {
    ghost use Rattle.std.specs.Prelude.{◌≡◌, ◌<◌, vec_len, IfOk, [], ◌∷◌, Some};
    ghost use Rattle.lattice_core.specs.declared.limit.TheConstants.{SHIFT};
    ghost use Rattle.lattice_core.specs.Limits.{IsWithin};
    ghost use Rattle.tree_forms.specs.Trees as trees;
    ghost use Rattle.bool_weave.specs.Masks.{IsMask, mask_nodes};
    ghost use Rattle.scene_prep.specs.Writing.{Writes, WritesOne};

    /// Nothing yet.
    pub(crate) fn new(alloc: Global) -> Expansion
        ensures nodes { result.nodes.items ≡ [] }
        ensures solids { result.solids.items ≡ [] }
    {
        Expansion {
            nodes: Vec::new(alloc),
            solids: Vec::new(alloc),
        }
    }

    /// Puts a solid at the end.
    pub(crate) fn push_solid(
        &mut self,
        memo: &mut Memo,
        solid: &Solid,
        by: &Placement,
    ) -> Result<(), Memory>
        requires room { vec_len self.old.solids < 65536 }
        requires near { IsWithin SHIFT by.now.shift }
        ensures { IfOk result (λ _. Writes self.old self.new (trees.Leaf (Some (record { solid = solid.now; placements = by.now ∷ [] })))) }
    {
        let number = self.solids.len() as u32;
        let placed = memo.place(solid, by)?;
        self.solids.push(placed)?;
        self.nodes.push(MaskNode::Leaf(number))?;
        Ok(())
    }

    /// Puts a node at the end that stands for no solid.
    pub(crate) fn push_node(&mut self, node: MaskNode) -> Result<(), Memory>
        ensures { IfOk result (λ _. WritesOne self.old self.new node) }
    {
        self.nodes.push(node)?;
        Ok(())
    }

    /// The tree, and its solids.
    pub(crate) fn into_parts(self) -> (MaskTree, Vec<Placed>)
        requires { IsMask self.nodes.items }
        ensures tree { mask_nodes result.0 ≡ self.nodes.items }
        ensures solids { result.1.items ≡ self.solids.items }
    {
        let Expansion { nodes, solids } = self;
        (MaskTree::of_nodes(nodes), solids)
    }
}
