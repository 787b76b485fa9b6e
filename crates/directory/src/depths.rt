ghost use Rattle.std.specs.Prelude.{◌≡◌, map, min, None, Some, IfOk};
ghost use Rattle.name_core.specs.declared.name.Name.{Name as Bytes};
ghost use Rattle.shared_pages.specs.Buckets.{value_of};
ghost use Rattle.object_pages.specs.Members.{name_of_node, node_names};
ghost use Rattle.directory.specs.Walks.{depth_over, greatest_of, unbounded};
ghost use Rattle.directory.specs.Closed.{depth_step, moved_depths, relaxed};
ghost use Rattle.directory.specs.Depths.{depth_kept};

use crate::levels::{UNBOUNDED, larger};
use comb_tree::CombNode;
use memory_core::Memory;
use name_core::Name;
use object_pages::ObjectPages;
use object_set::{Body, Object};
use shared_pages::SharedMap;
use std::alloc::Global;
use std::marker::Model;

/// The depth of each name, where it is over 0. A copy shares them all. Contracts see by `depth_kept` that of a name.
#[derive(Drop)]
pub(crate) struct Depths {
    levels: SharedMap<u8>,
}

impl Model for Depths {
    ghost use Rattle.std.specs.Prelude.{ℕ};
    ghost use Rattle.shared_pages.specs.Buckets.{Shelves};

    ghost Value = { Shelves ℕ };

    ghost view = { λ s. s.levels };
}

impl Depths {
    /// No name has a depth over 0. It takes no memory.
    pub(crate) fn new(alloc: Global) -> Depths
        ensures { (a : Bytes) → value_of result a ≡ None }
    {
        Depths {
            levels: SharedMap::new(alloc),
        }
    }

    /// The same depths again. They are all shared.
    pub(crate) fn copy(&self) -> Result<Depths, Memory>
        ensures { IfOk result (λ d. d ≡ self.now) }
    {
        let levels = self.levels.copy()?;
        Ok(Depths { levels })
    }

    /// The depth of a name.
    pub(crate) fn of(&self, name: &Name) -> u8
        ensures { result ≡ depth_kept self.now name.now }
    {
        match self.levels.get(name) {
            Some(depth) => *depth,
            None => 0,
        }
    }

    /// The depths with another one for a name. What others share stays as it is there.
    pub(crate) fn set(self, alloc: Global, name: &Name, depth: u8) -> Result<Depths, Memory>
        ensures { IfOk result (λ d. (a : Bytes) → depth_kept d a ≡ relaxed (depth_kept self) name.now depth a) }
    {
        let Depths { levels } = self;
        let levels = if depth == 0 {
            levels.remove(alloc, name)?
        } else {
            levels.put(alloc, name, depth)?
        };
        Ok(Depths { levels })
    }

    /// The depths after a name took the place of another one: it is as deep as that one was. A solid's name has none to move.
    pub(crate) fn rename(self, alloc: Global, old: &Name, new: &Name) -> Result<Depths, Memory>
        requires missed { depth_kept self new.now ≡ 0 }
        ensures { IfOk result (λ d. (a : Bytes) → depth_kept d a ≡ moved_depths (depth_kept self) old.now new.now a) }
    {
        let depth = self.of(old);
        if depth == 0 {
            return Ok(self);
        }
        let without = self.set(alloc, old, 0)?;
        without.set(alloc, new, depth)
    }

    /// The depth of the name of a leaf, 0 of another node.
    fn of_node(&self, node: &CombNode) -> u8
        ensures { result ≡ greatest_of (map (depth_kept self.now) (name_of_node node.now)) }
    {
        match node {
            CombNode::Leaf { name, .. } => self.of(name),
            _ => 0,
        }
    }

    /// The greatest depth of the names of the leaves.
    fn deepest_of(&self, nodes: &[CombNode]) -> u8
        ensures { result ≡ greatest_of (map (depth_kept self.now) (node_names nodes.now)) }
    {
        let mut most = 0;
        for node in nodes {
            most = larger(most, self.of_node(node));
        }
        most
    }

    /// The depth that its members give an object, 34 at most: 0 of a solid, and more of a combination.
    pub(crate) fn over(&self, object: &Object) -> u8
        ensures { result ≡ min unbounded (depth_over (Some object.now) (depth_kept self.now)) }
    {
        match object.body() {
            Body::Solid(_) => 0,
            Body::Comb { tree, .. } => {
                let below = self.deepest_of(tree.nodes());
                if below < UNBOUNDED {
                    below + 1
                } else {
                    UNBOUNDED
                }
            }
        }
    }

    /// The depth that the members of a name give it, 34 at most.
    pub(crate) fn step(&self, list: &ObjectPages, name: &Name) -> u8
        ensures { result ≡ depth_step list.now (depth_kept self.now) name.now }
    {
        match list.get(name) {
            Some(object) => self.over(object),
            None => 0,
        }
    }
}
