use crate::digest::body_digest;
use crate::tree_box::tree_box;
use bool_weave::{MaskNode, MaskTree};
use item_list::Items;
use lattice_core::Box3;
use memory_core::Memory;
use region_attr::Rgb;
use solid_set::Placed;
use std::alloc::Global;
use std::marker::Model;
use std::sync::Arc;

/// The path of names that leads to a region.
pub type PathText = Items<u8>;

/// What a region is wherever it stands in a scene: its number, its air, its colour, its tree, its solids, its size, its box
/// and its hash. Contracts see all but the last three, which follow from the others.
#[derive(Debug, Drop)]
pub struct PrepRegion {
    id: u32,
    air: u32,
    rgb: Rgb,
    tree: MaskTree,
    solids: Vec<Placed>,
    size: u32,
    bounds: Box3,
    digest: u64,
}

impl Model for PrepRegion {
    ghost use Rattle.std.specs.Prelude.{◌≡◌, map};
    ghost use Rattle.shot_core.specs.Digests.{body_digest};
    ghost use Rattle.shot_core.specs.Regions.{RegionBody};
    ghost use Rattle.shot_core.specs.Prepared.{instance_of, IsPrepared, body_code};

    ghost Value = { RegionBody };

    ghost coded = { body_code };

    ghost view = { λ s. record { id = s.id; air = s.air; rgb = s.rgb; tree = s.tree; instances = map instance_of s.solids.items } };

    ghost invariant = { λ s. IsPrepared s.tree (map instance_of s.solids.items) s.size s.bounds × (s.digest ≡ body_digest (record { id = s.id; air = s.air; rgb = s.rgb; tree = s.tree; instances = map instance_of s.solids.items })) };
}

ghost use Rattle.std.specs.Prelude.{◌≡◌, ◌<◌, ◌^◌, length, filter};
ghost use Rattle.shot_core.specs.Steps.{is_leaf};

fn is_leaf(node: &MaskNode) -> bool
    ensures { result ≡ is_leaf node.now }
{
    matches!(node, MaskNode::Leaf(_) | MaskNode::Never)
}

/// How many of the nodes are leaves.
fn leaf_count(nodes: &[MaskNode]) -> u32
    requires { length (filter is_leaf nodes.now) < 2 ^ 32 }
    ensures { result ≡ length (filter is_leaf nodes.now) }
{
    let mut count = 0;
    for node in nodes {
        if is_leaf(node) {
            count += 1;
        }
    }
    count
}

impl PrepRegion {
    ghost use Rattle.std.specs.Prelude.{◌≡◌, ◌<◌, ◌^◌, IfOk, All, length, map, vec_len};
    ghost use Rattle.tree_forms.specs.Trees.{leaves};
    ghost use Rattle.shot_core.specs.Regions.{size_of, HasLeavesBelow, IsPlacedSolid};
    ghost use Rattle.shot_core.specs.Prepared.{instance_of, boxes_of};
    ghost use Rattle.shot_core.specs.Digests.{body_digest};
    ghost use Rattle.shot_core.specs.TreeBoxes.{tree_box};

    /// The region of these parts. Leaf `i` of the tree stands for solid `i`.
    pub fn new(
        alloc: Global,
        id: u32,
        air: u32,
        rgb: Rgb,
        tree: MaskTree,
        solids: Vec<Placed>,
    ) -> Result<PrepRegion, Memory>
        requires leaves { HasLeavesBelow (vec_len solids) tree }
        requires few { length (leaves tree) < 2 ^ 32 }
        ensures { IfOk result (λ r. r ≡ record { id = id; air = air; rgb = rgb; tree = tree; instances = map instance_of solids.items }) }
    {
        let bounds = tree_box(alloc, tree.nodes(), &solids)?;
        let size = leaf_count(tree.nodes());
        let digest = body_digest(id, air, &rgb, &tree, &solids);
        Ok(PrepRegion {
            id,
            air,
            rgb,
            tree,
            solids,
            size,
            bounds,
            digest,
        })
    }

    /// The region's number.
    pub fn id(&self) -> u32
        ensures { result ≡ self.now.id }
    {
        self.id
    }

    /// The number of its air; 0 where it is of no air.
    pub fn air(&self) -> u32
        ensures { result ≡ self.now.air }
    {
        self.air
    }

    /// Its colour.
    pub fn rgb(&self) -> Rgb
        ensures { result ≡ self.now.rgb }
    {
        self.rgb
    }

    /// Its tree, of which leaf `i` stands for solid `i`.
    pub fn tree(&self) -> &MaskTree
        ensures { result.now ≡ self.now.tree }
    {
        &self.tree
    }

    /// Its solids, from left to right.
    pub fn solids(&self) -> &[Placed]
        ensures value { map instance_of result.now ≡ self.now.instances }
        ensures leaves { HasLeavesBelow (length self.now.instances) self.now.tree }
        ensures placed { All IsPlacedSolid self.now.instances }
    {
        &self.solids
    }

    /// How many leaves the tree has, those that are always false too.
    pub fn size(&self) -> u32
        ensures { result ≡ size_of self.now }
    {
        self.size
    }

    /// The box of the tree: of a union and of an exclusive union the hull, of an intersection the meet, of a difference that of the left side. A leaf
    /// that is always false has none.
    pub fn bounds(&self) -> Box3
        ensures { result ≡ tree_box (boxes_of self.now.instances) self.now.tree }
    {
        self.bounds
    }

    /// The same box, lent: each ray asks for it.
    pub fn lent_bounds(&self) -> &Box3
        ensures { result.now ≡ tree_box (boxes_of self.now.instances) self.now.tree }
    {
        &self.bounds
    }

    /// The hash of all that contracts see of it. It is taken once, as the name of each tile that shows the region wants it.
    pub fn digest(&self) -> u64
        ensures { result ≡ body_digest self.now }
    {
        self.digest
    }
}

/// A region of a scene: its place, which is counted from 1, the path of names that leads to it, and what it is. Contracts
/// see it as these three. The path has no line feed, since a report prints it on one line.
#[derive(Debug, Drop)]
pub struct SceneRegion {
    place: u32,
    path: Arc<PathText>,
    body: Arc<PrepRegion>,
}

impl Model for SceneRegion {
    ghost use Rattle.std.specs.Arc.{arc_value};
    ghost use Rattle.shot_core.specs.Regions.{Region, IsPathText};
    ghost use Rattle.shot_core.specs.Prepared.{region_code};

    ghost Value = { Region };

    ghost coded = { region_code };

    ghost view = { λ s. record { place = s.place; path = arc_value s.path; body = arc_value s.body } };

    ghost invariant = { λ s. IsPathText (arc_value s.path) };
}

impl SceneRegion {
    ghost use Rattle.std.specs.Prelude.{◌≡◌};
    ghost use Rattle.std.specs.Arc.{arc_value};
    ghost use Rattle.shot_core.specs.Regions.{IsPathText};

    /// The region of that place. Its path has no line feed.
    pub fn new(place: u32, path: Arc<PathText>, body: Arc<PrepRegion>) -> SceneRegion
        requires { IsPathText (arc_value path) }
        ensures { result ≡ record { place = place; path = arc_value path; body = arc_value body } }
    {
        SceneRegion { place, path, body }
    }

    /// Its place in the scene, counted from 1.
    pub fn place(&self) -> u32
        ensures { result ≡ self.now.place }
    {
        self.place
    }

    /// The path of names that leads to it, which has no line feed.
    pub fn path(&self) -> &Arc<PathText>
        ensures value { arc_value result.now ≡ self.now.path }
        ensures line { IsPathText self.now.path }
    {
        &self.path
    }

    /// What it is, wherever it stands.
    pub fn body(&self) -> &Arc<PrepRegion>
        ensures { arc_value result.now ≡ self.now.body }
    {
        &self.body
    }
}
