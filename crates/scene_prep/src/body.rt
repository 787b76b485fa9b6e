ghost use Rattle.std.specs.Prelude.{◌≡◌, ◌+◌, ◌≤◌, ◌<◌, ◌^◌, length, IfOk, OnOk, All, Some, map};
ghost use Rattle.std.specs.Arc.{arc_value};
ghost use Rattle.std.specs.Option.{option_map};
ghost use Rattle.lattice_core.specs.declared.limit.TheConstants.{SHIFT};
ghost use Rattle.lattice_core.specs.Limits.{IsWithin};
ghost use Rattle.tree_forms.specs.Trees.{Tree, leaves};
ghost use Rattle.comb_tree.specs.Nodes.{Member, comb_nodes};
ghost use Rattle.directory.specs.Walks.{IsSound, Entries};
ghost use Rattle.scene_prep.specs.Solids.{Expanded};
ghost use Rattle.scene_prep.specs.Expanding.{expanded, expanded_tree};
ghost use Rattle.scene_prep.specs.Regions.{NamedRegion, solid_region};
ghost use Rattle.scene_prep.specs.Sizes.{most_size};
ghost use Rattle.scene_prep.specs.Levels.{StandsWithin, IsPlacedAbove, nodes_size};
ghost use Rattle.scene_prep.specs.Walking.{body_at, body_under, IsWritten, finished, own_region, HasOwnShape, AreBodies, known_body};

use crate::expand::expand_nodes;
use crate::expansion::Expansion;
use crate::memo::Memo;
use comb_tree::CombNode;
use directory::Directory;
use lattice_core::Placement;
use memory_core::Memory;
use name_core::Name;
use region_attr::Rgb;
use shot_core::PrepRegion;
use solid_set::Solid;
use std::alloc::Global;
use std::collections::HashMap;
use std::sync::Arc;

/// What tells bodies of one directory apart: the object, the number of the node of its tree or `None` for all of it, and
/// where and in which colour it stands.
#[derive(Clone, Copy, Debug, PartialEq, Eq, Hash)]
pub(crate) struct BodyKey {
    pub name: Name,
    pub node: Option<u32>,
    pub by: Placement,
    pub rgb: Rgb,
}

/// The tree of a region: its nodes, the number and the air of the region, and how many combinations lie one in the other at
/// most below each of its members.
#[derive(Clone, Copy)]
pub(crate) struct Shape<'a> {
    pub nodes: &'a [CombNode],
    pub id: u32,
    pub air: u32,
    pub levels: u32,
}

/// The body of a tree that was written.
fn finish(
    alloc: Global,
    memo: &mut Memo,
    out: Expansion,
    id: u32,
    air: u32,
    rgb: Rgb,
) -> Result<Arc<PrepRegion>, Memory>
    requires { (tree : Expanded) × IsWritten out tree × (length (leaves tree) < 2 ^ 32) }
    ensures { IfOk result (λ body. (tree : Expanded) → IsWritten out tree → arc_value body ≡ finished rgb id air tree) }
{
    let (tree, solids) = out.into_parts();
    memo.body(alloc, id, air, rgb, tree, solids)
}

/// The body of a solid.
fn solid_body(
    alloc: Global,
    memo: &mut Memo,
    key: &BodyKey,
    solid: &Solid,
) -> Result<Arc<PrepRegion>, Memory>
    requires { IsWithin SHIFT key.now.by.shift }
    ensures { IfOk result (λ body. arc_value body ≡ body_under key.now.by key.now.rgb (solid_region key.now.name solid.now)) }
{
    let mut out = Expansion::new(alloc);
    out.push_solid(memo, solid, &key.by)?;
    finish(alloc, memo, out, 0, 0, key.rgb)
}

/// The body of a tree.
fn tree_body(
    alloc: Global,
    directory: &Directory,
    memo: &mut Memo,
    key: &BodyKey,
    shape: Shape<'_>,
) -> Result<Arc<PrepRegion>, Memory>
    requires sound { IsSound directory.now.objects }
    requires within { All (StandsWithin directory.now.objects shape.levels) shape.nodes.now }
    requires by { IsPlacedAbove (shape.levels + 1) key.now.by }
    requires room { nodes_size directory.now.objects shape.nodes.now ≤ most_size }
    requires tree { (tree : Tree Member) × (comb_nodes (Some tree) ≡ shape.nodes.now) }
    ensures { IfOk result (λ body. (tree : Tree Member) → comb_nodes (Some tree) ≡ shape.entry.nodes.now → arc_value body ≡ body_at key.now.by key.now.rgb shape.entry.id shape.entry.air (expanded_tree (expanded directory.now.objects) tree)) }
{
    let mut out = Expansion::new(alloc);
    expand_nodes(
        directory,
        &mut out,
        memo,
        shape.nodes,
        &key.by,
        shape.levels,
    )?;
    finish(alloc, memo, out, shape.id, shape.air, key.rgb)
}

/// Bodies that were prepared, to be shared by the regions that have them.
#[derive(Drop)]
pub(crate) struct Bodies {
    known: HashMap<BodyKey, Arc<PrepRegion>>,
}

impl Bodies {
    pub(crate) fn new(alloc: Global) -> Bodies
        ensures { (directory : Entries) → AreBodies directory result }
    {
        Bodies {
            known: HashMap::new(alloc),
        }
    }

    /// A share of the body of a key, where one is known.
    fn find(&self, key: &BodyKey) -> Result<Option<Arc<PrepRegion>>, Memory>
        ensures { IfOk result (λ body. option_map arc_value body ≡ known_body self.now key.now) }
    {
        match self.known.get(key) {
            Some(body) => Ok(Some(Arc::try_clone(body)?)),
            None => Ok(None),
        }
    }

    /// Keeps a share of the body of a key.
    fn keep(
        &mut self,
        directory: &Directory,
        key: &BodyKey,
        body: &Arc<PrepRegion>,
    ) -> Result<(), Memory>
        requires known { AreBodies directory.now.objects self.old }
        requires body { (region : NamedRegion) → own_region directory.now.objects key.now.name key.now.node ≡ Some region → arc_value body.now ≡ body_under key.now.by key.now.rgb region }
        ensures { OnOk result (AreBodies directory.now.objects self.new) }
    {
        let share = Arc::try_clone(body)?;
        self.known.insert(*key, share)?;
        Ok(())
    }

    /// A share of the body of a solid, which is prepared where it is not known yet.
    pub(crate) fn of_solid(
        &mut self,
        alloc: Global,
        directory: &Directory,
        memo: &mut Memo,
        key: &BodyKey,
        solid: &Solid,
    ) -> Result<Arc<PrepRegion>, Memory>
        requires near { IsWithin SHIFT key.now.by.shift }
        requires own { own_region directory.now.objects key.now.name key.now.node ≡ Some (solid_region key.now.name solid.now) }
        requires known { AreBodies directory.now.objects self.old }
        ensures body { IfOk result (λ body. arc_value body ≡ body_under key.now.by key.now.rgb (solid_region key.now.name solid.now)) }
        ensures known { OnOk result (AreBodies directory.now.objects self.new) }
    {
        if let Some(body) = self.find(key)? {
            return Ok(body);
        }
        let body = solid_body(alloc, memo, key, solid)?;
        self.keep(directory, key, &body)?;
        Ok(body)
    }

    /// A share of the body of a tree, which is prepared where it is not known yet.
    pub(crate) fn of_tree(
        &mut self,
        alloc: Global,
        directory: &Directory,
        memo: &mut Memo,
        key: &BodyKey,
        shape: Shape<'_>,
    ) -> Result<Arc<PrepRegion>, Memory>
        requires sound { IsSound directory.now.objects }
        requires within { All (StandsWithin directory.now.objects shape.levels) shape.nodes.now }
        requires by { IsPlacedAbove (shape.levels + 1) key.now.by }
        requires room { nodes_size directory.now.objects shape.nodes.now ≤ most_size }
        requires own { HasOwnShape directory.now.objects key.now.name key.now.node shape }
        requires known { AreBodies directory.now.objects self.old }
        ensures body { IfOk result (λ body. (region : NamedRegion) → own_region directory.now.objects key.now.name key.now.node ≡ Some region → arc_value body ≡ body_under key.now.by key.now.rgb region) }
        ensures known { OnOk result (AreBodies directory.now.objects self.new) }
    {
        if let Some(body) = self.find(key)? {
            return Ok(body);
        }
        let body = tree_body(alloc, directory, memo, key, shape)?;
        self.keep(directory, key, &body)?;
        Ok(body)
    }
}
