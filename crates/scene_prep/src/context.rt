ghost use Rattle.std.specs.Arc.{arc_value};
ghost use Rattle.shot_core.specs.Regions.{IsPathText};
ghost use Rattle.scene_prep.specs.Levels.{IsPlacedAbove};

use crate::body::BodyKey;
use crate::colour::Colour;
use crate::path::{no_path, path_of_node, path_to};
use crate::size::LEVELS;
use lattice_core::{Placement, compose};
use memory_core::Memory;
use name_core::Name;
use region_attr::Attr;
use shot_core::PathText;
use std::alloc::Global;
use std::sync::Arc;

/// Where something stands: the path of names that leads to it, how it is placed, and the colour there. At most `levels`
/// combinations lie one in the other from there.
#[derive(Drop)]
pub(crate) struct Context {
    path: Arc<PathText>,
    by: Placement,
    colour: Colour,
    levels: u32,
    pub ghost line: { IsPathText (arc_value path) },
    pub ghost near: { IsPlacedAbove levels by },
}

impl Context {
    ghost use Rattle.std.specs.Prelude.{◌≡◌, ◌<◌, ◌+◌, IfOk, Option};
    ghost use Rattle.std.specs.Arc.{arc_value};
    ghost use Rattle.lattice_core.specs.declared.limit.TheConstants.{COORD};
    ghost use Rattle.lattice_core.specs.Limits.{IsWithin};
    ghost use Rattle.shot_core.specs.Regions.{IsPathText};
    ghost use Rattle.scene_prep.specs.Steps.{path_to, path_to_node};
    ghost use Rattle.scene_prep.specs.Walking.{IsTop, IsShare, IsPlacedIn, IsWithinComb};

    /// Where the names stand that are given.
    pub(crate) fn top(alloc: Global) -> Result<Context, Memory>
        ensures { IfOk result IsTop }
    {
        Ok(Context {
            path: no_path(alloc)?,
            by: Placement::identity(),
            colour: Colour::white(),
            levels: LEVELS,
        })
    }

    /// Where the same stands.
    pub(crate) fn share(&self) -> Result<Context, Memory>
        ensures { IfOk result (λ share. IsShare self.now share) }
    {
        Ok(Context {
            path: Arc::try_clone(&self.path)?,
            by: self.by,
            colour: self.colour,
            levels: self.levels,
        })
    }

    /// Where a member stands that is placed.
    pub(crate) fn placed(&self, member: &Placement) -> Result<Context, Memory>
        requires deep { 0 < self.now.levels }
        requires member { IsWithin COORD member.now.shift }
        ensures { IfOk result (λ below. IsPlacedIn self.now member.now below) }
    {
        Ok(Context {
            path: Arc::try_clone(&self.path)?,
            by: compose(self.by, *member),
            colour: self.colour,
            levels: self.levels - 1,
        })
    }

    /// Where the tree of a combination stands that stands here.
    pub(crate) fn within(&self, alloc: Global, name: &Name, attr: &Attr) -> Result<Context, Memory>
        ensures { IfOk result (λ below. IsWithinComb self.now name.now attr.now below) }
    {
        Ok(Context {
            path: path_to(alloc, &self.path, name)?,
            by: self.by,
            colour: self.colour.under(attr),
            levels: self.levels,
        })
    }

    /// How many combinations lie one in the other at most below those that stand here.
    pub(crate) fn levels_below(&self) -> u32
        requires { 0 < self.now.levels }
        ensures { result + 1 ≡ self.now.levels }
    {
        self.levels - 1
    }

    /// The key of the body that an object, or the node of that number in its tree, has here.
    pub(crate) fn key(&self, name: &Name, node: Option<u32>) -> BodyKey
        ensures { result ≡ record { name = name.now; node = node; by = self.now.by; rgb = self.now.colour.rgb } }
    {
        BodyKey {
            name: *name,
            node,
            by: self.by,
            rgb: self.colour.rgb(),
        }
    }

    /// A share of the path.
    pub(crate) fn path(&self) -> Result<Arc<PathText>, Memory>
        ensures { IfOk result (λ p. arc_value p ≡ arc_value self.now.path) }
    {
        Ok(Arc::try_clone(&self.path)?)
    }

    /// The path of an object that stands here.
    pub(crate) fn path_to(&self, alloc: Global, name: &Name) -> Result<Arc<PathText>, Memory>
        ensures path { IfOk result (λ p. arc_value p ≡ path_to (arc_value self.now.path) name.now) }
        ensures line { IfOk result (λ p. IsPathText (arc_value p)) }
    {
        path_to(alloc, &self.path, name)
    }

    /// The path of the node of that number in the combination that leads here.
    pub(crate) fn path_of_node(&self, alloc: Global, number: u32) -> Result<Arc<PathText>, Memory>
        ensures path { IfOk result (λ p. arc_value p ≡ path_to_node (arc_value self.now.path) number) }
        ensures line { IfOk result (λ p. IsPathText (arc_value p)) }
    {
        path_of_node(alloc, &self.path, number)
    }
}
